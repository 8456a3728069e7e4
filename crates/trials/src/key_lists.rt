// Random lists of keys, of all sets of columns, beside testing every set.
use crate::brute_force::{keys_of, sets_in_order};
use crate::generator::Random;
use crate::plain_rules::{PlainRules, ShownSet, Size, random_rules, set_count};
use keys::candidate_keys;
use std::alloc::{AllocError, Global};

const TRIALS: u32 = 3000;

const SIZE: Size = Size {
    columns: 6,
    rules: 6,
};

// Both lists of keys of a set.
#[derive(Drop)]
struct Lists {
    proved: Vec<u64>,
    plain: Vec<u64>,
}

// A set of six columns has no more than 20 keys.
fn listed(heap: Global, lent: &[u64], target: u64) -> Result<Vec<u64>, AllocError> {
    let mut row = vec![in heap; 0; 64]?;
    let count = candidate_keys(lent, target, row.as_mut_slice()).unwrap_or(0);
    row.truncate(count as usize);
    Ok(row)
}

fn both(heap: Global, rules: &PlainRules, sets: &[u64], target: u64) -> Result<Lists, AllocError> {
    let lent = rules.lent(heap)?;
    Ok(Lists {
        proved: listed(heap, lent.as_slice(), target)?,
        plain: keys_of(heap, rules.list.as_slice(), sets, target)?,
    })
}

fn show_keys(rt: &HostRuntime, side: &str, list: &[u64]) -> anyhow::Result<()> {
    println!(rt; "  {side}")?;
    for key in list {
        let key = ShownSet(*key);
        println!(rt; "    {key}")?;
    }
    Ok(())
}

fn show(rt: &HostRuntime, rules: &PlainRules, target: u64, lists: &Lists) -> anyhow::Result<()> {
    let of = ShownSet(target);
    println!(rt; "keys: a difference with {rules}, of {of}")?;
    show_keys(rt, "by candidate_keys", lists.proved.as_slice())?;
    show_keys(rt, "by testing every set", lists.plain.as_slice())
}

// All sets of columns under random rules: how many keys they have; none after a difference, which is shown.
fn keys_under(rt: &HostRuntime, rules: &PlainRules, sets: &[u64]) -> anyhow::Result<Option<u64>> {
    let mut keys = 0u64;
    for target in 0..set_count(rules.columns) {
        let lists = both(rt.alloc(), rules, sets, target)?;
        if lists.proved.as_slice() != lists.plain.as_slice() {
            show(rt, rules, target, &lists)?;
            return Ok(None);
        }
        keys = keys.saturating_add(lists.plain.len() as u64);
    }
    Ok(Some(keys))
}

// One line; or the first difference in full.
pub fn run(rt: &HostRuntime) -> anyhow::Result<()> {
    let sets = sets_in_order(rt.alloc(), SIZE.columns as u64)?;
    let mut random = Random::from_start(3);
    let mut asked = 0u64;
    let mut keys = 0u64;
    for _ in 0..TRIALS {
        let rules = random_rules(rt.alloc(), &mut random, SIZE)?;
        let Some(more) = keys_under(rt, &rules, sets.as_slice())? else {
            return Ok(());
        };
        keys = keys.saturating_add(more);
        asked = asked.saturating_add(set_count(rules.columns));
    }
    println!(rt;
        "keys: {keys} of {asked} sets under {TRIALS} random lists of rules; no difference"
    )?;
    Ok(())
}
