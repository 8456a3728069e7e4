// Random closures, of all sets of columns, beside passes over plain numbers.
use crate::brute_force::closed;
use crate::generator::Random;
use crate::plain_rules::{PlainRules, ShownSet, Size, random_rules, set_count};
use anyhow::anyhow;
use columns::ColumnSet;
use dependencies::{RuleSet, closure, read_rules};

const TRIALS: u32 = 10000;

const SIZE: Size = Size {
    columns: 6,
    rules: 6,
};

fn asked(set: &RuleSet, start: u64) -> Option<u64> {
    let start = ColumnSet::from_bits(start, set.width())?;
    Some(closure(set.rules(), start).bits())
}

// The first set whose two closures differ.
fn first_difference(rules: &PlainRules, set: &RuleSet) -> Option<u64> {
    for start in 0..set_count(rules.columns) {
        if asked(set, start) != Some(closed(rules.list.as_slice(), start)) {
            return Some(start);
        }
    }
    None
}

fn show(rt: &HostRuntime, rules: &PlainRules, set: &RuleSet, start: u64) -> anyhow::Result<()> {
    let from = ShownSet(start);
    let plain = ShownSet(closed(rules.list.as_slice(), start));
    println!(rt; "closures: a difference with {rules}, from {from}")?;
    println!(rt; "  by passes over numbers {plain}")?;
    match asked(set, start) {
        Some(bits) => {
            let proved = ShownSet(bits);
            println!(rt; "  by closure {proved}")?;
        }
        None => println!(rt; "  by closure none")?,
    }
    Ok(())
}

// One line; or the first difference in full.
pub fn run(rt: &HostRuntime) -> anyhow::Result<()> {
    let mut random = Random::from_start(2);
    let mut asked = 0u64;
    for _ in 0..TRIALS {
        let rules = random_rules(rt.alloc(), &mut random, SIZE)?;
        let lent = rules.lent(rt.alloc())?;
        let Ok(set) = read_rules(lent.as_slice()) else {
            return Err(anyhow!("{:?}", "random rules are refused"));
        };
        if let Some(start) = first_difference(&rules, &set) {
            return show(rt, &rules, &set, start);
        }
        asked = asked.saturating_add(set_count(rules.columns));
    }
    println!(rt; "closures: {asked} sets under {TRIALS} random lists of rules; no difference")?;
    Ok(())
}
