// Random least sets: whether they say the same and nothing can be left out, by passes over plain numbers.
use crate::brute_force::closed;
use crate::generator::Random;
use crate::plain_rules::{PlainRule, PlainRules, Size, is_inside, random_rules, set_count};
use cover::least_set_for;
use std::alloc::{AllocError, Global};

const TRIALS: u32 = 5000;

const SIZE: Size = Size {
    columns: 6,
    rules: 8,
};

// The least set that is given, read from the lent row.
fn least(heap: Global, rules: &PlainRules) -> Result<Vec<PlainRule>, AllocError> {
    let lent = rules.lent(heap)?;
    let mut row = vec![in heap; 0; 2100]?;
    let count = least_set_for(lent.as_slice(), row.as_mut_slice()).unwrap_or(0) as usize;
    let mut least = Vec::new(heap);
    for sets in row
        .as_slice()
        .get(1..)
        .unwrap_or(&[])
        .chunks_exact(2)
        .take(count)
    {
        if let [left, right] = sets {
            least.push(PlainRule {
                left: *left,
                right: *right,
            })?;
        }
    }
    Ok(least)
}

// Whether both lists of rules give every set the same closure.
fn say_the_same(one: &[PlainRule], other: &[PlainRule], columns: u64) -> bool {
    for set in 0..set_count(columns) {
        if closed(one, set) != closed(other, set) {
            return false;
        }
    }
    true
}

// Whether the rule follows from the others.
fn is_redundant(heap: Global, least: &[PlainRule], place: usize) -> Result<bool, AllocError> {
    let mut others = Vec::new(heap);
    let mut asked = PlainRule { left: 0, right: 0 };
    for (i, rule) in least.iter().enumerate() {
        if i == place {
            asked = *rule;
        } else {
            others.push(*rule)?;
        }
    }
    Ok(is_inside(asked.right, closed(others.as_slice(), asked.left)))
}

// Whether the right column is one, and no smaller left set fixes it.
fn is_reduced(least: &[PlainRule], rule: PlainRule) -> bool {
    if rule.right.count_ones() != 1 {
        return false;
    }
    for less in 0..rule.left {
        if is_inside(less, rule.left) && is_inside(rule.right, closed(least, less)) {
            return false;
        }
    }
    true
}

fn is_least(heap: Global, rules: &PlainRules, least: &[PlainRule]) -> Result<bool, AllocError> {
    for (i, rule) in least.iter().enumerate() {
        if !is_reduced(least, *rule) || is_redundant(heap, least, i)? {
            return Ok(false);
        }
    }
    Ok(say_the_same(rules.list.as_slice(), least, rules.columns))
}

fn show(rt: &HostRuntime, rules: &PlainRules, least: &[PlainRule]) -> anyhow::Result<()> {
    println!(rt; "least sets: one that is none, with {rules}")?;
    for rule in least {
        println!(rt; "  {rule}")?;
    }
    Ok(())
}

// One line; or the first that is none.
pub fn run(rt: &HostRuntime) -> anyhow::Result<()> {
    let mut random = Random::from_start(7);
    let mut count = 0u64;
    for _ in 0..TRIALS {
        let rules = random_rules(rt.alloc(), &mut random, SIZE)?;
        let least = least(rt.alloc(), &rules)?;
        if !is_least(rt.alloc(), &rules, least.as_slice())? {
            return show(rt, &rules, least.as_slice());
        }
        count = count.saturating_add(least.len() as u64);
    }
    println!(rt;
        "least sets: {count} rules, in place of {TRIALS} random lists; each set is least"
    )?;
    Ok(())
}
