// The plain side of closures, keys and implications: everything is tried.
use crate::plain_rules::{PlainRule, PlainRules, has, is_inside, set_count};
use std::alloc::{AllocError, Global};

// Passes over the rules until one adds nothing. Each of the others adds a column, so they are no more than a number has bits.
pub fn closed(rules: &[PlainRule], set: u64) -> u64 {
    let mut all = set;
    for _ in 0..65 {
        let before = all;
        for rule in rules {
            if is_inside(rule.left, all) {
                all |= rule.right;
            }
        }
        if all == before {
            break;
        }
    }
    all
}

// Whether a set stands before another: the columns are compared one by one from the lowest, and a set stands before one that it begins.
fn precedes(one: u64, other: u64) -> bool {
    for c in 0..64usize {
        if has(one, c) && !has(other, c) {
            // The other has a higher column next, or none.
            return other >> c != 0;
        }
        if has(other, c) && !has(one, c) {
            return one >> c == 0;
        }
    }
    false
}

fn place_among(set: u64, end: u64) -> u64 {
    let mut before = 0u64;
    for other in 0..end {
        if precedes(other, set) {
            before = before.saturating_add(1);
        }
    }
    before
}

// All sets of so many columns, in their order.
pub fn sets_in_order(heap: Global, columns: u64) -> Result<Vec<u64>, AllocError> {
    let mut sets = Vec::new(heap);
    let count = set_count(columns);
    for place in 0..count {
        for set in 0..count {
            if place_among(set, count) == place {
                sets.push(set)?;
            }
        }
    }
    Ok(sets)
}

// Whether some set inside this one, other than itself, fixes the target.
fn less_fixes(rules: &[PlainRule], set: u64, target: u64) -> bool {
    for less in 0..set {
        if is_inside(less, set) && is_inside(target, closed(rules, less)) {
            return true;
        }
    }
    false
}

// The keys of the target, in order, by testing every set.
pub fn keys_of(
    heap: Global,
    rules: &[PlainRule],
    sets: &[u64],
    target: u64,
) -> Result<Vec<u64>, AllocError> {
    let mut keys = Vec::new(heap);
    for set in sets {
        if is_inside(*set, target)
            && is_inside(target, closed(rules, *set))
            && !less_fixes(rules, *set, target)
        {
            keys.push(*set)?;
        }
    }
    Ok(keys)
}

// Whether two rows that agree in these columns alone obey a rule.
pub fn obeys(agree: u64, rule: PlainRule) -> bool {
    !is_inside(rule.left, agree) || is_inside(rule.right, agree)
}

pub fn obeys_all(agree: u64, rules: &[PlainRule]) -> bool {
    for rule in rules {
        if !obeys(agree, *rule) {
            return false;
        }
    }
    true
}

// All tables of two rows of cells 0 and 1 that obey the rules. Only where the two agree matters to rules, so each table is
// given by that set.
pub fn two_row_tables(heap: Global, rules: &PlainRules) -> Result<Vec<u64>, AllocError> {
    let mut tables = Vec::new(heap);
    for agree in 0..set_count(rules.columns) {
        if obeys_all(agree, rules.list.as_slice()) {
            tables.push(agree)?;
        }
    }
    Ok(tables)
}

// Whether the rule holds in all of these tables.
pub fn holds_in_all(tables: &[u64], rule: PlainRule) -> bool {
    for agree in tables {
        if !obeys(*agree, rule) {
            return false;
        }
    }
    true
}
