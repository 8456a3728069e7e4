// Rules as plain numbers, for the plain side of a trial: a set is a number in which 2^c stands for column c.
// The crates are lent the same numbers.
use crate::generator::Random;
use std::alloc::{AllocError, Global};
use std::fmt;

#[derive(Clone, Copy)]
pub struct PlainRule {
    pub left: u64,
    pub right: u64,
}

#[derive(Drop)]
pub struct PlainRules {
    pub columns: u64,
    pub list: Vec<PlainRule>,
}

// How many columns and rules there are at most.
#[derive(Clone, Copy)]
pub struct Size {
    pub columns: u32,
    pub rules: u32,
}

// How many sets of so many columns there are; they are the numbers below.
pub fn set_count(columns: u64) -> u64 {
    1 << columns.min(63)
}

pub fn all_columns(columns: u64) -> u64 {
    set_count(columns).wrapping_sub(1)
}

pub fn has(set: u64, column: usize) -> bool {
    (set >> (column % 64)) & 1 == 1
}

pub fn is_inside(one: u64, other: u64) -> bool {
    one & other == one
}

pub fn random_rule(random: &mut Random, columns: u64, thin: u64) -> PlainRule {
    let left = random.thin_set(columns, thin);
    let right = random.thin_set(columns, thin);
    PlainRule { left, right }
}

// The more columns, the thinner the sets may be, so that one rule does not fix all. Tables of many columns come more often than those
// of few.
pub fn random_rules(
    heap: Global,
    random: &mut Random,
    size: Size,
) -> Result<PlainRules, AllocError> {
    let columns = random
        .below(size.columns)
        .max(random.below(size.columns))
        .saturating_add(1);
    let thin = random.below((columns as u32) / 4 + 1).saturating_add(1);
    let count = random.below(size.rules.saturating_add(1));
    let mut list = Vec::new(heap);
    for _ in 0..count {
        list.push(random_rule(random, columns, thin))?;
    }
    Ok(PlainRules { columns, list })
}

// Adds the two sets of each rule.
pub fn push_rules(row: &mut Vec<u64>, rules: &[PlainRule]) -> Result<(), AllocError> {
    for rule in rules {
        row.push(rule.left)?;
        row.push(rule.right)?;
    }
    Ok(())
}

impl PlainRules {
    // The row of numbers that the crates are lent.
    pub fn lent(&self, heap: Global) -> Result<Vec<u64>, AllocError> {
        let mut row = Vec::new(heap);
        row.push(self.columns)?;
        row.push(self.list.len() as u64)?;
        push_rules(&mut row, self.list.as_slice())?;
        Ok(row)
    }
}

// A set as its columns in braces.
#[derive(Clone, Copy)]
pub struct ShownSet(pub u64);

impl fmt::Display for ShownSet {
    fn fmt<W: fmt::Write>(&self, f: &mut fmt::Formatter<W>) -> fmt::Result {
        write!(f, "{{")?;
        for c in 0..64usize {
            if has(self.0, c) {
                write!(f, " {c}")?;
            }
        }
        write!(f, " }}")
    }
}

impl fmt::Display for PlainRule {
    fn fmt<W: fmt::Write>(&self, f: &mut fmt::Formatter<W>) -> fmt::Result {
        let left = ShownSet(self.left);
        let right = ShownSet(self.right);
        write!(f, "{left} > {right}")
    }
}

impl fmt::Display for PlainRules {
    fn fmt<W: fmt::Write>(&self, f: &mut fmt::Formatter<W>) -> fmt::Result {
        let columns = self.columns;
        write!(f, "{columns} columns")?;
        for rule in self.list.iter() {
            write!(f, ", {rule}")?;
        }
        Ok(())
    }
}
