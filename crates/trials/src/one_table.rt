// The plain side of a day: one table of whole rows, which tests every rule against every row.
use crate::plain_rules::{PlainRule, has};
use std::alloc::AllocError;

// As many columns as the days have at most.
pub const COLUMNS: usize = 6;

// Cells behind the table's last column are 0.
pub type Row = [u64; COLUMNS];

// What is told of a row that is put in or taken out.
#[derive(Clone, Copy, PartialEq, Eq, Debug)]
pub enum Answer {
    Done,
    Present,
    Broken,
    Absent,
    // What no table tells of a row.
    Other(u64),
}

impl From<u64> for Answer {
    // The answer of a refusal's number, or of 0.
    fn from(number: u64) -> Self {
        match number {
            0 => Answer::Done,
            8 => Answer::Present,
            9 => Answer::Broken,
            10 => Answer::Absent,
            _ => Answer::Other(number),
        }
    }
}

#[derive(Drop)]
pub struct OneTable {
    pub rows: Vec<Row>,
}

fn agree(one: &Row, two: &Row, set: u64) -> bool {
    for (c, (a, b)) in one.iter().zip(two.iter()).enumerate() {
        if has(set, c) && a != b {
            return false;
        }
    }
    true
}

fn breaks_some(rules: &[PlainRule], one: &Row, two: &Row) -> bool {
    for rule in rules {
        if agree(one, two, rule.left) && !agree(one, two, rule.right) {
            return true;
        }
    }
    false
}

impl OneTable {
    fn place_of(&self, row: &Row) -> Option<usize> {
        self.rows
            .iter()
            .position(|other| agree(row, other, u64::MAX))
    }

    pub fn holds(&self, row: &Row) -> bool {
        self.place_of(row).is_some()
    }

    fn allows(&self, rules: &[PlainRule], row: &Row) -> bool {
        for other in self.rows.iter() {
            if breaks_some(rules, row, other) {
                return false;
            }
        }
        true
    }

    pub fn put_in(&mut self, rules: &[PlainRule], row: &Row) -> Result<Answer, AllocError> {
        if self.holds(row) {
            return Ok(Answer::Present);
        }
        if !self.allows(rules, row) {
            return Ok(Answer::Broken);
        }
        self.rows.push(*row)?;
        Ok(Answer::Done)
    }

    pub fn take_out(&mut self, row: &Row) -> Answer {
        let Some(i) = self.place_of(row) else {
            return Answer::Absent;
        };
        if i < self.rows.len() {
            let _ = self.rows.remove(i);
        }
        Answer::Done
    }
}
