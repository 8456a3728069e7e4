// Random ways to lay a table into parts: some are designs, and most miss a condition.
use crate::generator::Random;
use crate::plain_design::{Obeying, PlainDesign, PlainPart};
use crate::plain_rules::{PlainRule, PlainRules, all_columns, random_rule};
use schema::design_for;
use std::alloc::{AllocError, Global};

// A row of numbers that is read from the front; behind its end it reads as 0.
#[derive(Drop)]
struct Numbers<'a> {
    left: &'a [u64],
}

impl<'a> Numbers<'a> {
    fn next(&mut self) -> u64 {
        match self.left {
            [first, rest @ ..] => {
                self.left = rest;
                *first
            }
            [] => 0,
        }
    }
}

fn next_rules(heap: Global, numbers: &mut Numbers) -> Result<Vec<PlainRule>, AllocError> {
    let mut rules = Vec::new(heap);
    for _ in 0..numbers.next() {
        let left = numbers.next();
        let right = numbers.next();
        rules.push(PlainRule { left, right })?;
    }
    Ok(rules)
}

// The design that is made for the rules, read back from the lent row.
pub fn made(heap: Global, rules: &PlainRules) -> Result<PlainDesign, AllocError> {
    let lent = rules.lent(heap)?;
    let mut row = vec![in heap; 0; 2100]?;
    let _ = design_for(lent.as_slice(), row.as_mut_slice());
    let mut numbers = Numbers {
        left: row.as_slice(),
    };
    let mut parts = Vec::new(heap);
    for _ in 0..numbers.next() {
        let set = numbers.next();
        let own = next_rules(heap, &mut numbers)?;
        parts.push(PlainPart { set, own })?;
    }
    Ok(PlainDesign { parts })
}

// All columns but one, or a random set; once in a while with a column that the table does not have.
fn random_part(random: &mut Random, columns: u64) -> u64 {
    match random.below(40) {
        0 => random.set(columns.saturating_add(1)),
        1..=19 => random.set(columns),
        _ => all_columns(columns) & !(1 << random.below(3)),
    }
}

// A rule inside the set, but for one in twenty.
fn own_rule(random: &mut Random, set: u64, columns: u64) -> PlainRule {
    let rule = random_rule(random, columns, 1);
    match random.below(20) {
        0 => rule,
        _ => PlainRule {
            left: rule.left & set,
            right: rule.right & set,
        },
    }
}

// All that the given rules say inside the set.
fn projected(heap: Global, obeying: &Obeying, set: u64) -> Result<Vec<PlainRule>, AllocError> {
    let mut own = Vec::new(heap);
    for left in 0..8u64 {
        for c in 0..3u32 {
            let right = 1u64 << c;
            if (left | right) & set == left | right
                && left & right == 0
                && obeying.fix(left, right)
            {
                own.push(PlainRule { left, right })?;
            }
        }
    }
    Ok(own)
}

// Random parts, with all rules that hold in them or with random ones.
pub fn random_parts(
    heap: Global,
    random: &mut Random,
    columns: u64,
    obeying: &Obeying,
) -> Result<PlainDesign, AllocError> {
    let mut parts = Vec::new(heap);
    let count = random.below(3).saturating_add(1);
    for _ in 0..count {
        let set = random_part(random, columns);
        let mut own = match random.below(4) {
            0 => Vec::new(heap),
            _ => projected(heap, obeying, set)?,
        };
        if random.below(4) == 0 {
            own.push(own_rule(random, set, columns))?;
        }
        parts.push(PlainPart { set, own })?;
    }
    Ok(PlainDesign { parts })
}

// One part of all columns with the given rules.
pub fn one_part(heap: Global, rules: &PlainRules) -> Result<PlainDesign, AllocError> {
    let mut own = Vec::new(heap);
    for rule in rules.list.iter() {
        own.push(*rule)?;
    }
    let set = all_columns(rules.columns);
    let mut parts = Vec::new(heap);
    parts.push(PlainPart { set, own })?;
    Ok(PlainDesign { parts })
}

impl PlainDesign {
    // Without one of its parts.
    pub fn drop_part(&mut self, random: &mut Random) {
        let i = random.below(3) as usize;
        if i < self.parts.len() {
            let _ = self.parts.remove(i);
        }
    }

    // Without the last rule of one of its parts.
    pub fn drop_rule(&mut self, random: &mut Random) {
        let i = random.below(3) as usize;
        if let Some(part) = self.parts.get_mut(i) {
            let _ = part.own.pop();
        }
    }

    // With a random rule more in one of its parts.
    pub fn add_rule(&mut self, random: &mut Random, columns: u64) -> Result<(), AllocError> {
        let i = random.below(3) as usize;
        if let Some(part) = self.parts.get_mut(i) {
            let rule = own_rule(random, part.set, columns);
            part.own.push(rule)?;
        }
        Ok(())
    }

    // With a random part more.
    pub fn add_part(
        &mut self,
        heap: Global,
        random: &mut Random,
        columns: u64,
    ) -> Result<(), AllocError> {
        let set = random_part(random, columns);
        self.parts.push(PlainPart {
            set,
            own: Vec::new(heap),
        })?;
        Ok(())
    }
}

// A random splitting for the rules: parts drawn at random, or the design made for them, as it is or altered.
pub fn random_splitting(
    heap: Global,
    random: &mut Random,
    rules: &PlainRules,
    obeying: &Obeying,
) -> Result<PlainDesign, AllocError> {
    let columns = rules.columns;
    let mut design = made(heap, rules)?;
    match random.below(12) {
        0 => {}
        1 => design.drop_part(random),
        2 => design.drop_rule(random),
        3 | 4 => design.add_rule(random, columns)?,
        5 => design.add_part(heap, random, columns)?,
        6 => design = one_part(heap, rules)?,
        _ => design = random_parts(heap, random, columns, obeying)?,
    }
    Ok(design)
}
