// Random splittings of small tables through the tester of designs, beside the five conditions by their words.
use crate::generator::Random;
use crate::plain_design::{Missed, Obeying, PlainDesign};
use crate::plain_rules::{PlainRules, Size, random_rules};
use crate::small_tables::{COLUMNS, SmallTables, all_small_tables};
use crate::splittings::random_splitting;
use anyhow::anyhow;
use dependencies::Refusal;
use std::alloc::{AllocError, Global};
use std::fmt;
use verdict::{CheckFailure, check_design};

const TRIALS: u32 = 5000;

// How many splittings there are for each list of rules.
const SPLITTINGS: u32 = 6;

const SIZE: Size = Size {
    columns: COLUMNS as u32,
    rules: 4,
};

// How often each condition was the first that was missed.
#[derive(Clone, Copy)]
struct Tally {
    designs: u64,
    missed: [u64; 5],
}

impl Tally {
    fn count(&mut self, verdict: Result<(), Missed>) {
        match verdict {
            Ok(()) => self.designs = self.designs.saturating_add(1),
            Err(missed) => {
                let place = missed.number().saturating_sub(1) as usize;
                if let Some(count) = self.missed.get_mut(place) {
                    *count = count.saturating_add(1);
                }
            }
        }
    }
}

impl fmt::Display for Tally {
    fn fmt<W: fmt::Write>(&self, f: &mut fmt::Formatter<W>) -> fmt::Result {
        let designs = self.designs;
        write!(f, "{designs} are designs")?;
        for (i, count) in self.missed.iter().enumerate() {
            let condition = i.saturating_add(1);
            write!(f, ", {count} miss {condition}")?;
        }
        Ok(())
    }
}

// What the tester says.
fn asked(
    heap: Global,
    rules: &PlainRules,
    design: &PlainDesign,
) -> Result<Result<(), CheckFailure>, AllocError> {
    let rules = rules.lent(heap)?;
    let design = design.lent(heap)?;
    let mut tableau = [[0; 16]; 8];
    Ok(check_design(rules.as_slice(), design.as_slice(), &mut tableau))
}

// Whether both sides say that it is a design, or the same number of the first condition that it misses.
fn same(plain: Result<(), Missed>, proved: Result<(), CheckFailure>) -> bool {
    match (plain, proved) {
        (Ok(()), Ok(())) => true,
        (Err(missed), Err(CheckFailure::Refused(Refusal::NotADesign(condition)))) => {
            missed.number() == condition.number()
        }
        _ => false,
    }
}

fn show(rt: &HostRuntime, rules: &PlainRules, design: &PlainDesign) -> anyhow::Result<()> {
    println!(rt; "verdicts: a difference with {rules}")?;
    for part in design.parts.iter() {
        println!(rt; "  {part}")?;
    }
    Ok(())
}

// The splittings of one list of rules; whether there is no difference, and else it is shown.
fn agrees(
    rt: &HostRuntime,
    random: &mut Random,
    worlds: &[SmallTables],
    tally: &mut Tally,
) -> anyhow::Result<bool> {
    let rules = random_rules(rt.alloc(), random, SIZE)?;
    let Some(tables) = worlds.get((rules.columns as usize).saturating_sub(1)) else {
        return Err(anyhow!("{:?}", "no tables of so many columns"));
    };
    let obeying = Obeying::of(rt.alloc(), tables, &rules)?;
    for _ in 0..SPLITTINGS {
        let design = random_splitting(rt.alloc(), random, &rules, &obeying)?;
        let plain = design.verdict(tables, &obeying, &rules);
        let proved = asked(rt.alloc(), &rules, &design)?;
        if !same(plain, proved) {
            show(rt, &rules, &design)?;
            println!(rt; "  by small tables {plain:?}, by check_design {proved:?}")?;
            return Ok(false);
        }
        tally.count(plain);
    }
    Ok(true)
}

// One line; or the first difference in full.
pub fn run(rt: &HostRuntime) -> anyhow::Result<()> {
    let worlds = all_small_tables(rt.alloc())?;
    let mut random = Random::from_start(5);
    let mut tally = Tally {
        designs: 0,
        missed: [0; 5],
    };
    for _ in 0..TRIALS {
        if !agrees(rt, &mut random, worlds.as_slice(), &mut tally)? {
            return Ok(());
        }
    }
    println!(rt;
        "verdicts: {SPLITTINGS} splittings for each of {TRIALS} random lists of rules: {tally}; no difference"
    )?;
    Ok(())
}
