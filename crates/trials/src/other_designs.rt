// Random days in designs that are mostly not the made ones: what a register answers is the same in any design for the rules.
use crate::days::{DEEDS, Tally, day};
use crate::generator::Random;
use crate::plain_design::Obeying;
use crate::plain_rules::{PlainRules, Size, random_rules};
use crate::small_tables::{COLUMNS, SmallTables, all_small_tables};
use crate::splittings::random_splitting;
use std::alloc::{AllocError, Global};

const TRIALS: u32 = 10000;

const SIZE: Size = Size {
    columns: COLUMNS as u32,
    rules: 4,
};

// A random splitting as it is lent, if it is a design for the rules.
fn some_design(
    heap: Global,
    random: &mut Random,
    rules: &PlainRules,
    worlds: &[SmallTables],
) -> Result<Option<Vec<u64>>, AllocError> {
    let Some(tables) = worlds.get((rules.columns as usize).saturating_sub(1)) else {
        return Ok(None);
    };
    let obeying = Obeying::of(heap, tables, rules)?;
    let design = random_splitting(heap, random, rules, &obeying)?;
    if design.verdict(tables, &obeying, rules).is_err() {
        return Ok(None);
    }
    Ok(Some(design.lent(heap)?))
}

// One line; or the first day on which the two differ, in full.
pub fn run(rt: &HostRuntime) -> anyhow::Result<()> {
    let worlds = all_small_tables(rt.alloc())?;
    let mut random = Random::from_start(8);
    let mut tally = Tally::new();
    let mut designs = 0u64;
    for _ in 0..TRIALS {
        let rules = random_rules(rt.alloc(), &mut random, SIZE)?;
        let Some(design) = some_design(rt.alloc(), &mut random, &rules, worlds.as_slice())? else {
            continue;
        };
        let Some(told) = day(rt, &mut random, &rules, design.as_slice())? else {
            return Ok(());
        };
        tally.count(told.as_slice());
        designs = designs.saturating_add(1);
    }
    println!(rt;
        "days in other designs: {designs} random days of {DEEDS} deeds: {tally}; no difference"
    )?;
    Ok(())
}
