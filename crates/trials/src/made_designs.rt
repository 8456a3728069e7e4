// The designs that are made, up to the greatest tables and the most rules, through the tester.
use crate::generator::Random;
use crate::plain_rules::{PlainRules, Size, random_rules};
use schema::design_for;
use std::alloc::{AllocError, Global};
use verdict::check_design;

const TRIALS: u32 = 2000;

const SIZE: Size = Size {
    columns: 16,
    rules: 32,
};

// How many parts the design has, if it is made and accepted.
fn accepted(heap: Global, rules: &PlainRules) -> Result<Option<u64>, AllocError> {
    let lent = rules.lent(heap)?;
    let mut design = vec![in heap; 0; 2100]?;
    let mut tableau = vec![in heap; [0; 16]; 513]?;
    let Ok(parts) = design_for(lent.as_slice(), design.as_mut_slice()) else {
        return Ok(None);
    };
    let verdict = check_design(lent.as_slice(), design.as_slice(), tableau.as_mut_slice());
    Ok(verdict.ok().map(|_| parts))
}

// One line; or the first rules whose design is not accepted.
pub fn run(rt: &HostRuntime) -> anyhow::Result<()> {
    let mut random = Random::from_start(6);
    let mut parts = 0u64;
    for _ in 0..TRIALS {
        let rules = random_rules(rt.alloc(), &mut random, SIZE)?;
        let Some(more) = accepted(rt.alloc(), &rules)? else {
            println!(rt; "made designs: one is not accepted, with {rules}")?;
            return Ok(());
        };
        parts = parts.saturating_add(more);
    }
    println!(rt; "made designs: {TRIALS}, of {parts} parts in all; the tester accepts each")?;
    Ok(())
}
