// Reads the rules of a table and a design that somebody made for them from standard input, and prints `a design`, or the
// refusal: of the rules, or 6 at the first condition that the design misses.
#![tactic(auto)]

use anyhow::anyhow;
use dependencies::{RuleSet, rule_row, rules_from_bytes};
use std::env;
use std::io::Read;
use verdict::{CheckFailure, check_design, design_from_bytes};

fn check(rt: &HostRuntime, set: &RuleSet, bytes: &[u8]) -> anyhow::Result<()> {
    let start = bytes.len().min(2 + 4 * set.rules().len());
    let given = &bytes[start..];
    let rules = rule_row(bytes);
    let mut design = vec![in rt.alloc(); 0; given.len()]?;
    let len = design_from_bytes(given, design.as_mut_slice());
    design.truncate(len);
    let mut tableau = vec![in rt.alloc(); [0; 16]; 255]?;
    match check_design(rules.numbers(), design.as_slice(), tableau.as_mut_slice()) {
        Ok(()) => println!(rt; "a design")?,
        Err(CheckFailure::Refused(refusal)) => println!(rt; "{refusal}")?,
        Err(CheckFailure::ShortTableau(_)) => return Err(anyhow!("{:?}", "too many parts")),
    }
    Ok(())
}

fn run(rt: &HostRuntime) -> anyhow::Result<()> {
    if env::args(rt)?.count() > 1 {
        return Err(anyhow!(
            "{:?}",
            "usage: design_check < DESIGN (rules as for designer; then a byte for parts; a part: set, byte for its rules, rules)"
        ));
    }
    let mut bytes = Vec::new(rt.alloc());
    rt.stdin().read_to_end(&mut bytes)?;
    match rules_from_bytes(bytes.as_slice()) {
        Ok(set) => check(rt, &set, bytes.as_slice()),
        Err(refusal) => Ok(println!(rt; "{refusal}")?),
    }
}

fn main(rt: HostRuntime) -> anyhow::Result<()> {
    run(&rt)
}
