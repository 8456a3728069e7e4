// Reads the rules of a table from standard input and prints a design for them, a line a part, and then the line of the keys;
// or the refusal.
#![tactic(auto)]

use anyhow::anyhow;
use columns::ColumnSet;
use dependencies::{RuleSet, rules_from_bytes};
use keys::{KeysLine, write_keys};
use schema::design;
use std::io::Read;
use std::{env, io};

// Of 16 columns at most 12,870 sets lie none inside another, so there are no more keys.
const MOST_KEYS: usize = 12870;

fn show_keys(rt: &HostRuntime, set: &RuleSet) -> io::Result<()> {
    let width = set.width();
    let mut row = vec![in rt.alloc(); 0; MOST_KEYS]?;
    match write_keys(set.rules(), ColumnSet::all(width), row.as_mut_slice()) {
        Ok(count) => {
            let Some(keys) = row.as_slice().get(0..count as usize) else {
                return Ok(());
            };
            let line = KeysLine { width, keys };
            println!(rt; "{line}")
        }
        Err(refusal) => println!(rt; "{refusal}"),
    }
}

fn show(rt: &HostRuntime, set: &RuleSet) -> io::Result<()> {
    let plan = design(set);
    print!(rt; "{plan}")?;
    show_keys(rt, set)
}

fn run(rt: &HostRuntime) -> anyhow::Result<()> {
    if env::args(rt)?.count() > 1 {
        return Err(anyhow!(
            "{:?}",
            "usage: designer < RULES (a byte for the columns, a byte for the count of rules, four bytes a rule)"
        ));
    }
    let mut bytes = Vec::new(rt.alloc());
    rt.stdin().read_to_end(&mut bytes)?;
    match rules_from_bytes(bytes.as_slice()) {
        Ok(set) => show(rt, &set)?,
        Err(refusal) => println!(rt; "{refusal}")?,
    }
    Ok(())
}

fn main(rt: HostRuntime) -> anyhow::Result<()> {
    run(&rt)
}
