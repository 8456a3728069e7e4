// Reads the rules of a register and the deeds of a day from standard input, keeps the register in the parts of a design for the
// rules, and prints a line for each deed; or the refusal of the rules.
#![tactic(auto)]

use anyhow::anyhow;
use columns::Width;
use dependencies::{Refusal, rule_row, rules_from_bytes};
use register::{DayRest, Register, behind_rules, day_rest};
use schema::design_for;
use std::io::Read;
use std::{env, io};

// How many rows each part has room for.
const ROWS: usize = 64;

// How many numbers a design may take.
const DESIGN: usize = 2100;

fn show_answers(rt: &HostRuntime, answers: &[u64]) -> io::Result<()> {
    for answer in answers.chunks_exact(2) {
        match answer {
            [0, ..] => println!(rt; "done")?,
            [number, place, ..] => println!(rt; "refused {number} at {place}")?,
            _ => {}
        }
    }
    Ok(())
}

// What stands behind the deeds that were answered. Each deed had room, so none is left over.
fn show_rest(rt: &HostRuntime, rest: DayRest) -> anyhow::Result<()> {
    match rest {
        DayRest::Ended => Ok(()),
        DayRest::NoDeed => Err(anyhow!("{:?}", "a deed begins with neither 0 nor 1")),
        DayRest::Unanswered => Err(anyhow!("{:?}", "a deed had no room")),
        DayRest::CutShort(cells) => {
            let refusal = Refusal::Cells(cells);
            Ok(println!(rt; "{refusal}")?)
        }
    }
}

// A program of its own beside register_bench, which keeps a day much like this but with the room that it is told, and only counts.
fn keep(rt: &HostRuntime, width: Width, bytes: &[u8]) -> anyhow::Result<()> {
    let columns = (width.columns() as usize).min(16);
    let mut design = vec![in rt.alloc(); 0; DESIGN]?;
    let parts = match design_for(rule_row(bytes).numbers(), design.as_mut_slice()) {
        Ok(parts) => parts as usize,
        Err(refusal) => return Ok(println!(rt; "{refusal}")?),
    };
    let day = behind_rules(bytes);
    let count = day.len() / (1 + 4 * columns);
    let mut deeds = vec![in rt.alloc(); 0; count.saturating_mul(columns + 1)]?;
    let mut answers = vec![in rt.alloc(); 0; count.saturating_mul(2)]?;
    let mut cells = vec![in rt.alloc(); 0; ROWS * parts.min(513) * (columns + 1)]?;
    let mut register = Register::over(design.as_slice(), cells.as_mut_slice());
    match register.keep_day_from_bytes(bytes, deeds.as_mut_slice(), answers.as_mut_slice()) {
        Ok(answered) => {
            let Some(told) = answers.as_slice().get(0..2 * answered.min(1 << 60)) else {
                return Ok(());
            };
            show_answers(rt, told)?;
            show_rest(rt, day_rest(day, width, answered))
        }
        Err(refusal) => Ok(println!(rt; "{refusal}")?),
    }
}

fn run(rt: &HostRuntime) -> anyhow::Result<()> {
    if env::args(rt)?.count() > 1 {
        return Err(anyhow!(
            "{:?}",
            "usage: daybook < DAY (rules as for designer; then deeds: a byte, 0 to put in or 1 to take out, and four bytes a cell)"
        ));
    }
    let mut bytes = Vec::new(rt.alloc());
    rt.stdin().read_to_end(&mut bytes)?;
    match rules_from_bytes(bytes.as_slice()) {
        Ok(set) => keep(rt, set.width(), bytes.as_slice()),
        Err(refusal) => Ok(println!(rt; "{refusal}")?),
    }
}

fn main(rt: HostRuntime) -> anyhow::Result<()> {
    run(&rt)
}
