// Keeps a register for a day that it reads: four bytes for how many rows each part has room for, low byte first, and then the day
// as bytes. It writes how many deeds were done and how many were refused. bench/register/run times it.
#![tactic(auto)]

use anyhow::anyhow;
use columns::Width;
use dependencies::{rule_row, rules_from_bytes};
use register::{Register, behind_rules};
use schema::design_for;
use std::io::Read;

fn show_counts(rt: &HostRuntime, answers: &[u64]) -> anyhow::Result<()> {
    let done = answers.iter().step_by(2).filter(|x| **x == 0).count();
    let refused = answers.len().div_ceil(2).saturating_sub(done);
    Ok(println!(rt; "{done} done, {refused} refused")?)
}

// A program of its own beside daybook, which keeps a day much like this: one place for both would be a library for the sake of two programs.
fn keep(rt: &HostRuntime, width: Width, room: usize, bytes: &[u8]) -> anyhow::Result<()> {
    let columns = (width.columns() as usize).min(16);
    let mut design = vec![in rt.alloc(); 0; 2100]?;
    let parts = match design_for(rule_row(bytes).numbers(), design.as_mut_slice()) {
        Ok(parts) => parts as usize,
        Err(refusal) => return Ok(println!(rt; "{refusal}")?),
    };
    let count = behind_rules(bytes).len() / (1 + 4 * columns);
    let mut deeds = vec![in rt.alloc(); 0; count.saturating_mul(columns + 1)]?;
    let mut answers = vec![in rt.alloc(); 0; count.saturating_mul(2)]?;
    let size = room.saturating_mul(parts).saturating_mul(columns + 1);
    let mut cells = vec![in rt.alloc(); 0; size]?;
    let mut register = Register::over(design.as_slice(), cells.as_mut_slice());
    match register.keep_day_from_bytes(bytes, deeds.as_mut_slice(), answers.as_mut_slice()) {
        Ok(answered) => {
            let Some(told) = answers.as_slice().get(0..2 * answered.min(1 << 60)) else {
                return Ok(());
            };
            show_counts(rt, told)
        }
        Err(refusal) => Ok(println!(rt; "{refusal}")?),
    }
}

fn main(rt: HostRuntime) -> anyhow::Result<()> {
    let mut input = Vec::new(rt.alloc());
    rt.stdin().read_to_end(&mut input)?;
    let [a, b, c, d, bytes @ ..] = input.as_slice() else {
        return Err(anyhow!("{:?}", "no day"));
    };
    let room = u32::from_le_bytes([*a, *b, *c, *d]) as usize;
    match rules_from_bytes(bytes) {
        Ok(set) => keep(&rt, set.width(), room, bytes),
        Err(refusal) => Ok(println!(rt; "{refusal}")?),
    }
}
