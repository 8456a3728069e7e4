// Random days: a register in the parts of a design for random rules, beside one plain table.
use crate::generator::Random;
use crate::one_table::{Answer, COLUMNS, OneTable, Row};
use crate::plain_rules::{PlainRules, Size, random_rules};
use crate::splittings::made;
use register::Register;
use std::alloc::{AllocError, Global};
use std::fmt;

const DAYS: u32 = 20000;

pub const DEEDS: u32 = 30;

const SIZE: Size = Size {
    columns: COLUMNS as u32,
    rules: 5,
};

#[derive(Clone, Copy)]
enum Deed {
    PutIn(Row),
    TakeOut(Row),
}

// What one side says of a deed: what it tells, and whether the deed's row is there in the end.
#[derive(Clone, Copy, PartialEq, Eq, Debug)]
pub struct Told {
    answer: Answer,
    present: Option<bool>,
}

// How often each answer was told, and how many rows were there in the end.
#[derive(Drop)]
pub struct Tally {
    done: u64,
    present: u64,
    broken: u64,
    absent: u64,
    held: u64,
}

// Cells are so small that rows clash.
pub fn random_row(random: &mut Random, columns: u64, values: u32) -> Row {
    let mut row = [0; COLUMNS];
    for cell in row.iter_mut().take(columns as usize) {
        *cell = random.below(values);
    }
    row
}

// A row to be taken out is mostly one that came before.
fn random_day(heap: Global, random: &mut Random, columns: u64) -> Result<Vec<Deed>, AllocError> {
    let values = match random.below(2) {
        0 => 2,
        _ => 3,
    };
    let mut deeds: Vec<Deed> = Vec::new(heap);
    for d in 0..DEEDS {
        let takes_out = random.below(3) == 0;
        let fresh = random_row(random, columns, values);
        let earlier = deeds.get(random.below(d) as usize).copied();
        let deed = match earlier {
            Some(deed) if takes_out => Deed::TakeOut(deed.row()),
            _ if takes_out => Deed::TakeOut(fresh),
            _ => Deed::PutIn(fresh),
        };
        deeds.push(deed)?;
    }
    Ok(deeds)
}

impl Deed {
    fn row(self) -> Row {
        match self {
            Deed::PutIn(row) | Deed::TakeOut(row) => row,
        }
    }

    // The number that a lent deed begins with.
    fn number(self) -> u64 {
        match self {
            Deed::PutIn(_) => 0,
            Deed::TakeOut(_) => 1,
        }
    }
}

// The deeds as the register is lent them.
fn lent_deeds(heap: Global, deeds: &[Deed], columns: u64) -> Result<Vec<u64>, AllocError> {
    let mut lent = Vec::new(heap);
    for deed in deeds {
        lent.push(deed.number())?;
        for cell in deed.row().iter().take(columns as usize) {
            lent.push(*cell)?;
        }
    }
    Ok(lent)
}

// Whether the register holds the row; none where it refuses to say.
fn asked(register: &Register, row: &Row, columns: u64) -> Option<bool> {
    register
        .contains(&row[0..(columns as usize).min(COLUMNS)])
        .ok()
}

// The day of a register in the parts of a lent design, with room for every deed's row. Nothing is told where not all deeds are answered.
fn kept_in_parts(
    heap: Global,
    rules: &PlainRules,
    design: &[u64],
    deeds: &[Deed],
) -> Result<Vec<Told>, AllocError> {
    let lent = rules.lent(heap)?;
    let parts = design.first().copied().unwrap_or(0) as usize;
    let mut cells = vec![in heap; 0; DEEDS as usize * parts.min(513) * (COLUMNS + 1)]?;
    let mut answers = vec![in heap; 0; 2 * DEEDS as usize]?;
    let day = lent_deeds(heap, deeds, rules.columns)?;
    let mut register = Register::over(design, cells.as_mut_slice());
    let answered = register.keep_day(lent.as_slice(), day.as_slice(), answers.as_mut_slice());
    let mut told = Vec::new(heap);
    if answered != Ok(deeds.len()) {
        return Ok(told);
    }
    for (deed, number) in deeds.iter().zip(answers.iter().step_by(2)) {
        told.push(Told {
            answer: Answer::from(*number),
            present: asked(&register, &deed.row(), rules.columns),
        })?;
    }
    Ok(told)
}

// The day of one table.
fn kept_in_one_table(
    heap: Global,
    rules: &PlainRules,
    deeds: &[Deed],
) -> Result<Vec<Told>, AllocError> {
    let mut table = OneTable {
        rows: Vec::new(heap),
    };
    let mut answers = Vec::new(heap);
    for deed in deeds {
        answers.push(match deed {
            Deed::PutIn(row) => table.put_in(rules.list.as_slice(), row)?,
            Deed::TakeOut(row) => table.take_out(row),
        })?;
    }
    let mut told = Vec::new(heap);
    for (deed, answer) in deeds.iter().zip(answers.iter()) {
        told.push(Told {
            answer: *answer,
            present: Some(table.holds(&deed.row())),
        })?;
    }
    Ok(told)
}

impl Tally {
    pub fn new() -> Tally {
        Tally {
            done: 0,
            present: 0,
            broken: 0,
            absent: 0,
            held: 0,
        }
    }

    pub fn count(&mut self, day: &[Told]) {
        for told in day {
            match told.answer {
                Answer::Done => self.done = self.done.saturating_add(1),
                Answer::Present => self.present = self.present.saturating_add(1),
                Answer::Broken => self.broken = self.broken.saturating_add(1),
                _ => self.absent = self.absent.saturating_add(1),
            }
            if told.present == Some(true) {
                self.held = self.held.saturating_add(1);
            }
        }
    }
}

impl fmt::Display for Tally {
    fn fmt<W: fmt::Write>(&self, f: &mut fmt::Formatter<W>) -> fmt::Result {
        let done = self.done;
        let present = self.present;
        let broken = self.broken;
        let absent = self.absent;
        let held = self.held;
        write!(
            f,
            "{done} done, {present} refused 8, {broken} refused 9, {absent} refused 10; of their rows {held} there in the end"
        )
    }
}

fn show_deeds(rt: &HostRuntime, deeds: &[Deed]) -> anyhow::Result<()> {
    for deed in deeds {
        match deed {
            Deed::PutIn(row) => println!(rt; "  put in {row:?}")?,
            Deed::TakeOut(row) => println!(rt; "  take out {row:?}")?,
        }
    }
    Ok(())
}

fn show_told(rt: &HostRuntime, side: &str, day: &[Told]) -> anyhow::Result<()> {
    for told in day {
        println!(rt; "  {side} {told:?}")?;
    }
    Ok(())
}

// What one table says of a random day; none where the register in the parts of the design says otherwise, which is then shown in full.
pub fn day(
    rt: &HostRuntime,
    random: &mut Random,
    rules: &PlainRules,
    design: &[u64],
) -> anyhow::Result<Option<Vec<Told>>> {
    let heap = rt.alloc();
    let deeds = random_day(heap, random, rules.columns)?;
    let parts = kept_in_parts(heap, rules, design, deeds.as_slice())?;
    let whole = kept_in_one_table(heap, rules, deeds.as_slice())?;
    if parts.as_slice() == whole.as_slice() {
        return Ok(Some(whole));
    }
    println!(rt; "days: a difference with {rules}")?;
    println!(rt; "  in the design {design:?}")?;
    show_deeds(rt, deeds.as_slice())?;
    show_told(rt, "the parts", parts.as_slice())?;
    show_told(rt, "one table", whole.as_slice())?;
    Ok(None)
}

// One line; or the first day on which the two differ, in full.
pub fn run(rt: &HostRuntime) -> anyhow::Result<()> {
    let mut random = Random::from_start(1);
    let mut tally = Tally::new();
    for _ in 0..DAYS {
        let rules = random_rules(rt.alloc(), &mut random, SIZE)?;
        let design = made(rt.alloc(), &rules)?.lent(rt.alloc())?;
        let Some(told) = day(rt, &mut random, &rules, design.as_slice())? else {
            return Ok(());
        };
        tally.count(told.as_slice());
    }
    println!(rt; "days: {DAYS} random days of {DEEDS} deeds: {tally}; no difference")?;
    Ok(())
}
