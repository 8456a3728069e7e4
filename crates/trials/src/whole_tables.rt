// Random tables laid whole into the parts of a design for random rules and joined again, beside one plain table.
use crate::days::random_row;
use crate::generator::Random;
use crate::one_table::{Answer, COLUMNS, OneTable, Row};
use crate::plain_rules::{PlainRules, Size, random_rules};
use crate::splittings::made;
use anyhow::anyhow;
use join::{TripFailure, join, lay_and_join};
use register::Register;
use std::alloc::Global;

const LISTS: u32 = 4000;

// How many rows are drawn for a table.
const ROWS: u32 = 14;

const SIZE: Size = Size {
    columns: COLUMNS as u32,
    rules: 4,
};

// The first row that is refused, and what is told of it.
#[derive(Clone, Copy, PartialEq, Eq, Debug)]
struct Refused {
    row: u64,
    answer: Answer,
}

// What one side says of a table: how many rows were taken, or the first that was refused; and which rows are there in the end.
#[derive(Drop)]
struct Outcome {
    told: Result<usize, Refused>,
    table: OneTable,
}

fn random_rows(heap: Global, random: &mut Random, columns: u64) -> anyhow::Result<Vec<Row>> {
    let mut rows = Vec::new(heap);
    for _ in 0..ROWS {
        rows.push(random_row(random, columns, 4))?;
    }
    Ok(rows)
}

fn flat(heap: Global, rows: &[Row], columns: u64) -> anyhow::Result<Vec<u64>> {
    let mut cells = Vec::new(heap);
    for row in rows {
        for cell in row.iter().take(columns as usize) {
            cells.push(*cell)?;
        }
    }
    Ok(cells)
}

// The rows that were joined, cut to the columns of a trial; a cell behind them that is not 0 makes a row that no table has.
fn cut(heap: Global, joined: &[[u64; 16]]) -> anyhow::Result<OneTable> {
    let mut rows = Vec::new(heap);
    for row in joined {
        let mut short = [0; COLUMNS];
        short.copy_from_slice(&row[..COLUMNS]);
        if row[COLUMNS..].iter().any(|cell| *cell != 0) {
            short[0] = u64::MAX;
        }
        rows.push(short)?;
    }
    Ok(OneTable { rows })
}

// The table laid into a bare register and joined; after a refusal what the register then holds is joined.
fn in_parts(
    heap: Global,
    rules: &PlainRules,
    design: &[u64],
    rows: &[Row],
) -> anyhow::Result<Outcome> {
    let lent = rules.lent(heap)?;
    let parts = design.first().copied().unwrap_or(0) as usize;
    let mut cells = vec![in heap; 0; ROWS as usize * parts.min(513) * (COLUMNS + 1)]?;
    let mut register = Register::over(design, cells.as_mut_slice());
    let _ = register.open(lent.as_slice());
    let table = flat(heap, rows, rules.columns)?;
    match lay_and_join(heap, &mut register, table.as_slice()) {
        Ok(joined) => Ok(Outcome {
            told: Ok(rows.len()),
            table: cut(heap, joined.as_slice())?,
        }),
        Err(TripFailure::Laid(refused)) => {
            let left = match join(heap, &register) {
                Ok(left) => left,
                Err(_) => return Err(anyhow!("{:?}", "the parts could not be joined")),
            };
            Ok(Outcome {
                told: Err(Refused {
                    row: refused.row,
                    answer: Answer::from(refused.refusal.number()),
                }),
                table: cut(heap, left.as_slice())?,
            })
        }
        Err(TripFailure::NoMemory) => Err(anyhow!("{:?}", "no memory to join the parts")),
    }
}

// The same of one table: after a refusal it is empty.
fn in_one_table(heap: Global, rules: &PlainRules, rows: &[Row]) -> anyhow::Result<Outcome> {
    let mut table = OneTable {
        rows: Vec::new(heap),
    };
    for (i, row) in rows.iter().enumerate() {
        let answer = table.put_in(rules.list.as_slice(), row)?;
        if answer != Answer::Done {
            table.rows.clear();
            let row = i as u64;
            return Ok(Outcome {
                told: Err(Refused { row, answer }),
                table,
            });
        }
    }
    Ok(Outcome {
        told: Ok(rows.len()),
        table,
    })
}

fn all_in(one: &OneTable, other: &OneTable) -> bool {
    for row in one.rows.iter() {
        if !other.holds(row) {
            return false;
        }
    }
    true
}

fn same(parts: &Outcome, whole: &Outcome) -> bool {
    let told = parts.told == whole.told;
    let count = parts.table.rows.len() == whole.table.rows.len();
    told && count && all_in(&parts.table, &whole.table) && all_in(&whole.table, &parts.table)
}

fn show(rt: &HostRuntime, side: &str, outcome: &Outcome) -> anyhow::Result<()> {
    let told = outcome.told;
    let rows = outcome.table.rows.as_slice();
    println!(rt; "  {side}: {told:?}, and then {rows:?}")?;
    Ok(())
}

// What one table says of these rows; none where the parts say otherwise, which is then shown in full.
fn compared(
    rt: &HostRuntime,
    rules: &PlainRules,
    design: &[u64],
    rows: &[Row],
) -> anyhow::Result<Option<Outcome>> {
    let parts = in_parts(rt.alloc(), rules, design, rows)?;
    let whole = in_one_table(rt.alloc(), rules, rows)?;
    if same(&parts, &whole) {
        return Ok(Some(whole));
    }
    println!(rt; "whole tables: a difference with {rules}")?;
    println!(rt; "  in the design {design:?}, for the rows {rows:?}")?;
    show(rt, "the parts", &parts)?;
    show(rt, "one table", &whole)?;
    Ok(None)
}

// The rows that one table takes of these, the others left out.
fn obeying(heap: Global, rules: &PlainRules, rows: &[Row]) -> anyhow::Result<OneTable> {
    let mut table = OneTable {
        rows: Vec::new(heap),
    };
    for row in rows {
        let _ = table.put_in(rules.list.as_slice(), row)?;
    }
    Ok(table)
}

// One line; or the first table on which the two differ, in full. Each list of rows is laid as it is, and then without the rows that
// clash, which one table takes whole.
pub fn run(rt: &HostRuntime) -> anyhow::Result<()> {
    let heap = rt.alloc();
    let mut random = Random::from_start(9);
    let mut refused = 0u32;
    let mut joined = 0usize;
    for _ in 0..LISTS {
        let rules = random_rules(heap, &mut random, SIZE)?;
        let design = made(heap, &rules)?.lent(heap)?;
        let rows = random_rows(heap, &mut random, rules.columns)?;
        let Some(first) = compared(rt, &rules, design.as_slice(), rows.as_slice())? else {
            return Ok(());
        };
        if first.told.is_err() {
            refused = refused.saturating_add(1);
        }
        let table = obeying(heap, &rules, rows.as_slice())?;
        let Some(second) = compared(rt, &rules, design.as_slice(), table.rows.as_slice())? else {
            return Ok(());
        };
        joined = joined.saturating_add(second.table.rows.len());
    }
    println!(rt;
        "whole tables: {LISTS} random lists of {ROWS} rows, of which {refused} are refused and leave nothing; without the rows that clash {joined} rows laid and joined; no difference"
    )?;
    Ok(())
}
