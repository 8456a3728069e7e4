// All tables of up to three rows over three values, with up to three columns: the plain side decides by them whether parts are a design.
// They suffice there. Parts of which none lies inside another are at most three, if there are three columns. If a row that a
// table does not have looks in each part like one of its rows, then so it does beside those rows alone, one a part, which obey all
// rules that the table obeys. Every column is in some part, so the row has no other cell in it than they have: no more than three
// in a column, and which ones they are is all the same to rules and looks. And a rule that a table breaks is broken by two of its rows.
ghost use Rattle.std.specs.Prelude.{◌<◌};

use crate::plain_rules::{PlainRule, has};
use std::alloc::{AllocError, Global};

// As many columns as the tables have at most.
pub const COLUMNS: usize = 3;

// As many rows as there are over three values and three columns.
const ROWS: u32 = 27;

// A row is a number below 27, the digits of which to the base 3 are its cells. A table is a number in which 2^r stands for row r.
#[derive(Clone, Copy)]
pub struct SmallTable {
    rows: u32,
    // The bit 3 l + c says that the table obeys the rule from the set l to column c.
    holds: u32,
}

// For each set of columns and each row, the rows that look like it there.
#[derive(Drop)]
struct Looks {
    alike: Vec<u32>,
}

#[derive(Drop)]
pub struct SmallTables {
    // How many rows there are: 3 to the number of columns.
    pub rows: u32,
    pub all: Vec<SmallTable>,
    looks: Looks,
}

fn cell(row: u32, column: usize) -> u32 {
    match column {
        0 => row % 3,
        1 => row / 3 % 3,
        _ => row / 9 % 3,
    }
}

fn look_alike(one: u32, two: u32, set: u64) -> bool {
    for c in 0..COLUMNS {
        if has(set, c) && cell(one, c) != cell(two, c) {
            return false;
        }
    }
    true
}

fn alike(row: u32, set: u64) -> u32 {
    let mut found = 0;
    for other in 0..ROWS {
        if look_alike(row, other, set) {
            found |= 1 << other;
        }
    }
    found
}

impl Looks {
    fn of(heap: Global) -> Result<Looks, AllocError> {
        let mut masks = Vec::new(heap);
        for set in 0..8u64 {
            for row in 0..ROWS {
                masks.push(alike(row, set))?;
            }
        }
        Ok(Looks { alike: masks })
    }

    fn alike(&self, row: u32, set: u64) -> u32 {
        let place = (set % 8) as usize * ROWS as usize + (row % ROWS) as usize;
        self.alike.get(place).copied().unwrap_or(0)
    }

    // Whether rows that are equal in the left columns are equal in the right one.
    fn fix_column(&self, rows: u32, left: u64, column: usize) -> bool {
        for row in 0..ROWS {
            let equal = rows & self.alike(row, left);
            if has(rows as u64, row as usize) && equal & !self.alike(row, 1 << (column % 3)) != 0 {
                return false;
            }
        }
        true
    }

    // What a table of these rows obeys.
    fn table_of(&self, rows: u32) -> SmallTable {
        let mut holds = 0;
        for left in 0..8u64 {
            for c in 0..COLUMNS {
                if self.fix_column(rows, left, c) {
                    holds |= 1 << bit_of(left, c);
                }
            }
        }
        SmallTable { rows, holds }
    }
}

fn bit_of(left: u64, column: usize) -> usize
    ensures { result < 24 }
{
    (left % 8) as usize * 3 + column % 3
}

impl SmallTable {
    // It obeys everything.
    pub fn without_rows() -> SmallTable {
        SmallTable {
            rows: 0,
            holds: u32::MAX,
        }
    }

    pub fn has_row(self, row: u32) -> bool {
        has(self.rows as u64, row as usize)
    }

    // What two tables both obey.
    pub fn both_hold(self, other: SmallTable) -> SmallTable {
        SmallTable {
            rows: 0,
            holds: self.holds & other.holds,
        }
    }

    pub fn obeys(self, rule: PlainRule) -> bool {
        for c in 0..COLUMNS {
            if has(rule.right, c) && !has(self.holds as u64, bit_of(rule.left, c)) {
                return false;
            }
        }
        true
    }

    pub fn obeys_all(self, rules: &[PlainRule]) -> bool {
        for rule in rules {
            if !self.obeys(*rule) {
                return false;
            }
        }
        true
    }
}

// The tables with a row more than these, each once: the new row is the highest.
fn with_a_row(heap: Global, tables: &[u32], rows: u32) -> Result<Vec<u32>, AllocError> {
    let mut more = Vec::new(heap);
    for table in tables {
        for row in 0..rows.min(ROWS) {
            if *table >> row == 0 {
                more.push(*table | 1 << row)?;
            }
        }
    }
    Ok(more)
}

impl SmallTables {
    // Whether the row looks in these columns like some row of the table.
    pub fn shows(&self, table: SmallTable, row: u32, set: u64) -> bool {
        table.rows & self.looks.alike(row, set) != 0
    }

    fn add(&mut self, tables: &[u32]) -> Result<(), AllocError> {
        for rows in tables {
            let table = self.looks.table_of(*rows);
            self.all.push(table)?;
        }
        Ok(())
    }

    // All of so many columns: one without rows, and those of one, two and three.
    pub fn of(heap: Global, columns: u64) -> Result<SmallTables, AllocError> {
        let rows = match columns {
            1 => 3,
            2 => 9,
            _ => ROWS,
        };
        let mut tables = SmallTables {
            rows,
            all: Vec::new(heap),
            looks: Looks::of(heap)?,
        };
        let mut last = vec![in heap; 0u32; 1]?;
        tables.add(last.as_slice())?;
        for _ in 0..3 {
            last = with_a_row(heap, last.as_slice(), rows)?;
            tables.add(last.as_slice())?;
        }
        Ok(tables)
    }
}

// The tables of one, two and three columns.
pub fn all_small_tables(heap: Global) -> Result<Vec<SmallTables>, AllocError> {
    let mut all = Vec::new(heap);
    for columns in 1..4u64 {
        all.push(SmallTables::of(heap, columns)?)?;
    }
    Ok(all)
}
