// Rows: their cells, where two of them agree, and a row that agrees with the row of zeros in some columns alone.
ghost use Rattle.std.specs.Prelude.{◌≡◌, slice_index};
ghost use Rattle.columns.specs.Sets.{cols};
ghost use Rattle.dependencies.specs.Tables.{agree, apart_row};

use columns::{Column, ColumnSet};

// The cell of a row in a column; 0 where the row has none.
pub fn cell(row: &[u64], c: Column) -> u64
    ensures { result ≡ slice_index row.now c.index }
{
    row.get(c.index() as usize).copied().unwrap_or(0)
}

// Two rows are equal in all columns of the set.
pub fn agrees(set: ColumnSet, a: &[u64], b: &[u64]) -> bool
    ensures { result ≡ agree (cols set) a.now b.now }
{
    let mut rest = set;
    while let Some(c) = rest.take_first() {
        if cell(a, c) != cell(b, c) {
            return false;
        }
    }
    true
}

// The row of 16 cells with 0 in the columns of the set and another number everywhere else.
pub fn row_apart(zeros: ColumnSet, other: u64) -> [u64; 16]
    ensures { result ≡ apart_row 16 (cols zeros) other }
{
    let mut row = [other; 16];
    let mut rest = zeros;
    while let Some(c) = rest.take_first() {
        row[c.index() as usize] = 0;
    }
    row
}
