// One part counts a row once more, or once less.
ghost use Rattle.std.specs.Prelude.{◌≡◌, ℕ, ◌+◌, ◌*◌, ◌<◌, ◌≤◌, true, false, ◌∷◌, ◌++◌, length, drop, set as put, replicate, slice_index};
ghost use Rattle.columns.specs.Cols.{pick, has};
ghost use Rattle.columns.specs.Sets.{cols};
ghost use Rattle.parts.specs.Day.{masked, holds as held_before, one_more, one_less};
ghost use Rattle.parts.specs.Left.{RowsWhole, RowsHold};
ghost use Rattle.parts.specs.Store.{held_in};
ghost use Rattle.parts.specs.Answers.{full as no_more_room};

use crate::part_rows::PartRows;
use crate::whole_row::WholeRow;
use columns::{Column, ColumnSet, Width};
use dependencies::cell;

// The cell of a row's look: 0 where the column is not in the set.
fn look_cell(set: ColumnSet, row: &[u64], c: u32) -> u64
    ensures { result ≡ pick (has (cols set) c) (slice_index row.now c) 0 }
{
    match Column::new(c) {
        Some(column) if set.contains(column) => cell(row, column),
        _ => 0,
    }
}

// Writes a look that is new to the front, counts it once, and frees the row behind it.
fn write_row(rest: &mut [u64], set: ColumnSet, row: WholeRow)
    requires { row.width.columns + 1 ≤ length rest.old }
    ensures { rest.new ≡ masked (cols set) 0 row.entry.cells.now ++ (1 ∷ put (drop (row.entry.width.columns + 1) rest.old) row.entry.width.columns 0) }
{
    let n = row.width.columns() as usize;
    for (c, slot) in rest[..n].iter_mut().enumerate() {
        *slot = look_cell(set, row.cells, c as u32);
    }
    rest[n] = 1;
    let next = 2 * n + 1;
    if next < rest.len() {
        rest[next] = 0;
    }
}

// Drops the row at the front: all others move up, and the last place is cleared.
fn drop_row(rest: &mut [u64], width: Width)
    requires { width.columns + 1 ≤ length rest.old }
    ensures { rest.new ≡ drop (width.columns + 1) rest.old ++ replicate (width.columns + 1) 0 }
{
    let size = width.columns() as usize + 1;
    let last = rest.len() - size;
    rest.copy_within(size.., 0);
    rest[last..].fill(0);
}

// The part counts the row.
pub(crate) fn count_in(rows: &mut [u64], room: usize, set: ColumnSet, row: WholeRow)
    requires whole { RowsWhole row.width room rows.old }
    requires free { no_more_room room (cols set) row.cells.now (held_in row.width.columns room rows.old) ≡ false }
    ensures { RowsHold row.entry.width room rows.old rows.new (one_more (cols set) row.entry.cells.now (held_in row.entry.width.columns room rows.old)) }
{
    let n = row.width.columns() as usize;
    let part = PartRows {
        width: row.width,
        room,
        cells: rows,
    };
    match part.find(set, row.cells) {
        Ok(i) => {
            let at = part.start(i);
            rows[at + n] += 1;
        }
        Err(i) => {
            let at = part.start(i);
            write_row(&mut rows[at..], set, row);
        }
    }
}

// The part counts the row no more.
pub(crate) fn count_out(rows: &mut [u64], room: usize, set: ColumnSet, row: WholeRow)
    requires whole { RowsWhole row.width room rows.old }
    requires there { held_before (cols set) row.cells.now (held_in row.width.columns room rows.old) ≡ true }
    ensures { RowsHold row.entry.width room rows.old rows.new (one_less (cols set) row.entry.cells.now (held_in row.entry.width.columns room rows.old)) }
{
    let n = row.width.columns() as usize;
    let part = PartRows {
        width: row.width,
        room,
        cells: rows,
    };
    let i = part.place_of(set, row.cells);
    let at = part.start(i);
    let times = rows[at + n];
    if times == 1 {
        drop_row(&mut rows[at..], row.width);
    } else {
        rows[at + n] = times - 1;
    }
}
