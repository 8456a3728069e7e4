// What one part holds.
ghost use Rattle.std.specs.Prelude.{◌≡◌, ◌+◌, ◌*◌, ◌<◌, ◌≤◌, length, take, drop, slice_index};
ghost use Rattle.columns.specs.Sets.{cols};
ghost use Rattle.parts.specs.Day.{holds as held_before};
ghost use Rattle.parts.specs.Left.{rows_in, rows_left};
ghost use Rattle.parts.specs.Store.{place_in};
ghost use Rattle.parts.specs.Places.{Found};
ghost use Rattle.parts.specs.Answers.{full as no_more_room};

use crate::part_rows::{HeldRow, HeldRows, PartRows};
use columns::ColumnSet;
use dependencies::agrees;

impl<'a> PartRows<'a> {
    // How many rows look as row i does; 0 where it is free.
    pub(crate) fn times(self, i: usize) -> u64
        requires { i < self.room }
        ensures { result ≡ slice_index self.entry.cells.now (i * (self.entry.width.columns + 1) + self.entry.width.columns) }
    {
        let n = self.width.columns() as usize;
        self.cells[i * (n + 1) + n]
    }

    // Where row i begins.
    pub(crate) fn start(self, i: usize) -> usize
        requires { i < self.room }
        ensures is { result ≡ i * (self.entry.width.columns + 1) }
        ensures fits { result + (self.entry.width.columns + 1) ≤ length self.entry.cells.now }
    {
        i * (self.width.columns() as usize + 1)
    }

    // The rows that the part holds, one after the other.
    pub(crate) fn rows(self) -> HeldRows<'a>
        ensures all { rows_left result ≡ rows_in self.entry }
        ensures first { result.place ≡ 0 }
    {
        HeldRows {
            place: 0,
            rows: self,
        }
    }

    // How many rows the part holds.
    pub(crate) fn held(self) -> usize
        ensures { result ≡ length (rows_in self.entry) }
    {
        self.rows().count()
    }

    // Where the part holds what the row looks like, or how many rows it holds if it does not: it would stand behind them.
    pub(crate) fn find(self, set: ColumnSet, row: &[u64]) -> Result<usize, usize>
        ensures { Found (cols set) row.now (rows_in self.entry) result }
    {
        let mut rows = self.rows();
        while let Some(held) = rows.next() {
            if agrees(set, row, held.look) {
                return Ok(held.place);
            }
        }
        Err(rows.place)
    }

    // The place of the look that the row has in the set, or how many rows the part holds.
    pub(crate) fn place_of(self, set: ColumnSet, row: &[u64]) -> usize
        ensures { result ≡ place_in (cols set) row.now (rows_in self.entry) }
    {
        match self.find(set, row) {
            Ok(i) | Err(i) => i,
        }
    }

    // The part holds what the row looks like.
    pub(crate) fn holds(self, set: ColumnSet, row: &[u64]) -> bool
        ensures { result ≡ held_before (cols set) row.now (rows_in self.entry) }
    {
        self.find(set, row).is_ok()
    }

    // The part has no room for the row, or has counted its look up to the end.
    pub(crate) fn is_full(self, set: ColumnSet, row: &[u64]) -> bool
        ensures { result ≡ no_more_room self.entry.room (cols set) row.now (rows_in self.entry) }
    {
        match self.find(set, row) {
            Ok(i) => self.times(i) >= u32::MAX as u64,
            Err(held) => held >= self.room,
        }
    }
}

impl<'a> Iterator for HeldRows<'a> {
    ghost use Rattle.std.specs.Iterator.{item_count};
    ghost use Rattle.parts.specs.Left.{rows_left, GivesRow};

    type Item = HeldRow<'a>;

    ghost next_gives = { GivesRow };

    ghost remaining = { item_count rows_left };

    fn next(&mut self) -> Option<HeldRow<'a>> {
        let PartRows { width, room, cells } = self.rows;
        if room == 0 {
            return None;
        }
        let n = width.columns() as usize;
        let (row, behind) = cells.split_at(n + 1);
        if row[n] == 0 {
            return None;
        }
        let held = HeldRow {
            place: self.place,
            look: &row[..n],
            times: row[n],
        };
        self.place += 1;
        self.rows = PartRows {
            width,
            room: room - 1,
            cells: behind,
        };
        Some(held)
    }
}
