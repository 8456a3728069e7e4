// The parts of a lent design, one after the other.
ghost use Rattle.std.specs.Prelude.{◌≡◌, ◌+◌, ◌*◌, ◌/◌, ◌<◌, ◌≤◌, length, drop, slice_index, slice_index_or};
ghost use Rattle.columns.specs.Cols.{set_in};
ghost use Rattle.columns.specs.Sets.{cols};
ghost use Rattle.dependencies.specs.Rules.{dep};
ghost use Rattle.dependencies.specs.Tables.{no_dep};
ghost use Rattle.parts.specs.Left.{own, design_of, part_room, held_parts, parts_left, walk_parts, held_left};

use crate::design_parts::DesignParts;
use crate::own_part::OwnPart;
use crate::part_rows::PartRows;
use crate::parts_left::{PartWalk, PartsLeft};
use columns::{ColumnSet, Width};
use dependencies::Rule;

// The set of columns of a table that a number names.
fn set_of(bits: u64, width: Width) -> ColumnSet
    ensures { cols result ≡ set_in 0 width.columns bits }
{
    let low = bits & ((1u64 << width.columns()) - 1);
    ColumnSet::from_bits(low, width).unwrap()
}

impl<'a> DesignParts<'a> {
    // How many parts there are.
    pub(crate) fn count(self) -> u32
        ensures is { result ≡ slice_index self.entry.numbers.now 0 }
        ensures some { 1 ≤ result }
    {
        self.numbers[0] as u32
    }

    // For how many rows each part has room in so many cells.
    pub(crate) fn room(self, cells: usize) -> usize
        ensures { result ≡ cells / (slice_index self.entry.numbers.now 0 * (self.entry.width.columns + 1)) }
    {
        cells / (self.count() as usize * (self.width.columns() as usize + 1))
    }

    // How many of so many cells each part takes.
    pub(crate) fn size(self, cells: usize) -> usize
        ensures is { result ≡ cells / (slice_index self.entry.numbers.now 0 * (self.entry.width.columns + 1)) * (self.entry.width.columns + 1) }
        ensures fit { slice_index self.entry.numbers.now 0 * result ≤ cells }
        ensures small { result ≤ cells }
    {
        self.room(cells) * (self.width.columns() as usize + 1)
    }

    // The parts one after the other.
    pub(crate) fn own_parts(self) -> PartsLeft<'a>
        ensures parts { parts_left result ≡ design_of self.entry }
        ensures first { result.place ≡ 0 }
        ensures count { result.count ≡ slice_index self.entry.numbers.now 0 }
        ensures width { result.width.columns ≡ self.entry.width.columns }
    {
        PartsLeft {
            width: self.width,
            place: 0,
            count: self.count(),
            numbers: &self.numbers[1..],
        }
    }

    // The parts one after the other, each with its rows among the cells.
    pub(crate) fn walk<'c>(self, cells: &'c [u64]) -> PartWalk<'a, 'c>
        ensures parts { walk_parts result ≡ design_of self.entry }
        ensures held { held_left result ≡ held_parts self.entry cells.now }
        ensures first { result.parts.place ≡ 0 }
        ensures room { result.room ≡ part_room self.entry cells.now }
    {
        PartWalk {
            parts: self.own_parts(),
            room: self.room(cells.len()),
            cells,
        }
    }
}

impl<'d> Iterator for PartsLeft<'d> {
    ghost use Rattle.std.specs.Iterator.{item_count};
    ghost use Rattle.parts.specs.Left.{parts_left, GivesPart};

    type Item = OwnPart<'d>;

    ghost next_gives = { GivesPart };

    ghost remaining = { item_count parts_left };

    fn next(&mut self) -> Option<OwnPart<'d>> {
        if self.place >= self.count {
            return None;
        }
        let part = OwnPart {
            place: self.place,
            width: self.width,
            numbers: self.numbers,
        };
        self.place += 1;
        self.numbers = part.rest();
        Some(part)
    }
}

impl<'d, 'c> Iterator for PartWalk<'d, 'c> {
    ghost use Rattle.std.specs.Iterator.{item_count};
    ghost use Rattle.parts.specs.Left.{walk_parts, GivesRows};

    type Item = (OwnPart<'d>, PartRows<'c>);

    ghost next_gives = { GivesRows };

    ghost remaining = { item_count walk_parts };

    fn next(&mut self) -> Option<(OwnPart<'d>, PartRows<'c>)> {
        let part = self.parts.next()?;
        let size = self.room * (part.width.columns() as usize + 1);
        let (front, behind) = self.cells.split_at(size);
        self.cells = behind;
        let rows = PartRows {
            width: part.width,
            room: self.room,
            cells: front,
        };
        Some((part, rows))
    }
}

impl<'a> OwnPart<'a> {
    pub(crate) fn set(self) -> ColumnSet
        ensures { cols result ≡ (own self.entry).cols }
    {
        set_of(self.numbers[0], self.width)
    }

    // How many rules the part owns.
    pub(crate) fn rules(self) -> u32
        ensures is { result ≡ slice_index self.entry.numbers.now 1 }
        ensures all { result ≡ length (own self.entry).rules }
    {
        self.numbers[1] as u32
    }

    // The rule of this place.
    pub(crate) fn rule(self, q: u32) -> Rule
        requires { q < length (own self).rules }
        ensures { dep result ≡ slice_index_or (own self.entry).rules q no_dep }
    {
        let left = set_of(self.numbers[2 + 2 * q as usize], self.width);
        let right = set_of(self.numbers[3 + 2 * q as usize], self.width);
        Rule { left, right }
    }

    // The numbers behind the part.
    pub(crate) fn rest(self) -> &'a [u64]
        ensures { result.now ≡ drop (2 + 2 * slice_index self.entry.numbers.now 1) self.entry.numbers.now }
    {
        &self.numbers[2 + 2 * self.rules() as usize..]
    }
}
