// What the parts of a register hold, for others to read: from how many columns the table has, the lent design and the lent cells.
ghost use Rattle.std.specs.Prelude.{◌≡◌, ◌<◌, ◌≤◌, length, MatchOption, slice_index, slice_index_or};
ghost use Rattle.columns.specs.Sets.{cols};
ghost use Rattle.dependencies.specs.Told.{done, refused};
ghost use Rattle.parts.specs.Answers.{opened_told};
ghost use Rattle.parts.specs.Parts.{held_by, if_opened, IfOpened, PartAt, NoPart};
ghost use Rattle.parts.specs.Store.{no_held, place_in};

use crate::design_parts::DesignParts;
use crate::held_part::HeldPart;
use crate::part_rows::PartRows;
use crate::reading::readable_at;
use columns::{ColumnSet, Width};

// A part without columns that holds nothing.
fn no_part<'a>() -> HeldPart<'a>
    ensures { NoPart result }
{
    let width = Width::new(16).unwrap();
    let rows = PartRows {
        width,
        room: 0,
        cells: &[],
    };
    HeldPart {
        owned: ColumnSet::empty(),
        rows,
    }
}

// How many parts there are; none where the design cannot be read.
pub fn part_count(columns: u64, design: &[u64]) -> u32
    ensures { result ≡ if_opened (opened_told columns design.now) (slice_index design.now 0) 0 }
{
    let Some(width) = readable_at(columns, design) else {
        return 0;
    };
    let parts = DesignParts {
        width,
        numbers: design,
    };
    parts.count()
}

// Part p as it stands, counted from 0. Past the last part, and where the design cannot be read, it is a part without columns
// that holds nothing.
pub fn read_part<'a>(columns: u64, design: &[u64], cells: &'a [u64], p: usize) -> HeldPart<'a>
    ensures { IfOpened (opened_told columns design.now) (PartAt columns design.now cells.now p result) (NoPart result) }
{
    let Some(width) = readable_at(columns, design) else {
        return no_part();
    };
    let parts = DesignParts {
        width,
        numbers: design,
    };
    match parts.walk(cells).nth(p) {
        Some((part, rows)) => HeldPart {
            owned: part.set(),
            rows,
        },
        None => no_part(),
    }
}

impl<'a> HeldPart<'a> {
    // The columns of the part.
    pub fn set(self) -> ColumnSet
        ensures { result ≡ self.entry.owned }
    {
        self.owned
    }

    // How many looks the part holds.
    pub fn len(self) -> usize
        ensures { result ≡ length (held_by self.entry) }
    {
        self.rows.held()
    }

    // The look of this place: a cell for each column of the table.
    pub fn look(self, i: usize) -> Option<&'a [u64]>
        ensures { MatchOption result (length (held_by self.entry) ≤ i) (λ x. (i < length (held_by self.entry)) × (x.now ≡ (slice_index_or (held_by self.entry) i no_held).looks)) }
    {
        Some(self.rows.rows().nth(i)?.look)
    }

    // How many rows have the look of this place; 0 where there is none.
    pub fn times(self, i: usize) -> u64
        ensures { result ≡ (slice_index_or (held_by self.entry) i no_held).times }
    {
        self.rows.rows().nth(i).map_or(0, |held| held.times)
    }

    // The place of the first look that the row has in the part's columns, or how many looks there are.
    pub fn place_of(self, row: &[u64]) -> usize
        ensures { result ≡ place_in (cols self.entry.owned) row.now (held_by self.entry) }
    {
        let set = self.set();
        self.rows.place_of(set, row)
    }
}
