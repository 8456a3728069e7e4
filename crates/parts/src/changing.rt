// Every part counts a row once more, or once less.
ghost use Rattle.std.specs.Prelude.{◌≡◌, ℕ, List, true, false, length, None};
ghost use Rattle.columns.specs.Cols.{Cols};
ghost use Rattle.columns.specs.Sets.{cols};
ghost use Rattle.dependencies.specs.Tables.{Row};
ghost use Rattle.schema.specs.Design.{Part};
ghost use Rattle.parts.specs.Changes.{Apart, EachMay};
ghost use Rattle.parts.specs.Day.{Held, holds as held_before, all_hold, one_more, one_less, all_more, all_less};
ghost use Rattle.parts.specs.Left.{design_of, part_room, held_parts, PartsHold, RowsWhole, RowsHold};
ghost use Rattle.parts.specs.Store.{held_in};
ghost use Rattle.parts.specs.Answers.{full as no_more_room, first_full_part};
ghost use Rattle.parts.specs.ChangeLaws.{more_apart, less_apart, each_has_room, each_holds};

use crate::counting::{count_in, count_out};
use crate::design_parts::DesignParts;
use crate::whole_row::WholeRow;
use columns::ColumnSet;

// What a part does with a row that comes or goes.
pub(crate) trait Counts {
    // What one part holds afterwards, and what all parts do.
    ghost one: { Cols → Row → List Held → List Held };

    ghost all: { List Part → List (List Held) → Row → List (List Held) };

    // When one part may do so, with room for so many rows, and when all may.
    ghost may: { ℕ → Cols → Row → List Held → Type 0 };

    ghost all_may: { ℕ → List Part → List (List Held) → Row → Type 0 };

    fn count(rows: &mut [u64], room: usize, set: ColumnSet, row: WholeRow)
        requires whole { RowsWhole row.width room rows.old }
        requires may { may room (cols set) row.cells.now (held_in row.width.columns room rows.old) }
        ensures { RowsHold row.entry.width room rows.old rows.new (one (cols set) row.entry.cells.now (held_in row.entry.width.columns room rows.old)) };

    // The parts do so each by itself.
    ghost apart: { Apart all one };

    ghost each_may: { EachMay all_may may };
}

// The row comes: the part counts it.
pub(crate) struct Comes;

impl Counts for Comes {
    ghost one = { one_more };

    ghost all = { all_more };

    ghost may = { λ room p r hs. no_more_room room p r hs ≡ false };

    ghost all_may = { λ room ps hs r. first_full_part 0 room ps hs r ≡ None };

    fn count(rows: &mut [u64], room: usize, set: ColumnSet, row: WholeRow) {
        count_in(rows, room, set, row)
    }

    ghost apart = { more_apart };

    ghost each_may = { each_has_room };
}

// The row goes: the part counts it no more.
pub(crate) struct Goes;

impl Counts for Goes {
    ghost one = { one_less };

    ghost all = { all_less };

    ghost may = { λ room p r hs. held_before p r hs ≡ true };

    ghost all_may = { λ room ps hs r. all_hold ps hs r ≡ true };

    fn count(rows: &mut [u64], room: usize, set: ColumnSet, row: WholeRow) {
        count_out(rows, room, set, row)
    }

    ghost apart = { less_apart };

    ghost each_may = { each_holds };
}

// Every part does so with the row.
pub(crate) fn count_all<C: Counts>(parts: DesignParts, cells: &mut [u64], row: &[u64])
    requires full { length row.now ≡ parts.width.columns }
    requires may { C.all_may (part_room parts cells.old) (design_of parts) (held_parts parts cells.old) row.now }
    ensures { PartsHold parts.entry cells.old cells.new (C.all (design_of parts.entry) (held_parts parts.entry cells.old) row.now) }
{
    let width = parts.width;
    let room = parts.room(cells.len());
    let size = parts.size(cells.len());
    let whole = WholeRow { width, cells: row };
    for part in parts.own_parts() {
        let at = part.place as usize * size;
        C::count(&mut cells[at..at + size], room, part.set(), whole);
    }
}
