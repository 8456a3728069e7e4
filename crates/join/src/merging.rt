// One part more is joined to rows that were joined so far.
ghost use Rattle.std.specs.Prelude.{◌≡◌, ◌++◌, length, IfOk, OnOk};
ghost use Rattle.columns.specs.Sets.{cols};
ghost use Rattle.parts.specs.Parts.{held_by};
ghost use Rattle.join.specs.Steps.{merged, join_with, join_first, join_all};

use columns::ColumnSet;
use dependencies::{agrees, cell};
use parts::HeldPart;
use std::alloc::{AllocError, Global};

// The row with the look's cells in the set's columns.
fn merge(row: &[u64; 16], set: ColumnSet, look: &[u64]) -> [u64; 16]
    ensures { result ≡ merged (cols set) look.now row.now }
{
    let mut joined = *row;
    let mut rest = set;
    while let Some(c) = rest.take_first() {
        joined[c.index() as usize] = cell(look, c);
    }
    joined
}

// The row joined with the look of place i, if the two agree in the shared columns. A look that the part
// lists a second time joins nothing.
fn joined_with(row: &[u64; 16], shared: ColumnSet, part: HeldPart, i: usize) -> Option<[u64; 16]>
    ensures { result ≡ join_with (cols shared) (cols part.entry.owned) (held_by part.entry) row.now i }
{
    let look = part.look(i)?;
    if !agrees(shared, row, look) {
        return None;
    }
    if part.place_of(look) != i {
        return None;
    }
    Some(merge(row, part.set(), look))
}

// Appends the row joined with each look of the part, in the order of the looks.
fn join_row(
    rows: &mut Vec<[u64; 16]>,
    row: &[u64; 16],
    shared: ColumnSet,
    part: HeldPart,
) -> Result<(), AllocError>
    ensures { OnOk result (rows.new.items ≡ rows.old.items ++ join_first (cols shared) (cols part.entry.owned) (held_by part.entry) row.now (length (held_by part.entry))) }
{
    // By its place: a look joins only where it is the first of its kind.
    for i in 0..part.len() {
        if let Some(joined) = joined_with(row, shared, part, i) {
            rows.push(joined)?;
        }
    }
    Ok(())
}

// Every row joined with each look of the part, in order.
pub(crate) fn join_part(
    heap: Global,
    rows: &[[u64; 16]],
    shared: ColumnSet,
    part: HeldPart,
) -> Result<Vec<[u64; 16]>, AllocError>
    ensures { IfOk result (λ v. v.items ≡ join_all (cols shared) (cols part.entry.owned) (held_by part.entry) rows.now) }
{
    let mut next = Vec::new(heap);
    for row in rows {
        join_row(&mut next, row, shared, part)?;
    }
    Ok(next)
}
