// A row comes, goes or is asked for.
ghost use Rattle.std.specs.Prelude.{◌≡◌};
ghost use Rattle.parts.specs.Day.{all_hold, all_more, all_less};
ghost use Rattle.parts.specs.Left.{design_of, part_room, held_parts, PartsAfter};
ghost use Rattle.parts.specs.Answers.{outcome, put_told, take_told, asked_told, Asks};

use crate::asking::{all_hold, first_broken_rule, first_full};
use crate::changing::{Comes, Goes, count_all};
use crate::design_parts::DesignParts;
use dependencies::Refusal;

// The row comes in: it is taken, or refused by the first number that applies, and then nothing has changed.
// That some part has no room is told before any part has counted the row.
pub fn put_in(parts: DesignParts, cells: &mut [u64], row: &[u64]) -> Result<(), Refusal>
    ensures told { outcome result ≡ put_told parts.entry.width.columns (part_room parts.entry cells.old) (design_of parts.entry) (held_parts parts.entry cells.old) row.now }
    ensures after { PartsAfter parts.entry cells.old cells.new (all_more (design_of parts.entry) (held_parts parts.entry cells.old) row.now) result }
{
    if row.len() != parts.width.columns() as usize {
        return Err(Refusal::Cells(row.len() as u64));
    }
    if all_hold(parts, cells, row) {
        return Err(Refusal::Present);
    }
    if let Some((part, rule)) = first_broken_rule(parts, cells, row) {
        return Err(Refusal::Broken { part, rule });
    }
    if let Some(part) = first_full(parts, cells, row) {
        return Err(Refusal::PartFull(part));
    }
    count_all::<Comes>(parts, cells, row);
    Ok(())
}

// The row goes: it is taken out, or refused, and then nothing has changed.
pub fn take_out(parts: DesignParts, cells: &mut [u64], row: &[u64]) -> Result<(), Refusal>
    ensures told { outcome result ≡ take_told parts.entry.width.columns (design_of parts.entry) (held_parts parts.entry cells.old) row.now }
    ensures after { PartsAfter parts.entry cells.old cells.new (all_less (design_of parts.entry) (held_parts parts.entry cells.old) row.now) result }
{
    if row.len() != parts.width.columns() as usize {
        return Err(Refusal::Cells(row.len() as u64));
    }
    if !all_hold(parts, cells, row) {
        return Err(Refusal::Absent);
    }
    count_all::<Goes>(parts, cells, row);
    Ok(())
}

// Whether the row is present.
pub fn is_present(parts: DesignParts, cells: &[u64], row: &[u64]) -> Result<bool, Refusal>
    ensures told { outcome result ≡ asked_told parts.entry.width.columns row.now }
    ensures asked { Asks parts.entry.width.columns (design_of parts.entry) (held_parts parts.entry cells.now) row.now result }
{
    if row.len() != parts.width.columns() as usize {
        return Err(Refusal::Cells(row.len() as u64));
    }
    Ok(all_hold(parts, cells, row))
}
