// What the parts of a design say of a row together.
ghost use Rattle.std.specs.Prelude.{◌≡◌, ℕ};
ghost use Rattle.parts.specs.Day.{all_hold};
ghost use Rattle.parts.specs.Left.{design_of, part_room, held_parts};
ghost use Rattle.parts.specs.Answers.{first_broken, first_full_part as first_full_of};

use crate::design_parts::DesignParts;
use crate::looks::breaks;

// Every part holds what the row looks like.
pub(crate) fn all_hold(parts: DesignParts, cells: &[u64], row: &[u64]) -> bool
    ensures { result ≡ all_hold (design_of parts.entry) (held_parts parts.entry cells.now) row.now }
{
    parts
        .walk(cells)
        .all(|(part, rows)| rows.holds(part.set(), row))
}

// The first part that cannot count the row.
pub(crate) fn first_full(parts: DesignParts, cells: &[u64], row: &[u64]) -> Option<u32>
    ensures { result ≡ first_full_of 0 (part_room parts.entry cells.now) (design_of parts.entry) (held_parts parts.entry cells.now) row.now }
{
    for (part, rows) in parts.walk(cells) {
        if rows.is_full(part.set(), row) {
            return Some(part.place);
        }
    }
    None
}

// The first part, and the first of its rules, that some held row breaks together with the new one.
pub(crate) fn first_broken_rule(
    parts: DesignParts,
    cells: &[u64],
    row: &[u64],
) -> Option<(u32, u32)>
    ensures { result ≡ first_broken 0 (design_of parts.entry) (held_parts parts.entry cells.now) row.now }
{
    let mut found = None;
    'parts: for (part, rows) in parts.walk(cells) {
        // By its place, since that is how a part gives a rule, and what is told.
        for q in 0..part.rules() {
            let rule = part.rule(q);
            for held in rows.rows() {
                if breaks(rule, row, held.look) {
                    found = Some((part.place, q));
                    break 'parts;
                }
            }
        }
    }
    found
}
