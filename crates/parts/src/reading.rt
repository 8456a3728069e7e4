// Lent designs: whether their numbers can be read, and rules with them.
ghost use Rattle.std.specs.Prelude.{◌≡◌, ◌+◌, ◌*◌, ◌≤◌, true, false, length, MatchOption, slice_index};
ghost use Rattle.parts.specs.Store.{whole_part, readable};
ghost use Rattle.dependencies.specs.Told.{done, refused};
ghost use Rattle.parts.specs.Answers.{Opens, opened_told};

use columns::Width;
use dependencies::{Condition, Refusal, read_rules};

// No design has more parts.
const MOST_PARTS: u64 = u32::MAX as u64;

// A part has no more rules than a `u32` counts, so it takes no more numbers than these.
const LONGEST_PART: usize = 2 + 2 * u32::MAX as usize;

// How many numbers the part at the front takes, unless it is cut short, too long, or one of its sets names a column that is not there.
fn part_len(numbers: &[u64], width: Width) -> Option<usize>
    ensures { MatchOption result (whole_part width.columns numbers.now ≡ false) (λ k. (whole_part width.columns numbers.now ≡ true) × (k ≡ 2 + 2 * slice_index numbers.now 1) × (k ≤ length numbers.now)) }
{
    let len = schema::part_len(numbers, width)?;
    if len > LONGEST_PART {
        return None;
    }
    Some(len)
}

// The numbers can be read as a design.
pub(crate) fn is_readable(design: &[u64], width: Width) -> bool
    ensures { result ≡ readable width.columns design.now }
{
    let [count @ 1..=MOST_PARTS, parts @ ..] = design else {
        return false;
    };
    let mut rest = parts;
    for _ in 0..*count {
        let Some(len) = part_len(rest, width) else {
            return false;
        };
        rest = &rest[len..];
    }
    true
}

// How many columns the table has, if its rules and the design can be read: what every opening begins with.
pub fn width_to_open(rules: &[u64], design: &[u64]) -> Result<Width, Refusal>
    ensures { Opens rules.now design.now result }
{
    let set = read_rules(rules)?;
    let width = set.width();
    if !is_readable(design, width) {
        return Err(Refusal::NotADesign(Condition::Covers));
    }
    Ok(width)
}

// How many columns the table has, if the design can be read with so many: this is what every request to a register begins with.
pub fn readable_at(columns: u64, design: &[u64]) -> Option<Width>
    ensures { MatchOption result (opened_told columns design.now ≡ refused 6 1) (λ w. (opened_told columns design.now ≡ done) × (w.columns ≡ columns) × (readable w.columns design.now ≡ true)) }
{
    let width = Width::new(columns)?;
    if !is_readable(design, width) {
        return None;
    }
    Some(width)
}
