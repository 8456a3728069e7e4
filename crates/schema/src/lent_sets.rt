// Sets as they are lent, before they are read.
ghost use Rattle.std.specs.Prelude.{◌≡◌, ◌+◌, ◌*◌, ◌≤◌, true, false, length, MatchOption, slice_index};
ghost use Rattle.schema.specs.Layout.{all_sets_fit, is_first_whole};

use crate::extents::part_extent;
use columns::{ColumnSet, Width};

// Whether no set names a column that the table does not have.
pub(crate) fn sets_fit(sets: &[u64], width: Width) -> bool
    ensures { result ≡ all_sets_fit width.columns (length sets.now) sets.now }
{
    sets.iter()
        .all(|set| ColumnSet::from_bits(*set, width).is_some())
}

// How many numbers the part at the front takes, if it is there whole and its sets name columns of the table only.
pub fn part_len(numbers: &[u64], width: Width) -> Option<usize>
    ensures { MatchOption result (is_first_whole width.columns numbers.now ≡ false) (λ k. (is_first_whole width.columns numbers.now ≡ true) × (k ≡ 2 + 2 * slice_index numbers.now 1) × (k ≤ length numbers.now)) }
{
    let len = part_extent(numbers)?;
    ColumnSet::from_bits(numbers[0], width)?;
    if !sets_fit(&numbers[2..len], width) {
        return None;
    }
    Some(len)
}
