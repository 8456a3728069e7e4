// Reading where a design in a lent row ends. A part is read as the row from its own place on.
ghost use Rattle.std.specs.Prelude.{◌≡◌, ◌+◌, ◌*◌, ◌<◌, ◌≤◌, length, MatchOption, slice_index};
ghost use Rattle.schema.specs.Layout.{extent_of_design};

// How many numbers the part at the front of the row takes; none where the row ends before the part does.
pub(crate) fn part_extent(row: &[u64]) -> Option<usize>
    ensures { MatchOption result (length row.now < 2 + 2 * slice_index row.now 1) (λ k. (k ≡ 2 + 2 * slice_index row.now 1) × (k ≤ length row.now)) }
{
    let [_, count, sets @ ..] = row else {
        return None;
    };
    if *count as usize > sets.len() / 2 {
        return None;
    }
    Some(2 + 2 * *count as usize)
}

// How many numbers of the row the design in it takes; none where the row ends before the design does.
pub fn design_extent(lent: &[u64]) -> Option<usize>
    ensures { MatchOption result (length lent.now < extent_of_design lent.now) (λ k. (k ≡ extent_of_design lent.now) × (k ≤ length lent.now)) }
{
    let parts = lent.first()?;
    let mut at = 1;
    for _ in 0..*parts {
        at += part_extent(&lent[at..])?;
    }
    Some(at)
}
