// The whole walk as one branch, and a branch divided at its lowest free column.
ghost use Rattle.std.specs.Prelude.{◌≡◌, [], MatchOption};
ghost use Rattle.columns.specs.Sets.{cols};
ghost use Rattle.keys.specs.Walks.{Divided};

use crate::branch::Branch;
use columns::ColumnSet;

// The two halves of a branch: the sets that have a column, and those that do not.
#[derive(Clone, Copy)]
pub struct Halves {
    pub(crate) with: Branch,
    pub(crate) without: Branch,
}

impl Branch {
    // All sets inside the target.
    pub(crate) fn whole(target: ColumnSet) -> Self
        ensures { (result.target ≡ target) × (cols result.chosen ≡ []) × (result.free ≡ target) }
    {
        Branch {
            target,
            chosen: ColumnSet::empty(),
            free: target,
        }
    }

    // The sets that have the lowest free column, and those that do not; none where no column is free.
    pub(crate) fn divide(self) -> Option<Halves>
        ensures { MatchOption result (cols self.free ≡ []) (λ h. Divided self h.with h.without) }
    {
        let mut free = self.free;
        let c = free.take_first()?;
        let with = Branch {
            target: self.target,
            chosen: self.chosen.with(c),
            free,
        };
        let without = Branch {
            target: self.target,
            chosen: self.chosen,
            free,
        };
        Some(Halves { with, without })
    }
}
