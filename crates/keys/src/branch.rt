// The type alone, so that the specs may name it.
ghost use Rattle.std.specs.Prelude.{◌≡◌, ℕ, ◌<◌, true};
ghost use Rattle.columns.specs.Cols.{has, all_in};
ghost use Rattle.columns.specs.Sets.{cols};

use columns::ColumnSet;

// What a walk over candidate sets has before it: the sets inside the target that have all chosen columns, and besides only
// free ones. Every free column is higher than every chosen one, so that the walk goes in the order of sets.
#[derive(Clone, Copy)]
pub struct Branch {
    pub(crate) target: ColumnSet,
    pub(crate) chosen: ColumnSet,
    pub(crate) free: ColumnSet,
    ghost inside: { all_in (cols chosen) (cols target) ≡ true },
    ghost within: { all_in (cols free) (cols target) ≡ true },
    ghost apart: { (c d : ℕ) → has (cols chosen) c ≡ true → has (cols free) d ≡ true → c < d },
}
