// The types alone, so that the specs may name them.
ghost use Rattle.std.specs.Prelude.{◌≡◌, ◌*◌, ◌≤◌, true, length};
ghost use Rattle.schema.specs.Layout.{all_sets_fit};

use columns::{ColumnSet, Width};

// Rules of a part as they are lent, two sets each, which name columns of the table only: the first `count` of the numbers, which is
// the lent row's format: the count stands before the rules, and what follows them is not theirs.
#[derive(Clone, Copy)]
pub(crate) struct OwnRules<'a> {
    pub(crate) width: Width,
    pub(crate) count: usize,
    pub(crate) numbers: &'a [u64],
    ghost whole: { 2 * count ≤ length numbers.now },
    ghost fits: { all_sets_fit width.columns (2 * count) numbers.now ≡ true },
}

// A part that somebody else made: its columns, and the rules that it owns.
#[derive(Clone, Copy)]
pub(crate) struct GivenPart<'a> {
    pub(crate) set: ColumnSet,
    pub(crate) rules: OwnRules<'a>,
}
