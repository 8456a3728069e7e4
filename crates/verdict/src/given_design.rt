// The type alone, so that the specs may name it.
ghost use Rattle.std.specs.Prelude.{◌≡◌, ◌≤◌, true, length};
ghost use Rattle.schema.specs.Layout.{extent, parts_fit};

use columns::Width;

// Parts as they are lent, which name columns of the table only: the first `count` that the numbers hold.
#[derive(Clone, Copy)]
pub(crate) struct GivenDesign<'a> {
    pub(crate) width: Width,
    pub(crate) count: usize,
    pub(crate) numbers: &'a [u64],
    ghost whole: { extent count numbers.now ≤ length numbers.now },
    ghost fits: { parts_fit width.columns count numbers.now ≡ true },
}
