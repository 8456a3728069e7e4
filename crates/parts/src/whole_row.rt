// The type alone, so that its fields can promise how long the row is.
ghost use Rattle.std.specs.Prelude.{◌≡◌, length};

use columns::Width;

// A row with as many cells as the table has columns.
#[derive(Clone, Copy)]
pub(crate) struct WholeRow<'a> {
    pub(crate) width: Width,
    pub(crate) cells: &'a [u64],
    ghost whole: { length cells.now ≡ width.columns },
}
