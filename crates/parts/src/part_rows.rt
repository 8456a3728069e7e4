// The types alone, so that their fields can promise how long the cells are.
ghost use Rattle.std.specs.Prelude.{◌≡◌, ◌+◌, ◌*◌, ◌^◌, ◌<◌, length};

use columns::Width;

// The cells of one part: room for so many rows, each with a cell for each column and a count.
#[derive(Clone, Copy)]
pub(crate) struct PartRows<'a> {
    pub(crate) width: Width,
    pub(crate) room: usize,
    pub(crate) cells: &'a [u64],
    ghost whole: { length cells.now ≡ room * (width.columns + 1) },
}

// The rows that a part holds from one place on.
#[derive(Clone, Copy)]
pub(crate) struct HeldRows<'a> {
    pub(crate) place: usize,
    pub(crate) rows: PartRows<'a>,
    ghost within: { place + rows.room < 2 ^ 64 },
}

// One of them: its place, its cells, and how many rows look so.
#[derive(Clone, Copy)]
pub(crate) struct HeldRow<'a> {
    pub(crate) place: usize,
    pub(crate) look: &'a [u64],
    pub(crate) times: u64,
}
