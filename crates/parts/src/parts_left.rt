// The types alone, so that their fields can promise what was read.
ghost use Rattle.std.specs.Prelude.{◌≡◌, ◌+◌, ◌-◌, ◌*◌, ◌≤◌, true, length};
ghost use Rattle.parts.specs.Store.{formed};

use columns::Width;

// The parts of a lent design from one place on, up to so many.
#[derive(Clone, Copy)]
pub(crate) struct PartsLeft<'d> {
    pub(crate) width: Width,
    pub(crate) place: u32,
    pub(crate) count: u32,
    pub(crate) numbers: &'d [u64],
    ghost sound: { formed width.columns (count - place) numbers.now ≡ true },
}

// The same with the cells of these parts, which have room for equally many rows.
#[derive(Clone, Copy)]
pub(crate) struct PartWalk<'d, 'c> {
    pub(crate) parts: PartsLeft<'d>,
    pub(crate) room: usize,
    pub(crate) cells: &'c [u64],
    ghost long: { (parts.count - parts.place) * (room * (parts.width.columns + 1)) ≤ length cells.now },
}
