// The type alone, so that its fields can promise what was read.
ghost use Rattle.std.specs.Prelude.{◌≡◌, true};
ghost use Rattle.parts.specs.Store.{whole_part};

use columns::Width;

// A part of a lent design, by its place, with what stands behind it: its set, how many rules it owns, and two sets a rule.
#[derive(Clone, Copy)]
pub(crate) struct OwnPart<'a> {
    pub(crate) place: u32,
    pub(crate) width: Width,
    pub(crate) numbers: &'a [u64],
    ghost sound: { whole_part width.columns numbers.now ≡ true },
}
