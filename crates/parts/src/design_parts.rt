// The type alone, so that its fields can promise what was read.
ghost use Rattle.std.specs.Prelude.{◌≡◌, true};
ghost use Rattle.parts.specs.Store.{readable};

use columns::Width;

// A lent design that can be read: a count of parts, and the parts one after the other.
#[derive(Clone, Copy)]
pub struct DesignParts<'a> {
    pub width: Width,
    pub numbers: &'a [u64],
    ghost sound: { readable width.columns numbers.now ≡ true },
}
