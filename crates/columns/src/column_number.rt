// The type alone, so that the specs may name it.
ghost use Rattle.std.specs.Prelude.{◌<◌};

// A column, by its number: 0 to 15.
#[derive(Clone, Copy, PartialEq, Eq, Debug)]
pub struct Column {
    pub(crate) index: u32,
    ghost small: { index < 16 },
}
