// The type alone, so that the specs may name it.
ghost use Rattle.std.specs.Prelude.{◌≤◌};

// How many columns a table has: 1 to 16.
#[derive(Clone, Copy, PartialEq, Eq, Debug)]
pub struct Width {
    pub(crate) columns: u32,
    ghost some: { 1 ≤ columns },
    ghost narrow: { columns ≤ 16 },
}
