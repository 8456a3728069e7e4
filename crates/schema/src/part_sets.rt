// The type alone, so that the specs may name it.
use bounded::Bounded;
use columns::ColumnSet;

// The sets of the parts of a design. A least set has at most 512 rules, and a key may come.
#[derive(Clone, Copy)]
pub struct PartSets {
    pub(crate) sets: Bounded<ColumnSet, 513>,
}
