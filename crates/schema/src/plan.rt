// The type alone, so that the specs may name it.
use crate::part_sets::PartSets;
use cover::Cover;

// A design: the sets of its parts, and a least set of rules, each of which the first part that holds it owns.
#[derive(Clone, Copy)]
pub struct Plan {
    pub(crate) cover: Cover,
    pub(crate) sets: PartSets,
}
