// The type alone, so that the specs may name it.
use bounded::Bounded;
use dependencies::Rule;

// The rules that no part owns yet.
#[derive(Clone, Copy)]
pub struct Unplaced {
    pub(crate) rules: Bounded<Rule, 512>,
}
