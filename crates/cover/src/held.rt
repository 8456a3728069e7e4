// The type alone, so that the specs may name it.
use bounded::Bounded;
use dependencies::Rule;

// A least set of rules.
#[derive(Clone, Copy)]
pub struct Cover {
    pub(crate) rules: Bounded<Rule, 512>,
}
