// The type alone, so that the specs may name it.
use bounded::Bounded;

// The numbers of a lent row of rules, as many as 32 rules have.
#[derive(Clone, Copy)]
pub struct RuleRow {
    pub(crate) numbers: Bounded<u64, 66>,
}
