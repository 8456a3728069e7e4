// Least sets of rules. A set of rules is least if it says what the given rules say, each of its rules has one right column, no rule
// follows from the others, and no column can be left out of a left side.
// The way there: each rule is split by its right columns, and each left side reduced for its own right column alone; then, rule by rule,
// what follows from the others is left out. Nothing here allocates.
#![tactic(auto)]

mod fine;
mod held;
mod least;
mod lent;
mod queue;
mod queueing;
mod redundant_rules;
#[cfg(test)]
mod tests;
mod theorems;
mod trimming;

pub use held::Cover;
pub use least::least_cover;
pub use lent::least_set_for;
pub use theorems::least_set_exists;
