// Whole tables: laid into the parts of a register, and joined from the parts again.
// A table that obeys the rules, laid into a bare register of a design and joined, has the same rows, none lost and none made up.
// What is joined has no bound, so it stands in memory that is asked for; laying allocates nothing.
#![tactic(auto)]

mod failure;
mod joining;
mod laying;
mod merging;
mod refusal;
mod table_rows;
mod text;
mod theorems;
mod trip;

pub use failure::{JoinFailure, TripFailure};
pub use joining::join;
pub use laying::lay;
pub use refusal::LayRefusal;
pub use theorems::laid_then_joined;
pub use trip::lay_and_join;

#[cfg(test)]
mod tests;
