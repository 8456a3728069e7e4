// Keys of a set of columns: sets inside it that fix it, and of which no smaller part does.
// One walk over candidate sets, in the order of sets, finds the first key or writes all of them; nothing is sorted, and nothing
// allocates.
#![tactic(auto)]

mod branch;
mod branching;
mod first;
mod fixing;
mod listing;
mod pruning;
#[cfg(test)]
mod tests;
mod text;
mod theorems;

pub use first::first_key;
pub use listing::{candidate_keys, write_keys};
pub use text::{KeyLead, KeysLine};
pub use theorems::{keys_are_one, keys_exist};
