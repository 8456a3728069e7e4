// A list of at most N items, in an array of its own: it is copied like a number, and nothing allocates.
// Every contract speaks of the list of its items, in the order in which they were pushed.
#![tactic(auto)]

mod list;
mod list_type;

pub use list_type::Bounded;

#[cfg(test)]
mod tests;
