// Sets of columns of a table that has at most 16, numbered from 0: a set is a number in which 2^c stands for column c.
// Every operation is a mask or a shift, and every contract speaks of the list of the set's columns, rising.
// The laws that the crates above build on are the lemmas of proofs/.
#![tactic(auto)]

mod algebra;
mod column_number;
mod numbers;
mod order;
mod set;
mod table_width;
mod text;
mod walk;

pub use column_number::Column;
pub use order::{order_is_total, sets_are_numbers};
pub use set::ColumnSet;
pub use table_width::Width;

#[cfg(test)]
mod tests;
