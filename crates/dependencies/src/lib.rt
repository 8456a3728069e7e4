// Rules about the columns of a table, and what follows from them.
// A rule is a functional dependency: rows that are equal in all its left columns are equal in all its right ones.
// Rules are read once, from lent numbers or from a file's bytes, and refused by the first number that applies; closures and
// implications are then asked of them. Nothing here allocates.
#![tactic(auto)]

mod bytes;
mod cells;
mod closing;
mod held;
mod implied;
mod input;
mod no_columns;
mod refusals;
mod rule_numbers;
mod rules;
mod text;
mod theorems;

pub use bytes::{rule_row, rules_from_bytes};
pub use cells::{agrees, cell, row_apart};
pub use closing::{closure, fixes};
pub use held::RuleSet;
pub use implied::{Implication, TwoRows, follows, follows_from, two_rows};
pub use input::read_rules;
pub use refusals::{Condition, Refusal};
pub use rule_numbers::RuleRow;
pub use rules::Rule;
pub use theorems::{closure_is_exact, one_table_tells, two_rows_suffice};

#[cfg(test)]
mod tests;
