// Designs: the parts into which a table is laid, each with rules of its own.
#![tactic(auto)]

mod designing;
mod extents;
mod layout;
mod lent;
mod lent_sets;
mod merging;
mod part_sets;
mod part_text;
mod plan;
mod plan_text;
mod theorems;
mod unplaced;

pub use designing::design;
pub use extents::design_extent;
pub use lent::design_for;
pub use lent_sets::part_len;
pub use part_text::{Lead, PartLine};
pub use plan::Plan;
pub use theorems::{design_always_exists, design_always_fits, key_part_enough, two_parts_lossless};

#[cfg(test)]
mod tests;
