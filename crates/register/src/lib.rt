// A register that is kept in the parts of a design, in lent memory: rows come in, go, and are asked for, one by one or for a whole
// day, from numbers or from bytes. It takes and refuses what one table with all rules would. Nothing here allocates.
#![tactic(auto)]

mod day;
mod day_bytes;
mod deed_kind;
mod deed_kind_type;
mod part_reading;
mod register;
mod theorems;

pub use day_bytes::{DayRest, behind_rules, day_rest, deeds_from_bytes};
pub use register::Register;
pub use theorems::{
    cells_to_the_letter, day_undone, organs_day_in_one_table, parts_as_whole, parts_never_more,
};

#[cfg(test)]
mod tests;
