// The parts of a register in lent memory: what each part holds, and a row that comes, goes or is asked for.
// A part holds what the rows look like in its columns, each look once, with how many rows look so, in the order in which the looks
// first came. Nothing here allocates.
#![tactic(auto)]

mod asking;
mod changing;
mod counting;
mod deeds;
mod design_parts;
mod held_part;
mod looks;
mod own_part;
mod part_reading;
mod part_rows;
mod parts_left;
mod reading;
mod rows_held;
mod walking;
mod whole_row;

pub use deeds::{is_present, put_in, take_out};
pub use dependencies::agrees;
pub use design_parts::DesignParts;
pub use held_part::HeldPart;
pub use part_reading::{part_count, read_part};
pub use reading::{readable_at, width_to_open};
