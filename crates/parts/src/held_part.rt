// The type alone: a part as other crates read it.
use crate::part_rows::PartRows;
use columns::ColumnSet;

// One part of an opened register as it stands: its columns, and the cells of its rows.
#[derive(Clone, Copy)]
pub struct HeldPart<'a> {
    pub(crate) owned: ColumnSet,
    pub(crate) rows: PartRows<'a>,
}
