// The type alone: a lent table.
use columns::Width;

// The rows of a table, one after the other; the last may be cut short.
#[derive(Clone, Copy)]
pub(crate) struct TableRows<'a> {
    pub(crate) width: Width,
    pub(crate) cells: &'a [u64],
}
