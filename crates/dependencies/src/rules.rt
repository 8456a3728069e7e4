// A rule by itself.
use columns::ColumnSet;

// Rows that are equal in all left columns are equal in all right ones.
#[derive(Clone, Copy, PartialEq, Eq, Debug)]
pub struct Rule {
    pub left: ColumnSet,
    pub right: ColumnSet,
}
