// Why a table is not laid.
use dependencies::Refusal;

// The first row that is refused, counted from 0, and its refusal.
#[derive(Clone, Copy, PartialEq, Eq, Debug)]
pub struct LayRefusal {
    pub row: u64,
    pub refusal: Refusal,
}
