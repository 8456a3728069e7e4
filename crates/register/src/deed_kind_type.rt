// The type alone, so that the specs may name it.

// A row comes, or goes.
#[derive(Clone, Copy, PartialEq, Eq, Debug)]
pub(crate) enum DeedKind {
    PutIn,
    TakeOut,
}
