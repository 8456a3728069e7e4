// The type alone, so that the specs may name it.
ghost use Rattle.std.specs.Prelude.{◌≤◌, length};
ghost use Rattle.bounded.specs.Items.{items};

use bounded::Bounded;

// A row that is taken from at the front and grows at the end, so that what it holds is always one slice: all that was pushed, but for the first.
// There is room for a rule for each of 16 right columns of 32 rules, and to put each of them back once.
#[derive(Drop)]
pub(crate) struct Queue<T> {
    pub(crate) pushed: Bounded<T, 1024>,
    pub(crate) first: usize,
    ghost ordered: { first ≤ length (items pushed) },
}
