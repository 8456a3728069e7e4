// What a queue does.
ghost use Rattle.std.specs.Prelude.{◌≡◌, ◌+◌, ◌<◌, [], ◌∷◌, ◌++◌, MatchOption};
ghost use Rattle.cover.specs.Queued.{queued, spare};

use crate::queue::Queue;
use bounded::Bounded;

impl<T: Copy> Queue<T> {
    // A queue that holds nothing; the blank fills its cells.
    pub(crate) fn new(blank: T) -> Self
        ensures { (queued result ≡ []) × (spare result ≡ 1024) }
    {
        Queue {
            pushed: Bounded::new(blank),
            first: 0,
        }
    }

    // What it holds, from the front.
    pub(crate) fn items(&self) -> &[T]
        ensures { result.now ≡ queued self.now }
    {
        &self.pushed.as_slice()[self.first..]
    }

    pub(crate) fn push(&mut self, item: T)
        requires { 0 < spare self.old }
        ensures { (queued self.new ≡ queued self.old ++ item ∷ []) × (spare self.new + 1 ≡ spare self.old) }
    {
        self.pushed.push(item);
    }

    // What stands in front, taken off.
    pub(crate) fn take_first(&mut self) -> Option<T>
        ensures { MatchOption result ((queued self.old ≡ []) × (self.new ≡ self.old)) (λ x. (queued self.old ≡ x ∷ queued self.new) × (spare self.new ≡ spare self.old)) }
    {
        let item = *self.items().first()?;
        self.first += 1;
        Some(item)
    }
}
