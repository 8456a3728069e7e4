// To leave out of a queue what is redundant beside the others, whatever it holds and whatever makes it redundant.
ghost use Rattle.std.specs.Prelude.{◌≤◌, List, length};
ghost use Rattle.cover.specs.Queued.{queued, spare};
ghost use Rattle.cover.specs.Trimmed.{RedundancyLaws, Trimmed, Decides};

use crate::queue::Queue;

// What may be left out of a list beside the others.
pub(crate) trait Redundancy: Copy {
    // Beside the members of the list this one is not needed.
    ghost redundant: { List Self → Self → Type 0 };

    fn is_redundant(self, others: &[Self]) -> bool
        ensures { Decides (redundant others.now self) result };

    ghost laws: { RedundancyLaws redundant };
}

// Each item in turn is taken off the front, and put back at the end unless it is redundant beside the others.
// What is kept stands in the order in which it stood.
pub(crate) fn drop_redundant<T: Redundancy>(queue: &mut Queue<T>)
    requires { length (queued queue.old) ≤ spare queue.old }
    ensures { Trimmed T.redundant (queued queue.old) (queued queue.new) }
{
    let count = queue.items().len();
    for _ in 0..count {
        let Some(item) = queue.take_first() else {
            return;
        };
        if !item.is_redundant(queue.items()) {
            queue.push(item);
        }
    }
}
