// What a branch of the walk can hold, so that those without a key are cut off.
ghost use Rattle.dependencies.specs.Rules.{deps};
ghost use Rattle.keys.specs.Walks.{Prunes};

use crate::branch::Branch;
use crate::branching::Halves;
use crate::fixing::is_needed;
use dependencies::{Rule, fixes};

#[derive(Clone, Copy)]
pub enum Pruned {
    // The chosen columns are the only key.
    Leaf,
    // There is no key.
    Dead,
    // There may be keys in both halves; those of the first stand before those of the second.
    Fork(Halves),
}

// A set that fixes the target is not grown, since a larger one is no key; one that does not fix it with all free columns
// is not walked.
pub(crate) fn prune(rules: &[Rule], branch: Branch) -> Pruned
    ensures { Prunes (deps rules.now) branch result }
{
    let right = branch.target;
    if fixes(rules, branch.chosen, right) {
        return if is_needed(rules, branch.chosen, right) {
            Pruned::Leaf
        } else {
            Pruned::Dead
        };
    }
    let left = branch.chosen.union(branch.free);
    if !fixes(rules, left, right) {
        return Pruned::Dead;
    }
    match branch.divide() {
        Some(halves) => Pruned::Fork(halves),
        None => Pruned::Dead,
    }
}
