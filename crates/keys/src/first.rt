// One key, without room for the others: the first in the order of sets.
ghost use Rattle.std.specs.Prelude.{◌≡◌, false, MatchOption};
ghost use Rattle.columns.specs.Cols.{Cols, Rising};
ghost use Rattle.columns.specs.Order.{before};
ghost use Rattle.columns.specs.Sets.{cols};
ghost use Rattle.dependencies.specs.Rules.{deps};
ghost use Rattle.keys.specs.Keys.{Key};
ghost use Rattle.keys.specs.Walks.{First, FirstKey};

use crate::branch::Branch;
use crate::pruning::{Pruned, prune};
use columns::ColumnSet;
use dependencies::Rule;

// The first key of a branch, if it has any.
fn first_in(rules: &[Rule], branch: Branch) -> Option<ColumnSet>
    ensures { First (deps rules.now) branch result }
{
    match prune(rules, branch) {
        Pruned::Leaf => Some(branch.chosen),
        Pruned::Dead => None,
        // Not by `or_else`: inside the recursion the proof knows nothing of what its closure returns.
        Pruned::Fork(halves) => match first_in(rules, halves.with) {
            Some(key) => Some(key),
            None => first_in(rules, halves.without),
        },
    }
}

// The first key among all sets inside the target: there is always one.
fn first_inside(rules: &[Rule], target: ColumnSet) -> Option<ColumnSet>
    ensures { MatchOption result ⊥ (λ k. FirstKey (deps rules.now) (cols target) (cols k)) }
{
    first_in(rules, Branch::whole(target))
}

// The first key of the target in the order of sets. Leaving out columns as far as that goes gives a key too, but another one.
pub fn first_key(rules: &[Rule], target: ColumnSet) -> ColumnSet
    ensures key { Key (deps rules.now) (cols target) (cols result) }
    ensures first { (k : Cols) → Rising k → Key (deps rules.now) (cols target) k → before k (cols result) ≡ false }
{
    first_inside(rules, target).unwrap()
}
