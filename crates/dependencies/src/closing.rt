// All columns that a set of columns fixes.
ghost use Rattle.std.specs.Prelude.{◌≡◌};
ghost use Rattle.columns.specs.Cols.{Same};
ghost use Rattle.columns.specs.Sets.{cols};
ghost use Rattle.dependencies.specs.Closure.{round, Closes, does_fix};
ghost use Rattle.dependencies.specs.Rules.{deps};

use crate::rules::Rule;
use columns::ColumnSet;

// The columns with all that each rule, once and in order, adds to them.
fn one_round(rules: &[Rule], start: ColumnSet) -> ColumnSet
    ensures { Same (cols result) (round (deps rules.now) (cols start)) }
{
    let mut all = start;
    for rule in rules {
        if rule.left.is_subset(all) {
            all = all.union(rule.right);
        }
    }
    all
}

// All columns that the given ones fix. One pass over the rules is not enough, since a later rule may feed an earlier one:
// it stops when a pass adds nothing.
pub fn closure(rules: &[Rule], start: ColumnSet) -> ColumnSet
    ensures { Closes (deps rules.now) (cols start) (cols result) }
{
    let mut all = start;
    loop {
        let next = one_round(rules, all);
        if next == all {
            return next;
        }
        all = next;
    }
}

// Whether the left columns fix all right ones.
pub fn fixes(rules: &[Rule], left: ColumnSet, right: ColumnSet) -> bool
    ensures { result ≡ does_fix (deps rules.now) (cols left) (cols right) }
{
    right.is_subset(closure(rules, left))
}
