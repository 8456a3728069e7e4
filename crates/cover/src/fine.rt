// Fine rules: one right column each, and no left column that it does not need.
ghost use Rattle.std.specs.Prelude.{◌≡◌, ◌+◌, ◌≤◌, true, [], ◌∷◌, length};
ghost use Rattle.columns.specs.Cols.{has};
ghost use Rattle.columns.specs.Sets.{cols};
ghost use Rattle.dependencies.specs.Closure.{closure as closure_of};
ghost use Rattle.dependencies.specs.Reads.{rules_of};
ghost use Rattle.dependencies.specs.Rules.{dep, deps};
ghost use Rattle.cover.specs.Fine.{Reduced, Splits, AllSplit};
ghost use Rattle.cover.specs.Held.{most_rules};
ghost use Rattle.cover.specs.Queued.{queued, spare};

use crate::queue::Queue;
use columns::{Column, ColumnSet};
use dependencies::{Rule, RuleSet, closure};

// Whether the columns fix the column b.
fn fixes(rules: &[Rule], left: ColumnSet, b: Column) -> bool
    ensures { result ≡ has (closure_of (deps rules.now) (cols left)) b.index }
{
    closure(rules, left).contains(b)
}

// As few of the left columns as still fix the column b, if they all do: each in turn is left out if the others do without it.
fn reduce(rules: &[Rule], left: ColumnSet, b: Column) -> ColumnSet
    ensures { has (closure_of (deps rules.now) (cols left)) b.index ≡ true → Reduced (deps rules.now) (cols left) b.index (cols result) }
{
    let mut needed = left;
    let mut todo = left;
    while let Some(c) = todo.take_first() {
        let less = needed.without(c);
        if fixes(rules, less, b) {
            needed = less;
        }
    }
    needed
}

// The fine rule for one right column of the rule. What this column can do without, another may need, so each has a left side of its own.
fn fine_rule(rules: &[Rule], rule: Rule, b: Column) -> Rule
    ensures right { cols result.right ≡ b.index ∷ [] }
    ensures left { has (closure_of (deps rules.now) (cols rule.left)) b.index ≡ true → Reduced (deps rules.now) (cols rule.left) b.index (cols result.left) }
{
    Rule {
        left: reduce(rules, rule.left, b),
        right: ColumnSet::single(b),
    }
}

// Adds a fine rule for each right column of the rule.
fn split_rule(rules: &[Rule], rule: Rule, queue: &mut Queue<Rule>)
    requires { length (cols rule.right) ≤ spare queue.old }
    ensures says { Splits (deps rules.now) (dep rule) (deps (queued queue.old)) (deps (queued queue.new)) }
    ensures room { spare queue.new + length (cols rule.right) ≡ spare queue.old }
{
    let mut todo = rule.right;
    while let Some(b) = todo.take_first() {
        queue.push(fine_rule(rules, rule, b));
    }
}

// Fine rules that say what the given rules say, in the order of these and of their right columns.
pub(crate) fn split(set: &RuleSet) -> Queue<Rule>
    ensures says { AllSplit (deps (rules_of set.now)) (deps (rules_of set.now)) (deps (queued result)) }
    ensures room { 1024 ≤ spare result + most_rules set.now }
{
    let mut queue = Queue::new(Rule::empty());
    let rules = set.rules();
    for rule in rules {
        split_rule(rules, *rule, &mut queue);
    }
    queue
}
