// A least set of rules.
ghost use Rattle.std.specs.Prelude.{◌≡◌, ◌≤◌, true, length};
ghost use Rattle.dependencies.specs.Reads.{rules_of};
ghost use Rattle.dependencies.specs.Rules.{deps};
ghost use Rattle.dependencies.specs.Tables.{is_proper};
ghost use Rattle.cover.specs.Held.{cover_rules, most_rules};
ghost use Rattle.cover.specs.Least.{Least};
ghost use Rattle.cover.specs.Ordered.{Narrowed, singles};

use crate::fine::split;
use crate::held::Cover;
use crate::trimming::drop_redundant;
use bounded::Bounded;
use dependencies::{Rule, RuleSet};

impl Cover {
    // The rules of the least set.
    pub fn rules(&self) -> &[Rule]
        ensures { result.now ≡ cover_rules self.now }
    {
        self.rules.as_slice()
    }
}

// A least set of rules that says the same, in the order of the given rules and of their right columns.
pub fn least_cover(set: &RuleSet) -> Cover
    ensures least { Least (deps (rules_of set.now)) (deps (cover_rules result)) }
    ensures ordered { Narrowed (singles (deps (rules_of set.now))) (deps (cover_rules result)) }
    ensures proper { is_proper set.now.width.columns (deps (cover_rules result)) ≡ true }
    ensures few { length (cover_rules result) ≤ most_rules set.now }
{
    let mut queue = split(set);
    drop_redundant(&mut queue);
    let mut rules = Bounded::new(Rule::empty());
    rules.extend_from_slice(queue.items());
    Cover { rules }
}
