// A rule is redundant beside others if it follows from them.
ghost use Rattle.dependencies.specs.Tables.{Implied};
ghost use Rattle.dependencies.specs.Rules.{dep, deps};
ghost use Rattle.cover.specs.RuleLists.{follow_laws};

use crate::trimming::Redundancy;
use dependencies::{Implication, Rule, follows};

impl Redundancy for Rule {
    ghost redundant = { λ others rule. Implied (deps others) (dep rule) };

    ghost laws = { follow_laws };

    fn is_redundant(self, others: &[Rule]) -> bool {
        matches!(follows(others, self), Implication::Follows)
    }
}
