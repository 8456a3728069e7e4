// Two rows against a rule.
ghost use Rattle.std.specs.Prelude.{◌≡◌};
ghost use Rattle.dependencies.specs.Rules.{dep};
ghost use Rattle.parts.specs.Answers.{clash};

use dependencies::{Rule, agrees};

// Two rows break the rule together.
pub(crate) fn breaks(rule: Rule, row: &[u64], held: &[u64]) -> bool
    ensures { result ≡ clash (dep rule) row.now held.now }
{
    agrees(rule.left, row, held) && !agrees(rule.right, row, held)
}
