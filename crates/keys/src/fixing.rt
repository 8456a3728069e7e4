// Whether a candidate set can spare a column.
ghost use Rattle.std.specs.Prelude.{◌≡◌};
ghost use Rattle.columns.specs.Sets.{cols};
ghost use Rattle.dependencies.specs.Rules.{deps};
ghost use Rattle.keys.specs.Keys.{is_all_needed};

use columns::ColumnSet;
use dependencies::{Rule, fixes};

// Whether the left columns, less any one of them, no longer fix the right ones.
pub(crate) fn is_needed(rules: &[Rule], left: ColumnSet, right: ColumnSet) -> bool
    ensures { result ≡ is_all_needed (deps rules.now) (cols right) (cols left) }
{
    let mut rest = left;
    while let Some(c) = rest.take_first() {
        if fixes(rules, left.without(c), right) {
            return false;
        }
    }
    true
}
