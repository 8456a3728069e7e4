// The type alone, so that the specs may name it.
ghost use Rattle.std.specs.Prelude.{◌≡◌, true};
ghost use Rattle.bounded.specs.Items.{items};
ghost use Rattle.dependencies.specs.Rules.{deps};
ghost use Rattle.dependencies.specs.Tables.{is_proper};

use crate::rules::Rule;
use bounded::Bounded;
use columns::Width;

// The rules of a table, with how many columns it has: they name no other columns.
#[derive(Clone, Copy)]
pub struct RuleSet {
    pub(crate) width: Width,
    pub(crate) rules: Bounded<Rule, 32>,
    ghost proper: { is_proper width.columns (deps (items rules)) ≡ true },
}
