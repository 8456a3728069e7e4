// A rule as text, as `0 5>4`.
ghost use Rattle.std.specs.Prelude.{Some};
ghost use Rattle.dependencies.specs.Rules.{dep};
ghost use Rattle.dependencies.specs.Shown.{rule_text};

use crate::rules::Rule;
use std::fmt;

impl fmt::Display for Rule {
    ghost output = { λ r. Some (rule_text (dep r)) };

    fn fmt<W: fmt::Write>(&self, f: &mut fmt::Formatter<W>) -> fmt::Result {
        write!(f, "{}>{}", self.left, self.right)
    }
}
