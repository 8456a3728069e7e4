// A refusal of a table as text, as `row 3: refused 9 at 64`.
ghost use Rattle.std.specs.Prelude.{Some};
ghost use Rattle.join.specs.Laid.{shown_lay};

use crate::refusal::LayRefusal;
use std::fmt;

impl fmt::Display for LayRefusal {
    ghost output = { λ e. Some (shown_lay e) };

    fn fmt<W: fmt::Write>(&self, f: &mut fmt::Formatter<W>) -> fmt::Result {
        write!(f, "row {}: {}", self.row, self.refusal)
    }
}
