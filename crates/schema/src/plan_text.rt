// A design as text: a line for each part.
ghost use Rattle.std.specs.Prelude.{Some};
ghost use Rattle.schema.specs.Plans.{plan_parts};
ghost use Rattle.schema.specs.Shown.{design_text};

use crate::part_text::PartLine;
use crate::plan::Plan;
use crate::unplaced::Unplaced;
use std::fmt;

impl fmt::Display for Plan {
    ghost output = { λ p. Some (design_text (plan_parts p)) };

    fn fmt<W: fmt::Write>(&self, f: &mut fmt::Formatter<W>) -> fmt::Result {
        let mut rest = Unplaced::all(self.rules());
        for set in self.sets.sets() {
            let line = PartLine {
                set: *set,
                rules: rest.rules(),
            };
            writeln!(f, "{line}")?;
            // What this part owns no later part owns.
            rest.take_out(*set);
        }
        Ok(())
    }
}
