// A part of a design as text, as `0 1 3 by 0>1 0>3`.
ghost use Rattle.std.specs.Prelude.{Some};
ghost use Rattle.schema.specs.Shown.{lead_text, text_of_part, part_of};

use crate::layout::lies;
use columns::ColumnSet;
use dependencies::Rule;
use std::fmt;

// What stands before a rule.
#[derive(Clone, Copy)]
pub enum Lead {
    By,
    Space,
}

impl fmt::Display for Lead {
    ghost output = { λ l. Some (lead_text l) };

    fn fmt<W: fmt::Write>(&self, f: &mut fmt::Formatter<W>) -> fmt::Result {
        match self {
            Lead::By => write!(f, " by "),
            Lead::Space => write!(f, " "),
        }
    }
}

// The part of a set, which owns those of the rules that lie in it.
#[derive(Clone, Copy)]
pub struct PartLine<'a> {
    pub set: ColumnSet,
    pub rules: &'a [Rule],
}

impl<'a> fmt::Display for PartLine<'a> {
    ghost output = { λ p. Some (text_of_part (part_of p.rules.now p.set)) };

    fn fmt<W: fmt::Write>(&self, f: &mut fmt::Formatter<W>) -> fmt::Result {
        let set = self.set;
        write!(f, "{set}")?;
        let mut lead = Lead::By;
        for rule in self.rules {
            if lies(*rule, set) {
                write!(f, "{lead}{rule}")?;
                lead = Lead::Space;
            }
        }
        Ok(())
    }
}
