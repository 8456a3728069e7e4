// A set as text: its columns, rising, parted by one space.
ghost use Rattle.columns.specs.Shown.{listed};
ghost use Rattle.columns.specs.Sets.{cols};
ghost use Rattle.std.specs.Prelude.{Some};

use crate::set::ColumnSet;
use std::fmt;

impl fmt::Display for ColumnSet {
    ghost output = { λ s. Some (listed (cols s)) };

    fn fmt<W: fmt::Write>(&self, f: &mut fmt::Formatter<W>) -> fmt::Result {
        let mut rest = *self;
        let Some(first) = rest.take_first() else {
            return Ok(());
        };
        write!(f, "{first}")?;
        while let Some(c) = rest.take_first() {
            write!(f, " {c}")?;
        }
        Ok(())
    }
}
