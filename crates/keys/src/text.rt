// A list of keys as text, as `keys 0 5; 4 5`.
ghost use Rattle.std.specs.Prelude.{Some};
ghost use Rattle.keys.specs.Shown.{key_lead, fitting, keys_text};

use columns::{ColumnSet, Width};
use std::fmt;

// What stands before a key.
#[derive(Clone, Copy)]
pub enum KeyLead {
    First,
    Next,
}

impl fmt::Display for KeyLead {
    ghost output = { λ l. Some (key_lead l) };

    fn fmt<W: fmt::Write>(&self, f: &mut fmt::Formatter<W>) -> fmt::Result {
        match self {
            KeyLead::First => write!(f, " "),
            KeyLead::Next => write!(f, "; "),
        }
    }
}

// The keys of a table, as the numbers that stand in a lent row.
#[derive(Clone, Copy)]
pub struct KeysLine<'a> {
    pub width: Width,
    pub keys: &'a [u64],
}

impl<'a> fmt::Display for KeysLine<'a> {
    ghost output = { λ l. Some (keys_text (fitting l.width.columns l.keys.now)) };

    fn fmt<W: fmt::Write>(&self, f: &mut fmt::Formatter<W>) -> fmt::Result {
        write!(f, "keys")?;
        let mut lead = KeyLead::First;
        for number in self.keys {
            if let Some(key) = ColumnSet::from_bits(*number, self.width) {
                write!(f, "{lead}{key}")?;
                lead = KeyLead::Next;
            }
        }
        Ok(())
    }
}
