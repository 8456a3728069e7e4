// Columns and widths, from and to plain numbers.
ghost use Rattle.std.specs.Prelude.{◌≡◌, ◌≤◌, false, ◌&&◌, Some, decimal, MatchOption, nat_le};

use crate::column_number::Column;
use crate::table_width::Width;
use std::fmt;

impl Column {
    // The column of this number, if a table can have it.
    pub fn new(index: u32) -> Option<Self>
        ensures { MatchOption result (16 ≤ index) (λ c. c.index ≡ index) }
    {
        if index < 16 {
            Some(Column { index })
        } else {
            None
        }
    }

    pub fn index(self) -> u32
        ensures { result ≡ self.index }
    {
        self.index
    }
}

impl fmt::Display for Column {
    ghost output = { λ c. Some (decimal c.index) };

    fn fmt<W: fmt::Write>(&self, f: &mut fmt::Formatter<W>) -> fmt::Result {
        write!(f, "{}", self.index)
    }
}

impl Width {
    // The width of this number, unless it is 0 or above 16.
    pub fn new(columns: u64) -> Option<Self>
        ensures { MatchOption result ((nat_le 1 columns && nat_le columns 16) ≡ false) (λ w. w.columns ≡ columns) }
    {
        if (1..=16).contains(&columns) {
            Some(Width {
                columns: columns as u32,
            })
        } else {
            None
        }
    }

    pub fn columns(self) -> u32
        ensures { result ≡ self.columns }
    {
        self.columns
    }
}
