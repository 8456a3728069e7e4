// Making sets and combining them.
ghost use Rattle.std.specs.Prelude.{◌≡◌, ℕ, ◌^◌, ◌<◌, ◌≤◌, not, ◌&&◌, ◌||◌, [], ◌∷◌, MatchOption, ◌==◌};
ghost use Rattle.columns.specs.Cols.{has, all_in, columns as range_of, set_in};
ghost use Rattle.columns.specs.Sets.{cols};

use crate::column_number::Column;
use crate::set::ColumnSet;
use crate::table_width::Width;

impl ColumnSet {
    pub fn empty() -> Self
        ensures { cols result ≡ [] }
    {
        ColumnSet { bits: 0 }
    }

    // All columns of a table.
    pub fn all(width: Width) -> Self
        ensures { cols result ≡ range_of 0 width.columns }
    {
        ColumnSet {
            bits: ((1u32 << width.columns) - 1) as u16,
        }
    }

    // One column alone.
    pub fn single(c: Column) -> Self
        ensures { cols result ≡ c.index ∷ [] }
    {
        ColumnSet { bits: 1 << c.index }
    }

    // The set that a number stands for, unless it names a column that the table does not have.
    pub fn from_bits(bits: u64, width: Width) -> Option<Self>
        ensures { MatchOption result (2 ^ width.columns ≤ bits) (λ s. (bits < 2 ^ width.columns) × (cols s ≡ set_in 0 width.columns bits) × (s.bits ≡ bits)) }
    {
        if bits >> width.columns != 0 {
            return None;
        }
        Some(ColumnSet { bits: bits as u16 })
    }

    // The number that stands for the set.
    pub fn bits(self) -> u64
        ensures { (cols self ≡ set_in 0 64 result) × (result ≡ self.bits) }
    {
        self.bits as u64
    }

    pub fn contains(self, c: Column) -> bool
        ensures { result ≡ has (cols self) c.index }
    {
        (self.bits >> c.index) & 1 == 1
    }

    // The set with a column more.
    pub fn with(self, c: Column) -> Self
        ensures { (d : ℕ) → has (cols result) d ≡ (has (cols self) d || c.index == d) }
    {
        self.union(Self::single(c))
    }

    // The set without a column.
    pub fn without(self, c: Column) -> Self
        ensures { (d : ℕ) → has (cols result) d ≡ (has (cols self) d && not (c.index == d)) }
    {
        self.difference(Self::single(c))
    }

    pub fn union(self, other: Self) -> Self
        ensures { (c : ℕ) → has (cols result) c ≡ (has (cols self) c || has (cols other) c) }
    {
        ColumnSet {
            bits: self.bits | other.bits,
        }
    }

    pub fn intersection(self, other: Self) -> Self
        ensures { (c : ℕ) → has (cols result) c ≡ (has (cols self) c && has (cols other) c) }
    {
        ColumnSet {
            bits: self.bits & other.bits,
        }
    }

    pub fn difference(self, other: Self) -> Self
        ensures { (c : ℕ) → has (cols result) c ≡ (has (cols self) c && not (has (cols other) c)) }
    {
        ColumnSet {
            bits: self.bits & !other.bits,
        }
    }

    pub fn is_subset(self, other: Self) -> bool
        ensures { result ≡ all_in (cols self) (cols other) }
    {
        self.bits & other.bits == self.bits
    }
}
