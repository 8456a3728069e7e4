// The order of sets: column by column from the lowest, and a set before one that it begins.
ghost use Rattle.std.specs.Prelude.{◌≡◌, refl};
ghost use Rattle.std.specs.Cmp.Lexicographic.{slice_cmp, on_texts};
ghost use Rattle.std.specs.Ordering.{nat_cmp, on, as_partial_cmp};
ghost use Rattle.columns.specs.Sorted.{sets_po, sets_tie};
ghost use Rattle.columns.specs.Order.{before};
ghost use Rattle.columns.specs.Theorems.{OrderTotal, SetsAreNumbers};
ghost use Rattle.columns.specs.Sets.{cols};

use crate::set::ColumnSet;
use std::cmp::Ordering;

impl Ord for ColumnSet {
    ghost cmp = { on cols (slice_cmp nat_cmp) };

    ghost total = { on_texts cols };

    ghost matches_partial_cmp = { λ s t. refl };

    ghost matches_eq = { sets_tie };

    fn cmp(&self, other: &ColumnSet) -> Ordering {
        let differ = self.bits ^ other.bits;
        if differ == 0 {
            return Ordering::Equal;
        }
        // The lowest column that only one of the two has decides, and what is left from there on.
        let lowest = differ.trailing_zeros();
        let here = self.bits >> lowest;
        let there = other.bits >> lowest;
        let first = if here & 1 == 1 { there != 0 } else { here == 0 };
        if first {
            Ordering::Less
        } else {
            Ordering::Greater
        }
    }
}

impl PartialOrd for ColumnSet {
    ghost partial_cmp = { as_partial_cmp (on cols (slice_cmp nat_cmp)) };

    ghost laws = { sets_po };

    fn partial_cmp(&self, other: &ColumnSet) -> Option<Ordering> {
        Some(self.cmp(other))
    }
}

impl ColumnSet {
    // Whether this set stands before the other.
    pub fn precedes(self, other: Self) -> bool
        ensures { result ≡ before (cols self) (cols other) }
    {
        self < other
    }
}

// Of two sets one stands before the other or they are equal, never both, and the order is transitive.
pub fn order_is_total()
    ensures { OrderTotal }
{}

// Sets with the same columns are equal numbers, and a number below 2^16 is the set of its own digits.
pub fn sets_are_numbers()
    ensures { SetsAreNumbers }
{}
