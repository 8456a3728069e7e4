// Walking the columns of a set from the lowest.
ghost use Rattle.std.specs.Prelude.{◌≡◌, [], ◌∷◌, MatchOption};
ghost use Rattle.columns.specs.Sets.{cols};

use crate::column_number::Column;
use crate::set::ColumnSet;

impl ColumnSet {
    // The lowest column, taken out of the set; none of an empty one.
    pub fn take_first(&mut self) -> Option<Column>
        ensures { MatchOption result ((cols self.old ≡ []) × (cols self.new ≡ [])) (λ c. cols self.old ≡ c.index ∷ cols self.new) }
    {
        let bits = self.bits;
        if bits == 0 {
            return None;
        }
        let index = bits.trailing_zeros();
        // The lowest one of a number goes when 1 is taken away and the digits are compared.
        self.bits = bits & (bits - 1);
        Some(Column { index })
    }
}
