// A design that somebody else made, walked part by part and rule by rule as it stands in the lent row.
ghost use Rattle.std.specs.Prelude.{◌≡◌, drop};
ghost use Rattle.std.specs.Iterator.{YieldsFirstBy, item_count};
ghost use Rattle.dependencies.specs.Rules.{dep};
ghost use Rattle.verdict.specs.Given.{own_of, given_part, given_parts};

use crate::given_design::GivenDesign;
use crate::own_rules::{GivenPart, OwnRules};
use columns::ColumnSet;
use dependencies::Rule;

// What stands behind the first `size` numbers.
pub(crate) fn behind(numbers: &[u64], size: usize) -> &[u64]
    ensures { result.now ≡ drop size numbers.now }
{
    &numbers[size.min(numbers.len())..]
}

impl<'a> Iterator for OwnRules<'a> {
    type Item = Rule;

    ghost next_gives = { YieldsFirstBy dep own_of };

    ghost remaining = { item_count own_of };

    fn next(&mut self) -> Option<Rule> {
        if self.count == 0 {
            return None;
        }
        let left = ColumnSet::from_bits(self.numbers[0], self.width)?;
        let right = ColumnSet::from_bits(self.numbers[1], self.width)?;
        *self = OwnRules {
            width: self.width,
            count: self.count - 1,
            numbers: behind(self.numbers, 2),
        };
        Some(Rule { left, right })
    }
}

impl<'a> Iterator for GivenDesign<'a> {
    type Item = GivenPart<'a>;

    ghost next_gives = { YieldsFirstBy given_part given_parts };

    ghost remaining = { item_count given_parts };

    fn next(&mut self) -> Option<GivenPart<'a>> {
        if self.count == 0 {
            return None;
        }
        let set = ColumnSet::from_bits(self.numbers[0], self.width)?;
        let count = self.numbers[1] as usize;
        let numbers = behind(self.numbers, 2);
        let rules = OwnRules {
            width: self.width,
            count,
            numbers,
        };
        *self = GivenDesign {
            width: self.width,
            count: self.count - 1,
            numbers: behind(numbers, 2 * count),
        };
        Some(GivenPart { set, rules })
    }
}
