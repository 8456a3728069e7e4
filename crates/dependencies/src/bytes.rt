// Rules as bytes, as the programs read them.
ghost use Rattle.std.specs.Prelude.{◌≡◌, ◌≤◌, length, take};
ghost use Rattle.bounded.specs.Items.{items};
ghost use Rattle.dependencies.specs.Bytes.{row_of_bytes};
ghost use Rattle.dependencies.specs.Reads.{Reads};

use crate::held::RuleSet;
use crate::input::read_rules;
use crate::refusals::Refusal;
use crate::rule_numbers::RuleRow;
use bounded::Bounded;

impl RuleRow {
    pub fn numbers(&self) -> &[u64]
        ensures { result.now ≡ items self.now.numbers }
    {
        self.numbers.as_slice()
    }
}

// A number for each byte.
fn one_each(bytes: &[u8]) -> Bounded<u64, 66>
    requires { length bytes.now ≤ 66 }
    ensures { items result ≡ bytes.now }
{
    let mut numbers = Bounded::new(0);
    for byte in bytes {
        numbers.push(*byte as u64);
    }
    numbers
}

// The numbers that the bytes stand for, as far as 32 rules need them.
pub fn rule_row(bytes: &[u8]) -> RuleRow
    ensures { items result.numbers ≡ take 66 (row_of_bytes bytes.now) }
{
    let (start, sets) = bytes.split_at(bytes.len().min(2));
    let mut numbers = one_each(start);
    let (sets, _) = sets.as_chunks::<2>();
    for set in &sets[..sets.len().min(64)] {
        numbers.push(u16::from_le_bytes(*set) as u64);
    }
    RuleRow { numbers }
}

// The rules of a table from bytes, or the first refusal that applies. What follows the rules is not looked at.
pub fn rules_from_bytes(bytes: &[u8]) -> Result<RuleSet, Refusal>
    ensures { Reads (row_of_bytes bytes.now) result }
{
    let row = rule_row(bytes);
    read_rules(row.numbers())
}
