// Rules as they are lent: how many columns the table has, how many rules there are, then the left and the right set of each.
ghost use Rattle.std.specs.Prelude.{◌≡◌, ◌+◌, ◌*◌, ◌≤◌, true, false, length, ◌/◌, MatchOption, MatchResult};
ghost use Rattle.dependencies.specs.Layout.{columns_of, count_of, width_ok, count_ok};
ghost use Rattle.dependencies.specs.Told.{told, refused};
ghost use Rattle.dependencies.specs.Reads.{Reads, ReadsSets, Placed, Further, rules_of};

use crate::held::RuleSet;
use crate::refusals::Refusal;
use crate::rules::Rule;
use bounded::Bounded;
use columns::{ColumnSet, Width};

impl RuleSet {
    // How many columns the table has.
    pub fn width(&self) -> Width
        ensures { result ≡ self.now.width }
    {
        self.width
    }

    // The rules, in the order in which they were given.
    pub fn rules(&self) -> &[Rule]
        ensures { result.now ≡ rules_of self.now }
    {
        self.rules.as_slice()
    }

    // A set that a request names beside the rules, counted behind theirs.
    pub fn further_set(&self, index: u32, bits: u64) -> Result<ColumnSet, Refusal>
        ensures { Further self.now index bits result }
    {
        let place = 2 * self.rules().len() as u64 + index as u64;
        set_at(place, bits, self.width)
    }
}

// The set that a number stands for, or the refusal that tells its place among the sets.
fn set_at(place: u64, bits: u64, width: Width) -> Result<ColumnSet, Refusal>
    ensures { Placed width.columns place bits result }
{
    ColumnSet::from_bits(bits, width).ok_or(Refusal::Set(place))
}

fn width_in(lent: &[u64]) -> Option<Width>
    ensures { MatchOption result (width_ok lent.now ≡ false) (λ w. (width_ok lent.now ≡ true) × (w.columns ≡ columns_of lent.now)) }
{
    Width::new(*lent.first()?)
}

// How many rules there should be.
fn declared_in(lent: &[u64]) -> u64
    ensures { result ≡ count_of lent.now }
{
    lent.get(1).copied().unwrap_or(0)
}

// How many rules there are, unless they are too many or cut short.
fn count_in(lent: &[u64]) -> Result<usize, Refusal>
    ensures { MatchResult result (λ k. (count_ok lent.now ≡ true) × (k ≡ count_of lent.now) × (k ≤ 32) × (2 + 2 * k ≤ length lent.now)) (λ e. (count_ok lent.now ≡ false) × (told e ≡ refused 2 (count_of lent.now))) }
{
    let count = declared_in(lent);
    if count > 32 || lent.len() < 2 + 2 * count as usize {
        return Err(Refusal::RuleCount(count));
    }
    Ok(count as usize)
}

// Reads two sets a rule.
fn read_sets(sets: &[u64], width: Width) -> Result<RuleSet, Refusal>
    requires { length sets.now ≤ 64 }
    ensures { ReadsSets width.columns (length sets.now / 2) sets.now result }
{
    let mut rules = Bounded::new(Rule::empty());
    let (pairs, _) = sets.as_chunks::<2>();
    for (i, [left, right]) in pairs.iter().enumerate() {
        let left = set_at(2 * i as u64, *left, width)?;
        let right = set_at(2 * i as u64 + 1, *right, width)?;
        rules.push(Rule { left, right });
    }
    Ok(RuleSet { width, rules })
}

// The rules of a table from a lent row, or the first refusal that applies.
pub fn read_rules(lent: &[u64]) -> Result<RuleSet, Refusal>
    ensures { Reads lent.now result }
{
    let width = width_in(lent).ok_or(Refusal::Columns)?;
    let count = count_in(lent)?;
    read_sets(&lent[2..2 + 2 * count], width)
}
