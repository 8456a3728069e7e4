// Whether a rule follows from others: yes, or two rows against it.
ghost use Rattle.std.specs.Prelude.{◌≡◌, ℕ, ◌≤◌, take};
ghost use Rattle.columns.specs.Sets.{cols};
ghost use Rattle.dependencies.specs.Rules.{dep, deps};
ghost use Rattle.dependencies.specs.Meaning.{Says, Asked};
ghost use Rattle.dependencies.specs.Tables.{zero_row, differ_row};

use crate::cells::row_apart;
use crate::closing::closure;
use crate::input::read_rules;
use crate::refusals::Refusal;
use crate::rules::Rule;
use columns::ColumnSet;

// Whether a rule follows from others. Both are answers: so this is no `Option`, and no error that `?` would pass on.
#[derive(Clone, Copy, PartialEq, Eq, Debug)]
pub enum Implication {
    // It holds in every table that obeys them.
    Follows,
    // It does not: all columns that its left side fixes, on which the two rows against it agree.
    Against(ColumnSet),
}

// Two rows of 16 cells; of a table of fewer columns the first ones count.
#[derive(Clone, Copy)]
pub struct TwoRows {
    pub first: [u64; 16],
    pub second: [u64; 16],
}

// Whether a rule holds in every table that obeys the rules.
pub fn follows(rules: &[Rule], rule: Rule) -> Implication
    ensures { Says (deps rules.now) (dep rule) result }
{
    let fixed = closure(rules, rule.left);
    if rule.right.is_subset(fixed) {
        Implication::Follows
    } else {
        Implication::Against(fixed)
    }
}

// The same, asked of lent rules: whether the left set fixes the right one. The two sets are counted behind those of the rules.
pub fn follows_from(lent: &[u64], left: u64, right: u64) -> Result<Implication, Refusal>
    ensures { Asked lent.now left right result }
{
    let set = read_rules(lent)?;
    let left = set.further_set(0, left)?;
    let right = set.further_set(1, right)?;
    Ok(follows(set.rules(), Rule { left, right }))
}

// The two rows that agree in the given columns alone: all 0; and 0 on those, 1 elsewhere.
pub fn two_rows(agree: ColumnSet) -> TwoRows
    ensures { (n : ℕ) → n ≤ 16 → (take n result.first ≡ zero_row n) × (take n result.second ≡ differ_row n (cols agree)) }
{
    TwoRows {
        first: [0; 16],
        second: row_apart(agree, 1),
    }
}
