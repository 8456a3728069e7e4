// A least set for lent rules, in a lent row.
ghost use Rattle.std.specs.Prelude.{◌≡◌, ◌+◌, ◌*◌, ◌≤◌, ◌∷◌, length};
ghost use Rattle.dependencies.specs.Lent.{put_list};
ghost use Rattle.dependencies.specs.Reads.{rules_of};
ghost use Rattle.dependencies.specs.Rules.{deps};
ghost use Rattle.cover.specs.Answer.{coded, LeastRow, CoverTold};
ghost use Rattle.cover.specs.Held.{most_rules};

use crate::least::least_cover;
use dependencies::{Refusal, Rule, RuleSet, read_rules};

// Writes how many rules there are, and two sets a rule.
fn write_rules(rules: &[Rule], row: &mut [u64])
    requires { 1 + 2 * length rules.now ≤ length row.old }
    ensures { row.new ≡ put_list row.old 0 (length rules.now ∷ coded rules.now) }
{
    row[0] = rules.len() as u64;
    // Each pair by its place, since of what is written through `chunks_exact_mut` a proof knows no more than its length.
    for (i, rule) in rules.iter().enumerate() {
        row[1 + 2 * i] = rule.left.bits();
        row[2 + 2 * i] = rule.right.bits();
    }
}

// Writes a least set for the rules, of 512 at most; how many there are.
fn write_least(set: &RuleSet, row: &mut [u64]) -> u64
    requires { 2100 ≤ length row.old }
    ensures least { LeastRow set.now.width.columns (deps (rules_of set.now)) row.old result row.new }
    ensures few { result ≤ most_rules set.now }
{
    let cover = least_cover(set);
    let rules = cover.rules();
    write_rules(rules, row);
    rules.len() as u64
}

// A least set for lent rules, written into the lent row: the count of its rules, and two sets a rule. Also returned is the count.
pub fn least_set_for(rules: &[u64], row: &mut [u64]) -> Result<u64, Refusal>
    ensures { CoverTold rules.now row.old result row.new }
{
    let set = read_rules(rules)?;
    if row.len() < 2100 {
        return Err(Refusal::ShortRow(row.len() as u64));
    }
    Ok(write_least(&set, row))
}
