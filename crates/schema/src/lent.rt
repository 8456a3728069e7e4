// A design for lent rules, in a lent row.
ghost use Rattle.std.specs.Prelude.{ℕ, ◌≤◌, List, length, Ok};
ghost use Rattle.dependencies.specs.Reads.{Reads};
ghost use Rattle.schema.specs.Designed.{Designed, DesignTold};

use crate::designing::design;
use crate::layout::write_parts;
use crate::plan::Plan;
use crate::unplaced::Unplaced;
use dependencies::{Refusal, RuleSet, read_rules};

// Makes a design for rules that were read, and writes it: at most 513 parts and 512 rules, which take 2,051 numbers.
fn write_design(set: &RuleSet, out: &mut [u64]) -> u64
    requires { 2100 ≤ length out.old }
    ensures { (rules : List ℕ) → Reads rules (Ok set.now) → Designed rules out.old result out.new }
{
    // Taken apart, since a plan that is kept whole is blanked and copied once more.
    let Plan { cover, sets } = design(set);
    let sets = sets.sets();
    write_parts(sets, Unplaced::all(cover.rules()), out);
    sets.len() as u64
}

// A design for lent rules, written into the lent row; how many parts it has.
pub fn design_for(rules: &[u64], out: &mut [u64]) -> Result<u64, Refusal>
    ensures { DesignTold rules.now out.old result out.new }
{
    let set = read_rules(rules)?;
    if out.len() < 2100 {
        return Err(Refusal::ShortRow(out.len() as u64));
    }
    Ok(write_design(&set, out))
}
