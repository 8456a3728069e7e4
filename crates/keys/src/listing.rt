// All keys, in order, written into lent room.
ghost use Rattle.std.specs.Prelude.{[], ◌∷◌};
ghost use Rattle.columns.specs.Sets.{cols};
ghost use Rattle.dependencies.specs.Rules.{deps};
ghost use Rattle.keys.specs.Room.{Emitted};
ghost use Rattle.keys.specs.Listed.{Walked};
ghost use Rattle.keys.specs.Answer.{Filled, KeysWritten, KeysTold};

use crate::branch::Branch;
use crate::pruning::{Pruned, prune};
use columns::ColumnSet;
use dependencies::{Refusal, Rule, read_rules};

// Writes a number at the front of the row, and gives that it is one; None where the row has no room.
fn put(out: &mut [u64], number: u64) -> Option<usize>
    ensures { Emitted out.old (number ∷ []) result out.new }
{
    let first = out.first_mut()?;
    *first = number;
    Some(1)
}

// Writes the keys of a branch from the start of the row on, and gives how many there are; None where there was no room for the next.
fn walk(rules: &[Rule], branch: Branch, out: &mut [u64]) -> Option<usize>
    ensures { Walked (deps rules.now) branch out.old result out.new }
{
    match prune(rules, branch) {
        Pruned::Leaf => put(out, branch.chosen.bits()),
        Pruned::Dead => Some(0),
        Pruned::Fork(halves) => {
            let count = walk(rules, halves.with, out)?;
            let more = walk(rules, halves.without, &mut out[count..])?;
            Some(count + more)
        }
    }
}

// Writes the keys of the target from the start of the row on.
fn fill(rules: &[Rule], target: ColumnSet, out: &mut [u64]) -> Option<usize>
    ensures { Filled (deps rules.now) (cols target) out.old result out.new }
{
    walk(rules, Branch::whole(target), out)
}

// All keys of the target, each once and in the order of sets, as numbers at the start of the lent row; how many there are.
pub fn write_keys(rules: &[Rule], target: ColumnSet, out: &mut [u64]) -> Result<u64, Refusal>
    ensures { KeysWritten (deps rules.now) (cols target) out.old result out.new }
{
    let count = fill(rules, target, out).ok_or(Refusal::KeyRoom(out.len() as u64))?;
    Ok(count as u64)
}

// The same, asked of lent rules. The set whose keys are asked for is counted behind those of the rules. Where these cannot be
// read or the set names a column that is not there, the row is as it was; where it has no room for the next key, it holds
// those before it.
pub fn candidate_keys(lent: &[u64], set: u64, out: &mut [u64]) -> Result<u64, Refusal>
    ensures { KeysTold lent.now set out.old result out.new }
{
    let rules = read_rules(lent)?;
    let target = rules.further_set(0, set)?;
    write_keys(rules.rules(), target, out)
}
