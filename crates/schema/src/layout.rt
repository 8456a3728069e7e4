// A design in a lent row: how many parts there are, and for each its set, how many rules it owns, and two sets a rule.
// Every function here sees the row from the place on at which it writes.
ghost use Rattle.std.specs.Prelude.{◌≡◌, ◌+◌, ◌*◌, ◌≤◌, ◌∷◌, length};
ghost use Rattle.dependencies.specs.Lent.{put_list};
ghost use Rattle.schema.specs.Writing.{inside, own, over, flat, left_in, PartPut, encoded};

use crate::unplaced::Unplaced;
use bounded::Bounded;
use columns::ColumnSet;
use dependencies::Rule;

// Whether both sides of the rule lie in the set.
pub(crate) fn lies(rule: Rule, set: ColumnSet) -> bool
    ensures { result ≡ inside rule set }
{
    rule.left.is_subset(set) && rule.right.is_subset(set)
}

impl Unplaced {
    // All rules of a least set.
    pub(crate) fn all(rules: &[Rule]) -> Self
        requires { length rules.now ≤ 512 }
        ensures { left_in result ≡ rules.now }
    {
        let nothing = ColumnSet::empty();
        let mut left = Bounded::new(Rule {
            left: nothing,
            right: nothing,
        });
        left.extend_from_slice(rules);
        Unplaced { rules: left }
    }

    pub(crate) fn rules(&self) -> &[Rule]
        ensures { result.now ≡ left_in self.now }
    {
        self.rules.as_slice()
    }

    // Takes out the rules that lie in the set, which its part now owns: no later part gets them again.
    pub(crate) fn take_out(&mut self, set: ColumnSet)
        ensures { left_in self.new ≡ over (left_in self.old) set }
    {
        self.rules.retain(|rule| !lies(*rule, set));
    }
}

// Writes the rules that lie in the set, two numbers a rule, and says how many they are.
fn write_own(rules: &[Rule], set: ColumnSet, row: &mut [u64]) -> usize
    requires { 2 * length rules.now ≤ length row.old }
    ensures { (result ≡ length (own rules.now set)) × (row.new ≡ put_list row.old 0 (flat (own rules.now set))) }
{
    // Each pair by its place: of what is written through `chunks_exact_mut` no proof knows more than its length.
    let mut owned = 0;
    for rule in rules {
        if !lies(*rule, set) {
            continue;
        }
        row[2 * owned] = rule.left.bits();
        row[2 * owned + 1] = rule.right.bits();
        owned += 1;
    }
    owned
}

// Writes a part to the front of the row: its set, and of the rules that are left those that lie in it.
// It says how many numbers the part takes.
fn write_part(set: ColumnSet, rest: &mut Unplaced, row: &mut [u64]) -> usize
    requires { 2 + 2 * length (left_in rest.old) ≤ length row.old }
    ensures { PartPut set (left_in rest.old) row.old result (left_in rest.new) row.new }
{
    let owned = write_own(rest.rules(), set, &mut row[2..]);
    rest.take_out(set);
    row[0] = set.bits();
    row[1] = owned as u64;
    2 + 2 * owned
}

// Writes how many parts there are, and the parts, each from where the one before it ends.
pub(crate) fn write_parts(sets: &[ColumnSet], rules: Unplaced, out: &mut [u64])
    requires { 1 + 2 * length sets.now + 2 * length (left_in rules) ≤ length out.old }
    ensures { out.new ≡ put_list out.old 0 (length sets.now ∷ encoded (left_in rules) sets.now) }
{
    let mut rest = rules;
    let mut at = 1;
    for set in sets {
        at += write_part(*set, &mut rest, &mut out[at..]);
    }
    out[0] = sets.len() as u64;
}
