// Sets for the parts: the columns of all rules with one left side, none inside another.
ghost use Rattle.std.specs.Prelude.{◌≡◌, ◌+◌, ◌<◌, ◌≤◌, [], length};
ghost use Rattle.columns.specs.Sets.{cols};
ghost use Rattle.dependencies.specs.Rules.{dep, deps};
ghost use Rattle.schema.specs.Gathers.{Gathered, Joined};
ghost use Rattle.schema.specs.Sets.{sets_in, is_set_held, outside, with_set};

use crate::part_sets::PartSets;
use bounded::Bounded;
use columns::ColumnSet;
use dependencies::Rule;

// The set with the right columns of the rule, if that has the left side.
fn join(rule: Rule, left: ColumnSet, all: ColumnSet) -> ColumnSet
    ensures { Joined (dep rule) (cols left) (cols all) (cols result) }
{
    if rule.left == left {
        return all.union(rule.right);
    }
    all
}

// All columns of the rules with this left side.
pub(crate) fn gather(cover: &[Rule], left: ColumnSet) -> ColumnSet
    ensures { Gathered (deps cover.now) (cols left) (cols result) }
{
    let mut all = left;
    for rule in cover {
        all = join(*rule, left, all);
    }
    all
}

// Whether the set lies inside one of the others.
fn is_held(others: &[ColumnSet], set: ColumnSet) -> bool
    ensures { result ≡ is_set_held others.now set }
{
    others.iter().any(|other| set.is_subset(*other))
}

impl PartSets {
    pub(crate) fn none() -> Self
        ensures { sets_in result ≡ [] }
    {
        PartSets {
            sets: Bounded::new(ColumnSet::empty()),
        }
    }

    // The sets, in the order of the parts.
    pub fn sets(&self) -> &[ColumnSet]
        ensures { result.now ≡ sets_in self.now }
    {
        self.sets.as_slice()
    }

    // Drops those that lie inside the set; the others keep their order.
    fn drop_inside(&mut self, set: ColumnSet)
        ensures { sets_in self.new ≡ outside (sets_in self.old) set }
    {
        self.sets.retain(|other| !other.is_subset(set));
    }

    // One set more, unless it lies inside one of them: of equal sets the first stays.
    pub(crate) fn add(&mut self, set: ColumnSet)
        requires { length (sets_in self.old) < 513 }
        ensures { (sets_in self.new ≡ with_set (sets_in self.old) set) × (length (sets_in self.new) ≤ length (sets_in self.old) + 1) }
    {
        if is_held(self.sets(), set) {
            return;
        }
        self.drop_inside(set);
        self.sets.push(set);
    }
}
