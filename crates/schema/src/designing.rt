// A design from rules, by synthesis from a least set: the rules with one left side make a part, and where no part fixes all
// columns a key of the table makes one more. Without such a part, joining would make up rows that nobody entered.
// The answer is a function of the rules alone, so the same rules always give the same design.
ghost use Rattle.std.specs.Prelude.{◌≡◌, ◌+◌, ◌<◌, ◌≤◌, length};
ghost use Rattle.columns.specs.Cols.{columns as range_of};
ghost use Rattle.columns.specs.Sets.{cols};
ghost use Rattle.dependencies.specs.Closure.{does_fix};
ghost use Rattle.dependencies.specs.Reads.{rules_of};
ghost use Rattle.dependencies.specs.Rules.{deps};
ghost use Rattle.cover.specs.Held.{cover_rules};
ghost use Rattle.schema.specs.Gathers.{OfLeftSide, Holding, does_some_fix, Keyed};
ghost use Rattle.schema.specs.Plans.{plan_rules, plan_sets, Planned};
ghost use Rattle.schema.specs.Sets.{sets_in, sets_of};

use crate::merging::gather;
use crate::part_sets::PartSets;
use crate::plan::Plan;
use columns::ColumnSet;
use cover::{Cover, least_cover};
use dependencies::{Rule, RuleSet, closure};
use keys::first_key;

impl Plan {
    // The sets of the parts, in order.
    pub fn sets(&self) -> &[ColumnSet]
        ensures { result.now ≡ plan_sets self.now }
    {
        self.sets.sets()
    }

    // The rules that the parts own: each part those that lie in it and in no part before it.
    pub fn rules(&self) -> &[Rule]
        ensures { result.now ≡ plan_rules self.now }
    {
        self.cover.rules()
    }
}

// The columns of the rules with one left side, in the order of the rules. A set inside another goes, and what lies in it then
// lies in the other.
fn merge_left_sides(cover: &Cover) -> PartSets
    ensures { (Holding (OfLeftSide (deps (cover_rules cover.now))) (deps (cover_rules cover.now)) (sets_of (sets_in result))) × (length (sets_in result) ≤ length (cover_rules cover.now)) }
{
    let rules = cover.rules();
    let mut sets = PartSets::none();
    for rule in rules {
        sets.add(gather(rules, rule.left));
    }
    sets
}

// Whether the set fixes all columns of the table.
fn fixes_all(set: &RuleSet, part: ColumnSet) -> bool
    ensures { result ≡ does_fix (deps (rules_of set.now)) (cols part) (range_of 0 set.now.width.columns) }
{
    ColumnSet::all(set.width()).is_subset(closure(set.rules(), part))
}

// Whether one of the sets does.
fn some_fixes(set: &RuleSet, parts: &[ColumnSet]) -> bool
    ensures { result ≡ does_some_fix set.now.width.columns (deps (rules_of set.now)) parts.now }
{
    parts.iter().any(|part| fixes_all(set, *part))
}

// Adds a key of the table where no set fixes all columns.
fn add_key(set: &RuleSet, sets: &mut PartSets)
    requires { length (sets_in sets.old) < 513 }
    ensures { (Keyed set.now.width.columns (deps (rules_of set.now)) (sets_in sets.old) (sets_in sets.new)) × (length (sets_in sets.new) ≤ length (sets_in sets.old) + 1) }
{
    if some_fixes(set, sets.sets()) {
        return;
    }
    sets.add(first_key(set.rules(), ColumnSet::all(set.width())));
}

// A design for the rules.
pub fn design(set: &RuleSet) -> Plan
    ensures { Planned set.now result }
{
    let cover = least_cover(set);
    let mut sets = merge_left_sides(&cover);
    add_key(set, &mut sets);
    Plan { cover, sets }
}
