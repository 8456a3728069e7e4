// Third normal form of a part, by the sets inside it: wherever less than a key fixes a column of the part that is not among it,
// that column belongs to some key. One walk over the sets takes each one's closure once, so that a part of 16 columns needs 2^16.
// Which columns are in keys falls out of counting superkeys: of the sets with a column at least as many are superkeys as of those
// without it, and more exactly if the column is in some key.
ghost use Rattle.std.specs.Prelude.{◌≡◌, ℕ, ◌+◌, ◌^◌, ◌<◌, ◌≤◌, [], length};
ghost use Rattle.columns.specs.Members.{In};
ghost use Rattle.columns.specs.Sets.{cols};
ghost use Rattle.dependencies.specs.Rules.{deps};
ghost use Rattle.verdict.specs.Deciding.{Decides};
ghost use Rattle.schema.specs.Design.{Part, IsThirdForm};
ghost use Rattle.verdict.specs.Given.{given_parts};
ghost use Rattle.verdict.specs.Superkeys.{Finds, Joins};

use crate::given_design::GivenDesign;
use columns::{Column, ColumnSet};
use dependencies::{Rule, closure};

// What the sets of a walk show.
#[derive(Clone, Copy)]
pub(crate) struct Found {
    // How many of them are superkeys of the part.
    pub(crate) superkeys: u32,
    // Columns that are in some key.
    pub(crate) prime: ColumnSet,
    // Columns of the part that a set fixes which neither has them nor is a superkey.
    pub(crate) loose: ColumnSet,
}

// Sets inside a part: all that have the columns of `set` and some of those that are left.
#[derive(Clone, Copy)]
pub(crate) struct Branch {
    pub(crate) part: ColumnSet,
    pub(crate) set: ColumnSet,
    pub(crate) left: ColumnSet,
}

// What one set shows.
fn visit(rules: &[Rule], part: ColumnSet, set: ColumnSet) -> Found
    ensures { Finds (deps rules.now) (cols part) (cols set) [] result }
{
    let none = ColumnSet::empty();
    let fixed = closure(rules, set);
    if part.is_subset(fixed) {
        return Found {
            superkeys: 1,
            prime: none,
            loose: none,
        };
    }
    Found {
        superkeys: 0,
        prime: none,
        loose: fixed.intersection(part).difference(set),
    }
}

// What the sets without a column and those with it show together.
fn joined(c: Column, without: Found, with: Found) -> Found
    requires { without.superkeys + with.superkeys < 2 ^ 32 }
    ensures { Joins c.index without with result }
{
    let both = without.prime.union(with.prime);
    let prime = if without.superkeys == with.superkeys {
        both
    } else {
        both.with(c)
    };
    let loose = without.loose.union(with.loose);
    Found {
        superkeys: without.superkeys + with.superkeys,
        prime,
        loose,
    }
}

// What all sets of a branch show: those without its next column, and those with it.
fn walk(rules: &[Rule], branch: Branch) -> Found
    ensures { Finds (deps rules.now) (cols branch.part) (cols branch.set) (cols branch.left) result }
{
    let mut left = branch.left;
    let Some(c) = left.take_first() else {
        return visit(rules, branch.part, branch.set);
    };
    let without = walk(rules, Branch { left, ..branch });
    let set = branch.set.with(c);
    let with = walk(
        rules,
        Branch {
            set,
            left,
            ..branch
        },
    );
    joined(c, without, with)
}

// Whether a part is in third normal form.
fn third_form(rules: &[Rule], part: ColumnSet) -> bool
    ensures { Decides (IsThirdForm (deps rules.now) (cols part)) result }
{
    let set = ColumnSet::empty();
    let found = walk(
        rules,
        Branch {
            part,
            set,
            left: part,
        },
    );
    found.loose.is_subset(found.prime)
}

// Whether every part is.
pub(crate) fn third_forms(mut design: GivenDesign, rules: &[Rule]) -> bool
    ensures { Decides ((p : Part) → In p (given_parts design.entry) → IsThirdForm (deps rules.now) p.cols) result }
{
    design.all(|part| third_form(rules, part.set))
}
