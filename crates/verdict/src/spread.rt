// How the parts lie in the table: all columns are in some part, and no part is inside another.
ghost use Rattle.std.specs.Prelude.{◌≡◌, List};
ghost use Rattle.columns.specs.Every.{every};
ghost use Rattle.columns.specs.Sets.{cols};
ghost use Rattle.dependencies.specs.Tables.{Dep};
ghost use Rattle.verdict.specs.Decided.{Condition};
ghost use Rattle.verdict.specs.Deciding.{Decides};
ghost use Rattle.verdict.specs.Given.{given_parts};
ghost use Rattle.verdict.specs.Judge.{is_none_inside};
ghost use Rattle.verdict.specs.Kept.{is_apart};

use crate::given_design::GivenDesign;
use columns::ColumnSet;

// Whether every column is in some part. A design without parts covers nothing, since a table has a column.
pub(crate) fn covers(design: GivenDesign) -> bool
    ensures { (ds : List Dep) → Decides (Condition design.entry.width.columns ds (given_parts design.entry) 1) result }
{
    let mut missing = ColumnSet::all(design.width);
    for part in design {
        missing = missing.difference(part.set);
    }
    missing.is_subset(ColumnSet::empty())
}

// Whether none of the others lies inside the part, nor the part inside one of them.
fn apart(part: ColumnSet, mut others: GivenDesign) -> bool
    ensures { result ≡ every (given_parts others.entry) (is_apart (cols part)) }
{
    others.all(|other| !part.is_subset(other.set) && !other.set.is_subset(part))
}

// Whether no part lies inside another.
pub(crate) fn none_inside(design: GivenDesign) -> bool
    ensures { result ≡ is_none_inside (given_parts design.entry) }
{
    let mut todo = design;
    while let Some(part) = todo.next() {
        if !apart(part.set, todo) {
            return false;
        }
    }
    true
}
