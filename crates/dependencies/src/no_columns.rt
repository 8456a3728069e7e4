// A rule of no columns, for the cells of a list that no rule has been written to.
ghost use Rattle.std.specs.Prelude.{◌≡◌, []};
ghost use Rattle.columns.specs.Sets.{cols};

use crate::rules::Rule;
use columns::ColumnSet;

impl Rule {
    pub fn empty() -> Self
        ensures { (cols result.left ≡ []) × (cols result.right ≡ []) }
    {
        let nothing = ColumnSet::empty();
        Rule {
            left: nothing,
            right: nothing,
        }
    }
}
