// A design that is made here and then tested as somebody else's would be.
ghost use Rattle.std.specs.Prelude.{◌≡◌, length};
ghost use Rattle.verdict.specs.Check.{parts_given};
ghost use Rattle.verdict.specs.Own.{OwnTold};
ghost use Rattle.verdict.specs.Sweeps.{RowsLeft};

use crate::check::{CheckFailure, check_design};
use schema::design_for;

// Makes a design for lent rules and tests it; how many parts it has. The test finds nothing against it, so the refusals are those
// of the making alone. 513 rows are always enough, since no design that is made has more parts.
pub fn made_and_checked(
    rules: &[u64],
    out: &mut [u64],
    tableau: &mut [[u64; 16]],
) -> Result<u64, CheckFailure>
    ensures told { OwnTold rules.now out.old (length tableau.old) result out.new }
    ensures rows { RowsLeft (length (parts_given rules.now out.new)) tableau.old tableau.new }
{
    let parts = design_for(rules, out)?;
    check_design(rules, out, tableau)?;
    Ok(parts)
}
