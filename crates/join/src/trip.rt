// A table laid and joined again.
ghost use Rattle.std.specs.Prelude.{◌≡◌, MatchResult};
ghost use Rattle.register.specs.States.{SamePlan};
ghost use Rattle.join.specs.Tripped.{Trip, TripFails, TakenWhole};

use crate::failure::TripFailure;
use crate::joining::join;
use crate::laying::lay;
use register::Register;
use std::alloc::Global;

// Lays a whole table into the register and joins the parts. From a bare register of a design this is the table again:
// none of its rows is lost, and none is made up.
pub fn lay_and_join(
    heap: Global,
    register: &mut Register,
    table: &[u64],
) -> Result<Vec<[u64; 16]>, TripFailure>
    ensures says { MatchResult result (λ v. Trip register.old.columns register.old.design.now register.old.cells.now register.new.cells.now table.now v.items) (λ e. TripFails register.old.columns register.old.design.now register.old.cells.now register.new.cells.now table.now e) }
    ensures whole { TakenWhole register.old.columns register.old.design.now register.old.cells.now table.now }
    ensures plan { SamePlan register.old register.new }
{
    lay(register, table)?;
    // The register was opened, so that only memory can be wanting.
    let Ok(rows) = join(heap, register) else {
        return Err(TripFailure::NoMemory);
    };
    Ok(rows)
}
