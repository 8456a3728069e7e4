// The parts of a register joined to a table.
ghost use Rattle.std.specs.Prelude.{◌≡◌, IfOk, MatchResult};
ghost use Rattle.dependencies.specs.Told.{done};
ghost use Rattle.register.specs.States.{opened, parts_in, held_in};
ghost use Rattle.join.specs.Joined.{Joined};
ghost use Rattle.join.specs.Failing.{JoinFails};

use crate::failure::JoinFailure;
use crate::merging::join_part;
use columns::ColumnSet;
use dependencies::{Condition, Refusal};
use register::Register;
use std::alloc::{AllocError, Global};

// Part by part: each row so far is joined with the looks of the next part that agree with it in the columns that both have.
fn join_parts(heap: Global, register: &Register) -> Result<Vec<[u64; 16]>, AllocError>
    requires { opened register.now ≡ done }
    ensures { IfOk result (λ v. Joined (parts_in register.now) (held_in register.now) v.items) }
{
    let mut rows = Vec::new(heap);
    rows.push([0; 16])?;
    let mut columns = ColumnSet::empty();
    // By its place, since that is how a register gives a part.
    for p in 0..register.parts() {
        let part = register.part(p as usize);
        let shared = columns.intersection(part.set());
        rows = join_part(heap, rows.as_slice(), shared, part)?;
        columns = columns.union(part.set());
    }
    Ok(rows)
}

// Exactly the rows that all parts hold, each once, in the order of the places of their looks, first part first.
// A row has 16 cells, 0 in columns that no part has.
pub fn join(heap: Global, register: &Register) -> Result<Vec<[u64; 16]>, JoinFailure>
    ensures { MatchResult result (λ v. (opened register.now ≡ done) × Joined (parts_in register.now) (held_in register.now) v.items) (λ e. JoinFails (opened register.now) e) }
{
    let unopened = Refusal::NotADesign(Condition::Covers);
    register.width().ok_or(unopened)?;
    Ok(join_parts(heap, register)?)
}
