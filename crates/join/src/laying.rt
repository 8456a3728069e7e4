// A whole table laid into the parts of a register.
ghost use Rattle.std.specs.Prelude.{◌≡◌, ◌*◌, ◌≤◌, length, take, drop};
ghost use Rattle.dependencies.specs.Told.{done};
ghost use Rattle.parts.specs.Answers.{opened_told};
ghost use Rattle.register.specs.States.{SamePlan};
ghost use Rattle.join.specs.Laid.{row_count, lay_told, lay_outcome, LayAfter, LaySays};
ghost use Rattle.join.specs.Undoing.{TakenBack};

use crate::refusal::LayRefusal;
use crate::table_rows::TableRows;
use dependencies::{Condition, Refusal};
use register::Register;

impl<'a> TableRows<'a> {
    // How many rows begin in the table.
    pub(crate) fn count(self) -> usize
        ensures { result ≡ row_count self.entry.width.columns self.entry.cells.now }
    {
        self.cells.len().div_ceil(self.width.columns() as usize)
    }

    // Row i.
    pub(crate) fn row(self, i: usize) -> &'a [u64]
        requires { i * self.width.columns ≤ length self.cells.now }
        ensures { result.now ≡ take self.entry.width.columns (drop (i * self.entry.width.columns) self.entry.cells.now) }
    {
        let n = self.width.columns() as usize;
        let from = i * n;
        let left = &self.cells[from..];
        &left[..n.min(left.len())]
    }
}

// Takes the first rows of a table out again, the last first.
fn take_back(register: &mut Register, rows: TableRows, count: usize)
    requires same { register.old.columns ≡ rows.width.columns }
    requires there { count * rows.width.columns ≤ length rows.cells.now }
    ensures back { TakenBack rows.entry.width.columns register.old.design.now rows.entry.cells.now count 0 register.old.cells.now register.new.cells.now }
    ensures plan { SamePlan register.old register.new }
{
    for i in (0..count).rev() {
        let _ = register.remove(rows.row(i));
    }
}

// Puts the rows in one after the other, up to the first that is refused; then those before it are taken out again.
fn lay_rows(register: &mut Register, rows: TableRows) -> Result<usize, LayRefusal>
    requires same { register.old.columns ≡ rows.width.columns }
    requires opened { opened_told rows.width.columns register.old.design.now ≡ done }
    ensures says { LaySays rows.entry.width.columns register.old.design.now register.old.cells.now register.new.cells.now rows.entry.cells.now result }
    ensures plan { SamePlan register.old register.new }
{
    let count = rows.count();
    // By its place, since that is how a table gives a row, and what is told of one that is refused.
    for i in 0..count {
        if let Err(refusal) = register.insert(rows.row(i)) {
            take_back(register, rows, i);
            return Err(LayRefusal {
                row: i as u64,
                refusal,
            });
        }
    }
    Ok(count)
}

// Lays a whole table, its rows one after the other, into an opened register: all of it, or nothing of it.
// The first row that would be refused is told with its refusal; a last row that is cut short is one of too few cells.
pub fn lay(register: &mut Register, table: &[u64]) -> Result<usize, LayRefusal>
    ensures told { lay_outcome result ≡ lay_told register.old.columns register.old.design.now register.old.cells.now table.now }
    ensures after { LayAfter register.old.columns register.old.design.now register.old.cells.now register.new.cells.now table.now result }
    ensures plan { SamePlan register.old register.new }
    ensures long { length register.new.cells.now ≡ length register.old.cells.now }
{
    let Some(width) = register.width() else {
        return Err(LayRefusal {
            row: 0,
            refusal: Refusal::NotADesign(Condition::Covers),
        });
    };
    let rows = TableRows {
        width,
        cells: table,
    };
    lay_rows(register, rows)
}
