// A register over a lent design and lent cells.
ghost use Rattle.std.specs.Prelude.{◌≡◌, length, IfOk, MatchResult};
ghost use Rattle.dependencies.specs.Layout.{columns_of};
ghost use Rattle.dependencies.specs.Told.{done, told, or_else};
ghost use Rattle.parts.specs.Day.{all_more, all_less};
ghost use Rattle.parts.specs.Answers.{outcome, put_told, take_told, asked_told, Asks, Opened};
ghost use Rattle.register.specs.States.{opened, parts_in, room_in, held_in, SameDesign, SamePlan, TellsOpening, Leaves};

use dependencies::{Condition, Refusal};
use parts::{DesignParts, is_present, put_in, readable_at, take_out, width_to_open};

// The cells are shared out in equal parts: each part of the design has room for cells / (parts × (columns + 1)) rows.
// A register has no column until it is opened, and is then asked in vain.
#[derive(Drop)]
pub struct Register<'d, 'c> {
    pub(crate) columns: u64,
    pub(crate) design: &'d [u64],
    pub(crate) cells: &'c mut [u64],
}

impl<'d, 'c> Register<'d, 'c> {
    // A register that is not opened yet: nothing is read or changed.
    pub fn over(design: &'d [u64], cells: &'c mut [u64]) -> Register<'d, 'c>
        ensures closed { result.columns ≡ 0 }
        ensures plan { result.design.now ≡ design.now }
        ensures same { result.cells.now ≡ cells.old }
    {
        Register {
            columns: 0,
            design,
            cells,
        }
    }

    // Reads the rules and the design, and clears all cells whatever they held.
    pub(crate) fn begin(&mut self, rules: &[u64]) -> Result<DesignParts<'d>, Refusal>
        ensures told { TellsOpening self.old rules.now result }
        ensures after { Opened (columns_of rules.now) self.old.columns self.new.columns self.old.cells.now self.new.cells.now result }
        ensures parts { IfOk result (λ p. (p.width.columns ≡ columns_of rules.now) × (p.numbers.now ≡ self.old.design.now)) }
        ensures plan { SameDesign self.old self.new }
    {
        let width = width_to_open(rules, self.design)?;
        self.cells.fill(0);
        self.columns = width.columns() as u64;
        Ok(DesignParts {
            width,
            numbers: self.design,
        })
    }

    // Reads the rules and the design, and clears all cells whatever they held: no part holds anything.
    // Whether the design is one for the rules is not tested here.
    pub fn open(&mut self, rules: &[u64]) -> Result<(), Refusal>
        ensures told { TellsOpening self.old rules.now result }
        ensures after { Opened (columns_of rules.now) self.old.columns self.new.columns self.old.cells.now self.new.cells.now result }
        ensures plan { SameDesign self.old self.new }
    {
        self.begin(rules)?;
        Ok(())
    }

    // The parts of the design; 6 at 1 in a register that was never opened.
    fn opened_parts(&self) -> Result<DesignParts<'d>, Refusal>
        ensures { MatchResult result (λ p. (opened self.now ≡ done) × (p.width.columns ≡ self.now.columns) × (p.numbers.now ≡ self.now.design.now)) (λ e. opened self.now ≡ told e) }
    {
        let width = readable_at(self.columns, self.design).ok_or(Refusal::NotADesign(
            Condition::Covers,
        ))?;
        Ok(DesignParts {
            width,
            numbers: self.design,
        })
    }

    // Puts a row in.
    pub fn insert(&mut self, row: &[u64]) -> Result<(), Refusal>
        ensures told { outcome result ≡ or_else (opened self.old) (put_told self.old.columns (room_in self.old) (parts_in self.old) (held_in self.old) row.now) }
        ensures after { Leaves self.old self.new (all_more (parts_in self.old) (held_in self.old) row.now) result }
        ensures plan { SamePlan self.old self.new }
        ensures long { length self.new.cells.now ≡ length self.old.cells.now }
    {
        let parts = self.opened_parts()?;
        put_in(parts, self.cells, row)
    }

    // Takes a row out.
    pub fn remove(&mut self, row: &[u64]) -> Result<(), Refusal>
        ensures told { outcome result ≡ or_else (opened self.old) (take_told self.old.columns (parts_in self.old) (held_in self.old) row.now) }
        ensures after { Leaves self.old self.new (all_less (parts_in self.old) (held_in self.old) row.now) result }
        ensures plan { SamePlan self.old self.new }
        ensures long { length self.new.cells.now ≡ length self.old.cells.now }
    {
        let parts = self.opened_parts()?;
        take_out(parts, self.cells, row)
    }

    // Whether a row is present.
    pub fn contains(&self, row: &[u64]) -> Result<bool, Refusal>
        ensures told { outcome result ≡ or_else (opened self.now) (asked_told self.now.columns row.now) }
        ensures asked { Asks self.now.columns (parts_in self.now) (held_in self.now) row.now result }
    {
        let parts = self.opened_parts()?;
        is_present(parts, self.cells, row)
    }
}
