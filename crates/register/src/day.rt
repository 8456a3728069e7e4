// A whole day of deeds.
ghost use Rattle.std.specs.Prelude.{◌≡◌, ◌+◌, ◌*◌, ◌/◌, ◌≤◌, [], ◌∷◌, length, nat_lt};
ghost use Rattle.columns.specs.Cols.{pick};
ghost use Rattle.dependencies.specs.Told.{number as number_of, place as place_of};
ghost use Rattle.dependencies.specs.Layout.{columns_of};
ghost use Rattle.dependencies.specs.Bytes.{row_of_bytes};
ghost use Rattle.parts.specs.Left.{design_of, part_room, held_parts, PartsAfter};
ghost use Rattle.parts.specs.Answers.{outcome, columns_after};
ghost use Rattle.register.specs.Deeds.{deed_told, deed_held, DeedsKept, DaySays};
ghost use Rattle.register.specs.Kinds.{asks};
ghost use Rattle.register.specs.States.{SameDesign, TellsOpening};
ghost use Rattle.register.specs.DayBytes.{bytes_behind_rules, ByteDaySays};

use crate::day_bytes::{behind_rules, deeds_from_bytes};
use crate::deed_kind_type::DeedKind;
use crate::register::Register;
use columns::Width;
use dependencies::{Refusal, rule_row};
use parts::{DesignParts, put_in, take_out, width_to_open};

// One deed.
fn do_deed(
    parts: DesignParts,
    cells: &mut [u64],
    kind: DeedKind,
    row: &[u64],
) -> Result<(), Refusal>
    ensures told { outcome result ≡ deed_told parts.entry.width.columns (part_room parts.entry cells.old) (design_of parts.entry) (held_parts parts.entry cells.old) (asks kind row.now) }
    ensures after { PartsAfter parts.entry cells.old cells.new (deed_held (design_of parts.entry) (held_parts parts.entry cells.old) (asks kind row.now)) result }
{
    match kind {
        DeedKind::PutIn => put_in(parts, cells, row),
        DeedKind::TakeOut => take_out(parts, cells, row),
    }
}

// The answer as two numbers, since so the lent row has it: the refusal, 0 where the deed is done, and its place.
fn write_answer(slot: &mut [u64], told: Result<(), Refusal>)
    requires { length slot.old ≡ 2 }
    ensures { slot.new ≡ number_of (outcome told) ∷ place_of (outcome told) ∷ [] }
{
    match told {
        Ok(_) => {
            slot[0] = 0;
            slot[1] = 0;
        }
        Err(refusal) => {
            slot[0] = refusal.number();
            slot[1] = refusal.place();
        }
    }
}

// How many deeds stand there whole and have room for their answer.
fn deed_count(deeds: usize, answers: usize, width: Width) -> usize
    ensures is { result ≡ pick (nat_lt (deeds / (width.columns + 1)) (answers / 2)) (deeds / (width.columns + 1)) (answers / 2) }
    ensures whole { result * (width.columns + 1) ≤ deeds }
    ensures room { 2 * result ≤ answers }
{
    (deeds / (width.columns() as usize + 1)).min(answers / 2)
}

// Does the deeds one after the other, and writes what is told of each.
fn keep_deeds(parts: DesignParts, cells: &mut [u64], deeds: &[u64], answers: &mut [u64]) -> usize
    ensures { DeedsKept parts.entry.width.columns parts.entry.numbers.now cells.old cells.new deeds.now answers.old answers.new result }
{
    let most = deed_count(deeds.len(), answers.len(), parts.width);
    let len = parts.width.columns() as usize + 1;
    let mut left = deeds;
    // By places: of what is written through `chunks_exact_mut` no proof knows more than its length.
    for e in 0..most {
        let Some(kind) = DeedKind::from_number(left[0]) else {
            return e;
        };
        let told = do_deed(parts, cells, kind, &left[1..len]);
        write_answer(&mut answers[2 * e..2 * e + 2], told);
        left = &left[len..];
    }
    most
}

impl<'d, 'c> Register<'d, 'c> {
    // A whole day from a bare register: opens it, does the deeds one after the other, and writes two numbers for each,
    // the refusal or 0, and its place. It ends where the deeds end, where the answers have no more room, or at another
    // number than 0 or 1, and tells how many deeds were answered.
    pub fn keep_day(
        &mut self,
        rules: &[u64],
        deeds: &[u64],
        answers: &mut [u64],
    ) -> Result<usize, Refusal>
        ensures told { TellsOpening self.old rules.now result }
        ensures says { DaySays (columns_of rules.now) self.old.design.now self.old.cells.now self.new.cells.now deeds.now answers.old answers.new result }
        ensures width { self.new.columns ≡ columns_after (columns_of rules.now) self.old.columns result }
        ensures plan { SameDesign self.old self.new }
    {
        let parts = self.begin(rules)?;
        Ok(keep_deeds(parts, self.cells, deeds, answers))
    }

    // The same from the bytes of a day: the rules, and then the deeds, which are read into the lent row as many as stand there
    // whole and have room.
    pub fn keep_day_from_bytes(
        &mut self,
        bytes: &[u8],
        deeds: &mut [u64],
        answers: &mut [u64],
    ) -> Result<usize, Refusal>
        ensures told { TellsOpening self.old (row_of_bytes bytes.now) result }
        ensures says { ByteDaySays (columns_of (row_of_bytes bytes.now)) self.old.design.now self.old.cells.now self.new.cells.now (bytes_behind_rules bytes.now) deeds.old deeds.new answers.old answers.new result }
        ensures width { self.new.columns ≡ columns_after (columns_of (row_of_bytes bytes.now)) self.old.columns result }
        ensures plan { SameDesign self.old self.new }
    {
        let row = rule_row(bytes);
        let width = width_to_open(row.numbers(), self.design)?;
        let count = deeds_from_bytes(behind_rules(bytes), width, deeds);
        let read = &deeds[0..count * (width.columns() as usize + 1)];
        self.keep_day(row.numbers(), read, answers)
    }
}
