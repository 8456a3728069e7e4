// What the parts of a register hold, for others to read.
ghost use Rattle.std.specs.Prelude.{◌≡◌, MatchOption, slice_index};
ghost use Rattle.dependencies.specs.Told.{done, refused};
ghost use Rattle.register.specs.States.{opened};
ghost use Rattle.parts.specs.Parts.{if_opened, IfOpened, PartAt, NoPart};

use crate::register::Register;
use columns::Width;
use parts::{HeldPart, part_count, read_part, readable_at};

impl<'d, 'c> Register<'d, 'c> {
    // How many columns the table has, unless the register was never opened.
    pub fn width(&self) -> Option<Width>
        ensures { MatchOption result (opened self.now ≡ refused 6 1) (λ w. (opened self.now ≡ done) × (w.columns ≡ self.now.columns)) }
    {
        readable_at(self.columns, self.design)
    }

    // How many parts there are; none in a register that was never opened.
    pub fn parts(&self) -> u32
        ensures { result ≡ if_opened (opened self.now) (slice_index self.now.design.now 0) 0 }
    {
        part_count(self.columns, self.design)
    }

    // Part p as it stands, counted from 0. Past the last part, and in a register that was never opened,
    // it is a part without columns that holds nothing.
    pub fn part(&self, p: usize) -> HeldPart<'_>
        ensures { IfOpened (opened self.now) (PartAt self.now.columns self.now.design.now self.now.cells.now p result) (NoPart result) }
    {
        read_part(self.columns, self.design, self.cells, p)
    }
}
