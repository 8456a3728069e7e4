// Why a request is turned away. Every refusal has a number and a place, and of several that apply the first is told.
ghost use Rattle.std.specs.Prelude.{◌≡◌, Some};
ghost use Rattle.dependencies.specs.Told.{told, number, place, condition_number, shown_refusal};

use std::fmt;

// What a design has to meet, in the order in which it is tested.
#[derive(Clone, Copy, PartialEq, Eq, Debug)]
pub enum Condition {
    // Every column is in some part, and nothing outside the table.
    Covers = 1,
    // No part lies inside another.
    NoneInside = 2,
    // Joining the parts loses nothing and makes nothing up.
    Lossless = 3,
    // Each part's own rules lie in it, and together they say what the given rules say.
    RulesKept = 4,
    // Every part is in third normal form.
    ThirdForm = 5,
}

#[derive(Clone, Copy, PartialEq, Eq, Debug)]
pub enum Refusal {
    // 1 at 0: no column, or more than 16.
    Columns,
    // 2: more than 32 rules, or the lent rules are cut short. How many there should be.
    RuleCount(u64),
    // 3: a set names a column that is not there. Which set, counted through from 0.
    Set(u64),
    // 4: the lent row for a design or a least set is too short. Its length.
    ShortRow(u64),
    // 5: no room for the next key. How many keys there was room for.
    KeyRoom(u64),
    // 6: a design given by somebody else is none. The first condition that it misses.
    NotADesign(Condition),
    // 7: a row of another count of cells than the table has columns. Their count.
    Cells(u64),
    // 8 at 0: the row to be put in is present.
    Present,
    // 9: the row to be put in breaks a rule of a part together with a held row. The place is part × 64 + rule.
    Broken { part: u32, rule: u32 },
    // 10 at 0: the row to be taken out is absent.
    Absent,
    // 11: the lent room of a part is full, or a count would pass 2^32 − 1. The part.
    PartFull(u32),
}

impl Condition {
    pub fn number(self) -> u64
        ensures { result ≡ condition_number self }
    {
        self as u64
    }
}

impl Refusal {
    // Told by a match, since only an enum whose variants hold no values is cast to its number.
    pub fn number(self) -> u64
        ensures { result ≡ number (told self) }
    {
        match self {
            Refusal::Columns => 1,
            Refusal::RuleCount(_) => 2,
            Refusal::Set(_) => 3,
            Refusal::ShortRow(_) => 4,
            Refusal::KeyRoom(_) => 5,
            Refusal::NotADesign(_) => 6,
            Refusal::Cells(_) => 7,
            Refusal::Present => 8,
            Refusal::Broken { .. } => 9,
            Refusal::Absent => 10,
            Refusal::PartFull(_) => 11,
        }
    }

    pub fn place(self) -> u64
        ensures { result ≡ place (told self) }
    {
        match self {
            Refusal::Columns => 0,
            Refusal::RuleCount(count) => count,
            Refusal::Set(index) => index,
            Refusal::ShortRow(len) => len,
            Refusal::KeyRoom(count) => count,
            Refusal::NotADesign(condition) => condition.number(),
            Refusal::Cells(count) => count,
            Refusal::Present => 0,
            Refusal::Broken { part, rule } => part as u64 * 64 + rule as u64,
            Refusal::Absent => 0,
            Refusal::PartFull(part) => part as u64,
        }
    }
}

impl fmt::Display for Refusal {
    ghost output = { λ e. Some (shown_refusal (told e)) };

    fn fmt<W: fmt::Write>(&self, f: &mut fmt::Formatter<W>) -> fmt::Result {
        write!(f, "refused {} at {}", self.number(), self.place())
    }
}
