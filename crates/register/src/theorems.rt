// The theorems about a register in parts, each carried by a function whose contract is the statement.
ghost use Rattle.register.specs.Organs.{OrgansDay};
ghost use Rattle.register.specs.Theorems.{PartsAsWhole, NeverMore, ToTheLetter, Undone};

// The parts, each asking its own rules alone, take and refuse exactly the deeds that one table with all rules does,
// and at the end a row is in the one table exactly if every part holds what it looks like there.
pub fn parts_as_whole()
    ensures { PartsAsWhole }
{}

// No part ever holds more rows than the register.
pub fn parts_never_more()
    ensures { NeverMore }
{}

// A day of deeds that were all taken, undone deed by deed, the last first, leaves the parts bare.
pub fn day_undone()
    ensures { Undone }
{}

// The organs' day in the one table: what is taken and what is refused.
pub fn organs_day_in_one_table()
    ensures { OrgansDay }
{}

// What the parts hold says to the letter what stands in lent cells of which every one behind a part's rows is 0.
pub fn cells_to_the_letter()
    ensures { ToTheLetter }
{}
