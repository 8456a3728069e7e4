// The theorems of this crate, each carried by a function whose contract is the statement.
ghost use Rattle.schema.specs.Theorems.{AlwaysOne, AlwaysFits, TwoParts, KeyPartEnough};

// For any rules there is a design, of no more parts than columns times rules, and one.
pub fn design_always_exists()
    ensures { AlwaysOne }
{}

// For at most 16 columns and 32 rules there is one that fits a lent row of 2,100 numbers.
pub fn design_always_fits()
    ensures { AlwaysFits }
{}

// Two parts lose nothing exactly if the columns that they share fix one of them.
pub fn two_parts_lossless()
    ensures { TwoParts }
{}

// Parts that keep the rules, one of which fixes all columns, lose nothing.
pub fn key_part_enough()
    ensures { KeyPartEnough }
{}
