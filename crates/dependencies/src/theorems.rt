// The theorems about rules, each carried by a function whose contract is the statement.
ghost use Rattle.dependencies.specs.Theorems.{ClosureExact, TwoRowsSuffice, OneTableTells};

// A rule follows exactly if its right columns are in the closure of its left ones; otherwise two rows obey all rules and break it.
pub fn closure_is_exact()
    ensures { ClosureExact }
{}

// What holds in all tables of two rows holds in all tables.
pub fn two_rows_suffice()
    ensures { TwoRowsSuffice }
{}

// For any rules there is one table that obeys a rule exactly if the rule follows.
pub fn one_table_tells()
    ensures { OneTableTells }
{}
