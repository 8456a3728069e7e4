// The theorems of this crate, each carried by a function whose contract is the statement.
ghost use Rattle.cover.specs.Least.{LeastExists};

// For any rules there is a least set that says the same.
pub fn least_set_exists()
    ensures { LeastExists }
{}
