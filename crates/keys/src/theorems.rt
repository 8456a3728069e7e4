// The theorems of this crate, each carried by a function whose contract is the statement.
ghost use Rattle.keys.specs.Keys.{KeysExist, KeysOne};

// Any set of columns has a list of all its keys, under any rules.
pub fn keys_exist()
    ensures { KeysExist }
{}

// There is always a key, and the list of all keys in order is one.
pub fn keys_are_one()
    ensures { KeysOne }
{}
