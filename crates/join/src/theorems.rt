// The theorem about whole tables, carried by a function whose contract is the statement.
ghost use Rattle.join.specs.Theorems.{LaidThenJoined};

// A table that obeys the rules and lists no row twice is taken whole into the bare parts of a design with room enough,
// and what is joined of the parts has exactly its rows.
pub fn laid_then_joined()
    ensures { LaidThenJoined }
{}
