// The theorems of this crate, each carried by a function whose contract is the statement.
ghost use Rattle.verdict.specs.Decided.{ChaseDecides, ThirdFormDecided, VerdictPinned};
ghost use Rattle.verdict.specs.Own.{OwnAccepted};

// The chase decides whether parts lose nothing.
pub fn chase_decides()
    ensures { ChaseDecides }
{}

// Third normal form is decided by the sets inside a part.
pub fn third_form_decided()
    ensures { ThirdFormDecided }
{}

// The verdict on a design is the first condition that it misses, or that it is one.
pub fn verdict_pinned()
    ensures { VerdictPinned }
{}

// Whatever is written as a design for rules is accepted for them.
pub fn own_designs_accepted()
    ensures { OwnAccepted }
{}
