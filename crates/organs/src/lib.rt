// The worked example: organs in parishes, parishes in dioceses, and the days on which a tuner is at an organ.
// Each fact is a theorem about the definitions, carried by a function whose contract is the statement.
#![tactic(auto)]

ghost use Rattle.organs.specs.Organs.{OrganClosures, TunerIsFree, OrganCover, OrganKeys, OrganDesign, OrganMisses};

// The closures of 1, of 0, and of 0 and 5.
pub fn organ_closures()
    ensures { OrganClosures }
{}

// That a tuner fixes the organ does not follow, and two rows show it.
pub fn tuner_is_free()
    ensures { TunerIsFree }
{}

// The rules 0 to 1, 0 to 3, 1 to 2, 4 5 to 0 and 0 5 to 4 are a least set.
pub fn organ_cover()
    ensures { OrganCover }
{}

// The keys are exactly 0 5 and 4 5.
pub fn organ_keys()
    ensures { OrganKeys }
{}

// The parts 0 1 3, 1 2 and 0 4 5 with their own rules are a design.
pub fn organ_design()
    ensures { OrganDesign }
{}

// The parts 0 1 2 3 and 0 4 5 miss third normal form first, and 0 1 3 and 2 4 5 the lossless join.
pub fn organ_misses()
    ensures { OrganMisses }
{}
