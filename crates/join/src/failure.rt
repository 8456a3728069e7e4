// Why parts are not joined.
ghost use Rattle.std.specs.Prelude.{◌≡◌};
ghost use Rattle.join.specs.declared.failure.JoinFailure.TheVariants.{Refused as JoinRefused, NoMemory as NoMemoryToJoin};
ghost use Rattle.join.specs.declared.failure.TripFailure.TheVariants.{Laid};

use crate::refusal::LayRefusal;
use dependencies::Refusal;
use std::alloc::AllocError;

#[derive(Clone, Copy, PartialEq, Eq, Debug)]
pub enum JoinFailure {
    // The register was never opened: 6 at 1.
    Refused(Refusal),
    // No memory for the rows. This has no number, and is told only where no number applies.
    NoMemory,
}

#[derive(Clone, Copy, PartialEq, Eq, Debug)]
pub enum TripFailure {
    // A row of the table was refused, and nothing is laid.
    Laid(LayRefusal),
    // No memory for the joined rows; the table is laid.
    NoMemory,
}

impl From<Refusal> for JoinFailure {
    ghost from_gives = { λ e f. f ≡ JoinRefused e };

    fn from(refusal: Refusal) -> Self {
        JoinFailure::Refused(refusal)
    }
}

impl From<AllocError> for JoinFailure {
    ghost from_gives = { λ e f. f ≡ NoMemoryToJoin };

    fn from(_: AllocError) -> Self {
        JoinFailure::NoMemory
    }
}

impl From<LayRefusal> for TripFailure {
    ghost from_gives = { λ e f. f ≡ Laid e };

    fn from(refusal: LayRefusal) -> Self {
        TripFailure::Laid(refusal)
    }
}
