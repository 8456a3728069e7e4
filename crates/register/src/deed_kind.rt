// What a deed asks for, by its first number.
ghost use Rattle.std.specs.Prelude.{◌≡◌, ◌<◌, ◌≤◌, ◌==◌, MatchOption};
ghost use Rattle.columns.specs.Cols.{pick};
ghost use Rattle.dependencies.specs.Tables.{Row};
ghost use Rattle.parts.specs.Day.{insert, remove};
ghost use Rattle.register.specs.Kinds.{asks};

use crate::deed_kind_type::DeedKind;

impl DeedKind {
    // 0 to put in, 1 to take out; another number begins no deed.
    pub(crate) fn from_number(number: u64) -> Option<Self>
        ensures { MatchOption result (1 < number) (λ k. (number ≤ 1) × ((r : Row) → asks k r ≡ pick (number == 0) (insert r) (remove r))) }
    {
        match number {
            0 => Some(DeedKind::PutIn),
            1 => Some(DeedKind::TakeOut),
            _ => None,
        }
    }
}
