// Whether lent numbers are a design at all: they do not end before its parts do, and name columns of the table only.
ghost use Rattle.std.specs.Prelude.{◌≡◌, ◌+◌, ◌*◌, ◌≤◌, true, false, length, MatchOption, slice_index};
ghost use Rattle.verdict.specs.Given.{given_parts, is_readable};
ghost use Rattle.schema.specs.Layout.{design_in};

use crate::given_design::GivenDesign;
use crate::given_parts::behind;
use columns::Width;
use schema::part_len;

// Whether the numbers hold as many parts as the first of them says. A count past their end is soon found out.
pub(crate) fn readable(lent: &[u64], width: Width) -> bool
    ensures { result ≡ is_readable width.columns lent.now }
{
    let Some((parts, mut numbers)) = lent.split_first() else {
        return false;
    };
    for _ in 0..*parts {
        let Some(size) = part_len(numbers, width) else {
            return false;
        };
        numbers = behind(numbers, size);
    }
    true
}

// The design that the numbers hold.
pub(crate) fn opened(lent: &[u64], width: Width) -> GivenDesign
    requires { is_readable width.columns lent.now ≡ true }
    ensures { (given_parts result ≡ design_in width.columns lent.now) × (result.width ≡ width) × (result.count ≡ slice_index lent.now 0) }
{
    let count = lent[0] as usize;
    let numbers = behind(lent, 1);
    GivenDesign {
        width,
        count,
        numbers,
    }
}
