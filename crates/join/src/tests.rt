// Whole tables laid and joined: the organs, a refusal in the middle, and parts that share no column.
use crate::failure::{JoinFailure, TripFailure};
use crate::joining::join;
use crate::laying::lay;
use crate::trip::lay_and_join;
use dependencies::{Condition, Refusal};
use register::Register;
use std::test::Fail;

// Columns: organ, parish, diocese, builder, tuner, day. 0 fixes 1 and 3; 1 fixes 2; 4 and 5 fix 0; 0 and 5 fix 4.
const RULES: [u64; 10] = [6, 4, 1, 10, 2, 4, 48, 1, 33, 16];

// Parts 0 1 3 with 0>1 and 0>3; 1 2 with 1>2; 0 4 5 with 4 5>0 and 0 5>4.
const DESIGN: [u64; 17] = [3, 11, 2, 1, 2, 1, 8, 6, 1, 2, 4, 49, 2, 48, 1, 33, 16];

const ORGANS: [u64; 18] = [
    10, 1, 100, 7, 50, 3, 11, 1, 100, 8, 52, 3, 10, 1, 100, 7, 51, 4,
];

// The rows come in the order of the places of their looks: the organ 10 first, with both its visits.
#[test]
fn organs_laid_and_joined(rt: HostRuntime) -> Result<(), Fail> {
    let mut cells = [9; 63];
    let mut register = Register::over(&DESIGN, &mut cells);
    register.open(&RULES)?;
    let rows = lay_and_join(rt.alloc(), &mut register, &ORGANS)?;
    assert_eq!(rt; rows.len(), 3);
    if rows.len() == 3 {
        assert!(rt; rows[0] == [10, 1, 100, 7, 50, 3, 0, 0, 0, 0, 0, 0, 0, 0, 0, 0]);
        assert!(rt; rows[1] == [10, 1, 100, 7, 51, 4, 0, 0, 0, 0, 0, 0, 0, 0, 0, 0]);
        assert!(rt; rows[2] == [11, 1, 100, 8, 52, 3, 0, 0, 0, 0, 0, 0, 0, 0, 0, 0]);
    }
    Ok(())
}

// The third row gives organ 10 a second parish, and the last is cut short: neither table is laid.
#[test]
fn refused_in_the_middle(rt: HostRuntime) -> Result<(), Fail> {
    let table = [
        10, 1, 100, 7, 50, 3, 11, 1, 100, 8, 52, 3, 10, 2, 100, 7, 51, 4,
    ];
    let mut cells = [9; 63];
    let mut register = Register::over(&DESIGN, &mut cells);
    assert!(rt; lay(&mut register, &table).is_err());
    register.open(&RULES)?;
    let Err(refused) = lay(&mut register, &table) else {
        return Err(Fail::new("the table was laid"));
    };
    let text = refused.to_string(rt.alloc())?;
    assert!(rt; text.as_str() == "row 2: refused 9 at 0");
    let trip = lay_and_join(rt.alloc(), &mut register, &table);
    assert_eq!(rt; trip.err(), Some(TripFailure::Laid(refused)));
    let Err(short) = lay(&mut register, &ORGANS[0..16]) else {
        return Err(Fail::new("a row of four cells was laid"));
    };
    let text = short.to_string(rt.alloc())?;
    assert!(rt; text.as_str() == "row 2: refused 7 at 4");
    assert!(rt; cells == [0; 63]);
    Ok(())
}

// Two parts of one column each: every cell of the first joins every cell of the second.
#[test]
fn nothing_shared(rt: HostRuntime) -> Result<(), Fail> {
    let mut cells = [0; 12];
    let mut register = Register::over(&[2, 1, 0, 2, 0], &mut cells);
    let unopened = JoinFailure::Refused(Refusal::NotADesign(Condition::Covers));
    assert_eq!(rt; join(rt.alloc(), &register).err(), Some(unopened));
    register.open(&[2, 0])?;
    assert_eq!(rt; join(rt.alloc(), &register)?.len(), 0);
    assert_eq!(rt; lay(&mut register, &[1, 5, 2, 6])?, 2);
    let rows = join(rt.alloc(), &register)?;
    assert_eq!(rt; rows.len(), 4);
    if rows.len() == 4 {
        assert_eq!(rt; rows[1][0], 1u64);
        assert_eq!(rt; rows[1][1], 6u64);
        assert_eq!(rt; rows[2][0], 2u64);
        assert_eq!(rt; rows[2][1], 5u64);
    }
    Ok(())
}
