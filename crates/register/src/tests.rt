// The organs' day, and the edges of a register's requests.
use crate::day_bytes::{DayRest, behind_rules, day_rest};
use crate::register::Register;
use columns::Width;
use dependencies::{Condition, Refusal};
use std::test::Fail;

// Columns: organ, parish, diocese, builder, tuner, day. 0 fixes 1 and 3; 1 fixes 2; 4 and 5 fix 0; 0 and 5 fix 4.
const RULES: [u64; 10] = [6, 4, 1, 10, 2, 4, 48, 1, 33, 16];

// Parts 0 1 3 with 0>1 and 0>3; 1 2 with 1>2; 0 4 5 with 4 5>0 and 0 5>4.
const DESIGN: [u64; 17] = [3, 11, 2, 1, 2, 1, 8, 6, 1, 2, 4, 49, 2, 48, 1, 33, 16];

#[test]
fn organs_day(rt: HostRuntime) {
    let mut cells = [9; 65];
    let mut answers = [77; 23];
    let deeds = [
        0, 10, 1, 100, 7, 50, 3, 0, 10, 1, 100, 7, 50, 3, 0, 10, 1, 100, 7, 51, 4, 0, 10, 2, 100,
        7, 50, 5, 0, 11, 1, 101, 8, 52, 3, 0, 11, 1, 100, 8, 50, 3, 0, 11, 1, 100, 8, 52, 3, 1, 10,
        1, 100, 7, 50, 3, 0, 10, 2, 100, 7, 50, 5, 1, 10, 1, 100, 7, 51, 4, 0, 10, 2, 100, 7, 50,
        5,
    ];
    let mut register = Register::over(&DESIGN, &mut cells);
    assert_eq!(rt; register.keep_day(&RULES, &deeds, &mut answers), Ok(11));
    assert!(rt;
        answers
            == [
                0, 0, 8, 0, 0, 0, 9, 0, 9, 64, 9, 128, 0, 0, 0, 0, 9, 0, 0, 0, 0, 0, 77,
            ]
    );
    assert!(rt;
        cells
            == [
                11, 1, 0, 8, 0, 0, 1, 10, 2, 0, 7, 0, 0, 1, 0, 0, 0, 0, 0, 0, 0, 0, 1, 100, 0, 0,
                0, 1, 0, 2, 100, 0, 0, 0, 1, 0, 0, 0, 0, 0, 0, 0, 11, 0, 0, 0, 52, 3, 1, 10, 0, 0,
                0, 50, 5, 1, 0, 0, 0, 0, 0, 0, 0, 0, 0,
            ]
    );
}

// The third part has no room for the second row: no part has counted it.
#[test]
fn no_room_in_a_later_part(rt: HostRuntime) {
    let mut cells = [9; 21];
    let mut register = Register::over(&DESIGN, &mut cells);
    assert_eq!(rt; register.open(&RULES), Ok(()));
    assert_eq!(rt; register.insert(&[10, 1, 100, 7, 50, 3]), Ok(()));
    assert_eq!(rt;
        register.insert(&[10, 1, 100, 7, 51, 4]),
        Err(Refusal::PartFull(2))
    );
    assert!(rt;
        cells
            == [
                10, 1, 0, 7, 0, 0, 1, 0, 1, 100, 0, 0, 0, 1, 10, 0, 0, 0, 50, 3, 1,
            ]
    );
}

// One of two rows that look alike goes; the parts that both look like keep their look.
#[test]
fn rows_that_look_alike(rt: HostRuntime) {
    let mut cells = [9; 42];
    let mut register = Register::over(&DESIGN, &mut cells);
    assert_eq!(rt; register.open(&RULES), Ok(()));
    assert_eq!(rt; register.insert(&[10, 1, 100, 7, 50, 3]), Ok(()));
    assert_eq!(rt; register.insert(&[10, 1, 100, 7, 51, 4]), Ok(()));
    assert_eq!(rt;
        register.remove(&[10, 1, 100, 7, 50, 4]),
        Err(Refusal::Absent)
    );
    assert_eq!(rt; register.remove(&[10, 1, 100, 7, 50, 3]), Ok(()));
    assert_eq!(rt; register.contains(&[10, 1, 100, 7, 50, 3]), Ok(false));
    assert!(rt;
        cells
            == [
                10, 1, 0, 7, 0, 0, 1, 0, 0, 0, 0, 0, 0, 0, 0, 1, 100, 0, 0, 0, 1, 0, 0, 0, 0, 0, 0,
                0, 10, 0, 0, 0, 51, 4, 1, 0, 0, 0, 0, 0, 0, 0,
            ]
    );
}

#[test]
fn refused_requests(rt: HostRuntime) {
    let mut cells = [9; 21];
    let mut register = Register::over(&DESIGN, &mut cells);
    assert_eq!(rt;
        register.insert(&[10, 1, 100, 7, 50, 3]),
        Err(Refusal::NotADesign(Condition::Covers))
    );
    assert_eq!(rt; register.open(&RULES), Ok(()));
    assert_eq!(rt;
        register.insert(&[10, 1, 100, 7, 50]),
        Err(Refusal::Cells(5))
    );
    assert_eq!(rt; register.remove(&[]), Err(Refusal::Cells(0)));
    let mut other = [9; 21];
    let mut cut = Register::over(&DESIGN[0..16], &mut other);
    assert_eq!(rt;
        cut.open(&RULES),
        Err(Refusal::NotADesign(Condition::Covers))
    );
    assert!(rt; other == [9; 21]);
}

// Two columns, of which 0 fixes 1; the row 1 258 is put in, then 1 259, and a third deed ends in its second cell.
const BYTES: [u8; 30] = [
    2, 1, 1, 0, 2, 0, 0, 1, 0, 0, 0, 2, 1, 0, 0, 0, 1, 0, 0, 0, 3, 1, 0, 0, 0, 7, 0, 0, 0, 9,
];

#[test]
fn day_as_bytes(rt: HostRuntime) {
    let design = [1, 3, 1, 1, 2];
    let mut cells = [9; 7];
    let mut deeds = [5; 7];
    let mut answers = [5; 5];
    let mut register = Register::over(&design, &mut cells);
    let answered = register.keep_day_from_bytes(&BYTES, &mut deeds, &mut answers);
    assert_eq!(rt; answered, Ok(2));
    assert!(rt; deeds == [0, 1, 258, 0, 1, 259, 5]);
    assert!(rt; answers == [0, 0, 9, 0, 5]);
    assert!(rt; cells == [1, 258, 1, 0, 0, 0, 0]);
}

#[test]
fn rest_of_a_day(rt: HostRuntime) -> Result<(), Fail> {
    let width = Width::new(2).ok_or_else(|| Fail::new("two columns"))?;
    let day = behind_rules(&BYTES);
    assert!(rt; day_rest(day, width, 0) == DayRest::Unanswered);
    assert!(rt; day_rest(day, width, 2) == DayRest::CutShort(1));
    assert!(rt; day_rest(day, width, 3) == DayRest::Ended);
    assert!(rt; day_rest(&[2, 0], width, 0) == DayRest::NoDeed);
    assert!(rt; day_rest(&BYTES[0..0], width, 0) == DayRest::Ended);
    Ok(())
}
