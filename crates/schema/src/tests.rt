// Designs of small tables, and what a lent row holds afterwards. A set is written as its number: 2^c for column c.
use crate::designing::design;
use crate::extents::design_extent;
use crate::lent::design_for;
use crate::lent_sets::{part_len, sets_fit};
use columns::Width;
use dependencies::{Refusal, read_rules};
use std::process::Abort;
use std::test::Fail;

// In a row of sevens the answer stands in front, and behind it there are still sevens.
fn gives(rt: &impl Abort, rules: &[u64], parts: u64, answer: &[u64]) -> Result<(), Fail> {
    let mut row = [7; 2100];
    assert_eq!(rt; design_for(rules, &mut row), Ok(parts), "of {rules:?}");
    assert!(rt; row.starts_with(answer), "of {rules:?}");
    let behind = row.iter().skip(answer.len());
    assert!(rt; behind.copied().all(|number| number == 7), "of {rules:?}");
    Ok(())
}

// 0 organ, 1 parish, 2 diocese, 3 builder, 4 tuner, 5 day: 0 fixes 1 and 3; 1 fixes 2; 4 and 5 fix 0; 0 and 5 fix 4.
#[test]
fn organs(rt: HostRuntime) -> Result<(), Fail> {
    gives(
        &rt,
        &[6, 4, 1, 10, 2, 4, 48, 1, 33, 16],
        3,
        &[3, 11, 2, 1, 2, 1, 8, 6, 1, 2, 4, 49, 2, 48, 1, 33, 16],
    )
}

#[test]
fn no_rules(rt: HostRuntime) -> Result<(), Fail> {
    gives(&rt, &[3, 0], 1, &[1, 7, 0])?;
    // 16 columns.
    gives(&rt, &[16, 0], 1, &[1, 0xffff, 0])
}

#[test]
fn empty_left_sides(rt: HostRuntime) -> Result<(), Fail> {
    // All columns.
    gives(&rt, &[3, 1, 0, 7], 1, &[1, 7, 3, 0, 1, 0, 2, 0, 4])?;
    // The others are a key, and come last.
    gives(&rt, &[3, 1, 0, 2], 2, &[2, 2, 1, 0, 2, 5, 0])
}

// The rules of 0 make the first part, though one of them comes last.
#[test]
fn of_equal_sets_the_first(rt: HostRuntime) -> Result<(), Fail> {
    gives(
        &rt,
        &[4, 3, 1, 2, 2, 4, 1, 8],
        2,
        &[2, 11, 2, 1, 2, 1, 8, 6, 1, 2, 4],
    )
}

// 0 fixes 1, and 1 and 2 fix 0: the part 0 1 lies in the part 0 1 2, which owns the rules of both.
#[test]
fn a_part_inside_another_goes(rt: HostRuntime) -> Result<(), Fail> {
    gives(&rt, &[3, 2, 1, 2, 6, 1], 1, &[1, 7, 2, 1, 2, 6, 1])
}

// 0 fixes 1 and 2, 1 and 3 fix 0: that 0 fixes 1 lies in both parts, and the first owns it.
#[test]
fn each_rule_in_one_part(rt: HostRuntime) -> Result<(), Fail> {
    gives(
        &rt,
        &[4, 2, 1, 6, 10, 1],
        2,
        &[2, 7, 2, 1, 2, 1, 4, 11, 1, 10, 1],
    )
}

// 0 fixes 1, and 2 stands alone: without the key 0 2 nothing would say which 0 goes with which 2.
#[test]
fn a_key_where_no_part_fixes_all(rt: HostRuntime) -> Result<(), Fail> {
    gives(&rt, &[3, 1, 1, 2], 2, &[2, 3, 1, 1, 2, 5, 0])
}

// 32 rules of 16 columns: column c fixes c + 1, and besides c + 5, around the circle.
const CIRCLES: [u64; 66] = [
    16, 32, 0x0001, 0x0002, 0x0002, 0x0004, 0x0004, 0x0008, 0x0008, 0x0010, 0x0010, 0x0020, 0x0020,
    0x0040, 0x0040, 0x0080, 0x0080, 0x0100, 0x0100, 0x0200, 0x0200, 0x0400, 0x0400, 0x0800, 0x0800,
    0x1000, 0x1000, 0x2000, 0x2000, 0x4000, 0x4000, 0x8000, 0x8000, 0x0001, 0x0001, 0x0020, 0x0002,
    0x0040, 0x0004, 0x0080, 0x0008, 0x0100, 0x0010, 0x0200, 0x0020, 0x0400, 0x0040, 0x0800, 0x0080,
    0x1000, 0x0100, 0x2000, 0x0200, 0x4000, 0x0400, 0x8000, 0x0800, 0x0001, 0x1000, 0x0002, 0x2000,
    0x0004, 0x4000, 0x0008, 0x8000, 0x0010,
];

#[test]
fn many_rules(rt: HostRuntime) {
    let mut row = [7; 2100];
    assert_eq!(rt; design_for(&CIRCLES, &mut row), Ok(16));
    assert_eq!(rt; [row[0], row[1], row[2], row[65]], [16, 33, 1, 7]);
}

#[test]
fn short_rows(rt: HostRuntime) {
    let mut row = [7; 2099];
    assert_eq!(rt;
        design_for(&[2, 1, 1, 2], &mut row),
        Err(Refusal::ShortRow(2099))
    );
    assert!(rt; row.iter().all(|number| *number == 7));
    let mut none = [];
    assert_eq!(rt;
        design_for(&[2, 2, 1, 2, 1, 4], &mut none),
        Err(Refusal::Set(3)),
        "the rules are told first"
    );
}

#[test]
fn extents(rt: HostRuntime) {
    let row = [2, 3, 1, 1, 2, 5, 0, 9];
    assert_eq!(rt; design_extent(&row), Some(7));
    assert_eq!(rt; design_extent(&row[..7]), Some(7));
    assert_eq!(rt;
        design_extent(&row[..6]),
        None,
        "the last part is cut short"
    );
    assert_eq!(rt; design_extent(&[1, 3, 1, 1]), None, "a rule is cut short");
    assert_eq!(rt; design_extent(&[]), None);
}

#[test]
fn a_plan(rt: HostRuntime) -> Result<(), Fail> {
    let plan = design(&read_rules(&[3, 1, 1, 2])?);
    assert_eq!(rt; plan.sets().len(), 2);
    assert_eq!(rt; plan.rules().len(), 1);
    Ok(())
}

#[test]
fn sets_of_a_table(rt: HostRuntime) -> Result<(), Fail> {
    let three = Width::new(3).ok_or_else(|| Fail::new("three columns"))?;
    assert!(rt; sets_fit(&[], three));
    assert!(rt; sets_fit(&[7, 0, 4], three));
    assert!(rt; !sets_fit(&[7, 8], three), "the last set has column 3");
    assert!(rt; !sets_fit(&[0x1_0000_0001, 1], three));
    Ok(())
}

// A part of one rule before another number, one that is cut short, and one whose rule names column 3.
#[test]
fn parts_of_a_row(rt: HostRuntime) -> Result<(), Fail> {
    let three = Width::new(3).ok_or_else(|| Fail::new("three columns"))?;
    assert_eq!(rt; part_len(&[3, 1, 1, 2, 9], three), Some(4));
    assert_eq!(rt; part_len(&[1, 2, 1, 2], three), None);
    assert_eq!(rt; part_len(&[3, 1, 1, 8], three), None);
    assert_eq!(rt; part_len(&[8, 0], three), None);
    assert_eq!(rt; part_len(&[65537, 0], three), None);
    assert_eq!(rt; part_len(&[3], three), None);
    Ok(())
}
