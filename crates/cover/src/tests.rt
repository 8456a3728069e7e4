// Least sets of small tables, and what a lent row holds afterwards. A set is written as its number: 2^c for column c.
use crate::lent::least_set_for;
use dependencies::Refusal;
use std::process::Abort;
use std::test::Fail;

// In a row of sevens the answer stands in front, and behind it there are still sevens.
fn gives(rt: &impl Abort, rules: &[u64], answer: &[u64]) -> Result<(), Fail> {
    let mut row = [7; 2100];
    let count = least_set_for(rules, &mut row)?;
    assert_eq!(rt; 1 + 2 * count as usize, answer.len(), "of {rules:?}");
    assert!(rt; row.starts_with(answer), "of {rules:?}");
    let behind = row.iter().skip(answer.len());
    assert!(rt; behind.copied().all(|number| number == 7), "of {rules:?}");
    Ok(())
}

// 0 organ, 1 parish, 2 diocese, 3 builder, 4 tuner, 5 day: 0 fixes 1 and 3; 1 fixes 2; 4 and 5 fix 0; 0 and 5 fix 4.
#[test]
fn organs(rt: HostRuntime) -> Result<(), Fail> {
    gives(
        &rt,
        &[6, 4, 1, 10, 2, 4, 48, 1, 33, 16],
        &[5, 1, 2, 1, 8, 2, 4, 48, 1, 33, 16],
    )
}

#[test]
fn nothing_to_say(rt: HostRuntime) -> Result<(), Fail> {
    // No rules.
    gives(&rt, &[3, 0], &[0])?;
    // An empty right side.
    gives(&rt, &[2, 1, 1, 0], &[0])?;
    // A column fixes itself.
    gives(&rt, &[2, 1, 3, 1], &[0])
}

#[test]
fn empty_left_sides(rt: HostRuntime) -> Result<(), Fail> {
    gives(&rt, &[2, 1, 0, 3], &[2, 0, 1, 0, 2])?;
    // 0 is fixed, so 1 is too.
    gives(&rt, &[2, 2, 0, 1, 1, 2], &[2, 0, 1, 0, 2])
}

#[test]
fn redundant_rules(rt: HostRuntime) -> Result<(), Fail> {
    // The same rule twice.
    gives(&rt, &[2, 2, 1, 2, 1, 2], &[1, 1, 2])?;
    // 0 fixes 2 by way of 1.
    gives(&rt, &[3, 3, 1, 2, 2, 4, 1, 4], &[2, 1, 2, 2, 4])
}

// 0 and 1 fix 2 and 3, and 0 alone fixes 2: for 2 the column 1 is left out, for 3 it is not.
#[test]
fn each_right_column_by_itself(rt: HostRuntime) -> Result<(), Fail> {
    gives(&rt, &[4, 2, 3, 12, 1, 4], &[2, 3, 8, 1, 4])?;
    // Of 0 1 2 the middle one is not needed for 3, since 0 fixes it.
    gives(&rt, &[4, 2, 7, 8, 1, 2], &[2, 5, 8, 1, 2])
}

#[test]
fn short_row(rt: HostRuntime) {
    let mut row = [7; 2099];
    assert_eq!(rt;
        least_set_for(&[2, 1, 1, 2], &mut row),
        Err(Refusal::ShortRow(2099))
    );
    assert!(rt; row.iter().all(|number| *number == 7));
}

#[test]
fn rules_are_told_first(rt: HostRuntime) {
    let mut row = [7; 3];
    assert_eq!(rt; least_set_for(&[0], &mut row), Err(Refusal::Columns));
    assert_eq!(rt;
        least_set_for(&[2, 1, 1], &mut row),
        Err(Refusal::RuleCount(1))
    );
    assert_eq!(rt;
        least_set_for(&[2, 1, 1, 4], &mut row),
        Err(Refusal::Set(1))
    );
}
