// Examples, and the edges of reading: no columns and 17, no rules and 32, a cut row, a set with a column too many.
use super::*;
use columns::{Column, ColumnSet, Width};
use std::test::Fail;

// The refusal's number and its place, or none.
fn told<T: Drop>(r: Result<T, Refusal>) -> Option<(u64, u64)> {
    r.err().map(|refusal| (refusal.number(), refusal.place()))
}

#[test]
fn refusals(rt: HostRuntime) {
    assert_eq!(rt; told(read_rules(&[])), Some((1, 0)));
    assert_eq!(rt; told(read_rules(&[0, 0])), Some((1, 0)));
    assert_eq!(rt; told(read_rules(&[17, 0])), Some((1, 0)));
    assert_eq!(rt; told(read_rules(&[6])), Some((2, 0)));
    assert_eq!(rt; told(read_rules(&[6, 33])), Some((2, 33)));
    assert_eq!(rt; told(read_rules(&[6, 1, 1])), Some((2, 1)));
    assert_eq!(rt; told(read_rules(&[6, 2, 1, 2, 64, 64])), Some((3, 2)));
    assert_eq!(rt; told(read_rules(&[6, 2, 1, 2, 3, 64])), Some((3, 3)));
    assert_eq!(rt; told(read_rules(&[6, 2, 1, 2, 3, 63])), None);
    assert_eq!(rt; told(read_rules(&[16, 1, 65535, 0])), None);
    assert_eq!(rt; told(read_rules(&[1, 0])), None);
}

// The numbers that the crates above tell, written out: those of the conditions, and those of rows that are put in or taken out.
#[test]
fn numbers_and_places(rt: HostRuntime) {
    assert_eq!(rt; Condition::Covers.number(), 1);
    assert_eq!(rt; Condition::NoneInside.number(), 2);
    assert_eq!(rt; Condition::Lossless.number(), 3);
    assert_eq!(rt; Condition::RulesKept.number(), 4);
    assert_eq!(rt; Condition::ThirdForm.number(), 5);
    assert_eq!(rt;
        told::<()>(Err(Refusal::NotADesign(Condition::Covers))),
        Some((6, 1))
    );
    assert_eq!(rt; told::<()>(Err(Refusal::Cells(5))), Some((7, 5)));
    assert_eq!(rt; told::<()>(Err(Refusal::Present)), Some((8, 0)));
    assert_eq!(rt;
        told::<()>(Err(Refusal::Broken { part: 1, rule: 0 })),
        Some((9, 64))
    );
    assert_eq!(rt; told::<()>(Err(Refusal::Absent)), Some((10, 0)));
    assert_eq!(rt; told::<()>(Err(Refusal::PartFull(2))), Some((11, 2)));
}

#[test]
fn many_rules(rt: HostRuntime) {
    let mut lent = [1u64; 66];
    lent[0] = 16;
    lent[1] = 32;
    assert_eq!(rt; told(read_rules(&lent)), None);
    assert_eq!(rt; told(read_rules(&lent[0..65])), Some((2, 32)));
    lent[65] = 65536;
    assert_eq!(rt; told(read_rules(&lent)), Some((3, 63)));
}

#[test]
fn bytes(rt: HostRuntime) {
    assert_eq!(rt; told(rules_from_bytes(&[])), Some((1, 0)));
    assert_eq!(rt; told(rules_from_bytes(&[6])), Some((2, 0)));
    assert_eq!(rt; told(rules_from_bytes(&[6, 1, 1, 0, 2])), Some((2, 1)));
    assert_eq!(rt; told(rules_from_bytes(&[6, 1, 1, 0, 0, 1])), Some((3, 1)));
    assert_eq!(rt; told(rules_from_bytes(&[9, 1, 1, 0, 0, 1, 7])), None);
    let mut many = [1; 130];
    many[0] = 16;
    many[1] = 32;
    assert_eq!(rt; told(rules_from_bytes(&many)), None);
    assert_eq!(rt; told(rules_from_bytes(&many[0..129])), Some((2, 32)));
}

// The set on which two rows against it agree, or none where it follows; or the refusal's number and its place.
fn asked(lent: &[u64], left: u64, right: u64) -> Result<Option<u64>, (u64, u64)> {
    match follows_from(lent, left, right) {
        Ok(Implication::Follows) => Ok(None),
        Ok(Implication::Against(agree)) => Ok(Some(agree.bits())),
        Err(refusal) => Err((refusal.number(), refusal.place())),
    }
}

// 0 organ, 1 parish, 2 diocese, 3 builder, 4 tuner, 5 day.
const ORGANS: [u64; 10] = [6, 4, 1, 10, 2, 4, 48, 1, 33, 16];

#[test]
fn implications(rt: HostRuntime) {
    assert_eq!(rt; asked(&ORGANS, 1, 15), Ok(None));
    assert_eq!(rt; asked(&ORGANS, 1, 2), Ok(None));
    assert_eq!(rt; asked(&ORGANS, 1, 16), Ok(Some(15)));
    assert_eq!(rt; asked(&ORGANS, 33, 63), Ok(None));
    assert_eq!(rt; asked(&ORGANS, 16, 1), Ok(Some(16)));
    assert_eq!(rt; asked(&ORGANS, 64, 1), Err((3, 8)));
    assert_eq!(rt; asked(&ORGANS, 1, 64), Err((3, 9)));
    assert_eq!(rt; asked(&[6, 1, 0, 2], 0, 2), Ok(None));
    assert_eq!(rt; asked(&[6, 1, 0, 2], 0, 4), Ok(Some(2)));
    assert_eq!(rt; asked(&[6, 1, 1, 0], 1, 2), Ok(Some(1)));
    assert_eq!(rt; asked(&[6, 0], 5, 4), Ok(None));
    // A later rule feeds an earlier one, so that one pass is not enough.
    assert_eq!(rt; asked(&[3, 2, 2, 4, 1, 2], 1, 4), Ok(None));
}

#[test]
fn fixed_or_not(rt: HostRuntime) -> Result<(), Fail> {
    let organs = read_rules(&ORGANS)?;
    let set = |bits| ColumnSet::from_bits(bits, organs.width()).unwrap_or(ColumnSet::empty());
    assert!(rt; fixes(organs.rules(), set(1), set(15)));
    assert!(rt; !fixes(organs.rules(), set(15), set(16)));
    assert!(rt; fixes(organs.rules(), set(2), set(4)));
    assert!(rt; fixes(organs.rules(), set(0), set(0)));
    Ok(())
}

#[test]
fn rows_against(rt: HostRuntime) -> Result<(), Fail> {
    let width = Width::new(6).ok_or_else(|| Fail::new("six columns"))?;
    let rows = two_rows(ColumnSet::from_bits(16, width).unwrap_or(ColumnSet::empty()));
    assert!(rt; rows.first == [0; 16]);
    assert!(rt; rows.second == [1, 1, 1, 1, 0, 1, 1, 1, 1, 1, 1, 1, 1, 1, 1, 1]);
    Ok(())
}

// A row has 0 where it has no cell, so that a short row and a long one may agree.
#[test]
fn rows_compared(rt: HostRuntime) -> Result<(), Fail> {
    let width = Width::new(6).ok_or_else(|| Fail::new("six columns"))?;
    let two = Column::new(2).ok_or_else(|| Fail::new("column 2"))?;
    assert_eq!(rt; cell(&[5, 6, 7], two), 7);
    assert_eq!(rt; cell(&[5, 6], two), 0);
    let set = |bits| ColumnSet::from_bits(bits, width).unwrap_or(ColumnSet::empty());
    assert!(rt; agrees(set(5), &[1, 2], &[1, 1, 0]));
    assert!(rt; !agrees(set(3), &[1, 2], &[1, 1]));
    assert!(rt; agrees(set(0), &[1], &[2]));
    assert!(rt; row_apart(set(16), 7) == [7, 7, 7, 7, 0, 7, 7, 7, 7, 7, 7, 7, 7, 7, 7, 7]);
    Ok(())
}

#[test]
fn shown(rt: HostRuntime) -> Result<(), Fail> {
    let text = Refusal::Broken { part: 2, rule: 1 }.to_string(rt.alloc())?;
    assert!(rt; text.as_str() == "refused 9 at 129");
    let rule = Rule::empty().to_string(rt.alloc())?;
    assert!(rt; rule.as_str() == ">");
    let short = Refusal::RuleCount(7).to_string(rt.alloc())?;
    assert!(rt; short.as_str() == "refused 2 at 7");
    assert_eq!(rt; Condition::ThirdForm.number(), 5);
    assert_eq!(rt; Refusal::NotADesign(Condition::Lossless).place(), 3);
    Ok(())
}
