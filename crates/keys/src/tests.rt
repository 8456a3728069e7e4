// The edges: no rules, empty left sides, many keys, and rows with room for all keys or for one less.
use crate::{KeysLine, candidate_keys, first_key};
use columns::{ColumnSet, Width};
use dependencies::{Refusal, read_rules};
use std::test::Fail;

// Columns 0 organ, 1 parish, 2 diocese, 3 builder, 4 tuner, 5 day: 0 fixes 1 and 3, 1 fixes 2, 4 and 5 fix 0, 0 and 5 fix 4.
const ORGANS: [u64; 10] = [6, 4, 0x01, 0x0a, 0x02, 0x04, 0x30, 0x01, 0x21, 0x10];

// Some sets of 8 of 16 columns, in the order of sets.
const EIGHTS: [u64; 32] = [
    0x542f, 0x4e0f, 0x0a77, 0x8b47, 0x287b, 0x3a33, 0x44bd, 0x583d, 0x1c5d, 0x9875, 0xa4d5, 0x8795,
    0xe685, 0x3e31, 0xb361, 0xdd21, 0x3476, 0xc936, 0xac56, 0x8796, 0xf416, 0xe1c6, 0x0afa, 0xe34a,
    0xe1b2, 0x792c, 0xad4c, 0xe8b4, 0x2de4, 0xa7b0, 0xeab0, 0xaf90,
];

#[test]
fn organs(rt: HostRuntime) -> Result<(), Fail> {
    let mut row = [7; 3];
    assert_eq!(rt; candidate_keys(&ORGANS, 63, &mut row), Ok(2));
    assert_eq!(rt; row, [33, 48, 7]);
    // Keys of a part: tuner and day fix the organ, organ and day the tuner.
    assert_eq!(rt; candidate_keys(&ORGANS, 0x31, &mut row), Ok(2));
    assert_eq!(rt; candidate_keys(&ORGANS, 0x07, &mut row), Ok(1));
    assert_eq!(rt; row, [1, 48, 7]);
    let rules = read_rules(&ORGANS)?;
    let target = ColumnSet::all(rules.width());
    assert_eq!(rt; first_key(rules.rules(), target).bits(), 33);
    Ok(())
}

#[test]
fn room(rt: HostRuntime) {
    let mut row = [7; 2];
    assert_eq!(rt;
        candidate_keys(&ORGANS, 63, &mut row[..0]),
        Err(Refusal::KeyRoom(0))
    );
    assert_eq!(rt;
        candidate_keys(&ORGANS, 63, &mut row[..1]),
        Err(Refusal::KeyRoom(1))
    );
    assert_eq!(rt; row, [33, 7]);
    assert_eq!(rt; candidate_keys(&ORGANS, 63, &mut row), Ok(2));
    assert_eq!(rt; row, [33, 48]);
}

#[test]
fn refused(rt: HostRuntime) {
    let mut row = [7; 2];
    assert_eq!(rt; candidate_keys(&[0, 0], 0, &mut row), Err(Refusal::Columns));
    assert_eq!(rt;
        candidate_keys(&[3, 1, 1], 0, &mut row),
        Err(Refusal::RuleCount(1))
    );
    assert_eq!(rt;
        candidate_keys(&[3, 1, 1, 8], 8, &mut row),
        Err(Refusal::Set(1))
    );
    assert_eq!(rt;
        candidate_keys(&[3, 1, 1, 2], 8, &mut row),
        Err(Refusal::Set(2))
    );
    assert_eq!(rt; row, [7, 7]);
}

// Without rules a set is its only key; and what an empty left side fixes is in none.
#[test]
fn few_rules(rt: HostRuntime) {
    let mut row = [9; 1];
    assert_eq!(rt; candidate_keys(&[3, 0], 5, &mut row), Ok(1));
    assert_eq!(rt; row, [5]);
    assert_eq!(rt; candidate_keys(&[3, 0], 0, &mut row), Ok(1));
    assert_eq!(rt; row, [0]);
    assert_eq!(rt; candidate_keys(&[3, 2, 0, 3, 1, 4], 7, &mut row), Ok(1));
    assert_eq!(rt; row, [0]);
    assert_eq!(rt; candidate_keys(&[3, 1, 0, 3], 7, &mut row), Ok(1));
    assert_eq!(rt; row, [4]);
}

// Each column of a pair fixes the other: a key has one of each pair.
#[test]
fn pairs(rt: HostRuntime) -> Result<(), Fail> {
    let mut lent = [0; 34];
    lent[0] = 16;
    lent[1] = 16;
    for (i, rules) in lent[2..].chunks_exact_mut(4).enumerate() {
        let low = 1 << (2 * i);
        rules.copy_from_slice(&[low, 2 * low, 2 * low, low]);
    }
    let mut short = [0; 255];
    assert_eq!(rt;
        candidate_keys(&lent, 0xffff, &mut short),
        Err(Refusal::KeyRoom(255))
    );
    assert_eq!(rt; short[254], 0x6aaa);
    let mut row = [0; 256];
    assert_eq!(rt; candidate_keys(&lent, 0xffff, &mut row), Ok(256));
    assert_eq!(rt; row[0], 0x5555);
    assert_eq!(rt; row[255], 0xaaaa);
    Ok(())
}

#[test]
fn eights(rt: HostRuntime) -> Result<(), Fail> {
    let mut lent = [0xffff; 66];
    lent[0] = 16;
    lent[1] = 32;
    for (rule, left) in lent[2..].chunks_exact_mut(2).zip(EIGHTS.iter().rev()) {
        rule[0] = *left;
    }
    let mut row = [0; 32];
    assert_eq!(rt; candidate_keys(&lent, 0xffff, &mut row), Ok(32));
    assert_eq!(rt; row, EIGHTS);
    Ok(())
}

#[test]
fn shown(rt: HostRuntime) -> Result<(), Fail> {
    let width = Width::new(6).ok_or_else(|| Fail::new("six columns"))?;
    let line = KeysLine {
        width,
        keys: &[33, 64, 48],
    }
    .to_string(rt.alloc())?;
    assert!(rt; line.as_str() == "keys 0 5; 4 5");
    let none = KeysLine { width, keys: &[] }.to_string(rt.alloc())?;
    assert!(rt; none.as_str() == "keys");
    Ok(())
}
