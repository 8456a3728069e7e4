// Examples, and the edges: no columns, all 16, columns that are not there.
use super::*;
use std::cmp::Ordering;
use std::test::Fail;

// The set of a number, or the empty one.
fn set(bits: u64) -> ColumnSet {
    Width::new(16)
        .and_then(|width| ColumnSet::from_bits(bits, width))
        .unwrap_or(ColumnSet::empty())
}

#[test]
fn numbers_in_and_out(rt: HostRuntime) {
    assert_eq!(rt; Width::new(0).map(Width::columns), None);
    assert_eq!(rt; Width::new(1).map(Width::columns), Some(1));
    assert_eq!(rt; Width::new(16).map(Width::columns), Some(16));
    assert_eq!(rt; Width::new(17).map(Width::columns), None);
    assert_eq!(rt; Column::new(15).map(Column::index), Some(15));
    assert_eq!(rt; Column::new(16).map(Column::index), None);
    assert_eq!(rt; ColumnSet::empty().bits(), 0);
}

#[test]
fn sets_of_a_table(rt: HostRuntime) -> Result<(), Fail> {
    let six = Width::new(6).ok_or_else(|| Fail::new("six columns"))?;
    let five = Column::new(5).ok_or_else(|| Fail::new("column 5"))?;
    assert_eq!(rt; ColumnSet::all(six).bits(), 63);
    assert_eq!(rt; ColumnSet::from_bits(64, six).map(ColumnSet::bits), None);
    assert_eq!(rt;
        ColumnSet::from_bits(63, six).map(ColumnSet::bits),
        Some(63)
    );
    assert_eq!(rt; ColumnSet::single(five).bits(), 32);
    assert!(rt; set(32).contains(five));
    assert!(rt; !set(31).contains(five));
    assert_eq!(rt; set(33).with(five).bits(), 33);
    assert_eq!(rt; set(33).without(five).bits(), 1);
    Ok(())
}

#[test]
fn combining(rt: HostRuntime) {
    assert_eq!(rt; set(5).union(set(6)).bits(), 7);
    assert_eq!(rt; set(5).intersection(set(6)).bits(), 4);
    assert_eq!(rt; set(5).difference(set(6)).bits(), 1);
    assert!(rt; set(4).is_subset(set(6)));
    assert!(rt; !set(6).is_subset(set(4)));
}

// 0, then 0 1, then 0 2, then 1: numbers 1, 3, 5, 2; and the empty set before all.
#[test]
fn in_order(rt: HostRuntime) {
    assert!(rt; set(0).precedes(set(1)));
    assert!(rt; set(1).precedes(set(3)));
    assert!(rt; !set(3).precedes(set(1)));
    assert!(rt; set(3).precedes(set(5)));
    assert!(rt; set(5).precedes(set(2)));
    assert!(rt; !set(5).precedes(set(5)));
    assert!(rt; set(1).cmp(&set(3)) == Ordering::Less);
    assert!(rt; set(3).cmp(&set(1)) == Ordering::Greater);
    assert!(rt; set(5).cmp(&set(5)) == Ordering::Equal);
    assert!(rt; set(1).partial_cmp(&set(3)) == Some(Ordering::Less));
    assert!(rt; set(2) > set(5));
}

#[test]
fn walked_and_shown(rt: HostRuntime) -> Result<(), Fail> {
    let mut rest = set(32778);
    assert_eq!(rt; rest.take_first().map(Column::index), Some(1));
    assert_eq!(rt; rest.take_first().map(Column::index), Some(3));
    assert_eq!(rt; rest.bits(), 32768);
    assert_eq!(rt; rest.take_first().map(Column::index), Some(15));
    assert_eq!(rt; rest.take_first().map(Column::index), None);
    let text = set(32778).to_string(rt.alloc())?;
    assert!(rt; text.as_str() == "1 3 15");
    let none = set(0).to_string(rt.alloc())?;
    assert!(rt; none.as_str() == "");
    Ok(())
}
