// Examples, and the edges: no items, as many as there is room for.
use super::*;
use std::alloc::AllocError;

#[test]
fn pushed(rt: HostRuntime) {
    let mut list: Bounded<u16, 3> = Bounded::new(9);
    assert_eq!(rt; list.as_slice().len(), 0);
    list.push(4);
    list.push(5);
    assert!(rt; list.as_slice() == [4, 5].as_slice());
    list.extend_from_slice(&[6]);
    assert!(rt; list.as_slice() == [4, 5, 6].as_slice());
    list.extend_from_slice(&[]);
    assert_eq!(rt; list.as_slice().len(), 3);
}

#[test]
fn retained(rt: HostRuntime) {
    let mut list: Bounded<u16, 4> = Bounded::new(0);
    list.extend_from_slice(&[7, 2, 9, 4]);
    list.retain(|x| *x > 3);
    assert!(rt; list.as_slice() == [7, 9, 4].as_slice());
    list.retain(|x| *x > 9);
    assert_eq!(rt; list.as_slice().len(), 0);
}

#[test]
fn copied(rt: HostRuntime) -> Result<(), AllocError> {
    let mut list: Bounded<u16, 3> = Bounded::new(9);
    list.extend_from_slice(&[4, 5]);
    let clone = list.clone()?;
    let copy = list;
    list.push(6);
    assert!(rt; clone.as_slice() == [4, 5].as_slice());
    assert!(rt; copy.as_slice() == [4, 5].as_slice());
    Ok(())
}
