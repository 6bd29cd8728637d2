//! Values are found under their numbers, in whatever order these come and go.
use number_map::NumberMap;
use std::alloc::{AllocError, Global};
use std::test::Fail;

/// A map of these values under these numbers.
fn filled(alloc: Global, pairs: &[(u64, u64)]) -> Result<NumberMap<u64>, AllocError> {
    let mut map = NumberMap::new(alloc);
    for (number, value) in pairs {
        map.insert(*number, *value)?;
    }
    Ok(map)
}

#[test]
fn a_value_is_removed_once(rt: HostRuntime) -> Result<(), Fail> {
    let mut map = filled(rt.alloc(), &[(3, 30), (4, 40), (9, 90), (5, 50), (1, 10)])?;
    for (number, removed) in [(4, Some(40)), (3, Some(30)), (3, None), (9, Some(90))] {
        assert_eq!(rt; map.remove(number), removed);
    }
    assert_eq!(rt; map.get(5).copied(), Some(50));
    assert_eq!(rt; map.get(4).copied(), None);
    Ok(())
}

#[test]
fn a_value_is_replaced(rt: HostRuntime) -> Result<(), Fail> {
    let mut map = filled(rt.alloc(), &[(5, 50), (1, 10)])?;
    map.insert(5, 55)?;
    if let Some(value) = map.get_mut(1) {
        *value = 11;
    }
    assert_eq!(rt; map.get(1).copied(), Some(11));
    assert_eq!(rt; map.get(5).copied(), Some(55));
    Ok(())
}

#[test]
fn values_come_by_rising_numbers(rt: HostRuntime) -> Result<(), Fail> {
    let mut map = filled(rt.alloc(), &[(3, 30), (4, 40), (9, 80), (1, 10)])?;
    assert_eq!(rt; map.remove(4), Some(40));
    map.insert(9, 90)?;
    let mut found = Vec::new(rt.alloc());
    for (number, value) in map.iter() {
        found.push((number, *value))?;
    }
    assert!(rt; found.as_slice() == [(1u64, 10u64), (3, 30), (9, 90)].as_slice());
    Ok(())
}
