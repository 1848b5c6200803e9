//! Maps of extents.

use extent_map::ExtentMap;
use std::alloc::{AllocError, Global};

/// Puts an entry where there is room for one.
fn put(map: &mut ExtentMap, ino: u64, block: u32, at: u32) -> Option<u32> {
    if map.len() < map.total() {
        map.put(ino, block, at)
    } else {
        None
    }
}

/// A map with the blocks 1, 7 and 9 of file 2, and block 0 of file 5.
fn made(alloc: Global) -> Result<ExtentMap, AllocError> {
    let mut map = ExtentMap::new(alloc, 8)?;
    let _ = put(&mut map, 2, 9, 32);
    let _ = put(&mut map, 5, 0, 40);
    let _ = put(&mut map, 2, 1, 30);
    let _ = put(&mut map, 2, 7, 31);
    Ok(map)
}

fn finds(map: &ExtentMap) -> bool {
    map.len() == 4
        && map.lookup(2, 1) == Some(30)
        && map.lookup(2, 7) == Some(31)
        && map.lookup(5, 0) == Some(40)
        && map.lookup(2, 0) == None
        && map.lookup(5, 1) == None
}

#[test]
fn a_map_tells_what_was_put(rt: HostRuntime) -> Result<(), AllocError> {
    let map = made(rt.alloc())?;
    assert!(rt; finds(&map));
    Ok(())
}

fn goes_on(map: &ExtentMap) -> bool {
    map.next(2, 0) == Some((1, 30))
        && map.next(2, 2) == Some((7, 31))
        && map.next(2, 9) == Some((9, 32))
        && map.next(2, 10) == None
        && map.next(3, 0) == None
}

#[test]
fn the_next_entry_is_of_the_same_file(rt: HostRuntime) -> Result<(), AllocError> {
    let map = made(rt.alloc())?;
    assert!(rt; goes_on(&map));
    Ok(())
}

/// Whether a second put tells where the block lay, and takes its place.
fn is_put_again(map: &mut ExtentMap) -> bool {
    put(map, 2, 7, 50) == Some(31) && map.lookup(2, 7) == Some(50) && map.len() == 4
}

#[test]
fn a_second_put_takes_the_place_of_the_first(rt: HostRuntime) -> Result<(), AllocError> {
    let mut map = made(rt.alloc())?;
    assert!(rt; is_put_again(&mut map));
    Ok(())
}

fn is_punched(alloc: Global, map: &mut ExtentMap) -> Result<bool, AllocError> {
    let none = map.punch(alloc, 2, 2, 7)?;
    let some = map.punch(alloc, 2, 1, 9)?;
    Ok(
        none.as_slice().is_empty()
            && some.as_slice() == [30, 31].as_slice()
            && map.len() == 2
            && map.next(2, 0) == Some((9, 32)),
    )
}

#[test]
fn a_punch_takes_its_range_alone(rt: HostRuntime) -> Result<(), AllocError> {
    let mut map = made(rt.alloc())?;
    assert!(rt; is_punched(rt.alloc(), &mut map)?);
    Ok(())
}

fn is_cut(alloc: Global, map: &mut ExtentMap) -> Result<bool, AllocError> {
    let cut = map.cut(alloc, 2, 7)?;
    Ok(
        cut.as_slice() == [31, 32].as_slice()
            && map.lookup(2, 1) == Some(30)
            && map.lookup(5, 0) == Some(40)
            && map.len() == 2,
    )
}

#[test]
fn a_cut_leaves_what_is_before(rt: HostRuntime) -> Result<(), AllocError> {
    let mut map = made(rt.alloc())?;
    assert!(rt; is_cut(rt.alloc(), &mut map)?);
    Ok(())
}

fn is_cleared(map: &mut ExtentMap) -> bool {
    map.clear_range(2, 2, 9) == 1
        && map.next(2, 2) == Some((9, 32))
        && map.clear(2, 0) == 2
        && map.clear(2, 0) == 0
        && map.next(2, 0) == None
        && map.lookup(5, 0) == Some(40)
        && map.len() == 1
}

#[test]
fn a_clear_tells_how_many(rt: HostRuntime) -> Result<(), AllocError> {
    let mut map = made(rt.alloc())?;
    assert!(rt; is_cleared(&mut map));
    Ok(())
}
