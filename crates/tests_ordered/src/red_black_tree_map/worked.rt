//! Worked rows.
use crate::red_black_tree_map::keys::Tagged;
use crate::red_black_tree_map::scenarios::{copied, numbers_to, put};
use rpds_faults::texts_are;
use rpds_list::list::List;
use rpds_tree::map::red_black_tree_map::RedBlackTreeMap;
use std::alloc::Global;
use std::cell::Cell;
use std::io;
use std::iter::Extend;
use std::process::Abort;

// Counts the key, and in `made` each value that is made for one.
fn count(rt: &impl Abort, counts: &mut RedBlackTreeMap<u64, u64>, key: u64, made: &Cell<u64>) {
    let count = counts.get_or_insert_with(key, || {
        made.set(made.get().wrapping_add(1));
        Ok(0)
    });
    match count {
        Ok(count) => *count = count.wrapping_add(1),
        Err(_) => panic!(rt; "ample memory"),
    }
}

// The value of a key is made once, and the version before keeps what it had.
#[test]
fn filled(rt: HostRuntime) {
    let mut counts = numbers_to(&rt, rt.alloc(), 1);
    let before = copied(&rt, &counts);
    let made = Cell::new(0u64);
    for key in [3u64, 1, 3, 3, 2, 1] {
        count(&rt, &mut counts, key, &made);
    }
    let text = format!(in rt.alloc(); "{before} {counts}").expect(&rt, "ample memory");
    assert!(rt; text.as_str() == "{1: 10} {1: 12, 2: 1, 3: 3}" && made.get() == 2);
}

// Of several pairs of one key the last one stays.
#[test]
fn collected(rt: HostRuntime) {
    let pairs = [(3u64, 30u64), (1, 10), (2, 99), (2, 20)];
    let wanted = numbers_to(&rt, rt.alloc(), 3);
    assert!(rt; RedBlackTreeMap::from_iter(rt.alloc(), pairs).is_ok_and(|map| map == wanted));
    assert!(rt; RedBlackTreeMap::from_array(rt.alloc(), pairs).is_ok_and(|map| map == wanted));
}

// By references to keys and values, in the order in which they come.
#[test]
fn extended_by_copies(rt: HostRuntime) {
    let mut map = numbers_to(&rt, rt.alloc(), 1);
    let more = numbers_to(&rt, rt.alloc(), 3);
    Extend::extend(&mut map, &more).expect(&rt, "ample memory");
    assert!(rt; map == more);
}

// Doubles the value of a key.
fn double(map: &mut RedBlackTreeMap<u64, u64>, key: u64) -> io::Result<()> {
    let value = map.value_mut(&key)?;
    *value = value.wrapping_mul(2);
    Ok(())
}

fn sorted(alloc: Global, pairs: &[(u64, u64)]) -> io::Result<RedBlackTreeMap<u64, u64>> {
    let pairs = pairs.iter().copied().collect(alloc)?;
    Ok(RedBlackTreeMap::from_sorted(alloc, pairs)?)
}

// What `?` makes of an error where the result is an `io::Result`.
#[test]
fn errors_of_io(rt: HostRuntime) {
    let mut map = numbers_to(&rt, rt.alloc(), 2);
    assert!(rt; double(&mut map, 2).is_ok() && map.get(&2).copied() == Some(40));
    assert!(rt; double(&mut map, 3).is_err_and(|e| e.kind() == io::ErrorKind::NotFound));
    let turned = sorted(rt.alloc(), &[(2, 0), (1, 0)]);
    assert!(rt; turned.is_err_and(|e| e.kind() == io::ErrorKind::InvalidInput));
    assert!(rt; sorted(rt.alloc(), &[(1, 0), (2, 0)]).is_ok_and(|map| map.size() == 2));
}

#[test]
fn text(rt: HostRuntime) {
    let none = numbers_to(&rt, rt.alloc(), 0);
    let map = numbers_to(&rt, rt.alloc(), 2);
    let found = texts_are(
        rt.alloc(),
        (&none, &map, &map),
        "{} {1: 10, 2: 20} {  1:  10,   2:  20}",
        "{} {1: 10, 2: 20} {\n    1: 10,\n    2: 20,\n}",
    );
    assert!(rt; found == Ok(true));
}

// Keys have a text of their own. A list is less where its first item is, or where it ends.
#[test]
fn keyed_by_lists(rt: HostRuntime) {
    let one = List::from_iter(rt.alloc(), [2u64]).expect(&rt, "ample memory");
    let two = List::from_iter(rt.alloc(), [1u64, 5]).expect(&rt, "ample memory");
    let mut map = RedBlackTreeMap::new(rt.alloc());
    put(&rt, &mut map, one, 1u64);
    put(&rt, &mut map, two, 2);
    put(&rt, &mut map, List::new(rt.alloc()), 0);
    let text = format!(in rt.alloc(); "{map} {map:3}").expect(&rt, "ample memory");
    let wanted = "{[]: 0, [1, 5]: 2, [2]: 1} {[]:   0, [  1,   5]:   2, [  2]:   1}";
    assert!(rt; text.as_str() == wanted);
}

// The one pair of the map has the tag and the value.
fn assert_stored(rt: &impl Abort, map: &RedBlackTreeMap<Tagged, u64>, tag: char, value: u64) {
    assert!(rt; map.size() == 1);
    match map.get_key_value(&Tagged { id: 1, tag: 'c' }) {
        Some((key, stored)) => assert!(rt; key.tag == tag && *stored == value),
        None => panic!(rt; "the key is lost"),
    }
}

#[test]
fn an_equal_key_takes_the_place_of_the_stored_one(rt: HostRuntime) {
    let mut map = RedBlackTreeMap::new(rt.alloc());
    put(&rt, &mut map, Tagged { id: 1, tag: 'a' }, 10u64);
    put(&rt, &mut map, Tagged { id: 1, tag: 'b' }, 20);
    assert_stored(&rt, &map, 'b', 20);
    match map.value_mut(&Tagged { id: 1, tag: 'd' }) {
        Ok(value) => *value = 30,
        Err(_) => panic!(rt; "no value to write to"),
    }
    assert_stored(&rt, &map, 'b', 30);
}
