//! A long run of calls beside std's map.
use rpds_core::steps::Steps;
use rpds_faults::Numbers;
use rpds_refusals::answer::{write_number, write_number_if_lent};
use rpds_tree::map::red_black_tree_map::RedBlackTreeMap;
use std::alloc::{AllocError, Global};
use std::collections::BTreeMap;
use std::ops::Bound;
use std::process::Abort;

pub(crate) type NumberMap = RedBlackTreeMap<u64, u64>;

pub(crate) type Model = BTreeMap<u64, u64>;

// Each look-up at the key finds what std's finds.
fn assert_same_at(rt: &impl Abort, map: &NumberMap, model: &Model, key: u64) {
    assert!(rt; map.get(&key) == model.get(&key));
    assert!(rt; map.get_key_value(&key) == model.get_key_value(&key));
}

// The others find that too.
fn assert_same_looks(rt: &impl Abort, map: &NumberMap, key: u64) {
    assert!(rt; map.get_counted(&key, &mut Steps::new()) == map.get_key_value(&key));
    if map.contains_key(&key) {
        assert!(rt; map.get(&key) == Some(&map[&key]));
    } else {
        assert!(rt; map.get(&key).is_none());
    }
}

// Both maps have the same pairs.
fn assert_same(rt: &impl Abort, map: &NumberMap, model: &Model, keys: u64) {
    assert!(rt; map.size() == model.len() && map.is_empty() == model.is_empty());
    assert!(rt; map.first() == model.first_key_value());
    assert!(rt; map.last() == model.last_key_value());
    for key in 0..keys {
        assert_same_at(rt, map, model, key);
        assert_same_looks(rt, map, key);
    }
}

// A walk of the map gives the pairs of std's, and then nothing.
pub(crate) fn assert_same_walk(rt: &impl Abort, map: &NumberMap, model: &Model) {
    let mut walk = map.into_iter();
    for pair in model {
        assert!(rt; walk.next() == Some(pair));
    }
    assert!(rt; walk.next().is_none());
}

// Each pair of std's is at its position, and there is none behind the last one.
fn assert_same_positions(rt: &impl Abort, map: &NumberMap, model: &Model) {
    for (position, pair) in model.iter().enumerate() {
        assert!(rt; map.nth(position) == Some(pair));
        assert!(rt; map.nth_counted(position, &mut Steps::new()) == Some(pair));
        assert!(rt; map.rank(pair.0) == position);
        let before = map.range_len(Bound::Unbounded, Bound::Excluded(pair.0));
        assert!(rt; before == position);
    }
    assert!(rt; map.nth(model.len()).is_none());
}

// Writes the value at the key by one of four calls, and tells whether the key is there.
fn write(rt: &impl Abort, map: &mut NumberMap, key: u64, value: u64, kind: u64) -> bool {
    let steps = &mut Steps::new();
    let written = match kind % 4 {
        0 => Ok(write_number(map.get_mut(&key).expect(rt, "ample memory"), value)),
        1 => {
            let found = map.get_mut_counted(&key, steps);
            Ok(write_number(found.expect(rt, "ample memory"), value))
        }
        2 => write_number_if_lent(map.value_mut(&key), value),
        _ => write_number_if_lent(map.value_mut_counted(&key, steps), value),
    };
    written.expect(rt, "ample memory")
}

fn write_to_model(model: &mut Model, key: u64, value: u64) -> bool {
    write_number(model.get_mut(&key), value)
}

// Puts the pair in, or takes the key out, by one of four calls, and tells whether it took a key out.
pub(crate) fn change_in_place<K: Ord + Copy + Drop, V: Drop>(
    map: &mut RedBlackTreeMap<K, V>,
    key: K,
    value: V,
    kind: u64,
) -> Result<bool, AllocError> {
    let steps = &mut Steps::new();
    match kind % 4 {
        0 => nothing_taken(map.insert_mut(key, value)),
        1 => nothing_taken(map.insert_mut_counted(key, value, steps)),
        2 => map.remove_mut(&key),
        _ => map.remove_mut_counted(&key, steps),
    }
}

// What a call answered that takes no key out.
fn nothing_taken(answer: Result<(), AllocError>) -> Result<bool, AllocError> {
    match answer {
        Ok(()) => Ok(false),
        Err(error) => Err(error),
    }
}

// The same by a call that hands out a map.
pub(crate) fn changed<K: Ord + Copy + Drop, V: Drop>(
    map: &RedBlackTreeMap<K, V>,
    key: K,
    value: V,
    kind: u64,
) -> Result<RedBlackTreeMap<K, V>, AllocError> {
    let steps = &mut Steps::new();
    match kind % 4 {
        0 => map.insert(key, value),
        1 => map.insert_counted(key, value, steps),
        2 => map.remove(&key),
        _ => map.remove_counted(&key, steps),
    }
}

// What was handed out takes the receiver's place.
fn replace<S: Drop>(receiver: &mut S, made: S) {
    *receiver = made;
}

// The same in std's map.
fn change_model(rt: &impl Abort, model: &mut Model, key: u64, value: u64, kind: u64) -> bool {
    if kind % 4 < 2 {
        let stored: Result<_, _> = model.insert(key, value);
        assert!(rt; stored.is_ok());
        false
    } else {
        model.remove(&key).is_some()
    }
}

// Changes both, in place or by what a call hands out.
fn change(
    rt: &impl Abort,
    map: &mut NumberMap,
    model: &mut Model,
    key: u64,
    value: u64,
    kind: u64,
) {
    let is_gone = change_model(rt, model, key, value, kind);
    if kind & 4 == 0 {
        let found = change_in_place(map, key, value, kind).expect(rt, "ample memory");
        assert!(rt; found == is_gone);
    } else {
        let made = changed(map, key, value, kind).expect(rt, "ample memory");
        replace(map, made);
    }
}

// Two hundred calls, after which a version from before them has the pairs that it had.
fn calls(
    rt: &impl Abort,
    map: &mut NumberMap,
    model: &mut Model,
    numbers: &mut Numbers,
    keys: u64,
) {
    assert!(rt; keys > 0);
    let old = map
        .clone_counted(&mut Steps::new())
        .expect(rt, "ample memory");
    let old_model = model.clone().expect(rt, "ample memory");
    for _ in 0..100u64 {
        let key = numbers.next() % keys;
        change(rt, map, model, key, numbers.next(), numbers.next());
        let place = numbers.next() % keys;
        let found = write(rt, map, place, key, numbers.next());
        assert!(rt; found == write_to_model(model, place, key));
    }
    assert_same(rt, map, model, keys);
    assert_same_walk(rt, map, model);
    assert_same_positions(rt, map, model);
    assert_same(rt, &old, &old_model, keys);
}

// Two thousand calls among `keys` keys.
fn run(rt: &impl Abort, alloc: Global, keys: u64) {
    let mut numbers = Numbers::new();
    let mut map = RedBlackTreeMap::new(alloc);
    let mut model = BTreeMap::new(alloc);
    for _ in 0..10u64 {
        calls(rt, &mut map, &mut model, &mut numbers, keys);
    }
}

// Among so few as two, the map is empty at times.
#[test]
fn agrees_with_std_map(rt: HostRuntime) {
    run(&rt, rt.alloc(), 200);
    run(&rt, rt.alloc(), 2);
}
