//! A long run of calls beside std's map.
ghost use Rattle.std.specs.Prelude.{◌≤◌};

use crate::values::hash_trie_map::scenarios::{DEGREES, NumberMap, map_of};
use rpds_core::steps::Steps;
use rpds_faults::Numbers;
use rpds_hash::identity_build::IdentityBuild;
use rpds_hash::map::hash_trie_map::HashTrieMap;
use rpds_refusals::answer::{write_number, write_number_if_lent};
use std::alloc::{AllocError, Global};
use std::collections::HashMap;
use std::hash::Hash;
use std::process::Abort;

type Model = HashMap<u64, u64>;

// Spreads a number below 512 over the 64 bits of a hash: some keys differ in their lowest digits alone, some in their highest.
pub(crate) fn key_of(number: u64) -> u64 {
    (number % 16) | ((number / 16) << 59)
}

// Each look-up at the key finds what std's finds.
fn assert_same_at(rt: &impl Abort, map: &NumberMap, model: &Model, key: u64) {
    assert!(rt; map.get(&key) == model.get(&key));
    assert!(rt; map.get_key_value(&key) == model.get_key_value(&key));
}

// The others find that too.
fn assert_same_looks(rt: &impl Abort, map: &NumberMap, key: u64) {
    assert!(rt; map.get_counted(&key, &mut Steps::new()) == map.get_key_value(&key));
    if map.contains_key(&key) {
        assert!(rt; map.get(&key) == Some(&map[&key]));
    } else {
        assert!(rt; map.get(&key).is_none());
    }
}

// Both maps have the same pairs.
fn assert_same(rt: &impl Abort, map: &NumberMap, model: &Model, keys: u64) {
    assert!(rt; map.size() == model.len() && map.is_empty() == model.is_empty());
    for number in 0..keys {
        assert_same_at(rt, map, model, key_of(number));
        assert_same_looks(rt, map, key_of(number));
    }
}

// At the first place, from the lowest, where the digits differ, the left one's is smaller.
fn is_before(left: u64, right: u64, degree: u64) -> bool
    requires { 1 ≤ degree }
{
    let mut left = left;
    let mut right = right;
    for _ in 0..64u64 {
        if left % degree != right % degree {
            return left % degree < right % degree;
        }
        left /= degree;
        right /= degree;
    }
    false
}

// A walk gives pairs of the model alone, in the order of their digits.
fn assert_walk(rt: &impl Abort, map: &NumberMap, model: &Model, degree: u8) {
    assert!(rt; degree > 0);
    let mut last = None;
    let mut count = 0usize;
    for (key, value) in map {
        if let Some(last) = last {
            assert!(rt; is_before(last, *key, u64::from(degree)));
        }
        assert!(rt; model.get(key) == Some(value));
        last = Some(*key);
        count = count.wrapping_add(1);
    }
    assert!(rt; count == model.len());
}

// Writes the value at the key by one of two calls, and tells whether the key is there.
fn write(rt: &impl Abort, map: &mut NumberMap, key: u64, value: u64, kind: u64) -> bool {
    match kind % 2 {
        0 => write_number(map.get_mut(&key).expect(rt, "ample memory"), value),
        _ => {
            let written = write_number_if_lent(map.value_mut(&key), value);
            written.expect(rt, "ample memory")
        }
    }
}

fn write_to_model(model: &mut Model, key: u64, value: u64) -> bool {
    write_number(model.get_mut(&key), value)
}

// Puts the pair in, or takes the key out, and tells whether it took a key out.
pub(crate) fn change_in_place<K: Eq + Hash + Copy + Drop, V: Drop>(
    map: &mut HashTrieMap<K, V, IdentityBuild>,
    key: K,
    value: V,
    kind: u64,
) -> Result<bool, AllocError> {
    match kind % 2 {
        0 => nothing_taken(map.insert_mut(key, value)),
        _ => map.remove_mut(&key),
    }
}

// What a call answered that takes no key out.
fn nothing_taken(answer: Result<(), AllocError>) -> Result<bool, AllocError> {
    match answer {
        Ok(()) => Ok(false),
        Err(error) => Err(error),
    }
}

// The same by one of four calls that hand out a map.
pub(crate) fn changed<K: Eq + Hash + Copy + Drop, V: Drop>(
    map: &HashTrieMap<K, V, IdentityBuild>,
    key: K,
    value: V,
    kind: u64,
) -> Result<HashTrieMap<K, V, IdentityBuild>, AllocError> {
    let steps = &mut Steps::new();
    match kind % 4 {
        0 => map.insert(key, value),
        1 => map.remove(&key),
        2 => map.insert_counted(key, value, steps),
        _ => map.remove_counted(&key, steps),
    }
}

// What was handed out takes the receiver's place.
fn replace<S: Drop>(receiver: &mut S, made: S) {
    *receiver = made;
}

// The same in std's map.
fn change_model(rt: &impl Abort, model: &mut Model, key: u64, value: u64, kind: u64) -> bool {
    if kind % 2 == 0 {
        let stored: Result<_, _> = model.insert(key, value);
        assert!(rt; stored.is_ok());
        false
    } else {
        model.remove(&key).is_some()
    }
}

// Changes both, in place or by what a call hands out.
fn change(
    rt: &impl Abort,
    map: &mut NumberMap,
    model: &mut Model,
    key: u64,
    value: u64,
    kind: u64,
) {
    let is_gone = change_model(rt, model, key, value, kind);
    if kind & 4 == 0 {
        let found = change_in_place(map, key, value, kind).expect(rt, "ample memory");
        assert!(rt; found == is_gone);
    } else {
        let made = changed(map, key, value, kind).expect(rt, "ample memory");
        replace(map, made);
    }
}

// Calls, after which a version from before them has the pairs that it had.
fn calls(
    rt: &impl Abort,
    map: &mut NumberMap,
    model: &mut Model,
    numbers: &mut Numbers,
    keys: u64,
) {
    assert!(rt; keys > 0);
    let old = map
        .clone_counted(&mut Steps::new())
        .expect(rt, "ample memory");
    let old_model = model.clone().expect(rt, "ample memory");
    for _ in 0..60u64 {
        let key = key_of(numbers.next() % keys);
        change(rt, map, model, key, numbers.next(), numbers.next());
        let place = key_of(numbers.next() % keys);
        let found = write(rt, map, place, key, numbers.next());
        assert!(rt; found == write_to_model(model, place, key));
    }
    assert_same(rt, map, model, keys);
    assert_same(rt, &old, &old_model, keys);
}

// Calls among `keys` keys at the degree.
fn run(rt: &impl Abort, alloc: Global, degree: u8, keys: u64) {
    let mut numbers = Numbers::new();
    let mut map = map_of(rt, alloc, degree, &[]);
    let mut model = HashMap::new(alloc);
    for _ in 0..3u64 {
        calls(rt, &mut map, &mut model, &mut numbers, keys);
        assert_walk(rt, &map, &model, degree);
    }
}

// Among so few keys as two, the map is empty at times.
#[test]
fn agrees_with_std_map(rt: HostRuntime) {
    for degree in DEGREES {
        run(&rt, rt.alloc(), degree, 64);
    }
    run(&rt, rt.alloc(), 16, 2);
}
