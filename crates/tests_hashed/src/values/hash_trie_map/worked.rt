//! Worked rows.
use crate::values::hash_trie_map::counted::looked_up;
use crate::values::hash_trie_map::keys::{Colliding, Tagged};
use crate::values::hash_trie_map::scenarios::{map_of, put, take_out};
use rpds_core::steps::Steps;
use rpds_faults::texts_are;
use rpds_hash::identity_build::IdentityBuild;
use rpds_hash::map::hash_trie_map::HashTrieMap;
use std::alloc::Global;
use std::cell::Cell;
use std::iter::Extend;
use std::process::Abort;

// A degree, and the keys in the order in which they are put in and in that of a walk.
type Row = (u8, [u64; 2], [u64; 2]);

const WALKS: [Row; 3] = [
    (64, [65, 1], [1, 65]),
    (64, [1 << 60, 0], [0, 1 << 60]),
    (2, [1 << 63, 0], [0, 1 << 63]),
];

#[test]
fn walks(rt: HostRuntime) {
    for (degree, keys, [first, second]) in WALKS {
        let map = map_of(&rt, rt.alloc(), degree, &keys);
        let mut walk = map.keys();
        assert!(rt; walk.next() == Some(&first));
        assert!(rt; walk.next() == Some(&second));
        assert!(rt; walk.next().is_none() && walk.next().is_none());
    }
}

// In the order of the iterator: by the lowest digit in which two hashes differ.
#[test]
fn text(rt: HostRuntime) {
    let none = map_of(&rt, rt.alloc(), 64, &[]);
    let map = map_of(&rt, rt.alloc(), 64, &[65, 1]);
    let found = texts_are(
        rt.alloc(),
        (&none, &map, &map),
        "{} {1: 10, 65: 650} {  1:  10,  65: 650}",
        "{} {1: 10, 65: 650} {\n    1: 10,\n    65: 650,\n}",
    );
    assert!(rt; found == Ok(true));
}

const LAST: u64 = 0x7000_0000_0000_0008;

type CollidingMap = HashTrieMap<Colliding, u64, IdentityBuild>;

// The keys of hashes 0x26, 0x16 and 0x42, and two of one hash.
fn five_keys() -> [Colliding; 5] {
    [(0x26, 0), (0x16, 0), (0x42, 0), (LAST, 1), (LAST, 2)].map(|(hash, tag)| Colliding {
        hash,
        tag,
    })
}

fn five(rt: &impl Abort, alloc: Global) -> CollidingMap {
    let mut map = HashTrieMap::new_with_hasher_and_degree(alloc, IdentityBuild {}, 16);
    for key in five_keys() {
        put(rt, &mut map, key, key.hash);
    }
    map
}

// The walk gives these hashes in this order.
fn assert_hashes(rt: &impl Abort, map: &CollidingMap, hashes: &[u64]) {
    let mut walk = map.keys();
    for hash in hashes {
        assert!(rt; walk.next().map(|key| key.hash) == Some(*hash));
    }
    assert!(rt; walk.next().is_none());
}

#[test]
fn a_walk_with_two_keys_of_one_hash(rt: HostRuntime) {
    let mut map = five(&rt, rt.alloc());
    assert_hashes(&rt, &map, &[0x42, 0x16, 0x26, LAST, LAST]);
    for key in &five_keys() {
        assert!(rt; looked_up(&map, key, &mut Steps::new()));
    }
    let [_, _, _, one, other] = five_keys();
    assert!(rt; take_out(&rt, &mut map, &other));
    assert_hashes(&rt, &map, &[0x42, 0x16, 0x26, LAST]);
    assert!(rt; looked_up(&map, &one, &mut Steps::new()) && !map.contains_key(&other));
}

// The one pair of the map has the tag and the value.
fn assert_stored(rt: &impl Abort, map: &HashTrieMap<Tagged, u64>, tag: char, value: u64) {
    assert!(rt; map.size() == 1);
    match map.get_key_value(&Tagged { id: 1, tag: 'c' }) {
        Some((key, stored)) => assert!(rt; key.tag == tag && *stored == value),
        None => panic!(rt; "the key is lost"),
    }
}

#[test]
fn an_equal_key_takes_the_place_of_the_stored_one(rt: HostRuntime) {
    let mut map = HashTrieMap::new(rt.alloc());
    put(&rt, &mut map, Tagged { id: 1, tag: 'a' }, 10u64);
    put(&rt, &mut map, Tagged { id: 1, tag: 'b' }, 20);
    assert_stored(&rt, &map, 'b', 20);
    match map.value_mut(&Tagged { id: 1, tag: 'd' }) {
        Ok(value) => *value = 30,
        Err(_) => panic!(&rt; "no value to write to"),
    }
    assert_stored(&rt, &map, 'b', 30);
}

// Of several pairs of one key the last one stays.
#[test]
fn collected(rt: HostRuntime) {
    let pairs = [(3u64, 30u64), (1, 10), (2, 99), (2, 20)];
    let made = HashTrieMap::<u64, u64>::from_iter(rt.alloc(), pairs).expect(&rt, "ample memory");
    assert!(rt; made.size() == 3 && made.get(&2).copied() == Some(20));
    assert!(rt; made.get(&1).copied() == Some(10) && made.get(&3).copied() == Some(30));
    let same = HashTrieMap::<u64, u64>::from_array(rt.alloc(), pairs).expect(&rt, "ample memory");
    assert!(rt; same == made);
}

// The value of a key is made once, and the version before keeps what it had.
#[test]
fn filled(rt: HostRuntime) {
    let mut counts = map_of(&rt, rt.alloc(), 64, &[1]);
    let before = counts.clone().expect(&rt, "ample memory");
    let made = Cell::new(0u64);
    for key in [3u64, 1, 3, 3, 2, 1] {
        let count = counts.get_or_insert_with(key, || {
            made.set(made.get().wrapping_add(1));
            Ok(0)
        });
        match count {
            Ok(count) => *count = count.wrapping_add(1),
            Err(_) => panic!(rt; "ample memory"),
        }
    }
    let text = format!(in rt.alloc(); "{before} {counts}").expect(&rt, "ample memory");
    assert!(rt; text.as_str() == "{1: 10} {1: 12, 2: 1, 3: 3}" && made.get() == 2);
}

// The stored key stays where it is there.
#[test]
fn filled_where_a_key_is_stored(rt: HostRuntime) {
    let mut map = HashTrieMap::new(rt.alloc());
    for tag in ['a', 'b'] {
        match map.get_or_insert_with(Tagged { id: 1, tag }, || Ok(10u64)) {
            Ok(value) => *value = value.wrapping_add(1),
            Err(_) => panic!(&rt; "ample memory"),
        }
    }
    assert_stored(&rt, &map, 'a', 12);
}

// A value that has no clone.
#[derive(Drop)]
struct Uncloned {
    number: u64,
}

fn uncloned_of(
    rt: &impl Abort,
    mut map: HashTrieMap<u64, Uncloned>,
    first: (u64, u64),
    second: (u64, u64),
) -> HashTrieMap<u64, Uncloned> {
    put(rt, &mut map, first.0, Uncloned { number: first.1 });
    put(rt, &mut map, second.0, Uncloned { number: second.1 });
    map
}

fn number_of(map: &HashTrieMap<u64, Uncloned>, key: u64) -> Option<u64> {
    map.get(&key).map(|value| value.number)
}

// Of two degrees, so that pairs go over one by one.
#[test]
fn united_without_clones(rt: HostRuntime) {
    let ours = HashTrieMap::new_with_degree(rt.alloc(), 4);
    let ours = uncloned_of(&rt, ours, (1, 10), (2, 20));
    let theirs = uncloned_of(&rt, HashTrieMap::new(rt.alloc()), (2, 21), (3, 31));
    let both = ours.union(&theirs).expect(&rt, "ample memory");
    assert!(rt; both.size() == 3 && number_of(&both, 1) == Some(10));
    assert!(rt; number_of(&both, 2) == Some(20) && number_of(&both, 3) == Some(31));
}

// By std's trait.
#[test]
fn extended(rt: HostRuntime) {
    let mut map = map_of(&rt, rt.alloc(), 64, &[1, 2]);
    let pairs = [(2u64, 7u64), (3, 30), (3, 31)];
    Extend::extend(&mut map, pairs).expect(&rt, "ample memory");
    assert!(rt; map.size() == 3 && map.get(&1).copied() == Some(10));
    assert!(rt; map.get(&2).copied() == Some(7) && map.get(&3).copied() == Some(31));
}

// By references to keys and values.
#[test]
fn extended_by_copies(rt: HostRuntime) {
    let mut map = map_of(&rt, rt.alloc(), 64, &[1, 2]);
    let before = map.clone().expect(&rt, "ample memory");
    let more = map_of(&rt, rt.alloc(), 64, &[3]);
    Extend::extend(&mut map, &more).expect(&rt, "ample memory");
    assert!(rt; map.size() == 3 && map.get(&3).copied() == Some(30));
    assert!(rt; before.size() == 2);
}
