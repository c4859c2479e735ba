//! How many keys are compared, by keys that count their own comparisons.
use crate::values::hash_trie_map::keys::CountingKey;
use crate::values::hash_trie_map::random::{change_in_place, changed};
use crate::values::hash_trie_map::scenarios::{put, take_out};
use rpds_hash::identity_build::IdentityBuild;
use rpds_hash::map::hash_trie_map::HashTrieMap;
use std::alloc::Global;
use std::cell::Cell;
use std::process::Abort;

type CountingMap<'a> = HashTrieMap<CountingKey<'a>, u64, IdentityBuild>;

// How many keys the call of this number compares: a look-up, a write, four that hand out a map, an insertion and a removal
// in place.
fn compared_by<'a>(
    rt: &impl Abort,
    map: &mut CountingMap<'a>,
    key: CountingKey<'a>,
    call: u64,
) -> u64 {
    key.compared.set(0);
    match call {
        0 => {
            let _there = map.contains_key(&key);
        }
        1 => {
            let _there = map.value_mut(&key).is_ok();
        }
        2..=5 => {
            let _made = changed(map, key, 7, call).expect(rt, "ample memory");
        }
        _ => {
            let _gone = change_in_place(map, key, 8, call).expect(rt, "ample memory");
        }
    }
    key.compared.get()
}

// Each call at a stored key compares that key at least, and each stored key of its hash at most once.
fn assert_stored<'a>(rt: &impl Abort, map: &mut CountingMap<'a>, key: CountingKey<'a>, most: u64) {
    for call in 0..7u64 {
        let came = compared_by(rt, map, key, call);
        assert!(rt; 1 <= came && came <= most);
    }
}

// No call at a key of a hash that no stored key has compares a key.
fn assert_none_compared<'a>(rt: &impl Abort, map: &mut CountingMap<'a>, key: CountingKey<'a>) {
    for call in 0..7u64 {
        assert!(rt; compared_by(rt, map, key, call) == 0);
    }
    assert!(rt; take_out(rt, map, &key));
    assert!(rt; compared_by(rt, map, key, 7) == 0);
}

// The calls on a map of degree 2 of the keys, at those and at others. Then the keys are taken out one by one: the last one
// compares itself alone.
fn assert_keys<'a>(
    rt: &impl Abort,
    alloc: Global,
    keys: &[CountingKey<'a>],
    others: &[CountingKey<'a>],
    most: u64,
) {
    let mut map = HashTrieMap::new_with_hasher_and_degree(alloc, IdentityBuild {}, 2);
    for key in keys {
        put(rt, &mut map, *key, key.tag);
    }
    for key in keys {
        assert_stored(rt, &mut map, *key, most);
    }
    for key in others {
        assert_none_compared(rt, &mut map, *key);
    }
    let mut left = most;
    for key in keys {
        assert!(rt; compared_by(rt, &mut map, *key, 7) <= left.max(1));
        left = left.saturating_sub(1);
    }
    assert!(rt; map.is_empty());
}

#[test]
fn a_hundred_keys_of_one_hash(rt: HostRuntime) {
    let compared = &Cell::new(0);
    let keys: [CountingKey; 100] = std::array::from_fn(|at| CountingKey {
        hash: 0,
        tag: at as u64,
        compared,
    });
    let others = [1, 1 << 63].map(|hash| CountingKey {
        hash,
        tag: 0,
        compared,
    });
    assert_keys(&rt, rt.alloc(), &keys, &others, 100);
}

#[test]
fn keys_of_distinct_hashes(rt: HostRuntime) {
    let compared = &Cell::new(0);
    let keys = [0, 1, 2, 65, 1 << 63, 3, 66, 1 << 62].map(|hash| CountingKey {
        hash,
        tag: 0,
        compared,
    });
    assert_keys(&rt, rt.alloc(), &keys[..5], &keys[5..], 1);
}
