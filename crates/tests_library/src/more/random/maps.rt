//! Maps of both kinds beside std's.
use rpds_faults::Numbers;
use rpds_hash::map::hash_trie_map::HashTrieMap;
use rpds_tree::map::red_black_tree_map::RedBlackTreeMap;
use std::alloc::AllocError;
use std::collections::BTreeMap;
use std::process::Abort;

type Model = BTreeMap<u64, u64>;

// A map of numbers of either kind.
trait NumberMap: Sized + Drop {
    // Makes one call, by its number.
    fn change(&mut self, key: u64, value: u64, kind: u64) -> Result<Option<u64>, AllocError>;

    fn share(&self) -> Result<Self, AllocError>;

    fn value(&self, key: u64) -> Option<u64>;

    fn count(&self) -> usize;
}

// The value after an update.
fn next(old: Option<&u64>, value: u64) -> u64 {
    match old {
        Some(old) => old.wrapping_mul(3).wrapping_add(value),
        None => value,
    }
}

// What the key has after an alteration: nothing, or the value after an update.
fn altered(old: Option<&u64>, value: u64) -> Option<u64> {
    if value % 3 == 0 {
        None
    } else {
        Some(next(old, value))
    }
}

// Whether a pair stays.
fn stays(key: u64, old: u64, value: u64) -> bool {
    (key ^ old) % 8 != value % 8
}

// The pairs that are put in together: one key comes twice.
fn pairs(key: u64, value: u64) -> [(u64, u64); 3] {
    [
        (key, value),
        (key / 2, value.wrapping_add(1)),
        (key, value.wrapping_add(2)),
    ]
}

// Nothing was handed out.
fn nothing(answer: Result<(), AllocError>) -> Result<Option<u64>, AllocError> {
    match answer {
        Ok(()) => Ok(None),
        Err(error) => Err(error),
    }
}

// What was handed out takes the map's place.
fn put<M: Drop>(map: &mut M, made: Result<M, AllocError>) -> Result<Option<u64>, AllocError> {
    match made {
        Ok(made) => {
            *map = made;
            Ok(None)
        }
        Err(error) => Err(error),
    }
}

impl NumberMap for HashTrieMap<u64, u64> {
    fn change(&mut self, key: u64, value: u64, kind: u64) -> Result<Option<u64>, AllocError> {
        match kind % 10 {
            0 => nothing(self.retain(|key, old| stays(*key, *old, value))),
            1 => self.take(&key),
            2 => self.replace(key, value),
            3 | 4 => nothing(self.extend(pairs(key, value))),
            5 | 6 => nothing(self.update_mut(key, |old| Ok(next(old, value)))),
            7 => nothing(self.alter_mut(key, |old| Ok(altered(old, value)))),
            8 => {
                let made = self.alter(key, |old| Ok(altered(old, value)));
                put(self, made)
            }
            _ => {
                let made = self.update(key, |old| Ok(next(old, value)));
                put(self, made)
            }
        }
    }

    fn share(&self) -> Result<Self, AllocError> {
        self.clone()
    }

    fn value(&self, key: u64) -> Option<u64> {
        self.get(&key).copied()
    }

    fn count(&self) -> usize {
        self.size()
    }
}

impl NumberMap for RedBlackTreeMap<u64, u64> {
    fn change(&mut self, key: u64, value: u64, kind: u64) -> Result<Option<u64>, AllocError> {
        match kind % 10 {
            0 => nothing(self.retain(|key, old| stays(*key, *old, value))),
            1 => self.take(&key),
            2 => self.replace(key, value),
            3 | 4 => nothing(self.extend(pairs(key, value))),
            5 | 6 => nothing(self.update_mut(key, |old| Ok(next(old, value)))),
            7 => nothing(self.alter_mut(key, |old| Ok(altered(old, value)))),
            8 => {
                let made = self.alter(key, |old| Ok(altered(old, value)));
                put(self, made)
            }
            _ => {
                let made = self.update(key, |old| Ok(next(old, value)));
                put(self, made)
            }
        }
    }

    fn share(&self) -> Result<Self, AllocError> {
        RedBlackTreeMap::clone(self)
    }

    fn value(&self, key: u64) -> Option<u64> {
        self.get(&key).copied()
    }

    fn count(&self) -> usize {
        self.size()
    }
}

// Puts a pair into std's map, which hands out the old value.
fn put_into_model(rt: &impl Abort, model: &mut Model, key: u64, value: u64) -> Option<u64> {
    let stored: Result<_, _> = model.insert(key, value);
    match stored {
        Ok(old) => old,
        Err(_) => {
            assert!(rt; false);
            None
        }
    }
}

// The same call of std's map.
fn change_model(
    rt: &impl Abort,
    model: &mut Model,
    key: u64,
    value: u64,
    kind: u64,
) -> Option<u64> {
    match kind % 10 {
        0 => {
            model.retain(|key, old| stays(*key, *old, value));
            None
        }
        1 => model.remove(&key),
        2 => put_into_model(rt, model, key, value),
        3 | 4 => {
            for (key, value) in pairs(key, value) {
                put_into_model(rt, model, key, value);
            }
            None
        }
        7 | 8 => {
            match altered(model.get(&key), value) {
                Some(new) => put_into_model(rt, model, key, new),
                None => model.remove(&key),
            };
            None
        }
        _ => {
            let new = next(model.get(&key), value);
            put_into_model(rt, model, key, new);
            None
        }
    }
}

// Both have the same pairs.
fn assert_same<M: NumberMap>(rt: &impl Abort, map: &M, model: &Model, keys: u64) {
    assert!(rt; map.count() == model.len());
    for key in 0..keys {
        assert!(rt; map.value(key) == model.get(&key).copied());
    }
}

// Calls, after which a version from before them has the pairs that it had.
fn calls<M: NumberMap>(
    rt: &impl Abort,
    map: &mut M,
    model: &mut Model,
    numbers: &mut Numbers,
    keys: u64,
) {
    let older = map.share().expect(rt, "ample memory");
    let before = model.clone().expect(rt, "ample memory");
    for _ in 0..60u64 {
        let (key, value, kind) = (numbers.next() % keys.max(1), numbers.next(), numbers.next());
        let old = map.change(key, value, kind).expect(rt, "ample memory");
        assert!(rt; old == change_model(rt, model, key, value, kind));
    }
    assert_same(rt, map, model, keys);
    assert_same(rt, &older, &before, keys);
}

// Calls among few keys, and among many.
fn run<M: NumberMap>(rt: &impl Abort, map: M, model: Model) {
    let mut numbers = Numbers::new();
    let mut map = map;
    let mut model = model;
    for keys in [2, 20, 200, 20, 200, 2] {
        calls(rt, &mut map, &mut model, &mut numbers, keys);
    }
}

#[test]
fn a_hashed_map_agrees_with_std(rt: HostRuntime) {
    run(&rt, HashTrieMap::new(rt.alloc()), BTreeMap::new(rt.alloc()));
}

#[test]
fn an_ordered_map_agrees_with_std(rt: HostRuntime) {
    run(
        &rt,
        RedBlackTreeMap::new(rt.alloc()),
        BTreeMap::new(rt.alloc()),
    );
}
