//! Hashed maps.
use crate::cases::Cases;
use crate::keyed::{self, Keyed, Map};
use crate::one_hash::OneHashBuild;
use crate::subject::{Start, Subject};
use rpds_hash::identity_build::IdentityBuild;
use rpds_hash::map::hash_trie_map::HashTrieMap;
use std::alloc::{AllocError, Global};
use std::io;

type Numbers = HashTrieMap<u64, u64, IdentityBuild>;

impl Subject for Numbers {
    fn empty(alloc: Global) -> Self {
        HashTrieMap::new_with_hasher(alloc, IdentityBuild {})
    }

    fn put(&mut self, number: u64) -> Result<(), AllocError> {
        self.insert_mut(number, number)
    }

    fn copied(&self) -> Result<Self, AllocError> {
        self.clone()
    }
}

impl Keyed for Numbers {
    fn insert(&self, key: u64) -> Result<Self, AllocError> {
        self.insert(key, key)
    }

    fn find(&self, key: &u64) -> u64 {
        self.get(key).copied().unwrap_or(0)
    }

    fn remove(&self, key: &u64) -> Result<Self, AllocError> {
        self.remove(key)
    }

    fn remove_mut(&mut self, key: &u64) -> Result<bool, AllocError> {
        self.remove_mut(key)
    }

    fn sum(&self) -> u64 {
        let mut sum = 0u64;
        for (key, value) in self.iter() {
            sum = sum.wrapping_add(*key ^ *value);
        }
        sum
    }
}

impl Map for Numbers {
    fn write(&mut self, key: &u64) -> Result<(), AllocError> {
        let Ok(value) = self.value_mut(key) else {
            return Err(AllocError);
        };
        *value = 7;
        Ok(())
    }

    fn count(&mut self, key: u64) -> Result<(), AllocError> {
        self.alter_mut(key, |old| Ok(keyed::next(old)))
    }
}

// A map whose keys all have one hash.
type Colliding = HashTrieMap<u64, u64, OneHashBuild>;

impl Subject for Colliding {
    fn empty(alloc: Global) -> Self {
        HashTrieMap::new_with_hasher(alloc, OneHashBuild {})
    }

    fn put(&mut self, number: u64) -> Result<(), AllocError> {
        self.insert_mut(number, number)
    }

    fn copied(&self) -> Result<Self, AllocError> {
        self.clone()
    }
}

/// The cases of hashed maps.
pub fn run(cases: &Cases<'_>) -> io::Result<()> {
    keyed::run_map::<Numbers>(cases)
        .and(run_whole(cases))
        .and(run_two(cases))
        .and(cases.changes(
            "get_or_insert_with stored",
            Start::Own,
            &cases.keys.shuffled,
            |map: &mut Numbers, key| {
                let value = map.get_or_insert_with(key, || Ok(7))?;
                *value = 8;
                Ok(())
            },
        ))
}

// The cases of a whole map.
fn run_whole(cases: &Cases<'_>) -> io::Result<()> {
    cases
        .whole("retain half", &[], |map: &mut Numbers, _| {
            map.retain(|key, _| *key % 2 == 0)
        })
        .and(cases.whole("map_values", &[], |map: &mut Numbers, _| {
            map.map_values(|value| Ok(*value))
        }))
}

// The cases of two maps. A merge takes the other map's changes of this one.
fn run_two(cases: &Cases<'_>) -> io::Result<()> {
    let keys = &cases.keys.shuffled;
    cases
        .whole(
            "union_with stored",
            keys,
            |map: &mut Numbers, other: &Numbers| { map.union_with(other, |_, ours, _| Ok(*ours)) },
        )
        .and(cases.whole("merge stored", keys, |map: &mut Numbers, other: &Numbers| {
            let map: &Numbers = map;
            map.merge(map, other, |_, _, ours, _| Ok(ours.copied()))
        }))
        .and(cases.call("diff stored", keys, |map: Numbers, other: &Numbers| {
            Ok((changes(&map, other), map))
        }))
}

fn changes(map: &Numbers, other: &Numbers) -> u64 {
    let mut count = 0u64;
    for _ in map.diff(other) {
        count = count.wrapping_add(1);
    }
    count
}

/// The cases of a hashed map whose keys all have one hash. Each takes a step for each of them.
pub fn run_colliding(cases: &Cases<'_>) -> io::Result<()> {
    let keys = cases.keys;
    cases
        .looks("get colliding", &keys.shuffled, |map: &Colliding, key| {
            map.get(key).copied().unwrap_or(0)
        })
        .and(cases.changes(
            "insert_mut colliding",
            Start::Empty,
            &keys.stored,
            |map: &mut Colliding, key| { map.put(key) },
        ))
}
