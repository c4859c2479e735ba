//! Ordered maps.
use crate::cases::Cases;
use crate::keyed::{self, Keyed, Map};
use crate::subject::{Start, Subject};
use rpds_tree::map::red_black_tree_map::RedBlackTreeMap;
use std::alloc::{AllocError, Global};
use std::io;
use std::ops::Bound;

impl Subject for RedBlackTreeMap<u64, u64> {
    fn empty(alloc: Global) -> Self {
        RedBlackTreeMap::new(alloc)
    }

    fn put(&mut self, number: u64) -> Result<(), AllocError> {
        self.insert_mut(number, number)
    }

    fn copied(&self) -> Result<Self, AllocError> {
        self.clone()
    }
}

impl Keyed for RedBlackTreeMap<u64, u64> {
    fn insert(&self, key: u64) -> Result<Self, AllocError> {
        self.insert(key, key)
    }

    fn find(&self, key: &u64) -> u64 {
        self.get(key).copied().unwrap_or(0)
    }

    fn remove(&self, key: &u64) -> Result<Self, AllocError> {
        self.remove(key)
    }

    fn remove_mut(&mut self, key: &u64) -> Result<bool, AllocError> {
        self.remove_mut(key)
    }

    fn sum(&self) -> u64 {
        let mut sum = 0u64;
        for (key, value) in self.iter() {
            sum = sum.wrapping_add(*key ^ *value);
        }
        sum
    }
}

impl Map for RedBlackTreeMap<u64, u64> {
    fn write(&mut self, key: &u64) -> Result<(), AllocError> {
        let Ok(value) = self.value_mut(key) else {
            return Err(AllocError);
        };
        *value = 7;
        Ok(())
    }

    fn count(&mut self, key: u64) -> Result<(), AllocError> {
        self.alter_mut(key, |old| Ok(keyed::next(old)))
    }
}

/// The cases of ordered maps.
pub fn run(cases: &Cases<'_>) -> io::Result<()> {
    type Map = RedBlackTreeMap<u64, u64>;
    let keys = cases.keys;
    keyed::run_map::<Map>(cases)
        // Of a clone for each key, so that each call meets a root that is shared.
        .and(cases.versions(
            "remove_mut absent shared",
            Start::Own,
            &keys.absent,
            |map: &Map, key| {
                let mut shared = map.clone()?;
                shared.remove_mut(&key)?;
                Ok(None)
            },
        ))
        .and(cases.versions(
            "insert ascending",
            Start::Empty,
            &keys.positions,
            |map: &Map, position| { Ok(Some(Keyed::insert(map, position as u64)?)) },
        ))
        .and(cases.changes(
            "insert_mut ascending",
            Start::Empty,
            &keys.positions,
            |map: &mut Map, position| { map.put(position as u64) },
        ))
        .and(cases.looks("range first", &keys.shuffled, first_from))
        .and(cases.looks("range of 100", &keys.shuffled, sum_from))
        .and(cases.looks("range_of of 100", &keys.shuffled, sum_of))
        .and(run_removals(cases))
}

// Pairs that leave at the ends, and by a test.
fn run_removals(cases: &Cases<'_>) -> io::Result<()> {
    type Map = RedBlackTreeMap<u64, u64>;
    let keys = &cases.keys.stored;
    cases
        .versions(
            "pop_first",
            Start::Shared,
            keys,
            |map: &Map, _| match map.pop_first()? {
                Some((_, rest)) => Ok(Some(rest)),
                None => Ok(None),
            },
        )
        .and(cases.changes("pop_first_mut", Start::Own, keys, |map: &mut Map, _| {
            map.pop_first_mut()?;
            Ok(())
        }))
        .and(cases.changes("pop_last_mut", Start::Own, keys, |map: &mut Map, _| {
            map.pop_last_mut()?;
            Ok(())
        }))
        .and(cases.whole("retain most", &[], |map: &mut Map, _| {
            map.retain(|key, _| *key % 1024 != 0)
        }))
}

// The value of the key, as the first of a range.
fn first_from(map: &RedBlackTreeMap<u64, u64>, key: &u64) -> u64 {
    let start = Bound::Included(key);
    let end = Bound::Included(key);
    if map.range_fits(start, end)
        && let Some((_, value)) = map.range(start, end).next()
    {
        return *value;
    }
    0
}

/// The end of some 100 pairs from the key on: keys that look random lie evenly.
pub fn hundred_from(map: &RedBlackTreeMap<u64, u64>, key: &u64) -> u64 {
    let apart = u64::MAX / (map.size() as u64).max(1);
    key.saturating_add(apart.saturating_mul(100))
}

// The sum of some 100 pairs from the key on.
fn sum_from(map: &RedBlackTreeMap<u64, u64>, key: &u64) -> u64 {
    let last = hundred_from(map, key);
    let start = Bound::Included(key);
    let end = Bound::Included(&last);
    let mut sum = 0u64;
    if map.range_fits(start, end) {
        for (key, value) in map.range(start, end) {
            sum = sum.wrapping_add(*key ^ *value);
        }
    }
    sum
}

// The same by one of std's ranges.
fn sum_of(map: &RedBlackTreeMap<u64, u64>, key: &u64) -> u64 {
    let mut sum = 0u64;
    for (key, value) in map.range_of(*key..=hundred_from(map, key)) {
        sum = sum.wrapping_add(*key ^ *value);
    }
    sum
}
