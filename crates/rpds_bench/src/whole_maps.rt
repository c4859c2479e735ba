//! Ordered maps as wholes: positions, parts, and two maps in one.
use crate::cases::Cases;
use crate::red_black_tree_map::hundred_from;
use rpds_tree::map::red_black_tree_map::RedBlackTreeMap;
use std::alloc::AllocError;
use std::io;
use std::ops::Bound;

type Map = RedBlackTreeMap<u64, u64>;

/// The cases of positions, of parts and of two maps.
pub fn run(cases: &Cases<'_>) -> io::Result<()> {
    run_positions(cases)
        .and(run_parts(cases))
        .and(run_two(cases))
}

fn run_positions(cases: &Cases<'_>) -> io::Result<()> {
    let keys = cases.keys;
    cases
        .looks("nth", &keys.shuffled_positions, |map: &Map, position| {
            value_of(map.nth(*position))
        })
        .and(cases.looks(
            "rank",
            &keys.shuffled,
            |map: &Map, key| map.rank(key) as u64,
        ))
        .and(cases.looks("range_len", &keys.shuffled, |map: &Map, key| {
            map.range_len(Bound::Included(key), Bound::Unbounded) as u64
        }))
        .and(cases.looks("floor absent", &keys.absent, |map: &Map, key| {
            value_of(map.floor(key))
        }))
}

fn value_of(pair: Option<(&u64, &u64)>) -> u64 {
    match pair {
        Some((_, value)) => *value,
        None => 0,
    }
}

fn run_parts(cases: &Cases<'_>) -> io::Result<()> {
    let keys = &cases.keys.shuffled;
    cases
        .looks("split", keys, |map: &Map, key| match map.split(key) {
            Ok(split) => split.below.size() as u64,
            Err(_) => 0,
        })
        .and(cases.looks("subrange of 100", keys, |map: &Map, key| {
            let last = hundred_from(map, key);
            size_of(map.subrange(Bound::Included(key), Bound::Included(&last)))
        }))
        .and(cases.looks("without_range of 100", keys, |map: &Map, key| {
            let last = hundred_from(map, key);
            size_of(map.without_range(Bound::Included(key), Bound::Included(&last)))
        }))
}

fn size_of(made: Result<Map, AllocError>) -> u64 {
    match made {
        Ok(map) => map.size() as u64,
        Err(_) => 0,
    }
}

fn run_two(cases: &Cases<'_>) -> io::Result<()> {
    let keys = cases.keys;
    cases
        .whole("union absent", &keys.absent, |map: &mut Map, other: &Map| {
            map.union(other)
        })
        .and(cases.whole(
            "intersection stored",
            &keys.shuffled,
            |map: &mut Map, other: &Map| map.intersection(other),
        ))
        .and(cases.whole(
            "difference absent",
            &keys.absent,
            |map: &mut Map, other: &Map| map.difference(other),
        ))
        .and(cases.whole(
            "diff stored",
            &keys.shuffled,
            |map: &mut Map, other: &Map| { Ok(changes(map, other)) },
        ))
}

fn changes(map: &Map, other: &Map) -> u64 {
    let mut count = 0u64;
    for _ in map.diff(other) {
        count = count.wrapping_add(1);
    }
    count
}
