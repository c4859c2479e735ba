//! Two hashed maps or sets made one, and values made anew, beside std's.
use rpds_faults::Numbers;
use rpds_hash::map::hash_trie_map::HashTrieMap;
use rpds_hash::set::hash_trie_set::HashTrieSet;
use rpds_tree::map::red_black_tree_map::RedBlackTreeMap;
use std::alloc::{AllocError, Global};
use std::cell::Cell;
use std::process::Abort;

// Up to fifty numbers below 64.
fn some_numbers(rt: &impl Abort, alloc: Global, numbers: &mut Numbers) -> Vec<u64> {
    let mut some = Vec::new(alloc);
    for _ in 0..numbers.next() % 50 {
        some.push(numbers.next() % 64).expect(rt, "ample memory");
    }
    some
}

fn set_of(rt: &impl Abort, alloc: Global, numbers: &[u64]) -> HashTrieSet<u64> {
    let mut set = HashTrieSet::new(alloc);
    set.extend(numbers.iter().copied())
        .expect(rt, "ample memory");
    set
}

// The map in which each of the numbers has ten times itself, and `more`.
fn map_of(rt: &impl Abort, alloc: Global, numbers: &[u64], more: u64) -> HashTrieMap<u64, u64> {
    let mut map = HashTrieMap::new(alloc);
    let pairs = numbers.iter().map(|number| (*number, number.wrapping_mul(10).wrapping_add(more)));
    map.extend(pairs).expect(rt, "ample memory");
    map
}

// The sets that four operators make of two.
fn combined(
    set: &HashTrieSet<u64>,
    other: &HashTrieSet<u64>,
) -> Result<[HashTrieSet<u64>; 4], AllocError> {
    Ok([
        (set | other)?,
        (set & other)?,
        (set - other)?,
        (set ^ other)?,
    ])
}

// Which of them have a number, by where it is.
fn should_have(left: bool, right: bool) -> [bool; 4] {
    [left || right, left && right, left && !right, left != right]
}

// Each number below 64 is in the sets that should have it, which have no others.
fn assert_combined(rt: &impl Abort, left: &[u64], right: &[u64], sets: &[HashTrieSet<u64>; 4]) {
    let mut counts = [0usize; 4];
    for number in 0..64u64 {
        let wanted = should_have(left.contains(&number), right.contains(&number));
        for (place, set) in sets.iter().enumerate() {
            let is_wanted = wanted.get(place).copied().unwrap_or(false);
            assert!(rt; set.contains(&number) == is_wanted);
            if let Some(count) = counts.get_mut(place) {
                *count = count.wrapping_add(usize::from(is_wanted));
            }
        }
    }
    for (count, set) in counts.iter().zip(sets.iter()) {
        assert!(rt; *count == set.size());
    }
}

#[test]
fn two_sets_are_combined(rt: HostRuntime) {
    let mut numbers = Numbers::new();
    for _ in 0..40u64 {
        let left = some_numbers(&rt, rt.alloc(), &mut numbers);
        let right = some_numbers(&rt, rt.alloc(), &mut numbers);
        let sets = combined(
            &set_of(&rt, rt.alloc(), &left),
            &set_of(&rt, rt.alloc(), &right),
        )
        .expect(&rt, "ample memory");
        assert_combined(&rt, &left, &right, &sets);
    }
}

// What the union has for a number.
fn wanted_of(left: &[u64], right: &[u64], number: u64) -> Option<u64> {
    if left.contains(&number) {
        Some(number.wrapping_mul(10))
    } else if right.contains(&number) {
        Some(number.wrapping_mul(10).wrapping_add(1))
    } else {
        None
    }
}

#[test]
fn the_union_of_two_maps_has_the_pairs_of_the_first(rt: HostRuntime) {
    let mut numbers = Numbers::new();
    for _ in 0..40u64 {
        let left = some_numbers(&rt, rt.alloc(), &mut numbers);
        let right = some_numbers(&rt, rt.alloc(), &mut numbers);
        let map = map_of(&rt, rt.alloc(), &left, 0);
        let both = map
            .union(&map_of(&rt, rt.alloc(), &right, 1))
            .expect(&rt, "ample memory");
        for number in 0..64u64 {
            assert!(rt; both.get(&number).copied() == wanted_of(&left, &right, number));
        }
    }
}

// Whether it is over 100.
fn is_high(value: &u64) -> Result<bool, AllocError> {
    Ok(*value > 100)
}

#[test]
fn each_value_is_made_anew(rt: HostRuntime) {
    let mut numbers = Numbers::new();
    let some = some_numbers(&rt, rt.alloc(), &mut numbers);
    let map = map_of(&rt, rt.alloc(), &some, 0);
    let mut ordered: RedBlackTreeMap<u64, u64> = RedBlackTreeMap::new(rt.alloc());
    ordered
        .extend(map.iter().map(|(key, value)| (*key, *value)))
        .expect(&rt, "ample memory");
    let high = map.map_values(is_high).expect(&rt, "ample memory");
    let high_in_order = ordered.map_values(is_high).expect(&rt, "ample memory");
    for number in 0..64u64 {
        let wanted = some.contains(&number).then_some(number > 10);
        assert!(rt; high.get(&number).copied() == wanted);
        assert!(rt; high_in_order.get(&number).copied() == wanted);
    }
}

// Counts a call, and answers the value.
fn counted(calls: &Cell<u64>, value: u64) -> Result<u64, AllocError> {
    calls.set(calls.get().wrapping_add(1));
    Ok(value)
}

// The even numbers below 200, each under its half.
fn halves(rt: &impl Abort, alloc: Global) -> Vec<(u64, u64)> {
    let mut pairs = Vec::new(alloc);
    for half in 0..100u64 {
        pairs
            .push((half, half.wrapping_mul(2)))
            .expect(rt, "ample memory");
    }
    pairs
}

#[test]
fn a_change_is_called_once_a_value_of_a_hashed_map(rt: HostRuntime) {
    let map: HashTrieMap<u64, u64> = HashTrieMap::from_iter(
        rt.alloc(),
        halves(&rt, rt.alloc()),
    ).expect(&rt, "ample memory");
    let calls = Cell::new(0);
    let same = map
        .map_values(|value: &u64| counted(&calls, *value))
        .expect(&rt, "ample memory");
    assert!(rt; same == map && calls.get() == 100);
}

#[test]
fn a_change_is_called_once_a_value_of_an_ordered_map(rt: HostRuntime) {
    let map = RedBlackTreeMap::from_iter(rt.alloc(), halves(&rt, rt.alloc())).expect(
        &rt,
        "ample memory",
    );
    let calls = Cell::new(0);
    let same = map
        .map_values(|value: &u64| counted(&calls, *value))
        .expect(&rt, "ample memory");
    assert!(rt; same == map && calls.get() == 100);
}

// One side changed the keys 1 and 4, both changed 2 alike, and 3 and 5 otherwise.
const BASE: [(u64, u64); 5] = [(1, 1), (2, 2), (3, 3), (4, 4), (5, 5)];

const OURS: [(u64, u64); 4] = [(1, 10), (2, 20), (3, 30), (4, 4)];

const THEIRS: [(u64, u64); 5] = [(1, 1), (2, 20), (3, 31), (4, 41), (5, 51)];

// The merge, where each conflict is settled by 0.
const MERGED: [(u64, u64); 5] = [(1, 10), (2, 20), (3, 0), (4, 41), (5, 0)];

// The union of ours and theirs, where each common key has 0.
const UNITED: [(u64, u64); 5] = [(1, 0), (2, 0), (3, 0), (4, 0), (5, 51)];

fn ordered_of(rt: &impl Abort, alloc: Global, pairs: &[(u64, u64)]) -> RedBlackTreeMap<u64, u64> {
    RedBlackTreeMap::from_iter(alloc, pairs.iter().copied()).expect(rt, "ample memory")
}

fn hashed_of(rt: &impl Abort, alloc: Global, pairs: &[(u64, u64)]) -> HashTrieMap<u64, u64> {
    HashTrieMap::from_iter(alloc, pairs.iter().copied()).expect(rt, "ample memory")
}

// What was made is as wanted, and its closure was called so often.
fn assert_made<M: PartialEq>(
    rt: &impl Abort,
    (made, wanted): (&M, &M),
    (calls, times): (&Cell<u64>, u64),
) {
    assert!(rt; *made == *wanted);
    assert!(rt; calls.get() == times);
}

#[test]
fn a_merge_of_ordered_maps_asks_once_a_conflict(rt: HostRuntime) {
    let calls = Cell::new(0);
    let ours = ordered_of(&rt, rt.alloc(), &OURS);
    let theirs = ordered_of(&rt, rt.alloc(), &THEIRS);
    let merged = ordered_of(&rt, rt.alloc(), &BASE)
        .merge(
            &ours,
            &theirs,
            |_: &u64, _: Option<&u64>, _: Option<&u64>, _: Option<&u64>| {
                Ok(Some(counted(&calls, 0)?))
            },
        )
        .expect(&rt, "ample memory");
    let wanted = ordered_of(&rt, rt.alloc(), &MERGED);
    assert_made(&rt, (&merged, &wanted), (&calls, 2));
}

#[test]
fn a_merge_of_hashed_maps_asks_once_a_conflict(rt: HostRuntime) {
    let calls = Cell::new(0);
    let ours = hashed_of(&rt, rt.alloc(), &OURS);
    let theirs = hashed_of(&rt, rt.alloc(), &THEIRS);
    let merged = hashed_of(&rt, rt.alloc(), &BASE)
        .merge(
            &ours,
            &theirs,
            |_: &u64, _: Option<&u64>, _: Option<&u64>, _: Option<&u64>| {
                Ok(Some(counted(&calls, 0)?))
            },
        )
        .expect(&rt, "ample memory");
    let wanted = hashed_of(&rt, rt.alloc(), &MERGED);
    assert_made(&rt, (&merged, &wanted), (&calls, 2));
}

#[test]
fn a_union_of_ordered_maps_asks_once_a_common_key(rt: HostRuntime) {
    let calls = Cell::new(0);
    let theirs = ordered_of(&rt, rt.alloc(), &THEIRS);
    let united = ordered_of(&rt, rt.alloc(), &OURS)
        .union_with(&theirs, |_: &u64, _: &u64, _: &u64| counted(&calls, 0))
        .expect(&rt, "ample memory");
    let wanted = ordered_of(&rt, rt.alloc(), &UNITED);
    assert_made(&rt, (&united, &wanted), (&calls, 4));
}

#[test]
fn a_union_of_hashed_maps_asks_once_a_common_key(rt: HostRuntime) {
    let calls = Cell::new(0);
    let theirs = hashed_of(&rt, rt.alloc(), &THEIRS);
    let united = hashed_of(&rt, rt.alloc(), &OURS)
        .union_with(&theirs, |_: &u64, _: &u64, _: &u64| counted(&calls, 0))
        .expect(&rt, "ample memory");
    let wanted = hashed_of(&rt, rt.alloc(), &UNITED);
    assert_made(&rt, (&united, &wanted), (&calls, 4));
}
