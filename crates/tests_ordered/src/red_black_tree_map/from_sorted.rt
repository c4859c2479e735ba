//! Maps built of sorted lists: worked rows, keys that count their own comparisons, and allocations counted.
use crate::red_black_tree_map::compared::{CountingMap, change_counting};
use crate::red_black_tree_map::keys::CountingKey;
use rpds_faults::{FailingAllocator, requests};
use rpds_tree::map::red_black_tree_map::RedBlackTreeMap;
use rpds_tree::sorted::SortedError;
use std::alloc::{Allocator, Global};
use std::cell::Cell;
use std::process::Abort;

// The numbers, each with ten times itself.
fn pairs_of<A: Allocator + Copy>(rt: &impl Abort, alloc: A, numbers: &[u64]) -> Vec<(u64, u64), A> {
    let mut pairs = Vec::new(alloc);
    for number in numbers {
        pairs
            .push((*number, number.wrapping_mul(10)))
            .expect(rt, "ample memory");
    }
    pairs
}

// Where the numbers don't ascend.
fn first_out_of_order(rt: &impl Abort, alloc: Global, numbers: &[u64]) -> Option<usize> {
    let pairs = pairs_of(rt, alloc, numbers);
    match RedBlackTreeMap::from_sorted(alloc, pairs) {
        Err(SortedError::NotAscending(place)) => Some(place),
        _ => None,
    }
}

const LISTS: [(&[u64], Option<usize>); 6] = [
    (&[1, 2, 2, 3], Some(2)),
    (&[3, 1], Some(1)),
    (&[1, 2, 3, 5, 4], Some(4)),
    (&[1, 2, 3, 5], None),
    (&[7], None),
    (&[], None),
];

#[test]
fn lists_out_of_order(rt: HostRuntime) {
    for (numbers, place) in LISTS {
        assert!(rt; first_out_of_order(&rt, rt.alloc(), numbers) == place);
    }
}

// The map of so many even numbers, from 2, each with itself. Each key but the first is compared with the one before it.
fn even_numbers<'a>(
    rt: &impl Abort,
    alloc: Global,
    size: u64,
    compared: &'a Cell<u64>,
) -> CountingMap<'a> {
    let mut pairs = Vec::new(alloc);
    for half in 1..=size {
        let number = half.wrapping_mul(2);
        pairs
            .push((CountingKey { number, compared }, number))
            .expect(rt, "ample memory");
    }
    compared.set(0);
    let map = RedBlackTreeMap::from_sorted(alloc, pairs);
    assert!(rt; compared.get() == size.saturating_sub(1));
    map.expect(rt, "a sorted list")
}

// The most keys that a look-up compares in the map of so many even numbers, of those and of the odd ones beside them.
fn most_of_look_ups(rt: &impl Abort, alloc: Global, size: u64) -> u64 {
    let compared = Cell::new(0u64);
    let map = even_numbers(rt, alloc, size, &compared);
    let mut most = 0u64;
    for number in 1..=size.wrapping_mul(2).wrapping_add(1) {
        compared.set(0);
        let key = CountingKey {
            number,
            compared: &compared,
        };
        let there = map.get(&key).copied() == Some(number);
        assert!(rt; there == (number % 2 == 0));
        most = most.max(compared.get());
    }
    most
}

// One key more than the logarithm.
#[test]
fn look_ups_compare_few_keys(rt: HostRuntime) {
    assert!(rt; most_of_look_ups(&rt, rt.alloc(), 0) == 0);
    for size in 1..130u64 {
        assert!(rt; most_of_look_ups(&rt, rt.alloc(), size) == u64::from(size.ilog2()) + 1);
    }
    for (size, most) in [(1000u64, 10u64), (1023, 10), (1024, 11)] {
        assert!(rt; most_of_look_ups(&rt, rt.alloc(), size) == most);
    }
}

// Puts the odd numbers into the map of so many even ones, and takes those out. Each call compares at most as many keys as
// it does in any map of that size.
fn assert_changes(rt: &impl Abort, alloc: Global, size: u64) {
    let compared = Cell::new(0u64);
    let mut map = even_numbers(rt, alloc, size, &compared);
    for half in 0..=size {
        let odd = half.wrapping_mul(2).wrapping_add(1);
        change_counting(rt, &mut map, odd, 0, &compared);
    }
    for half in 1..=size {
        change_counting(rt, &mut map, half.wrapping_mul(2), 2, &compared);
    }
    assert!(rt; map.size() as u64 == size.wrapping_add(1));
}

#[test]
fn changes_of_a_built_map_compare_few_keys(rt: HostRuntime) {
    for size in 0..33u64 {
        assert_changes(&rt, rt.alloc(), size);
    }
    for size in [63u64, 64, 127, 128, 255, 256] {
        assert_changes(&rt, rt.alloc(), size);
    }
}

// The requests for a map of the numbers, which rise.
fn building_requests(rt: &impl Abort, alloc: &FailingAllocator<Global>, numbers: &[u64]) -> u64 {
    let pairs = pairs_of(rt, alloc, numbers);
    let _before = requests(alloc);
    assert!(rt; RedBlackTreeMap::from_sorted(alloc, pairs).is_ok());
    requests(alloc)
}

#[test]
fn two_allocations_a_pair(rt: HostRuntime) {
    let alloc = FailingAllocator::new(rt.alloc());
    let mut numbers = Vec::new(rt.alloc());
    for number in 0..40u64 {
        assert!(rt; building_requests(&rt, &alloc, &numbers) == 2 * number);
        numbers.push(number).expect(&rt, "ample memory");
    }
}
