// Allocations, counted.
ghost use Rattle.std.specs.Prelude.{◌≤◌, ◌<◌};

use crate::values::vector::support::counting;
use rpds_faults::{FailingAllocator, requests};
use rpds_vector::vector::Vector;
use std::process::Abort;

// Puts in 10,000 numbers, and returns how many requests a push and a drop make that hand out another vector, at each seventh
// length: what all pushes take, and all drops.
fn pushes_and_drops(rt: &impl Abort, alloc: &FailingAllocator) -> (u64, u64) {
    let mut vector = Vector::new(alloc);
    let mut pushes = 0u64;
    let mut drops = 0u64;
    for number in 0..10_000u64 {
        requests(alloc);
        if number % 7 == 0 {
            vector = vector.push_back(number).expect(rt, "ample memory");
            pushes = pushes.wrapping_add(requests(alloc));
            let _shorter = vector.drop_last().expect(rt, "ample memory");
            drops = drops.wrapping_add(requests(alloc));
        } else {
            vector.push_back_mut(number).expect(rt, "ample memory");
        }
    }
    (pushes, drops)
}

// The Rust crate makes 7.8 allocations a push, 7 a set and 5.8 a drop, on average, among up to 10,000 items.
#[test]
fn a_seventh_of_all_lengths(rt: HostRuntime) {
    let alloc = FailingAllocator::new(rt.alloc());
    let (pushes, drops) = pushes_and_drops(&rt, &alloc);
    assert!(rt; pushes <= 78_000 / 7 && drops <= 58_000 / 7);
}

#[test]
fn sets(rt: HostRuntime) {
    let alloc = FailingAllocator::new(rt.alloc());
    let vector = Vector::from_iter(&alloc, 0..10000u64).expect(&rt, "ample memory");
    requests(&alloc);
    for place in 0..1000usize {
        let changed = vector.set(place * 10, 0).expect(&rt, "ample memory");
        assert!(rt; changed.is_some());
    }
    let sets = requests(&alloc);
    assert!(rt; sets <= 7000);
}

// A push in place takes memory for the item alone, in a low trie and in a high one.
#[test]
fn a_push_in_place(rt: HostRuntime) {
    let alloc = FailingAllocator::new(rt.alloc());
    for len in [3, 1025] {
        let mut vector = counting(&alloc, 1, len).expect(&rt, "ample memory");
        requests(&alloc);
        vector.push_back_mut(9).expect(&rt, "ample memory");
        assert!(rt; requests(&alloc) == 1);
    }
}

// Lengths at five bits, and the requests of a drop that shares all nodes: two for each node of the path that stays, and none
// for a leaf or a root that goes.
const DROPS: [(u64, u64); 6] = [(1, 0), (33, 0), (65, 2), (1025, 0), (1057, 4), (1058, 6)];

#[test]
fn drops(rt: HostRuntime) {
    let alloc = FailingAllocator::new(rt.alloc());
    for (len, wanted) in DROPS {
        let old = counting(&alloc, 5, len).expect(&rt, "ample memory");
        requests(&alloc);
        let new = old.drop_last().expect(&rt, "ample memory");
        assert!(rt; requests(&alloc) == wanted && new.is_some());
    }
}

#[test]
fn shared_drops_in_place(rt: HostRuntime) {
    let alloc = FailingAllocator::new(rt.alloc());
    for (len, wanted) in DROPS {
        let old = counting(&alloc, 5, len).expect(&rt, "ample memory");
        let mut new = old.clone().expect(&rt, "ample memory");
        requests(&alloc);
        assert!(rt; new.drop_last_mut() == Ok(true) && requests(&alloc) == wanted);
        assert!(rt; old.len() > new.len());
    }
}

// Items that the last leaf has room for take a buffer besides.
#[test]
fn an_extension_in_place(rt: HostRuntime) {
    let alloc = FailingAllocator::new(rt.alloc());
    for len in [33, 1057] {
        let mut vector = counting(&alloc, 5, len).expect(&rt, "ample memory");
        requests(&alloc);
        vector.extend([7, 8, 9]).expect(&rt, "ample memory");
        assert!(rt; requests(&alloc) == 4 && vector.last() == Some(&9));
    }
}

// One item goes in as by a push, without a buffer.
#[test]
fn an_extension_by_one_item(rt: HostRuntime) {
    let alloc = FailingAllocator::new(rt.alloc());
    for len in [33, 1057] {
        let mut vector = counting(&alloc, 5, len).expect(&rt, "ample memory");
        requests(&alloc);
        vector.extend([7]).expect(&rt, "ample memory");
        assert!(rt; requests(&alloc) == 1 && vector.last() == Some(&7));
    }
}

// One allocation for each item. A leaf of 32 has its room in four and itself in one, and the root of the 32 leaves takes six.
#[test]
fn requests_by_leaves(rt: HostRuntime) {
    let alloc = FailingAllocator::new(rt.alloc());
    requests(&alloc);
    let vector = Vector::from_iter(&alloc, 0..1024u64).expect(&rt, "ample memory");
    assert!(rt; requests(&alloc) == 1024 + 32 * 5 + 6);
    assert!(rt; vector.len() == 1024);
}
