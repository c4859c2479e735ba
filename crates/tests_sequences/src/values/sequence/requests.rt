// Allocations, counted.
use crate::values::sequence::support::counting;
use rpds_faults::{FailingAllocator, requests};
use std::process::Abort;

// At each seventh place among 10,000 items: an insertion that hands out another sequence makes a node on each level and an
// entry, and balances at no cost. 14 levels hold 16,383 items.
#[test]
fn an_insertion(rt: HostRuntime) {
    let alloc = FailingAllocator::new(rt.alloc());
    let sequence = counting(&alloc, 10_000).expect(&rt, "ample memory");
    requests(&alloc);
    for place in 0..1428usize {
        let longer = sequence.insert(place * 7, 0).expect(&rt, "ample memory");
        assert!(rt; longer.is_some() && requests(&alloc) <= 16);
    }
}

// In place it takes memory for the item and its node alone.
#[test]
fn an_insertion_in_place(rt: HostRuntime) {
    let alloc = FailingAllocator::new(rt.alloc());
    let mut sequence = counting(&alloc, 10_000).expect(&rt, "ample memory");
    requests(&alloc);
    for place in 0..1000usize {
        assert!(rt; sequence.insert_mut(place * 7, 0) == Ok(true) && requests(&alloc) == 2);
    }
}

// Two halves of 10,000 items have the same height, and one node more goes above them.
#[test]
fn halves_put_together(rt: HostRuntime) {
    let alloc = FailingAllocator::new(rt.alloc());
    let left = counting(&alloc, 5000).expect(&rt, "ample memory");
    let right = counting(&alloc, 5000).expect(&rt, "ample memory");
    requests(&alloc);
    let all = left.append(&right).expect(&rt, "ample memory");
    assert!(rt; all.len() == 10_000 && requests(&alloc) <= 20);
}

// A walk takes no memory, nor does a handle more.
#[test]
fn nothing(rt: HostRuntime) {
    let alloc = FailingAllocator::new(rt.alloc());
    let sequence = counting(&alloc, 1000).expect(&rt, "ample memory");
    requests(&alloc);
    let copy = sequence.clone().expect(&rt, "ample memory");
    assert!(rt; copy == sequence && sequence.iter().count() == 1000);
    assert!(rt; requests(&alloc) == 0);
}
