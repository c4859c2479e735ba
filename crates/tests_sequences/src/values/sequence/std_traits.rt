// What std's traits make of sequences.
use crate::values::sequence::support::{assert_items, counting};
use rpds_refusals::answer::is_below;
use rpds_sequence::sequence::Sequence;
use std::alloc::{AllocError, Global};
use std::collections::BTreeMap;
use std::hash::{DefaultHasher, Hash, Hasher};
use std::iter::Extend;
use std::mem;

#[test]
fn collected(rt: HostRuntime) {
    let sequence: Sequence<u64> = (0u64..3).collect(rt.alloc()).expect(&rt, "ample memory");
    assert_items(&rt, &sequence, &[0, 1, 2]);
}

#[test]
fn made_of_an_array(rt: HostRuntime) {
    let sequence = Sequence::from_array(rt.alloc(), [3, 1, 2]).expect(&rt, "ample memory");
    assert_items(&rt, &sequence, &[3, 1, 2]);
}

#[test]
fn extended(rt: HostRuntime) {
    let mut sequence = counting(rt.alloc(), 2).expect(&rt, "ample memory");
    Extend::extend(&mut sequence, [7u64, 8]).expect(&rt, "ample memory");
    Extend::extend(&mut sequence, &[9u64]).expect(&rt, "ample memory");
    assert_items(&rt, &sequence, &[0, 1, 7, 8, 9]);
}

#[test]
fn cloned(rt: HostRuntime) {
    let sequence = counting(rt.alloc(), 3).expect(&rt, "ample memory");
    let mut copy = Clone::clone(&sequence).expect(&rt, "ample memory");
    copy.set_mut(1, 9).expect(&rt, "ample memory");
    assert_items(&rt, &copy, &[0, 9, 2]);
    assert_items(&rt, &sequence, &[0, 1, 2]);
}

#[test]
fn emptied(rt: HostRuntime) {
    let mut sequence = counting(rt.alloc(), 3).expect(&rt, "ample memory");
    let taken = mem::try_take(&mut sequence).expect(&rt, "ample memory");
    assert_items(&rt, &sequence, &[]);
    assert_items(&rt, &taken, &[0, 1, 2]);
}

#[test]
fn made_with_an_allocator(rt: HostRuntime) {
    let mut sequences: BTreeMap<u64, Sequence<u64>> = BTreeMap::new(rt.alloc());
    let entry = sequences.entry(7).expect(&rt, "ample memory");
    let sequence = entry.or_default();
    sequence.push_back_mut(1).expect(&rt, "ample memory");
    assert!(rt; sequences.get(&7).map(|sequence| sequence.len()) == Some(1));
}

// As Rust's `Vec`s of these items are ordered.
const ASCENDING: [&[u64]; 7] = [&[], &[0], &[0, 0], &[0, 1], &[0, 1, 0], &[0, 2], &[1]];

fn of(alloc: Global, items: &[u64]) -> Result<Sequence<u64>, AllocError> {
    Sequence::from_iter(alloc, items.iter().copied())
}

#[test]
fn ordered(rt: HostRuntime) {
    for (lesser, greater) in ASCENDING.iter().zip(ASCENDING.iter().skip(1)) {
        let lesser = of(rt.alloc(), lesser).expect(&rt, "ample memory");
        let greater = of(rt.alloc(), greater).expect(&rt, "ample memory");
        assert!(rt; is_below(&lesser, &greater));
    }
}

// The hash of a value by std's hasher.
fn hash_of<T: Hash>(value: &T) -> u64 {
    let mut state = DefaultHasher::new();
    value.hash(&mut state);
    state.finish()
}

// The numbers below 10, put in at the front one by one, in a tree of another shape.
fn pushed(alloc: Global) -> Result<Sequence<u64>, AllocError> {
    let mut sequence = Sequence::new(alloc);
    for number in (0..10u64).rev() {
        sequence.push_front_mut(number)?;
    }
    Ok(sequence)
}

// Equal ones feed a hasher alike, whatever their shape, and as a `Vec` of their items does.
#[test]
fn hashed(rt: HostRuntime) {
    let plain: Vec<u64> = (0u64..10).collect(rt.alloc()).expect(&rt, "ample memory");
    let hash = hash_of(&plain);
    let built = counting(rt.alloc(), 10).expect(&rt, "ample memory");
    let pushed = pushed(rt.alloc()).expect(&rt, "ample memory");
    assert!(rt; built == pushed);
    assert!(rt; hash_of(&built) == hash && hash_of(&pushed) == hash);
}
