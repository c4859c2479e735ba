//! Unions that combine values, beside std's maps, and the requests of unions and merges.
use crate::red_black_tree_map::algebra::{pairs, put_in_model};
use crate::red_black_tree_map::random::{Model, NumberMap, assert_same_walk};
use crate::red_black_tree_map::scenarios::{copied, numbers_to, put, take_out};
use rpds_faults::{FailingAllocator, Numbers, requests};
use rpds_tree::map::red_black_tree_map::RedBlackTreeMap;
use std::alloc::Global;
use std::collections::BTreeMap;
use std::process::Abort;

type CountedMap<'f> = RedBlackTreeMap<u64, u64, &'f FailingAllocator<Global>>;

// Tells its arguments apart.
fn weighed(key: u64, ours: u64, theirs: u64) -> u64 {
    key.wrapping_add(ours.wrapping_mul(3))
        .wrapping_add(theirs.wrapping_mul(5))
}

// The union, key by key.
fn united(rt: &impl Abort, alloc: Global, model: &Model, other: &Model) -> Model {
    let mut united = BTreeMap::new(alloc);
    for (key, theirs) in other {
        put_in_model(rt, &mut united, *key, *theirs);
    }
    for (key, ours) in model {
        let value = match other.get(key) {
            Some(theirs) => weighed(*key, *ours, *theirs),
            None => *ours,
        };
        put_in_model(rt, &mut united, *key, value);
    }
    united
}

fn assert_united(
    rt: &(impl Abort + AllocGlobal),
    (map, model): (NumberMap, Model),
    (other, other_model): (NumberMap, Model),
) {
    let made = map
        .union_with(&other, |key, ours, theirs| {
            Ok(weighed(*key, *ours, *theirs))
        })
        .expect(rt, "ample memory");
    let united = united(rt, rt.alloc(), &model, &other_model);
    assert!(rt; made.len() == united.len());
    assert_same_walk(rt, &made, &united);
    assert_same_walk(rt, &map, &model);
    assert_same_walk(rt, &other, &other_model);
}

#[test]
fn unions_agree_with_std_maps(rt: HostRuntime) {
    let mut numbers = Numbers::new();
    for _ in 0..20u32 {
        let first = pairs(&rt, rt.alloc(), &mut numbers);
        let second = pairs(&rt, rt.alloc(), &mut numbers);
        assert_united(&rt, first, second);
    }
}

// A version in which some keys have another value, one is new, and one is taken out.
fn version<'f>(rt: &impl Abort, map: &CountedMap<'f>, keys: &[u64], out: u64) -> CountedMap<'f> {
    let mut version = copied(rt, map);
    for key in keys {
        put(rt, &mut version, *key, 7);
    }
    assert!(rt; take_out(rt, &mut version, &out));
    version
}

// What is the same on both sides, or on one as it was, is shared.
#[test]
fn what_is_taken_over_is_shared(rt: HostRuntime) {
    let alloc = FailingAllocator::new(rt.alloc());
    let base = numbers_to(&rt, &alloc, 5_000);
    let ours = version(&rt, &base, &[1, 2, 3, 5_001], 4_500);
    let theirs = version(&rt, &base, &[3, 2_500, 2_501, 5_002], 4_000);
    let _before = requests(&alloc);
    let merged = base
        .merge(&ours, &theirs, |_key, _base, _ours, _theirs| Ok(None))
        .expect(&rt, "ample memory");
    assert!(rt; requests(&alloc) < 100);
    assert!(rt; merged.get(&1) == Some(&7) && merged.get(&2_500) == Some(&7));
    assert!(rt; merged.get(&3) == Some(&7) && merged.get(&5_002) == Some(&7));
    assert!(rt; merged.get(&4_500).is_none() && merged.get(&4_000).is_none());
    let united = ours
        .union_with(&theirs, |_key, ours, _theirs| Ok(*ours))
        .expect(&rt, "ample memory");
    assert!(rt; united.len() == 5_002);
}
