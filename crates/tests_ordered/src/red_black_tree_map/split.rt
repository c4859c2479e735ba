//! Parts of maps, and one map behind another, beside std's map.
use crate::red_black_tree_map::algebra::{pairs, put_in_model};
use crate::red_black_tree_map::random::{Model, NumberMap, assert_same_walk};
use rpds_faults::Numbers;
use rpds_tree::sorted::SortedError;
use std::alloc::Global;
use std::collections::BTreeMap;
use std::ops::Bound::{self, Excluded, Included, Unbounded};
use std::process::Abort;

// Whether a key is within the bounds.
fn is_within(start: Bound<&u64>, end: Bound<&u64>, key: u64) -> bool {
    let is_from = match start {
        Included(start) => *start <= key,
        Excluded(start) => *start < key,
        Unbounded => true,
    };
    let is_up_to = match end {
        Included(end) => key <= *end,
        Excluded(end) => key < *end,
        Unbounded => true,
    };
    is_from && is_up_to
}

// The pairs whose keys are within the bounds, or aren't.
fn kept(
    rt: &impl Abort,
    alloc: Global,
    model: &Model,
    bounds: (Bound<&u64>, Bound<&u64>),
    within: bool,
) -> Model {
    let (start, end) = bounds;
    let mut kept = BTreeMap::new(alloc);
    for (key, value) in model {
        if is_within(start, end, *key) == within {
            put_in_model(rt, &mut kept, *key, *value);
        }
    }
    kept
}

fn assert_cut(rt: &impl Abort, alloc: Global, map: &NumberMap, model: &Model, key: u64) {
    let split = map.split(&key).expect(rt, "ample memory");
    let before = kept(rt, alloc, model, (Unbounded, Excluded(&key)), true);
    let after = kept(rt, alloc, model, (Excluded(&key), Unbounded), true);
    assert_same_walk(rt, &split.below, &before);
    assert_same_walk(rt, &split.above, &after);
    assert!(rt; split.below.len() == before.len() && split.above.len() == after.len());
    assert!(rt; split.at == model.get_key_value(&key));
    let joined = split.below.append(&split.above).expect(rt, "a rise");
    let rest = map.remove(&key).expect(rt, "ample memory");
    assert!(rt; joined == rest);
}

fn assert_range(
    rt: &impl Abort,
    alloc: Global,
    map: &NumberMap,
    model: &Model,
    bounds: (Bound<&u64>, Bound<&u64>),
) {
    let (start, end) = bounds;
    let part = map.subrange(start, end).expect(rt, "ample memory");
    assert_same_walk(rt, &part, &kept(rt, alloc, model, bounds, true));
    let rest = map.without_range(start, end).expect(rt, "ample memory");
    assert_same_walk(rt, &rest, &kept(rt, alloc, model, bounds, false));
    assert!(rt; part.len().wrapping_add(rest.len()) == map.len());
}

fn assert_parts(rt: &impl Abort, alloc: Global, numbers: &mut Numbers) {
    let (map, model) = pairs(rt, alloc, numbers);
    let (low, high) = (numbers.next() % 320, numbers.next() % 320);
    assert_cut(rt, alloc, &map, &model, low);
    for start in [Included(&low), Excluded(&low), Unbounded] {
        for end in [Included(&high), Excluded(&high), Unbounded] {
            assert_range(rt, alloc, &map, &model, (start, end));
        }
    }
    assert_same_walk(rt, &map, &model);
}

#[test]
fn parts_are_ranges_of_std_maps(rt: HostRuntime) {
    let mut numbers = Numbers::new();
    for _ in 0..20u32 {
        assert_parts(&rt, rt.alloc(), &mut numbers);
    }
}

#[test]
fn a_map_that_isnt_behind_isnt_appended(rt: HostRuntime) {
    let mut numbers = Numbers::new();
    let (map, _) = pairs(&rt, rt.alloc(), &mut numbers);
    let split = map.split(&150).expect(&rt, "ample memory");
    let fall = split.above.append(&split.below);
    assert!(rt; fall.is_err_and(|error| error == SortedError::NotAscending(split.above.len())));
    let twice = map.append(&map);
    assert!(rt; twice.is_err_and(|error| error == SortedError::NotAscending(map.len())));
}
