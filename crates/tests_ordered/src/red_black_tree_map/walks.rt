//! Walks and ranges from both ends.
ghost use Rattle.std.specs.Iterator.{IsFinite};

use crate::red_black_tree_map::scenarios::{numbers_to, put};
use rpds_faults::FailingAllocator;
use rpds_tree::map::red_black_tree_map::RedBlackTreeMap;
use std::alloc::Global;
use std::collections::BTreeMap;
use std::iter::FusedIterator;
use std::ops::Bound::{self, Excluded, Included, Unbounded};
use std::process::Abort;

// Both give the same in ten turns, each of them from the end that its bit tells. Then they are dropped.
fn assert_turns<T, I, J>(rt: &impl Abort, mut walk: I, mut wanted: J, turns: u32)
where
    T: PartialEq + Drop,
    I: DoubleEndedIterator<Item = T> + Drop,
    J: DoubleEndedIterator<Item = T> + Drop,
    requires walk { (it : I) → I.can_next it }
    requires walk_back { (it : I) → I.can_next_back it }
    requires walk_ends { (it : I) → IsFinite (I.remaining it) }
    requires wanted { (it : J) → J.can_next it }
    requires wanted_back { (it : J) → J.can_next_back it }
    requires wanted_ends { (it : J) → IsFinite (J.remaining it) }
{
    for turn in 0..10u32 {
        let (found, left) = if (turns >> turn) & 1 == 0 {
            (walk.next(), wanted.next())
        } else {
            (walk.next_back(), wanted.next_back())
        };
        let is_same = found == left;
        assert!(rt; is_same, "{turns} at {turn}");
    }
}

// The keys in std's map, each with its ten-fold.
fn model_of(rt: &impl Abort, alloc: Global, keys: &[u64]) -> BTreeMap<u64, u64> {
    let mut model = BTreeMap::new(alloc);
    for key in keys {
        let stored: Result<_, _> = model.insert(*key, key.wrapping_mul(10));
        assert!(rt; stored.is_ok());
    }
    model
}

// Each order of the turns, to the end and past it.
fn assert_walks(rt: &impl Abort, alloc: Global, keys: &[u64]) {
    let map = map_of(rt, alloc, keys);
    let model = model_of(rt, alloc, keys);
    for turns in 0..128u32 {
        assert_turns(rt, map.iter(), model.iter(), turns);
        assert_turns(rt, map.keys(), model.keys(), turns);
        assert_turns(rt, map.values(), model.values(), turns);
    }
}

#[test]
fn every_interleaving(rt: HostRuntime) {
    assert_walks(&rt, rt.alloc(), &[]);
    assert_walks(&rt, rt.alloc(), &[4, 1, 5, 2, 3]);
}

// The map of these keys, each with its ten-fold.
fn map_of(rt: &impl Abort, alloc: Global, keys: &[u64]) -> RedBlackTreeMap<u64, u64> {
    let mut map = RedBlackTreeMap::new(alloc);
    for key in keys {
        put(rt, &mut map, *key, key.wrapping_mul(10));
    }
    map
}

// Two bounds, and the keys between them.
type Row<'a> = (Bound<&'a u64>, Bound<&'a u64>, &'a [u64]);

// A walk of the range gives these keys, each with its ten-fold, in each order of seven turns.
fn assert_range(rt: &impl Abort, alloc: Global, map: &RedBlackTreeMap<u64, u64>, row: &Row<'_>) {
    let (start, end, keys) = *row;
    let wanted = model_of(rt, alloc, keys);
    assert!(rt; map.range_fits(start, end));
    for turns in 0..128u32 {
        assert_turns(rt, map.range(start, end), wanted.iter(), turns);
    }
}

const RANGES: [Row<'static>; 8] = [
    (Included(&2), Excluded(&6), &[2, 5]),
    (Included(&2), Excluded(&2), &[]),
    (Included(&2), Included(&2), &[2]),
    (Excluded(&2), Included(&2), &[]),
    (Unbounded, Excluded(&0), &[]),
    (Excluded(&2), Unbounded, &[5, 6]),
    (Unbounded, Unbounded, &[1, 2, 5, 6]),
    (Included(&3), Excluded(&5), &[]),
];

#[test]
fn ranges(rt: HostRuntime) {
    let map = map_of(&rt, rt.alloc(), &[5, 1, 6, 2]);
    for row in &RANGES {
        assert_range(&rt, rt.alloc(), &map, row);
    }
    let none = map_of(&rt, rt.alloc(), &[]);
    assert_range(&rt, rt.alloc(), &none, &(Included(&2), Unbounded, &[]));
}

#[test]
fn the_ends_of_a_range_meet(rt: HostRuntime) {
    let keys = [1, 9, 13, 21, 23, 11, 14, 18, 26, 29, 31, 34, 38, 41];
    let map = map_of(&rt, rt.alloc(), &keys);
    let between = [14, 18, 21, 23, 26, 29, 31, 34];
    let row = (Included(&14), Included(&34), between.as_slice());
    assert_range(&rt, rt.alloc(), &map, &row);
}

// How many steps the walk takes.
pub(crate) fn steps<T: Drop, I: Iterator<Item = T> + Drop>(walk: I) -> u64
    requires can { I.can_next walk }
    requires ends { IsFinite (I.remaining walk) }
{
    let mut steps = 0u64;
    for _ in walk {
        steps = steps.wrapping_add(1);
    }
    steps
}

#[test]
fn no_walk_takes_memory(rt: HostRuntime) {
    let alloc = FailingAllocator::new(rt.alloc());
    let map = numbers_to(&rt, &alloc, 1000);
    alloc.refuse(1);
    assert!(rt; steps(map.iter()) == 1000);
    assert!(rt; steps(map.range(Excluded(&10), Excluded(&991))) == 980);
    assert!(rt; alloc.until_failure() == 1);
}

// A copy goes on from the same place, and neither gives anything behind its end.
#[test]
fn copies_of_walks(rt: HostRuntime) {
    let map = map_of(&rt, rt.alloc(), &[1, 2, 3]);
    let less = map_of(&rt, rt.alloc(), &[1]);
    let mut changes = less.diff(&map);
    assert!(rt; changes.next().is_some());
    let copy = changes.clone().expect(&rt, "ample memory");
    assert!(rt; steps(copy) == 1 && changes.next().is_some());
    assert!(rt; changes.next().is_none() && changes.next().is_none());
    let mut range = map.range_of(2..9);
    assert!(rt; range.next() == Some((&2, &20)));
    let copy = range.clone().expect(&rt, "ample memory");
    assert!(rt; steps(copy) == 1 && range.next_back() == Some((&3, &30)));
}

// Whether nothing comes behind the end of a walk of at most three steps.
pub(crate) fn ends_for_good<T: Drop, I: FusedIterator<Item = T> + Drop>(mut walk: I) -> bool
    requires { (it : I) → I.can_next it }
{
    let _first = walk.next();
    let _second = walk.next();
    let _third = walk.next();
    walk.next().is_none() && walk.next().is_none()
}

#[test]
fn walks_end_for_good(rt: HostRuntime) {
    let map = map_of(&rt, rt.alloc(), &[1, 2, 3]);
    let less = map_of(&rt, rt.alloc(), &[1]);
    assert!(rt; ends_for_good(map.iter()));
    assert!(rt; ends_for_good(map.keys()));
    assert!(rt; ends_for_good(map.values()));
    assert!(rt; ends_for_good(map.range_of(2..9)));
    assert!(rt; ends_for_good(less.diff(&map)));
}
