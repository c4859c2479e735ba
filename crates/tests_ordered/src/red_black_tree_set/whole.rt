//! Whole sets in one, their parts, and what changed between two.
use crate::red_black_tree_map::walks::{ends_for_good, steps};
use rpds_tree::set::red_black_tree_set::{RedBlackTreeSet, SetChange};
use std::alloc::{AllocError, Global};
use std::ops::Bound;
use std::process::Abort;

type NumberSet = RedBlackTreeSet<u64>;

fn set_of(rt: &impl Abort, alloc: Global, members: &[u64]) -> NumberSet {
    RedBlackTreeSet::from_iter(alloc, members.iter().copied()).expect(rt, "ample memory")
}

fn assert_has(rt: &impl Abort, set: &NumberSet, members: &[u64]) {
    assert!(rt; set.iter().eq(members));
}

fn assert_made(rt: &impl Abort, made: Result<NumberSet, AllocError>, members: &[u64]) {
    assert_has(rt, &made.expect(rt, "ample memory"), members);
}

// What is made of two sets.
#[derive(Clone, Copy)]
enum Made {
    Union,
    Intersection,
    Difference,
    SymmetricDifference,
}

fn by_call(set: &NumberSet, other: &NumberSet, made: Made) -> Result<NumberSet, AllocError> {
    match made {
        Made::Union => set.union(other),
        Made::Intersection => set.intersection(other),
        Made::Difference => set.difference(other),
        Made::SymmetricDifference => set.symmetric_difference(other),
    }
}

fn by_operator(set: &NumberSet, other: &NumberSet, made: Made) -> Result<NumberSet, AllocError> {
    match made {
        Made::Union => set | other,
        Made::Intersection => set & other,
        Made::Difference => set - other,
        Made::SymmetricDifference => set ^ other,
    }
}

const MADE: [(Made, &[u64]); 4] = [
    (Made::Union, &[1, 2, 3, 4, 5]),
    (Made::Intersection, &[2, 5]),
    (Made::Difference, &[1, 3]),
    (Made::SymmetricDifference, &[1, 3, 4]),
];

#[test]
fn by_calls_and_by_operators(rt: HostRuntime) {
    let set = set_of(&rt, rt.alloc(), &[1, 2, 3, 5]);
    let other = set_of(&rt, rt.alloc(), &[5, 4, 2]);
    for (made, members) in MADE {
        assert_made(&rt, by_call(&set, &other, made), members);
        assert_made(&rt, by_operator(&set, &other, made), members);
    }
}

// What is below 3 and above it.
fn assert_cut_at_3(rt: &impl Abort, set: &NumberSet) {
    let split = set.split(&3).expect(rt, "ample memory");
    assert!(rt; split.at == Some(&3));
    assert_has(rt, &split.below, &[1, 2]);
    assert_has(rt, &split.above, &[5]);
}

#[test]
fn parts(rt: HostRuntime) {
    let set = set_of(&rt, rt.alloc(), &[1, 2, 3, 5]);
    assert_cut_at_3(&rt, &set);
    let (start, end) = (Bound::Excluded(&1), Bound::Included(&4));
    assert_made(&rt, set.subrange(start, end), &[2, 3]);
    assert_made(&rt, set.without_range(start, end), &[1, 5]);
}

fn is_appended(set: &NumberSet, other: &NumberSet) -> bool {
    set.append(other).is_ok()
}

fn assert_appended(rt: &impl Abort, set: &NumberSet, other: &NumberSet, members: &[u64]) {
    let joined = set.append(other).expect(rt, "a rise");
    assert_has(rt, &joined, members);
}

#[test]
fn one_behind_another(rt: HostRuntime) {
    let low = set_of(&rt, rt.alloc(), &[1, 2]);
    let high = set_of(&rt, rt.alloc(), &[5]);
    assert!(rt; !is_appended(&high, &low));
    assert_appended(&rt, &low, &high, &[1, 2, 5]);
}

// The changes from the first to the second, in order.
fn assert_changes(
    rt: &impl Abort,
    set: &NumberSet,
    other: &NumberSet,
    wanted: &[SetChange<'_, u64>],
) {
    let mut changes = set.diff(other);
    for change in wanted {
        assert!(rt; changes.next() == Some(*change));
    }
    assert!(rt; changes.next().is_none());
}

#[test]
fn differences(rt: HostRuntime) {
    let set = set_of(&rt, rt.alloc(), &[1, 2, 3, 5]);
    let other = set_of(&rt, rt.alloc(), &[5, 4, 2]);
    let wanted = [
        SetChange::Removed(&1),
        SetChange::Removed(&3),
        SetChange::Added(&4),
    ];
    assert_changes(&rt, &set, &other, &wanted);
    assert_changes(&rt, &set, &set, &[]);
}

#[test]
fn walks_of_a_set_end_for_good(rt: HostRuntime) {
    let set = set_of(&rt, rt.alloc(), &[1, 2, 3]);
    let less = set_of(&rt, rt.alloc(), &[1]);
    assert!(rt; ends_for_good(set.iter()));
    assert!(rt; ends_for_good(set.range_of(2..9)));
    assert!(rt; ends_for_good(less.diff(&set)));
}

// A copy goes on from the same place.
#[test]
fn copies_of_changes(rt: HostRuntime) {
    let set = set_of(&rt, rt.alloc(), &[1, 2, 3]);
    let less = set_of(&rt, rt.alloc(), &[1]);
    let mut changes = less.diff(&set);
    assert!(rt; changes.next() == Some(SetChange::Added(&2)));
    let copy = changes.clone().expect(&rt, "ample memory");
    assert!(rt; steps(copy) == 1 && changes.next() == Some(SetChange::Added(&3)));
    assert!(rt; changes.next().is_none());
}
