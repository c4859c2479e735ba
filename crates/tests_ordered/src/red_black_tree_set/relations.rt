//! Relations of sets.
use rpds_tree::set::red_black_tree_set::RedBlackTreeSet;
use std::alloc::Global;
use std::process::Abort;

// How many numbers a set has, the least of them, and how far one is from the next.
type Numbers = (u64, u64, u64);

fn set_of(rt: &impl Abort, alloc: Global, numbers: Numbers) -> RedBlackTreeSet<u64> {
    let (count, first, step) = numbers;
    let items = (0..count).map(|place| first.wrapping_add(place.wrapping_mul(step)));
    RedBlackTreeSet::from_iter(alloc, items).expect(rt, "ample memory")
}

// Whether the first is disjoint from the second, a subset of it, and a superset.
fn relations(set: &RedBlackTreeSet<u64>, other: &RedBlackTreeSet<u64>) -> [bool; 3] {
    [
        set.is_disjoint(other),
        set.is_subset(other),
        set.is_superset(other),
    ]
}

const NONE: Numbers = (0, 0, 1);

const EVEN: Numbers = (1_000, 0, 2);

const ONE_TO_THREE: Numbers = (3, 1, 1);

const ROWS: [(Numbers, Numbers, [bool; 3]); 11] = [
    (NONE, EVEN, [true, true, false]),
    (NONE, NONE, [true, true, true]),
    (EVEN, EVEN, [false, true, true]),
    (EVEN, (1_000, 1, 2), [true, false, false]),
    ((500, 0, 2), EVEN, [false, true, false]),
    ((1_000, 0, 4), EVEN, [false, false, false]),
    ((5, 1, 4), (3, 0, 4), [true, false, false]),
    (ONE_TO_THREE, (2, 0, 1), [false, false, false]),
    (ONE_TO_THREE, (3, 2, 2), [false, false, false]),
    (ONE_TO_THREE, (5, 1, 1), [false, true, false]),
    (NONE, (1, 1, 1), [true, true, false]),
];

// Those of the first to the second, and those of the second to the first.
fn assert_row(rt: &impl Abort, alloc: Global, row: &(Numbers, Numbers, [bool; 3])) {
    let set = set_of(rt, alloc, row.0);
    let other = set_of(rt, alloc, row.1);
    let [is_disjoint, is_subset, is_superset] = row.2;
    assert!(rt; relations(&set, &other) == row.2);
    assert!(rt; relations(&other, &set) == [is_disjoint, is_superset, is_subset]);
}

#[test]
fn relations_of_two_sets(rt: HostRuntime) {
    for row in &ROWS {
        assert_row(&rt, rt.alloc(), row);
    }
}
