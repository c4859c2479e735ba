//! Relations of sets.
use rpds_faults::{FlooredBuild, LifeCounts};
use rpds_hash::set::hash_trie_set::HashTrieSet;
use std::alloc::Global;
use std::process::Abort;

// How many numbers a set has, the least of them, and how far one is from the next.
type Numbers = (u64, u64, u64);

fn set_of(rt: &impl Abort, alloc: Global, numbers: Numbers) -> HashTrieSet<u64> {
    let (count, first, step) = numbers;
    let items = (0..count).map(|place| first.wrapping_add(place.wrapping_mul(step)));
    HashTrieSet::from_iter(alloc, items).expect(rt, "ample memory")
}

// Whether the first is disjoint from the second, a subset of it, a superset, and equal to it.
fn relations(set: &HashTrieSet<u64>, other: &HashTrieSet<u64>) -> [bool; 4] {
    [
        set.is_disjoint(other),
        set.is_subset(other),
        set.is_superset(other),
        set == other,
    ]
}

const NONE: Numbers = (0, 0, 1);

const EVEN: Numbers = (1_000, 0, 2);

const ONE_TO_THREE: Numbers = (3, 1, 1);

const ROWS: [(Numbers, Numbers, [bool; 4]); 11] = [
    (NONE, EVEN, [true, true, false, false]),
    (NONE, NONE, [true, true, true, true]),
    (EVEN, EVEN, [false, true, true, true]),
    (EVEN, (1_000, 1, 2), [true, false, false, false]),
    ((500, 0, 2), EVEN, [false, true, false, false]),
    ((1_000, 0, 4), EVEN, [false, false, false, false]),
    ((5, 1, 4), (3, 0, 4), [true, false, false, false]),
    (ONE_TO_THREE, (2, 0, 1), [false, false, false, false]),
    (ONE_TO_THREE, (3, 2, 2), [false, false, false, false]),
    (ONE_TO_THREE, (5, 1, 1), [false, true, false, false]),
    (NONE, (1, 1, 1), [true, true, false, false]),
];

// Those of the first to the second, and those of the second to the first.
fn assert_row(rt: &impl Abort, alloc: Global, row: &(Numbers, Numbers, [bool; 4])) {
    let set = set_of(rt, alloc, row.0);
    let other = set_of(rt, alloc, row.1);
    let [is_disjoint, is_subset, is_superset, is_equal] = row.2;
    assert!(rt; relations(&set, &other) == row.2);
    assert!(rt; relations(&other, &set) == [is_disjoint, is_superset, is_subset, is_equal]);
}

#[test]
fn relations_of_two_sets(rt: HostRuntime) {
    for row in &ROWS {
        assert_row(&rt, rt.alloc(), row);
    }
}

// The numbers from the first one on, below a thousand. Each is its own hash, and is hashed where it is looked up.
fn below_thousand<'t>(
    rt: &impl Abort,
    alloc: Global,
    counts: &'t LifeCounts,
    first: u64,
) -> HashTrieSet<u64, FlooredBuild<'t>> {
    let mut set = HashTrieSet::new_with_hasher(alloc, FlooredBuild::new(0, counts));
    for number in first..1_000 {
        set.insert_mut(number).expect(rt, "ample memory");
    }
    set
}

// Of the first set 0 comes first, and of the other one a number that both have.
#[test]
fn members_are_looked_up_until_it_is_decided(rt: HostRuntime) {
    let counts = LifeCounts::new();
    let all = below_thousand(&rt, rt.alloc(), &counts, 0);
    let others = below_thousand(&rt, rt.alloc(), &counts, 1);
    counts.hashed();
    assert!(rt; !all.is_subset(&others) && counts.hashed() == 1);
    assert!(rt; others.is_subset(&all) && counts.hashed() == 999);
    assert!(rt; !others.is_disjoint(&all) && counts.hashed() == 1);
}
