//! Unions beside std's sets.
use crate::values::hash_trie_map::random::key_of;
use rpds_faults::{FlooredBuild, LifeCounts, Numbers};
use rpds_hash::set::hash_trie_set::HashTrieSet;
use std::alloc::Global;
use std::collections::HashSet;
use std::process::Abort;

type NumberSet<'t> = HashTrieSet<u64, FlooredBuild<'t>>;

// The floor of a set's hasher, its degree, and the least of its numbers.
type Made = (u64, u8, u64);

// By one hasher: all in common, half and none, where keys collide, and where paths are long. By two hashers, and by two degrees.
const ROWS: [(Made, Made); 8] = [
    ((0, 64, 0), (0, 64, 0)),
    ((0, 64, 0), (0, 64, 40)),
    ((0, 2, 0), (0, 2, 80)),
    ((12, 16, 0), (12, 16, 0)),
    ((12, 2, 0), (12, 2, 8)),
    ((0, 64, 0), (12, 64, 0)),
    ((12, 16, 0), (0, 16, 8)),
    ((0, 64, 0), (0, 16, 40)),
];

fn put(rt: &impl Abort, set: &mut NumberSet<'_>, model: &mut HashSet<u64>, key: u64) {
    set.insert_mut(key).expect(rt, "ample memory");
    let stored: Result<_, _> = model.insert(key);
    assert!(rt; stored.is_ok());
}

// Puts in numbers among 80, from the first on.
fn fill(
    rt: &impl Abort,
    set: &mut NumberSet<'_>,
    model: &mut HashSet<u64>,
    numbers: &mut Numbers,
    first: u64,
) {
    for _ in 0..60u64 {
        let number = first.wrapping_add(numbers.next() % 80);
        put(rt, set, model, key_of(number));
    }
}

// The union has what either has, and counts it once.
fn assert_union(
    rt: &impl Abort,
    sets: (&NumberSet<'_>, &NumberSet<'_>),
    models: (&HashSet<u64>, &HashSet<u64>),
) {
    let both = sets.0.union(sets.1).expect(rt, "ample memory");
    let mut count = 0usize;
    for number in 0..160u64 {
        let key = key_of(number);
        let is_member = models.0.contains(&key) || models.1.contains(&key);
        assert!(rt; both.contains(&key) == is_member);
        count = count.wrapping_add(usize::from(is_member));
    }
    assert!(rt; both.size() == count);
}

fn empty<'t>(rt: &impl Abort, alloc: Global, made: Made, counts: &'t LifeCounts) -> NumberSet<'t> {
    let (floor, degree, _) = made;
    assert!(rt; [2, 4, 8, 16, 32, 64].contains(&degree));
    HashTrieSet::new_with_hasher_and_degree(alloc, FlooredBuild::new(floor, counts), degree)
}

// A version of the set with other numbers in it.
fn assert_versions(
    rt: &impl Abort,
    set: &NumberSet<'_>,
    model: &HashSet<u64>,
    numbers: &mut Numbers,
) {
    let mut version = set.clone().expect(rt, "ample memory");
    let mut version_model = model.clone().expect(rt, "ample memory");
    fill(rt, &mut version, &mut version_model, numbers, 60);
    assert_union(rt, (set, &version), (model, &version_model));
    assert_union(rt, (&version, set), (&version_model, model));
    assert_union(rt, (set, set), (model, model));
}

fn filled<'t>(
    rt: &impl Abort,
    alloc: Global,
    made: Made,
    counts: &'t LifeCounts,
    numbers: &mut Numbers,
) -> (NumberSet<'t>, HashSet<u64>) {
    let mut set = empty(rt, alloc, made, counts);
    let mut model = HashSet::new(alloc);
    fill(rt, &mut set, &mut model, numbers, made.2);
    (set, model)
}

// Both ways.
fn assert_both_ways(
    rt: &impl Abort,
    (set, model): (&NumberSet<'_>, &HashSet<u64>),
    (other, other_model): (&NumberSet<'_>, &HashSet<u64>),
) {
    assert_union(rt, (set, other), (model, other_model));
    assert_union(rt, (other, set), (other_model, model));
}

// Of this one and of none.
fn assert_none<'t>(
    rt: &impl Abort,
    alloc: Global,
    made: Made,
    counts: &'t LifeCounts,
    set: (&NumberSet<'t>, &HashSet<u64>),
) {
    let none = empty(rt, alloc, made, counts);
    let no_model = HashSet::new(alloc);
    assert_both_ways(rt, (&none, &no_model), set);
}

// Of the first and of one that is made so, and of that one and of none.
fn assert_other<'t>(
    rt: &impl Abort,
    alloc: Global,
    row: &(Made, Made),
    counts: &'t LifeCounts,
    set: (&NumberSet<'t>, &HashSet<u64>),
    numbers: &mut Numbers,
) {
    let (other, other_model) = filled(rt, alloc, row.1, counts, numbers);
    assert_both_ways(rt, set, (&other, &other_model));
    assert_none(rt, alloc, row.0, counts, (&other, &other_model));
}

// Both ways, of the two, of the second with none, and of versions.
fn assert_row(rt: &impl Abort, alloc: Global, row: &(Made, Made), numbers: &mut Numbers) {
    let counts = LifeCounts::new();
    let (set, model) = filled(rt, alloc, row.0, &counts, numbers);
    assert_versions(rt, &set, &model, numbers);
    assert_other(rt, alloc, row, &counts, (&set, &model), numbers);
}

#[test]
fn agrees_with_std_sets(rt: HostRuntime) {
    let mut numbers = Numbers::new();
    for row in &ROWS {
        assert_row(&rt, rt.alloc(), row, &mut numbers);
    }
}
