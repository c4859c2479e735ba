//! Maps of two maps beside std's maps.
use crate::values::hash_trie_map::diffs::assert_changes;
use crate::values::hash_trie_map::random::key_of;
use rpds_faults::{FlooredBuild, LifeCounts, Numbers};
use rpds_hash::map::hash_trie_map::HashTrieMap;
use std::alloc::Global;
use std::collections::HashMap;
use std::process::Abort;

pub(crate) type NumberMap<'t> = HashTrieMap<u64, u64, FlooredBuild<'t>>;

pub(crate) type Model = HashMap<u64, u64>;

// A map, and std's map that has the same pairs.
pub(crate) type Both<'m, 't> = (&'m NumberMap<'t>, &'m Model);

// The floor of a map's hasher, its degree, the least of its numbers, and how many are put in.
pub(crate) type Made = (u64, u8, u64, u64);

// By one hasher: all in common, half and none, few and many.
const BY_ONE_HASHER: [(Made, Made); 4] = [
    ((0, 64, 0, 60), (0, 64, 0, 60)),
    ((0, 64, 0, 60), (0, 64, 40, 60)),
    ((0, 64, 0, 400), (0, 64, 0, 3)),
    ((0, 2, 0, 60), (0, 2, 80, 60)),
];

// Where keys collide, and where paths are long.
const COLLIDING: [(Made, Made); 3] = [
    ((12, 16, 0, 60), (12, 16, 0, 60)),
    ((12, 2, 0, 60), (12, 2, 8, 9)),
    ((12, 4, 0, 9), (12, 4, 0, 1)),
];

// By two hashers, and by two degrees.
const BY_TWO: [(Made, Made); 3] = [
    ((0, 64, 0, 60), (12, 64, 0, 60)),
    ((12, 16, 0, 60), (0, 16, 8, 60)),
    ((0, 64, 0, 60), (0, 16, 40, 60)),
];

// Puts the pair into both.
pub(crate) fn put_both(
    rt: &impl Abort,
    map: &mut NumberMap<'_>,
    model: &mut Model,
    key: u64,
    value: u64,
) {
    map.insert_mut(key, value).expect(rt, "ample memory");
    let stored: Result<_, _> = model.insert(key, value);
    assert!(rt; stored.is_ok());
}

// A map, made so, and the same as std's.
pub(crate) fn filled<'t>(
    rt: &impl Abort,
    alloc: Global,
    made: Made,
    counts: &'t LifeCounts,
    numbers: &mut Numbers,
) -> (NumberMap<'t>, Model) {
    let (floor, degree, first, count) = made;
    assert!(rt; [2, 4, 8, 16, 32, 64].contains(&degree));
    let hasher = FlooredBuild::new(floor, counts);
    let mut map = HashTrieMap::new_with_hasher_and_degree(alloc, hasher, degree);
    let mut model = HashMap::new(alloc);
    for _ in 0..count {
        let key = key_of(first.wrapping_add(numbers.next() % 80));
        put_both(rt, &mut map, &mut model, key, numbers.next() % 1000);
    }
    (map, model)
}

// Which keys are kept of two maps.
#[derive(Clone, Copy, Debug)]
enum Kept {
    InBoth,
    InMine,
    InOne,
    InEither,
    Weighed,
}

// Tells its arguments apart.
fn weighed(key: u64, mine: u64, theirs: u64) -> u64 {
    key.wrapping_add(mine.wrapping_mul(3))
        .wrapping_add(theirs.wrapping_mul(5))
}

// Both values of a key in one, or that of either.
fn in_one_value(key: u64, mine: Option<u64>, theirs: Option<u64>) -> Option<u64> {
    match (mine, theirs) {
        (Some(mine), Some(theirs)) => Some(weighed(key, mine, theirs)),
        (mine, theirs) => in_either(mine, theirs),
    }
}

// The value of a key that is kept, where it has these in both maps.
fn chosen(kept: Kept, key: u64, mine: Option<u64>, theirs: Option<u64>) -> Option<u64> {
    match kept {
        Kept::InBoth => in_both(mine, theirs),
        Kept::InMine => in_mine(mine, theirs),
        Kept::InOne => in_one(mine, theirs),
        Kept::InEither => in_either(mine, theirs),
        Kept::Weighed => in_one_value(key, mine, theirs),
    }
}

fn in_both(mine: Option<u64>, theirs: Option<u64>) -> Option<u64> {
    match theirs {
        Some(_) => mine,
        None => None,
    }
}

fn in_mine(mine: Option<u64>, theirs: Option<u64>) -> Option<u64> {
    match theirs {
        Some(_) => None,
        None => mine,
    }
}

fn in_one(mine: Option<u64>, theirs: Option<u64>) -> Option<u64> {
    match mine {
        Some(_) => in_mine(mine, theirs),
        None => theirs,
    }
}

fn in_either(mine: Option<u64>, theirs: Option<u64>) -> Option<u64> {
    match mine {
        Some(_) => mine,
        None => theirs,
    }
}

// Each key has the value that is chosen, and is counted once.
fn assert_chosen(rt: &impl Abort, made: &NumberMap<'_>, models: (&Model, &Model), kept: Kept) {
    let mut count = 0usize;
    for number in 0..160u64 {
        let key = key_of(number);
        let (mine, theirs) = (models.0.get(&key).copied(), models.1.get(&key).copied());
        let value = chosen(kept, key, mine, theirs);
        assert!(rt; made.get(&key).copied() == value);
        count = count.wrapping_add(usize::from(value.is_some()));
    }
    assert!(rt; made.size() == count && made.iter().count() == count);
}

// The keys that are kept come in the order that they had.
fn assert_order(rt: &impl Abort, kept: &NumberMap<'_>, map: &NumberMap<'_>) {
    let mut walk = kept.keys();
    for key in map.keys() {
        if kept.contains_key(key) {
            assert!(rt; walk.next() == Some(key));
        }
    }
    assert!(rt; walk.next().is_none());
}

// What a call made.
fn assert_made(rt: &impl Abort, made: NumberMap<'_>, models: (&Model, &Model), kept: Kept) {
    assert_chosen(rt, &made, models, kept);
}

// The same of what it kept of the map.
fn assert_kept(
    rt: &impl Abort,
    made: NumberMap<'_>,
    map: &NumberMap<'_>,
    models: (&Model, &Model),
    kept: Kept,
) {
    assert_order(rt, &made, map);
    assert_made(rt, made, models, kept);
}

fn assert_combined<'t>(
    rt: &impl Abort,
    (map, model): Both<'_, 't>,
    (other, other_model): Both<'_, 't>,
) {
    let models = (model, other_model);
    let both = map.intersection(other).expect(rt, "ample memory");
    assert_kept(rt, both, map, models, Kept::InBoth);
    let mine = map.difference(other).expect(rt, "ample memory");
    assert_kept(rt, mine, map, models, Kept::InMine);
    let one = map.symmetric_difference(other).expect(rt, "ample memory");
    assert_made(rt, one, models, Kept::InOne);
    let either = map.union(other).expect(rt, "ample memory");
    assert_made(rt, either, models, Kept::InEither);
    assert_united(rt, (map, other), models);
    assert_changes(rt, (map, model), (other, other_model));
}

// Both ways.
fn assert_both_ways<'t>(rt: &impl Abort, mine: Both<'_, 't>, theirs: Both<'_, 't>) {
    assert_combined(rt, mine, theirs);
    assert_combined(rt, theirs, mine);
}

fn assert_united(
    rt: &impl Abort,
    (mine, theirs): (&NumberMap<'_>, &NumberMap<'_>),
    models: (&Model, &Model),
) {
    let united = mine
        .union_with(theirs, |key, mine, theirs| {
            Ok(weighed(*key, *mine, *theirs))
        })
        .expect(rt, "ample memory");
    assert_chosen(rt, &united, models, Kept::Weighed);
}

// A version of the map with a few changes, both ways, and the map with itself.
fn assert_versions(rt: &impl Abort, map: &NumberMap<'_>, model: &Model, numbers: &mut Numbers) {
    let mut version = map.clone().expect(rt, "ample memory");
    let mut version_model = model.clone().expect(rt, "ample memory");
    for _ in 0..5u64 {
        let key = key_of(numbers.next() % 160);
        put_both(rt, &mut version, &mut version_model, key, 7);
    }
    assert_both_ways(rt, (map, model), (&version, &version_model));
    assert_combined(rt, (map, model), (map, model));
}

// With a map, made so, both ways.
fn assert_with<'t>(
    rt: &impl Abort,
    alloc: Global,
    made: Made,
    counts: &'t LifeCounts,
    numbers: &mut Numbers,
    mine: Both<'_, 't>,
) {
    let (map, model) = filled(rt, alloc, made, counts, numbers);
    assert_both_ways(rt, mine, (&map, &model));
}

// Of each row both ways, of the two, of the first with none, and of versions.
fn assert_rows(rt: &impl Abort, alloc: Global, rows: &[(Made, Made)]) {
    let mut numbers = Numbers::new();
    for row in rows {
        assert_row(rt, alloc, row, &mut numbers);
    }
}

fn assert_row(rt: &impl Abort, alloc: Global, row: &(Made, Made), numbers: &mut Numbers) {
    let counts = LifeCounts::new();
    let (map, model) = filled(rt, alloc, row.0, &counts, numbers);
    assert_versions(rt, &map, &model, numbers);
    assert_with(rt, alloc, row.1, &counts, numbers, (&map, &model));
    let none = (row.0.0, row.0.1, 0, 0);
    assert_with(rt, alloc, none, &counts, numbers, (&map, &model));
}

#[test]
fn agrees_with_std_maps(rt: HostRuntime) {
    assert_rows(&rt, rt.alloc(), &BY_ONE_HASHER);
}

#[test]
fn agrees_with_std_maps_where_keys_collide(rt: HostRuntime) {
    assert_rows(&rt, rt.alloc(), &COLLIDING);
}

#[test]
fn agrees_with_std_maps_by_two_hashers_or_degrees(rt: HostRuntime) {
    assert_rows(&rt, rt.alloc(), &BY_TWO);
}
