//! What changed between two maps: worked rows, and what std's maps tell.
use crate::values::hash_trie_map::algebra::Both;
use crate::values::hash_trie_map::scenarios::{NumberMap, map_of, put};
use rpds_hash::map::hash_trie_map::MapChange;
use std::process::Abort;

// A key, and its value before and after.
type Told = (u64, Option<u64>, Option<u64>);

fn told(change: Option<MapChange<'_, u64, u64>>) -> Option<Told> {
    match change? {
        MapChange::Added(key, after) => Some((*key, None, Some(*after))),
        MapChange::Removed(key, before) => Some((*key, Some(*before), None)),
        MapChange::Changed(key, before, after) => Some((*key, Some(*before), Some(*after))),
    }
}

// The keys of the older map that have another value in std's newer one, and then those that only the newer one has, each once. The walk
// has ended then.
pub(crate) fn assert_changes<'t>(
    rt: &impl Abort,
    (map, model): Both<'_, 't>,
    (other, other_model): Both<'_, 't>,
) {
    let mut changes = map.diff(other);
    for key in map.keys() {
        let (before, after) = (model.get(key).copied(), other_model.get(key).copied());
        if before != after {
            assert!(rt; told(changes.next()) == Some((*key, before, after)));
        }
    }
    for key in other.keys() {
        if model.get(key).is_none() {
            assert!(rt; told(changes.next()) == Some((*key, None, other_model.get(key).copied())));
        }
    }
    assert!(rt; changes.next().is_none() && changes.next().is_none());
}

// The changes from the first to the second, in order, and no other.
fn assert_told(rt: &impl Abort, map: &NumberMap, other: &NumberMap, wanted: &[Told]) {
    let mut changes = map.diff(other);
    for change in wanted {
        assert!(rt; changes.size_hint() == (0, None));
        assert!(rt; told(changes.next()) == Some(*change));
    }
    assert!(rt; changes.next().is_none() && changes.next().is_none());
}

// Each key with ten times itself but the key 2, which has the value.
fn with_two(rt: &impl Abort, map: NumberMap, value: u64) -> NumberMap {
    let mut map = map;
    put(rt, &mut map, 2, value);
    map
}

const CHANGES: [Told; 4] = [
    (1, Some(10), None),
    (2, Some(20), Some(7)),
    (0, None, Some(0)),
    (64, None, Some(640)),
];

const BACK: [Told; 4] = [
    (0, Some(0), None),
    (64, Some(640), None),
    (2, Some(7), Some(20)),
    (1, None, Some(10)),
];

// A walk goes by the lowest digit first: in base 64 the key 64 comes right after 0.
#[test]
fn worked_changes(rt: HostRuntime) {
    let map = map_of(&rt, rt.alloc(), 64, &[1, 2, 3, 5]);
    let other = with_two(&rt, map_of(&rt, rt.alloc(), 64, &[5, 64, 3, 0]), 7);
    assert_told(&rt, &map, &other, &CHANGES);
    assert_told(&rt, &other, &map, &BACK);
    assert_told(&rt, &map, &map, &[]);
}

// From no pairs and to none, in base 2.
#[test]
fn changes_of_none(rt: HostRuntime) {
    let none = map_of(&rt, rt.alloc(), 2, &[]);
    let map = map_of(&rt, rt.alloc(), 2, &[1, 2]);
    assert_told(
        &rt,
        &none,
        &map,
        &[(2, None, Some(20)), (1, None, Some(10))],
    );
    assert_told(
        &rt,
        &map,
        &none,
        &[(2, Some(20), None), (1, Some(10), None)],
    );
    assert_told(&rt, &none, &none, &[]);
}
