//! Which of two equal keys stays: keys that carry a tag show it.
use crate::values::hash_trie_map::keys::Tagged;
use rpds_hash::map::hash_trie_map::{HashTrieMap, MapChange};
use std::alloc::{AllocError, Global};
use std::process::Abort;

type TaggedMap = HashTrieMap<Tagged, u64>;

// The tag and the value that an id has, if it is there.
type Stored = Option<(char, u64)>;

// Two maps: what their ids are below, and one of how many each of them has.
type Sizes = (u64, u64, u64);

// What makes a map of two.
#[derive(Clone, Copy, Debug)]
enum Call {
    Union,
    UnionWith,
    Intersection,
    Difference,
    SymmetricDifference,
    Extend,
    Replace,
    Update,
}

const OURS: Stored = Some(('a', 1));

const THEIRS: Stored = Some(('b', 2));

// What a call has where both maps have the id, where ours alone, and where theirs alone.
const ROWS: [(Call, [Stored; 3]); 8] = [
    (Call::Union, [OURS, OURS, THEIRS]),
    (Call::UnionWith, [Some(('a', 3)), OURS, THEIRS]),
    (Call::Intersection, [OURS, None, None]),
    (Call::Difference, [None, OURS, None]),
    (Call::SymmetricDifference, [None, OURS, THEIRS]),
    (Call::Extend, [THEIRS, OURS, THEIRS]),
    (Call::Replace, [THEIRS, OURS, THEIRS]),
    (Call::Update, [Some(('b', 3)), OURS, THEIRS]),
];

// A thousand ids take three levels at degree 64, and four at degree 8.
const SIZES: [Sizes; 5] = [
    (3, 1, 2),
    (70, 2, 3),
    (1_000, 2, 3),
    (1_000, 40, 1),
    (1_000, 1, 40),
];

// Whether a map has the id that has one of so many, in no simple order.
fn has(id: u64, of: u64) -> bool {
    (id.wrapping_add(of).wrapping_mul(6364136223846793005) >> 33) % of.max(1) == 0
}

// Puts the ids of one of so many into a map.
fn fill(rt: &impl Abort, map: &mut TaggedMap, end: u64, of: u64, stored: (char, u64)) {
    let (tag, value) = stored;
    for id in 0..end {
        if has(id, of) {
            map.insert_mut(Tagged { id, tag }, value)
                .expect(rt, "ample memory");
        }
    }
}

// Puts one of their keys into a map.
fn put(map: &mut TaggedMap, key: Tagged, call: Call) -> Result<(), AllocError> {
    match call {
        Call::Extend => map.extend([(key, 2)]),
        Call::Replace => match map.replace(key, 2) {
            Ok(_) => Ok(()),
            Err(error) => Err(error),
        },
        _ => map.update_mut(key, |old| Ok(old.copied().unwrap_or(0).wrapping_add(2))),
    }
}

// Puts each of their keys into another handle to ours.
fn filled(ours: &TaggedMap, theirs: &TaggedMap, call: Call) -> Result<TaggedMap, AllocError> {
    let mut map = ours.clone()?;
    for (key, _) in theirs {
        let key = Tagged {
            id: key.id,
            tag: key.tag,
        };
        put(&mut map, key, call)?;
    }
    Ok(map)
}

fn made(ours: &TaggedMap, theirs: &TaggedMap, call: Call) -> Result<TaggedMap, AllocError> {
    match call {
        Call::Union => ours.union(theirs),
        Call::UnionWith => ours.union_with(theirs, |_key, our, their| Ok(our.wrapping_add(*their))),
        Call::Intersection => ours.intersection(theirs),
        Call::Difference => ours.difference(theirs),
        Call::SymmetricDifference => ours.symmetric_difference(theirs),
        Call::Extend | Call::Replace | Call::Update => filled(ours, theirs, call),
    }
}

fn stored(map: &TaggedMap, id: u64) -> Stored {
    match map.get_key_value(&Tagged { id, tag: 'c' }) {
        Some((key, value)) => Some((key.tag, *value)),
        None => None,
    }
}

// What a row has at the id.
fn wanted(row: &[Stored; 3], id: u64, sizes: Sizes) -> Stored {
    let [both, ours, theirs] = *row;
    let (_, our_of, their_of) = sizes;
    match (has(id, our_of), has(id, their_of)) {
        (true, true) => both,
        (true, false) => ours,
        (false, true) => theirs,
        (false, false) => None,
    }
}

fn assert_row(
    rt: &impl Abort,
    ours: &TaggedMap,
    theirs: &TaggedMap,
    row: &(Call, [Stored; 3]),
    sizes: Sizes,
) {
    let (call, stays) = row;
    let map = made(ours, theirs, *call).expect(rt, "ample memory");
    for id in 0..sizes.0 {
        assert!(rt; stored(&map, id) == wanted(stays, id, sizes), "{call:?}");
    }
}

// A key that goes is told as our map has it, and one that stays or comes as theirs has it.
fn assert_changes(rt: &impl Abort, ours: &TaggedMap, theirs: &TaggedMap, sizes: Sizes) {
    let (_, our_of, their_of) = sizes;
    for change in ours.diff(theirs) {
        let (key, is_there) = match change {
            MapChange::Removed(key, _) => (key, (true, false)),
            MapChange::Added(key, _) => (key, (false, true)),
            MapChange::Changed(key, _, _) => (key, (true, true)),
        };
        assert!(rt; (has(key.id, our_of), has(key.id, their_of)) == is_there);
        assert!(rt; (key.tag == 'b') == is_there.1);
    }
}

// Our map is of the degree 64, and theirs is handed in.
fn assert_rows(rt: &impl Abort, alloc: Global, mut theirs: TaggedMap, sizes: Sizes) {
    let (end, our_of, their_of) = sizes;
    let mut ours = HashTrieMap::new(alloc);
    fill(rt, &mut ours, end, our_of, ('a', 1));
    fill(rt, &mut theirs, end, their_of, ('b', 2));
    for row in &ROWS {
        assert_row(rt, &ours, &theirs, row, sizes);
    }
    assert_changes(rt, &ours, &theirs, sizes);
}

// Two tries of one degree are walked together.
#[test]
fn the_right_key_stays(rt: HostRuntime) {
    for sizes in &SIZES {
        assert_rows(&rt, rt.alloc(), HashTrieMap::new(rt.alloc()), *sizes);
    }
}

// Of two degrees, keys are looked up.
#[test]
fn the_right_key_stays_of_two_degrees(rt: HostRuntime) {
    for sizes in &SIZES {
        let theirs = HashTrieMap::new_with_degree(rt.alloc(), 8);
        assert_rows(&rt, rt.alloc(), theirs, *sizes);
    }
}
