//! Requests for memory, counted.
use crate::red_black_tree_map::scenarios::{copied, put, take_out};
use rpds_faults::{FailingAllocator, requests};
use rpds_tree::map::red_black_tree_map::RedBlackTreeMap;
use std::alloc::Global;
use std::ops::Bound;
use std::process::Abort;

type CountedMap<'f> = RedBlackTreeMap<u64, u64, &'f FailingAllocator<Global>>;

// The key at a place: the places 1 to 10,006 have as many keys, in no simple order.
fn key_at(place: u64) -> u64 {
    place.wrapping_mul(7919) % 10_007
}

// The map of the keys at the places from 1 on.
fn map_of<'f>(rt: &impl Abort, alloc: &'f FailingAllocator<Global>, size: u64) -> CountedMap<'f> {
    let mut map = RedBlackTreeMap::new(alloc);
    for place in 1..=size {
        put(rt, &mut map, key_at(place), place);
    }
    assert!(rt; map.size() as u64 == size);
    map
}

fn ten_thousand<'f>(rt: &impl Abort, alloc: &'f FailingAllocator<Global>) -> CountedMap<'f> {
    map_of(rt, alloc, 10_000)
}

#[test]
fn removal_from_an_unshared_map_takes_no_memory(rt: HostRuntime) {
    let alloc = FailingAllocator::new(rt.alloc());
    let mut map = map_of(&rt, &alloc, 3_000);
    let _before = requests(&alloc);
    for place in 1..3_001u64 {
        assert!(rt; take_out(&rt, &mut map, &key_at(3_001 - place)));
    }
    assert!(rt; map.is_empty() && requests(&alloc) == 0);
}

// The key at the position has that rank, and as many behind it as there are.
fn assert_position(rt: &impl Abort, map: &CountedMap<'_>, position: usize) {
    if let Some((key, _)) = map.nth(position) {
        assert!(rt; map.rank(key) == position);
        let behind = map.range_len(Bound::Excluded(key), Bound::Unbounded);
        assert!(rt; position.wrapping_add(behind) == 9_999);
    } else {
        assert!(rt; position == 10_000);
    }
}

#[test]
fn positions_take_no_memory(rt: HostRuntime) {
    let alloc = FailingAllocator::new(rt.alloc());
    let map = ten_thousand(&rt, &alloc);
    let _before = requests(&alloc);
    for position in [0usize, 1, 4_999, 9_999, 10_000] {
        assert_position(&rt, &map, position);
    }
    assert!(rt; requests(&alloc) == 0);
}

// Keys that aren't there are taken out without a request.
fn assert_absent_keys(rt: &impl Abort, map: &mut CountedMap<'_>, alloc: &FailingAllocator<Global>) {
    let _before = requests(alloc);
    for place in 10_001..10_008u64 {
        assert!(rt; !take_out(rt, map, &key_at(place)));
    }
    assert!(rt; map.size() == 10_000 && requests(alloc) == 0);
}

#[test]
fn absent_keys_of_a_shared_map_take_no_memory(rt: HostRuntime) {
    let alloc = FailingAllocator::new(rt.alloc());
    let map = ten_thousand(&rt, &alloc);
    let mut other = copied(&rt, &map);
    assert_absent_keys(&rt, &mut other, &alloc);
    assert!(rt; take_out(&rt, &mut other, &key_at(1)) && requests(&alloc) > 0);
    assert!(rt; map.size() == 10_000);
}

// How many pairs stay whose flags are true, and the requests for that.
fn kept_by_flags(
    rt: &impl Abort,
    map: &CountedMap<'_>,
    keeps: &[bool],
    alloc: &FailingAllocator<Global>,
) -> (usize, u64) {
    assert!(rt; keeps.len() == map.size());
    let _before = requests(alloc);
    let chosen = map.keep_by_flags(keeps).expect(rt, "ample memory");
    (chosen.size(), requests(alloc))
}

// The same where all go whose places are multiples of a step.
fn keep_all_but(
    rt: &impl Abort,
    map: &CountedMap<'_>,
    step: u64,
    alloc: &FailingAllocator<Global>,
    flags: Global,
) -> (usize, u64) {
    let mut keeps = Vec::new(flags);
    for place in 1..10_001u64 {
        keeps
            .push(place % step.max(1) != 0)
            .expect(rt, "ample memory");
    }
    kept_by_flags(rt, map, &keeps, alloc)
}

// The same where the pairs of the 200 least keys go.
fn keep_all_but_first(
    rt: &impl Abort,
    map: &CountedMap<'_>,
    alloc: &FailingAllocator<Global>,
    flags: Global,
) -> (usize, u64) {
    let mut keeps = Vec::new(flags);
    for place in 0..10_000u64 {
        keeps.push(place >= 200).expect(rt, "ample memory");
    }
    kept_by_flags(rt, map, &keeps, alloc)
}

// A step, how many pairs stay, and the requests for that.
const STAYS: [(u64, (usize, u64)); 3] = [(20_000, (10_000, 0)), (2, (5_000, 5_001)), (1, (0, 0))];

#[test]
fn pairs_that_stay_take_a_node_each(rt: HostRuntime) {
    let alloc = FailingAllocator::new(rt.alloc());
    let map = ten_thousand(&rt, &alloc);
    for (step, found) in STAYS {
        assert!(rt; keep_all_but(&rt, &map, step, &alloc, rt.alloc()) == found);
    }
    let (size, few) = keep_all_but(&rt, &map, 10_000, &alloc, rt.alloc());
    assert!(rt; size == 9_999 && 0 < few && few < 20);
}

// Above the least key lie 6 nodes at least: among so many pairs a path has 7 black ones. Were they copied for each pair that goes,
// that would be 1,200.
#[test]
fn pairs_that_go_share_the_nodes_that_were_copied(rt: HostRuntime) {
    let alloc = FailingAllocator::new(rt.alloc());
    let map = ten_thousand(&rt, &alloc);
    let (size, copied) = keep_all_but_first(&rt, &map, &alloc, rt.alloc());
    assert!(rt; size == 9_800 && 0 < copied && copied < 1_200);
}

// How many keys changed.
fn count_changes<'f>(old: &CountedMap<'f>, new: &CountedMap<'f>) -> u64 {
    let mut count = 0u64;
    for _ in old.diff(new) {
        count = count.wrapping_add(1);
    }
    count
}

// The neighbors of the key are those beside it in ranges of the other map, which has the key too.
fn assert_neighbors(rt: &impl Abort, map: &CountedMap<'_>, other: &CountedMap<'_>, key: u64) {
    let below = other
        .range(Bound::Unbounded, Bound::Excluded(&key))
        .next_back();
    assert!(rt; map.floor(&key) == below);
    let above = other.range(Bound::Excluded(&key), Bound::Unbounded).next();
    assert!(rt; map.ceiling(&key) == above);
}

// A version with one key less, one more, and another value.
fn version<'f>(rt: &impl Abort, map: &CountedMap<'f>) -> CountedMap<'f> {
    let mut version = copied(rt, map);
    assert!(rt; take_out(rt, &mut version, &key_at(1)));
    put(rt, &mut version, key_at(2), 0);
    put(rt, &mut version, key_at(10_001), 10_001);
    version
}

#[test]
fn neighbors_and_differences_take_no_memory(rt: HostRuntime) {
    let alloc = FailingAllocator::new(rt.alloc());
    let map = ten_thousand(&rt, &alloc);
    let other = version(&rt, &map);
    let _before = requests(&alloc);
    assert!(rt; count_changes(&map, &other) == 3 && count_changes(&map, &map) == 0);
    assert_neighbors(&rt, &map, &other, key_at(10_001));
    assert!(rt; requests(&alloc) == 0);
}

// Whether the two parts at a key, put together again, are the map.
fn is_joined(rt: &impl Abort, map: &CountedMap<'_>, key: u64) -> bool {
    let low = Bound::Included(&key);
    let part = map
        .subrange(low, Bound::Unbounded)
        .expect(rt, "ample memory");
    let rest = map
        .without_range(low, Bound::Unbounded)
        .expect(rt, "ample memory");
    rest.append(&part).expect(rt, "a rise") == *map
}

// How many pairs there are where those above the key are united with those below it.
fn united_size(
    rt: &impl Abort,
    map: &CountedMap<'_>,
    key: u64,
    alloc: &FailingAllocator<Global>,
) -> usize {
    let split = map.split(&key).expect(rt, "ample memory");
    assert!(rt; requests(alloc) < 100);
    split
        .above
        .union(&split.below)
        .expect(rt, "ample memory")
        .size()
}

// All nodes but a few are those of the map, also where it is put together again.
#[test]
fn parts_of_a_map_share_its_nodes(rt: HostRuntime) {
    let alloc = FailingAllocator::new(rt.alloc());
    let map = ten_thousand(&rt, &alloc);
    let _before = requests(&alloc);
    assert!(rt; is_joined(&rt, &map, 2_500) && requests(&alloc) < 100);
    assert!(rt; united_size(&rt, &map, 5_000, &alloc) == 9_999 && requests(&alloc) < 1_000);
}

// An iterator may have many items, and has few: memory for so many as it says that it has at least is asked for.
#[test]
fn few_of_many_numbers_take_little_memory(rt: HostRuntime) {
    let alloc = FailingAllocator::new(rt.alloc());
    let few = (0..100_000u64).filter(|number| *number % 50_000 == 0);
    let pairs = few.map(|number| (number, number));
    let map: CountedMap<'_> = RedBlackTreeMap::from_iter(&alloc, pairs).expect(&rt, "ample memory");
    assert!(&rt; map.size() == 2 && alloc.bytes() < 1_000);
}
