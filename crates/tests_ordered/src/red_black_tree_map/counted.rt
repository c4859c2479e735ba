//! How many keys the counted calls compare. The contracts of the two functions here have the worked rows.
ghost use Rattle.tests_ordered.specs.Compared.{ComparesRows};

use crate::red_black_tree_map::scenarios::{copied, numbers_to};
use rpds_core::steps::Steps;
use rpds_tree::map::red_black_tree_map::RedBlackTreeMap;
use std::alloc::{AllocError, Allocator, Global};
use std::process::Abort;

// Looks the key up, and tells whether it is there.
fn looked_up<K: Ord, V, A: Allocator>(
    map: &RedBlackTreeMap<K, V, A>,
    key: &K,
    steps: &mut Steps,
) -> bool
    ensures { ComparesRows map.now steps.old steps.new }
{
    map.get_counted(key, steps).is_some()
}

// Takes the key out, and tells whether it was there.
fn taken_out<K: Ord + Drop, V: Drop, A: Allocator + Copy>(
    map: &mut RedBlackTreeMap<K, V, A>,
    key: &K,
    steps: &mut Steps,
) -> Result<bool, AllocError>
    ensures { ComparesRows map.old steps.old steps.new }
{
    map.remove_mut_counted(key, steps)
}

// Looks the key up, and takes it out of another handle to the map.
fn assert_row(
    rt: &impl Abort,
    map: &RedBlackTreeMap<u64, u64>,
    key: u64,
    there: bool,
    steps: &mut Steps,
) {
    assert!(rt; looked_up(map, &key, steps) == there);
    let mut fewer = copied(rt, map);
    let found = taken_out(&mut fewer, &key, steps).expect(rt, "ample memory");
    assert!(rt; found == there);
}

// The rows of the map of the numbers 1 to `last`.
fn assert_rows(rt: &impl Abort, alloc: Global, last: u64) {
    let mut steps = Steps::new();
    let map = numbers_to(rt, alloc, last);
    assert!(rt; map.size() as u64 == last);
    for key in [0u64, 1, 4, 250, 999, 1000, 1001] {
        assert_row(rt, &map, key, 1 <= key && key <= last, &mut steps);
    }
}

#[test]
fn steps_of_look_ups_and_removals(rt: HostRuntime) {
    for last in [1000u64, 500, 7, 1, 0] {
        assert_rows(&rt, rt.alloc(), last);
    }
}
