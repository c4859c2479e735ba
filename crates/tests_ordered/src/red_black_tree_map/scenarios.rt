//! Maps of tests.
use rpds_tree::map::red_black_tree_map::RedBlackTreeMap;
use std::alloc::Allocator;
use std::process::Abort;

// Puts the pair into the map in place.
pub(crate) fn put<K: Ord + Drop, V: Drop, A: Allocator + Copy>(
    rt: &impl Abort,
    map: &mut RedBlackTreeMap<K, V, A>,
    key: K,
    value: V,
) {
    map.insert_mut(key, value).expect(rt, "ample memory");
}

// Takes the key out of the map in place; whether it was there.
pub(crate) fn take_out<K: Ord + Drop, V: Drop, A: Allocator + Copy>(
    rt: &impl Abort,
    map: &mut RedBlackTreeMap<K, V, A>,
    key: &K,
) -> bool {
    map.remove_mut(key).expect(rt, "ample memory")
}

// A version that shares all of the map.
pub(crate) fn copied<K: Ord + Drop, V: Drop, A: Allocator + Copy>(
    rt: &impl Abort,
    map: &RedBlackTreeMap<K, V, A>,
) -> RedBlackTreeMap<K, V, A> {
    map.clone().expect(rt, "ample memory")
}

// The map of the numbers 1 to `last`, each with ten times itself.
pub(crate) fn numbers_to<A: Allocator + Copy>(
    rt: &impl Abort,
    alloc: A,
    last: u64,
) -> RedBlackTreeMap<u64, u64, A> {
    let mut map = RedBlackTreeMap::new(alloc);
    for number in 1..=last {
        put(rt, &mut map, number, number.wrapping_mul(10));
    }
    map
}
