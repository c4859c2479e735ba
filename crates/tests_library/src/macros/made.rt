//! A container made by each macro: proved once, for the digits that show the order and for the items of which none is lost.
use rpds::map::hash_trie_map::DefaultBuildHasher;
use rpds::{
    HashTrieMap, HashTrieSet, List, Queue, RedBlackTreeMap, RedBlackTreeSet, Sequence, Stack,
    Vector, ht_map, ht_set, list, queue, rbt_map, rbt_set, sequence, stack, vector,
};
use std::alloc::{AllocError, Allocator};
use std::hash::Hash;

// What makes the arguments of a macro.
pub(crate) trait Items<T> {
    // The argument of this number.
    fn item(&self, number: u64) -> T;
}

pub(crate) fn list_of<T: Drop, I: Items<T>, A: Allocator + Copy>(
    items: &I,
    alloc: A,
) -> Result<List<T, A>, AllocError> {
    list![in alloc; items.item(1), items.item(2), items.item(3)]
}

pub(crate) fn stack_of<T: Drop, I: Items<T>, A: Allocator + Copy>(
    items: &I,
    alloc: A,
) -> Result<Stack<T, A>, AllocError> {
    stack![in alloc; items.item(1), items.item(2), items.item(3)]
}

pub(crate) fn queue_of<T: Drop, I: Items<T>, A: Allocator + Copy>(
    items: &I,
    alloc: A,
) -> Result<Queue<T, A>, AllocError> {
    queue![in alloc; items.item(1), items.item(2)]
}

pub(crate) fn vector_of<T: Drop, I: Items<T>, A: Allocator + Copy>(
    items: &I,
    alloc: A,
) -> Result<Vector<T, A>, AllocError> {
    vector![in alloc; items.item(1), items.item(2)]
}

pub(crate) fn sequence_of<T: Drop, I: Items<T>, A: Allocator + Copy>(
    items: &I,
    alloc: A,
) -> Result<Sequence<T, A>, AllocError> {
    sequence![in alloc; items.item(1), items.item(2)]
}

pub(crate) fn hashed_map_of<T: Eq + Hash + Drop, I: Items<T>, A: Allocator + Copy>(
    items: &I,
    alloc: A,
) -> Result<HashTrieMap<T, T, DefaultBuildHasher, A>, AllocError> {
    ht_map![in alloc; items.item(3) => items.item(4), items.item(1) => items.item(2)]
}

pub(crate) fn hashed_set_of<T: Eq + Hash + Drop, I: Items<T>, A: Allocator + Copy>(
    items: &I,
    alloc: A,
) -> Result<HashTrieSet<T, DefaultBuildHasher, A>, AllocError> {
    ht_set![in alloc; items.item(3), items.item(1)]
}

pub(crate) fn ordered_map_of<T: Ord + Drop, I: Items<T>, A: Allocator + Copy>(
    items: &I,
    alloc: A,
) -> Result<RedBlackTreeMap<T, T, A>, AllocError> {
    rbt_map![in alloc; items.item(3) => items.item(4), items.item(1) => items.item(2)]
}

pub(crate) fn ordered_set_of<T: Ord + Drop, I: Items<T>, A: Allocator + Copy>(
    items: &I,
    alloc: A,
) -> Result<RedBlackTreeSet<T, A>, AllocError> {
    rbt_set![in alloc; items.item(3), items.item(1)]
}
