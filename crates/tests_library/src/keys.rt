//! Containers that were made in two ways: each is found by the other as a key of a map.
use rpds::{HashTrieMap, List, Queue, RedBlackTreeMap, RedBlackTreeSet, Stack, Vector};
use std::alloc::{AllocError, Global};
use std::hash::Hash;
use std::process::Abort;

// A container of 1, 2 and 3, or a map of each of them to ten times itself.
trait TwoWays: Ord + Hash + Drop + Sized {
    // By calls that hand out a container.
    fn by_versions(alloc: Global) -> Result<Self, AllocError>;

    // Of other items, by a change in place.
    fn in_place(alloc: Global) -> Result<Self, AllocError>;
}

impl TwoWays for List<u64> {
    fn by_versions(alloc: Global) -> Result<Self, AllocError> {
        List::new(alloc).push_front(3)?.push_front(2)?.push_front(1)
    }

    // It was 3, 2, 1.
    fn in_place(alloc: Global) -> Result<Self, AllocError> {
        let mut list = List::from_iter(alloc, [3, 2, 1])?;
        list.reverse_mut()?;
        Ok(list)
    }
}

impl TwoWays for Stack<u64> {
    fn by_versions(alloc: Global) -> Result<Self, AllocError> {
        Stack::new(alloc).push(3)?.push(2)?.push(1)
    }

    // A 9 was on top.
    fn in_place(alloc: Global) -> Result<Self, AllocError> {
        let mut stack = Stack::from_iter(alloc, [9, 1, 2, 3])?;
        stack.pop_mut()?;
        Ok(stack)
    }
}

impl TwoWays for Queue<u64> {
    // All items wait.
    fn by_versions(alloc: Global) -> Result<Self, AllocError> {
        Queue::new(alloc).enqueue(1)?.enqueue(2)?.enqueue(3)
    }

    // None waits, and a 9 was at the front.
    fn in_place(alloc: Global) -> Result<Self, AllocError> {
        let mut queue = Queue::from_iter(alloc, [9, 1, 2, 3])?;
        queue.dequeue_mut()?;
        Ok(queue)
    }
}

impl TwoWays for Vector<u64> {
    // Its bits are 5.
    fn by_versions(alloc: Global) -> Result<Self, AllocError> {
        Vector::new(alloc).push_back(1)?.push_back(2)?.push_back(3)
    }

    // Its bits are 1.
    fn in_place(alloc: Global) -> Result<Self, AllocError> {
        let mut vector = Vector::new_with_bits(alloc, 1);
        vector.extend([1, 2, 9])?;
        vector.set_mut(2, 3)?;
        Ok(vector)
    }
}

impl TwoWays for RedBlackTreeMap<u64, u64> {
    fn by_versions(alloc: Global) -> Result<Self, AllocError> {
        RedBlackTreeMap::new(alloc)
            .insert(3, 30)?
            .insert(2, 20)?
            .insert(1, 10)
    }

    // It had 9 too, and 2 to 21.
    fn in_place(alloc: Global) -> Result<Self, AllocError> {
        let pairs = [(9, 90), (2, 21), (1, 10), (3, 30), (2, 20)];
        let mut map = RedBlackTreeMap::from_iter(alloc, pairs)?;
        map.remove_mut(&9)?;
        Ok(map)
    }
}

impl TwoWays for RedBlackTreeSet<u64> {
    fn by_versions(alloc: Global) -> Result<Self, AllocError> {
        RedBlackTreeSet::new(alloc).insert(3)?.insert(2)?.insert(1)
    }

    // It had 9 too.
    fn in_place(alloc: Global) -> Result<Self, AllocError> {
        let mut set = RedBlackTreeSet::from_iter(alloc, [9, 2, 1, 3])?;
        set.remove_mut(&9)?;
        Ok(set)
    }
}

fn by_versions<K: TwoWays>(rt: &impl Abort, alloc: Global) -> K {
    K::by_versions(alloc).expect(rt, "ample memory")
}

fn in_place<K: TwoWays>(rt: &impl Abort, alloc: Global) -> K {
    K::in_place(alloc).expect(rt, "ample memory")
}

// An ordered map takes both for one key, of which it keeps the later value.
fn assert_ordered<K: TwoWays>(rt: &impl Abort, alloc: Global) {
    let mut map = RedBlackTreeMap::new(alloc);
    map.insert_mut(by_versions::<K>(rt, alloc), 1u64)
        .expect(rt, "ample memory");
    assert_ordered_value(rt, &map, &in_place(rt, alloc), 1);
    map.insert_mut(in_place(rt, alloc), 2)
        .expect(rt, "ample memory");
    assert_ordered_value(rt, &map, &in_place(rt, alloc), 2);
}

// There is one pair, of this key and this value.
fn assert_ordered_value<K: TwoWays>(
    rt: &impl Abort,
    map: &RedBlackTreeMap<K, u64>,
    key: &K,
    value: u64,
) {
    assert!(rt; map.get(key) == Some(&value));
    assert!(rt; map.size() == 1 && map.values().next() == Some(&value));
}

// A hashed map does so too.
fn assert_hashed<K: TwoWays>(rt: &impl Abort, alloc: Global) {
    let mut map = HashTrieMap::new(alloc);
    map.insert_mut(by_versions::<K>(rt, alloc), 1u64)
        .expect(rt, "ample memory");
    assert_hashed_value(rt, &map, &in_place(rt, alloc), 1);
    map.insert_mut(in_place(rt, alloc), 2)
        .expect(rt, "ample memory");
    assert_hashed_value(rt, &map, &in_place(rt, alloc), 2);
}

// There is one pair, of this key and this value.
fn assert_hashed_value<K: TwoWays>(
    rt: &impl Abort,
    map: &HashTrieMap<K, u64>,
    key: &K,
    value: u64,
) {
    assert!(rt; map.get(key) == Some(&value));
    assert!(rt; map.size() == 1 && map.values().next() == Some(&value));
}

fn assert_found<K: TwoWays>(rt: &impl Abort, alloc: Global) {
    assert_ordered::<K>(rt, alloc);
    assert_hashed::<K>(rt, alloc);
}

// Queues of another split, vectors of other bits, trees of another shape.
#[test]
fn equal_keys_made_in_two_ways(rt: HostRuntime) {
    assert_found::<List<u64>>(&rt, rt.alloc());
    assert_found::<Stack<u64>>(&rt, rt.alloc());
    assert_found::<Queue<u64>>(&rt, rt.alloc());
    assert_found::<Vector<u64>>(&rt, rt.alloc());
    assert_found::<RedBlackTreeMap<u64, u64>>(&rt, rt.alloc());
    assert_found::<RedBlackTreeSet<u64>>(&rt, rt.alloc());
}
