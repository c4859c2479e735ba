//! The text of each container: its items, or its pairs, in the order of `iter`.
use rpds_hash::map::hash_trie_map::HashTrieMap;
use rpds_hash::set::hash_trie_set::HashTrieSet;
use rpds_list::list::List;
use rpds_list::queue::Queue;
use rpds_list::stack::Stack;
use rpds_sequence::sequence::Sequence;
use rpds_serde::Saved;
use rpds_tree::map::red_black_tree_map::RedBlackTreeMap;
use rpds_tree::set::red_black_tree_set::RedBlackTreeSet;
use rpds_vector::vector::Vector;
use serde::Serialize;
use std::alloc::{AllocError, Global};
use std::process::Abort;
use std::test::Fail;

// Writes a container, and drops it.
fn assert_text<C: Drop>(
    rt: &(impl Abort + AllocGlobal),
    made: Result<C, AllocError>,
    wanted: &str,
) -> Result<(), Fail>
where
    Saved<C>: Serialize,
{
    let text = serde_json::to_string(rt.alloc(), &Saved(made?)).expect(rt, "a text");
    assert_eq!(rt; text.as_str(), wanted);
    Ok(())
}

#[test]
fn lists(rt: HostRuntime) -> Result<(), Fail> {
    assert_text(&rt, List::from_iter(rt.alloc(), [3u64, 1, 2]), "[3,1,2]")?;
    assert_text(&rt, Stack::new(rt.alloc()).push(3u64)?.push(1), "[1,3]")?;
    assert_text(&rt, Queue::from_iter(rt.alloc(), [3u64, 1, 2]), "[3,1,2]")
}

#[test]
fn by_position(rt: HostRuntime) -> Result<(), Fail> {
    assert_text(&rt, Vector::from_iter(rt.alloc(), [3u64, 1, 2]), "[3,1,2]")?;
    assert_text(
        &rt,
        Sequence::from_iter(rt.alloc(), [3u64, 1, 2]),
        "[3,1,2]",
    )
}

#[test]
fn ordered(rt: HostRuntime) -> Result<(), Fail> {
    let pairs = [(3u64, 30u64), (1, 10), (2, 20)];
    let map = RedBlackTreeMap::from_iter(rt.alloc(), pairs);
    assert_text(&rt, map, "{\"1\":10,\"2\":20,\"3\":30}")?;
    let set = RedBlackTreeSet::from_iter(rt.alloc(), [3u64, 1, 2]);
    assert_text(&rt, set, "[1,2,3]")
}

// One key: the order of several is that of their hashes.
#[test]
fn hashed(rt: HostRuntime) -> Result<(), Fail> {
    let map = HashTrieMap::new(rt.alloc()).insert(3u64, 30u64);
    assert_text(&rt, map, "{\"3\":30}")?;
    assert_text(&rt, HashTrieSet::new(rt.alloc()).insert(3u64), "[3]")
}

#[test]
fn empty(rt: HostRuntime) -> Result<(), Fail> {
    assert_text(&rt, Ok(List::<u64>::new(rt.alloc())), "[]")?;
    assert_text(&rt, Ok(RedBlackTreeMap::<u64, u64>::new(rt.alloc())), "{}")
}

#[test]
fn one_in_another(rt: HostRuntime) -> Result<(), Fail> {
    let inner = Saved(List::from_iter(rt.alloc(), [1u64, 2])?);
    assert_text(&rt, Vector::from_iter(rt.alloc(), [inner]), "[[1,2]]")
}
