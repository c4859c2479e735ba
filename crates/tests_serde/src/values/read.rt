//! What is read of texts: all of it, in order; of a key that comes twice the last value; and which texts are refused.
use rpds_hash::map::hash_trie_map::HashTrieMap;
use rpds_hash::set::hash_trie_set::HashTrieSet;
use rpds_list::list::List;
use rpds_list::queue::Queue;
use rpds_list::stack::Stack;
use rpds_sequence::sequence::Sequence;
use rpds_serde::Saved;
use rpds_tree::map::red_black_tree_map::RedBlackTreeMap;
use rpds_tree::set::red_black_tree_set::RedBlackTreeSet;
use rpds_vector::vector::Vector;
use serde::Deserialize;
use std::alloc::AllocError;
use std::process::Abort;
use std::test::Fail;

// What is read of the text is this container.
fn assert_read<'de, C: PartialEq + Drop>(
    rt: &(impl Abort + AllocGlobal),
    text: &'de str,
    wanted: Result<C, AllocError>,
) -> Result<(), Fail>
where
    Saved<C>: Deserialize<'de>,
{
    let read: Saved<C> = serde_json::from_str(rt.alloc(), text).expect(rt, "a container");
    assert!(rt; read.0 == wanted?, "{text}");
    Ok(())
}

#[test]
fn lists(rt: HostRuntime) -> Result<(), Fail> {
    assert_read(&rt, "[3,1,2]", List::from_iter(rt.alloc(), [3u64, 1, 2]))?;
    assert_read(&rt, "[3,1,2]", Stack::from_iter(rt.alloc(), [3u64, 1, 2]))?;
    assert_read(&rt, " [ 3 , 1 ] ", Queue::from_iter(rt.alloc(), [3u64, 1]))
}

#[test]
fn by_position(rt: HostRuntime) -> Result<(), Fail> {
    assert_read(&rt, "[3,1,2]", Vector::from_iter(rt.alloc(), [3u64, 1, 2]))?;
    assert_read(
        &rt,
        "[3,1,2]",
        Sequence::from_iter(rt.alloc(), [3u64, 1, 2]),
    )
}

#[test]
fn sets(rt: HostRuntime) -> Result<(), Fail> {
    assert_read(
        &rt,
        "[3,1,3]",
        RedBlackTreeSet::from_iter(rt.alloc(), [1u64, 3]),
    )?;
    let hashed = HashTrieSet::new(rt.alloc()).insert(1u64)?.insert(3);
    assert_read(&rt, "[3,1,3]", hashed)
}

#[test]
fn of_a_key_that_comes_twice_the_last_value(rt: HostRuntime) -> Result<(), Fail> {
    let text = "{\"1\":10,\"2\":20,\"1\":11}";
    let pairs = [(1u64, 11u64), (2, 20)];
    assert_read(&rt, text, RedBlackTreeMap::from_iter(rt.alloc(), pairs))?;
    let hashed = HashTrieMap::new(rt.alloc())
        .insert(1u64, 11u64)?
        .insert(2, 20u64);
    assert_read(&rt, text, hashed)
}

fn refusal<'de, C: Drop>(rt: &(impl Abort + AllocGlobal), text: &'de str) -> serde_json::Error
where
    Saved<C>: Deserialize<'de>,
{
    let read: Result<Saved<C>, serde_json::Error> = serde_json::from_str(rt.alloc(), text);
    read.err().expect(rt, "an error")
}

#[test]
fn what_is_refused(rt: HostRuntime) {
    assert!(rt; refusal::<List<u64>>(&rt, "{}").is_data());
    assert!(rt; refusal::<List<u64>>(&rt, "[1,\"x\"]").is_data());
    assert!(rt; refusal::<Vector<u64>>(&rt, "[1,2").is_eof());
    assert!(rt; refusal::<RedBlackTreeMap<u64, u64>>(&rt, "[]").is_data());
    assert!(rt; refusal::<RedBlackTreeMap<u64, u64>>(&rt, "{\"1\":}").is_syntax());
}
