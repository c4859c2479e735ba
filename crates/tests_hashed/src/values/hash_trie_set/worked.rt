//! Worked rows.
use crate::values::hash_trie_map::keys::Tagged;
use rpds_faults::texts_are;
use rpds_hash::identity_build::IdentityBuild;
use rpds_hash::set::hash_trie_set::{HashTrieSet, SetChange};
use std::alloc::Global;
use std::iter::Extend;
use std::process::Abort;

// A set whose members are their own hashes.
type NumberSet = HashTrieSet<u64, IdentityBuild>;

#[test]
fn an_equal_item_takes_the_place_of_the_stored_one(rt: HostRuntime) {
    let mut set = HashTrieSet::new(rt.alloc());
    for tag in ['a', 'b'] {
        set.insert_mut(Tagged { id: 1, tag })
            .expect(&rt, "ample memory");
    }
    assert!(rt; set.size() == 1);
    match set.get(&Tagged { id: 1, tag: 'a' }) {
        Some(stored) => assert!(rt; stored.tag == 'b'),
        None => panic!(&rt; "the item is lost"),
    }
}

// In the order of the iterator: by the lowest digit in which two hashes differ.
#[test]
fn text(rt: HostRuntime) {
    let none = HashTrieSet::new_with_hasher(rt.alloc(), IdentityBuild {});
    let one = none.insert(65u64).expect(&rt, "ample memory");
    let set = one.insert(1).expect(&rt, "ample memory");
    let found = texts_are(
        rt.alloc(),
        (&none, &set, &set),
        "{} {1, 65} {  1,  65}",
        "{} {1, 65} {\n    1,\n    65,\n}",
    );
    assert!(rt; found == Ok(true));
}

#[test]
fn collected(rt: HostRuntime) {
    let items = [3u64, 1, 2, 2];
    let made = HashTrieSet::<u64>::from_iter(rt.alloc(), items).expect(&rt, "ample memory");
    assert!(rt; made.size() == 3);
    assert!(rt; made.contains(&1) && made.contains(&2) && made.contains(&3));
    let same = HashTrieSet::<u64>::from_array(rt.alloc(), items).expect(&rt, "ample memory");
    assert!(rt; same == made);
}

// By std's trait, of items and of references to them.
#[test]
fn extended(rt: HostRuntime) {
    let mut set = HashTrieSet::new_with_hasher(rt.alloc(), IdentityBuild {});
    Extend::extend(&mut set, [1u64, 2]).expect(&rt, "ample memory");
    let more = [2u64, 3];
    Extend::extend(&mut set, more.iter()).expect(&rt, "ample memory");
    assert!(rt; set.size() == 3);
    assert!(rt; set.contains(&1) && set.contains(&2) && set.contains(&3));
}

fn set_of(rt: &impl Abort, alloc: Global, members: &[u64]) -> NumberSet {
    let mut set = HashTrieSet::new_with_hasher(alloc, IdentityBuild {});
    for member in members {
        set.insert_mut(*member).expect(rt, "ample memory");
    }
    set
}

// The changes from the first to the second, in order, and no other.
fn assert_changes(
    rt: &impl Abort,
    set: &NumberSet,
    other: &NumberSet,
    wanted: &[SetChange<'_, u64>],
) {
    let mut changes = set.diff(other);
    for change in wanted {
        assert!(rt; changes.size_hint() == (0, None));
        assert!(rt; changes.next() == Some(*change));
    }
    assert!(rt; changes.next().is_none() && changes.next().is_none());
}

#[test]
fn differences(rt: HostRuntime) {
    let set = set_of(&rt, rt.alloc(), &[1, 2, 3, 5]);
    let other = set_of(&rt, rt.alloc(), &[5, 64, 2, 0]);
    let wanted = [
        SetChange::Removed(&1),
        SetChange::Removed(&3),
        SetChange::Added(&0),
        SetChange::Added(&64),
    ];
    assert_changes(&rt, &set, &other, &wanted);
    assert_changes(&rt, &set, &set, &[]);
}
