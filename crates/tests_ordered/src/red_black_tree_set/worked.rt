//! Worked rows.
use crate::red_black_tree_map::keys::{CountingKey, Tagged};
use rpds_faults::texts_are;
use rpds_tree::set::red_black_tree_set::RedBlackTreeSet;
use std::cell::Cell;

#[test]
fn an_equal_item_takes_the_place_of_the_stored_one(rt: HostRuntime) {
    let mut set = RedBlackTreeSet::new(rt.alloc());
    for tag in ['a', 'b'] {
        set.insert_mut(Tagged { id: 1, tag })
            .expect(&rt, "ample memory");
    }
    assert!(rt; set.size() == 1);
    match set.get(&Tagged { id: 1, tag: 'a' }) {
        Some(stored) => assert!(rt; stored.tag == 'b'),
        None => panic!(rt; "the item is lost"),
    }
}

#[test]
fn text(rt: HostRuntime) {
    let none: RedBlackTreeSet<i64> = RedBlackTreeSet::new(rt.alloc());
    let set = RedBlackTreeSet::from_iter(rt.alloc(), [20i64, 1]).expect(&rt, "ample memory");
    let found = texts_are(
        rt.alloc(),
        (&none, &set, &set),
        "{} {1, 20} {  1,  20}",
        "{} {1, 20} {\n    1,\n    20,\n}",
    );
    assert!(rt; found == Ok(true));
}

// Each member but the first is compared with the one before it.
#[test]
fn a_sorted_list_is_gone_over_once(rt: HostRuntime) {
    let compared = Cell::new(0u64);
    let mut members = Vec::new(rt.alloc());
    for number in 0..130u64 {
        members
            .push(CountingKey {
                number,
                compared: &compared,
            })
            .expect(&rt, "ample memory");
    }
    let set = RedBlackTreeSet::from_sorted(rt.alloc(), members);
    assert!(rt; set.is_ok() && compared.get() == 129);
}
