//! What the macros make, and the order in which they evaluate.
use crate::macros::made::{
    Items, hashed_map_of, hashed_set_of, list_of, ordered_map_of, ordered_set_of, queue_of,
    sequence_of, stack_of, vector_of,
};
use rpds::{
    HashTrieMap, HashTrieSet, List, Queue, RedBlackTreeMap, RedBlackTreeSet, Sequence, Stack,
    Vector, ht_map, ht_set, list, queue, rbt_map, rbt_set, sequence, stack, vector,
};
use std::alloc::{AllocError, Global};
use std::cell::Cell;
use std::fmt::Display;
use std::process::Abort;

// The cell has the digits that were evaluated, in order.
impl Items<u64> for Cell<u64> {
    fn item(&self, digit: u64) -> u64 {
        self.set(self.get().wrapping_mul(10).wrapping_add(digit));
        digit
    }
}

// The arguments were evaluated in this order.
fn assert_seen(rt: &impl Abort, seen: &Cell<u64>, order: u64) {
    assert_eq!(rt; seen.get(), order);
}

// The arguments were evaluated in this order, and what was made has this text.
fn assert_order<T: Display + Drop>(
    rt: &impl Abort,
    alloc: Global,
    made: Result<T, AllocError>,
    seen: &Cell<u64>,
    order: u64,
    text: &str,
) {
    assert_seen(rt, seen, order);
    assert_text(rt, alloc, made, text);
}

// What was made has this text.
fn assert_text<T: Display + Drop>(
    rt: &impl Abort,
    alloc: Global,
    made: Result<T, AllocError>,
    text: &str,
) {
    let made = made.expect(rt, "ample memory");
    let shown = format!(in alloc; "{made}").expect(rt, "ample memory");
    assert_eq!(rt; shown.as_str(), text);
}

#[test]
fn the_order_in_a_list(rt: HostRuntime) {
    let seen = Cell::new(0);
    let made: Result<List<u64>, AllocError> = list_of(&seen, rt.alloc());
    assert_order(&rt, rt.alloc(), made, &seen, 321, "[1, 2, 3]");
}

#[test]
fn the_order_in_a_stack(rt: HostRuntime) {
    let seen = Cell::new(0);
    let made: Result<Stack<u64>, AllocError> = stack_of(&seen, rt.alloc());
    assert_order(&rt, rt.alloc(), made, &seen, 123, "Stack(3, 2, 1)");
}

#[test]
fn the_order_in_a_queue(rt: HostRuntime) {
    let seen = Cell::new(0);
    let made: Result<Queue<u64>, AllocError> = queue_of(&seen, rt.alloc());
    assert_order(&rt, rt.alloc(), made, &seen, 12, "Queue(1, 2)");
}

#[test]
fn the_order_in_a_vector(rt: HostRuntime) {
    let seen = Cell::new(0);
    let made: Result<Vector<u64>, AllocError> = vector_of(&seen, rt.alloc());
    assert_order(&rt, rt.alloc(), made, &seen, 12, "[1, 2]");
}

#[test]
fn the_order_in_a_sequence(rt: HostRuntime) {
    let seen = Cell::new(0);
    let made: Result<Sequence<u64>, AllocError> = sequence_of(&seen, rt.alloc());
    assert_order(&rt, rt.alloc(), made, &seen, 12, "[1, 2]");
}

#[test]
fn the_order_of_keys_and_values(rt: HostRuntime) {
    let seen = Cell::new(0);
    let made: Result<RedBlackTreeMap<u64, u64>, AllocError> = ordered_map_of(&seen, rt.alloc());
    assert_order(&rt, rt.alloc(), made, &seen, 3412, "{1: 2, 3: 4}");
}

#[test]
fn the_order_of_members(rt: HostRuntime) {
    let seen = Cell::new(0);
    let made: Result<RedBlackTreeSet<u64>, AllocError> = ordered_set_of(&seen, rt.alloc());
    assert_order(&rt, rt.alloc(), made, &seen, 31, "{1, 3}");
}

#[test]
fn the_order_of_hashed_keys_and_values(rt: HostRuntime) {
    let seen = Cell::new(0);
    let made: Result<HashTrieMap<u64, u64>, AllocError> = hashed_map_of(&seen, rt.alloc());
    assert_seen(&rt, &seen, 3412);
    let map = made.expect(&rt, "ample memory");
    assert!(rt; map.size() == 2);
    assert!(rt; map.get(&1) == Some(&2) && map.get(&3) == Some(&4));
}

#[test]
fn the_order_of_hashed_members(rt: HostRuntime) {
    let seen = Cell::new(0);
    let made: Result<HashTrieSet<u64>, AllocError> = hashed_set_of(&seen, rt.alloc());
    assert_seen(&rt, &seen, 31);
    let set = made.expect(&rt, "ample memory");
    assert!(rt; set.contains(&1) && set.contains(&3));
}

#[test]
fn empty_sequences(rt: HostRuntime) {
    let alloc = rt.alloc();
    let list: Result<List<u64>, AllocError> = list![in alloc];
    assert_text(&rt, alloc, list, "[]");
    let stack: Result<Stack<u64>, AllocError> = stack![in alloc];
    assert_text(&rt, alloc, stack, "Stack()");
    let queue: Result<Queue<u64>, AllocError> = queue![in alloc;];
    assert_text(&rt, alloc, queue, "Queue()");
    let vector: Result<Vector<u64>, AllocError> = vector![in alloc];
    assert_text(&rt, alloc, vector, "[]");
    let sequence: Result<Sequence<u64>, AllocError> = sequence![in alloc];
    assert_text(&rt, alloc, sequence, "[]");
}

#[test]
fn empty_maps_and_sets(rt: HostRuntime) {
    let alloc = rt.alloc();
    let map: Result<RedBlackTreeMap<u64, u64>, AllocError> = rbt_map![in alloc];
    assert_text(&rt, alloc, map, "{}");
    let map: Result<HashTrieMap<u64, u64>, AllocError> = ht_map![in alloc];
    assert_text(&rt, alloc, map, "{}");
    let set: Result<RedBlackTreeSet<u64>, AllocError> = rbt_set![in alloc];
    assert_text(&rt, alloc, set, "{}");
    let set: Result<HashTrieSet<u64>, AllocError> = ht_set![in alloc];
    assert_text(&rt, alloc, set, "{}");
}

#[test]
fn a_last_comma_in_sequences(rt: HostRuntime) {
    let alloc = rt.alloc();
    assert_text(&rt, alloc, list![in alloc; 1u64, 2,], "[1, 2]");
    assert_text(&rt, alloc, stack![in alloc; 1u64, 0,], "Stack(0, 1)");
    assert_text(&rt, alloc, queue![in alloc; 0u64, 1,], "Queue(0, 1)");
    assert_text(&rt, alloc, vector![in alloc; "a", "vector",], "[a, vector]");
    assert_text(&rt, alloc, sequence![in alloc; 1u64, 0,], "[1, 0]");
}

#[test]
fn a_last_comma_in_maps_and_sets(rt: HostRuntime) {
    let alloc = rt.alloc();
    assert_text(&rt, alloc, rbt_map![in alloc; 1u64 => 10u64,], "{1: 10}");
    assert_text(&rt, alloc, ht_map![in alloc; 1u64 => 10u64,], "{1: 10}");
    assert_text(&rt, alloc, rbt_set![in alloc; 1u64,], "{1}");
    assert_text(&rt, alloc, ht_set![in alloc; 1u64,], "{1}");
}
