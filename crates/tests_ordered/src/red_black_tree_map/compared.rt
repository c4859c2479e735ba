//! How many keys are compared, by keys that count their own comparisons.
use crate::red_black_tree_map::keys::CountingKey;
use crate::red_black_tree_map::random::{change_in_place, changed};
use rpds_faults::Numbers;
use rpds_tree::map::red_black_tree_map::RedBlackTreeMap;
use std::alloc::Global;
use std::cell::Cell;
use std::process::Abort;

pub(crate) type CountingMap<'a> = RedBlackTreeMap<CountingKey<'a>, u64>;

// The most keys that a search among so many compares: twice the logarithm of one more.
fn most_compared(size: usize) -> u64 {
    let more = size.saturating_add(1);
    2 * u64::from(more.ilog2())
}

// Puts the number in, at the kinds 0 and 1, or takes it out, at 2 and 3: by a call that hands out a map, and in place. Each
// compares at most as many keys as the map's size allows.
pub(crate) fn change_counting<'a>(
    rt: &impl Abort,
    map: &mut CountingMap<'a>,
    number: u64,
    kind: u64,
    compared: &'a Cell<u64>,
) {
    let most = most_compared(map.size());
    let key = CountingKey { number, compared };
    compared.set(0);
    let _made = changed(map, key, number, kind).expect(rt, "ample memory");
    assert!(rt; compared.replace(0) <= most);
    let _gone = change_in_place(map, key, number, kind).expect(rt, "ample memory");
    assert!(rt; compared.get() <= most);
}

// A look-up of the key, there or not, compares at most `most` keys, and so does a write at it in a map whose nodes are shared.
fn assert_look<'a>(rt: &impl Abort, map: &CountingMap<'a>, key: CountingKey<'a>, most: u64) {
    key.compared.set(0);
    let _there = map.contains_key(&key);
    assert!(rt; key.compared.get() <= most);
    let mut copy = map.clone().expect(rt, "ample memory");
    key.compared.set(0);
    let _there = copy.value_mut(&key).is_ok();
    assert!(rt; key.compared.get() <= most);
}

// The map has this size, and looks at each third number from 0 to `last` compare at most so many keys.
fn assert_looks<'a>(
    rt: &impl Abort,
    map: &CountingMap<'a>,
    size: usize,
    last: u64,
    most: u64,
    compared: &'a Cell<u64>,
) {
    assert!(rt; map.size() == size);
    for third in 0..=last / 3 {
        let number = third.wrapping_mul(3);
        assert_look(rt, map, CountingKey { number, compared }, most);
    }
}

// The map has the numbers 1 to 1,000. Every even one is removed, and then the others but 999, in order.
fn assert_removals<'a>(rt: &impl Abort, map: &mut CountingMap<'a>, compared: &'a Cell<u64>) {
    assert_looks(rt, map, 1000, 1002, 18, compared);
    for half in 1..=500u64 {
        change_counting(rt, map, 2 * half, 2, compared);
    }
    assert_looks(rt, map, 500, 1002, 16, compared);
    for half in 0..499u64 {
        change_counting(rt, map, 2 * half + 1, 3, compared);
    }
    assert_looks(rt, map, 1, 1002, 2, compared);
    change_counting(rt, map, 999, 2, compared);
    assert_looks(rt, map, 0, 1002, 0, compared);
}

// Put in in order, or in the other one. Among seven keys a look-up compares six at most.
fn assert_in_order(rt: &impl Abort, alloc: Global, is_rising: bool) {
    let compared = Cell::new(0);
    let mut map = RedBlackTreeMap::new(alloc);
    for place in 1..=1000u64 {
        let number = if is_rising { place } else { 1001 - place };
        change_counting(rt, &mut map, number, place % 2, &compared);
        if place == 7 {
            assert_looks(rt, &map, 7, 1002, 6, &compared);
        }
    }
    assert_removals(rt, &mut map, &compared);
}

#[test]
fn in_order(rt: HostRuntime) {
    assert_in_order(&rt, rt.alloc(), true);
}

#[test]
fn in_the_other_order(rt: HostRuntime) {
    assert_in_order(&rt, rt.alloc(), false);
}

#[test]
fn a_thousand_at_random(rt: HostRuntime) {
    let compared = Cell::new(0);
    let mut numbers = Numbers::new();
    let mut map = RedBlackTreeMap::new(rt.alloc());
    for place in 0..1_000u64 {
        change_counting(&rt, &mut map, numbers.next() % 2_000, place % 2, &compared);
    }
    let most = most_compared(map.size());
    assert!(rt; most <= 18);
    assert_looks(&rt, &map, map.size(), 2_000, most, &compared);
}
