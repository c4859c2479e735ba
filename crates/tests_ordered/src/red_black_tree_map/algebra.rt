//! Whole maps in one, beside std's maps.
use crate::red_black_tree_map::random::{Model, NumberMap, assert_same_walk};
use crate::red_black_tree_map::scenarios::put;
use rpds_faults::Numbers;
use rpds_tree::map::red_black_tree_map::RedBlackTreeMap;
use std::alloc::Global;
use std::collections::BTreeMap;
use std::process::Abort;

pub(crate) fn put_in_model(rt: &impl Abort, model: &mut Model, key: u64, value: u64) {
    let stored: Result<_, _> = model.insert(key, value);
    assert!(rt; stored.is_ok());
}

// Up to 255 pairs below 300, the same in both.
pub(crate) fn pairs(rt: &impl Abort, alloc: Global, numbers: &mut Numbers) -> (NumberMap, Model) {
    let puts = numbers.next() % 256;
    pairs_within(rt, alloc, numbers, puts, 0, 300)
}

// So many puts of keys from a start on, which lie within a width.
fn pairs_within(
    rt: &impl Abort,
    alloc: Global,
    numbers: &mut Numbers,
    puts: u64,
    start: u64,
    width: u64,
) -> (NumberMap, Model) {
    let mut map = RedBlackTreeMap::new(alloc);
    let mut model = BTreeMap::new(alloc);
    for _ in 0..puts {
        let (key, value) = (
            start.wrapping_add(numbers.next() % width.max(1)),
            numbers.next(),
        );
        put(rt, &mut map, key, value);
        put_in_model(rt, &mut model, key, value);
    }
    (map, model)
}

// The pairs of the first whose keys are in the second, or aren't.
fn chosen(rt: &impl Abort, alloc: Global, model: &Model, other: &Model, common: bool) -> Model {
    let mut chosen = BTreeMap::new(alloc);
    for (key, value) in model {
        if other.contains_key(key) == common {
            put_in_model(rt, &mut chosen, *key, *value);
        }
    }
    chosen
}

fn assert_algebra(
    rt: &impl Abort,
    alloc: Global,
    (map, model): (NumberMap, Model),
    (other, other_model): (NumberMap, Model),
) {
    let common = chosen(rt, alloc, &model, &other_model, true);
    let mine = chosen(rt, alloc, &model, &other_model, false);
    let mut either = chosen(rt, alloc, &other_model, &model, false);
    let made = map.intersection(&other).expect(rt, "ample memory");
    assert_same_walk(rt, &made, &common);
    let made = map.difference(&other).expect(rt, "ample memory");
    assert_same_walk(rt, &made, &mine);
    for (key, value) in &mine {
        put_in_model(rt, &mut either, *key, *value);
    }
    let made = map.symmetric_difference(&other).expect(rt, "ample memory");
    assert_same_walk(rt, &made, &either);
    for (key, value) in &common {
        put_in_model(rt, &mut either, *key, *value);
    }
    let made = map.union(&other).expect(rt, "ample memory");
    assert!(rt; made.len() == either.len());
    assert_same_walk(rt, &made, &either);
    assert_same_walk(rt, &map, &model);
    assert_same_walk(rt, &other, &other_model);
}

#[test]
fn agrees_with_std_maps(rt: HostRuntime) {
    let mut numbers = Numbers::new();
    for _ in 0..20u32 {
        let first = pairs(&rt, rt.alloc(), &mut numbers);
        let second = pairs(&rt, rt.alloc(), &mut numbers);
        assert_algebra(&rt, rt.alloc(), first, second);
    }
}

// Among 400 keys: none, one and a few of them, rows that lie in a gap or over many keys, and as many. Each is once the first map
// and once the second.
#[test]
fn agrees_with_std_maps_of_other_sizes(rt: HostRuntime) {
    let mut numbers = Numbers::new();
    let shapes = [
        (0, 0, 1),
        (1, 180, 60),
        (3, 0, 400),
        (8, 100, 240),
        (180, 600, 80),
        (180, 160, 80),
        (400, 20, 400),
    ];
    for (puts, start, width) in shapes {
        for turned in [false, true] {
            let many = pairs_within(&rt, rt.alloc(), &mut numbers, 400, 0, 400);
            let few = pairs_within(&rt, rt.alloc(), &mut numbers, puts, start, width);
            if turned {
                assert_algebra(&rt, rt.alloc(), few, many);
            } else {
                assert_algebra(&rt, rt.alloc(), many, few);
            }
        }
    }
}
