//! Merges of two versions beside std's maps.
use crate::values::hash_trie_map::algebra::{Both, Model, NumberMap, filled, put_both};
use crate::values::hash_trie_map::random::key_of;
use rpds_faults::{LifeCounts, Numbers};
use std::alloc::Global;
use std::process::Abort;

// What both sides changed, and not alike: it tells its arguments apart, and sometimes nothing stays.
fn settled(key: u64, base: Option<u64>, ours: Option<u64>, theirs: Option<u64>) -> Option<u64> {
    let sum = key
        .wrapping_add(base.unwrap_or(1).wrapping_mul(3))
        .wrapping_add(ours.unwrap_or(2).wrapping_mul(5))
        .wrapping_add(theirs.unwrap_or(4).wrapping_mul(7));
    if sum % 4 == 0 { None } else { Some(sum) }
}

// A side that is as the other, or as the base was, gives way.
fn merged(key: u64, base: Option<u64>, ours: Option<u64>, theirs: Option<u64>) -> Option<u64> {
    if ours == theirs || base == theirs {
        ours
    } else if base == ours {
        theirs
    } else {
        settled(key, base, ours, theirs)
    }
}

// The value of the key in what is made of the base and of both sides.
fn value_at(key: u64, (base, ours, theirs): (&Model, &Model, &Model)) -> Option<u64> {
    merged(
        key,
        base.get(&key).copied(),
        ours.get(&key).copied(),
        theirs.get(&key).copied(),
    )
}

// Each key has the value that it should have, and is counted once.
fn assert_values(rt: &impl Abort, made: &NumberMap<'_>, models: (&Model, &Model, &Model)) {
    let mut count = 0usize;
    for number in 0..160u64 {
        let value = value_at(key_of(number), models);
        assert!(rt; made.get(&key_of(number)).copied() == value);
        count = count.wrapping_add(usize::from(value.is_some()));
    }
    assert!(rt; made.size() == count && made.iter().count() == count);
}

fn assert_merged<'t>(
    rt: &impl Abort,
    base: Both<'_, 't>,
    ours: Both<'_, 't>,
    theirs: Both<'_, 't>,
) {
    let made = base
        .0
        .merge(ours.0, theirs.0, |key, base, ours, theirs| {
            Ok(settled(*key, base.copied(), ours.copied(), theirs.copied()))
        })
        .expect(rt, "ample memory");
    assert_values(rt, &made, (base.1, ours.1, theirs.1));
}

// A version in which some keys have another value, some are new, and some are taken out.
fn changed<'t>(
    rt: &impl Abort,
    (map, model): Both<'_, 't>,
    numbers: &mut Numbers,
) -> (NumberMap<'t>, Model) {
    let mut version = map.clone().expect(rt, "ample memory");
    let mut version_model = model.clone().expect(rt, "ample memory");
    for _ in 0..40u64 {
        let key = key_of(numbers.next() % 100);
        if numbers.next() % 3 == 0 {
            version.remove_mut(&key).expect(rt, "ample memory");
            version_model.remove(&key);
        } else {
            put_both(
                rt,
                &mut version,
                &mut version_model,
                key,
                numbers.next() % 4,
            );
        }
    }
    (version, version_model)
}

// A side of the base's degree and hasher, both sides, and one side or the other alone.
fn assert_theirs<'t>(
    rt: &impl Abort,
    base: Both<'_, 't>,
    ours: Both<'_, 't>,
    numbers: &mut Numbers,
) {
    let (theirs, their_model) = changed(rt, base, numbers);
    assert_merged(rt, base, ours, (&theirs, &their_model));
    assert_merged(rt, base, ours, base);
    assert_merged(rt, base, base, (&theirs, &their_model));
}

// A side of another degree and hasher.
fn assert_other<'t>(
    rt: &impl Abort,
    alloc: Global,
    counts: &'t LifeCounts,
    base: Both<'_, 't>,
    ours: Both<'_, 't>,
    numbers: &mut Numbers,
) {
    let (other, other_model) = filled(rt, alloc, (0, 16, 20, 60), counts, numbers);
    assert_merged(rt, base, ours, (&other, &other_model));
}

fn assert_sides<'t>(
    rt: &impl Abort,
    alloc: Global,
    counts: &'t LifeCounts,
    base: Both<'_, 't>,
    numbers: &mut Numbers,
) {
    let (ours, our_model) = changed(rt, base, numbers);
    assert_theirs(rt, base, (&ours, &our_model), numbers);
    assert_other(rt, alloc, counts, base, (&ours, &our_model), numbers);
}

fn assert_versions(rt: &impl Abort, alloc: Global, floor: u64, degree: u8, numbers: &mut Numbers) {
    let counts = LifeCounts::new();
    let (base, base_model) = filled(rt, alloc, (floor, degree, 0, 60), &counts, numbers);
    assert_sides(rt, alloc, &counts, (&base, &base_model), numbers);
}

// At several degrees, and where many keys have one hash; one of theirs has another degree and hasher.
#[test]
fn agrees_with_std_maps(rt: HostRuntime) {
    let mut numbers = Numbers::new();
    for (floor, degree) in [(0, 64), (0, 2), (12, 16), (40, 4)] {
        assert_versions(&rt, rt.alloc(), floor, degree, &mut numbers);
    }
}
