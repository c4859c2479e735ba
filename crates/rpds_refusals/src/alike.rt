//! A long run of the same calls on a set and on a map: they answer and find alike, and compare as many keys.
use crate::failure::{Failure, Part, check_freed};
use crate::subject::Subject;
use rpds_faults::{FailingItem, Faults, Numbers};
use std::alloc::AllocError;

/// A set, or a map by its keys.
pub trait Keyed<'t, K, C>: Subject<'t, K, C> {
    /// How many keys it has.
    fn size(&self) -> usize;

    /// Whether what it tells of its size and of its ends is what its walk gives.
    fn agrees(&self) -> bool;

    /// Whether each of two look-ups finds the key, and whether a counted one answers as the second.
    fn found(&self, key: &FailingItem<'t>) -> [bool; 3];

    /// The key at this place of the walk.
    fn at(&self, place: usize) -> Option<&FailingItem<'t>>;
}

// What the calls are made on.
#[derive(Drop)]
struct Both<S: Drop, M: Drop> {
    set: S,
    map: M,
}

// How often keys were compared since the last time.
fn came(faults: &Faults) -> u64 {
    faults
        .counts
        .matched()
        .wrapping_add(faults.counts.compared())
}

// Makes the call on both, and tells whether they answered alike and compared as many keys.
fn is_done_alike<'t, K, C: Copy, D: Copy, S: Keyed<'t, K, C>, M: Keyed<'t, K, D>>(
    faults: &'t Faults,
    both: &mut Both<S, M>,
    (of_set, of_map): (C, D),
    number: u64,
) -> Result<bool, AllocError> {
    came(faults);
    let answer = both.map.perform(of_map, number, faults)?;
    let compared = came(faults);
    let is_answered_alike = both.set.perform(of_set, number, faults)? == answer;
    Ok(is_answered_alike && came(faults) == compared)
}

// Whether look-ups of the number find alike, and compare as many keys.
fn is_found_alike<'t, K, C, D, S: Keyed<'t, K, C>, M: Keyed<'t, K, D>>(
    faults: &'t Faults,
    both: &Both<S, M>,
    number: u64,
) -> bool {
    let key = FailingItem::new(number, &faults.counts);
    came(faults);
    let found = both.map.found(&key);
    let compared = came(faults);
    both.set.found(&key) == found && came(faults) == compared
}

// Whether both walks give the same keys, and as many as each tells.
fn is_walked_alike<'t, K, C, D, S: Keyed<'t, K, C>, M: Keyed<'t, K, D>>(both: &Both<S, M>) -> bool {
    let size = both.map.size();
    for place in 0..size {
        let key = both.map.at(place);
        if key.is_none() || both.set.at(place) != key {
            return false;
        }
    }
    let is_over = both.set.at(size).is_none() && both.map.at(size).is_none();
    both.set.size() == size && is_over && both.set.agrees() && both.map.agrees()
}

// Whether the map has the keys of the other, by its look-ups.
fn has_the_keys<'t, K, D, M: Keyed<'t, K, D>>(map: &M, other: &M) -> bool {
    for place in 0..other.size() {
        match other.at(place) {
            Some(key) if map.found(key) == [true; 3] => {}
            _ => return false,
        }
    }
    map.size() == other.size()
}

// Whether the sets are equal where the maps have the same keys, and only there.
fn is_equal_alike<'t, K, C, D, S: Keyed<'t, K, C> + PartialEq, M: Keyed<'t, K, D>>(
    both: &Both<S, M>,
    old: &Both<S, M>,
) -> bool {
    (both.set == old.set) == has_the_keys::<K, D, M>(&both.map, &old.map)
}

// Goes over both, and looks at all numbers below the limit.
fn check_looks<'r, 't, K, C, D, S: Keyed<'t, K, C>, M: Keyed<'t, K, D>>(
    faults: &'t Faults,
    both: &Both<S, M>,
    limit: u64,
) -> Result<(), Failure<'r, (C, D)>> {
    if !is_walked_alike::<K, C, D, S, M>(both) {
        return Err(Failure::Looks("iter"));
    }
    for number in 0..limit {
        if !is_found_alike::<K, C, D, S, M>(faults, both, number) {
            return Err(Failure::Looks("get"));
        }
    }
    Ok(())
}

// Twenty of the calls.
fn check_twenty<'r, 't, K, C: Copy, D: Copy, S: Keyed<'t, K, C>, M: Keyed<'t, K, D>>(
    faults: &'t Faults,
    both: &mut Both<S, M>,
    calls: &[(C, D)],
    limit: u64,
    random: &mut Numbers,
) -> Result<(), Failure<'r, (C, D)>> {
    for _ in 0..20u64 {
        let place = random.next() % (calls.len() as u64).max(1);
        let number = random.next() % limit.max(1);
        if let Some(call) = calls.get(place as usize) {
            if !is_done_alike::<K, C, D, S, M>(faults, both, *call, number)? {
                return Err(Failure::NotAlike {
                    call: *call,
                    number,
                });
            }
        }
    }
    check_looks::<K, C, D, S, M>(faults, both, limit)
}

// Other handles to both.
fn shared<'t, K, C, D, S: Keyed<'t, K, C>, M: Keyed<'t, K, D>>(
    faults: &'t Faults,
    both: &mut Both<S, M>,
) -> Result<Both<S, M>, AllocError> {
    let set = both.set.share(faults)?;
    let map = both.map.share(faults)?;
    match (set, map) {
        (Some(set), Some(map)) => Ok(Both { set, map }),
        _ => Err(AllocError),
    }
}

// Twenty calls, after which what both were before is alike still, and the set is equal to what it was, or not.
fn check_turn<'r, 't, K, C: Copy, D: Copy, S: Keyed<'t, K, C> + PartialEq, M: Keyed<'t, K, D>>(
    faults: &'t Faults,
    both: &mut Both<S, M>,
    calls: &[(C, D)],
    limit: u64,
    random: &mut Numbers,
) -> Result<(), Failure<'r, (C, D)>> {
    let old = shared::<K, C, D, S, M>(faults, both)?;
    check_twenty::<K, C, D, S, M>(faults, both, calls, limit, random)?;
    check_looks::<K, C, D, S, M>(faults, &old, limit)?;
    if is_equal_alike::<K, C, D, S, M>(both, &old) {
        Ok(())
    } else {
        Err(Failure::Looks("eq"))
    }
}

fn check_turns<'r, 't, K, C: Copy, D: Copy, S: Keyed<'t, K, C> + PartialEq, M: Keyed<'t, K, D>>(
    faults: &'t Faults,
    variant: u8,
    calls: &[(C, D)],
    limit: u64,
) -> Result<(), Failure<'r, (C, D)>> {
    let mut both = Both {
        set: S::start(variant, faults)?,
        map: M::start(variant, faults)?,
    };
    let mut random = Numbers::new();
    for _ in 0..100u64 {
        check_turn::<K, C, D, S, M>(faults, &mut both, calls, limit, &mut random)?;
    }
    Ok(())
}

/// Makes two thousand of these calls, each of a set and of a map, chosen at random, on both of this variant, of numbers below the
/// limit.
pub fn check_alike<'r, 't, K, C: Copy, D: Copy, S: Keyed<'t, K, C> + PartialEq, M: Keyed<'t, K, D>>(
    faults: &'t Faults,
    variant: u8,
    calls: &[(C, D)],
    limit: u64,
) -> Result<(), Failure<'r, (C, D)>> {
    check_turns::<K, C, D, S, M>(faults, variant, calls, limit)?;
    check_freed(faults, Part::Alike)
}
