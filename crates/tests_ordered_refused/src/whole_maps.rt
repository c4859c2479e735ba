//! The calls on whole maps, and those on the value of a key, each with its counted form.
use crate::Tests;
use crate::red_black_tree_map::{
    FailingMap, NODE, PAIR, RANGE, REST, RISING, STORED, are_same, held,
};
use rpds_core::steps::Steps;
use rpds_faults::{FailingItem, Faults, LifeCounts};
use rpds_refusals::answer::always_true;
use rpds_refusals::call::Call;
use rpds_refusals::call::Call::{Changed, Made};
use rpds_refusals::check::check_calls;
use rpds_refusals::item::pair;
use rpds_refusals::plan::Sharing::{Alike, Alone, Shared};
use rpds_refusals::plan::{MemoryRow, NOTHING, Plan};
use rpds_refusals::refused::check_some_refused;
use rpds_refusals::subject::Subject;
use rpds_refusals::{memory, no_memory, receiver, receivers};
use rpds_tree::map::red_black_tree_map::RedBlackTreeMap;
use std::alloc::{AllocError, Global};
use std::ops::Bound::{Excluded, Included};
use std::process::Abort;

// A call that hands out a map.
#[derive(Clone, Copy, Debug)]
enum MadeCall {
    Union,
    UnionCounted,
    Intersection,
    IntersectionCounted,
    Difference,
    DifferenceCounted,
    SymmetricDifference,
    SymmetricDifferenceCounted,
    UnionOfHandles,
    IntersectionOfVersions,
    DifferenceOfMany,
    Subrange,
    WithoutRange,
    KeepByFlags,
    Update,
}

// A call that changes the map, or hands out one of other values.
#[derive(Clone, Copy, Debug)]
enum ChangedCall {
    Put,
    Extend,
    ExtendByHundred,
    Retain,
    MapValues,
    Replace,
    Take,
    Update,
}

type WholeCall = Call<MadeCall, ChangedCall>;

// A map of two keys: the number, and one that is nowhere else.
fn few<'t>(number: u64, faults: &'t Faults) -> Result<FailingMap<'t>, AllocError> {
    let counts = &faults.counts;
    RedBlackTreeMap::from_iter(&faults.alloc, [pair(number, counts), pair(77_777, counts)])
}

// A map of 21 keys, each third number: of more than any receiver has.
fn many<'t>(faults: &'t Faults) -> Result<FailingMap<'t>, AllocError> {
    let mut map = RedBlackTreeMap::new(&faults.alloc);
    for place in 0..21u64 {
        let (key, value) = pair(place.wrapping_mul(3), &faults.counts);
        map.insert_mut(key, value)?;
    }
    Ok(map)
}

// What the map has in common with its version without the number.
fn common_of_versions<'t>(
    map: &FailingMap<'t>,
    number: u64,
    counts: &'t LifeCounts,
) -> Result<FailingMap<'t>, AllocError> {
    let version = map.remove(&FailingItem::new(number, counts))?;
    map.intersection(&version)
}

// The value after an update: a clone of the one that was there, or a new one.
fn next<'t>(
    old: Option<&FailingItem<'t>>,
    counts: &'t LifeCounts,
) -> Result<FailingItem<'t>, AllocError> {
    match old {
        Some(value) => value.clone(),
        None => Ok(FailingItem::new(99, counts)),
    }
}

const FLAGS: [bool; 12] = [
    true, false, true, true, false, true, true, true, false, true, true, false,
];

// Some of twelve pairs, or all of another number of them.
fn kept_by_flags<'t>(map: &FailingMap<'t>) -> Result<FailingMap<'t>, AllocError> {
    if map.size() == FLAGS.len() {
        map.keep_by_flags(&FLAGS)
    } else {
        RedBlackTreeMap::clone(map)
    }
}

// What is between two keys, with both.
fn subrange<'t>(
    map: &FailingMap<'t>,
    number: u64,
    counts: &'t LifeCounts,
) -> Result<FailingMap<'t>, AllocError> {
    let end = FailingItem::new(number.wrapping_add(9), counts);
    map.subrange(Included(&FailingItem::new(number, counts)), Included(&end))
}

// What isn't between two keys, the second of which stays.
fn without_range<'t>(
    map: &FailingMap<'t>,
    number: u64,
    counts: &'t LifeCounts,
) -> Result<FailingMap<'t>, AllocError> {
    let end = FailingItem::new(number.wrapping_add(9), counts);
    map.without_range(Included(&FailingItem::new(number, counts)), Excluded(&end))
}

// The map that a call hands out.
fn made<'t>(
    map: &FailingMap<'t>,
    call: MadeCall,
    number: u64,
    faults: &'t Faults,
) -> Result<FailingMap<'t>, AllocError> {
    let other = few(number, faults)?;
    let steps = &mut Steps::new();
    match call {
        MadeCall::Union => map.union(&other),
        MadeCall::UnionCounted => map.union_counted(&other, steps),
        MadeCall::Intersection => map.intersection(&other),
        MadeCall::IntersectionCounted => map.intersection_counted(&other, steps),
        MadeCall::Difference => map.difference(&other),
        MadeCall::DifferenceCounted => map.difference_counted(&other, steps),
        MadeCall::SymmetricDifference => map.symmetric_difference(&other),
        MadeCall::SymmetricDifferenceCounted => map.symmetric_difference_counted(&other, steps),
        MadeCall::UnionOfHandles => map.union(&RedBlackTreeMap::clone(map)?),
        MadeCall::IntersectionOfVersions => common_of_versions(map, number, &faults.counts),
        MadeCall::DifferenceOfMany => map.difference(&many(faults)?),
        MadeCall::Subrange => subrange(map, number, &faults.counts),
        MadeCall::WithoutRange => without_range(map, number, &faults.counts),
        MadeCall::KeepByFlags => kept_by_flags(map),
        MadeCall::Update => {
            let counts = &faults.counts;
            map.update(FailingItem::new(number, counts), |old| next(old, counts))
        }
    }
}

// Puts in the pairs of a hundred keys, from the number on.
fn extend_by_hundred<'t>(
    map: &mut FailingMap<'t>,
    number: u64,
    counts: &'t LifeCounts,
) -> Result<(), AllocError> {
    let keys = number..number.wrapping_add(100);
    map.extend(keys.map(|key| pair(key, counts)))
}

// Makes a call in place, and tells whether there was something to do.
fn changed<'t>(
    map: &mut FailingMap<'t>,
    call: ChangedCall,
    number: u64,
    counts: &'t LifeCounts,
) -> Result<bool, AllocError> {
    let key = FailingItem::new(number, counts);
    match call {
        ChangedCall::Put => always_true(map.insert_mut(key, FailingItem::new(99, counts))),
        ChangedCall::Extend => always_true(map.extend([
            pair(number, counts),
            pair(77_777, counts),
        ])),
        ChangedCall::ExtendByHundred => always_true(extend_by_hundred(map, number, counts)),
        ChangedCall::Retain => always_true(map.retain(|key, _| key.number != number)),
        ChangedCall::MapValues => mapped(map),
        ChangedCall::Replace => replaced(map.replace(key, FailingItem::new(99, counts))),
        ChangedCall::Take => taken(map.take(&key)),
        ChangedCall::Update => always_true(map.update_mut(key, |old| next(old, counts))),
    }
}

// Makes a map of clones of the values, and drops it.
fn mapped<'t>(map: &FailingMap<'t>) -> Result<bool, AllocError> {
    match map.map_values(|value| value.clone()) {
        Ok(_) => Ok(false),
        Err(error) => Err(error),
    }
}

// A value was put in, and an old one handed out, if there was one.
fn replaced(old: Result<Option<FailingItem<'_>>, AllocError>) -> Result<bool, AllocError> {
    match old {
        Ok(_) => Ok(true),
        Err(error) => Err(error),
    }
}

// Whether a value was taken out.
fn taken(old: Result<Option<FailingItem<'_>>, AllocError>) -> Result<bool, AllocError> {
    match old {
        Ok(old) => Ok(old.is_some()),
        Err(error) => Err(error),
    }
}

impl<'t> Subject<'t, Tests, WholeCall> for FailingMap<'t> {
    fn start(_variant: u8, faults: &'t Faults) -> Result<Self, AllocError> {
        Ok(RedBlackTreeMap::new(&faults.alloc))
    }

    fn share(&mut self, _faults: &'t Faults) -> Result<Option<Self>, AllocError> {
        Ok(Some(RedBlackTreeMap::clone(self)?))
    }

    fn is_as(&self, twin: &Self, faults: &'t Faults) -> bool {
        are_same(self, twin, faults)
    }

    fn held(&self) -> Option<u64> {
        Some(held(self))
    }

    fn perform(
        &mut self,
        call: WholeCall,
        number: u64,
        faults: &'t Faults,
    ) -> Result<bool, AllocError> {
        match call {
            Made(call) => {
                *self = made(self, call, number, faults)?;
                Ok(true)
            }
            Changed(call) => changed(self, call, number, &faults.counts),
        }
    }
}

// Of no keys, a few, twelve, for which there are flags, and so many that a difference cuts the other map.
const PLAN: Plan<'static, WholeCall> = Plan {
    put: Changed(ChangedCall::Put),
    receivers: receivers![
        &[],
        &[1, 2, 3, 4, 20, 36, 255],
        &[1, 2, 3, 4, 5, 6, 7, 8, 9, 20, 36, 255],
        &[
            0, 1, 2, 3, 4, 5, 6, 7, 8, 9, 10, 11, 12, 13, 14, 15, 16, 17, 18, 19
        ]
    ],
    numbers: &[2, 20, 52],
    calls: &[],
    never_refused: &[],
    empty_without_memory: &[0],
    without_memory: &[
        no_memory!(receiver!(&[]), calls: &[Changed(ChangedCall::Take)], at: 1, answer: false),
    ],
    limits: &[(RISING, ROWS)],
};

// The calls that ask for memory or for a clone. Each list has a test of its own.
const UNIONS: &[WholeCall] = &[
    Made(MadeCall::Union),
    Made(MadeCall::UnionCounted),
    Made(MadeCall::UnionOfHandles),
];

const INTERSECTIONS: &[WholeCall] = &[
    Made(MadeCall::Intersection),
    Made(MadeCall::IntersectionCounted),
    Made(MadeCall::IntersectionOfVersions),
];

const DIFFERENCES: &[WholeCall] = &[
    Made(MadeCall::Difference),
    Made(MadeCall::DifferenceCounted),
];

const DIFFERENCES_OF_MANY: &[WholeCall] = &[Made(MadeCall::DifferenceOfMany)];

const SYMMETRIC_DIFFERENCES: &[WholeCall] = &[
    Made(MadeCall::SymmetricDifference),
    Made(MadeCall::SymmetricDifferenceCounted),
];

const PARTS: &[WholeCall] = &[
    Made(MadeCall::Subrange),
    Made(MadeCall::WithoutRange),
    Made(MadeCall::KeepByFlags),
    Changed(ChangedCall::Retain),
];

const CHANGES: &[WholeCall] = &[
    Made(MadeCall::Update),
    Changed(ChangedCall::Update),
    Changed(ChangedCall::Replace),
    Changed(ChangedCall::Take),
];

const MANY_CHANGES: &[WholeCall] = &[
    Changed(ChangedCall::Extend),
    Changed(ChangedCall::MapValues),
];

// Twice the logarithm of 10,001 is 26, and that of 10,003 too. By their contracts an insertion makes at most 27 nodes, a
// removal at most 104, and a call on two maps 237 for each pair of the smaller one.
const INSERTED: u64 = 27;

const REMOVED: u64 = 104;

const COMBINED: u64 = 2 * 237;

// The other map has two pairs: a list of them takes one request, and each of them two.
const OTHER: u64 = 2 * (32 + NODE + PAIR);

// Of 33 pairs at least.
const PIECES: u64 = 10_000 / 33;

// Fewer nodes than these have more than 512 pairs at them and below: the keys rose, so that what lies on the left of one is full.
// At each the other version is cut, and what is left of both sides is joined.
pub(crate) const UPPER: u64 = 32;

// A node for each pair that two versions have in common; and by their contracts a cut makes at most 104 nodes, and a join 28.
pub(crate) const SIFTED: u64 = 10_000 + UPPER * (104 + 28);

// The nodes of a hundred neighboring keys, and of the paths to the first and to the last of them.
pub(crate) const HUNDRED: u64 = 100 + 2 * 26;

const ROWS: &[MemoryRow<'static, WholeCall>] = &[
    memory!(Alike, calls: &[Made(MadeCall::Union), Made(MadeCall::UnionCounted)], at: STORED,
        requests: 5 + COMBINED, bytes: OTHER + COMBINED * NODE),
    memory!(
        Alike,
        calls: &[Made(MadeCall::Intersection), Made(MadeCall::IntersectionCounted)],
        at: STORED, requests: 5 + COMBINED, bytes: OTHER + COMBINED * NODE
    ),
    memory!(
        Alike,
        calls: &[Made(MadeCall::Difference), Made(MadeCall::DifferenceCounted)],
        at: STORED, requests: 5 + COMBINED, bytes: OTHER + COMBINED * NODE
    ),
    memory!(
        Alike,
        calls: &[Made(MadeCall::SymmetricDifference), Made(MadeCall::SymmetricDifferenceCounted)],
        at: STORED, requests: 5 + COMBINED, bytes: OTHER + COMBINED * NODE
    ),
    // No node: pieces of up to 64 pairs are cut as lists of references.
    memory!(Shared, calls: &[Made(MadeCall::UnionOfHandles)], at: &[7],
        requests: 5 + PIECES, bytes: OTHER + 10_000 * 8),
    // The version without the key; and of what it has in common with the map a list for each piece below the upper nodes.
    memory!(Shared, calls: &[Made(MadeCall::IntersectionOfVersions)], at: &[4_999],
        requests: 5 + REMOVED + SIFTED + UPPER,
        bytes: OTHER + (REMOVED + SIFTED) * NODE + 10_000 * 8),
    memory!(Shared, calls: &[Made(MadeCall::Subrange)], at: STORED,
        requests: 5 + RANGE, bytes: OTHER + RANGE * NODE),
    memory!(Shared, calls: &[Made(MadeCall::WithoutRange)], at: STORED,
        requests: 5 + REST, bytes: OTHER + REST * NODE),
    memory!(
        Shared,
        calls: &[Changed(ChangedCall::Replace), Changed(ChangedCall::Update)],
        at: STORED, requests: 1 + INSERTED, bytes: PAIR + INSERTED * NODE
    ),
    memory!(Shared, calls: &[Made(MadeCall::Update)], at: STORED,
        requests: 6 + INSERTED, bytes: OTHER + PAIR + INSERTED * NODE),
    memory!(Shared, calls: &[Changed(ChangedCall::Extend)], at: STORED,
        requests: 2 + 2 * INSERTED, bytes: 2 * PAIR + 2 * INSERTED * NODE),
    // Each node on the way to one of the keys is copied once.
    memory!(Shared, calls: &[Changed(ChangedCall::ExtendByHundred)], at: &[0, 4_999, 9_000],
        requests: 100 + HUNDRED, bytes: 100 * PAIR + HUNDRED * NODE),
    memory!(Shared, calls: &[Changed(ChangedCall::Take)], at: STORED,
        requests: REMOVED, bytes: REMOVED * NODE),
    // A flag for each pair too.
    memory!(Shared, calls: &[Changed(ChangedCall::Retain)], at: STORED,
        requests: 1 + REMOVED, bytes: 10_000 + REMOVED * NODE),
    // A list of all pairs, and for each pair a node and what it holds: a clone of the key, and of the value by the test.
    memory!(Shared, calls: &[Changed(ChangedCall::MapValues)], at: &[7],
        answer: false, clones: 20_000, requests: 20_001, bytes: 10_000 * (32 + NODE + PAIR)),
    // Alone: the pair, where one is put in.
    memory!(
        Alone,
        calls: &[Changed(ChangedCall::Replace), Changed(ChangedCall::Update)],
        at: STORED, requests: 1, bytes: PAIR
    ),
    memory!(Alone, calls: &[Changed(ChangedCall::Take)], at: STORED, limit: NOTHING),
];

// Makes the calls with each request and each clone refused in turn.
fn assert_refused(rt: &impl Abort, alloc: Global, calls: &'static [WholeCall]) {
    let faults = Faults::new(alloc);
    check_some_refused::<Tests, WholeCall, FailingMap>(&faults, &PLAN, calls).expect(
        rt,
        "each call",
    );
}

#[test]
fn unions(rt: HostRuntime) {
    assert_refused(&rt, rt.alloc(), UNIONS);
}

#[test]
fn intersections(rt: HostRuntime) {
    assert_refused(&rt, rt.alloc(), INTERSECTIONS);
}

#[test]
fn differences(rt: HostRuntime) {
    assert_refused(&rt, rt.alloc(), DIFFERENCES);
}

#[test]
fn differences_of_many(rt: HostRuntime) {
    assert_refused(&rt, rt.alloc(), DIFFERENCES_OF_MANY);
}

#[test]
fn symmetric_differences(rt: HostRuntime) {
    assert_refused(&rt, rt.alloc(), SYMMETRIC_DIFFERENCES);
}

#[test]
fn parts(rt: HostRuntime) {
    assert_refused(&rt, rt.alloc(), PARTS);
}

#[test]
fn changes(rt: HostRuntime) {
    assert_refused(&rt, rt.alloc(), CHANGES);
}

#[test]
fn many_changes(rt: HostRuntime) {
    assert_refused(&rt, rt.alloc(), MANY_CHANGES);
}

#[test]
fn asked(rt: HostRuntime) {
    let faults = Faults::new(rt.alloc());
    check_calls::<Tests, WholeCall, FailingMap>(&faults, &PLAN).expect(&rt, "each check");
}
