//! Calls of two hashed maps.
use crate::Tests;
use crate::refused::hash_trie_map::{COUNTS, FailingMap, NODE};
use rpds_core::map::entry::Entry;
use rpds_faults::{FailingAllocator, FailingItem, Faults, FlooredBuild};
use rpds_hash::map::hash_trie_map::HashTrieMap;
use rpds_refusals::answer::{always_true, handed_on, put_in_place};
use rpds_refusals::check::check_calls;
use rpds_refusals::item::pair;
use rpds_refusals::plan::Sharing::Shared;
use rpds_refusals::plan::{LargeContainer, MemoryRow, Plan, Receiver};
use rpds_refusals::refused::check_some_refused;
use rpds_refusals::subject::Subject;
use rpds_refusals::{memory, receivers};
use std::alloc::{AllocError, Global};
use std::cell::Cell;
use std::process::Abort;
use std::rc::Rc;

// A pair that several maps share.
type SharedPair<'t> = Rc<Entry<FailingItem<'t>, FailingItem<'t>>, &'t FailingAllocator>;

// The calls of two maps.
#[derive(Clone, Copy, Debug)]
enum TwoCall {
    Put,
    Union,
    UnionWith,
    Intersection,
    Difference,
    SymmetricDifference,
    Merge,
    // With a closure that fails.
    FailingUnionWith,
    FailingMerge,
    InsertShared,
    InsertSharedInPlace,
    CopyFrom,
    CopyFromInPlace,
    UnionOfMany,
    IntersectionOfSome,
    UnionOfVersions,
    UnionOfOther,
    IntersectionOfOther,
}

// The map of these numbers, at the degree 4. All numbers up to 3 have one hash.
fn map_of<'t>(numbers: &[u64], faults: &'t Faults) -> Result<FailingMap<'t>, AllocError> {
    let hasher = FlooredBuild::new(3, &faults.counts);
    let mut map = HashTrieMap::new_with_hasher_and_degree(&faults.alloc, hasher, 4);
    for number in numbers {
        let (key, value) = pair(*number, &faults.counts);
        map.insert_mut(key, value)?;
    }
    Ok(map)
}

// The map without the key.
fn without<'t>(
    mut map: FailingMap<'t>,
    key: u64,
    faults: &'t Faults,
) -> Result<FailingMap<'t>, AllocError> {
    map.remove_mut(&FailingItem::new(key, &faults.counts))?;
    Ok(map)
}

// The map with another value of the number, and without the key.
fn changed<'t>(
    map: &FailingMap<'t>,
    number: u64,
    value: u64,
    key: u64,
    faults: &'t Faults,
) -> Result<FailingMap<'t>, AllocError> {
    let counts = &faults.counts;
    let changed = map.insert(
        FailingItem::new(number, counts),
        FailingItem::new(value, counts),
    )?;
    without(changed, key, faults)
}

// Where both sides changed a key in different ways, it has the value 55.
fn merge_of<'t>(
    map: &FailingMap<'t>,
    ours: &FailingMap<'t>,
    theirs: &FailingMap<'t>,
    faults: &'t Faults,
) -> Result<FailingMap<'t>, AllocError> {
    map.merge(ours, theirs, |_key, _base, _ours, _theirs| {
        Ok(Some(FailingItem::new(55, &faults.counts)))
    })
}

// Both sides change the number, and each takes out a key.
fn merged<'t>(
    map: &FailingMap<'t>,
    number: u64,
    faults: &'t Faults,
) -> Result<FailingMap<'t>, AllocError> {
    let ours = changed(map, number, 66, 4, faults)?;
    let theirs = changed(map, number, 77, 3, faults)?;
    merge_of(map, &ours, &theirs, faults)
}

// A merge whose closure fails.
fn fails_to_merge_of<'t>(
    map: &FailingMap<'t>,
    ours: &FailingMap<'t>,
    theirs: &FailingMap<'t>,
) -> Result<bool, AllocError> {
    let was_called = Cell::new(false);
    let made = map.merge(ours, theirs, |_key, _base, _ours, _theirs| {
        was_called.set(true);
        Err(AllocError)
    });
    handed_on(made, was_called.get())
}

fn fails_to_merge<'t>(
    map: &FailingMap<'t>,
    number: u64,
    faults: &'t Faults,
) -> Result<bool, AllocError> {
    let ours = changed(map, number, 66, 4, faults)?;
    let theirs = changed(map, number, 77, 3, faults)?;
    fails_to_merge_of(map, &ours, &theirs)
}

// The same of a union.
fn fails_to_unite<'t>(
    map: &FailingMap<'t>,
    number: u64,
    faults: &'t Faults,
) -> Result<bool, AllocError> {
    let other = map_of(&[number, 77], faults)?;
    let was_called = Cell::new(false);
    let made = map.union_with(&other, |_key, _ours, _theirs| {
        was_called.set(true);
        Err(AllocError)
    });
    handed_on(made, was_called.get())
}

// Puts a pair of another map in, where there is one.
fn put_shared<'t>(
    map: &mut FailingMap<'t>,
    found: Result<Option<SharedPair<'t>>, AllocError>,
) -> Result<bool, AllocError> {
    match found {
        Ok(Some(entry)) => {
            let made = map.insert_shared(entry);
            put_in_place(map, made)
        }
        Ok(None) => Ok(true),
        Err(error) => Err(error),
    }
}

// The same in place.
fn put_shared_in_place<'t>(
    map: &mut FailingMap<'t>,
    found: Result<Option<SharedPair<'t>>, AllocError>,
) -> Result<bool, AllocError> {
    match found {
        Ok(Some(entry)) => always_true(map.insert_shared_mut(entry)),
        Ok(None) => Ok(true),
        Err(error) => Err(error),
    }
}

// Takes what the other map has at the key over.
fn take_from<'t>(
    map: &mut FailingMap<'t>,
    other: &FailingMap<'t>,
    call: TwoCall,
    key: &FailingItem<'t>,
) -> Result<bool, AllocError> {
    match call {
        TwoCall::InsertShared => put_shared(map, other.shared_entry(key)),
        TwoCall::InsertSharedInPlace => put_shared_in_place(map, other.shared_entry(key)),
        TwoCall::CopyFromInPlace => always_true(map.copy_from_mut(other, key)),
        _ => {
            let made = map.copy_from(other, key);
            put_in_place(map, made)
        }
    }
}

// Takes a pair of another map over.
fn take_over<'t>(
    map: &mut FailingMap<'t>,
    call: TwoCall,
    number: u64,
    faults: &'t Faults,
) -> Result<bool, AllocError> {
    let other = map_of(&[number, 77], faults)?;
    take_from(map, &other, call, &FailingItem::new(number, &faults.counts))
}

// What one of these calls makes of the map and of another one.
fn made_of_two<'t>(
    map: &FailingMap<'t>,
    other: &FailingMap<'t>,
    call: TwoCall,
) -> Result<FailingMap<'t>, AllocError> {
    match call {
        TwoCall::Union => map.union(other),
        TwoCall::UnionWith => map.union_with(other, |_key, _ours, theirs| theirs.clone()),
        TwoCall::Intersection => map.intersection(other),
        TwoCall::Difference => map.difference(other),
        _ => map.symmetric_difference(other),
    }
}

// Puts that into the map's place.
fn combine<'t>(
    map: &mut FailingMap<'t>,
    call: TwoCall,
    number: u64,
    faults: &'t Faults,
) -> Result<bool, AllocError> {
    let other = map_of(&[number, 77], faults)?;
    let made = made_of_two(map, &other, call);
    put_in_place(map, made)
}

// The map of these numbers, at the degree 8.
fn of_other_degree<'t>(numbers: &[u64], faults: &'t Faults) -> Result<FailingMap<'t>, AllocError> {
    let hasher = FlooredBuild::new(3, &faults.counts);
    let mut map = HashTrieMap::new_with_hasher_and_degree(&faults.alloc, hasher, 8);
    for number in numbers {
        let (key, value) = pair(*number, &faults.counts);
        map.insert_mut(key, value)?;
    }
    Ok(map)
}

// The map of a hundred numbers from the first one on.
fn hundred_from<'t>(first: u64, faults: &'t Faults) -> Result<FailingMap<'t>, AllocError> {
    let mut map = map_of(&[], faults)?;
    for place in 0..100u64 {
        let (key, value) = pair(first.wrapping_add(place), &faults.counts);
        map.insert_mut(key, value)?;
    }
    Ok(map)
}

// Another map, by the call. The number 20,001 is in no other one.
fn another<'t>(
    map: &FailingMap<'t>,
    call: TwoCall,
    number: u64,
    faults: &'t Faults,
) -> Result<FailingMap<'t>, AllocError> {
    match call {
        TwoCall::UnionOfMany => hundred_from(number, faults),
        TwoCall::IntersectionOfSome => map_of(&[number, 20_001], faults),
        TwoCall::UnionOfVersions => {
            let (key, value) = pair(number, &faults.counts);
            map.insert(key, value)
        }
        _ => of_other_degree(&[number, 77], faults),
    }
}

// Puts into the map's place what it and that other one make.
fn combine_with_another<'t>(
    map: &mut FailingMap<'t>,
    call: TwoCall,
    number: u64,
    faults: &'t Faults,
) -> Result<bool, AllocError> {
    let other = another(map, call, number, faults)?;
    let made = match call {
        TwoCall::IntersectionOfSome | TwoCall::IntersectionOfOther => map.intersection(&other),
        _ => map.union(&other),
    };
    put_in_place(map, made)
}

// A map that is combined with another one.
#[derive(Drop)]
struct Combined<'t> {
    map: FailingMap<'t>,
}

impl<'t> Subject<'t, Tests, TwoCall> for Combined<'t> {
    fn start(_variant: u8, faults: &'t Faults) -> Result<Self, AllocError> {
        Ok(Combined {
            map: map_of(&[], faults)?,
        })
    }

    fn share(&mut self, _faults: &'t Faults) -> Result<Option<Self>, AllocError> {
        Ok(Some(Combined {
            map: self.map.clone()?,
        }))
    }

    fn is_as(&self, twin: &Self, _faults: &'t Faults) -> bool {
        self.map == twin.map
    }

    // The hasher too.
    fn held(&self) -> Option<u64> {
        Some((self.map.size() as u64).wrapping_mul(2).wrapping_add(1))
    }

    fn perform(
        &mut self,
        call: TwoCall,
        number: u64,
        faults: &'t Faults,
    ) -> Result<bool, AllocError> {
        let map = &mut self.map;
        match call {
            TwoCall::Put => {
                let (key, value) = pair(number, &faults.counts);
                always_true(map.insert_mut(key, value))
            }
            TwoCall::Merge => {
                let made = merged(map, number, faults);
                put_in_place(map, made)
            }
            TwoCall::FailingUnionWith => fails_to_unite(map, number, faults),
            TwoCall::FailingMerge => fails_to_merge(map, number, faults),
            TwoCall::InsertShared
            | TwoCall::InsertSharedInPlace
            | TwoCall::CopyFrom
            | TwoCall::CopyFromInPlace => take_over(map, call, number, faults),
            TwoCall::UnionOfMany
            | TwoCall::IntersectionOfSome
            | TwoCall::UnionOfVersions
            | TwoCall::UnionOfOther
            | TwoCall::IntersectionOfOther => combine_with_another(map, call, number, faults),
            _ => combine(map, call, number, faults),
        }
    }
}

const RECEIVERS: &[Receiver<'static>] = receivers![
    &[],
    &[1, 2, 3, 4, 20, 36, 255],
    &[1, 2, 3, 4, 5, 6, 7, 8, 9, 20, 36, 77, 255]
];

const PLAN: Plan<'static, TwoCall> = Plan {
    put: TwoCall::Put,
    receivers: RECEIVERS,
    numbers: &[2, 20, 52],
    calls: &[],
    never_refused: &[],
    empty_without_memory: &[0],
    without_memory: &[],
    limits: &[(LARGE, ROWS)],
};

// A merge changes the map four times at first, so fewer maps and numbers do.
const OF_MERGES: Plan<'static, TwoCall> = Plan {
    put: TwoCall::Put,
    receivers: receivers![&[], &[1, 2, 3, 4, 20, 36, 255]],
    numbers: &[2, 52],
    calls: &[],
    never_refused: &[],
    empty_without_memory: &[0],
    without_memory: &[],
    limits: &[],
};

// The calls that ask for memory or for a clone. Each list has a test of its own.
const UNIONS: &[TwoCall] = &[TwoCall::Union];

const UNIONS_OF_VERSIONS: &[TwoCall] = &[TwoCall::UnionOfVersions];

const UNIONS_WITH: &[TwoCall] = &[TwoCall::UnionWith];

const FAILING_UNIONS_WITH: &[TwoCall] = &[TwoCall::FailingUnionWith];

const OF_OTHER_DEGREES: &[TwoCall] = &[TwoCall::UnionOfOther, TwoCall::IntersectionOfOther];

const INTERSECTIONS: &[TwoCall] = &[TwoCall::Intersection];

const DIFFERENCES: &[TwoCall] = &[TwoCall::Difference];

const SYMMETRIC_DIFFERENCES: &[TwoCall] = &[TwoCall::SymmetricDifference];

const MERGES: &[TwoCall] = &[TwoCall::Merge];

const FAILING_MERGES: &[TwoCall] = &[TwoCall::FailingMerge];

const SHARED: &[TwoCall] = &[TwoCall::InsertShared, TwoCall::InsertSharedInPlace];

const COPIES: &[TwoCall] = &[TwoCall::CopyFrom, TwoCall::CopyFromInPlace];

// 10,000 numbers.
const LARGE: LargeContainer = LargeContainer {
    variant: 0,
    count: 10_000,
    step: 1,
    limit: u64::MAX,
};

// The bytes of a branch of four children.
const BRANCH: u64 = NODE + 4 * 8;

// What the other map of two keys takes: two pairs, two leaves, of which one is made again in the branch, and that branch.
const OTHER: u64 = 2 * PAIR + 2 * NODE + BRANCH;

// The bytes of a pair.
const PAIR: u64 = COUNTS + 32;

// The path of a key has eight branches at most, two requests for each. Besides what the other map takes, an intersection makes two
// leaves and a branch over them. Each of the others copies the paths of the two keys at most, and a symmetric difference that puts one
// in its path again, with a leaf. A union that combines values puts each key again into its path, with a pair and a leaf. Each of two
// sides of a merge puts a pair in and takes one out, and so does the merge; 3, which goes twice, lies below 32 branches.
const ROWS: &[MemoryRow<'static, TwoCall>] = &[
    memory!(Shared, calls: &[TwoCall::Intersection], at: &[9_000],
        requests: 6 + 4, bytes: OTHER + 2 * NODE + BRANCH),
    memory!(Shared, calls: &[TwoCall::Difference, TwoCall::Union], at: &[9_000, 10_001],
        requests: 6 + 32, bytes: OTHER + 16 * BRANCH),
    memory!(Shared, calls: &[TwoCall::UnionWith], at: &[9_000, 10_001],
        requests: 6 + 64 + 4, bytes: OTHER + 32 * BRANCH + 2 * (NODE + PAIR)),
    memory!(Shared, calls: &[TwoCall::SymmetricDifference], at: &[9_000, 10_001],
        requests: 6 + 48, bytes: OTHER + 24 * BRANCH),
    memory!(Shared, calls: &[TwoCall::Merge], at: &[9_000, 10_001],
        requests: 4 * 18 + 2 * 66 + 3, bytes: 4 * (8 * BRANCH + NODE) + 64 * BRANCH + 3 * PAIR),
    memory!(
        Shared,
        calls: &[TwoCall::InsertShared, TwoCall::InsertSharedInPlace, TwoCall::CopyFrom,
            TwoCall::CopyFromInPlace],
        at: &[9_000, 10_001], requests: 6 + 18, bytes: OTHER + 8 * BRANCH + NODE
    ),
    // No pair is cloned, and the hasher once.
    memory!(Shared, calls: &[TwoCall::UnionOfMany], at: &[10_000],
        clones: 1, requests: HUNDRED + UNITED, bytes: HUNDRED_BYTES + UNITED_BYTES),
    // The one key in both is first a leaf in the row of a branch, and then a leaf in the branch's place.
    memory!(Shared, calls: &[TwoCall::IntersectionOfSome], at: &[9_000],
        requests: 6 + 3, bytes: OTHER + BRANCH + NODE),
    // Both the version and the union take the path to the key, of seven branches, and a clone of the hasher; the version the pair and
    // its leaf, which the union shares.
    memory!(Shared, calls: &[TwoCall::UnionOfVersions], at: &[9_000, 10_001],
        clones: 2, requests: 2 * 14 + 2, bytes: 14 * BRANCH + PAIR + NODE),
    // An absent pair is shared, and put in.
    memory!(Shared, calls: &[TwoCall::UnionOfOther], at: &[9_000, 10_001],
        clones: 1, requests: 6 + 18, bytes: OTHER + 8 * BRANCH + NODE),
];

// A hundred keys take a pair each, 57 branches, of which each is begun by two leaves and a row, and 43 more leaves.
const HUNDRED: u64 = 100 + 57 * 3 + 43;

const HUNDRED_BYTES: u64 = 100 * PAIR + 57 * (NODE + BRANCH) + 43 * NODE;

// Each of the 57 branches has a like one in the large map, which is copied once: its node and its row. 28 of the new keys lie four
// branches below those, and 72 three; they are copied for each key, which gets a leaf.
const UNITED: u64 = 57 * 2 + 28 * (4 * 2 + 1) + 72 * (3 * 2 + 1);

const UNITED_BYTES: u64 = (57 + 28 * 4 + 72 * 3) * BRANCH + 100 * NODE;

// Makes the calls with each request and each clone refused in turn.
fn assert_refused(rt: &impl Abort, alloc: Global, calls: &'static [TwoCall]) {
    let faults = Faults::new(alloc);
    check_some_refused::<Tests, TwoCall, Combined>(&faults, &PLAN, calls).expect(rt, "each call");
}

// The same of merges.
fn assert_merges_refused(rt: &impl Abort, alloc: Global, calls: &'static [TwoCall]) {
    let faults = Faults::new(alloc);
    check_some_refused::<Tests, TwoCall, Combined>(&faults, &OF_MERGES, calls).expect(
        rt,
        "each call",
    );
}

#[test]
fn unions(rt: HostRuntime) {
    assert_refused(&rt, rt.alloc(), UNIONS);
}

#[test]
fn unions_of_versions(rt: HostRuntime) {
    assert_refused(&rt, rt.alloc(), UNIONS_OF_VERSIONS);
}

#[test]
fn unions_with(rt: HostRuntime) {
    assert_refused(&rt, rt.alloc(), UNIONS_WITH);
}

#[test]
fn failing_unions_with(rt: HostRuntime) {
    assert_refused(&rt, rt.alloc(), FAILING_UNIONS_WITH);
}

#[test]
fn of_other_degrees(rt: HostRuntime) {
    assert_refused(&rt, rt.alloc(), OF_OTHER_DEGREES);
}

#[test]
fn differences(rt: HostRuntime) {
    assert_refused(&rt, rt.alloc(), DIFFERENCES);
}

#[test]
fn symmetric_differences(rt: HostRuntime) {
    assert_refused(&rt, rt.alloc(), SYMMETRIC_DIFFERENCES);
}

#[test]
fn merges(rt: HostRuntime) {
    assert_merges_refused(&rt, rt.alloc(), MERGES);
}

#[test]
fn failing_merges(rt: HostRuntime) {
    assert_merges_refused(&rt, rt.alloc(), FAILING_MERGES);
}

#[test]
fn shared(rt: HostRuntime) {
    assert_refused(&rt, rt.alloc(), SHARED);
}

#[test]
fn copies(rt: HostRuntime) {
    assert_refused(&rt, rt.alloc(), COPIES);
}

#[test]
fn asked(rt: HostRuntime) {
    let faults = Faults::new(rt.alloc());
    check_calls::<Tests, TwoCall, Combined>(&faults, &PLAN).expect(&rt, "each check");
}
