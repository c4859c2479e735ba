use crate::Tests;
use crate::refused::hash_trie_map::MapChanged::{
    AlterPresenceMut, AlterValueMut, Clear, GetMut, GetOrInsertWith, InsertMut, RemoveMut, ValueMut,
};
use crate::refused::hash_trie_map::MapMade::{
    AlterPresence, AlterValue, FromArray, FromIter, Insert, InsertCounted, Remove, RemoveCounted,
    Share, ShareCounted,
};
use rpds_core::steps::Steps;
use rpds_faults::{FailingAllocator, FailingItem, Faults, FlooredBuild, LifeCounts};
use rpds_hash::map::hash_trie_map::{DefaultBuildHasher, HashTrieMap};
use rpds_refusals::answer::{
    always_some, always_true, has_number, put_if_some, write_number, write_number_if_lent,
};
use rpds_refusals::call::Call;
use rpds_refusals::call::Call::{Changed, Made};
use rpds_refusals::check::check_container;
use rpds_refusals::container::Container;
use rpds_refusals::item::pair;
use rpds_refusals::looks::Looks;
use rpds_refusals::plan::Sharing::{Alike, Alone, Shared};
use rpds_refusals::plan::{LargeContainer, MemoryRow, NOTHING, NoMemoryRow, Plan, Receiver};
use rpds_refusals::refused::check_some_refused;
use rpds_refusals::subject::Subject;
use rpds_refusals::{memory, no_memory, receiver};
use std::alloc::{AllocError, Global};
use std::process::Abort;

pub(crate) type FailingMap<'t> = HashTrieMap<
    FailingItem<'t>,
    FailingItem<'t>,
    FlooredBuild<'t>,
    &'t FailingAllocator,
>;

pub(crate) type MapCall = Call<MapMade, MapChanged>;

// A call that hands out a map.
#[derive(Clone, Copy, Debug)]
pub(crate) enum MapMade {
    Insert,
    InsertCounted,
    Remove,
    RemoveCounted,
    // Another value at a key that is there.
    AlterValue,
    // Without a key that is there, or with one that isn't.
    AlterPresence,
    FromIter,
    FromArray,
    Share,
    ShareCounted,
}

// A call that changes the map.
#[derive(Clone, Copy, Debug)]
pub(crate) enum MapChanged {
    InsertMut,
    RemoveMut,
    AlterValueMut,
    AlterPresenceMut,
    GetOrInsertWith,
    // A write through what the call lends.
    GetMut,
    ValueMut,
    Clear,
}

// Makes a map of pairs, one key of which may come twice, and drops it: its hasher is another one.
fn collected<'t>(number: u64, faults: &'t Faults) -> Result<Option<FailingMap<'t>>, AllocError> {
    let counts = &faults.counts;
    let pairs = [pair(2, counts), pair(number, counts), pair(3, counts)];
    let _made: HashTrieMap<_, _, DefaultBuildHasher, &FailingAllocator> = HashTrieMap::from_iter(
        &faults.alloc,
        pairs,
    )?;
    Ok(None)
}

// The same of an array.
fn of_array<'t>(number: u64, faults: &'t Faults) -> Result<Option<FailingMap<'t>>, AllocError> {
    let counts = &faults.counts;
    let pairs = [pair(2, counts), pair(number, counts), pair(3, counts)];
    let _made: HashTrieMap<_, _, DefaultBuildHasher, &FailingAllocator> = HashTrieMap::from_array(
        &faults.alloc,
        pairs,
    )?;
    Ok(None)
}

// A clone of the value of a key that is there; where it isn't, nothing.
fn kept<'t>(old: Option<&FailingItem<'t>>) -> Result<Option<FailingItem<'t>>, AllocError> {
    match old {
        Some(value) => always_some(value.clone()),
        None => Ok(None),
    }
}

// Nothing for a key that is there; where it isn't, a value.
fn turned<'t>(old: Option<&FailingItem<'t>>, counts: &'t LifeCounts) -> Option<FailingItem<'t>> {
    match old {
        Some(_) => None,
        None => Some(FailingItem::new(99, counts)),
    }
}

// Another value at a key that is there.
fn altered<'t>(
    map: &FailingMap<'t>,
    number: u64,
    counts: &'t LifeCounts,
) -> Result<FailingMap<'t>, AllocError> {
    map.alter(FailingItem::new(number, counts), |old| kept(old))
}

// Without a key that is there, or with one that isn't.
fn turned_over<'t>(
    map: &FailingMap<'t>,
    number: u64,
    counts: &'t LifeCounts,
) -> Result<FailingMap<'t>, AllocError> {
    map.alter(
        FailingItem::new(number, counts),
        |old| Ok(turned(old, counts)),
    )
}

fn inserted<'t>(
    map: &FailingMap<'t>,
    number: u64,
    counts: &'t LifeCounts,
) -> Result<FailingMap<'t>, AllocError> {
    map.insert(
        FailingItem::new(number, counts),
        FailingItem::new(99, counts),
    )
}

fn inserted_counted<'t>(
    map: &FailingMap<'t>,
    number: u64,
    counts: &'t LifeCounts,
) -> Result<FailingMap<'t>, AllocError> {
    map.insert_counted(
        FailingItem::new(number, counts),
        FailingItem::new(99, counts),
        &mut Steps::new(),
    )
}

fn made<'t>(
    map: &FailingMap<'t>,
    call: MapMade,
    number: u64,
    faults: &'t Faults,
) -> Result<Option<FailingMap<'t>>, AllocError> {
    let counts = &faults.counts;
    let steps = &mut Steps::new();
    match call {
        Insert => always_some(inserted(map, number, counts)),
        InsertCounted => always_some(inserted_counted(map, number, counts)),
        Remove => always_some(map.remove(&FailingItem::new(number, counts))),
        RemoveCounted => {
            always_some(map.remove_counted(&FailingItem::new(number, counts), steps))
        }
        AlterValue => always_some(altered(map, number, counts)),
        AlterPresence => always_some(turned_over(map, number, counts)),
        FromIter => collected(number, faults),
        FromArray => of_array(number, faults),
        Share => always_some(map.clone()),
        ShareCounted => always_some(map.clone_counted(steps)),
    }
}

// Writes to the value of a key that is there, or is put in first.
fn filled<'t>(
    map: &mut FailingMap<'t>,
    number: u64,
    counts: &'t LifeCounts,
) -> Result<bool, AllocError> {
    let key = FailingItem::new(number, counts);
    let value = map.get_or_insert_with(key, || Ok(FailingItem::new(99, counts)))?;
    Ok(write_number(Some(value), 99))
}

fn lent<'t>(map: &mut FailingMap<'t>, key: &FailingItem<'t>) -> Result<bool, AllocError> {
    Ok(write_number(map.get_mut(key)?, 99))
}

fn put_pair<'t>(
    map: &mut FailingMap<'t>,
    number: u64,
    counts: &'t LifeCounts,
) -> Result<bool, AllocError> {
    let value = FailingItem::new(map.size() as u64, counts);
    always_true(map.insert_mut(FailingItem::new(number, counts), value))
}

// Alters a key that is there.
fn alter<'t>(
    map: &mut FailingMap<'t>,
    number: u64,
    counts: &'t LifeCounts,
) -> Result<bool, AllocError> {
    always_true(map.alter_mut(FailingItem::new(number, counts), |old| kept(old)))
}

// Takes a key out that is there, or puts it in.
fn turn_over<'t>(
    map: &mut FailingMap<'t>,
    number: u64,
    counts: &'t LifeCounts,
) -> Result<bool, AllocError> {
    always_true(map.alter_mut(
        FailingItem::new(number, counts),
        |old| Ok(turned(old, counts)),
    ))
}

fn changed<'t>(
    map: &mut FailingMap<'t>,
    call: MapChanged,
    number: u64,
    faults: &'t Faults,
) -> Result<bool, AllocError> {
    let counts = &faults.counts;
    match call {
        InsertMut => put_pair(map, number, counts),
        RemoveMut => map.remove_mut(&FailingItem::new(number, counts)),
        AlterValueMut => alter(map, number, counts),
        AlterPresenceMut => turn_over(map, number, counts),
        GetOrInsertWith => filled(map, number, counts),
        GetMut => lent(map, &FailingItem::new(number, counts)),
        ValueMut => write_number_if_lent(map.value_mut(&FailingItem::new(number, counts)), 99),
        Clear => {
            map.clear();
            Ok(map.is_empty())
        }
    }
}

// The key is there with the value 1.
fn gets_there<'t>(
    map: &FailingMap<'t>,
    empty: &FailingMap<'t>,
    there: &FailingItem<'t>,
    looks: &mut Looks<'_, 't>,
) {
    looks.see("get", has_number(map.get(there), 1));
    looks.see("get of none", empty.get(there).is_none());
    looks.see("get_key_value", map.get_key_value(there).is_some());
    looks.see(
        "get_counted",
        map.get_counted(there, &mut Steps::new()).is_some(),
    );
    looks.see("contains_key", map.contains_key(there));
    looks.see("index", map.contains_key(there) && map[there].number == 1);
}

// The key isn't there.
fn gets_absent<'t>(map: &FailingMap<'t>, absent: &FailingItem<'t>, looks: &mut Looks<'_, 't>) {
    looks.see("get of no key", map.get(absent).is_none());
    looks.see(
        "get_counted of no key",
        map.get_counted(absent, &mut Steps::new()).is_none(),
    );
}

// How many keys changed.
fn count_changes<'t>(map: &FailingMap<'t>, other: &FailingMap<'t>) -> u64 {
    let mut count = 0u64;
    for _ in map.diff(other) {
        count = count.wrapping_add(1);
    }
    count
}

// The first two maps have the same pairs.
fn diffs<'t>(map: &FailingMap<'t>, other: &FailingMap<'t>, empty: &FailingMap<'t>) -> bool {
    count_changes(map, other) == 0
        && count_changes(map, empty) == 3
        && count_changes(empty, map) == 3
}

// Each iterator is dropped after a step, and can be had again.
fn walks_pairs<'t>(map: &FailingMap<'t>) -> bool {
    map.iter().next().is_some() && map.iter().count() == 3
}

fn walks_into_pairs<'t>(map: &FailingMap<'t>) -> bool {
    map.into_iter().next().is_some() && map.into_iter().count() == 3
}

fn walks<'t>(map: &FailingMap<'t>, looks: &mut Looks<'_, 't>) {
    looks.see("size_hint", map.iter().size_hint() == (3, Some(3)));
    looks.see("keys", map.keys().count() == 3);
    looks.see("values", map.values().count() == 3);
}

impl<'t> Subject<'t, Tests, MapCall> for FailingMap<'t> {
    // The degree. At 0 it is that of `new`. The numbers up to 3 have the hash 0, at 8 those up to 2, at 2 none but 0.
    fn start(variant: u8, faults: &'t Faults) -> Result<Self, AllocError> {
        let floor = match variant {
            2 => 0,
            8 => 2,
            _ => 3,
        };
        let hasher = FlooredBuild::new(floor, &faults.counts);
        if matches!(variant, 2 | 4 | 8 | 16 | 32 | 64) {
            Ok(HashTrieMap::new_with_hasher_and_degree(&faults.alloc, hasher, variant))
        } else {
            Ok(HashTrieMap::new_with_hasher(&faults.alloc, hasher))
        }
    }

    fn share(&mut self, _faults: &'t Faults) -> Result<Option<Self>, AllocError> {
        always_some(self.clone())
    }

    fn is_as(&self, twin: &Self, _faults: &'t Faults) -> bool {
        *self == *twin
    }

    // The hasher too.
    fn held(&self) -> Option<u64> {
        Some((self.size() as u64).wrapping_mul(2).wrapping_add(1))
    }

    fn perform(
        &mut self,
        call: MapCall,
        number: u64,
        faults: &'t Faults,
    ) -> Result<bool, AllocError> {
        match call {
            Made(call) => {
                let made = made(self, call, number, faults);
                put_if_some(self, made)
            }
            Changed(call) => changed(self, call, number, faults),
        }
    }
}

impl<'t> Container<'t, Tests, MapCall> for FailingMap<'t> {
    fn looks(&self, other: &Self, empty: &Self, looks: &mut Looks<'_, 't>) {
        looks.see("size", self.size() == 3 && self.len() == 3);
        looks.see("is_empty", !self.is_empty() && empty.is_empty());
        let counts = &looks.faults.counts;
        gets_there(self, empty, &FailingItem::new(2, counts), looks);
        gets_absent(self, &FailingItem::new(9, counts), looks);
        looks.see("compared", *self == *other);
        looks.see("diff", diffs(self, other, empty));
        looks.see("iter", walks_pairs(self));
        looks.see("into_iter", walks_into_pairs(self));
        walks(self, looks);
    }
}

// Empty, and at degree 4 and 16. The keys up to 3 have the hash 0, and the hash of 20 agrees with that of 4 in its lowest
// bits. The removal of 2 leaves two keys of its hash at degree 4, one at 16; that of 20 leaves a branch at degree 4, one key
// at 16.
pub(crate) const RECEIVERS: &[Receiver<'static>] = &[
    receiver!(&[]),
    receiver!(variant: 4, &[1, 2, 3, 4, 20, 36, 255]),
    receiver!(variant: 16, &[2, 3, 4, 20, 255]),
];

// Keys of the hash 0, there and not, and others.
pub(crate) const NUMBERS: &[u64] = &[2, 0, 20, 52];

const PLAN: Plan<'static, MapCall> = Plan {
    put: Changed(InsertMut),
    receivers: RECEIVERS,
    numbers: NUMBERS,
    calls: &[],
    never_refused: &[Changed(Clear)],
    empty_without_memory: &[0, 2, 4, 8, 16, 32, 64],
    without_memory: WITHOUT_MEMORY,
    limits: &[
        (LARGE, ROWS),
        (OF_ONE_HASH, ALONE_OF_ONE_HASH),
        (OF_ONE_KEY, ONE_LEAF),
    ],
};

// The calls that ask for memory or for a clone. Each list has a test of its own.
const INSERTIONS: &[MapCall] = &[Made(Insert), Made(InsertCounted)];

const INSERTIONS_IN_PLACE: &[MapCall] = &[Changed(InsertMut), Changed(GetOrInsertWith)];

const REMOVALS: &[MapCall] = &[Made(Remove), Made(RemoveCounted)];

const REMOVALS_IN_PLACE: &[MapCall] = &[Changed(RemoveMut)];

const ALTERATIONS: &[MapCall] = &[Made(AlterValue), Made(AlterPresence)];

const ALTERATIONS_IN_PLACE: &[MapCall] = &[Changed(AlterValueMut), Changed(AlterPresenceMut)];

const LENDS: &[MapCall] = &[Changed(GetMut), Changed(ValueMut)];

const BUILDS: &[MapCall] = &[
    Made(FromIter),
    Made(FromArray),
    Made(Share),
    Made(ShareCounted),
];

// There is nothing to do, or another empty one is handed out, and no memory is needed.
const WITHOUT_MEMORY: &[NoMemoryRow<'static, MapCall>] = &[
    no_memory!(receiver!(&[]), calls: &[Changed(RemoveMut)], at: 1, answer: false),
    no_memory!(receiver!(&[]), calls: &[Changed(GetMut), Changed(ValueMut)], at: 1, answer: false),
    no_memory!(receiver!(&[]), calls: &[Made(Remove), Made(RemoveCounted)], at: 1, answer: true),
    no_memory!(receiver!(&[]), calls: &[Made(Share), Made(ShareCounted), Made(AlterValue)],
        at: 1, answer: true),
];

// The keys are multiples of it, so that no hash agrees with another in fewer than 54 binary digits.
const FAR: u64 = 1 << 54;

// Keys of a large one.
pub(crate) const STORED: &[u64] = &[0, FAR, 499 * FAR, 511 * FAR, 512 * FAR, 999 * FAR];

// Keys that aren't there.
pub(crate) const ABSENT: &[u64] = &[1_000 * FAR, 1_023 * FAR];

// At degree 2. A thousand keys have the ten digits that are left, and the longest path has a node for each of all 64, and a leaf.
pub(crate) const LARGE: LargeContainer = LargeContainer {
    variant: 2,
    count: 1_000,
    step: FAR,
    limit: u64::MAX,
};

// The bytes that come before what is shared: two counts of owners and the allocator.
pub(crate) const COUNTS: u64 = 24;

// The bytes of a node: its kind, the bitmap and the pointer, room, length and allocator of its row, its depth and bits.
pub(crate) const NODE: u64 = COUNTS + 56;

// The bytes of the longest path at degree 2: 65 nodes, of two children at most.
pub(crate) const PATH: u64 = 65 * (NODE + 2 * 8);

// The bytes of a path that the leaf at its end has.
pub(crate) const LEAF: u64 = NODE + 2 * 8;

// The bytes of a pair.
const PAIR: u64 = COUNTS + 32;

// Of 64 digits each: at most 65 nodes on the way to a key, two requests for each, and the pair where one is put in. A
// removal in place copies no leaf.
const ROWS: &[MemoryRow<'static, MapCall>] = &[
    memory!(Alike, calls: &[Made(Insert), Made(InsertCounted)], at: STORED,
        requests: 131, bytes: PATH + PAIR),
    memory!(Shared, calls: &[Changed(InsertMut), Made(AlterValue), Changed(AlterValueMut)],
        at: STORED, requests: 131, bytes: PATH + PAIR),
    memory!(Alike, calls: &[Made(Insert), Made(InsertCounted)], at: ABSENT,
        requests: 131, bytes: PATH + PAIR),
    memory!(
        Shared,
        calls: &[Changed(InsertMut), Changed(GetOrInsertWith), Made(AlterPresence),
            Changed(AlterPresenceMut)],
        at: ABSENT, requests: 131, bytes: PATH + PAIR
    ),
    memory!(Alike, calls: &[Made(Remove), Made(RemoveCounted)], at: STORED,
        requests: 129, bytes: PATH),
    memory!(Shared, calls: &[Changed(RemoveMut), Made(AlterPresence), Changed(AlterPresenceMut)],
        at: STORED, requests: 128, bytes: PATH - LEAF),
    memory!(Shared, calls: &[Changed(GetOrInsertWith), Changed(GetMut), Changed(ValueMut)],
        at: STORED, requests: 130, bytes: PATH + PAIR),
    memory!(Alike, calls: &[Made(Share), Made(ShareCounted)], at: &[7], limit: NOTHING),
    // Three pairs at degree 64, where a hash has 11 digits.
    memory!(Alike, calls: &[Made(FromIter)], at: &[7],
        answer: false, requests: 3 * 25, bytes: 3 * (12 * (NODE + 64 * 8) + PAIR)),
    // And the array.
    memory!(Alike, calls: &[Made(FromArray)], at: &[7],
        answer: false, requests: 3 * 25 + 1, bytes: 3 * (12 * (NODE + 64 * 8) + PAIR + 32)),
    // Alone: the pair, where one is put in.
    memory!(Alone, calls: &[Changed(InsertMut)], at: STORED, requests: 1, bytes: PAIR),
    memory!(Alone, calls: &[Changed(AlterValueMut)], at: STORED, requests: 1, bytes: PAIR),
    memory!(Alone, calls: &[Changed(GetOrInsertWith)], at: STORED, limit: NOTHING),
    memory!(Alone, calls: &[Changed(GetMut)], at: STORED, limit: NOTHING),
    memory!(Alone, calls: &[Changed(ValueMut)], at: STORED, limit: NOTHING),
    memory!(Alone, calls: &[Changed(AlterPresenceMut)], at: &[7 * FAR, 9 * FAR], limit: NOTHING),
    memory!(Alone, calls: &[Changed(RemoveMut)], at: STORED, limit: NOTHING),
];

// Four keys of the hash 0, each put in again and again.
pub(crate) const OF_ONE_HASH: LargeContainer = LargeContainer {
    variant: 4,
    count: 100,
    step: 1,
    limit: 4,
};

// The row of what shares a hash is changed where it is.
const ALONE_OF_ONE_HASH: &[MemoryRow<'static, MapCall>] = &[
    memory!(Alone, calls: &[Changed(InsertMut)], at: &[0, 1, 2, 3], requests: 1, bytes: PAIR),
    memory!(Alone, calls: &[Changed(GetMut)], at: &[0, 1, 2, 3], limit: NOTHING),
    memory!(Alone, calls: &[Changed(RemoveMut)], at: &[0, 2, 3], limit: NOTHING),
];

// One key, put in again and again.
pub(crate) const OF_ONE_KEY: LargeContainer = LargeContainer {
    variant: 2,
    count: 100,
    step: 0,
    limit: 1,
};

// A key whose hash agrees with that of this one in 63 binary digits.
pub(crate) const FORKED: &[u64] = &[1 << 63];

// A leaf that goes in place isn't copied, nor where another key is looked for. Beside it a fork at each of the 63 digits, and
// one where they differ, each with a row that has room for four; a leaf for each key.
const ONE_LEAF: &[MemoryRow<'static, MapCall>] = &[
    memory!(Shared, calls: &[Changed(RemoveMut)], at: &[0], limit: NOTHING),
    memory!(Shared, calls: &[Changed(RemoveMut)], at: FORKED, answer: false, limit: NOTHING),
    memory!(Alike, calls: &[Made(Insert), Made(InsertCounted)], at: FORKED,
        requests: 131, bytes: 64 * (NODE + 4 * 8) + 2 * NODE + PAIR),
];

// Makes the calls with each request and each clone refused in turn.
fn assert_refused(rt: &impl Abort, alloc: Global, calls: &'static [MapCall]) {
    let faults = Faults::new(alloc);
    check_some_refused::<Tests, MapCall, FailingMap>(&faults, &PLAN, calls).expect(rt, "each call");
}

#[test]
fn insertions(rt: HostRuntime) {
    assert_refused(&rt, rt.alloc(), INSERTIONS);
}

#[test]
fn insertions_in_place(rt: HostRuntime) {
    assert_refused(&rt, rt.alloc(), INSERTIONS_IN_PLACE);
}

#[test]
fn removals(rt: HostRuntime) {
    assert_refused(&rt, rt.alloc(), REMOVALS);
}

#[test]
fn removals_in_place(rt: HostRuntime) {
    assert_refused(&rt, rt.alloc(), REMOVALS_IN_PLACE);
}

#[test]
fn alterations(rt: HostRuntime) {
    assert_refused(&rt, rt.alloc(), ALTERATIONS);
}

#[test]
fn alterations_in_place(rt: HostRuntime) {
    assert_refused(&rt, rt.alloc(), ALTERATIONS_IN_PLACE);
}

#[test]
fn lends(rt: HostRuntime) {
    assert_refused(&rt, rt.alloc(), LENDS);
}

#[test]
fn builds(rt: HostRuntime) {
    assert_refused(&rt, rt.alloc(), BUILDS);
}

// What asks for no memory, and what is asked for among many entries.
#[test]
fn asked(rt: HostRuntime) {
    let faults = Faults::new(rt.alloc());
    check_container::<Tests, MapCall, FailingMap>(
        &faults,
        &PLAN,
        Changed(Clear),
        &receiver!(variant: 8, &[1, 2, 3]),
        &receiver!(variant: 8, &[1, 2, 3]),
    )
    .expect(&rt, "each check");
}
