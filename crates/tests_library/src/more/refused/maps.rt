//! The further calls of hashed maps.
use crate::Tests;
use rpds_faults::{FailingAllocator, FailingItem, Faults, FlooredBuild, LifeCounts};
use rpds_hash::map::hash_trie_map::HashTrieMap;
use rpds_refusals::answer::{always_true, put_in_place};
use rpds_refusals::check::check_calls;
use rpds_refusals::item::pair;
use rpds_refusals::plan::Sharing::Shared;
use rpds_refusals::plan::{LargeContainer, MemoryRow, Plan, Receiver};
use rpds_refusals::subject::Subject;
use rpds_refusals::{memory, no_memory, receiver, receivers};
use std::alloc::AllocError;

type FailingTrie<'t> = HashTrieMap<
    FailingItem<'t>,
    FailingItem<'t>,
    FlooredBuild<'t>,
    &'t FailingAllocator,
>;

// The calls.
#[derive(Clone, Copy, Debug)]
enum MapCall {
    Replace,
    Take,
    Update,
    UpdateMut,
    Extend,
    Retain,
    RetainMost,
    MapValues,
}

// Whether the number is one of a hundred whose hashes have the same three lowest digits.
pub(super) fn is_of_hundred(number: u64) -> bool {
    number % 64 == 3 && 64 < number && number < 6_464
}

// The value after an update: a clone of the one that was there, or a new one.
fn next<'t>(
    old: Option<&FailingItem<'t>>,
    counts: &'t LifeCounts,
) -> Result<FailingItem<'t>, AllocError> {
    match old {
        Some(value) => value.clone(),
        None => Ok(FailingItem::new(99, counts)),
    }
}

// Makes a call, and tells whether there was something to do.
fn perform<'t>(
    map: &mut FailingTrie<'t>,
    call: MapCall,
    number: u64,
    faults: &'t Faults,
) -> Result<bool, AllocError> {
    let counts = &faults.counts;
    match call {
        MapCall::Replace => replaced(map.replace(
            FailingItem::new(number, counts),
            FailingItem::new(99, counts),
        )),
        MapCall::Take => taken(map.take(&FailingItem::new(number, counts))),
        MapCall::Update => {
            let made = map.update(FailingItem::new(number, counts), |old| next(old, counts));
            put_in_place(map, made)
        }
        MapCall::UpdateMut => {
            always_true(map.update_mut(FailingItem::new(number, counts), |old| next(old, counts)))
        }
        MapCall::Extend => {
            always_true(map.extend([pair(2, counts), pair(number, counts), pair(3, counts)]))
        }
        MapCall::Retain => always_true(map.retain(|key, _| key.number != number)),
        MapCall::RetainMost => always_true(map.retain(|key, _| !is_of_hundred(key.number))),
        MapCall::MapValues => dropped(map.map_values(|value| value.clone())),
    }
}

// What was handed out is dropped.
fn dropped<M: Drop>(made: Result<M, AllocError>) -> Result<bool, AllocError> {
    match made {
        Ok(_) => Ok(false),
        Err(error) => Err(error),
    }
}

// A value was put in, and an old one handed out, if there was one.
fn replaced(old: Result<Option<FailingItem<'_>>, AllocError>) -> Result<bool, AllocError> {
    match old {
        Ok(_) => Ok(true),
        Err(error) => Err(error),
    }
}

// Whether a value was taken out.
fn taken(old: Result<Option<FailingItem<'_>>, AllocError>) -> Result<bool, AllocError> {
    match old {
        Ok(old) => Ok(old.is_some()),
        Err(error) => Err(error),
    }
}

impl<'t> Subject<'t, Tests, MapCall> for FailingTrie<'t> {
    // At the degree 4. All numbers up to 3 have one hash.
    fn start(_variant: u8, faults: &'t Faults) -> Result<Self, AllocError> {
        let hasher = FlooredBuild::new(3, &faults.counts);
        Ok(HashTrieMap::new_with_hasher_and_degree(&faults.alloc, hasher, 4))
    }

    fn share(&mut self, _faults: &'t Faults) -> Result<Option<Self>, AllocError> {
        Ok(Some(self.clone()?))
    }

    fn is_as(&self, twin: &Self, _faults: &'t Faults) -> bool {
        *self == *twin
    }

    // The hasher too.
    fn held(&self) -> Option<u64> {
        Some((self.size() as u64).wrapping_mul(2).wrapping_add(1))
    }

    fn perform(
        &mut self,
        call: MapCall,
        number: u64,
        faults: &'t Faults,
    ) -> Result<bool, AllocError> {
        perform(self, call, number, faults)
    }
}

const RECEIVERS: &[Receiver<'static>] = receivers![
    &[],
    &[1, 2, 3, 4, 20, 36, 255],
    &[1, 2, 3, 4, 5, 6, 7, 8, 9, 20, 36, 255]
];

const PLAN: Plan<'static, MapCall> = Plan {
    put: MapCall::Replace,
    receivers: RECEIVERS,
    numbers: &[2, 20, 52],
    calls: &[
        MapCall::Replace,
        MapCall::Take,
        MapCall::Update,
        MapCall::UpdateMut,
        MapCall::Extend,
        MapCall::Retain,
        MapCall::MapValues,
    ],
    never_refused: &[],
    empty_without_memory: &[0],
    without_memory: &[no_memory!(receiver!(&[]), calls: &[MapCall::Take], at: 1, answer: false)],
    limits: &[(LARGE, ROWS)],
};

const LARGE: LargeContainer = LargeContainer {
    variant: 0,
    count: 10_000,
    step: 1,
    limit: 10_000,
};

// The bytes of a branch of four children, and of a pair.
const BRANCH: u64 = 80 + 4 * 8;

const PAIR: u64 = 24 + 32;

// The path of a key has eight branches at most and a leaf, two requests for each; a new key may need one more.
const PATH: u64 = 9 * BRANCH;

// The branches above a hundred keys whose hashes have the same three lowest digits: below three, one, and then four of each, up to
// the last digits of 10,000 keys.
pub(super) const ABOVE_HUNDRED: u64 = 3 + 1 + 4 + 16 + 64;

// The branches of 10,000 keys: those of the first seven digits, below each of which lie two hashes or more, and one for each other of
// the 32 digits above the four keys of one hash.
const BRANCHES: u64 = 1 + 4 + 16 + 64 + 256 + 1_024 + 4_096 + (32 - 7);

// The other keys have a leaf each.
const LEAVES: u64 = 10_000 - 4;

// A map of so many keys: a pair and a leaf for each, a node and a row for each branch, and for the four of one hash a node, what it
// points to, and a row of three.
const WHOLE: u64 = 10_000 + LEAVES + 2 * BRANCHES + 3;

// Each node but the root stands in a row.
const WHOLE_BYTES: u64 = 10_000 * PAIR
    + (LEAVES + BRANCHES + 1) * 80
    + (LEAVES + BRANCHES) * 8
    + (24 + 48)
    + 3 * 16;

const ROWS: &[MemoryRow<'static, MapCall>] = &[
    memory!(
        Shared,
        calls: &[MapCall::Replace, MapCall::Update, MapCall::UpdateMut],
        at: &[9_000, 10_001], requests: 21, bytes: PATH + BRANCH + PAIR
    ),
    memory!(Shared, calls: &[MapCall::Take], at: &[9_000], requests: 18, bytes: PATH),
    memory!(Shared, calls: &[MapCall::Retain], at: &[9_000], requests: 18, bytes: PATH),
    // Each branch above a key that goes is copied once.
    memory!(Shared, calls: &[MapCall::RetainMost], at: &[7],
        requests: 2 * ABOVE_HUNDRED, bytes: ABOVE_HUNDRED * BRANCH),
    // Two of the keys have one hash, and lie below all its 32 digits.
    memory!(Shared, calls: &[MapCall::Extend], at: &[9_000, 10_001],
        requests: 21 + 2 * 69, bytes: PATH + 69 * BRANCH + 3 * PAIR),
    // Each key and each value is cloned once, and the hasher.
    memory!(Shared, calls: &[MapCall::MapValues], at: &[7],
        answer: false, clones: 2 * 10_000 + 1, requests: WHOLE, bytes: WHOLE_BYTES),
];

#[test]
fn calls(rt: HostRuntime) {
    let faults = Faults::new(rt.alloc());
    check_calls::<Tests, MapCall, FailingTrie>(&faults, &PLAN).expect(&rt, "each call");
}
