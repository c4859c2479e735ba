use crate::Tests;
use crate::refused::hash_trie_map::{
    ABSENT, COUNTS, FORKED, LARGE, LEAF, NODE, NUMBERS, OF_ONE_HASH, OF_ONE_KEY, PATH, RECEIVERS,
    STORED,
};
use crate::refused::hash_trie_set::SetChanged::{Clear, InsertMut, RemoveMut};
use crate::refused::hash_trie_set::SetMade::{FromArray, FromIter, Insert, Remove, Share};
use rpds_core::steps::Steps;
use rpds_faults::{FailingAllocator, FailingItem, Faults, FlooredBuild};
use rpds_hash::map::hash_trie_map::{DefaultBuildHasher, HashTrieMap};
use rpds_hash::set::hash_trie_set::HashTrieSet;
use rpds_refusals::answer::{always_some, always_true, has_number, put_if_some};
use rpds_refusals::call::Call;
use rpds_refusals::call::Call::{Changed, Made};
use rpds_refusals::check::check_container;
use rpds_refusals::container::Container;
use rpds_refusals::looks::Looks;
use rpds_refusals::plan::Sharing::{Alike, Alone, Shared};
use rpds_refusals::plan::{MemoryRow, NOTHING, NoMemoryRow, Plan};
use rpds_refusals::refused::check_some_refused;
use rpds_refusals::subject::Subject;
use rpds_refusals::{memory, no_memory, receiver};
use std::alloc::{AllocError, Global};
use std::process::Abort;

pub(crate) type FailingSet<'t> = HashTrieSet<
    FailingItem<'t>,
    FlooredBuild<'t>,
    &'t FailingAllocator,
>;

pub(crate) type SetCall = Call<SetMade, SetChanged>;

// A call that hands out a set.
#[derive(Clone, Copy, Debug)]
pub(crate) enum SetMade {
    Insert,
    Remove,
    FromIter,
    FromArray,
    Share,
}

// A call that changes the set.
#[derive(Clone, Copy, Debug)]
pub(crate) enum SetChanged {
    InsertMut,
    RemoveMut,
    Clear,
}

// Makes a set of items, one of which may come twice, and drops it: its hasher is another one.
fn collected<'t>(number: u64, faults: &'t Faults) -> Result<Option<FailingSet<'t>>, AllocError> {
    let counts = &faults.counts;
    let items = [
        FailingItem::new(2, counts),
        FailingItem::new(number, counts),
        FailingItem::new(3, counts),
    ];
    let _made: HashTrieSet<_, DefaultBuildHasher, &FailingAllocator> = HashTrieSet::from_iter(
        &faults.alloc,
        items,
    )?;
    Ok(None)
}

// The same of an array.
fn of_array<'t>(number: u64, faults: &'t Faults) -> Result<Option<FailingSet<'t>>, AllocError> {
    let counts = &faults.counts;
    let items = [
        FailingItem::new(2, counts),
        FailingItem::new(number, counts),
        FailingItem::new(3, counts),
    ];
    let _made: HashTrieSet<_, DefaultBuildHasher, &FailingAllocator> = HashTrieSet::from_array(
        &faults.alloc,
        items,
    )?;
    Ok(None)
}

fn made<'t>(
    set: &FailingSet<'t>,
    call: SetMade,
    number: u64,
    faults: &'t Faults,
) -> Result<Option<FailingSet<'t>>, AllocError> {
    let counts = &faults.counts;
    match call {
        Insert => always_some(set.insert(FailingItem::new(number, counts))),
        Remove => always_some(set.remove(&FailingItem::new(number, counts))),
        FromIter => collected(number, faults),
        FromArray => of_array(number, faults),
        Share => always_some(set.clone()),
    }
}

fn changed<'t>(
    set: &mut FailingSet<'t>,
    call: SetChanged,
    number: u64,
    faults: &'t Faults,
) -> Result<bool, AllocError> {
    let counts = &faults.counts;
    match call {
        InsertMut => always_true(set.insert_mut(FailingItem::new(number, counts))),
        RemoveMut => set.remove_mut(&FailingItem::new(number, counts)),
        Clear => {
            set.clear();
            Ok(set.is_empty())
        }
    }
}

// The item 2 is there.
fn gets<'t>(set: &FailingSet<'t>, empty: &FailingSet<'t>, looks: &mut Looks<'_, 't>) {
    let there = &FailingItem::new(2, &looks.faults.counts);
    looks.see(
        "get",
        has_number(set.get(there), 2) && empty.get(there).is_none(),
    );
    looks.see(
        "get_counted",
        has_number(set.get_counted(there, &mut Steps::new()), 2),
    );
    looks.see("contains", set.contains(there) && !empty.contains(there));
}

// Both hold the same.
fn relates<'t>(set: &FailingSet<'t>, other: &FailingSet<'t>, looks: &mut Looks<'_, 't>) {
    looks.see("compared", *set == *other);
    looks.see("is_disjoint", !set.is_disjoint(other));
    looks.see("is_subset", set.is_subset(other));
    looks.see("is_superset", set.is_superset(other));
}

// How many members changed.
fn count_changes<'t>(set: &FailingSet<'t>, other: &FailingSet<'t>) -> u64 {
    let mut count = 0u64;
    for _ in set.diff(other) {
        count = count.wrapping_add(1);
    }
    count
}

// The first two sets have the same members.
fn diffs<'t>(set: &FailingSet<'t>, other: &FailingSet<'t>, empty: &FailingSet<'t>) -> bool {
    count_changes(set, other) == 0
        && count_changes(set, empty) == 3
        && count_changes(empty, set) == 3
}

// Each iterator is dropped after a step, and can be had again.
fn walks<'t>(set: &FailingSet<'t>, looks: &mut Looks<'_, 't>) {
    looks.see(
        "iter",
        set.iter().next().is_some() && set.iter().count() == 3,
    );
    looks.see(
        "into_iter",
        set.into_iter().next().is_some() && set.into_iter().count() == 3,
    );
    looks.see("size_hint", set.iter().size_hint() == (3, Some(3)));
}

impl<'t> Subject<'t, Tests, SetCall> for FailingSet<'t> {
    // The degree. At 0 it is that of `new`. The numbers up to 3 have the hash 0, at 8 those up to 2, at 2 none but 0.
    fn start(variant: u8, faults: &'t Faults) -> Result<Self, AllocError> {
        let floor = match variant {
            2 => 0,
            8 => 2,
            _ => 3,
        };
        let hasher = FlooredBuild::new(floor, &faults.counts);
        if matches!(variant, 2 | 4 | 8 | 16 | 32 | 64) {
            Ok(HashTrieSet::new_with_hasher_and_degree(&faults.alloc, hasher, variant))
        } else {
            Ok(HashTrieSet::new_with_hasher(&faults.alloc, hasher))
        }
    }

    fn share(&mut self, _faults: &'t Faults) -> Result<Option<Self>, AllocError> {
        always_some(self.clone())
    }

    fn is_as(&self, twin: &Self, _faults: &'t Faults) -> bool {
        *self == *twin
    }

    // The hasher too.
    fn held(&self) -> Option<u64> {
        Some((self.size() as u64).wrapping_add(1))
    }

    fn perform(
        &mut self,
        call: SetCall,
        number: u64,
        faults: &'t Faults,
    ) -> Result<bool, AllocError> {
        match call {
            Made(call) => {
                let made = made(self, call, number, faults);
                put_if_some(self, made)
            }
            Changed(call) => changed(self, call, number, faults),
        }
    }
}

impl<'t> Container<'t, Tests, SetCall> for FailingSet<'t> {
    fn looks(&self, other: &Self, empty: &Self, looks: &mut Looks<'_, 't>) {
        looks.see("size", self.size() == 3 && self.len() == 3);
        looks.see("is_empty", !self.is_empty() && empty.is_empty());
        gets(self, empty, looks);
        relates(self, other, looks);
        looks.see("diff", diffs(self, other, empty));
        walks(self, looks);
    }
}

const PLAN: Plan<'static, SetCall> = Plan {
    put: Changed(InsertMut),
    receivers: RECEIVERS,
    numbers: NUMBERS,
    calls: &[],
    never_refused: &[Changed(Clear)],
    empty_without_memory: &[0, 2, 4, 8, 16, 32, 64],
    without_memory: WITHOUT_MEMORY,
    limits: &[
        (LARGE, ROWS),
        (OF_ONE_HASH, ALONE_OF_ONE_HASH),
        (OF_ONE_KEY, FORKS),
    ],
};

// The calls that ask for memory or for a clone. Each list has a test of its own.
const CHANGES: &[SetCall] = &[Made(Insert), Made(Remove)];

const CHANGES_IN_PLACE: &[SetCall] = &[Changed(InsertMut), Changed(RemoveMut)];

const BUILDS: &[SetCall] = &[Made(FromIter), Made(FromArray), Made(Share)];

// There is nothing to do, or another empty one is handed out, and no memory is needed.
const WITHOUT_MEMORY: &[NoMemoryRow<'static, SetCall>] = &[
    no_memory!(receiver!(&[]), calls: &[Changed(RemoveMut)], at: 1, answer: false),
    no_memory!(receiver!(&[]), calls: &[Made(Remove), Made(Share)], at: 1, answer: true),
];

// The bytes of an item.
const ITEM: u64 = COUNTS + 16;

// As much as those of a map.
const ROWS: &[MemoryRow<'static, SetCall>] = &[
    memory!(Alike, calls: &[Made(Insert)], at: STORED, requests: 131, bytes: PATH + ITEM),
    memory!(Shared, calls: &[Changed(InsertMut)], at: STORED, requests: 131, bytes: PATH + ITEM),
    memory!(Alike, calls: &[Made(Insert)], at: ABSENT, requests: 131, bytes: PATH + ITEM),
    memory!(Shared, calls: &[Changed(InsertMut)], at: ABSENT, requests: 131, bytes: PATH + ITEM),
    memory!(Alike, calls: &[Made(Remove)], at: STORED, requests: 129, bytes: PATH),
    memory!(Shared, calls: &[Changed(RemoveMut)], at: STORED, requests: 128, bytes: PATH - LEAF),
    memory!(Alike, calls: &[Made(Share)], at: &[7], limit: NOTHING),
    memory!(Alike, calls: &[Made(FromIter)], at: &[7],
        answer: false, requests: 3 * 25, bytes: 3 * (12 * (NODE + 64 * 8) + ITEM)),
    // And the array.
    memory!(Alike, calls: &[Made(FromArray)], at: &[7],
        answer: false, requests: 3 * 25 + 1, bytes: 3 * (12 * (NODE + 64 * 8) + ITEM + 16)),
    // Alone: the item, where one is put in.
    memory!(Alone, calls: &[Changed(InsertMut)], at: STORED, requests: 1, bytes: ITEM),
    memory!(Alone, calls: &[Changed(RemoveMut)], at: STORED, limit: NOTHING),
];

const ALONE_OF_ONE_HASH: &[MemoryRow<'static, SetCall>] = &[
    memory!(Alone, calls: &[Changed(InsertMut)], at: &[0, 1, 2, 3], requests: 1, bytes: ITEM),
    memory!(Alone, calls: &[Changed(RemoveMut)], at: &[0, 2, 3], limit: NOTHING),
];

const FORKS: &[MemoryRow<'static, SetCall>] = &[memory!(Alike, calls: &[Made(Insert)], at: FORKED,
        requests: 131, bytes: 64 * (NODE + 4 * 8) + 2 * NODE + ITEM)];

// Makes the calls with each request and each clone refused in turn.
fn assert_refused(rt: &impl Abort, alloc: Global, calls: &'static [SetCall]) {
    let faults = Faults::new(alloc);
    check_some_refused::<Tests, SetCall, FailingSet>(&faults, &PLAN, calls).expect(rt, "each call");
}

#[test]
fn changes(rt: HostRuntime) {
    assert_refused(&rt, rt.alloc(), CHANGES);
}

#[test]
fn changes_in_place(rt: HostRuntime) {
    assert_refused(&rt, rt.alloc(), CHANGES_IN_PLACE);
}

#[test]
fn builds(rt: HostRuntime) {
    assert_refused(&rt, rt.alloc(), BUILDS);
}

// What asks for no memory, and what is asked for among many members.
#[test]
fn asked(rt: HostRuntime) {
    let faults = Faults::new(rt.alloc());
    check_container::<Tests, SetCall, FailingSet>(
        &faults,
        &PLAN,
        Changed(Clear),
        &receiver!(variant: 8, &[1, 2, 3]),
        &receiver!(variant: 8, &[1, 2, 3]),
    )
    .expect(&rt, "each check");
}

fn is_empty_map(map: HashTrieMap<u64, u64, DefaultBuildHasher, &FailingAllocator>) -> bool {
    map.is_empty()
}

fn is_empty_set(set: HashTrieSet<u64, DefaultBuildHasher, &FailingAllocator>) -> bool {
    set.is_empty()
}

// By the constructors of maps and sets with a hasher of their own.
#[test]
fn constructors_take_no_memory(rt: HostRuntime) {
    let faults = Faults::new(rt.alloc());
    let alloc = &faults.alloc;
    faults.refuse_next();
    let are_maps = is_empty_map(HashTrieMap::new(alloc))
        && is_empty_map(HashTrieMap::new_with_degree(alloc, 2));
    let are_sets = is_empty_set(HashTrieSet::new(alloc))
        && is_empty_set(HashTrieSet::new_with_degree(alloc, 2));
    assert!(rt; are_maps && are_sets && faults.none_came());
}
