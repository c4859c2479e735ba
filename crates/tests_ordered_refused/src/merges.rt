use crate::Tests;
use crate::red_black_tree_map::{FailingMap, NODE, PAIR, RISING, STORED};
use rpds_core::steps::Steps;
use rpds_faults::{FailingItem, Faults};
use rpds_refusals::answer::{always_true, handed_on, put_in_place};
use rpds_refusals::call::Call;
use rpds_refusals::call::Call::{Changed, Made};
use rpds_refusals::check::check_calls;
use rpds_refusals::item::pair;
use rpds_refusals::plan::Sharing::Shared;
use rpds_refusals::plan::{MemoryRow, NOTHING, Plan};
use rpds_refusals::refused::check_some_refused;
use rpds_refusals::subject::Subject;
use rpds_refusals::{memory, receivers};
use rpds_tree::map::red_black_tree_map::RedBlackTreeMap;
use std::alloc::{AllocError, Global};
use std::cell::Cell;
use std::process::Abort;

// A call that hands out a map of this one and of others.
#[derive(Clone, Copy, Debug)]
enum MadeCall {
    UnionWith,
    Merge,
    MergeOurs,
    InsertShared,
    Share,
}

// A call that changes the map, or whose closure fails.
#[derive(Clone, Copy, Debug)]
enum ChangedCall {
    InsertMut,
    InsertSharedMut,
    FailingUnionWith,
    FailingMerge,
}

type MeetingCall = Call<MadeCall, ChangedCall>;

// A map of the number and of 2.
fn other<'t>(number: u64, faults: &'t Faults) -> Result<FailingMap<'t>, AllocError> {
    let counts = &faults.counts;
    RedBlackTreeMap::from_iter(&faults.alloc, [pair(number, counts), pair(2, counts)])
}

// The map with another value of the number, and without the key.
fn changed<'t>(
    map: &FailingMap<'t>,
    number: u64,
    value: u64,
    key: u64,
    faults: &'t Faults,
) -> Result<FailingMap<'t>, AllocError> {
    let counts = &faults.counts;
    let mut changed = map.insert(
        FailingItem::new(number, counts),
        FailingItem::new(value, counts),
    )?;
    changed.remove_mut(&FailingItem::new(key, counts))?;
    Ok(changed)
}

// Both sides change the number, and each takes out a key.
fn merged<'t>(
    map: &FailingMap<'t>,
    number: u64,
    faults: &'t Faults,
) -> Result<FailingMap<'t>, AllocError> {
    let ours = changed(map, number, 66, 4, faults)?;
    let theirs = changed(map, number, 77, 3, faults)?;
    map.merge(&ours, &theirs, |_key, _base, _ours, _theirs| {
        Ok(Some(FailingItem::new(55, &faults.counts)))
    })
}

fn merged_ours<'t>(
    map: &FailingMap<'t>,
    number: u64,
    faults: &'t Faults,
) -> Result<FailingMap<'t>, AllocError> {
    let ours = changed(map, number, 66, 4, faults)?;
    let theirs = changed(map, number, 77, 3, faults)?;
    match map.merge_ours(&ours, &theirs) {
        Ok(merged) => merged.map.clone(),
        Err(error) => Err(error),
    }
}

// A union whose closure fails.
fn fails_to_unite<'t>(
    map: &FailingMap<'t>,
    number: u64,
    faults: &'t Faults,
) -> Result<bool, AllocError> {
    let other = other(number, faults)?;
    let was_called = Cell::new(false);
    let made = map.union_with(&other, |_key, _ours, _theirs| {
        was_called.set(true);
        Err(AllocError)
    });
    handed_on(made, was_called.get())
}

// The same of a merge.
fn fails_to_merge<'t>(
    map: &FailingMap<'t>,
    number: u64,
    faults: &'t Faults,
) -> Result<bool, AllocError> {
    let ours = changed(map, number, 66, 4, faults)?;
    let theirs = changed(map, number, 77, 3, faults)?;
    let was_called = Cell::new(false);
    let made = map.merge(&ours, &theirs, |_key, _base, _ours, _theirs| {
        was_called.set(true);
        Err(AllocError)
    });
    handed_on(made, was_called.get())
}

// A pair of another map.
fn with_shared<'t>(
    map: &FailingMap<'t>,
    number: u64,
    faults: &'t Faults,
) -> Result<FailingMap<'t>, AllocError> {
    match other(number, faults)?.shared_entry(&FailingItem::new(number, &faults.counts))? {
        Some(entry) => map.insert_shared(entry),
        None => map.clone(),
    }
}

fn put_shared<'t>(
    map: &mut FailingMap<'t>,
    number: u64,
    faults: &'t Faults,
) -> Result<bool, AllocError> {
    let key = FailingItem::new(number, &faults.counts);
    match other(number, faults)?.shared_entry_counted(&key, &mut Steps::new())? {
        Some(entry) => always_true(map.insert_shared_mut(entry)),
        None => Ok(false),
    }
}

// The map that a call hands out.
fn made<'t>(
    map: &FailingMap<'t>,
    call: MadeCall,
    number: u64,
    faults: &'t Faults,
) -> Result<FailingMap<'t>, AllocError> {
    match call {
        MadeCall::UnionWith => map.union_with(
            &other(number, faults)?,
            |_key, _ours, theirs| theirs.clone(),
        ),
        MadeCall::Merge => merged(map, number, faults),
        MadeCall::MergeOurs => merged_ours(map, number, faults),
        MadeCall::InsertShared => with_shared(map, number, faults),
        MadeCall::Share => map.clone(),
    }
}

// Makes a call in place, and tells whether there was something to do.
fn performed<'t>(
    map: &mut FailingMap<'t>,
    call: ChangedCall,
    number: u64,
    faults: &'t Faults,
) -> Result<bool, AllocError> {
    let counts = &faults.counts;
    match call {
        ChangedCall::InsertMut => always_true(map.insert_mut(
            FailingItem::new(number, counts),
            FailingItem::new(99, counts),
        )),
        ChangedCall::InsertSharedMut => put_shared(map, number, faults),
        ChangedCall::FailingUnionWith => fails_to_unite(map, number, faults),
        ChangedCall::FailingMerge => fails_to_merge(map, number, faults),
    }
}

impl<'t> Subject<'t, Tests, MeetingCall> for FailingMap<'t> {
    fn start(_variant: u8, faults: &'t Faults) -> Result<Self, AllocError> {
        Ok(RedBlackTreeMap::new(&faults.alloc))
    }

    fn share(&mut self, _faults: &'t Faults) -> Result<Option<Self>, AllocError> {
        match self.clone() {
            Ok(other) => Ok(Some(other)),
            Err(error) => Err(error),
        }
    }

    fn is_as(&self, twin: &Self, _faults: &'t Faults) -> bool {
        self == twin
    }

    fn held(&self) -> Option<u64> {
        None
    }

    fn perform(
        &mut self,
        call: MeetingCall,
        number: u64,
        faults: &'t Faults,
    ) -> Result<bool, AllocError> {
        match call {
            Made(call) => {
                let made = made(self, call, number, faults);
                put_in_place(self, made)
            }
            Changed(call) => performed(self, call, number, faults),
        }
    }
}

// Of no pairs, of one, and of seven.
const PLAN: Plan<'static, MeetingCall> = Plan {
    put: Changed(ChangedCall::InsertMut),
    receivers: receivers![&[], &[1], &[1, 2, 3, 4, 5, 6, 7]],
    numbers: &[1, 2, 4, 7, 9],
    calls: &[],
    never_refused: &[Made(MadeCall::Share)],
    empty_without_memory: &[0],
    without_memory: &[],
    limits: &[(RISING, ROWS)],
};

// The calls that ask for memory or for a clone. Each list has a test of its own.
const UNIONS: &[MeetingCall] = &[
    Made(MadeCall::UnionWith),
    Made(MadeCall::InsertShared),
    Changed(ChangedCall::InsertMut),
    Changed(ChangedCall::InsertSharedMut),
    Changed(ChangedCall::FailingUnionWith),
];

const MERGES: &[MeetingCall] = &[
    Made(MadeCall::Merge),
    Made(MadeCall::MergeOurs),
    Changed(ChangedCall::FailingMerge),
];

// Twice the logarithm of 10,003 is 26. By their contracts an insertion makes at most 27 nodes, a removal at most 104, and a union
// 237 for each pair of the smaller map, of which there are two.
const INSERTED: u64 = 27;

const REMOVED: u64 = 104;

const UNITED: u64 = 2 * 237 + 2 * INSERTED;

// The other map has two pairs: a list of them takes one request, and each of them two.
const OTHER: u64 = 2 * (32 + NODE + PAIR);

// Each of two sides puts one pair in and takes one out, and so does the merge with what is theirs.
const MERGED: u64 = 3 * (INSERTED + REMOVED);

const ROWS: &[MemoryRow<'static, MeetingCall>] = &[
    memory!(Shared, calls: &[Made(MadeCall::UnionWith)], at: STORED,
        requests: 5 + 2 + UNITED, bytes: OTHER + 2 * PAIR + UNITED * NODE),
    memory!(Shared, calls: &[Made(MadeCall::Merge), Made(MadeCall::MergeOurs)], at: STORED,
        requests: 3 + MERGED, bytes: 3 * PAIR + MERGED * NODE),
    memory!(
        Shared,
        calls: &[Made(MadeCall::InsertShared), Changed(ChangedCall::InsertSharedMut)],
        at: STORED, requests: 5 + INSERTED, bytes: OTHER + INSERTED * NODE
    ),
    memory!(Shared, calls: &[Made(MadeCall::Share)], at: &[7], limit: NOTHING),
];

// Makes the calls with each request and each clone refused in turn.
fn assert_refused(rt: &impl Abort, alloc: Global, calls: &'static [MeetingCall]) {
    let faults = Faults::new(alloc);
    check_some_refused::<Tests, MeetingCall, FailingMap>(&faults, &PLAN, calls).expect(
        rt,
        "each call",
    );
}

#[test]
fn unions(rt: HostRuntime) {
    assert_refused(&rt, rt.alloc(), UNIONS);
}

#[test]
fn merges(rt: HostRuntime) {
    assert_refused(&rt, rt.alloc(), MERGES);
}

#[test]
fn asked(rt: HostRuntime) {
    let faults = Faults::new(rt.alloc());
    check_calls::<Tests, _, FailingMap>(&faults, &PLAN).expect(&rt, "each check");
}
