//! Each call of a branch that takes memory or clones, with each allocation and each clone refused in turn.
use crate::Tests;
use rpds_branch::branch::Branch;
use rpds_core::steps::Steps;
use rpds_faults::{FailingAllocator, FailingItem, Faults};
use rpds_refusals::answer::{always_true, handed_on, put_in_place};
use rpds_refusals::check::check_calls;
use rpds_refusals::item::pair;
use rpds_refusals::plan::Sharing::Shared;
use rpds_refusals::plan::{LargeContainer, MemoryRow, NOTHING, Plan};
use rpds_refusals::subject::Subject;
use rpds_refusals::{memory, receivers};
use rpds_tree::map::red_black_tree_map::RedBlackTreeMap;
use std::alloc::AllocError;
use std::cell::Cell;

type FailingMap<'t> = RedBlackTreeMap<FailingItem<'t>, FailingItem<'t>, &'t FailingAllocator>;

type FailingBranch<'t> = Branch<FailingItem<'t>, FailingItem<'t>, &'t FailingAllocator>;

// A call of a branch.
#[derive(Clone, Copy, Debug)]
enum BranchCall {
    New,
    // An insertion in place, and at 0 a new branch off the current map.
    Put,
    Insert,
    Remove,
    RemoveInPlace,
    Update,
    UpdateInPlace,
    Revert,
    RevertInPlace,
    RevertInPlaceCounted,
    CopyFrom,
    CopyFromInPlace,
    MergeOurs,
    MergeOursCounted,
    Merge,
    MergeCounted,
    // With a closure that fails.
    FailingMerge,
    Rebase,
    RebaseCounted,
    ListChanges,
    ListChangesCounted,
    Look,
    Share,
    Cloned,
}

// A map of two keys, one of which is the number.
fn other<'t>(number: u64, faults: &'t Faults) -> Result<FailingMap<'t>, AllocError> {
    let counts = &faults.counts;
    RedBlackTreeMap::from_iter(&faults.alloc, [pair(number, counts), pair(2, counts)])
}

// A branch of the same base, in which the number has another value.
fn theirs<'t>(
    branch: &FailingBranch<'t>,
    number: u64,
    faults: &'t Faults,
) -> Result<FailingBranch<'t>, AllocError> {
    let counts = &faults.counts;
    let mut theirs = Branch::new(branch.base())?;
    theirs.insert_mut(
        FailingItem::new(number, counts),
        FailingItem::new(77, counts),
    )?;
    theirs.remove_mut(&FailingItem::new(3, counts))?;
    Ok(theirs)
}

fn merged_ours<'t>(
    branch: &FailingBranch<'t>,
    number: u64,
    faults: &'t Faults,
) -> Result<FailingBranch<'t>, AllocError> {
    let theirs = theirs(branch, number, faults)?;
    match branch.merge_ours(&theirs) {
        Ok(merged) => merged.branch.clone(),
        Err(error) => Err(error),
    }
}

fn merged_ours_counted<'t>(
    branch: &FailingBranch<'t>,
    number: u64,
    faults: &'t Faults,
) -> Result<FailingBranch<'t>, AllocError> {
    let theirs = theirs(branch, number, faults)?;
    match branch.merge_ours_counted(&theirs, &mut Steps::new()) {
        Ok(merged) => merged.branch.clone(),
        Err(error) => Err(error),
    }
}

fn merged_counted<'t>(
    branch: &FailingBranch<'t>,
    number: u64,
    faults: &'t Faults,
) -> Result<FailingBranch<'t>, AllocError> {
    let theirs = theirs(branch, number, faults)?;
    branch.merge_counted(
        &theirs,
        |_key, _base, _ours, _theirs| Ok(Some(FailingItem::new(55, &faults.counts))),
        &mut Steps::new(),
    )
}

fn merged<'t>(
    branch: &FailingBranch<'t>,
    number: u64,
    faults: &'t Faults,
) -> Result<FailingBranch<'t>, AllocError> {
    let theirs = theirs(branch, number, faults)?;
    branch.merge(&theirs, |_key, _base, _ours, _theirs| {
        Ok(Some(FailingItem::new(55, &faults.counts)))
    })
}

fn fails_to_merge<'t>(
    branch: &FailingBranch<'t>,
    number: u64,
    faults: &'t Faults,
) -> Result<bool, AllocError> {
    let theirs = theirs(branch, number, faults)?;
    let was_called = Cell::new(false);
    let made = branch.merge(&theirs, |_key, _base, _ours, _theirs| {
        was_called.set(true);
        Err(AllocError)
    });
    handed_on(made, was_called.get())
}

// The other branch, on the map as it is now.
fn rebased<'t>(
    branch: &FailingBranch<'t>,
    number: u64,
    faults: &'t Faults,
) -> Result<FailingBranch<'t>, AllocError> {
    let theirs = theirs(branch, number, faults)?;
    match theirs.rebase(branch.current()) {
        Ok(rebased) => rebased.branch.clone(),
        Err(error) => Err(error),
    }
}

fn rebased_counted<'t>(
    branch: &FailingBranch<'t>,
    number: u64,
    faults: &'t Faults,
) -> Result<FailingBranch<'t>, AllocError> {
    let theirs = theirs(branch, number, faults)?;
    match theirs.rebase_counted(branch.current(), &mut Steps::new()) {
        Ok(rebased) => rebased.branch.clone(),
        Err(error) => Err(error),
    }
}

// The branch that a call hands out.
fn made<'t>(
    branch: &FailingBranch<'t>,
    call: BranchCall,
    number: u64,
    faults: &'t Faults,
) -> Result<FailingBranch<'t>, AllocError> {
    let key = FailingItem::new(number, &faults.counts);
    let value = FailingItem::new(99, &faults.counts);
    match call {
        BranchCall::Insert => branch.insert(key, value),
        BranchCall::Remove => branch.remove(&key),
        BranchCall::Update => branch.update(key, |_| Ok(value)),
        BranchCall::Revert => branch.revert(&key),
        BranchCall::CopyFrom => branch.copy_from(&other(number, faults)?, &key),
        BranchCall::MergeOurs => merged_ours(branch, number, faults),
        BranchCall::MergeOursCounted => merged_ours_counted(branch, number, faults),
        BranchCall::Merge => merged(branch, number, faults),
        BranchCall::MergeCounted => merged_counted(branch, number, faults),
        BranchCall::Rebase => rebased(branch, number, faults),
        BranchCall::RebaseCounted => rebased_counted(branch, number, faults),
        BranchCall::Share => branch.clone(),
        BranchCall::Cloned => Clone::clone(branch),
        _ => Branch::new(branch.current()),
    }
}

// A call in place.
fn changed<'t>(
    branch: &mut FailingBranch<'t>,
    call: BranchCall,
    number: u64,
    faults: &'t Faults,
) -> Result<bool, AllocError> {
    let key = FailingItem::new(number, &faults.counts);
    let value = FailingItem::new(99, &faults.counts);
    match call {
        BranchCall::RemoveInPlace => branch.remove_mut(&key),
        BranchCall::UpdateInPlace => always_true(branch.update_mut(key, |_| Ok(value))),
        BranchCall::RevertInPlace => always_true(branch.revert_mut(&key)),
        BranchCall::RevertInPlaceCounted => {
            always_true(branch.revert_mut_counted(&key, &mut Steps::new()))
        }
        BranchCall::CopyFromInPlace => always_true(branch.copy_from_mut(
            &other(number, faults)?,
            &key,
        )),
        BranchCall::ListChanges => match branch.list_changes() {
            Ok(changes) => Ok(!changes.is_empty()),
            Err(error) => Err(error),
        },
        BranchCall::ListChangesCounted => match branch.list_changes_counted(&mut Steps::new()) {
            Ok(changes) => Ok(!changes.is_empty()),
            Err(error) => Err(error),
        },
        BranchCall::Look => Ok(branch.is_changed() == branch.changes().next().is_some()),
        _ => always_true(branch.insert_mut(key, value)),
    }
}

impl<'t> Subject<'t, Tests, BranchCall> for FailingBranch<'t> {
    fn start(_variant: u8, faults: &'t Faults) -> Result<Self, AllocError> {
        Branch::new(&RedBlackTreeMap::new(&faults.alloc))
    }

    fn share(&mut self, _faults: &'t Faults) -> Result<Option<Self>, AllocError> {
        match self.clone() {
            Ok(other) => Ok(Some(other)),
            Err(error) => Err(error),
        }
    }

    fn is_as(&self, twin: &Self, _faults: &'t Faults) -> bool {
        self.base() == twin.base() && self.current() == twin.current()
    }

    fn held(&self) -> Option<u64> {
        None
    }

    fn perform(
        &mut self,
        call: BranchCall,
        number: u64,
        faults: &'t Faults,
    ) -> Result<bool, AllocError> {
        match call {
            BranchCall::Put if number == 0 => {
                let made = Branch::new(self.current());
                put_in_place(self, made)
            }
            BranchCall::Put
            | BranchCall::RemoveInPlace
            | BranchCall::UpdateInPlace
            | BranchCall::RevertInPlace
            | BranchCall::RevertInPlaceCounted
            | BranchCall::CopyFromInPlace
            | BranchCall::ListChanges
            | BranchCall::ListChangesCounted
            | BranchCall::Look => changed(self, call, number, faults),
            BranchCall::FailingMerge => fails_to_merge(self, number, faults),
            _ => {
                let made = made(self, call, number, faults);
                put_in_place(self, made)
            }
        }
    }
}

// Of no pairs, of one that is new, and of seven of which three are new or changed.
const PLAN: Plan<'static, BranchCall> = Plan {
    put: BranchCall::Put,
    receivers: receivers![&[], &[1], &[1, 2, 3, 4, 5, 0, 2, 6, 7]],
    numbers: &[1, 2, 4, 7, 9],
    calls: &[
        BranchCall::Put,
        BranchCall::Insert,
        BranchCall::Remove,
        BranchCall::RemoveInPlace,
        BranchCall::Update,
        BranchCall::UpdateInPlace,
        BranchCall::Revert,
        BranchCall::RevertInPlace,
        BranchCall::RevertInPlaceCounted,
        BranchCall::CopyFrom,
        BranchCall::CopyFromInPlace,
        BranchCall::MergeOurs,
        BranchCall::MergeOursCounted,
        BranchCall::Merge,
        BranchCall::MergeCounted,
        BranchCall::FailingMerge,
        BranchCall::Rebase,
        BranchCall::RebaseCounted,
        BranchCall::ListChanges,
        BranchCall::ListChangesCounted,
    ],
    never_refused: &[
        BranchCall::New,
        BranchCall::Look,
        BranchCall::Share,
        BranchCall::Cloned,
    ],
    empty_without_memory: &[],
    without_memory: &[],
    limits: &[(LARGE, ROWS)],
};

// The base is empty, and the other 9,999 numbers are put in.
const LARGE: LargeContainer = LargeContainer {
    variant: 0,
    count: 10_000,
    step: 1,
    limit: 10_000,
};

const PLACES: &[u64] = &[1, 2, 17, 5_000, 9_999];

// The bytes that come before what is shared: two counts of owners and the allocator.
const COUNTS: u64 = 24;

// The bytes of a node: its links, each with a color, a count and a pointer, and the pointer to its pair.
const NODE: u64 = COUNTS + 40;

// The bytes of a pair.
const PAIR: u64 = COUNTS + 32;

// Twice the logarithm of 10,001 is 26. By their contracts an insertion makes at most 27 nodes, a removal at most 104, of the map
// and of the changed keys alike, and a union of these 237 for each of the two that the other branch changed.
const INSERTED: u64 = 27;

const REMOVED: u64 = 104;

const UNITED: u64 = 2 * 237;

// The other map has two pairs, each of which takes two requests.
const OTHER: u64 = 2 * (NODE + PAIR);

// The other branch has two changed keys, and one pair; each key is settled by an insertion or a removal.
const SETTLED: u64 = 2 * (INSERTED + REMOVED) + 6;

const MERGED: u64 = UNITED + SETTLED;

// A list of the 9,999 changes has four places at first, and twice as many whenever it is full, so that the last list has 16,384, and
// all together have fewer than twice as many. A change takes a tag and three references.
const LISTS: u64 = 13;

const LISTED: u64 = 16_384;

const CHANGE: u64 = 32;

const ROWS: &[MemoryRow<'static, BranchCall>] = &[
    memory!(
        Shared,
        calls: &[BranchCall::Put, BranchCall::Insert, BranchCall::Update,
            BranchCall::UpdateInPlace],
        at: PLACES, requests: 2 + 2 * INSERTED, bytes: 2 * PAIR + 2 * INSERTED * NODE
    ),
    memory!(Shared, calls: &[BranchCall::Remove, BranchCall::RemoveInPlace], at: PLACES,
        requests: 1 + REMOVED + INSERTED, bytes: PAIR + (REMOVED + INSERTED) * NODE),
    memory!(
        Shared,
        calls: &[BranchCall::Revert, BranchCall::RevertInPlace, BranchCall::RevertInPlaceCounted],
        at: PLACES, requests: 2 * REMOVED, bytes: 2 * REMOVED * NODE
    ),
    memory!(Shared, calls: &[BranchCall::CopyFrom, BranchCall::CopyFromInPlace], at: PLACES,
        requests: 4 + 2 * INSERTED, bytes: OTHER + 2 * INSERTED * NODE),
    memory!(
        Shared,
        calls: &[BranchCall::Merge, BranchCall::MergeCounted, BranchCall::MergeOurs,
            BranchCall::MergeOursCounted],
        at: PLACES, requests: 4 + MERGED, bytes: 4 * PAIR + MERGED * NODE
    ),
    memory!(Shared, calls: &[BranchCall::ListChanges, BranchCall::ListChangesCounted], at: &[7],
        requests: LISTS, bytes: 2 * LISTED * CHANGE),
    memory!(Shared, calls: &[BranchCall::Rebase, BranchCall::RebaseCounted], at: &[17, 10_001],
        requests: 4 + SETTLED, bytes: 4 * PAIR + SETTLED * NODE),
    memory!(Shared, calls: &[BranchCall::New, BranchCall::Share, BranchCall::Cloned], at: &[7],
        limit: NOTHING),
];

#[test]
fn calls(rt: HostRuntime) {
    let faults = Faults::new(rt.alloc());
    check_calls::<Tests, _, FailingBranch>(&faults, &PLAN).expect(&rt, "each call");
}
