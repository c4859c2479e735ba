use crate::Tests;
use crate::refused::list::{COUNTS, ITEM};
use rpds_core::steps::Steps;
use rpds_faults::{FailingAllocator, FailingItem, Faults};
use rpds_refusals::answer::{
    always_true, has_number, is_below, put_if_some, put_in_place, write_number,
    write_number_if_lent,
};
use rpds_refusals::check::check_calls;
use rpds_refusals::item::{five, three};
use rpds_refusals::looks::Looks;
use rpds_refusals::plan::Sharing::{Alike, Alone, Shared};
use rpds_refusals::plan::{LargeContainer, Limit, MemoryRow, NOTHING, NoMemoryRow, Plan};
use rpds_refusals::refused::check_some_refused;
use rpds_refusals::subject::Subject;
use rpds_refusals::{memory, no_memory, receiver, receivers};
use rpds_sequence::sequence::Sequence;
use std::alloc::{AllocError, Global};
use std::process::Abort;

type FailingSequence<'t> = Sequence<FailingItem<'t>, &'t FailingAllocator>;

// A call of a sequence.
#[derive(Clone, Copy, Debug)]
enum SequenceCall {
    PushBackMut,
    PushBackMutCounted,
    PushBack,
    PushBackCounted,
    PushFrontMut,
    PushFrontMutCounted,
    PushFront,
    PushFrontCounted,
    PopFront,
    PopFrontCounted,
    PopBack,
    PopBackCounted,
    Insert,
    InsertCounted,
    InsertMut,
    InsertMutCounted,
    Set,
    SetCounted,
    SetMut,
    SetMutCounted,
    Update,
    UpdateMut,
    Remove,
    RemoveCounted,
    RemoveMut,
    RemoveMutCounted,
    GetMut,
    ItemMut,
    ItemMutCounted,
    Append,
    AppendCounted,
    Extend,
    SplitAt,
    SplitAtCounted,
    Take,
    Skip,
    Truncate,
    Retain,
    Slice,
    WithoutRange,
    Splice,
    Reverse,
    Map,
    FromIter,
    FromVec,
    FromArray,
    Clear,
    Share,
    ShareCounted,
    Cloned,
}

// What is left without the item at an end.
fn popped<'t>(
    popped: Result<Option<(&FailingItem<'t>, FailingSequence<'t>)>, AllocError>,
) -> Result<Option<FailingSequence<'t>>, AllocError> {
    match popped {
        Ok(Some((_, rest))) => Ok(Some(rest)),
        Ok(None) => Ok(None),
        Err(error) => Err(error),
    }
}

fn three_of<'t>(faults: &'t Faults) -> Result<FailingSequence<'t>, AllocError> {
    Sequence::from_iter(&faults.alloc, three(&faults.counts))
}

fn three_of_an_array<'t>(faults: &'t Faults) -> Result<FailingSequence<'t>, AllocError> {
    Sequence::from_array(&faults.alloc, three(&faults.counts))
}

fn three_of_a_list<'t>(faults: &'t Faults) -> Result<FailingSequence<'t>, AllocError> {
    let items = Vec::from_array(&faults.alloc, three(&faults.counts))?;
    Sequence::from_vec(&faults.alloc, items)
}

// A change at an end.
fn change_end<'t>(
    sequence: &mut FailingSequence<'t>,
    call: SequenceCall,
    item: FailingItem<'t>,
) -> Result<bool, AllocError> {
    match call {
        SequenceCall::PushBack
        | SequenceCall::PushBackCounted
        | SequenceCall::PushFront
        | SequenceCall::PushFrontCounted => {
            let made = pushed_by(sequence, call, item);
            put_in_place(sequence, made)
        }
        SequenceCall::PushFrontMut => always_true(sequence.push_front_mut(item)),
        SequenceCall::PushFrontMutCounted => {
            always_true(sequence.push_front_mut_counted(item, &mut Steps::new()))
        }
        SequenceCall::PushBackMut => always_true(sequence.push_back_mut(item)),
        SequenceCall::PushBackMutCounted => {
            always_true(sequence.push_back_mut_counted(item, &mut Steps::new()))
        }
        _ => {
            let rest = popped_by(sequence, call);
            put_if_some(sequence, rest)
        }
    }
}

// What a push makes.
fn pushed_by<'t>(
    sequence: &FailingSequence<'t>,
    call: SequenceCall,
    item: FailingItem<'t>,
) -> Result<FailingSequence<'t>, AllocError> {
    let steps = &mut Steps::new();
    match call {
        SequenceCall::PushBack => sequence.push_back(item),
        SequenceCall::PushBackCounted => sequence.push_back_counted(item, steps),
        SequenceCall::PushFront => sequence.push_front(item),
        _ => sequence.push_front_counted(item, steps),
    }
}

// What a pop leaves.
fn popped_by<'t>(
    sequence: &FailingSequence<'t>,
    call: SequenceCall,
) -> Result<Option<FailingSequence<'t>>, AllocError> {
    let steps = &mut Steps::new();
    match call {
        SequenceCall::PopFront => popped(sequence.pop_front()),
        SequenceCall::PopFrontCounted => popped(sequence.pop_front_counted(steps)),
        SequenceCall::PopBack => popped(sequence.pop_back()),
        _ => popped(sequence.pop_back_counted(steps)),
    }
}

// A change of one item at an index.
fn change_item<'t>(
    sequence: &mut FailingSequence<'t>,
    call: SequenceCall,
    index: usize,
    item: FailingItem<'t>,
) -> Result<bool, AllocError> {
    let steps = &mut Steps::new();
    match call {
        SequenceCall::Insert => {
            let made = sequence.insert(index, item);
            put_if_some(sequence, made)
        }
        SequenceCall::InsertCounted => {
            let made = sequence.insert_counted(index, item, steps);
            put_if_some(sequence, made)
        }
        SequenceCall::InsertMut => sequence.insert_mut(index, item),
        SequenceCall::InsertMutCounted => sequence.insert_mut_counted(index, item, steps),
        SequenceCall::Set => {
            let made = sequence.set(index, item);
            put_if_some(sequence, made)
        }
        SequenceCall::SetCounted => {
            let made = sequence.set_counted(index, item, steps);
            put_if_some(sequence, made)
        }
        SequenceCall::SetMut => sequence.set_mut(index, item),
        SequenceCall::SetMutCounted => sequence.set_mut_counted(index, item, steps),
        SequenceCall::Update => {
            let made = sequence.update(index, |_| Ok(item));
            put_if_some(sequence, made)
        }
        SequenceCall::UpdateMut => sequence.update_mut(index, |_| Ok(item)),
        SequenceCall::Remove => {
            let made = sequence.remove(index);
            put_if_some(sequence, made)
        }
        SequenceCall::RemoveCounted => {
            let made = sequence.remove_counted(index, steps);
            put_if_some(sequence, made)
        }
        SequenceCall::RemoveMut => sequence.remove_mut(index),
        SequenceCall::RemoveMutCounted => sequence.remove_mut_counted(index, steps),
        SequenceCall::GetMut => Ok(write_number(sequence.get_mut(index)?, 99)),
        SequenceCall::ItemMut => write_number_if_lent(sequence.item_mut(index), 99),
        _ => write_number_if_lent(sequence.item_mut_counted(index, steps), 99),
    }
}

// A change of the whole: the ranges begin at the second item.
fn change_whole<'t>(
    sequence: &mut FailingSequence<'t>,
    call: SequenceCall,
    index: usize,
    faults: &'t Faults,
) -> Result<bool, AllocError> {
    let steps = &mut Steps::new();
    let made = match call {
        SequenceCall::Append => sequence.append(&three_of(faults)?),
        SequenceCall::AppendCounted => sequence.append_counted(&three_of(faults)?, steps),
        SequenceCall::SplitAt => Ok(sequence.split_at(index)?.1),
        SequenceCall::SplitAtCounted => Ok(sequence.split_at_counted(index, steps)?.1),
        SequenceCall::Take => sequence.take(index),
        SequenceCall::Skip => sequence.skip(index),
        SequenceCall::Slice => sequence.slice(1..index),
        SequenceCall::WithoutRange => sequence.without_range(1..index),
        SequenceCall::Splice => sequence.splice(1..index, &three_of(faults)?),
        SequenceCall::Reverse => sequence.reverse(),
        SequenceCall::Map => sequence.map(|item| item.clone()),
        SequenceCall::FromIter => three_of(faults),
        SequenceCall::FromVec => three_of_a_list(faults),
        SequenceCall::FromArray => three_of_an_array(faults),
        SequenceCall::ShareCounted => sequence.clone_counted(steps),
        SequenceCall::Cloned => Clone::clone(sequence),
        _ => sequence.clone(),
    };
    put_in_place(sequence, made)
}

fn cleared(sequence: &mut FailingSequence<'_>) -> bool {
    sequence.clear();
    sequence.is_empty()
}

impl<'t> Subject<'t, Tests, SequenceCall> for FailingSequence<'t> {
    fn start(_variant: u8, faults: &'t Faults) -> Result<Self, AllocError> {
        Ok(Sequence::new(&faults.alloc))
    }

    fn share(&mut self, _faults: &'t Faults) -> Result<Option<Self>, AllocError> {
        match self.clone() {
            Ok(other) => Ok(Some(other)),
            Err(error) => Err(error),
        }
    }

    fn is_as(&self, twin: &Self, _faults: &'t Faults) -> bool {
        *self == *twin
    }

    fn held(&self) -> Option<u64> {
        Some(self.len() as u64)
    }

    fn perform(
        &mut self,
        call: SequenceCall,
        number: u64,
        faults: &'t Faults,
    ) -> Result<bool, AllocError> {
        let index = number as usize;
        match call {
            SequenceCall::PushBackMut
            | SequenceCall::PushBackMutCounted
            | SequenceCall::PushBack
            | SequenceCall::PushBackCounted
            | SequenceCall::PushFrontMut
            | SequenceCall::PushFrontMutCounted
            | SequenceCall::PushFront
            | SequenceCall::PushFrontCounted
            | SequenceCall::PopFront
            | SequenceCall::PopFrontCounted
            | SequenceCall::PopBack
            | SequenceCall::PopBackCounted => {
                change_end(self, call, FailingItem::new(number, &faults.counts))
            }
            SequenceCall::Insert
            | SequenceCall::InsertCounted
            | SequenceCall::InsertMut
            | SequenceCall::InsertMutCounted
            | SequenceCall::Set
            | SequenceCall::SetCounted
            | SequenceCall::SetMut
            | SequenceCall::SetMutCounted
            | SequenceCall::Update
            | SequenceCall::UpdateMut
            | SequenceCall::Remove
            | SequenceCall::RemoveCounted
            | SequenceCall::RemoveMut
            | SequenceCall::RemoveMutCounted
            | SequenceCall::GetMut
            | SequenceCall::ItemMut
            | SequenceCall::ItemMutCounted => {
                change_item(self, call, index, FailingItem::new(9, &faults.counts))
            }
            SequenceCall::Extend => always_true(self.extend(five(&faults.counts))),
            SequenceCall::Truncate => always_true(self.truncate(index)),
            SequenceCall::Retain => always_true(self.retain(|item| item.number != number)),
            SequenceCall::Clear => Ok(cleared(self)),
            _ => change_whole(self, call, index, faults),
        }
    }
}

// Of no item, of one, and of five. The first item, the third, the last, and none.
const PLAN: Plan<'static, SequenceCall> = Plan {
    put: SequenceCall::PushBackMut,
    receivers: receivers![&[], &[0], &[0, 1, 2, 3, 4]],
    numbers: &[0, 2, 4, 5],
    calls: &[],
    never_refused: &[
        SequenceCall::Clear,
        SequenceCall::Share,
        SequenceCall::ShareCounted,
        SequenceCall::Cloned,
    ],
    empty_without_memory: &[0],
    without_memory: WITHOUT_MEMORY,
    limits: &[(LARGE, ROWS)],
};

// The calls that ask for memory or for a clone, which have a test of their own.
const CALLS: &[SequenceCall] = &[
    SequenceCall::PushBackMut,
    SequenceCall::PushBackMutCounted,
    SequenceCall::PushBack,
    SequenceCall::PushBackCounted,
    SequenceCall::PushFrontMut,
    SequenceCall::PushFrontMutCounted,
    SequenceCall::PushFront,
    SequenceCall::PushFrontCounted,
    SequenceCall::PopFront,
    SequenceCall::PopFrontCounted,
    SequenceCall::PopBack,
    SequenceCall::PopBackCounted,
    SequenceCall::Insert,
    SequenceCall::InsertCounted,
    SequenceCall::InsertMut,
    SequenceCall::InsertMutCounted,
    SequenceCall::Set,
    SequenceCall::SetCounted,
    SequenceCall::SetMut,
    SequenceCall::SetMutCounted,
    SequenceCall::Update,
    SequenceCall::UpdateMut,
    SequenceCall::Remove,
    SequenceCall::RemoveCounted,
    SequenceCall::RemoveMut,
    SequenceCall::RemoveMutCounted,
    SequenceCall::GetMut,
    SequenceCall::ItemMut,
    SequenceCall::ItemMutCounted,
    SequenceCall::Append,
    SequenceCall::AppendCounted,
    SequenceCall::Extend,
    SequenceCall::SplitAt,
    SequenceCall::SplitAtCounted,
    SequenceCall::Take,
    SequenceCall::Skip,
    SequenceCall::Truncate,
    SequenceCall::Retain,
    SequenceCall::Slice,
    SequenceCall::WithoutRange,
    SequenceCall::Splice,
    SequenceCall::Reverse,
    SequenceCall::Map,
    SequenceCall::FromIter,
    SequenceCall::FromVec,
    SequenceCall::FromArray,
];

// There is no such item, and no memory is needed.
const WITHOUT_MEMORY: &[NoMemoryRow<'static, SequenceCall>] = &[
    no_memory!(
        receiver!(&[]),
        calls: &[SequenceCall::PopFront, SequenceCall::PopFrontCounted, SequenceCall::PopBack,
            SequenceCall::PopBackCounted],
        at: 0, answer: false
    ),
    no_memory!(
        receiver!(&[1, 2, 3]),
        calls: &[SequenceCall::Set, SequenceCall::SetCounted, SequenceCall::SetMut,
            SequenceCall::SetMutCounted, SequenceCall::Update, SequenceCall::UpdateMut,
            SequenceCall::Remove, SequenceCall::RemoveCounted, SequenceCall::RemoveMut,
            SequenceCall::RemoveMutCounted, SequenceCall::GetMut, SequenceCall::ItemMut,
            SequenceCall::ItemMutCounted],
        at: 3, answer: false
    ),
    no_memory!(
        receiver!(&[1, 2, 3]),
        calls: &[SequenceCall::Insert, SequenceCall::InsertCounted, SequenceCall::InsertMut,
            SequenceCall::InsertMutCounted],
        at: 4, answer: false
    ),
];

const LARGE: LargeContainer = LargeContainer {
    variant: 0,
    count: 10_000,
    step: 1,
    limit: 10_000,
};

const PLACES: &[u64] = &[0, 1, 4_999, 9_998, 9_999];

// The bytes of a node: two links with their color and count, and the entry.
const NODE: u64 = COUNTS + 40;

// No path of 10,000 items has more nodes: twice the logarithm of 10,001.
const LEVELS: u64 = 26;

// The nodes of a removal, of a cut and of an append, at most.
const REMOVED: Limit = Limit {
    requests: 4 * LEVELS,
    bytes: 4 * LEVELS * NODE,
};

const CUT: Limit = REMOVED;

const CUT_TWICE: Limit = Limit {
    requests: 2 * CUT.requests,
    bytes: 2 * CUT.bytes,
};

const APPENDED: Limit = Limit {
    requests: 5 * LEVELS + 3,
    bytes: (5 * LEVELS + 3) * NODE,
};

// A sequence of three items: a list with room for four of them, and a node and an entry for each.
const THREE: Limit = Limit {
    requests: 7,
    bytes: 4 * 16 + 3 * (NODE + ITEM),
};

const ROWS: &[MemoryRow<'static, SequenceCall>] = &[
    memory!(
        Alike,
        calls: &[SequenceCall::Insert, SequenceCall::InsertCounted, SequenceCall::InsertMut,
            SequenceCall::InsertMutCounted],
        at: PLACES, requests: LEVELS + 2, bytes: (LEVELS + 1) * NODE + ITEM
    ),
    memory!(
        Alike,
        calls: &[SequenceCall::PushBack, SequenceCall::PushBackCounted, SequenceCall::PushBackMut,
            SequenceCall::PushBackMutCounted],
        at: &[7], requests: LEVELS + 2, bytes: (LEVELS + 1) * NODE + ITEM
    ),
    memory!(
        Alike,
        calls: &[SequenceCall::PushFront, SequenceCall::PushFrontCounted,
            SequenceCall::PushFrontMut, SequenceCall::PushFrontMutCounted],
        at: &[7], requests: LEVELS + 2, bytes: (LEVELS + 1) * NODE + ITEM
    ),
    memory!(
        Alike,
        calls: &[SequenceCall::Set, SequenceCall::SetCounted, SequenceCall::SetMut,
            SequenceCall::SetMutCounted, SequenceCall::Update, SequenceCall::UpdateMut],
        at: PLACES, requests: LEVELS + 1, bytes: LEVELS * NODE + ITEM
    ),
    memory!(
        Alike,
        calls: &[SequenceCall::Remove, SequenceCall::RemoveCounted, SequenceCall::RemoveMut,
            SequenceCall::RemoveMutCounted],
        at: PLACES, limit: REMOVED
    ),
    // The nodes of the path, and the item's copy.
    memory!(
        Alike,
        calls: &[SequenceCall::GetMut, SequenceCall::ItemMut, SequenceCall::ItemMutCounted],
        at: PLACES, requests: LEVELS + 1, bytes: LEVELS * NODE + ITEM
    ),
    memory!(
        Shared,
        calls: &[SequenceCall::PopFront, SequenceCall::PopFrontCounted, SequenceCall::PopBack,
            SequenceCall::PopBackCounted],
        at: &[7], limit: REMOVED
    ),
    memory!(
        Alike,
        calls: &[SequenceCall::SplitAt, SequenceCall::SplitAtCounted, SequenceCall::Skip,
            SequenceCall::Take],
        at: PLACES, limit: CUT
    ),
    memory!(Shared, calls: &[SequenceCall::Truncate], at: PLACES, limit: CUT),
    // Behind the last item nothing is cut off.
    memory!(
        Alike,
        calls: &[SequenceCall::SplitAt, SequenceCall::SplitAtCounted, SequenceCall::Skip,
            SequenceCall::Take, SequenceCall::Truncate],
        at: &[10_000, 10_001], limit: NOTHING
    ),
    // A list with room for all, and a node for each that stays.
    memory!(Shared, calls: &[SequenceCall::Retain], at: &[7],
        requests: 10_000, bytes: 8 * 10_000 + 9_999 * NODE),
    // No item has this number, so all stay: the list alone.
    memory!(Shared, calls: &[SequenceCall::Retain], at: &[20_000], requests: 1, bytes: 8 * 10_000),
    // A list, and a node and an item for each.
    memory!(Shared, calls: &[SequenceCall::Map], at: &[7],
        requests: 20_001, bytes: 10_000 * (16 + NODE + ITEM)),
    memory!(Shared, calls: &[SequenceCall::Slice], at: PLACES, limit: CUT_TWICE),
    memory!(Shared, calls: &[SequenceCall::WithoutRange], at: PLACES,
        requests: CUT_TWICE.requests + APPENDED.requests, bytes: CUT_TWICE.bytes + APPENDED.bytes),
    memory!(Shared, calls: &[SequenceCall::Append, SequenceCall::AppendCounted], at: &[7],
        requests: APPENDED.requests + THREE.requests, bytes: APPENDED.bytes + THREE.bytes),
    memory!(
        Alike,
        calls: &[SequenceCall::Share, SequenceCall::ShareCounted, SequenceCall::Cloned],
        at: &[7], limit: NOTHING
    ),
    memory!(Alike, calls: &[SequenceCall::FromIter], at: &[7], limit: THREE),
    memory!(Alike, calls: &[SequenceCall::FromVec, SequenceCall::FromArray], at: &[7], limit: THREE),
    // A node for each, and a list of the items.
    memory!(Alike, calls: &[SequenceCall::Reverse], at: &[7],
        requests: 10_001, bytes: 10_000 * (16 + NODE)),
    // A sequence of five, which is put behind.
    memory!(Shared, calls: &[SequenceCall::Extend], at: &[7],
        requests: APPENDED.requests + 11, bytes: APPENDED.bytes + 8 * 16 + 5 * (NODE + ITEM)),
    // Two cuts, three new items, and two sequences put together twice.
    memory!(
        Shared,
        calls: &[SequenceCall::Splice],
        at: PLACES,
        requests: CUT_TWICE.requests + 2 * APPENDED.requests + THREE.requests,
        bytes: CUT_TWICE.bytes + 2 * APPENDED.bytes + THREE.bytes
    ),
    // Alone: the item, where one is put in, and its node, where it is new.
    memory!(
        Alone,
        calls: &[SequenceCall::SetMut, SequenceCall::SetMutCounted, SequenceCall::UpdateMut],
        at: PLACES, requests: 1, bytes: ITEM
    ),
    memory!(
        Alone,
        calls: &[SequenceCall::InsertMut, SequenceCall::InsertMutCounted],
        at: PLACES, requests: 2, bytes: NODE + ITEM
    ),
    memory!(
        Alone,
        calls: &[SequenceCall::PushBackMut, SequenceCall::PushBackMutCounted,
            SequenceCall::PushFrontMut, SequenceCall::PushFrontMutCounted],
        at: &[7], requests: 2, bytes: NODE + ITEM
    ),
    memory!(
        Alone,
        calls: &[SequenceCall::GetMut, SequenceCall::ItemMut, SequenceCall::ItemMutCounted],
        at: PLACES, limit: NOTHING
    ),
    memory!(
        Alone,
        calls: &[SequenceCall::RemoveMut, SequenceCall::RemoveMutCounted],
        at: &[0, 1, 4_999, 9_990], limit: NOTHING
    ),
];

// Looks at one of the numbers 1, 2 and 3 beside a greater and an empty one, with the next request and the next clone refused.
fn looks<'t>(
    some: &FailingSequence<'t>,
    greater: &FailingSequence<'t>,
    empty: &FailingSequence<'t>,
    looks: &mut Looks<'_, 't>,
) {
    looks.see("len", some.len() == 3 && empty.len() == 0);
    looks.see("is_empty", !some.is_empty() && empty.is_empty());
    looks.see(
        "first",
        has_number(some.first(), 1) && empty.first().is_none(),
    );
    looks.see("last", has_number(some.last(), 3) && empty.last().is_none());
    looks.see("get", has_number(some.get(2), 3) && some.get(3).is_none());
    looks.see(
        "get_counted",
        has_number(some.get_counted(2, &mut Steps::new()), 3),
    );
    looks.see("index", some.len() == 3 && some[2].number == 3);
    looks.see("compared", is_below(some, greater));
    looks.see(
        "iter",
        has_number(some.iter().next(), 1) && some.iter().count() == 3,
    );
    looks.see("rev", has_number(some.iter().next_back(), 3));
    looks.see("iter_from", has_number(some.iter_from(1).next(), 2));
    looks.see("is_sorted", some.is_sorted() && empty.is_sorted());
    looks.see(
        "binary_search_by",
        some.binary_search_by(|item| item.number.cmp(&2)) == Ok(1),
    );
    looks.see(
        "partition_point",
        some.partition_point(|item| item.number < 3) == 2,
    );
}

// Makes the calls with each request and each clone refused in turn.
fn assert_refused(rt: &impl Abort, alloc: Global, calls: &'static [SequenceCall]) {
    let faults = Faults::new(alloc);
    check_some_refused::<Tests, SequenceCall, FailingSequence>(&faults, &PLAN, calls).expect(
        rt,
        "each call",
    );
}

#[test]
fn calls(rt: HostRuntime) {
    assert_refused(&rt, rt.alloc(), CALLS);
}

// What asks for no memory, and what is asked for among 10,000 items.
#[test]
fn asked(rt: HostRuntime) {
    let faults = Faults::new(rt.alloc());
    check_calls::<Tests, _, FailingSequence>(&faults, &PLAN).expect(&rt, "each check");
}

#[test]
fn looked_at(rt: HostRuntime) {
    let faults = Faults::new(rt.alloc());
    let some = three_of(&faults).expect(&rt, "ample memory");
    let greater = some.skip(1).expect(&rt, "ample memory");
    let empty = Sequence::new(&faults.alloc);
    let mut seen = Looks::new(&faults);
    looks(&some, &greater, &empty, &mut seen);
    assert!(rt; seen.wrong().is_none());
}
