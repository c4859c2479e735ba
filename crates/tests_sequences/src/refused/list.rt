use crate::Tests;
use crate::refused::list::ListChanged::{
    AppendMut, Clear, DropFirstMut, Extend, PushFrontMut, ReverseMut,
};
use crate::refused::list::ListMade::{
    Append, Cloned, DropFirst, DropFirstCounted, FromArray, FromIter, PushFront, PushFrontCounted,
    Reverse, ReverseCounted, Share, ShareCounted, Skip, SplitFirst,
};
use rpds_core::steps::Steps;
use rpds_faults::{FailingAllocator, FailingItem, Faults};
use rpds_list::list::List;
use rpds_refusals::answer::{always_some, always_true, has_number, is_below, put_if_some};
use rpds_refusals::call::Call;
use rpds_refusals::call::Call::{Changed, Made};
use rpds_refusals::check::check_container;
use rpds_refusals::container::Container;
use rpds_refusals::item::three;
use rpds_refusals::looks::Looks;
use rpds_refusals::plan::Sharing::{Alike, Alone, Shared};
use rpds_refusals::plan::{LargeContainer, Limit, MemoryRow, NOTHING, NoMemoryRow, Plan};
use rpds_refusals::subject::Subject;
use rpds_refusals::{memory, no_memory, receiver, receivers};
use std::alloc::AllocError;

type FailingList<'t> = List<FailingItem<'t>, &'t FailingAllocator>;

type ListCall = Call<ListMade, ListChanged>;

// A call that hands out a list.
#[derive(Clone, Copy, Debug)]
enum ListMade {
    PushFront,
    PushFrontCounted,
    DropFirst,
    DropFirstCounted,
    SplitFirst,
    Skip,
    Append,
    Reverse,
    ReverseCounted,
    FromIter,
    FromArray,
    Share,
    ShareCounted,
    // By the trait `Clone`.
    Cloned,
}

// A call that changes the list.
#[derive(Clone, Copy, Debug)]
enum ListChanged {
    PushFrontMut,
    DropFirstMut,
    Extend,
    AppendMut,
    ReverseMut,
    Clear,
}

// Three items behind those of the list.
fn appended<'t>(list: &FailingList<'t>, faults: &'t Faults) -> Result<FailingList<'t>, AllocError> {
    let other = List::from_iter(&faults.alloc, three(&faults.counts))?;
    list.append(&other)
}

fn append_three<'t>(list: &mut FailingList<'t>, faults: &'t Faults) -> Result<(), AllocError> {
    let other = List::from_iter(&faults.alloc, three(&faults.counts))?;
    list.append_mut(&other)
}

// The first item goes, by a call that hands it out too.
fn rest<'t>(list: &FailingList<'t>) -> Result<Option<FailingList<'t>>, AllocError> {
    match list.split_first() {
        Ok(Some((_, rest))) => Ok(Some(rest)),
        Ok(None) => Ok(None),
        Err(error) => Err(error),
    }
}

fn of_array<'t>(faults: &'t Faults) -> Result<FailingList<'t>, AllocError> {
    let counts = &faults.counts;
    let items = [
        FailingItem::new(0, counts),
        FailingItem::new(1, counts),
        FailingItem::new(2, counts),
    ];
    List::from_array(&faults.alloc, items)
}

fn made<'t>(
    list: &FailingList<'t>,
    call: ListMade,
    number: u64,
    faults: &'t Faults,
) -> Result<Option<FailingList<'t>>, AllocError> {
    let counts = &faults.counts;
    let steps = &mut Steps::new();
    match call {
        PushFront => always_some(list.push_front(FailingItem::new(number, counts))),
        PushFrontCounted => {
            always_some(list.push_front_counted(FailingItem::new(number, counts), steps))
        }
        DropFirst => list.drop_first(),
        DropFirstCounted => list.drop_first_counted(steps),
        SplitFirst => rest(list),
        Skip => always_some(list.skip(list.len() / 2)),
        Append => always_some(appended(list, faults)),
        Reverse => always_some(list.reverse()),
        ReverseCounted => always_some(list.reverse_counted(steps)),
        FromIter => always_some(List::from_iter(&faults.alloc, three(counts))),
        FromArray => always_some(of_array(faults)),
        Share => always_some(list.clone()),
        ShareCounted => always_some(list.clone_counted(steps)),
        Cloned => always_some(Clone::clone(list)),
    }
}

fn changed<'t>(
    list: &mut FailingList<'t>,
    call: ListChanged,
    number: u64,
    faults: &'t Faults,
) -> Result<bool, AllocError> {
    match call {
        PushFrontMut => always_true(list.push_front_mut(FailingItem::new(number, &faults.counts))),
        DropFirstMut => list.drop_first_mut(),
        Extend => always_true(list.extend(three(&faults.counts))),
        AppendMut => always_true(append_three(list, faults)),
        ReverseMut => always_true(list.reverse_mut()),
        Clear => {
            list.clear();
            Ok(list.is_empty())
        }
    }
}

// The first item, by a call that hands out the rest too.
fn first<'l, 't>(list: &'l FailingList<'t>) -> Option<&'l FailingItem<'t>> {
    match list.split_first() {
        Ok(Some((first, _))) => Some(first),
        Ok(None) | Err(_) => None,
    }
}

// Each iterator is dropped after a step, and can be had again.
fn walks<'t>(list: &FailingList<'t>, looks: &mut Looks<'_, 't>) {
    looks.see(
        "iter",
        has_number(list.iter().next(), 3) && list.iter().count() == 3,
    );
    looks.see(
        "into_iter",
        has_number(list.into_iter().next(), 3) && list.into_iter().count() == 3,
    );
    looks.see("size_hint", list.iter().size_hint() == (3, Some(3)));
}

impl<'t> Subject<'t, Tests, ListCall> for FailingList<'t> {
    fn start(_variant: u8, faults: &'t Faults) -> Result<Self, AllocError> {
        Ok(List::new(&faults.alloc))
    }

    fn share(&mut self, _faults: &'t Faults) -> Result<Option<Self>, AllocError> {
        always_some(self.clone())
    }

    fn is_as(&self, twin: &Self, _faults: &'t Faults) -> bool {
        *self == *twin
    }

    fn held(&self) -> Option<u64> {
        Some(self.len() as u64)
    }

    fn perform(
        &mut self,
        call: ListCall,
        number: u64,
        faults: &'t Faults,
    ) -> Result<bool, AllocError> {
        match call {
            Made(call) => {
                let made = made(self, call, number, faults);
                put_if_some(self, made)
            }
            Changed(call) => changed(self, call, number, faults),
        }
    }
}

impl<'t> Container<'t, Tests, ListCall> for FailingList<'t> {
    fn looks(&self, other: &Self, empty: &Self, looks: &mut Looks<'_, 't>) {
        looks.see("len", self.len() == 3);
        looks.see("is_empty", !self.is_empty() && empty.is_empty());
        looks.see(
            "first",
            has_number(self.first(), 3) && empty.first().is_none(),
        );
        looks.see("last", has_number(self.last(), 1) && empty.last().is_none());
        looks.see(
            "split_first",
            has_number(first(self), 3) && first(empty).is_none(),
        );
        looks.see("compared", is_below(self, other));
        walks(self, looks);
    }
}

// Of no items, one and four.
const PLAN: Plan<'static, ListCall> = Plan {
    put: Changed(PushFrontMut),
    receivers: receivers![&[], &[0], &[0, 1, 2, 3]],
    numbers: &[9],
    calls: CALLS,
    never_refused: NEVER_REFUSED,
    empty_without_memory: &[0],
    without_memory: WITHOUT_MEMORY,
    limits: &[(LARGE, ROWS)],
};

const CALLS: &[ListCall] = &[
    Made(PushFront),
    Made(Append),
    Made(Reverse),
    Made(FromIter),
    Made(FromArray),
    Made(PushFrontCounted),
    Made(ReverseCounted),
    Changed(PushFrontMut),
    Changed(Extend),
    Changed(AppendMut),
    Changed(ReverseMut),
];

const NEVER_REFUSED: &[ListCall] = &[
    Made(DropFirst),
    Made(SplitFirst),
    Made(Skip),
    Made(Share),
    Made(Cloned),
    Made(DropFirstCounted),
    Made(ShareCounted),
    Changed(DropFirstMut),
    Changed(Clear),
];

// There is nothing to do, and no memory is needed.
const WITHOUT_MEMORY: &[NoMemoryRow<'static, ListCall>] = &[
    no_memory!(receiver!(&[]), calls: TAKES, at: 7, answer: false),
];

const TAKES: &[ListCall] = &[
    Made(DropFirst),
    Made(SplitFirst),
    Made(DropFirstCounted),
    Changed(DropFirstMut),
];

const LARGE: LargeContainer = LargeContainer {
    variant: 0,
    count: 10_000,
    step: 1,
    limit: 10_000,
};

// The bytes that come before what is shared: two counts of owners and the allocator.
pub(crate) const COUNTS: u64 = 24;

// The bytes of an item, a number and a pointer to its counts.
pub(crate) const ITEM: u64 = COUNTS + 16;

// The bytes of a cell: a pointer to its item, and whether and where another cell follows.
pub(crate) const CELL: u64 = COUNTS + 24;

// What three items ask for that are put together: they lie in a buffer first, with room for four.
pub(crate) const COLLECTED: Limit = Limit {
    requests: 7,
    bytes: 4 * 16 + 3 * (CELL + ITEM),
};

// What an array of three items asks for: a buffer that has room for those.
pub(crate) const OF_ARRAY: Limit = Limit {
    requests: 7,
    bytes: 3 * 16 + 3 * (CELL + ITEM),
};

// A cell and its item for a push, none for a drop or a clone, a cell for each that is turned round or put before another list.
const ROWS: &[MemoryRow<'static, ListCall>] = &[
    memory!(Alike, calls: &[Made(PushFront), Made(PushFrontCounted)], at: &[7], limit: PUT),
    memory!(Shared, calls: &[Changed(PushFrontMut)], at: &[7], limit: PUT),
    memory!(Alike, calls: &[Made(DropFirst), Made(SplitFirst), Made(DropFirstCounted)], at: &[7],
        limit: NOTHING),
    memory!(Shared, calls: &[Changed(DropFirstMut)], at: &[7], limit: NOTHING),
    memory!(Shared, calls: &[Changed(Extend)], at: &[7], limit: EXTENDED),
    memory!(Alike, calls: &[Made(Skip)], at: &[7], limit: NOTHING),
    memory!(Alike, calls: &[Made(Append), Changed(AppendMut)], at: &[7], limit: APPENDED),
    memory!(Alike, calls: &[Made(Share), Made(ShareCounted), Made(Cloned)], at: &[7],
        limit: NOTHING),
    memory!(Alike, calls: &[Made(Reverse), Made(ReverseCounted)], at: &[7],
        requests: 10_000, bytes: 10_000 * CELL),
    memory!(Shared, calls: &[Changed(ReverseMut)], at: &[7],
        requests: 10_000, bytes: 10_000 * CELL),
    memory!(Alike, calls: &[Made(FromIter)], at: &[7], limit: COLLECTED),
    memory!(Alike, calls: &[Made(FromArray)], at: &[7], limit: OF_ARRAY),
    // In its own cells: pointers to half of the items.
    memory!(Alone, calls: &[Changed(ReverseMut)], at: &[7], requests: 1, bytes: 5_000 * 8),
];

const PUT: Limit = Limit {
    requests: 2,
    bytes: CELL + ITEM,
};

// What three items ask for that are put in one after another.
pub(crate) const EXTENDED: Limit = Limit {
    requests: 6,
    bytes: 3 * (CELL + ITEM),
};

// What 10,000 items ask for that are put before three others: a cell each, and a buffer of pointers.
const APPENDED: Limit = Limit {
    requests: COLLECTED.requests + 10_001,
    bytes: COLLECTED.bytes + 10_000 * (CELL + 8),
};

#[test]
fn calls(rt: HostRuntime) {
    let faults = Faults::new(rt.alloc());
    check_container::<Tests, ListCall, FailingList>(
        &faults,
        &PLAN,
        Changed(Clear),
        &receiver!(&[1, 2, 3]),
        &receiver!(&[1, 5]),
    )
    .expect(&rt, "each call");
}
