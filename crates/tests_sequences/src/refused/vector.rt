use crate::Tests;
use crate::refused::list::{COUNTS, ITEM};
use crate::refused::vector::VectorChanged::{
    Clear, DropLastMut, Extend, GetMut, ItemMut, PushBackMut, SetMut, Truncate,
};
use crate::refused::vector::VectorMade::{
    Append, Cloned, DropLast, DropLastCounted, FromArray, FromIter, Insert, PushBack,
    PushBackCounted, Remove, Set, SetCounted, Share, ShareCounted, Skip, Take,
};
use rpds_core::steps::Steps;
use rpds_faults::{FailingAllocator, FailingItem, Faults};
use rpds_refusals::answer::{
    always_some, always_true, has_number, is_below, put_if_some, write_number, write_number_if_lent,
};
use rpds_refusals::call::Call;
use rpds_refusals::call::Call::{Changed, Made};
use rpds_refusals::check::check_container;
use rpds_refusals::container::Container;
use rpds_refusals::item::{five, three};
use rpds_refusals::looks::Looks;
use rpds_refusals::plan::Sharing::{Alike, Alone, Shared};
use rpds_refusals::plan::{LargeContainer, Limit, MemoryRow, NOTHING, NoMemoryRow, Plan};
use rpds_refusals::refused::check_some_refused;
use rpds_refusals::subject::Subject;
use rpds_refusals::{memory, no_memory, receiver};
use rpds_vector::vector::Vector;
use std::alloc::{AllocError, Global};
use std::process::Abort;

type FailingVector<'t> = Vector<FailingItem<'t>, &'t FailingAllocator>;

type VectorCall = Call<VectorMade, VectorChanged>;

// A call that hands out a vector.
#[derive(Clone, Copy, Debug)]
enum VectorMade {
    PushBack,
    PushBackCounted,
    DropLast,
    DropLastCounted,
    Set,
    SetCounted,
    Insert,
    Remove,
    Take,
    Skip,
    Append,
    FromIter,
    FromArray,
    Share,
    ShareCounted,
    // By the trait `Clone`.
    Cloned,
}

// A call that changes the vector.
#[derive(Clone, Copy, Debug)]
enum VectorChanged {
    PushBackMut,
    DropLastMut,
    SetMut,
    // A write through what the call lends.
    GetMut,
    ItemMut,
    Extend,
    Truncate,
    Clear,
}

// Three items behind those of the vector.
fn appended<'t>(
    vector: &FailingVector<'t>,
    faults: &'t Faults,
) -> Result<FailingVector<'t>, AllocError> {
    let other = Vector::from_iter(&faults.alloc, three(&faults.counts))?;
    vector.append(&other)
}

fn made<'t>(
    vector: &FailingVector<'t>,
    call: VectorMade,
    number: u64,
    faults: &'t Faults,
) -> Result<Option<FailingVector<'t>>, AllocError> {
    let counts = &faults.counts;
    let steps = &mut Steps::new();
    let place = number as usize;
    match call {
        PushBack => always_some(vector.push_back(FailingItem::new(number, counts))),
        PushBackCounted => {
            always_some(vector.push_back_counted(FailingItem::new(number, counts), steps))
        }
        DropLast => vector.drop_last(),
        DropLastCounted => vector.drop_last_counted(steps),
        Set => vector.set(place, FailingItem::new(9, counts)),
        SetCounted => vector.set_counted(place, FailingItem::new(number, counts), steps),
        Insert => vector.insert(place, FailingItem::new(9, counts)),
        Remove => vector.remove(place),
        Take => always_some(vector.take(place)),
        Skip => always_some(vector.skip(place)),
        Append => always_some(appended(vector, faults)),
        FromIter => always_some(Vector::from_iter(&faults.alloc, three(counts))),
        FromArray => always_some(Vector::from_array(&faults.alloc, three(counts))),
        Share => always_some(vector.clone()),
        ShareCounted => always_some(vector.clone_counted(steps)),
        Cloned => always_some(Clone::clone(vector)),
    }
}

fn changed<'t>(
    vector: &mut FailingVector<'t>,
    call: VectorChanged,
    number: u64,
    faults: &'t Faults,
) -> Result<bool, AllocError> {
    let place = number as usize;
    match call {
        PushBackMut => always_true(vector.push_back_mut(FailingItem::new(number, &faults.counts))),
        DropLastMut => vector.drop_last_mut(),
        SetMut => vector.set_mut(place, FailingItem::new(9, &faults.counts)),
        GetMut => Ok(write_number(vector.get_mut(place)?, 99)),
        ItemMut => write_number_if_lent(vector.item_mut(place), 99),
        Extend => always_true(vector.extend(five(&faults.counts))),
        Truncate => always_true(vector.truncate(place)),
        Clear => {
            vector.clear();
            Ok(vector.is_empty())
        }
    }
}

fn gets<'t>(vector: &FailingVector<'t>, empty: &FailingVector<'t>, looks: &mut Looks<'_, 't>) {
    let steps = &mut Steps::new();
    looks.see("len", vector.len() == 3 && empty.len() == 0);
    looks.see("is_empty", !vector.is_empty() && empty.is_empty());
    looks.see(
        "first",
        has_number(vector.first(), 1) && empty.first().is_none(),
    );
    looks.see(
        "last",
        has_number(vector.last(), 3) && empty.last().is_none(),
    );
    looks.see(
        "get",
        has_number(vector.get(2), 3) && vector.get(3).is_none(),
    );
    looks.see("get_counted", has_number(vector.get_counted(2, steps), 3));
    looks.see("index", vector.len() == 3 && vector[2].number == 3);
}

// Each iterator is dropped after a step, and can be had again.
fn walks<'t>(vector: &FailingVector<'t>, looks: &mut Looks<'_, 't>) {
    looks.see(
        "iter",
        has_number(vector.iter().next(), 1) && vector.iter().count() == 3,
    );
    looks.see(
        "rev",
        has_number(vector.iter().next_back(), 3) && vector.iter().rev().count() == 3,
    );
    looks.see(
        "into_iter",
        has_number(vector.into_iter().next(), 1) && vector.into_iter().count() == 3,
    );
    looks.see("size_hint", vector.iter().size_hint() == (3, Some(3)));
}

impl<'t> Subject<'t, Tests, VectorCall> for FailingVector<'t> {
    // The bits. At 0 they are those of `new`.
    fn start(variant: u8, faults: &'t Faults) -> Result<Self, AllocError> {
        if (1..=63).contains(&variant) {
            Ok(Vector::new_with_bits(&faults.alloc, variant))
        } else {
            Ok(Vector::new(&faults.alloc))
        }
    }

    fn share(&mut self, _faults: &'t Faults) -> Result<Option<Self>, AllocError> {
        always_some(self.clone())
    }

    fn is_as(&self, twin: &Self, _faults: &'t Faults) -> bool {
        *self == *twin
    }

    fn held(&self) -> Option<u64> {
        Some(self.len() as u64)
    }

    fn perform(
        &mut self,
        call: VectorCall,
        number: u64,
        faults: &'t Faults,
    ) -> Result<bool, AllocError> {
        match call {
            Made(call) => {
                let made = made(self, call, number, faults);
                put_if_some(self, made)
            }
            Changed(call) => changed(self, call, number, faults),
        }
    }
}

impl<'t> Container<'t, Tests, VectorCall> for FailingVector<'t> {
    fn looks(&self, other: &Self, empty: &Self, looks: &mut Looks<'_, 't>) {
        gets(self, empty, looks);
        looks.see("compared", is_below(self, other));
        walks(self, looks);
    }
}

// Of no items, and of five at several bits. The first item, the last, and none.
const PLAN: Plan<'static, VectorCall> = Plan {
    put: Changed(PushBackMut),
    receivers: &[
        receiver!(&[]),
        receiver!(variant: 1, &[0, 1, 2, 3, 4]),
        receiver!(variant: 2, &[0, 1, 2, 3, 4]),
        receiver!(variant: 5, &[0, 1, 2, 3, 4]),
        receiver!(variant: 63, &[0, 1, 2, 3, 4]),
    ],
    numbers: &[0, 4, 5],
    calls: &[],
    never_refused: NEVER_REFUSED,
    empty_without_memory: &[0, 1, 5, 63],
    without_memory: WITHOUT_MEMORY,
    limits: &[(LARGE, ROWS)],
};

// The calls that ask for memory or for a clone, which have a test of their own.
const CALLS: &[VectorCall] = &[
    Made(PushBack),
    Made(DropLast),
    Made(Set),
    Made(Insert),
    Made(Remove),
    Made(Take),
    Made(Skip),
    Made(Append),
    Made(FromIter),
    Made(FromArray),
    Made(PushBackCounted),
    Made(DropLastCounted),
    Made(SetCounted),
    Changed(PushBackMut),
    Changed(DropLastMut),
    Changed(SetMut),
    Changed(GetMut),
    Changed(ItemMut),
    Changed(Extend),
    Changed(Truncate),
];

const NEVER_REFUSED: &[VectorCall] = &[
    Made(Share),
    Made(Cloned),
    Made(ShareCounted),
    Changed(Clear),
];

// There is no such item, and no memory is needed.
const WITHOUT_MEMORY: &[NoMemoryRow<'static, VectorCall>] = &[
    no_memory!(receiver!(&[]), calls: TAKES, at: 3, answer: false),
    no_memory!(receiver!(&[]), calls: AT_A_PLACE, at: 3, answer: false),
    no_memory!(receiver!(variant: 5, &[1, 2, 3]), calls: AT_A_PLACE, at: 3, answer: false),
];

const TAKES: &[VectorCall] = &[Made(DropLast), Made(DropLastCounted), Changed(DropLastMut)];

const AT_A_PLACE: &[VectorCall] = &[
    Made(Set),
    Made(Remove),
    Made(SetCounted),
    Changed(SetMut),
    Changed(GetMut),
    Changed(ItemMut),
];

const LARGE: LargeContainer = LargeContainer {
    variant: 1,
    count: 10_000,
    step: 1,
    limit: 10_000,
};

const PLACES: &[u64] = &[0, 1, 4095, 4096, 8191, 8192, 9998, 9999];

// Behind these, 1,809 items at most are put together again.
const LATE: &[u64] = &[8191, 8192, 9999];

// The bytes of a node: its kind, the pointer, room, length and allocator of its row, and its bits.
const NODE: u64 = COUNTS + 48;

// The bytes of a pointer in a row.
const PLACE: u64 = 8;

// The bytes of a path: at one bit 10,000 items take 14 levels, and a node has two children at most.
const PATH: u64 = 14 * (NODE + 2 * PLACE);

// 1,809 items that are put together have 905 leaves at one bit, and 910 branches above them. A leaf's row has room for four,
// and that of a branch grows from one child to room for four.
const MADE: Limit = Limit {
    requests: 905 * 2 + 910 * 3,
    bytes: 905 * (NODE + 4 * PLACE) + 910 * (NODE + 5 * PLACE),
};

// The same behind a path, and an item.
const CHANGED: Limit = Limit {
    requests: MADE.requests + 30,
    bytes: MADE.bytes + PATH + ITEM,
};

// Three items that are put together, in a row and a leaf, which are two leaves at one bit, each of a row and a node. Above the
// first, ten nodes of the path to the end are copied, and three new ones made, two requests for each; and two rows grow.
const APPENDED: Limit = Limit {
    requests: 5 + 2 * 2 + 2 * 13 + 2,
    bytes: PATH + 3 * ITEM + 3 * NODE + 40 * PLACE,
};

// A node and its row of children are two requests, and the leaf's row one more where it grows. Three items that are put
// together are one leaf, with room for 32.
const ROWS: &[MemoryRow<'static, VectorCall>] = &[
    memory!(Alike, calls: &[Made(PushBack), Made(PushBackCounted)], at: &[7],
        requests: 29, bytes: PATH + ITEM),
    memory!(Shared, calls: &[Changed(PushBackMut)], at: &[7], requests: 30, bytes: PATH + ITEM),
    // No more than five pushes.
    memory!(Shared, calls: &[Changed(Extend)], at: &[7],
        requests: 5 * 30, bytes: 5 * (PATH + ITEM)),
    memory!(Alike, calls: &[Made(DropLast), Made(DropLastCounted)], at: &[7],
        requests: 28, bytes: PATH),
    memory!(Shared, calls: &[Changed(DropLastMut)], at: &[7], requests: 28, bytes: PATH),
    memory!(Alike, calls: &[Made(Set), Made(SetCounted)], at: PLACES,
        requests: 29, bytes: PATH + ITEM),
    memory!(Shared, calls: &[Changed(SetMut)], at: PLACES, requests: 29, bytes: PATH + ITEM),
    memory!(Shared, calls: &[Changed(GetMut), Changed(ItemMut)], at: PLACES,
        requests: 29, bytes: PATH + ITEM),
    memory!(Alike, calls: &[Made(Take), Changed(Truncate)], at: PLACES, requests: 28, bytes: PATH),
    // Of all items another handle.
    memory!(Alike, calls: &[Made(Take), Changed(Truncate)], at: &[10_000], limit: NOTHING),
    memory!(Alike, calls: &[Made(Skip)], at: LATE, limit: MADE),
    memory!(Alike, calls: &[Made(Insert)], at: LATE, limit: CHANGED),
    memory!(Alike, calls: &[Made(Remove)], at: LATE, limit: CHANGED),
    memory!(Alike, calls: &[Made(Append)], at: &[7], limit: APPENDED),
    memory!(Alike, calls: &[Made(Share), Made(ShareCounted), Made(Cloned)], at: &[7],
        limit: NOTHING),
    memory!(Alike, calls: &[Made(FromIter)], at: &[7],
        requests: 5, bytes: 3 * ITEM + NODE + 32 * PLACE),
    // The same, and a buffer of the array's items.
    memory!(Alike, calls: &[Made(FromArray)], at: &[7],
        requests: 6, bytes: 3 * 16 + 3 * ITEM + NODE + 32 * PLACE),
    // Alone: the item, where one is put in.
    memory!(Alone, calls: &[Changed(SetMut)], at: PLACES, requests: 1, bytes: ITEM),
    memory!(Alone, calls: &[Changed(GetMut)], at: PLACES, limit: NOTHING),
    memory!(Alone, calls: &[Changed(ItemMut)], at: PLACES, limit: NOTHING),
    memory!(Alone, calls: &[Changed(DropLastMut)], at: &[0, 0, 0], limit: NOTHING),
];

// Makes the calls with each request and each clone refused in turn.
fn assert_refused(rt: &impl Abort, alloc: Global, calls: &'static [VectorCall]) {
    let faults = Faults::new(alloc);
    check_some_refused::<Tests, VectorCall, FailingVector>(&faults, &PLAN, calls).expect(
        rt,
        "each call",
    );
}

#[test]
fn calls(rt: HostRuntime) {
    assert_refused(&rt, rt.alloc(), CALLS);
}

// What asks for no memory, and what is asked for among 10,000 items.
#[test]
fn asked(rt: HostRuntime) {
    let faults = Faults::new(rt.alloc());
    check_container::<Tests, VectorCall, FailingVector>(
        &faults,
        &PLAN,
        Changed(Clear),
        &receiver!(variant: 1, &[1, 2, 3]),
        &receiver!(&[1, 5]),
    )
    .expect(&rt, "each check");
}
