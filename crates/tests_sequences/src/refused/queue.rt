use crate::Tests;
use crate::refused::list::{CELL, COLLECTED, EXTENDED, ITEM, OF_ARRAY};
use crate::refused::queue::QueueChanged::{
    Clear, DequeueMut, DequeueMutCounted, EnqueueMut, Extend,
};
use crate::refused::queue::QueueMade::{
    Cloned, Dequeue, DequeueCounted, Enqueue, FromArray, FromIter, Iter, IterClone, Replay, Share,
    SplitFirst,
};
use rpds_core::steps::Steps;
use rpds_faults::{FailingAllocator, FailingItem, Faults};
use rpds_list::queue::{Queue, QueueOp};
use rpds_refusals::answer::{always_some, always_true, has_number, is_below, put_if_some};
use rpds_refusals::call::Call;
use rpds_refusals::call::Call::{Changed, Made};
use rpds_refusals::check::check_container;
use rpds_refusals::container::Container;
use rpds_refusals::item::three;
use rpds_refusals::looks::Looks;
use rpds_refusals::plan::Sharing::{Alike, Alone, Shared};
use rpds_refusals::plan::{LargeContainer, MemoryRow, NOTHING, NoMemoryRow, Plan};
use rpds_refusals::subject::Subject;
use rpds_refusals::{memory, no_memory, receiver};
use std::alloc::AllocError;

type FailingQueue<'t> = Queue<FailingItem<'t>, &'t FailingAllocator>;

type QueueCall = Call<QueueMade, QueueChanged>;

// A call that hands out a queue, or a walk over this one, which is dropped.
#[derive(Clone, Copy, Debug)]
enum QueueMade {
    Enqueue,
    Dequeue,
    DequeueCounted,
    SplitFirst,
    FromIter,
    FromArray,
    Replay,
    Iter,
    // A copy of a walk.
    IterClone,
    Share,
    // By the trait `Clone`.
    Cloned,
}

// A call that changes the queue.
#[derive(Clone, Copy, Debug)]
enum QueueChanged {
    EnqueueMut,
    DequeueMut,
    DequeueMutCounted,
    Extend,
    Clear,
}

// Two of the four items are dequeued, the second by a turn, and a dequeue finds none.
fn replayed<'t>(faults: &'t Faults) -> Result<FailingQueue<'t>, AllocError> {
    let counts = &faults.counts;
    let ops = vec![in &faults.alloc;
        QueueOp::Dequeue,
        QueueOp::Enqueue(FailingItem::new(0, counts)),
        QueueOp::Enqueue(FailingItem::new(1, counts)),
        QueueOp::Dequeue,
        QueueOp::Enqueue(FailingItem::new(2, counts)),
        QueueOp::Dequeue,
        QueueOp::Enqueue(FailingItem::new(3, counts)),
    ]?;
    Queue::replay(&faults.alloc, ops, &mut Steps::new())
}

// The first item goes, by a call that hands it out too.
fn rest<'t>(queue: &FailingQueue<'t>) -> Result<Option<FailingQueue<'t>>, AllocError> {
    match queue.split_first() {
        Ok(Some((_, rest))) => Ok(Some(rest)),
        Ok(None) => Ok(None),
        Err(error) => Err(error),
    }
}

fn of_array<'t>(faults: &'t Faults) -> Result<FailingQueue<'t>, AllocError> {
    let counts = &faults.counts;
    let items = [
        FailingItem::new(0, counts),
        FailingItem::new(1, counts),
        FailingItem::new(2, counts),
    ];
    Queue::from_array(&faults.alloc, items)
}

fn made<'t>(
    queue: &FailingQueue<'t>,
    call: QueueMade,
    number: u64,
    faults: &'t Faults,
) -> Result<Option<FailingQueue<'t>>, AllocError> {
    match call {
        Enqueue => always_some(queue.enqueue(FailingItem::new(number, &faults.counts))),
        Dequeue => queue.dequeue(),
        DequeueCounted => queue.dequeue_counted(&mut Steps::new()),
        SplitFirst => rest(queue),
        FromIter => always_some(Queue::from_iter(&faults.alloc, three(&faults.counts))),
        FromArray => always_some(of_array(faults)),
        Replay => always_some(replayed(faults)),
        Iter => {
            let _walk = queue.iter()?;
            Ok(None)
        }
        IterClone => {
            let walk = queue.iter()?;
            let _copy = walk.clone()?;
            Ok(None)
        }
        Share => always_some(queue.clone()),
        Cloned => always_some(Clone::clone(queue)),
    }
}

fn changed<'t>(
    queue: &mut FailingQueue<'t>,
    call: QueueChanged,
    number: u64,
    faults: &'t Faults,
) -> Result<bool, AllocError> {
    match call {
        EnqueueMut => always_true(queue.enqueue_mut(FailingItem::new(number, &faults.counts))),
        DequeueMut => queue.dequeue_mut(),
        DequeueMutCounted => queue.dequeue_mut_counted(&mut Steps::new()),
        Extend => always_true(queue.extend(three(&faults.counts))),
        Clear => {
            queue.clear();
            Ok(queue.is_empty())
        }
    }
}

impl<'t> Subject<'t, Tests, QueueCall> for FailingQueue<'t> {
    // At 0 of no items, at 1 of three that don't wait.
    fn start(variant: u8, faults: &'t Faults) -> Result<Self, AllocError> {
        if variant == 0 {
            Ok(Queue::new(&faults.alloc))
        } else {
            Queue::from_iter(&faults.alloc, three(&faults.counts))
        }
    }

    fn share(&mut self, _faults: &'t Faults) -> Result<Option<Self>, AllocError> {
        always_some(self.clone())
    }

    fn is_as(&self, twin: &Self, _faults: &'t Faults) -> bool {
        *self == *twin
    }

    fn held(&self) -> Option<u64> {
        Some(self.len() as u64)
    }

    fn perform(
        &mut self,
        call: QueueCall,
        number: u64,
        faults: &'t Faults,
    ) -> Result<bool, AllocError> {
        match call {
            Made(call) => {
                let made = made(self, call, number, faults);
                put_if_some(self, made)
            }
            Changed(call) => changed(self, call, number, faults),
        }
    }
}

impl<'t> Container<'t, Tests, QueueCall> for FailingQueue<'t> {
    fn looks(&self, other: &Self, empty: &Self, looks: &mut Looks<'_, 't>) {
        looks.see("len", self.len() == 3);
        looks.see("is_empty", !self.is_empty() && empty.is_empty());
        looks.see(
            "peek",
            has_number(self.peek(), 1) && has_number(other.peek(), 1) && empty.peek().is_none(),
        );
        looks.see("compared", is_below(self, other));
    }
}

// With no items that wait, one and three, behind none; with none and two, behind three.
const PLAN: Plan<'static, QueueCall> = Plan {
    put: Changed(EnqueueMut),
    receivers: &[
        receiver!(&[]),
        receiver!(&[0]),
        receiver!(&[0, 1, 2]),
        receiver!(variant: 1, &[]),
        receiver!(variant: 1, &[0, 1]),
    ],
    numbers: &[9],
    calls: CALLS,
    never_refused: NEVER_REFUSED,
    empty_without_memory: &[0],
    without_memory: WITHOUT_MEMORY,
    limits: &[(TURNED, ROWS), (WAITING, TURN)],
};

const CALLS: &[QueueCall] = &[
    Made(Enqueue),
    Made(Dequeue),
    Made(SplitFirst),
    Made(FromIter),
    Made(Replay),
    Made(Iter),
    Made(IterClone),
    Made(FromArray),
    Made(DequeueCounted),
    Changed(EnqueueMut),
    Changed(DequeueMut),
    Changed(Extend),
    Changed(DequeueMutCounted),
];

const NEVER_REFUSED: &[QueueCall] = &[Made(Share), Made(Cloned), Changed(Clear)];

// There is nothing to do, and no memory is needed.
const WITHOUT_MEMORY: &[NoMemoryRow<'static, QueueCall>] = &[
    no_memory!(receiver!(variant: 1, &[]), calls: WALKS, at: 7, answer: false),
    no_memory!(receiver!(&[]), calls: WALKS, at: 7, answer: false),
    no_memory!(receiver!(&[]), calls: &[Made(Dequeue), Made(SplitFirst), Changed(DequeueMut)],
        at: 7, answer: false),
];

const WALKS: &[QueueCall] = &[Made(Iter), Made(IterClone)];

// They wait behind three.
const TURNED: LargeContainer = LargeContainer {
    variant: 1,
    count: 10_000,
    step: 1,
    limit: 10_000,
};

// As much as those of a list. A walk has a buffer of pointers to the items that wait.
const ROWS: &[MemoryRow<'static, QueueCall>] = &[
    memory!(Alike, calls: &[Made(Enqueue)], at: &[7], requests: 2, bytes: CELL + ITEM),
    memory!(Shared, calls: &[Changed(EnqueueMut)], at: &[7], requests: 2, bytes: CELL + ITEM),
    memory!(Alike, calls: &[Made(Dequeue), Made(SplitFirst), Made(DequeueCounted)], at: &[7],
        limit: NOTHING),
    memory!(Shared, calls: &[Changed(DequeueMut), Changed(DequeueMutCounted)], at: &[7],
        limit: NOTHING),
    memory!(Shared, calls: &[Changed(Extend)], at: &[7], limit: EXTENDED),
    memory!(Alike, calls: &[Made(Share), Made(Cloned)], at: &[7], limit: NOTHING),
    memory!(Alike, calls: &[Made(FromIter)], at: &[7], limit: COLLECTED),
    memory!(Alike, calls: &[Made(FromArray)], at: &[7], limit: OF_ARRAY),
    memory!(Alike, calls: &[Made(Iter)], at: &[7], answer: false, requests: 1, bytes: 10_000 * 8),
    memory!(Alike, calls: &[Made(IterClone)], at: &[7],
        answer: false, requests: 2, bytes: 2 * 10_000 * 8),
    // A list of seven changes, a cell and an item for each of four, and a cell for each of two that wait at a turn.
    memory!(Alike, calls: &[Made(Replay)], at: &[7],
        requests: 11, bytes: 7 * 24 + 6 * CELL + 4 * ITEM),
];

// All wait.
const WAITING: LargeContainer = LargeContainer {
    variant: 0,
    count: 10_000,
    step: 1,
    limit: 10_000,
};

// A cell for each item that waits.
const TURN: &[MemoryRow<'static, QueueCall>] = &[
    memory!(Alike, calls: &[Made(Dequeue), Made(SplitFirst), Made(DequeueCounted)], at: &[7],
        requests: 10_000, bytes: 10_000 * CELL),
    memory!(Shared, calls: &[Changed(DequeueMut)], at: &[7],
        requests: 10_000, bytes: 10_000 * CELL),
    // In their own cells: pointers to half of those that stay.
    memory!(Alone, calls: &[Changed(DequeueMut)], at: &[7], requests: 1, bytes: 5_000 * 8),
];

#[test]
fn calls(rt: HostRuntime) {
    let faults = Faults::new(rt.alloc());
    check_container::<Tests, QueueCall, FailingQueue>(
        &faults,
        &PLAN,
        Changed(Clear),
        &receiver!(variant: 1, &[]),
        &receiver!(&[1, 5]),
    )
    .expect(&rt, "each call");
}

// Dequeues that find nothing need no memory.
#[test]
fn replayed_in_vain(rt: HostRuntime) {
    let faults = Faults::new(rt.alloc());
    let ops: Vec<QueueOp<FailingItem>, &FailingAllocator> = Vec::from_array(
        &faults.alloc,
        [QueueOp::Dequeue, QueueOp::Dequeue],
    ).expect(&rt, "ample memory");
    faults.refuse_next();
    let queue = Queue::replay(&faults.alloc, ops, &mut Steps::new()).expect(&rt, "no memory asked");
    assert!(rt; queue.is_empty() && faults.none_came());
}
