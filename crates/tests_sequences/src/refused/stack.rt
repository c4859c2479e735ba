use crate::Tests;
use crate::refused::list::{CELL, COLLECTED, EXTENDED, ITEM, OF_ARRAY};
use crate::refused::stack::StackChanged::{Clear, Extend, PopMut, PushMut};
use crate::refused::stack::StackMade::{Cloned, FromArray, FromIter, Pop, Push, Share, SplitFirst};
use rpds_faults::{FailingAllocator, FailingItem, Faults};
use rpds_list::stack::Stack;
use rpds_refusals::answer::{always_some, always_true, has_number, is_below, put_if_some};
use rpds_refusals::call::Call;
use rpds_refusals::call::Call::{Changed, Made};
use rpds_refusals::check::check_container;
use rpds_refusals::container::Container;
use rpds_refusals::item::three;
use rpds_refusals::looks::Looks;
use rpds_refusals::plan::Sharing::{Alike, Shared};
use rpds_refusals::plan::{LargeContainer, MemoryRow, NOTHING, NoMemoryRow, Plan};
use rpds_refusals::subject::Subject;
use rpds_refusals::{memory, no_memory, receiver, receivers};
use std::alloc::AllocError;

type FailingStack<'t> = Stack<FailingItem<'t>, &'t FailingAllocator>;

type StackCall = Call<StackMade, StackChanged>;

// A call that hands out a stack.
#[derive(Clone, Copy, Debug)]
enum StackMade {
    Push,
    Pop,
    SplitFirst,
    FromIter,
    FromArray,
    Share,
    // By the trait `Clone`.
    Cloned,
}

// A call that changes the stack.
#[derive(Clone, Copy, Debug)]
enum StackChanged {
    PushMut,
    PopMut,
    Extend,
    Clear,
}

// The item on top goes, by a call that hands it out too.
fn rest<'t>(stack: &FailingStack<'t>) -> Result<Option<FailingStack<'t>>, AllocError> {
    match stack.split_first() {
        Ok(Some((_, rest))) => Ok(Some(rest)),
        Ok(None) => Ok(None),
        Err(error) => Err(error),
    }
}

fn of_array<'t>(faults: &'t Faults) -> Result<FailingStack<'t>, AllocError> {
    let counts = &faults.counts;
    let items = [
        FailingItem::new(0, counts),
        FailingItem::new(1, counts),
        FailingItem::new(2, counts),
    ];
    Stack::from_array(&faults.alloc, items)
}

fn made<'t>(
    stack: &FailingStack<'t>,
    call: StackMade,
    number: u64,
    faults: &'t Faults,
) -> Result<Option<FailingStack<'t>>, AllocError> {
    match call {
        Push => always_some(stack.push(FailingItem::new(number, &faults.counts))),
        Pop => stack.pop(),
        SplitFirst => rest(stack),
        FromIter => always_some(Stack::from_iter(&faults.alloc, three(&faults.counts))),
        FromArray => always_some(of_array(faults)),
        Share => always_some(stack.clone()),
        Cloned => always_some(Clone::clone(stack)),
    }
}

fn changed<'t>(
    stack: &mut FailingStack<'t>,
    call: StackChanged,
    number: u64,
    faults: &'t Faults,
) -> Result<bool, AllocError> {
    match call {
        PushMut => always_true(stack.push_mut(FailingItem::new(number, &faults.counts))),
        PopMut => stack.pop_mut(),
        Extend => always_true(stack.extend(three(&faults.counts))),
        Clear => {
            stack.clear();
            Ok(stack.is_empty())
        }
    }
}

// The item on top, by a call that hands out the rest too.
fn top<'s, 't>(stack: &'s FailingStack<'t>) -> Option<&'s FailingItem<'t>> {
    match stack.split_first() {
        Ok(Some((top, _))) => Some(top),
        Ok(None) | Err(_) => None,
    }
}

// Each iterator is dropped after a step, and can be had again.
fn walks<'t>(stack: &FailingStack<'t>, looks: &mut Looks<'_, 't>) {
    looks.see(
        "iter",
        has_number(stack.iter().next(), 3) && stack.iter().count() == 3,
    );
    looks.see(
        "into_iter",
        has_number(stack.into_iter().next(), 3) && stack.into_iter().count() == 3,
    );
    looks.see("size_hint", stack.iter().size_hint() == (3, Some(3)));
}

impl<'t> Subject<'t, Tests, StackCall> for FailingStack<'t> {
    fn start(_variant: u8, faults: &'t Faults) -> Result<Self, AllocError> {
        Ok(Stack::new(&faults.alloc))
    }

    fn share(&mut self, _faults: &'t Faults) -> Result<Option<Self>, AllocError> {
        always_some(self.clone())
    }

    fn is_as(&self, twin: &Self, _faults: &'t Faults) -> bool {
        *self == *twin
    }

    fn held(&self) -> Option<u64> {
        Some(self.size() as u64)
    }

    fn perform(
        &mut self,
        call: StackCall,
        number: u64,
        faults: &'t Faults,
    ) -> Result<bool, AllocError> {
        match call {
            Made(call) => {
                let made = made(self, call, number, faults);
                put_if_some(self, made)
            }
            Changed(call) => changed(self, call, number, faults),
        }
    }
}

impl<'t> Container<'t, Tests, StackCall> for FailingStack<'t> {
    fn looks(&self, other: &Self, empty: &Self, looks: &mut Looks<'_, 't>) {
        looks.see("size", self.size() == 3 && self.len() == 3);
        looks.see("is_empty", !self.is_empty() && empty.is_empty());
        looks.see("peek", has_number(self.peek(), 3) && empty.peek().is_none());
        looks.see(
            "split_first",
            has_number(top(self), 3) && top(empty).is_none(),
        );
        looks.see("compared", is_below(self, other));
        walks(self, looks);
    }
}

// Of no items, one and four.
const PLAN: Plan<'static, StackCall> = Plan {
    put: Changed(PushMut),
    receivers: receivers![&[], &[0], &[0, 1, 2, 3]],
    numbers: &[9],
    calls: CALLS,
    never_refused: NEVER_REFUSED,
    empty_without_memory: &[0],
    without_memory: WITHOUT_MEMORY,
    limits: &[(LARGE, ROWS)],
};

const CALLS: &[StackCall] = &[
    Made(Push),
    Made(FromIter),
    Made(FromArray),
    Changed(PushMut),
    Changed(Extend),
];

const NEVER_REFUSED: &[StackCall] = &[
    Made(Pop),
    Made(SplitFirst),
    Made(Share),
    Made(Cloned),
    Changed(PopMut),
    Changed(Clear),
];

// There is nothing to do, and no memory is needed.
const WITHOUT_MEMORY: &[NoMemoryRow<'static, StackCall>] = &[
    no_memory!(receiver!(&[]), calls: &[Made(Pop), Made(SplitFirst), Changed(PopMut)],
        at: 7, answer: false),
];

const LARGE: LargeContainer = LargeContainer {
    variant: 0,
    count: 10_000,
    step: 1,
    limit: 10_000,
};

// As much as those of a list.
const ROWS: &[MemoryRow<'static, StackCall>] = &[
    memory!(Alike, calls: &[Made(Push)], at: &[7], requests: 2, bytes: CELL + ITEM),
    memory!(Shared, calls: &[Changed(PushMut)], at: &[7], requests: 2, bytes: CELL + ITEM),
    memory!(Alike, calls: &[Made(Pop), Made(SplitFirst)], at: &[7], limit: NOTHING),
    memory!(Shared, calls: &[Changed(PopMut)], at: &[7], limit: NOTHING),
    memory!(Shared, calls: &[Changed(Extend)], at: &[7], limit: EXTENDED),
    memory!(Alike, calls: &[Made(Share), Made(Cloned)], at: &[7], limit: NOTHING),
    memory!(Alike, calls: &[Made(FromIter)], at: &[7], limit: COLLECTED),
    memory!(Alike, calls: &[Made(FromArray)], at: &[7], limit: OF_ARRAY),
];

#[test]
fn calls(rt: HostRuntime) {
    let faults = Faults::new(rt.alloc());
    check_container::<Tests, StackCall, FailingStack>(
        &faults,
        &PLAN,
        Changed(Clear),
        &receiver!(&[1, 2, 3]),
        &receiver!(&[1, 5]),
    )
    .expect(&rt, "each call");
}
