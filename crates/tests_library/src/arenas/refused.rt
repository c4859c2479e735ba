//! Each allocation and each clone of the calls refused in turn, and how much they ask for among 10,000 items.
use crate::Tests;
use rpds_arena::arena::Arena;
use rpds_arena::interner::Interner;
use rpds_faults::{FailingAllocator, FailingItem, Faults, FlooredBuild};
use rpds_refusals::check::check_calls;
use rpds_refusals::plan::Sharing::{Alone, Shared};
use rpds_refusals::plan::{LargeContainer, MemoryRow, Plan};
use rpds_refusals::subject::Subject;
use rpds_refusals::{memory, no_memory, receiver, receivers};
use std::alloc::AllocError;
use std::iter::{Extend, FromIterator};

// The tag of ids. It has no lifetime, as the items have.
struct Tag;

type FailingArena<'t> = Arena<FailingItem<'t>, Tag, &'t FailingAllocator>;

type FailingInterner<'t> = Interner<FailingItem<'t>, Tag, FlooredBuild<'t>, &'t FailingAllocator>;

// The calls of arenas.
#[derive(Clone, Copy, Debug)]
enum ArenaCall {
    Put,
    Extend,
    Collect,
    Share,
    Cloned,
    Fold,
}

// The calls of interners.
#[derive(Clone, Copy, Debug)]
enum InternerCall {
    Intern,
    Share,
}

// Whether both have the same items.
fn are_alike<'t>(left: &FailingArena<'t>, right: &FailingArena<'t>) -> bool {
    if left.len() != right.len() {
        return false;
    }
    for number in 0..left.len() {
        let Some(id) = left.id_at(number) else {
            return false;
        };
        if left.get(id) != right.get(id) {
            return false;
        }
    }
    true
}

// What was handed out takes the receiver's place, and there was something to do.
fn put_back<S: Drop>(receiver: &mut S, made: S) -> bool {
    *receiver = made;
    true
}

impl<'t> Subject<'t, Tests, ArenaCall> for FailingArena<'t> {
    fn start(_variant: u8, faults: &'t Faults) -> Result<Self, AllocError> {
        Ok(Arena::new_tagged(&faults.alloc))
    }

    fn share(&mut self, _faults: &'t Faults) -> Result<Option<Self>, AllocError> {
        Ok(Some(Arena::clone(self)?))
    }

    fn is_as(&self, twin: &Self, _faults: &'t Faults) -> bool {
        are_alike(self, twin)
    }

    fn held(&self) -> Option<u64> {
        Some(self.len() as u64)
    }

    fn perform(
        &mut self,
        call: ArenaCall,
        number: u64,
        faults: &'t Faults,
    ) -> Result<bool, AllocError> {
        match call {
            ArenaCall::Put => {
                let before = self.len();
                let id = self.put(FailingItem::new(number, &faults.counts))?;
                Ok(id.number() == before)
            }
            ArenaCall::Extend => {
                Extend::extend(self, [FailingItem::new(number, &faults.counts)])?;
                Ok(true)
            }
            ArenaCall::Collect => {
                let items = [FailingItem::new(number, &faults.counts)];
                let made: Self = FromIterator::from_iter(&faults.alloc, items)?;
                Ok(put_back(self, made))
            }
            ArenaCall::Share => {
                let made = Arena::clone(self)?;
                Ok(put_back(self, made))
            }
            ArenaCall::Cloned => {
                let made = Clone::clone(self)?;
                Ok(put_back(self, made))
            }
            ArenaCall::Fold => {
                let all = self.fold(|older: &[u64], item: &FailingItem<'_>| older.len() as u64
                    ^ item.number)?;
                Ok(!all.is_empty())
            }
        }
    }
}

impl<'t> Subject<'t, Tests, InternerCall> for FailingInterner<'t> {
    // All numbers up to 3 have one hash.
    fn start(_variant: u8, faults: &'t Faults) -> Result<Self, AllocError> {
        let hasher = FlooredBuild::new(3, &faults.counts);
        Ok(Interner::new_tagged_with_hasher(&faults.alloc, hasher))
    }

    fn share(&mut self, _faults: &'t Faults) -> Result<Option<Self>, AllocError> {
        Ok(Some(self.clone()?))
    }

    fn is_as(&self, twin: &Self, _faults: &'t Faults) -> bool {
        are_alike(self.arena(), twin.arena())
    }

    // Each value and its clone, and the hasher.
    fn held(&self) -> Option<u64> {
        Some((self.arena().len() as u64).wrapping_mul(2).wrapping_add(1))
    }

    fn perform(
        &mut self,
        call: InternerCall,
        number: u64,
        faults: &'t Faults,
    ) -> Result<bool, AllocError> {
        match call {
            InternerCall::Intern => {
                let before = self.arena().len();
                let id = self.intern(FailingItem::new(number, &faults.counts))?;
                Ok(id.number() == before)
            }
            InternerCall::Share => {
                let made = self.clone()?;
                Ok(put_back(self, made))
            }
        }
    }
}

// The bytes of an item, which stands behind two counts of owners and the allocator.
const ITEM: u64 = 24 + 16;

// The bytes of a path: at 5 bits 10,000 items take three levels, and a node has 32 children at most.
const PATH: u64 = 3 * (24 + 48 + 32 * 8);

const LARGE: LargeContainer = LargeContainer {
    variant: 0,
    count: 10_000,
    step: 1,
    limit: 10_000,
};

// Two requests for each node of the path and one for the item; one more where the leaf's row grows.
const ROWS: &[MemoryRow<'static, ArenaCall>] = &[
    memory!(Shared, calls: &[ArenaCall::Put], at: &[7], requests: 8, bytes: PATH + ITEM),
    memory!(Shared, calls: &[ArenaCall::Share, ArenaCall::Cloned], at: &[7], requests: 0, bytes: 0),
    memory!(Alone, calls: &[ArenaCall::Put], at: &[7, 8, 9], requests: 2, bytes: 32 * 8 + ITEM),
];

// One list of all numbers, whose room doubles from 4 to 16,384.
const FOLDS: &[MemoryRow<'static, ArenaCall>] = &[
    memory!(Shared, calls: &[ArenaCall::Fold], at: &[7], requests: 13, bytes: 2 * 16_384 * 8),
];

// The bytes of the longest path to a value's id: a hash has 11 digits at degree 64, and a node at most 64 children.
const PATH_TO_ID: u64 = 12 * (24 + 56 + 64 * 8);

// A new value asks for what it asks for in an arena, for two requests for each node on the way to its id, and for one that holds
// both; it is cloned once. Of the nodes on both ways those alone count that another version shares: else the id takes a leaf, and a
// row that grows. A known value asks for nothing, and another version for a clone of the hasher.
const INTERNED: &[MemoryRow<'static, InternerCall>] = &[
    memory!(Shared, calls: &[InternerCall::Intern], at: &[10_000],
        clones: 1, requests: 8 + 25, bytes: PATH + ITEM + PATH_TO_ID + 24 + 24),
    memory!(Shared, calls: &[InternerCall::Share], at: &[7], clones: 1, requests: 0, bytes: 0),
    memory!(Alone, calls: &[InternerCall::Intern], at: &[10_000],
        clones: 1, requests: 2 + 3, bytes: 32 * 8 + ITEM + 24 + 56 + 64 * 8 + 24 + 24),
    memory!(Alone, calls: &[InternerCall::Intern], at: &[7],
        answer: false, clones: 0, requests: 0, bytes: 0),
];

const ARENA_PLAN: Plan<'static, ArenaCall> = Plan {
    put: ArenaCall::Put,
    receivers: receivers![&[], &[5, 5, 6]],
    numbers: &[5, 7],
    calls: &[ArenaCall::Put, ArenaCall::Extend, ArenaCall::Collect],
    never_refused: &[ArenaCall::Share, ArenaCall::Cloned],
    empty_without_memory: &[0],
    without_memory: &[],
    limits: &[(LARGE, ROWS)],
};

// The fold takes memory where there are items.
const FOLD_PLAN: Plan<'static, ArenaCall> = Plan {
    put: ArenaCall::Put,
    receivers: receivers![&[5, 5, 6, 7, 8, 9]],
    numbers: &[5],
    calls: &[ArenaCall::Fold],
    never_refused: &[],
    empty_without_memory: &[],
    without_memory: &[no_memory!(receiver!(&[]), calls: &[ArenaCall::Fold], at: 1, answer: false)],
    limits: &[(LARGE, FOLDS)],
};

const INTERNER_PLAN: Plan<'static, InternerCall> = Plan {
    put: InternerCall::Intern,
    receivers: receivers![&[], &[2, 3, 5]],
    numbers: &[2, 1, 7],
    calls: &[InternerCall::Intern, InternerCall::Share],
    never_refused: &[],
    empty_without_memory: &[0],
    // Another version takes a clone of the hasher alone.
    without_memory: &[
        no_memory!(receiver!(&[2, 3, 5]), calls: &[InternerCall::Intern], at: 3, answer: false),
        no_memory!(receiver!(&[2, 3, 5]), calls: &[InternerCall::Share], at: 1, answer: true),
    ],
    limits: &[(LARGE, INTERNED)],
};

#[test]
fn arenas(rt: HostRuntime) {
    let faults = Faults::new(rt.alloc());
    check_calls::<Tests, ArenaCall, FailingArena>(&faults, &ARENA_PLAN).expect(&rt, "each call");
    check_calls::<Tests, ArenaCall, FailingArena>(&faults, &FOLD_PLAN).expect(&rt, "each fold");
}

#[test]
fn interners(rt: HostRuntime) {
    let faults = Faults::new(rt.alloc());
    check_calls::<Tests, InternerCall, FailingInterner>(&faults, &INTERNER_PLAN).expect(
        &rt,
        "each call",
    );
}
