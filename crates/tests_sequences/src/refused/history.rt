use crate::Tests;
use crate::refused::list::{CELL, ITEM};
use rpds_faults::{FailingAllocator, FailingItem, Faults};
use rpds_history::history::History;
use rpds_refusals::answer::{always_true, put_in_place};
use rpds_refusals::check::check_calls;
use rpds_refusals::plan::Sharing::{Alone, Shared};
use rpds_refusals::plan::{LargeContainer, MemoryRow, NOTHING, NoMemoryRow, Plan};
use rpds_refusals::subject::Subject;
use rpds_refusals::{memory, no_memory, receiver, receivers};
use std::alloc::AllocError;

type FailingHistory<'t> = History<FailingItem<'t>, &'t FailingAllocator>;

// A call of a history.
#[derive(Clone, Copy, Debug)]
enum HistoryCall {
    New,
    Record,
    // A record, and at 0 an undo.
    Put,
    Undo,
    Redo,
    GoTo,
    Limit,
    ClearRedo,
    Fork,
    Cloned,
}

// Whether both go over the same versions from here on.
fn are_same<'t>(history: &mut FailingHistory<'t>, twin: &mut FailingHistory<'t>) -> bool {
    for _ in 0..=history.redo_len() {
        if history.present() != twin.present() || history.redo() != twin.redo() {
            return false;
        }
    }
    true
}

fn limit<'t>(history: &mut FailingHistory<'t>, most: usize) -> Result<bool, AllocError> {
    let is_more = history.undo_len() > most;
    match history.limit(most) {
        Ok(()) => Ok(is_more),
        Err(error) => Err(error),
    }
}

fn clear_redo<'t>(history: &mut FailingHistory<'t>) -> bool {
    let is_some = history.redo_len() > 0;
    history.clear_redo();
    is_some && history.redo_len() == 0
}

impl<'t> Subject<'t, Tests, HistoryCall> for FailingHistory<'t> {
    fn start(_variant: u8, faults: &'t Faults) -> Result<Self, AllocError> {
        History::new(&faults.alloc, FailingItem::new(0, &faults.counts))
    }

    fn share(&mut self, _faults: &'t Faults) -> Result<Option<Self>, AllocError> {
        match self.fork() {
            Ok(other) => Ok(Some(other)),
            Err(error) => Err(error),
        }
    }

    fn is_as(&self, twin: &Self, _faults: &'t Faults) -> bool {
        if self.undo_len() != twin.undo_len() || self.redo_len() != twin.redo_len() {
            return false;
        }
        match (self.fork(), twin.fork()) {
            (Ok(mut history), Ok(mut twin)) => {
                history.go_to(0) == Ok(true)
                    && twin.go_to(0) == Ok(true)
                    && are_same(&mut history, &mut twin)
            }
            _ => false,
        }
    }

    fn held(&self) -> Option<u64> {
        Some(self.len() as u64)
    }

    fn perform(
        &mut self,
        call: HistoryCall,
        number: u64,
        faults: &'t Faults,
    ) -> Result<bool, AllocError> {
        match call {
            HistoryCall::Put if number == 0 => self.undo(),
            HistoryCall::Put | HistoryCall::Record => {
                always_true(self.record(FailingItem::new(number, &faults.counts)))
            }
            HistoryCall::New => {
                put_in_place(
                    self,
                    History::new(&faults.alloc, FailingItem::new(number, &faults.counts)),
                )
            }
            HistoryCall::Undo => self.undo(),
            HistoryCall::Redo => self.redo(),
            HistoryCall::GoTo => self.go_to(number as usize),
            HistoryCall::Limit => limit(self, number as usize),
            HistoryCall::ClearRedo => Ok(clear_redo(self)),
            HistoryCall::Fork => {
                let made = self.fork();
                put_in_place(self, made)
            }
            HistoryCall::Cloned => {
                let made = Clone::clone(self);
                put_in_place(self, made)
            }
        }
    }
}

// Of one version, of four of which the last is present, and of five of which the third is.
const PLAN: Plan<'static, HistoryCall> = Plan {
    put: HistoryCall::Put,
    receivers: receivers![&[], &[1, 2, 3], MIDDLE],
    numbers: &[0, 1, 2, 9],
    calls: CALLS,
    never_refused: &[
        HistoryCall::ClearRedo,
        HistoryCall::Fork,
        HistoryCall::Cloned,
    ],
    empty_without_memory: &[],
    without_memory: WITHOUT_MEMORY,
    limits: &[(LARGE, ROWS)],
};

const MIDDLE: &[u64] = &[1, 2, 3, 4, 0, 0];

const CALLS: &[HistoryCall] = &[
    HistoryCall::New,
    HistoryCall::Record,
    HistoryCall::Undo,
    HistoryCall::Redo,
    HistoryCall::GoTo,
    HistoryCall::Limit,
];

// There is nothing to do, and no memory is needed.
const WITHOUT_MEMORY: &[NoMemoryRow<'static, HistoryCall>] = &[
    no_memory!(receiver!(&[]), calls: &[HistoryCall::Undo, HistoryCall::Redo],
        at: 0, answer: false),
    no_memory!(receiver!(MIDDLE), calls: &[HistoryCall::GoTo], at: 5, answer: false),
    no_memory!(receiver!(MIDDLE), calls: &[HistoryCall::Limit], at: 2, answer: false),
];

// After the first version those of the numbers 1 to 9,999.
const LARGE: LargeContainer = LargeContainer {
    variant: 0,
    count: 10_000,
    step: 1,
    limit: 10_000,
};

// A step takes a cell where a fork shares it, and nothing where none does.
const ROWS: &[MemoryRow<'static, HistoryCall>] = &[
    memory!(Shared, calls: &[HistoryCall::Record], at: &[7], requests: 2, bytes: ITEM + CELL),
    memory!(Alone, calls: &[HistoryCall::Record], at: &[7], requests: 2, bytes: ITEM + CELL),
    memory!(Shared, calls: &[HistoryCall::Undo], at: &[0], requests: 1, bytes: CELL),
    memory!(Alone, calls: &[HistoryCall::Undo], at: &[0], limit: NOTHING),
    memory!(Shared, calls: &[HistoryCall::Redo], at: &[0], requests: 1, bytes: CELL),
    memory!(Alone, calls: &[HistoryCall::Redo], at: &[0], limit: NOTHING),
    memory!(Shared, calls: &[HistoryCall::Fork], at: &[0], limit: NOTHING),
    memory!(Shared, calls: &[HistoryCall::GoTo], at: &[9_990], requests: 10, bytes: 10 * CELL),
    memory!(Shared, calls: &[HistoryCall::Limit], at: &[20], requests: 20, bytes: 20 * CELL),
    memory!(Alone, calls: &[HistoryCall::Limit], at: &[10], limit: NOTHING),
];

#[test]
fn calls(rt: HostRuntime) {
    let faults = Faults::new(rt.alloc());
    check_calls::<Tests, _, FailingHistory>(&faults, &PLAN).expect(&rt, "each call");
}
