//! Each command of a map with snapshots.
use crate::Tests;
use crate::refused::snapshots::SnapshotsCall::{Apply, Run};
use rpds_faults::{FailingAllocator, FailingItem, Faults};
use rpds_refusals::check::check_calls;
use rpds_refusals::item::pair;
use rpds_refusals::plan::Sharing::Alone;
use rpds_refusals::plan::{LargeContainer, MemoryRow, NOTHING, Plan};
use rpds_refusals::subject::Subject;
use rpds_refusals::{memory, receiver};
use rpds_snapshots::snapshots::{SnapCommand, SnapRefusal, SnapReply, Snapshots};
use rpds_tree::map::red_black_tree_map::RedBlackTreeMap;
use std::alloc::AllocError;

type FailingSnapshots<'t> = Snapshots<FailingItem<'t>, FailingItem<'t>, &'t FailingAllocator>;

type FailingCommand<'t> = SnapCommand<FailingItem<'t>, FailingItem<'t>>;

type FailingMap<'t> = RedBlackTreeMap<FailingItem<'t>, FailingItem<'t>, &'t FailingAllocator>;

// A command of a map with snapshots, but for the key, the value and the number in it.
#[derive(Clone, Copy, Debug)]
enum SnapshotsCommand {
    Put,
    TakeOut,
    Take,
    GoBack,
}

// How it is given.
#[derive(Clone, Copy, Debug)]
enum SnapshotsCall {
    // By `apply`.
    Apply(SnapshotsCommand),
    // By `run`, and no other with it.
    Run(SnapshotsCommand),
}

fn command<'t>(given: SnapshotsCommand, number: u64, faults: &'t Faults) -> FailingCommand<'t> {
    match given {
        SnapshotsCommand::Put => {
            let (key, value) = pair(number, &faults.counts);
            SnapCommand::Put(key, value)
        }
        SnapshotsCommand::TakeOut => SnapCommand::TakeOut(FailingItem::new(number, &faults.counts)),
        SnapshotsCommand::Take => SnapCommand::Take,
        SnapshotsCommand::GoBack => SnapCommand::GoBack(number as usize),
    }
}

// Whether there was something to do, if memory was to be had.
fn outcome(reply: SnapReply) -> Result<bool, AllocError> {
    match reply {
        SnapReply::Taken(_) => Ok(true),
        SnapReply::Done(is_changed) => Ok(is_changed),
        SnapReply::Refused(SnapRefusal::NoMemory) => Err(AllocError),
        SnapReply::Refused(_) => Ok(false),
    }
}

fn run<'t>(
    snapshots: &mut FailingSnapshots<'t>,
    command: FailingCommand<'t>,
    faults: &'t Faults,
) -> Result<bool, AllocError> {
    let commands = vec![in &faults.alloc; command]?;
    let replies = snapshots.run(commands)?;
    match replies.first() {
        Some(reply) => outcome(*reply),
        None => Ok(false),
    }
}

fn are_same<'t>(kept: Option<&FailingMap<'t>>, twin: Option<&FailingMap<'t>>) -> bool {
    match (kept, twin) {
        (Some(kept), Some(twin)) => kept == twin,
        _ => false,
    }
}

impl<'t> Subject<'t, Tests, SnapshotsCall> for FailingSnapshots<'t> {
    // How many snapshots were taken before the map is filled.
    fn start(variant: u8, faults: &'t Faults) -> Result<Self, AllocError> {
        let mut snapshots = Snapshots::new(&faults.alloc);
        for _ in 0..variant {
            outcome(snapshots.apply(SnapCommand::Take))?;
        }
        Ok(snapshots)
    }

    // By a snapshot more.
    fn share(&mut self, _faults: &'t Faults) -> Result<Option<Self>, AllocError> {
        outcome(self.apply(SnapCommand::Take))?;
        Ok(None)
    }

    fn is_as(&self, twin: &Self, _faults: &'t Faults) -> bool {
        for index in 0..self.count() {
            if !are_same(self.at(index), twin.at(index)) {
                return false;
            }
        }
        self.count() == twin.count() && self.current() == twin.current()
    }

    // Snapshots share items.
    fn held(&self) -> Option<u64> {
        None
    }

    fn perform(
        &mut self,
        call: SnapshotsCall,
        number: u64,
        faults: &'t Faults,
    ) -> Result<bool, AllocError> {
        match call {
            Apply(given) => outcome(self.apply(command(given, number, faults))),
            Run(given) => run(self, command(given, number, faults), faults),
        }
    }
}

const SEVEN: &[u64] = &[0, 1, 2, 3, 4, 5, 6];

// After no snapshot, three and four, after which the list of them grows; then of an empty map. The calls are made at keys
// that are there, and at one that isn't. So with snapshots.
const PLAN: Plan<'static, SnapshotsCall> = Plan {
    put: Apply(SnapshotsCommand::Put),
    receivers: &[
        receiver!(SEVEN),
        receiver!(variant: 3, SEVEN),
        receiver!(variant: 4, SEVEN),
        receiver!(&[]),
        receiver!(variant: 4, &[]),
    ],
    numbers: &[0, 3, 9],
    calls: CALLS,
    never_refused: &[Apply(SnapshotsCommand::GoBack)],
    empty_without_memory: &[0],
    without_memory: &[],
    limits: &[(LARGE, ROWS)],
};

const CALLS: &[SnapshotsCall] = &[
    Apply(SnapshotsCommand::Put),
    Apply(SnapshotsCommand::TakeOut),
    Apply(SnapshotsCommand::Take),
    Run(SnapshotsCommand::Put),
    Run(SnapshotsCommand::TakeOut),
    Run(SnapshotsCommand::Take),
    Run(SnapshotsCommand::GoBack),
];

#[test]
fn refused(rt: HostRuntime) {
    let faults = Faults::new(rt.alloc());
    check_calls::<Tests, _, FailingSnapshots>(&faults, &PLAN).expect(&rt, "each call");
}

// The keys rise.
const LARGE: LargeContainer = LargeContainer {
    variant: 0,
    count: 10_000,
    step: 1,
    limit: 10_000,
};

// The bytes of a pair, of a node, and of a map in the list of snapshots.
const PAIR: u64 = 24 + 32;

const NODE: u64 = 24 + 48;

const MAP: u64 = 32;

// The nodes of a path: twice the logarithm of 10,001, and the new one.
const PATH: u64 = 27;

// Sharing a map that shares nothing: the pair and its node where one is put in, and a snapshot's place in the list of them, which
// begins with four. Where a snapshot shares them, a path. A step back takes nothing.
const ROWS: &[MemoryRow<'static, SnapshotsCall>] = &[
    memory!(Alone, calls: PUT, at: &[3, 9_999], requests: 1, bytes: PAIR),
    memory!(Alone, calls: PUT, at: &[10_000], requests: 2, bytes: NODE + PAIR),
    memory!(Alone, calls: TAKE_OUT, at: &[0, 5_000], limit: NOTHING),
    memory!(Alone, calls: TAKE, at: &[0], requests: 1, bytes: 4 * MAP),
    memory!(Alone, calls: GO_BACK, at: &[0], limit: NOTHING),
    memory!(Alone, calls: GO_BACK, at: &[9], answer: false, limit: NOTHING),
    memory!(Alone, calls: PUT, at: &[3, 9_999], requests: PATH + 1, bytes: PATH * NODE + PAIR),
];

const PUT: &[SnapshotsCall] = &[Apply(SnapshotsCommand::Put)];

const TAKE_OUT: &[SnapshotsCall] = &[Apply(SnapshotsCommand::TakeOut)];

const TAKE: &[SnapshotsCall] = &[Apply(SnapshotsCommand::Take)];

const GO_BACK: &[SnapshotsCall] = &[Apply(SnapshotsCommand::GoBack)];
