//! Each command of a table.
use crate::Tests;
use crate::refused::own::own_call;
use rpds_core::steps::Steps;
use rpds_faults::{FailingAllocator, FailingItem, Faults, FlooredBuild, LifeCounts};
use rpds_refusals::item::{pair, three};
use rpds_refusals::plan::{NoMemoryRow, Plan};
use rpds_refusals::refused::refusals;
use rpds_refusals::subject::Subject;
use rpds_refusals::without_memory::check_without_memory;
use rpds_refusals::{no_memory, receiver};
use rpds_table::table::Mode::{InPlace, New};
use rpds_table::table::{Command, Kind, Mode, Op, Refusal, Reply, Table, VersionRef};
use std::alloc::{AllocError, Global};
use std::process::Abort;

pub(crate) type FailingTable<'t> = Table<
    FailingItem<'t>,
    FailingItem<'t>,
    FlooredBuild<'t>,
    &'t FailingAllocator,
>;

pub(crate) type FailingCommand<'t> = Command<
    FailingItem<'t>,
    FailingItem<'t>,
    &'t FailingAllocator,
>;

pub(crate) type FailingOp<'t> = Op<FailingItem<'t>, FailingItem<'t>>;

pub(crate) type FailingRef<'a, 't> = VersionRef<
    'a,
    FailingItem<'t>,
    FailingItem<'t>,
    FlooredBuild<'t>,
    &'t FailingAllocator,
>;

// A change of a version.
#[derive(Clone, Copy, Debug)]
pub(crate) enum Change {
    // Puts the number in.
    Put,
    // Takes the number out, or the item that the kind drops.
    Take,
    // Puts an item at the place of the number.
    Set,
    Reverse,
}

// A command of a table, but for the version and the items in it.
#[derive(Clone, Copy, Debug)]
pub(crate) enum TableCommand {
    Make,
    MakeBits(u8),
    MakeDegree(u8),
    MakeSorted,
    MakeSortedItems,
    Copy,
    Change(Mode, Change),
    Extend,
    WriteAt,
    WriteKey,
}

// A call of a table.
#[derive(Clone, Copy, Debug)]
pub(crate) enum TableCall {
    // The command by `apply`.
    Apply(TableCommand),
    // The command by `run`, and no other with it.
    Run(TableCommand),
    // No command, but the container's own call, whose result is dropped.
    Own(Change),
}

// A table whose first version is of the kind.
#[derive(Drop)]
pub(crate) struct Versions<'t> {
    table: FailingTable<'t>,
    kind: Kind,
}

// Puts the number in, into a map as a key and its value.
pub(crate) fn put<'t>(kind: Kind, number: u64, counts: &'t LifeCounts) -> FailingOp<'t> {
    let item = FailingItem::new(number, counts);
    match kind {
        Kind::List => Op::PushFront(item),
        Kind::Stack => Op::Push(item),
        Kind::Queue => Op::Enqueue(item),
        Kind::Vector => Op::PushBack(item),
        Kind::HashTrieMap | Kind::RedBlackTreeMap => Op::Insert(
            item,
            FailingItem::new(number, counts),
        ),
        Kind::HashTrieSet | Kind::RedBlackTreeSet => Op::InsertItem(item),
    }
}

// Takes the number out, or the item that the kind drops.
fn take<'t>(kind: Kind, number: u64, counts: &'t LifeCounts) -> FailingOp<'t> {
    match kind {
        Kind::List => Op::DropFirst,
        Kind::Stack => Op::Pop,
        Kind::Queue => Op::Dequeue,
        Kind::Vector => Op::DropLast,
        Kind::HashTrieMap | Kind::RedBlackTreeMap => Op::Remove(FailingItem::new(number, counts)),
        Kind::HashTrieSet | Kind::RedBlackTreeSet => Op::RemoveItem(FailingItem::new(
            number, counts,
        )),
    }
}

fn op<'t>(kind: Kind, change: Change, number: u64, counts: &'t LifeCounts) -> FailingOp<'t> {
    match change {
        Change::Put => put(kind, number, counts),
        Change::Take => take(kind, number, counts),
        Change::Set => Op::Set(number as usize, FailingItem::new(7, counts)),
        Change::Reverse => Op::Reverse,
    }
}

// Pairs that rise where the number is above 1.
fn make_sorted<'t>(number: u64, faults: &'t Faults) -> Result<FailingCommand<'t>, AllocError> {
    let counts = &faults.counts;
    let pairs = vec![in &faults.alloc; pair(0, counts), pair(1, counts), pair(number, counts)]?;
    Ok(Command::MakeSorted(pairs))
}

// Members that rise where the number is above 1.
fn make_sorted_items<'t>(
    number: u64,
    faults: &'t Faults,
) -> Result<FailingCommand<'t>, AllocError> {
    let counts = &faults.counts;
    let items = vec![in &faults.alloc;
        FailingItem::new(1, counts),
        FailingItem::new(number, counts),
    ]?;
    Ok(Command::MakeSortedItems(items))
}

// Puts three items behind those of a vector.
fn extend<'t>(index: usize, faults: &'t Faults) -> Result<FailingCommand<'t>, AllocError> {
    let items = Vec::from_array(&faults.alloc, three(&faults.counts))?;
    Ok(Command::Extend(index, items))
}

// The command on the version of this index, of the kind, with the number.
pub(crate) fn command<'t>(
    given: TableCommand,
    kind: Kind,
    index: usize,
    number: u64,
    faults: &'t Faults,
) -> Result<FailingCommand<'t>, AllocError> {
    let counts = &faults.counts;
    match given {
        TableCommand::Make => Ok(Command::Make(kind)),
        TableCommand::MakeBits(bits) => Ok(Command::MakeBits(bits)),
        TableCommand::MakeDegree(degree) => Ok(Command::MakeDegree(kind, degree)),
        TableCommand::MakeSorted => make_sorted(number, faults),
        TableCommand::MakeSortedItems => make_sorted_items(number, faults),
        TableCommand::Copy => Ok(Command::Copy(index)),
        TableCommand::Change(mode, change) => {
            Ok(Command::Change(index, mode, op(kind, change, number, counts)))
        }
        TableCommand::Extend => extend(index, faults),
        TableCommand::WriteAt => Ok(Command::WriteAt(
            index,
            number as usize,
            FailingItem::new(7, counts),
        )),
        TableCommand::WriteKey => {
            let (key, value) = pair(number, counts);
            Ok(Command::WriteKey(index, key, value))
        }
    }
}

// Whether there was something to do, if memory was to be had.
fn outcome(reply: Reply) -> Result<bool, AllocError> {
    match reply {
        Reply::Made(_) => Ok(true),
        Reply::Done(is_changed) => Ok(is_changed),
        Reply::Refused(Refusal::NoMemory) => Err(AllocError),
        Reply::Refused(_) => Ok(false),
    }
}

fn apply<'t>(
    table: &mut FailingTable<'t>,
    command: FailingCommand<'t>,
) -> Result<bool, AllocError> {
    outcome(table.apply(command, &mut Steps::new()))
}

fn run<'t>(
    table: &mut FailingTable<'t>,
    command: FailingCommand<'t>,
    faults: &'t Faults,
) -> Result<bool, AllocError> {
    let commands = vec![in &faults.alloc; command]?;
    let replies = table.run(commands, &mut Steps::new())?;
    match replies.first() {
        Some(reply) => outcome(*reply),
        None => Ok(false),
    }
}

// Whether both are of one kind and hold the same.
fn are_same<'t>(version: FailingRef<'_, 't>, twin: FailingRef<'_, 't>) -> bool {
    match (version, twin) {
        (VersionRef::List(list), VersionRef::List(twin)) => list == twin,
        (VersionRef::Stack(stack), VersionRef::Stack(twin)) => stack == twin,
        (VersionRef::Queue(queue), VersionRef::Queue(twin)) => queue == twin,
        (VersionRef::Vector(vector), VersionRef::Vector(twin)) => vector == twin,
        (VersionRef::HashTrieMap(map), VersionRef::HashTrieMap(twin)) => map == twin,
        (VersionRef::HashTrieSet(set), VersionRef::HashTrieSet(twin)) => set == twin,
        (VersionRef::RedBlackTreeMap(map), VersionRef::RedBlackTreeMap(twin)) => map == twin,
        (VersionRef::RedBlackTreeSet(set), VersionRef::RedBlackTreeSet(twin)) => set == twin,
        _ => false,
    }
}

fn holds_as<'t>(table: &FailingTable<'t>, twin: &FailingTable<'t>, index: usize) -> bool {
    match (table.version(index), twin.version(index)) {
        (Some(version), Some(twin)) => are_same(version, twin),
        _ => false,
    }
}

pub(crate) const KINDS: [Kind; 8] = [
    Kind::List,
    Kind::Stack,
    Kind::Queue,
    Kind::Vector,
    Kind::HashTrieMap,
    Kind::HashTrieSet,
    Kind::RedBlackTreeMap,
    Kind::RedBlackTreeSet,
];

impl<'t> Subject<'t, Tests, TableCall> for Versions<'t> {
    // The place of the kind. From 8 on there are 514 versions, so that the list of them, which grows by doubling, has room
    // for 510 more.
    fn start(variant: u8, faults: &'t Faults) -> Result<Self, AllocError> {
        let kind = KINDS[usize::from(variant % 8)];
        let mut table = Table::new(&faults.alloc, FlooredBuild::new(3, &faults.counts));
        apply(&mut table, Command::Make(kind))?;
        let more: u32 = if variant < 8 { 0 } else { 513 };
        for _ in 0..more {
            apply(&mut table, Command::Make(Kind::List))?;
        }
        Ok(Versions { table, kind })
    }

    // Three versions more, after which the list of versions grows.
    fn share(&mut self, _faults: &'t Faults) -> Result<Option<Self>, AllocError> {
        for _ in 0..3u32 {
            apply(&mut self.table, Command::Copy(0))?;
        }
        Ok(None)
    }

    fn is_as(&self, twin: &Self, _faults: &'t Faults) -> bool {
        for index in 0..self.table.len() {
            if !holds_as(&self.table, &twin.table, index) {
                return false;
            }
        }
        self.table.len() == twin.table.len()
    }

    // Versions share items.
    fn held(&self) -> Option<u64> {
        None
    }

    fn perform(
        &mut self,
        call: TableCall,
        number: u64,
        faults: &'t Faults,
    ) -> Result<bool, AllocError> {
        match call {
            TableCall::Apply(given) => {
                let command = command(given, self.kind, 0, number, faults)?;
                apply(&mut self.table, command)
            }
            TableCall::Run(given) => {
                let command = command(given, self.kind, 0, number, faults)?;
                run(&mut self.table, command, faults)
            }
            TableCall::Own(change) => match self.table.version(0) {
                Some(version) => own_call(version, change, number, &faults.counts),
                None => Ok(false),
            },
        }
    }
}

const SOME: &[u64] = &[1, 2, 3, 4, 5];

// Of each kind, with some numbers and empty. The calls are made at a number that is there, and at one that isn't. In the
// first version 1, 2 and 3 have the hash 0.
const PLAN: Plan<'static, TableCall> = Plan {
    put: TableCall::Apply(TableCommand::Change(InPlace, Change::Put)),
    receivers: &[
        receiver!(SOME),
        receiver!(variant: 1, SOME),
        receiver!(variant: 2, SOME),
        receiver!(variant: 3, SOME),
        receiver!(variant: 4, SOME),
        receiver!(variant: 5, SOME),
        receiver!(variant: 6, SOME),
        receiver!(variant: 7, SOME),
        receiver!(&[]),
        receiver!(variant: 1, &[]),
        receiver!(variant: 2, &[]),
        receiver!(variant: 3, &[]),
        receiver!(variant: 4, &[]),
        receiver!(variant: 5, &[]),
        receiver!(variant: 6, &[]),
        receiver!(variant: 7, &[]),
    ],
    numbers: &[1, 3, 9],
    calls: &[],
    never_refused: &[],
    empty_without_memory: &[],
    without_memory: WITHOUT_MEMORY,
    limits: &[],
};

const MAKES: &[TableCommand] = &[
    TableCommand::Make,
    TableCommand::MakeBits(3),
    TableCommand::MakeDegree(4),
    TableCommand::Copy,
];

const MAKES_OF_SORTED: &[TableCommand] = &[TableCommand::MakeSorted, TableCommand::MakeSortedItems];

const NEW_VERSIONS: &[TableCommand] = &[
    TableCommand::Change(New, Change::Put),
    TableCommand::Change(New, Change::Take),
    TableCommand::Change(New, Change::Set),
    TableCommand::Change(New, Change::Reverse),
];

const IN_PLACE: &[TableCommand] = &[
    TableCommand::Change(InPlace, Change::Put),
    TableCommand::Change(InPlace, Change::Take),
    TableCommand::Change(InPlace, Change::Set),
    TableCommand::Change(InPlace, Change::Reverse),
];

const WRITES: &[TableCommand] = &[
    TableCommand::Extend,
    TableCommand::WriteAt,
    TableCommand::WriteKey,
];

// There is nothing to take out of an empty version, and none has the item 9 or the key 9.
const WITHOUT_MEMORY: &[NoMemoryRow<'static, TableCall>] = &[
    no_memory!(receiver!(&[]), calls: TAKES, at: 9, answer: false),
    no_memory!(receiver!(variant: 1, &[]), calls: TAKES, at: 9, answer: false),
    no_memory!(receiver!(variant: 2, &[]), calls: TAKES, at: 9, answer: false),
    no_memory!(receiver!(variant: 3, &[]), calls: TAKES, at: 9, answer: false),
    no_memory!(receiver!(variant: 3, &[]), calls: AT_A_PLACE, at: 9, answer: false),
    no_memory!(receiver!(variant: 3, SOME), calls: AT_A_PLACE, at: 9, answer: false),
    no_memory!(receiver!(variant: 4, &[]), calls: AT_A_KEY, at: 9, answer: false),
    no_memory!(receiver!(variant: 5, &[]), calls: AT_A_KEY, at: 9, answer: false),
    no_memory!(receiver!(variant: 6, &[]), calls: AT_A_KEY, at: 9, answer: false),
    no_memory!(receiver!(variant: 7, &[]), calls: AT_A_KEY, at: 9, answer: false),
];

const TAKES: &[TableCall] = &[
    TableCall::Apply(TableCommand::Change(New, Change::Take)),
    TableCall::Apply(TableCommand::Change(InPlace, Change::Take)),
];

const AT_A_PLACE: &[TableCall] = &[
    TableCall::Apply(TableCommand::Change(New, Change::Set)),
    TableCall::Apply(TableCommand::Change(InPlace, Change::Set)),
    TableCall::Apply(TableCommand::WriteAt),
];

const AT_A_KEY: &[TableCall] = &[
    TableCall::Apply(TableCommand::Change(InPlace, Change::Take)),
    TableCall::Apply(TableCommand::WriteKey),
];

// How many requests and clones of the command were refused.
fn refused_of(rt: &impl Abort, faults: &Faults, call: TableCall) -> u64 {
    refusals::<Tests, _, Versions>(faults, &PLAN, call).expect(rt, "each refusal")
}

// Each of the commands is refused some, and more where a list of commands is made for it.
fn assert_refused(rt: &impl Abort, alloc: Global, commands: &[TableCommand]) {
    let faults = Faults::new(alloc);
    for command in commands {
        let applied = refused_of(rt, &faults, TableCall::Apply(*command));
        let run = refused_of(rt, &faults, TableCall::Run(*command));
        assert!(rt; applied > 0 && run > applied, "{command:?}");
    }
}

#[test]
fn makes(rt: HostRuntime) {
    assert_refused(&rt, rt.alloc(), MAKES);
}

#[test]
fn makes_of_sorted(rt: HostRuntime) {
    assert_refused(&rt, rt.alloc(), MAKES_OF_SORTED);
}

#[test]
fn new_versions(rt: HostRuntime) {
    assert_refused(&rt, rt.alloc(), NEW_VERSIONS);
}

#[test]
fn in_place(rt: HostRuntime) {
    assert_refused(&rt, rt.alloc(), IN_PLACE);
}

#[test]
fn writes(rt: HostRuntime) {
    assert_refused(&rt, rt.alloc(), WRITES);
}

#[test]
fn without_memory(rt: HostRuntime) {
    let faults = Faults::new(rt.alloc());
    check_without_memory::<Tests, _, Versions>(&faults, &PLAN).expect(&rt, "calls without memory");
}
