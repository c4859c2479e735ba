//! Worked rows.
use rpds_core::steps::Steps;
use rpds_faults::{FailingAllocator, requests};
use rpds_table::table::{
    Answer, Command, IdentityBuild, Kind, Mode, Op, Question, Refusal, Reply, Table, VersionRef,
};
use std::alloc::Global;
use std::process::Abort;

// A key that is compared and hashed by its id, whatever its tag.
#[derive(Clone, Drop)]
#[derive_where(PartialEq, Eq, PartialOrd, Ord, Hash)]
struct Tagged {
    id: u64,
    #[derive_where(skip)]
    tag: char,
}

// A map of the kind keeps the later one of two equal keys, with its value.
fn keeps_the_later_key(rt: &impl Abort, alloc: Global, kind: Kind) {
    let mut table: Table<Tagged, u64, IdentityBuild> = Table::new(alloc, IdentityBuild {});
    let mut steps = Steps::new();
    let _ = table.apply(Command::Make(kind), &mut steps);
    for (tag, value) in [('a', 10), ('b', 20)] {
        let op = Op::Insert(Tagged { id: 1, tag }, value);
        let _ = table.apply(Command::Change(0, Mode::InPlace, op), &mut steps);
    }
    let asked = Question::Key(0, Tagged { id: 1, tag: 'c' });
    match table.ask(&asked, &mut steps) {
        Answer::Pair(Some((key, value))) => assert!(rt; key.tag == 'b' && *value == 20),
        _ => assert!(rt; false),
    }
}

#[test]
fn keys_are_equal_by_id(rt: HostRuntime) {
    keeps_the_later_key(&rt, rt.alloc(), Kind::HashTrieMap);
    keeps_the_later_key(&rt, rt.alloc(), Kind::RedBlackTreeMap);
}

// The number of each refusal.
#[test]
fn numbers_of_refusals(rt: HostRuntime) {
    for (refusal, number) in [
        (Refusal::NoVersion, 1),
        (Refusal::WrongKind, 2),
        (Refusal::BadBits, 3),
        (Refusal::BadDegree, 4),
        (Refusal::BadRange, 5),
        (Refusal::NotAscending(2), 8),
    ] {
        assert!(rt; refusal.number() == number);
    }
}

// Each version is a list that shares the one before.
#[test]
fn a_long_chain_of_versions_ends(rt: HostRuntime) {
    let mut table: Table<u64, u64, IdentityBuild> = Table::new(rt.alloc(), IdentityBuild {});
    let steps = &mut Steps::new();
    assert!(rt; table.apply(Command::Make(Kind::List), steps) == Reply::Made(0));
    for index in 0..50_000usize {
        let change = Command::Change(index, Mode::New, Op::PushFront(7));
        assert!(rt; table.apply(change, steps) == Reply::Made(index + 1));
    }
    assert!(rt; table.len() == 50_001);
}

type CountedTable<'f> = Table<u64, u64, IdentityBuild, &'f FailingAllocator>;

type Commands<'f> = Vec<Command<u64, u64, &'f FailingAllocator>, &'f FailingAllocator>;

// Two lists: 7 is put before the first one, and 8 after the second was copied from it.
fn commands<'f>(rt: &impl Abort, alloc: &'f FailingAllocator) -> Commands<'f> {
    vec![in alloc;
        Command::Make(Kind::List),
        Command::Change(0, Mode::InPlace, Op::PushFront(7)),
        Command::Copy(0),
        Command::Change(0, Mode::InPlace, Op::PushFront(8)),
    ]
    .expect(rt, "ample memory")
}

const REPLIES: [Reply; 4] = [
    Reply::Made(0),
    Reply::Refused(Refusal::NoMemory),
    Reply::Made(1),
    Reply::Done(true),
];

// How many items the version has, if it is a list, and the first one.
fn look(table: &CountedTable<'_>, index: usize) -> Option<(usize, Option<u64>)> {
    match table.version(index) {
        Some(VersionRef::List(list)) => Some((list.len(), list.first().copied())),
        _ => None,
    }
}

// The first request makes room for the replies, the second for versions, and each item that is put in takes two.
#[test]
fn a_run_goes_on_after_a_refused_command(rt: HostRuntime) {
    let alloc = FailingAllocator::new(rt.alloc());
    let mut table = Table::new(&alloc, IdentityBuild {});
    let commands = commands(&rt, &alloc);
    alloc.refuse(3);
    let replies = table
        .run(commands, &mut Steps::new())
        .expect(&rt, "ample memory");
    assert!(rt; replies.as_slice() == REPLIES.as_slice());
    assert!(rt; look(&table, 0) == Some((1, Some(8))));
    assert!(rt; look(&table, 1) == Some((0, None)));
}

// The numbers 1 to `last`.
fn numbers_to<'f>(
    rt: &impl Abort,
    alloc: &'f FailingAllocator,
    last: u64,
) -> Vec<u64, &'f FailingAllocator> {
    let mut numbers = Vec::new(alloc);
    for number in 1..=last {
        numbers.push(number).expect(rt, "ample memory");
    }
    numbers
}

// Each member takes a request for its entry and one for its node; the first version takes one for the table's room.
#[test]
fn each_member_takes_one_node(rt: HostRuntime) {
    for last in [0u64, 1, 7, 8, 1000] {
        let alloc = FailingAllocator::new(rt.alloc());
        let mut table: CountedTable<'_> = Table::new(&alloc, IdentityBuild {});
        let members = numbers_to(&rt, &alloc, last);
        let _before = requests(&alloc);
        let made = table.apply(Command::MakeSortedItems(members), &mut Steps::new());
        assert!(rt; made == Reply::Made(0));
        assert!(rt; requests(&alloc) == last.wrapping_mul(2).wrapping_add(1));
    }
}
