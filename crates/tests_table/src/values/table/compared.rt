//! Questions about two versions of each kind.
use rpds_core::steps::Steps;
use rpds_table::table::{Answer, Command, IdentityBuild, Kind, Mode, Op, Question, Reply, Table};
use std::alloc::Global;
use std::cmp::Ordering;
use std::process::Abort;

type NumberTable = Table<u64, u64, IdentityBuild>;

// What puts the number into a version of the kind, with the number as its value too.
fn put(kind: Kind, number: u64) -> Op<u64, u64> {
    match kind {
        Kind::List => Op::PushFront(number),
        Kind::Stack => Op::Push(number),
        Kind::Queue => Op::Enqueue(number),
        Kind::Vector => Op::PushBack(number),
        Kind::HashTrieMap | Kind::RedBlackTreeMap => Op::Insert(number, number),
        Kind::HashTrieSet | Kind::RedBlackTreeSet => Op::InsertItem(number),
    }
}

// Adds a version of the kind, with the numbers put in one by one.
fn add(rt: &impl Abort, table: &mut NumberTable, kind: Kind, numbers: &[u64]) {
    let index = table.len();
    let steps = &mut Steps::new();
    assert!(rt; table.apply(Command::Make(kind), steps) == Reply::Made(index));
    for number in numbers {
        let command = Command::Change(index, Mode::InPlace, put(kind, *number));
        assert!(rt; table.apply(command, steps) == Reply::Done(true));
    }
}

// Versions of the kind: of 2, of 1 and 5, of 2 again, and an empty one.
fn of_kind(rt: &impl Abort, alloc: Global, kind: Kind, one_and_five: &[u64]) -> NumberTable {
    let mut table = Table::new(alloc, IdentityBuild {});
    add(rt, &mut table, kind, &[2]);
    add(rt, &mut table, kind, one_and_five);
    add(rt, &mut table, kind, &[2]);
    add(rt, &mut table, kind, &[]);
    table
}

// Whether two versions are equal.
fn is_equal(table: &NumberTable, first: usize, second: usize) -> Option<bool> {
    match table.ask(&Question::Equal(first, second), &mut Steps::new()) {
        Answer::Truth(so) => Some(so),
        _ => None,
    }
}

fn order(table: &NumberTable, first: usize, second: usize) -> Option<Ordering> {
    match table.ask(&Question::Compare(first, second), &mut Steps::new()) {
        Answer::Order(ordering) => Some(ordering),
        _ => None,
    }
}

const EQUAL: [(usize, usize, bool); 4] = [(0, 2, true), (0, 0, true), (0, 1, false), (1, 3, false)];

// The first items that differ decide, and not how many there are.
const ORDERED: [(usize, usize, Ordering); 4] = [
    (0, 1, Ordering::Greater),
    (1, 0, Ordering::Less),
    (0, 2, Ordering::Equal),
    (3, 1, Ordering::Less),
];

// The kinds, with 1 and 5 in the order in which they are put in, and whether they have an order.
const KINDS: [(Kind, [u64; 2], bool); 8] = [
    (Kind::List, [5, 1], true),
    (Kind::Stack, [5, 1], true),
    (Kind::Queue, [1, 5], true),
    (Kind::Vector, [1, 5], true),
    (Kind::RedBlackTreeMap, [1, 5], true),
    (Kind::RedBlackTreeSet, [1, 5], true),
    (Kind::HashTrieMap, [1, 5], false),
    (Kind::HashTrieSet, [1, 5], false),
];

fn assert_compared(rt: &impl Abort, table: &NumberTable, is_ordered: bool) {
    for (first, second, wanted) in EQUAL {
        assert!(rt; is_equal(table, first, second) == Some(wanted));
    }
    for (first, second, wanted) in ORDERED {
        let wanted = if is_ordered { Some(wanted) } else { None };
        assert!(rt; order(table, first, second) == wanted);
    }
}

#[test]
fn each_kind(rt: HostRuntime) {
    for (kind, one_and_five, is_ordered) in KINDS {
        let table = of_kind(&rt, rt.alloc(), kind, &one_and_five);
        assert_compared(&rt, &table, is_ordered);
    }
}
