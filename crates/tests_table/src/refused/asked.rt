//! Tables where the next allocation and the next clone are refused: what they refuse, and what they are asked.
use crate::refused::table::{Change, FailingTable, KINDS, TableCommand, command, put};
use rpds_core::steps::Steps;
use rpds_faults::{FailingItem, Faults, FlooredBuild, LifeCounts};
use rpds_table::table::Mode::{InPlace, New};
use rpds_table::table::Refusal::{BadBits, BadDegree, NoVersion, NotAscending, WrongKind};
use rpds_table::table::{Answer, Command, Kind, Question, Refusal, Reply, Table};
use std::ops::Bound::{Excluded, Included};
use std::process::Abort;

// An empty version of each kind, and from 8 on one of each that has the numbers 0 to 3.
fn of_all_kinds<'t>(rt: &impl Abort, faults: &'t Faults) -> FailingTable<'t> {
    let mut table = Table::new(&faults.alloc, FlooredBuild::new(2, &faults.counts));
    let steps = &mut Steps::new();
    for index in 0..16usize {
        let kind = KINDS[index % 8];
        assert!(rt; table.apply(Command::Make(kind), steps) == Reply::Made(index));
        if index >= 8 {
            for number in 0..4u64 {
                let change = Command::Change(index, InPlace, put(kind, number, &faults.counts));
                assert!(rt; table.apply(change, steps) == Reply::Done(true));
            }
        }
    }
    table
}

// The commands, the kinds and the versions that they name, and why they are refused.
const REFUSED: [(TableCommand, Kind, usize, Refusal); 21] = [
    (TableCommand::Copy, Kind::List, 16, NoVersion),
    (
        TableCommand::Change(InPlace, Change::Put),
        Kind::Stack,
        16,
        NoVersion,
    ),
    (
        TableCommand::Change(New, Change::Take),
        Kind::Stack,
        16,
        NoVersion,
    ),
    (TableCommand::Extend, Kind::Vector, 16, NoVersion),
    (TableCommand::WriteAt, Kind::Vector, 16, NoVersion),
    (TableCommand::WriteKey, Kind::HashTrieMap, 16, NoVersion),
    (
        TableCommand::Change(InPlace, Change::Put),
        Kind::Stack,
        8,
        WrongKind,
    ),
    (
        TableCommand::Change(New, Change::Set),
        Kind::Vector,
        9,
        WrongKind,
    ),
    (
        TableCommand::Change(InPlace, Change::Set),
        Kind::Vector,
        10,
        WrongKind,
    ),
    (TableCommand::Extend, Kind::Vector, 12, WrongKind),
    (TableCommand::WriteAt, Kind::Vector, 13, WrongKind),
    (TableCommand::WriteKey, Kind::HashTrieMap, 15, WrongKind),
    (TableCommand::MakeDegree(64), Kind::List, 0, WrongKind),
    (TableCommand::MakeBits(0), Kind::Vector, 0, BadBits),
    (TableCommand::MakeBits(64), Kind::Vector, 0, BadBits),
    (TableCommand::MakeDegree(3), Kind::HashTrieMap, 0, BadDegree),
    (TableCommand::MakeDegree(1), Kind::HashTrieSet, 0, BadDegree),
    (
        TableCommand::MakeDegree(1),
        Kind::RedBlackTreeSet,
        0,
        WrongKind,
    ),
    (
        TableCommand::Change(InPlace, Change::Put),
        Kind::Stack,
        14,
        WrongKind,
    ),
    (
        TableCommand::MakeSorted,
        Kind::RedBlackTreeMap,
        0,
        NotAscending(2),
    ),
    (
        TableCommand::MakeSortedItems,
        Kind::RedBlackTreeSet,
        0,
        NotAscending(1),
    ),
];

// The command is refused for this reason. Its number, 1, gives a list that doesn't ascend.
fn assert_refused<'t>(
    rt: &impl Abort,
    table: &mut FailingTable<'t>,
    row: (TableCommand, Kind, usize, Refusal),
    faults: &'t Faults,
) {
    let (call, kind, index, refusal) = row;
    let command = command(call, kind, index, 1, faults).expect(rt, "ample memory");
    faults.refuse_next();
    let answer = table.apply(command, &mut Steps::new());
    let is_right = answer == Reply::Refused(refusal);
    assert!(rt;
        faults.none_came() && is_right,
        "{answer:?} for {refusal:?}"
    );
}

#[test]
fn commands(rt: HostRuntime) {
    let faults = Faults::new(rt.alloc());
    let mut table = of_all_kinds(&rt, &faults);
    for row in REFUSED {
        assert_refused(&rt, &mut table, row, &faults);
    }
}

// From the one number on, and below the other.
fn range<'t>(
    index: usize,
    low: u64,
    high: u64,
    counts: &'t LifeCounts,
) -> Question<FailingItem<'t>> {
    Question::Range(
        index,
        Included(FailingItem::new(low, counts)),
        Excluded(FailingItem::new(high, counts)),
    )
}

// What is answered by no range.
fn plain<'t>(
    index: usize,
    other: usize,
    counts: &'t LifeCounts,
) -> [Question<FailingItem<'t>>; 11] {
    [
        Question::First(index),
        Question::Last(index),
        Question::At(index, 1),
        Question::Key(index, FailingItem::new(1, counts)),
        Question::Size(index),
        Question::Contains(index, FailingItem::new(1, counts)),
        Question::Equal(index, other),
        Question::Compare(index, other),
        Question::Disjoint(index, other),
        Question::Subset(index, other),
        range(index, 3, 1, counts),
    ]
}

// How many pairs or members the answer has, if it is a range.
fn walked<'t>(table: &FailingTable<'t>, question: &Question<FailingItem<'t>>) -> usize {
    let mut count = 0usize;
    match table.ask(question, &mut Steps::new()) {
        Answer::Pairs(pairs) => {
            for _ in pairs.iter() {
                count = count.wrapping_add(1);
            }
        }
        Answer::Members(members) => {
            for _ in members.iter() {
                count = count.wrapping_add(1);
            }
        }
        _ => {}
    }
    count
}

// The question is answered without memory. `count` is how many items are in its range, 0 where it is answered by none.
fn assert_answered<'t>(
    rt: &impl Abort,
    table: &FailingTable<'t>,
    question: &Question<FailingItem<'t>>,
    count: usize,
    faults: &'t Faults,
) {
    faults.refuse_next();
    let is_right = walked(table, question) == count;
    assert!(rt; faults.none_came() && is_right, "{question:?}");
}

// The numbers 1 and 2 are in the range.
fn assert_asked<'t>(
    rt: &impl Abort,
    table: &FailingTable<'t>,
    index: usize,
    other: usize,
    faults: &'t Faults,
) {
    let plain = plain(index, other, &faults.counts);
    let range = range(index, 1, 3, &faults.counts);
    let in_range: usize = if index == 14 || index == 15 { 2 } else { 0 };
    for question in &plain {
        assert_answered(rt, table, question, 0, faults);
    }
    assert_answered(rt, table, &range, in_range, faults);
}

fn looks<'t>(table: &FailingTable<'t>, faults: &'t Faults) -> bool {
    let empty: FailingTable = Table::new(&faults.alloc, FlooredBuild::new(2, &faults.counts));
    table.len() == 16
        && table.version(15).is_some()
        && table.version(16).is_none()
        && empty.len() == 0
}

#[test]
fn questions(rt: HostRuntime) {
    let faults = Faults::new(rt.alloc());
    let table = of_all_kinds(&rt, &faults);
    faults.refuse_next();
    assert!(rt; looks(&table, &faults) && faults.none_came());
    for index in 0..=16usize {
        for other in 0..=16usize {
            assert_asked(&rt, &table, index, other, &faults);
        }
    }
}
