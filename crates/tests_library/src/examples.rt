//! An example for each container, those of the README among them.
use rpds::steps::Steps;
use rpds::table::{Answer, Command, IdentityBuild, Kind, Mode, Op, Question, Reply, Table};
use rpds::{
    HashTrieMap, HashTrieSet, List, Queue, RedBlackTreeMap, RedBlackTreeSet, Stack, Vector,
};
use std::alloc::{AllocError, Global};
use std::test::Fail;

#[test]
fn two_lists(rt: HostRuntime) -> Result<(), Fail> {
    let list = List::new(rt.alloc()).push_front("list")?;
    let a_list = list.push_front("a")?;

    assert!(rt; a_list.first() == Some(&"a"));
    assert!(rt; list.first() == Some(&"list")); // the old version stays
    Ok(())
}

fn h_and_hi(alloc: Global) -> Result<Stack<&'static str>, AllocError> {
    Stack::new(alloc).push("h")?.push("hi")
}

#[test]
fn an_undo_stack(rt: HostRuntime) {
    let typed = h_and_hi(rt.alloc()).expect(&rt, "ample memory");
    let undone = typed
        .pop()
        .expect(&rt, "ample memory")
        .expect(&rt, "a stack");

    assert!(rt; typed.peek() == Some(&"hi"));
    assert!(rt; undone.peek() == Some(&"h"));
}

fn one_and_two(alloc: Global) -> Result<Queue<u64>, AllocError> {
    Queue::new(alloc).enqueue(1)?.enqueue(2)
}

#[test]
fn two_queues(rt: HostRuntime) {
    let jobs = one_and_two(rt.alloc()).expect(&rt, "ample memory");
    let mut rest = jobs.clone().expect(&rt, "ample memory");
    rest.dequeue_mut().expect(&rt, "ample memory");

    assert!(rt; rest.peek() == Some(&2));
    assert!(rt; jobs.peek() == Some(&1));
}

fn undo_me(alloc: Global) -> Result<Vector<&'static str>, AllocError> {
    Vector::new(alloc).push_back("undo")?.push_back("me")
}

#[test]
fn two_vectors(rt: HostRuntime) {
    let words = undo_me(rt.alloc()).expect(&rt, "ample memory");
    let mut others = words.clone().expect(&rt, "ample memory");
    others.set_mut(1, "that").expect(&rt, "ample memory");

    assert!(rt; others.get(1) == Some(&"that"));
    assert!(rt; words.get(1) == Some(&"me"));
}

#[test]
fn two_scopes(rt: HostRuntime) {
    let outer = HashTrieMap::new(rt.alloc());
    let inner = outer.insert("x", 1).expect(&rt, "ample memory");

    assert!(rt; inner.get(&"x") == Some(&1));
    assert!(rt; outer.get(&"x").is_none());
}

#[test]
fn two_maps(rt: HostRuntime) -> Result<(), Fail> {
    let defaults = RedBlackTreeMap::new(rt.alloc());
    let settings = defaults.insert("depth", 3)?;
    let changed = settings.insert("depth", 5)?;

    assert!(rt; changed.get(&"depth") == Some(&5));
    assert!(rt; settings.get(&"depth") == Some(&3));
    Ok(())
}

#[test]
fn two_hashed_sets(rt: HostRuntime) {
    let guest = HashTrieSet::new(rt.alloc());
    let editor = guest.insert("write").expect(&rt, "ample memory");

    assert!(rt; editor.contains(&"write"));
    assert!(rt; guest.is_empty());
}

#[test]
fn two_sets(rt: HostRuntime) {
    let none = RedBlackTreeSet::new(rt.alloc());
    let marked = none.insert(3).expect(&rt, "ample memory");

    assert!(rt; marked.last() == Some(&3));
    assert!(rt; none.last().is_none());
}

#[test]
fn a_table_that_rolls_back(rt: HostRuntime) {
    let mut steps = Steps::new();
    let mut table: Table<u64, i32, IdentityBuild> = Table::new(rt.alloc(), IdentityBuild {});
    let _ = table.apply(Command::Make(Kind::RedBlackTreeMap), &mut steps);
    let saved = table.apply(Command::Copy(0), &mut steps);
    let _ = table.apply(
        Command::Change(0, Mode::InPlace, Op::Insert(7, 70)),
        &mut steps,
    );

    assert!(rt; saved == Reply::Made(1));
    assert!(rt;
        matches!(
            table.ask(&Question::Contains(0, 7), &mut steps),
            Answer::Truth(true)
        )
    );
    assert!(rt;
        matches!(
            table.ask(&Question::Contains(1, 7), &mut steps),
            Answer::Truth(false)
        )
    );
}
