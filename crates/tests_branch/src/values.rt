//! Random branches beside std's maps: what changed beside the difference of the whole maps, and merges beside a merge key by key.
//! And the requests of a change.
use rpds_branch::branch::{Branch, Changes, Merged};
use rpds_core::steps::Steps;
use rpds_faults::{FailingAllocator, Numbers, requests};
use rpds_tree::map::red_black_tree_map::{MapChange, RedBlackTreeMap};
use std::cell::Cell;
use std::collections::BTreeMap;
use std::iter::FusedIterator;
use std::process::Abort;

type NumberMap = RedBlackTreeMap<u64, u64>;

type NumberBranch = Branch<u64, u64>;

type Plain = BTreeMap<u64, u64>;

// A branch, and std's map of the same pairs.
#[derive(Drop)]
struct Both {
    branch: NumberBranch,
    plain: Plain,
}

// All keys are below this number.
const KEYS: u64 = 40;

fn base_of(rt: &(impl Abort + AllocGlobal), numbers: &mut Numbers, count: u64) -> NumberMap {
    let mut map = RedBlackTreeMap::new(rt.alloc());
    for _ in 0..count {
        map.insert_mut(numbers.next() % KEYS, numbers.next() % 4)
            .expect(rt, "ample memory");
    }
    map
}

fn branch_of(rt: &(impl Abort + AllocGlobal), base: &NumberMap) -> Both {
    let mut plain = BTreeMap::new(rt.alloc());
    for (key, value) in base {
        put(rt, &mut plain, *key, Some(*value));
    }
    Both {
        branch: Branch::new(base).expect(rt, "ample memory"),
        plain,
    }
}

// Puts the value in, or takes the key out.
fn put(rt: &impl Abort, plain: &mut Plain, key: u64, value: Option<u64>) {
    match value {
        Some(value) => {
            let stored: Result<_, _> = plain.insert(key, value);
            assert!(rt; stored.is_ok());
        }
        None => {
            plain.remove(&key);
        }
    }
}

// The change of the number, persistent or in place.
fn changed(
    rt: &impl Abort,
    branch: &mut NumberBranch,
    key: u64,
    value: u64,
    kind: u64,
) -> Option<u64> {
    let memory = "ample memory";
    match kind % 8 {
        0 => *branch = branch.insert(key, value).expect(rt, memory),
        1 | 2 => branch.insert_mut(key, value).expect(rt, memory),
        3 => *branch = branch.remove(&key).expect(rt, memory),
        4 => {
            let there = branch.current().contains_key(&key);
            assert!(rt; branch.remove_mut(&key) == Ok(there));
        }
        5 => *branch = branch.revert(&key).expect(rt, memory),
        6 => branch.revert_mut(&key).expect(rt, memory),
        _ => branch.update_mut(key, |_| Ok(value)).expect(rt, memory),
    }
    match kind % 8 {
        3 | 4 => None,
        5 | 6 => branch.base().get(&key).copied(),
        _ => Some(value),
    }
}

fn change(rt: &impl Abort, both: &mut Both, numbers: &mut Numbers) {
    let key = numbers.next() % KEYS;
    let value = changed(
        rt,
        &mut both.branch,
        key,
        numbers.next() % 4,
        numbers.next(),
    );
    put(rt, &mut both.plain, key, value);
}

fn assert_same(rt: &impl Abort, map: &NumberMap, plain: &Plain) {
    let mut walk = map.iter();
    for pair in plain {
        assert!(rt; walk.next() == Some(pair));
    }
    assert!(rt; walk.next().is_none());
}

// The changes are those that the whole maps tell.
fn assert_changes(rt: &impl Abort, branch: &NumberBranch) {
    let mut whole = branch.base().diff(branch.current());
    for change in branch.changes() {
        assert!(rt; whole.next() == Some(change));
    }
    assert!(rt; whole.next().is_none());
    assert!(rt; branch.is_changed() == branch.changes().next().is_some());
    assert_listed(rt, branch);
}

// The list of the changes has those of the walk.
fn assert_listed(rt: &impl Abort, branch: &NumberBranch) {
    let listed = branch.list_changes().expect(rt, "ample memory");
    let counted = branch
        .list_changes_counted(&mut Steps::new())
        .expect(rt, "ample memory");
    assert!(rt; listed == counted);
    let mut told = listed.iter();
    for change in branch.changes() {
        assert!(rt; told.next() == Some(&change));
    }
    assert!(rt; told.next().is_none());
}

// What a key has, in the order base, ours, theirs.
fn values(
    ours: &NumberBranch,
    theirs: &Plain,
    key: u64,
) -> (Option<u64>, Option<u64>, Option<u64>) {
    (
        ours.base().get(&key).copied(),
        ours.current().get(&key).copied(),
        theirs.get(&key).copied(),
    )
}

// The value that a merge has, or that there is a conflict.
fn merged(base: Option<u64>, ours: Option<u64>, theirs: Option<u64>) -> Result<Option<u64>, ()> {
    if theirs == base || theirs == ours {
        Ok(ours)
    } else if ours == base {
        Ok(theirs)
    } else {
        Err(())
    }
}

// Where both changed the key: the sum of both values, if there are both.
fn sum(_key: &u64, _base: Option<&u64>, ours: Option<&u64>, theirs: Option<&u64>) -> Option<u64> {
    match (ours, theirs) {
        (Some(ours), Some(theirs)) => Some(ours.wrapping_add(*theirs)),
        _ => None,
    }
}

// A merge of the whole maps gives the same.
fn assert_merged_by_maps(rt: &impl Abort, ours: &Both, theirs: &Both, settled: &NumberMap) {
    let base = ours.branch.base();
    let (ours, theirs) = (ours.branch.current(), theirs.branch.current());
    let whole = base
        .merge(ours, theirs, |key, base, ours, theirs| {
            Ok(sum(key, base, ours, theirs))
        })
        .expect(rt, "ample memory");
    assert!(rt; whole == *settled);
}

// A merge of the whole maps that leaves conflicts gives the same, and lists the same conflicts.
fn assert_left_by_maps(rt: &impl Abort, ours: &Both, theirs: &Both, left: &Merged<'_, u64, u64>) {
    let base = ours.branch.base();
    let (ours, theirs) = (ours.branch.current(), theirs.branch.current());
    let whole = base.merge_ours(ours, theirs).expect(rt, "ample memory");
    assert!(rt; whole.map == *left.branch.current());
    assert!(rt; whole.conflicts == left.conflicts);
}

// A merge asks once at each conflict, and at no other key.
fn assert_asked_once(rt: &impl Abort, ours: &Both, theirs: &Both, conflicts: usize) {
    let calls = Cell::new(0usize);
    let settled = ours
        .branch
        .merge(&theirs.branch, |_key, _base, _ours, _theirs| {
            calls.set(calls.get().wrapping_add(1));
            Ok(None)
        });
    assert!(rt; settled.is_ok() && calls.get() == conflicts);
}

// Each key has what a merge key by key gives it, and the conflicts are listed in order.
fn assert_merged(rt: &(impl Abort + AllocGlobal), ours: &Both, theirs: &Both) {
    let left = ours
        .branch
        .merge_ours(&theirs.branch)
        .expect(rt, "ample memory");
    let settled = ours
        .branch
        .merge(&theirs.branch, |key, base, ours, theirs| {
            Ok(sum(key, base, ours, theirs))
        })
        .expect(rt, "ample memory");
    assert_merged_by_maps(rt, ours, theirs, settled.current());
    assert_left_by_maps(rt, ours, theirs, &left);
    assert_asked_once(rt, ours, theirs, left.conflicts.len());
    let mut conflicts = left.conflicts.iter();
    for key in 0..KEYS {
        let (base, our, their) = values(&ours.branch, &theirs.plain, key);
        let (left_there, settled_there) = match merged(base, our, their) {
            Ok(value) => (value, value),
            Err(()) => {
                assert!(rt; conflicts.next() == Some(&&key));
                (our, sum(&key, None, our.as_ref(), their.as_ref()))
            }
        };
        assert!(rt; left.branch.current().get(&key) == left_there.as_ref());
        assert!(rt; settled.current().get(&key) == settled_there.as_ref());
    }
    assert!(rt; conflicts.next().is_none());
    assert_changes(rt, &left.branch);
    assert_changes(rt, &settled);
}

// Two branches of a base of up to so many pairs, each with so many changes.
fn assert_round(rt: &(impl Abort + AllocGlobal), numbers: &mut Numbers, pairs: u64, changes: u64) {
    let base = base_of(rt, numbers, pairs);
    let mut ours = branch_of(rt, &base);
    let mut theirs = branch_of(rt, &base);
    for _ in 0..changes {
        change(rt, &mut ours, numbers);
        change(rt, &mut theirs, numbers);
    }
    assert_same(rt, ours.branch.current(), &ours.plain);
    assert_changes(rt, &ours.branch);
    assert_merged(rt, &ours, &theirs);
}

#[test]
fn agrees_with_std_maps(rt: HostRuntime) {
    let mut numbers = Numbers::new();
    for round in 0..300u64 {
        assert_round(&rt, &mut numbers, round % 90, round % 31);
    }
}

fn map_of(rt: &(impl Abort + AllocGlobal), pairs: &[(u64, u64)]) -> NumberMap {
    let mut map = RedBlackTreeMap::new(rt.alloc());
    for (key, value) in pairs {
        map.insert_mut(*key, *value).expect(rt, "ample memory");
    }
    map
}

// A branch in which 1 has another value, 2 is out, and 4 is in.
fn changed_branch(rt: &impl Abort, base: &NumberMap) -> NumberBranch {
    let memory = "ample memory";
    let mut branch = Branch::new(base).expect(rt, memory);
    branch.insert_mut(1, 11).expect(rt, memory);
    branch.insert_mut(4, 40).expect(rt, memory);
    assert!(rt; branch.remove_mut(&2) == Ok(true));
    branch
}

// The other map has put in 4 too, with another value.
fn assert_rebased(rt: &impl Abort, branch: &NumberBranch, onto: &NumberMap, wanted: &NumberMap) {
    let rebased = branch.rebase(onto).expect(rt, "ample memory");
    assert!(rt; rebased.branch.base() == onto);
    assert!(rt; rebased.branch.current() == wanted);
    let mut conflicts = rebased.conflicts.iter();
    assert!(rt; conflicts.next() == Some(&&4));
    assert!(rt; conflicts.next().is_none());
    assert_changes(rt, &rebased.branch);
    let counted = branch
        .rebase_counted(onto, &mut Steps::new())
        .expect(rt, "ample memory");
    assert!(rt; counted.branch.base() == onto && counted.branch.current() == wanted);
    assert!(rt; counted.conflicts == rebased.conflicts);
}

#[test]
fn a_branch_goes_to_another_map(rt: HostRuntime) {
    let base = map_of(&rt, &[(1, 10), (2, 20), (3, 30)]);
    let onto = map_of(&rt, &[(1, 10), (2, 20), (3, 33), (4, 44)]);
    let wanted = map_of(&rt, &[(1, 11), (3, 33), (4, 44)]);
    let branch = changed_branch(&rt, &base);
    assert_rebased(&rt, &branch, &onto, &wanted);
}

// Whether the walk gives nothing more.
fn is_over<T: Drop, I: FusedIterator<Item = T>>(walk: &mut I) -> bool
    requires { I.can_next walk.now }
{
    walk.next().is_none()
}

// The walk gives the last two changes of `changed_branch`, and nothing behind them.
fn assert_last_two(rt: &impl Abort, mut walk: Changes<'_, u64, u64>) {
    assert!(rt; walk.next() == Some(MapChange::Removed(&2, &20)));
    assert!(rt; walk.next() == Some(MapChange::Added(&4, &40)));
    assert!(rt; is_over(&mut walk) && is_over(&mut walk));
}

// A copy goes on from the same place.
#[test]
fn copies_of_changes(rt: HostRuntime) {
    let base = map_of(&rt, &[(1, 10), (2, 20), (3, 30)]);
    let branch = changed_branch(&rt, &base);
    let mut changes = branch.changes();
    assert!(rt; changes.next() == Some(MapChange::Changed(&1, &10, &11)));
    let copy = changes.clone().expect(&rt, "ample memory");
    assert_last_two(&rt, changes);
    assert_last_two(&rt, copy);
}

// One pair in a branch: the pair, a node of each map, and nothing else.
#[test]
fn a_new_pair_of_a_branch_takes_three_requests(rt: HostRuntime) {
    let alloc = FailingAllocator::new(rt.alloc());
    let base: RedBlackTreeMap<u64, u64, _> = RedBlackTreeMap::new(&alloc);
    let mut branch = Branch::new(&base).expect(&rt, "ample memory");
    let _before = requests(&alloc);
    branch.insert_mut(1, 1).expect(&rt, "ample memory");
    assert!(rt; requests(&alloc) == 3);
}
