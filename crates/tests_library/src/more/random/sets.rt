//! Sets of both kinds beside std's.
use rpds_faults::Numbers;
use rpds_hash::set::hash_trie_set::HashTrieSet;
use rpds_tree::set::red_black_tree_set::RedBlackTreeSet;
use std::alloc::AllocError;
use std::collections::BTreeSet;
use std::process::Abort;

type Model = BTreeSet<u64>;

// A set of numbers of either kind.
trait NumberSet: Sized + Drop {
    // Keeps some members, or puts some in.
    fn change(&mut self, value: u64, kind: u64) -> Result<(), AllocError>;

    fn share(&self) -> Result<Self, AllocError>;

    fn has(&self, value: u64) -> bool;

    fn count(&self) -> usize;
}

// Whether a member stays.
fn stays(member: u64, value: u64) -> bool {
    (member ^ value) % 8 != 0
}

// The values that are put in together: one comes twice.
fn values(value: u64) -> [u64; 4] {
    [value, value / 2, value, value / 3]
}

impl NumberSet for HashTrieSet<u64> {
    fn change(&mut self, value: u64, kind: u64) -> Result<(), AllocError> {
        if kind % 3 == 0 {
            return self.retain(|member| stays(*member, value));
        }
        self.extend(values(value))
    }

    fn share(&self) -> Result<Self, AllocError> {
        self.clone()
    }

    fn has(&self, value: u64) -> bool {
        self.contains(&value)
    }

    fn count(&self) -> usize {
        self.size()
    }
}

impl NumberSet for RedBlackTreeSet<u64> {
    fn change(&mut self, value: u64, kind: u64) -> Result<(), AllocError> {
        if kind % 3 == 0 {
            return self.retain(|member| stays(*member, value));
        }
        self.extend(values(value))
    }

    fn share(&self) -> Result<Self, AllocError> {
        RedBlackTreeSet::clone(self)
    }

    fn has(&self, value: u64) -> bool {
        self.contains(&value)
    }

    fn count(&self) -> usize {
        self.size()
    }
}

// The same of std's set.
fn change_model(rt: &impl Abort, model: &mut Model, value: u64, kind: u64) {
    if kind % 3 == 0 {
        model.retain(|member| stays(*member, value));
        return;
    }
    for value in values(value) {
        let stored: Result<_, _> = model.insert(value);
        assert!(rt; stored.is_ok());
    }
}

// Both have the same members.
fn assert_same<S: NumberSet>(rt: &impl Abort, set: &S, model: &Model, limit: u64) {
    assert!(rt; set.count() == model.len());
    for value in 0..limit {
        assert!(rt; set.has(value) == model.contains(&value));
    }
}

// Calls, after which a version from before them has the members that it had.
fn calls<S: NumberSet>(
    rt: &impl Abort,
    set: &mut S,
    model: &mut Model,
    numbers: &mut Numbers,
    limit: u64,
) {
    let older = set.share().expect(rt, "ample memory");
    let before = model.clone().expect(rt, "ample memory");
    for _ in 0..60u64 {
        let (value, kind) = (numbers.next() % limit.max(1), numbers.next());
        set.change(value, kind).expect(rt, "ample memory");
        change_model(rt, model, value, kind);
    }
    assert_same(rt, set, model, limit);
    assert_same(rt, &older, &before, limit);
}

// Calls among few numbers, and among many.
fn run<S: NumberSet>(rt: &impl Abort, set: S, model: Model) {
    let mut numbers = Numbers::new();
    let mut set = set;
    let mut model = model;
    for limit in [2, 20, 200, 20, 200, 2] {
        calls(rt, &mut set, &mut model, &mut numbers, limit);
    }
}

#[test]
fn a_hashed_set_agrees_with_std(rt: HostRuntime) {
    run(&rt, HashTrieSet::new(rt.alloc()), BTreeSet::new(rt.alloc()));
}

#[test]
fn an_ordered_set_agrees_with_std(rt: HostRuntime) {
    run(
        &rt,
        RedBlackTreeSet::new(rt.alloc()),
        BTreeSet::new(rt.alloc()),
    );
}
