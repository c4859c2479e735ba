//! Each allocation of each macro refused in turn: no container is made, all that was evaluated is dropped once, and the
//! arguments that are left aren't evaluated.
use crate::macros::made::{
    Items, hashed_map_of, hashed_set_of, list_of, ordered_map_of, ordered_set_of, queue_of,
    stack_of, vector_of,
};
use rpds_faults::{FailingItem, Faults, LifeCounts, Refused};
use std::alloc::AllocError;
use std::process::Abort;

#[derive(Clone, Copy, Debug)]
enum Macro {
    List,
    Stack,
    Queue,
    Vector,
    HashTrieMap,
    HashTrieSet,
    RedBlackTreeMap,
    RedBlackTreeSet,
}

const MACROS: [Macro; 8] = [
    Macro::List,
    Macro::Stack,
    Macro::Queue,
    Macro::Vector,
    Macro::HashTrieMap,
    Macro::HashTrieSet,
    Macro::RedBlackTreeMap,
    Macro::RedBlackTreeSet,
];

impl<'t> Items<FailingItem<'t>> for &'t LifeCounts {
    fn item(&self, number: u64) -> FailingItem<'t> {
        FailingItem::new(number, *self)
    }
}

fn failed<T: Drop>(made: Result<T, AllocError>) -> bool {
    made.is_err()
}

// Whether no container was made.
fn is_refused(made: Macro, faults: &Faults) -> bool {
    let counts = &faults.counts;
    let alloc = &faults.alloc;
    match made {
        Macro::List => failed(list_of(&counts, alloc)),
        Macro::Stack => failed(stack_of(&counts, alloc)),
        Macro::Queue => failed(queue_of(&counts, alloc)),
        Macro::Vector => failed(vector_of(&counts, alloc)),
        Macro::HashTrieMap => failed(hashed_map_of(&counts, alloc)),
        Macro::HashTrieSet => failed(hashed_set_of(&counts, alloc)),
        Macro::RedBlackTreeMap => failed(ordered_map_of(&counts, alloc)),
        Macro::RedBlackTreeSet => failed(ordered_set_of(&counts, alloc)),
    }
}

// How many arguments are evaluated before the first allocation.
fn first(made: Macro) -> u64 {
    match made {
        Macro::HashTrieMap | Macro::RedBlackTreeMap => 2,
        _ => 1,
    }
}

// Refuses this allocation, and returns whether no container was made. All that was evaluated is dropped then, and after the
// first allocation the arguments that are left weren't evaluated.
fn refused_at(rt: &impl Abort, made: Macro, faults: &Faults, nth: u64) -> bool {
    let drops = faults.counts.drops();
    faults.refuse(Refused::Request, nth);
    let refused = is_refused(made, faults);
    let is_told = refused == faults.was_refused(Refused::Request, nth);
    let evaluated = faults.counts.drops().wrapping_sub(drops);
    let is_stopped = nth > 1 || evaluated == first(made);
    assert!(rt;
        is_told && is_stopped && faults.counts.living() == 0,
        "{made:?}, allocation {nth}: {evaluated}"
    );
    refused
}

// How many allocations were refused.
fn refused_in_turn(rt: &impl Abort, made: Macro, faults: &Faults) -> u64 {
    for nth in 1..100u64 {
        if !refused_at(rt, made, faults, nth) {
            return nth - 1;
        }
    }
    panic!(rt; "each allocation of {made:?} was refused");
}

#[test]
fn each_allocation_of_each_macro(rt: HostRuntime) {
    let faults = Faults::new(rt.alloc());
    for made in MACROS {
        let refused = refused_in_turn(&rt, made, &faults);
        assert!(rt; 4 <= refused, "{made:?}: {refused}");
    }
}
