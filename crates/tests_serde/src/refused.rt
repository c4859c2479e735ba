//! Each allocation of each container that is read, refused in turn: the format's error of memory, and nothing is kept. Input
//! that ends too early, or has something else, is the format's own error, and nothing is kept either.
ghost use Rattle.std.specs.Prelude.{ℕ, List as Items};

use crate::digits::{Digits, Refusal};
use crate::refused::Kind::{OfItems, OfPairs};
use rpds_faults::{FailingAllocator, Faults, Refused};
use rpds_hash::map::hash_trie_map::{DefaultBuildHasher, HashTrieMap};
use rpds_hash::set::hash_trie_set::HashTrieSet;
use rpds_list::list::List;
use rpds_list::queue::Queue;
use rpds_list::stack::Stack;
use rpds_sequence::sequence::Sequence;
use rpds_serde::read::{Lent, read_map, read_sequence};
use rpds_tree::map::red_black_tree_map::RedBlackTreeMap;
use rpds_tree::set::red_black_tree_set::RedBlackTreeSet;
use rpds_vector::vector::Vector;
use serde::Deserializer;
use std::alloc::Global;
use std::iter::FromIterator;
use std::process::Abort;

// What is read of a sequence.
#[derive(Clone, Copy, Debug)]
enum KindOfItems {
    List,
    Stack,
    Queue,
    Vector,
    Sequence,
    HashTrieSet,
    RedBlackTreeSet,
}

// What is read of a map.
#[derive(Clone, Copy, Debug)]
enum KindOfPairs {
    HashTrieMap,
    RedBlackTreeMap,
}

#[derive(Clone, Copy, Debug)]
enum Kind {
    OfItems(KindOfItems),
    OfPairs(KindOfPairs),
}

// Each kind, and the least number of requests that four items, or two pairs, take.
const KINDS: [(Kind, u64); 9] = [
    (OfItems(KindOfItems::List), 4),
    (OfItems(KindOfItems::Stack), 4),
    (OfItems(KindOfItems::Queue), 4),
    (OfItems(KindOfItems::Vector), 1),
    (OfItems(KindOfItems::Sequence), 4),
    (OfItems(KindOfItems::HashTrieSet), 4),
    (OfItems(KindOfItems::RedBlackTreeSet), 4),
    (OfPairs(KindOfPairs::HashTrieMap), 2),
    (OfPairs(KindOfPairs::RedBlackTreeMap), 2),
];

type By<'a> = &'a FailingAllocator;

// Reads a container of items, and drops it.
fn items<'a, C: FromIterator<u64, Alloc = By<'a>> + Drop>(
    by: By<'a>,
    alloc: Global,
    input: &[u8],
) -> Result<(), Refusal>
    requires any { (items : Items ℕ) → C.can_from_iter items }
    requires all { (c : C) → C.is_complete c }
{
    let mut digits = Digits::new();
    let from = &mut Deserializer::new(input, &mut digits);
    read_sequence::<u64, C, Lent, By<'a>, Digits>(by, alloc, from)?;
    Ok(())
}

// The same of a container of pairs.
fn pairs<'a, C: FromIterator<(u64, u64), Alloc = By<'a>> + Drop>(
    by: By<'a>,
    alloc: Global,
    input: &[u8],
) -> Result<(), Refusal>
    requires any { (pairs : Items (ℕ × ℕ)) → C.can_from_iter pairs }
    requires all { (c : C) → C.is_complete c }
{
    let mut digits = Digits::new();
    let from = &mut Deserializer::new(input, &mut digits);
    read_map::<u64, u64, C, Lent, Lent, By<'a>, Digits>(by, alloc, from)?;
    Ok(())
}

fn items_of<'a>(kind: KindOfItems, by: By<'a>, alloc: Global, input: &[u8]) -> Result<(), Refusal> {
    match kind {
        KindOfItems::List => items::<List<u64, By<'a>>>(by, alloc, input),
        KindOfItems::Stack => items::<Stack<u64, By<'a>>>(by, alloc, input),
        KindOfItems::Queue => items::<Queue<u64, By<'a>>>(by, alloc, input),
        KindOfItems::Vector => items::<Vector<u64, By<'a>>>(by, alloc, input),
        KindOfItems::Sequence => items::<Sequence<u64, By<'a>>>(by, alloc, input),
        KindOfItems::HashTrieSet => {
            items::<HashTrieSet<u64, DefaultBuildHasher, By<'a>>>(by, alloc, input)
        }
        KindOfItems::RedBlackTreeSet => items::<RedBlackTreeSet<u64, By<'a>>>(by, alloc, input),
    }
}

fn pairs_of<'a>(kind: KindOfPairs, by: By<'a>, alloc: Global, input: &[u8]) -> Result<(), Refusal> {
    match kind {
        KindOfPairs::HashTrieMap => {
            pairs::<HashTrieMap<u64, u64, DefaultBuildHasher, By<'a>>>(by, alloc, input)
        }
        KindOfPairs::RedBlackTreeMap => {
            pairs::<RedBlackTreeMap<u64, u64, By<'a>>>(by, alloc, input)
        }
    }
}

// Reads a container of these digits between its brackets, and drops it.
fn read(kind: Kind, faults: &Faults, alloc: Global, inputs: [&str; 2]) -> Result<(), Refusal> {
    let [of_items, of_pairs] = inputs;
    match kind {
        OfItems(kind) => items_of(kind, &faults.alloc, alloc, of_items.as_bytes()),
        OfPairs(kind) => pairs_of(kind, &faults.alloc, alloc, of_pairs.as_bytes()),
    }
}

// Refuses this allocation, and tells whether it came. If so the format's error of memory is answered, else nothing is wrong.
fn is_refused_at(rt: &impl Abort, kind: Kind, faults: &Faults, alloc: Global, nth: u64) -> bool {
    faults.refuse(Refused::Request, nth);
    let answer = read(kind, faults, alloc, ["[1231]", "{1221}"]);
    let is_refused = faults.was_refused(Refused::Request, nth);
    let wanted = if is_refused {
        Err(Refusal::NoMemory)
    } else {
        Ok(())
    };
    assert!(rt; answer == wanted, "{kind:?}, allocation {nth}: {answer:?}");
    assert!(rt;
        faults.is_all_freed(),
        "{kind:?}, allocation {nth} leaves memory"
    );
    is_refused
}

// How many allocations were refused.
fn refused_in_turn(rt: &impl Abort, kind: Kind, faults: &Faults, alloc: Global) -> u64 {
    for nth in 1..100u64 {
        if !is_refused_at(rt, kind, faults, alloc, nth) {
            return nth - 1;
        }
    }
    panic!(rt; "each allocation of {kind:?} was refused");
}

#[test]
fn each_allocation(rt: HostRuntime) {
    let faults = Faults::new(rt.alloc());
    for (kind, least) in KINDS {
        let refused = refused_in_turn(&rt, kind, &faults, rt.alloc());
        assert!(rt; least <= refused, "{kind:?}: {refused}");
    }
}

// Sequences and maps that aren't there, end too early, or have something else in their middle.
const WRONG: [[&str; 2]; 4] = [
    ["", ""],
    ["{1221}", "[1231]"],
    ["[123", "{122"],
    ["[12a3]", "{12a1}"],
];

fn assert_not_there(rt: &impl Abort, kind: Kind, faults: &Faults, alloc: Global) {
    for inputs in WRONG {
        let answer = read(kind, faults, alloc, inputs);
        assert!(rt;
            answer == Err(Refusal::NotThere),
            "{kind:?} of {inputs:?}: {answer:?}"
        );
        assert!(rt;
            faults.is_all_freed(),
            "{kind:?} of {inputs:?} leaves memory"
        );
    }
}

#[test]
fn what_does_not_fit(rt: HostRuntime) {
    let faults = Faults::new(rt.alloc());
    for (kind, _) in KINDS {
        assert_not_there(&rt, kind, &faults, rt.alloc());
    }
}
