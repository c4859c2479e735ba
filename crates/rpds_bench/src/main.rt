//! Runs calls of the containers on many keys, so that `./bench` can count what they cost.
//!
//! `rpds_bench N` runs each case on N keys, `rpds_bench N List::push_front` the one of that name. It prints how many calls each
//! made, and its name. `rpds_bench N List::push_front 9` runs that one in nine rounds, and prints the nanoseconds of each.
#![tactic(auto)]

mod arenas;
mod arrays;
mod branches;
mod cases;
mod edits;
mod hash_trie_map;
mod hash_trie_set;
mod interned;
mod keyed;
mod keys;
mod list;
mod measured;
mod middle;
mod one_hash;
mod queue;
mod red_black_tree_map;
mod red_black_tree_set;
mod sequence;
mod stack;
mod subject;
mod texts;
mod uses;
mod vector;
mod whole_maps;
mod whole_sets;

use cases::Cases;
use keys::Keys;
use std::{env, io};

fn main(rt: HostRuntime) -> io::Result<()> {
    let mut words = env::args(&rt)?;
    let _program = words.next();
    let count = words
        .next()
        .and_then(|word| word.as_str().parse::<usize>().ok())
        .unwrap_or(0);
    let asked = words.next();
    let rounds = words
        .next()
        .and_then(|word| word.as_str().parse::<usize>().ok());
    let keys = Keys::new(rt.alloc(), count)?;
    let few = Keys::new(rt.alloc(), count.min(1000))?;
    let cases = Cases {
        rt: &rt,
        asked: asked.as_ref().and_then(|asked| asked.split_once("::")),
        rounds,
        keys: &keys,
        container: "",
    };
    run(&cases, &few)
}

// Runs the cases that are asked for, and tells the first error.
fn run<'a>(cases: &Cases<'a>, few: &'a Keys) -> io::Result<()> {
    list::run(&cases.of("List"))
        .and(stack::run(&cases.of("Stack")))
        .and(queue::run(&cases.of("Queue")))
        .and(vector::run(&cases.of("Vector")))
        .and(middle::run(&cases.of("Sequence")))
        .and(red_black_tree_map::run(&cases.of("RedBlackTreeMap")))
        .and(whole_maps::run(&cases.of("RedBlackTreeMap")))
        .and(branches::run(cases))
        .and(red_black_tree_set::run(&cases.of("RedBlackTreeSet")))
        .and(hash_trie_map::run(&cases.of("HashTrieMap")))
        .and(hash_trie_map::run_colliding(&Cases {
            keys: few,
            container: "HashTrieMap",
            ..*cases
        }))
        .and(hash_trie_set::run(&cases.of("HashTrieSet")))
        .and(whole_sets::run(&cases.of("HashTrieSet")))
        .and(interned::run(&cases.of("Interner")))
        .and(arrays::run(cases))
        .and(texts::run(cases))
        .and(uses::run(cases))
        .and(arenas::run(cases))
}
