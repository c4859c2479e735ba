//! Types that hold ids of themselves, and the text of arenas.
use rpds_arena::arena::{Arena, Id};
use rpds_arena::interner::Interner;
use rpds_hash::map::hash_trie_map::DefaultBuildHasher;
use rpds_vector::vector::Vector;
use std::alloc::{AllocError, Global};
use std::cell::Cell;
use std::process::Abort;

// The tag of the ids of values, which hold ids of their own arena.
struct Value;

// A number, or a list of such values.
#[derive(Debug, Drop)]
enum Json {
    Number(u64),
    Array(Vector<Id<Value>>),
}

// The sum of the numbers in each value, where those of the older ones are known.
fn sum_of(older: &[u64], value: &Json) -> u64 {
    match value {
        Json::Number(number) => *number,
        Json::Array(kids) => {
            let mut sum = 0u64;
            for kid in kids {
                sum = sum.wrapping_add(older.get(kid.number()).copied().unwrap_or(0));
            }
            sum
        }
    }
}

// 1, 2, [1, 2], and a list of 1 and that list.
fn nested(alloc: Global) -> Result<Arena<Json, Value>, AllocError> {
    let mut arena = Arena::new_tagged(alloc);
    let one = arena.put(Json::Number(1))?;
    let two = arena.put(Json::Number(2))?;
    let pair = Vector::from_iter(alloc, [one, two])?;
    let inner = arena.put(Json::Array(pair))?;
    let outer = Vector::from_iter(alloc, [one, inner])?;
    let _ = arena.put(Json::Array(outer))?;
    Ok(arena)
}

#[test]
fn a_value_is_folded_over(rt: HostRuntime) {
    let arena = nested(rt.alloc()).expect(&rt, "ample memory");
    let sums = arena.fold(sum_of).expect(&rt, "ample memory");
    assert!(rt; sums.as_slice() == [1, 2, 3, 4].as_slice());
}

// Counts a call.
fn count(calls: &Cell<u64>) {
    calls.set(calls.get().wrapping_add(1));
}

#[test]
fn a_step_is_called_once_an_item(rt: HostRuntime) {
    let arena = nested(rt.alloc()).expect(&rt, "ample memory");
    let calls = Cell::new(0);
    let step = |older: &[u64], value: &Json| {
        count(&calls);
        sum_of(older, value)
    };
    let sums = arena.fold(step).expect(&rt, "ample memory");
    assert!(rt; sums.len() == 4 && calls.get() == 4);
}

#[test]
fn an_arena_is_printed_as_a_list(rt: HostRuntime) {
    let arena = nested(rt.alloc()).expect(&rt, "ample memory");
    let text = format!(in rt.alloc(); "{arena:?}").expect(&rt, "ample memory");
    let expected =
        "[Number(1), Number(2), Array([Id { number: 0 }, Id { number: 1 }]), Array([Id { number: 0 }, Id { number: 2 }])]";
    assert!(rt; text.as_str() == expected);
}

// Each part of an item stands on a line of its own, further in than the item.
#[test]
fn an_arena_is_printed_on_lines(rt: HostRuntime) {
    let mut arena = Arena::new_tagged(rt.alloc());
    let one = arena.put(Json::Number(1)).expect(&rt, "ample memory");
    let only = Vector::from_iter(rt.alloc(), [one]).expect(&rt, "ample memory");
    let _ = arena.put(Json::Array(only)).expect(&rt, "ample memory");
    let text = format!(in rt.alloc(); "{arena:#?}").expect(&rt, "ample memory");
    let expected =
        "[\n    Number(\n        1,\n    ),\n    Array(\n        [\n            Id {\n                number: 0,\n            },\n        ],\n    ),\n]";
    assert!(rt; text.as_str() == expected);
}

#[test]
fn an_interner_is_printed_as_a_list(rt: HostRuntime) {
    let mut interner = Interner::new(rt.alloc());
    for value in [7u64, 5, 7] {
        let _ = interner.intern(value).expect(&rt, "ample memory");
    }
    let text = format!(in rt.alloc(); "{interner:?} {interner:#?}").expect(&rt, "ample memory");
    assert!(rt; text.as_str() == "[7, 5] [\n    7,\n    5,\n]");
}

// A number, or the sum of two such values.
#[derive(Clone, Copy, PartialEq, Eq, Hash, Debug)]
enum Sum {
    Number(u64),
    Of(Id<Value>, Id<Value>),
}

// (1 + 1) + 1
fn three(interner: &mut Interner<Sum, Value>) -> Result<Id<Value>, AllocError> {
    let one = interner.intern(Sum::Number(1))?;
    let two = interner.intern(Sum::Of(one, one))?;
    interner.intern(Sum::Of(two, one))
}

fn assert_shared(rt: &impl Abort, interner: &mut Interner<Sum, Value>) {
    let first = three(interner).expect(rt, "ample memory");
    let second = three(interner).expect(rt, "ample memory");
    assert!(rt; first == second && first.number() == 2 && interner.arena().len() == 3);
}

#[test]
fn equal_sums_get_one_id(rt: HostRuntime) {
    let mut interner = Interner::new_tagged(rt.alloc());
    assert_shared(&rt, &mut interner);
    let hasher = DefaultBuildHasher::default();
    let mut with_hasher = Interner::new_tagged_with_hasher(rt.alloc(), hasher);
    assert_shared(&rt, &mut with_hasher);
}

// A number that is equal to all of its id, whatever its tag.
#[derive(Clone, Drop)]
#[derive_where(PartialEq, Eq, Hash)]
struct Tagged {
    id: u64,
    #[derive_where(skip)]
    tag: char,
}

#[test]
fn the_first_of_equal_values_stays(rt: HostRuntime) {
    let mut interner = Interner::new(rt.alloc());
    for tag in ['a', 'b'] {
        for id in 0..100u64 {
            let _ = interner
                .intern(Tagged { id, tag })
                .expect(&rt, "ample memory");
        }
    }
    assert!(rt; interner.arena().len() == 100);
    for value in interner.arena().iter() {
        assert!(rt; value.tag == 'a');
    }
}
