//! How often a vector that may hold itself calls what visits its items, and how it prints them.
use rpds_nest::nest_vector::NestVector;
use std::alloc::Global;
use std::cell::Cell;
use std::process::Abort;

// Counts a call.
fn count(calls: &Cell<u64>) {
    calls.set(calls.get().wrapping_add(1));
}

fn two_hundred(rt: &impl Abort, alloc: Global) -> NestVector<u64> {
    NestVector::from_iter(alloc, 0..200u64).expect(rt, "ample memory")
}

// Each visit ends at the item with the number 99, or goes over all 200.
#[test]
fn a_test_is_called_once_an_item(rt: HostRuntime) {
    let vector = two_hundred(&rt, rt.alloc());
    let calls = Cell::new(0);
    let is_last = |item: &u64| {
        count(&calls);
        *item == 99
    };
    assert!(rt; vector.any(is_last) && calls.get() == 100);
}

#[test]
fn a_test_of_all_is_called_once_an_item(rt: HostRuntime) {
    let vector = two_hundred(&rt, rt.alloc());
    let calls = Cell::new(0);
    let is_before = |item: &u64| {
        count(&calls);
        *item < 99
    };
    assert!(rt; !vector.all(is_before) && calls.get() == 100);
}

#[test]
fn a_step_is_called_once_an_item(rt: HostRuntime) {
    let vector = two_hundred(&rt, rt.alloc());
    let calls = Cell::new(0);
    let step = |sum: u64, item: &u64| {
        count(&calls);
        sum.wrapping_add(*item)
    };
    assert!(rt; vector.fold(0, step) == 19_900 && calls.get() == 200);
}

// Each item of a line of its own, and those of a vector within it further in.
#[test]
fn items_are_printed_on_lines(rt: HostRuntime) {
    let vector = NestVector::from_iter(rt.alloc(), [1u64, 2]).expect(&rt, "ample memory");
    let text = format!(in rt.alloc(); "{vector:#?}").expect(&rt, "ample memory");
    assert!(rt; text.as_str() == "[\n    1,\n    2,\n]");
}
