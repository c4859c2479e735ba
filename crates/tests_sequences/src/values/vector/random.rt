// A run of random calls against a plain `Vec`, by each call that does the same.
use crate::values::vector::support::assert_items;
use rpds_core::steps::Steps;
use rpds_faults::Numbers;
use rpds_refusals::answer::{
    always_true, put_if_some, put_in_place, write_number, write_number_if_lent,
};
use rpds_vector::vector::Vector;
use std::alloc::{AllocError, Allocator};
use std::process::Abort;

// Each of these makes the call of this number, and tells whether there was something to change.
fn push_by<A: Allocator + Copy>(
    vector: &mut Vector<u64, A>,
    call: u64,
    item: u64,
) -> Result<bool, AllocError> {
    let steps = &mut Steps::new();
    match call % 3 {
        0 => {
            let made = vector.push_back(item);
            put_in_place(vector, made)
        }
        1 => {
            let made = vector.push_back_counted(item, steps);
            put_in_place(vector, made)
        }
        _ => always_true(vector.push_back_mut(item)),
    }
}

fn drop_last_by<A: Allocator + Copy>(
    vector: &mut Vector<u64, A>,
    call: u64,
) -> Result<bool, AllocError> {
    let steps = &mut Steps::new();
    match call % 3 {
        0 => {
            let made = vector.drop_last();
            put_if_some(vector, made)
        }
        1 => {
            let made = vector.drop_last_counted(steps);
            put_if_some(vector, made)
        }
        _ => vector.drop_last_mut(),
    }
}

fn set_by<A: Allocator + Copy>(
    vector: &mut Vector<u64, A>,
    call: u64,
    place: usize,
    item: u64,
) -> Result<bool, AllocError> {
    let steps = &mut Steps::new();
    match call % 5 {
        0 => {
            let made = vector.set(place, item);
            put_if_some(vector, made)
        }
        1 => {
            let made = vector.set_counted(place, item, steps);
            put_if_some(vector, made)
        }
        2 => vector.set_mut(place, item),
        3 => Ok(write_number(vector.get_mut(place)?, item)),
        _ => write_number_if_lent(vector.item_mut(place), item),
    }
}

// Up to 69 numbers put in at once: none, as many as the last leaf has room for, or more.
fn extend_both<A: Allocator + Copy>(
    rt: &impl Abort,
    vector: &mut Vector<u64, A>,
    plain: &mut Vec<u64, A>,
    numbers: &mut Numbers,
) {
    let from = numbers.next() % 1_000_000;
    let to = from + numbers.next() % 70;
    vector.extend(from..to).expect(rt, "ample memory");
    for number in from..to {
        plain.push(number).expect(rt, "ample memory");
    }
}

// One call on both. Pushes are as many as drops and writes.
fn change_both<A: Allocator + Copy>(
    rt: &impl Abort,
    vector: &mut Vector<u64, A>,
    plain: &mut Vec<u64, A>,
    numbers: &mut Numbers,
) {
    let item = numbers.next() % 1_000_000;
    let place = (numbers.next() % (plain.len() as u64).wrapping_add(9).max(1)) as usize;
    let call = numbers.next();
    match numbers.next() % 8 {
        0..=2 => {
            assert!(rt; push_by(vector, call, item).expect(rt, "ample memory"));
            plain.push(item).expect(rt, "ample memory");
        }
        3 | 4 => {
            let done = drop_last_by(vector, call).expect(rt, "ample memory");
            assert!(rt; done == plain.pop().is_some());
        }
        _ => {
            let done = set_by(vector, call, place, item).expect(rt, "ample memory");
            assert!(rt; done == (place < plain.len()));
            if done {
                plain[place] = item;
            }
        }
    }
    assert!(rt; vector.len() == plain.len());
    assert!(rt; vector.get(place) == plain.get(place));
}

// Another handle, by the call of this number.
fn copied<A: Allocator + Copy>(
    vector: &Vector<u64, A>,
    call: u32,
) -> Result<Vector<u64, A>, AllocError> {
    match call % 3 {
        0 => vector.clone(),
        1 => Clone::clone(vector),
        _ => vector.clone_counted(&mut Steps::new()),
    }
}

// Rounds of 102 calls. All items are looked at after each round, and so are those of the version before it.
fn run<A: Allocator + Copy>(
    rt: &impl Abort,
    vector: &mut Vector<u64, A>,
    plain: &mut Vec<u64, A>,
    rounds: u32,
) {
    let mut numbers = Numbers::new();
    for round in 0..rounds {
        let version = copied(vector, round).expect(rt, "ample memory");
        let before = plain.clone().expect(rt, "ample memory");
        for _ in 0..100u32 {
            change_both(rt, vector, plain, &mut numbers);
        }
        for _ in 0..2u32 {
            extend_both(rt, vector, plain, &mut numbers);
        }
        assert_items(rt, vector, plain.as_slice());
        assert_items(rt, &version, before.as_slice());
    }
}

#[test]
fn agrees_with_a_vec(rt: HostRuntime) {
    for bits in [1, 2, 63] {
        assert!(rt; 1 <= bits && bits < 64);
        let mut vector = Vector::new_with_bits(rt.alloc(), bits);
        run(&rt, &mut vector, &mut Vec::new(rt.alloc()), 4);
    }
}

// A third level comes at 1,025 items.
#[test]
fn agrees_with_a_vec_at_three_levels(rt: HostRuntime) {
    let mut vector = Vector::new(rt.alloc());
    let mut plain = Vec::new(rt.alloc());
    vector.extend(0..960u64).expect(&rt, "ample memory");
    plain.extend(0..960u64).expect(&rt, "ample memory");
    run(&rt, &mut vector, &mut plain, 2);
    assert!(rt; vector.len() > 1024);
}
