// Random parts and changes in the middle, against a plain `Vec`.
use crate::values::vector::support::assert_items;
use rpds_faults::Numbers;
use rpds_refusals::answer::put_if_some;
use rpds_vector::vector::Vector;
use std::alloc::Allocator;
use std::process::Abort;

fn insert_both<A: Allocator + Copy>(
    rt: &impl Abort,
    vector: &mut Vector<u64, A>,
    plain: &mut Vec<u64, A>,
    place: usize,
    item: u64,
) {
    let made = vector.insert(place, item);
    assert!(rt; put_if_some(vector, made) == Ok(place <= plain.len()));
    if place <= plain.len() {
        plain.insert(place, item).expect(rt, "ample memory");
    }
}

fn remove_both<A: Allocator + Copy>(
    rt: &impl Abort,
    vector: &mut Vector<u64, A>,
    plain: &mut Vec<u64, A>,
    place: usize,
) {
    let made = vector.remove(place);
    assert!(rt; put_if_some(vector, made) == Ok(place < plain.len()));
    if place < plain.len() {
        plain.remove(place);
    }
}

// What stands before the place goes behind the rest.
fn turn_both<A: Allocator + Copy>(
    rt: &impl Abort,
    vector: &mut Vector<u64, A>,
    plain: &mut Vec<u64, A>,
    place: usize,
) {
    let front = vector.take(place).expect(rt, "ample memory");
    let back = vector.skip(place).expect(rt, "ample memory");
    *vector = back.append(&front).expect(rt, "ample memory");
    let place = place.min(plain.len());
    assert_items(rt, &front, &plain[..place]);
    assert_items(rt, &back, &plain[place..]);
    plain.rotate_left(place);
}

// One call on both. More items come in than go.
fn change_both<A: Allocator + Copy>(
    rt: &impl Abort,
    vector: &mut Vector<u64, A>,
    plain: &mut Vec<u64, A>,
    numbers: &mut Numbers,
) {
    let item = numbers.next() % 1_000_000;
    let place = (numbers.next() % 100) as usize;
    match numbers.next() % 16 {
        0..=8 => insert_both(rt, vector, plain, place, item),
        9..=12 => remove_both(rt, vector, plain, place),
        13 | 14 => turn_both(rt, vector, plain, place),
        _ => {
            vector.truncate(place).expect(rt, "ample memory");
            plain.truncate(place);
        }
    }
}

// 1,000 calls. All items are looked at after each, and those of the version of 100 calls before.
fn run<A: Allocator + Copy>(rt: &impl Abort, alloc: A, bits: u8) {
    assert!(rt; 1 <= bits && bits < 64);
    let mut numbers = Numbers::new();
    let mut vector = Vector::new_with_bits(alloc, bits);
    let mut plain = Vec::new(alloc);
    for _ in 0..10u32 {
        let version = vector.clone().expect(rt, "ample memory");
        let before = plain.clone().expect(rt, "ample memory");
        for _ in 0..100u32 {
            change_both(rt, &mut vector, &mut plain, &mut numbers);
            assert_items(rt, &vector, plain.as_slice());
        }
        assert_items(rt, &version, before.as_slice());
    }
}

#[test]
fn agrees_with_a_vec(rt: HostRuntime) {
    for bits in [1, 2, 5, 63] {
        run(&rt, rt.alloc(), bits);
    }
}
