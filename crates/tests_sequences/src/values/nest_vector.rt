//! Long runs of calls beside std's `Vec`.
use rpds_faults::Numbers;
use rpds_nest::nest_vector::NestVector;
use std::alloc::Global;
use std::process::Abort;

// The vector has these items, by each look-up.
fn assert_same(rt: &impl Abort, vector: &NestVector<u64>, items: &[u64]) {
    assert!(rt; vector.len() == items.len() && vector.is_empty() == items.is_empty());
    assert!(rt; vector.first() == items.first() && vector.last() == items.last());
    for (index, item) in items.iter().enumerate() {
        assert!(rt; vector.get(index) == Some(item));
    }
    assert!(rt; vector.get(items.len()).is_none());
    assert!(rt; vector.iter().eq(items.iter()));
}

// Puts so many numbers into both.
fn grow(
    rt: &impl Abort,
    vector: &mut NestVector<u64>,
    items: &mut Vec<u64>,
    numbers: &mut Numbers,
    more: u64,
) {
    for _ in 0..more {
        let item = numbers.next();
        vector.push_back_mut(item).expect(rt, "ample memory");
        items.push(item).expect(rt, "ample memory");
    }
}

// Takes so many from both.
fn shrink(rt: &impl Abort, vector: &mut NestVector<u64>, items: &mut Vec<u64>, fewer: u64) {
    for _ in 0..fewer {
        let dropped = vector.drop_last_mut().expect(rt, "ample memory");
        assert!(rt; dropped == items.pop().is_some());
    }
}

// Writes at some indices of both.
fn write(rt: &impl Abort, vector: &mut NestVector<u64>, items: &mut [u64], numbers: &mut Numbers) {
    for _ in 0..40u64 {
        let item = numbers.next();
        let index = (numbers.next() % (items.len() as u64 + 1)) as usize;
        let done = vector.set_mut(index, item).expect(rt, "ample memory");
        assert!(rt; done == (index < items.len()));
        if let Some(place) = items.get_mut(index) {
            *place = item;
        }
    }
}

// A version from before some calls has the items that it had. The first level is full at 64 items, the second at 4160.
#[test]
fn agrees_with_a_vec(rt: HostRuntime) {
    let mut numbers = Numbers::new();
    let mut vector = NestVector::new(rt.alloc());
    let mut items = Vec::new(rt.alloc());
    for round in 0..6u64 {
        let older = vector.clone().expect(&rt, "ample memory");
        let before = items.clone().expect(&rt, "ample memory");
        grow(&rt, &mut vector, &mut items, &mut numbers, 30 + 300 * round);
        write(&rt, &mut vector, items.as_mut_slice(), &mut numbers);
        shrink(&rt, &mut vector, &mut items, 20 + 100 * round);
        assert_same(&rt, &vector, items.as_slice());
        assert_same(&rt, &older, before.as_slice());
    }
}

// Past the edge of each of the first three levels and back.
#[test]
fn a_vector_grows_and_empties(rt: HostRuntime) {
    let mut numbers = Numbers::new();
    let mut vector = NestVector::new(rt.alloc());
    let mut items = Vec::new(rt.alloc());
    grow(&rt, &mut vector, &mut items, &mut numbers, 8400);
    assert_same(&rt, &vector, items.as_slice());
    shrink(&rt, &mut vector, &mut items, 8300);
    assert_same(&rt, &vector, items.as_slice());
    shrink(&rt, &mut vector, &mut items, 101);
    assert_same(&rt, &vector, items.as_slice());
}

fn assert_text(rt: &impl Abort, alloc: Global, vector: &NestVector<u64>, wanted: &str) {
    let text = format!(in alloc; "{vector} {vector:?}").expect(rt, "ample memory");
    assert!(rt; text.as_str() == wanted);
}

fn assert_less(rt: &impl Abort, vector: &NestVector<u64>, greater: &NestVector<u64>) {
    assert!(rt; *vector < *greater);
    assert!(rt; *vector != *greater);
}

#[test]
fn vectors_are_collected_and_printed(rt: HostRuntime) {
    let mut vector = NestVector::from_iter(rt.alloc(), [1u64, 2]).expect(&rt, "ample memory");
    vector.extend([3]).expect(&rt, "ample memory");
    let sum = vector.fold(0u64, |sum: u64, item: &u64| sum.wrapping_add(*item));
    assert!(rt; sum == 6);
    assert_text(&rt, rt.alloc(), &vector, "[1, 2, 3] [1, 2, 3]");
    let greater = NestVector::from_iter(rt.alloc(), [1u64, 3]).expect(&rt, "ample memory");
    assert_less(&rt, &vector, &greater);
}

#[test]
fn a_visit_stops_where_it_is_decided(rt: HostRuntime) {
    let mut vector = NestVector::new(rt.alloc());
    for item in 0..200u64 {
        vector.push_back_mut(item).expect(&rt, "ample memory");
    }
    assert!(rt; vector.any(|item: &u64| *item == 199) && !vector.any(|item: &u64| *item == 200));
    assert!(rt; vector.all(|item: &u64| *item < 200) && !vector.all(|item: &u64| *item != 100));
}
