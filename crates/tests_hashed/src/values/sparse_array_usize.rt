//! Tests of the sparse array.
use rpds_hash::map::sparse_array_usize::SparseArrayUsize;
use std::alloc::Global;
use std::process::Abort;

fn array_of(rt: &impl Abort, alloc: Global, places: &[usize]) -> SparseArrayUsize<usize> {
    let mut array = SparseArrayUsize::new(alloc);
    for place in places {
        assert!(rt; *place < 64);
        array.set(*place, *place).expect(rt, "ample memory");
    }
    array
}

// The items, each its own place, are at these places alone, ascending.
fn assert_places(rt: &impl Abort, array: &SparseArrayUsize<usize>, places: &[usize]) {
    let mut walk = array.iter();
    for place in places {
        assert!(rt; walk.next() == Some(place));
    }
    assert!(rt; walk.next().is_none());
    for place in 0..64 {
        assert!(rt; array.get(place).is_some() == places.contains(&place));
    }
    assert!(rt; array.size() == places.len());
    assert!(rt; array.first() == places.first());
}

#[test]
fn six_places(rt: HostRuntime) {
    let array = array_of(&rt, rt.alloc(), &[10, 0, 6, 2, 11, 9]);
    assert_places(&rt, &array, &[0, 2, 6, 9, 10, 11]);
    let copy = array.clone().expect(&rt, "ample memory");
    assert_places(&rt, &copy, &[0, 2, 6, 9, 10, 11]);
}

#[test]
fn the_highest_place_is_popped_first(rt: HostRuntime) {
    let mut array = array_of(&rt, rt.alloc(), &[60, 8]);
    assert!(rt; array.first() == Some(&8) && array.size() == 2);
    for (popped, size) in [(Some(60), 1), (Some(8), 0), (None, 0)] {
        assert!(rt; array.pop() == popped);
        assert!(rt; array.size() == size);
    }
}
