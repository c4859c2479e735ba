// Searches, items that are chosen and made anew: rows of the pages of Rust's `slice` and `Vec`.
use crate::values::sequence::support::assert_items;
use rpds_sequence::sequence::Sequence;
use std::alloc::{AllocError, Global};
use std::process::Abort;

const RISING: [u64; 13] = [0, 1, 1, 1, 1, 2, 3, 5, 8, 13, 21, 34, 55];

// What is looked for, where it may be found, and where it is absent the place for it.
const FOUND: [(u64, usize, usize); 4] = [(13, 9, 9), (1, 1, 4), (0, 0, 0), (55, 12, 12)];

const ABSENT: [(u64, usize); 3] = [(4, 7), (100, 13), (9, 9)];

fn assert_found(rt: &impl Abort, found: Result<usize, usize>, first: usize, last: usize) {
    match found {
        Ok(index) => assert!(rt; first <= index && index <= last),
        Err(_) => rt.abort(),
    }
}

fn assert_searched(rt: &impl Abort, items: &Sequence<u64>) {
    for (item, first, last) in FOUND {
        assert_found(rt, items.binary_search(&item), first, last);
        assert_found(rt, items.binary_search_by(|x| x.cmp(&item)), first, last);
        assert_found(
            rt,
            items.binary_search_by_key(&item.wrapping_mul(2), |x| x.wrapping_mul(2)),
            first,
            last,
        );
    }
    for (item, place) in ABSENT {
        assert!(rt; items.binary_search(&item) == Err(place));
        assert!(rt; items.partition_point(|x| *x < item) == place);
    }
}

#[test]
fn among_items_in_order(rt: HostRuntime) {
    let items = Sequence::from_iter(rt.alloc(), RISING).expect(&rt, "ample memory");
    assert_searched(&rt, &items);
    let empty: Sequence<u64> = Sequence::new(rt.alloc());
    assert!(rt; empty.binary_search(&1) == Err(0));
    assert!(rt; empty.partition_point(|_| true) == 0);
}

// Items, and whether they are in order.
const SORTED: [(&[u64], bool); 4] = [
    (&[1, 2, 2, 9], true),
    (&[1, 3, 2, 4], false),
    (&[0], true),
    (&[], true),
];

// Whether a sequence of these items is in order.
fn is_sorted(alloc: Global, items: &[u64]) -> Result<bool, AllocError> {
    let items = Sequence::from_iter(alloc, items.iter().copied())?;
    Ok(items.is_sorted())
}

#[test]
fn items_in_order(rt: HostRuntime) {
    for (items, wanted) in SORTED {
        assert!(rt; is_sorted(rt.alloc(), items) == Ok(wanted));
    }
}

#[test]
fn even_items_kept(rt: HostRuntime) {
    let mut items = Sequence::from_iter(rt.alloc(), [1, 2, 3, 4]).expect(&rt, "ample memory");
    items
        .retain(|item| *item % 2 == 0)
        .expect(&rt, "ample memory");
    assert_items(&rt, &items, &[2, 4]);
}

#[test]
fn items_made_anew(rt: HostRuntime) {
    let items = Sequence::from_iter(rt.alloc(), [1u64, 2, 3]).expect(&rt, "ample memory");
    let doubled = items
        .map(|item| Ok(item.wrapping_mul(2)))
        .expect(&rt, "ample memory");
    assert_items(&rt, &doubled, &[2, 4, 6]);
    let refused: Result<Sequence<u64>, AllocError> = items.map(|_| Err(AllocError));
    assert!(rt; refused.is_err());
}
