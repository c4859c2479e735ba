//! Ordered maps and sets that are made of more items than are sorted without memory, with each request refused in turn.
use rpds_faults::{FailingAllocator, Faults, Refused};
use rpds_tree::map::red_black_tree_map::RedBlackTreeMap;
use rpds_tree::set::red_black_tree_set::RedBlackTreeSet;
use std::alloc::AllocError;
use std::process::Abort;

// The keys come in no order, and some of them twice.
const ITEMS: [(u64, u64); 24] = [
    (7, 0),
    (3, 1),
    (19, 2),
    (12, 3),
    (7, 4),
    (1, 5),
    (16, 6),
    (3, 7),
    (11, 8),
    (14, 9),
    (2, 10),
    (18, 11),
    (5, 12),
    (12, 13),
    (9, 14),
    (20, 15),
    (4, 16),
    (13, 17),
    (1, 18),
    (17, 19),
    (8, 20),
    (6, 21),
    (15, 22),
    (10, 23),
];

// What is made of the items.
#[derive(Clone, Copy, Debug)]
enum Made {
    Map,
    Set,
}

// Makes it, and returns how many entries it has.
fn count(made: Made, alloc: &FailingAllocator) -> Result<usize, AllocError> {
    match made {
        Made::Map => Ok(RedBlackTreeMap::from_iter(alloc, ITEMS)?.size()),
        Made::Set => Ok(RedBlackTreeSet::from_iter(alloc, ITEMS)?.size()),
    }
}

// Refuses this request, and returns whether it came. If so nothing is made, and all memory is given back.
fn is_refused_at(rt: &impl Abort, made: Made, faults: &Faults, nth: u64) -> bool {
    faults.refuse(Refused::Request, nth);
    let answer = count(made, &faults.alloc);
    let is_refused = faults.was_refused(Refused::Request, nth);
    let wanted = match made {
        Made::Map => 20,
        Made::Set => 24,
    };
    assert!(rt;
        answer
            == if is_refused {
                Err(AllocError)
            } else {
                Ok(wanted)
            },
        "request {nth}: {answer:?}"
    );
    assert!(rt; faults.is_all_freed(), "request {nth} leaves memory");
    is_refused
}

// How many requests there are.
fn requests(rt: &impl Abort, made: Made, faults: &Faults) -> u64 {
    for nth in 1..100u64 {
        if !is_refused_at(rt, made, faults, nth) {
            return nth - 1;
        }
    }
    panic!(rt; "each request was refused");
}

// Two for each entry, one for the list and one for the sort.
#[test]
fn each_request(rt: HostRuntime) {
    let faults = Faults::new(rt.alloc());
    assert!(rt; requests(&rt, Made::Map, &faults) == 2 * 20 + 2);
    assert!(rt; requests(&rt, Made::Set, &faults) == 2 * 24 + 2);
}
