//! Pairs that are put into an ordered map by references to them, with each request for memory refused in turn.
use rpds_faults::{FailingAllocator, Faults, Refused};
use rpds_tree::map::red_black_tree_map::RedBlackTreeMap;
use std::alloc::AllocError;
use std::iter::Extend;
use std::process::Abort;

type Numbers<'t> = RedBlackTreeMap<u64, u64, &'t FailingAllocator>;

// A map of two pairs.
fn pairs(alloc: &FailingAllocator, pairs: [(u64, u64); 2]) -> Result<Numbers<'_>, AllocError> {
    RedBlackTreeMap::from_iter(alloc, pairs)
}

// Refuses this request of an extension, and returns whether it came. If so the map is as it was.
fn is_refused_at(rt: &impl Abort, faults: &Faults, nth: u64) -> bool {
    let mut map = pairs(&faults.alloc, [(1, 2), (3, 4)]).expect(rt, "ample memory");
    let before = map.clone().expect(rt, "a clone asks for none");
    let more = pairs(&faults.alloc, [(5, 6), (1, 7)]).expect(rt, "ample memory");
    faults.refuse(Refused::Request, nth);
    let answer = Extend::extend(&mut map, &more);
    let is_refused = faults.was_refused(Refused::Request, nth);
    assert!(rt;
        answer.is_err() == is_refused && (map == before) == is_refused,
        "request {nth}: {map}"
    );
    is_refused
}

#[test]
fn each_request_of_an_extension_by_references(rt: HostRuntime) {
    let faults = Faults::new(rt.alloc());
    for nth in 1..100u64 {
        if !is_refused_at(&rt, &faults, nth) {
            assert!(rt; 4 <= nth, "only {nth} requests");
            return;
        }
    }
    panic!(rt; "each request was refused");
}
