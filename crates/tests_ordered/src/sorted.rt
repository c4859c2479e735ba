//! The error of a list that no container is built of.
use rpds_tree::sorted::SortedError;
use std::alloc::{AllocError, Global};
use std::error::Error;
use std::process::Abort;

fn text<E: Error>(rt: &impl Abort, alloc: Global, error: E) -> String {
    format!(in alloc; "{error}").expect(rt, "ample memory")
}

#[test]
fn errors(rt: HostRuntime) {
    let fall = text(&rt, rt.alloc(), SortedError::NotAscending(2));
    assert!(rt; fall.as_str() == "item 2 isn't above the one before it");
    let refused = text(&rt, rt.alloc(), SortedError::from(AllocError));
    assert!(rt; refused.as_str() == "no memory");
}
