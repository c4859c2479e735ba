//! Lines of sorted lists.
use crate::session::{allocations, assert_answers};
use std::alloc::Global;
use std::process::Abort;

// Versions of sorted lists are changed as others are.
const SORTED: [(&str, &str); 21] = [
    ("sorted rmap 1 10 2 20", "made 0"),
    ("sorted rset 1 2 2 3", "refused 8"),
    ("sorted rmap 3 1 1 1", "refused 8"),
    ("sorted rset", "made 1"),
    ("show 1", "{}"),
    ("sorted rmap 1", "bad line"),
    ("sorted vector 1", "bad line"),
    ("in 0 insert 0 5", "done true"),
    ("copy 0", "made 2"),
    ("new 0 remove 2", "made 3"),
    ("writekey 2 1 33", "done true"),
    ("in 2 insert 4 40", "done true"),
    ("show 0", "{0: 5, 1: 10, 2: 20}"),
    ("show 2", "{0: 5, 1: 33, 2: 20, 4: 40}"),
    ("show 3", "{0: 5, 1: 10}"),
    ("sorted rset 1 2 3", "made 4"),
    ("new 4 insertitem 0", "made 5"),
    ("in 4 removeitem 2", "done true"),
    ("show 4", "{1, 3}"),
    ("show 5", "{0, 1, 2, 3}"),
    ("subset 4 5", "true"),
];

#[test]
fn short_lists(rt: HostRuntime) {
    assert_answers(&rt, rt.alloc(), &SORTED);
}

// The keys of the pairs in a line, of 20 digits each, so that a pair has 42 bytes.
const FIRST: u64 = 10_000_000_000_000_000_000;

// 2,000 pairs of a number and the one after it, in one line of more than 80 KB.
fn long_line(rt: &impl Abort, alloc: Global) -> String {
    let mut line = String::new(alloc);
    line.push_str("sorted rmap").expect(rt, "ample memory");
    for number in 0..2_000u64 {
        let key = FIRST + number;
        let pair = format!(in alloc; " {key} {}", key + 1).expect(rt, "ample memory");
        line.push_str(pair.as_str()).expect(rt, "ample memory");
    }
    line.push_str(
        "\nsize 0\nkey 0 10000000000000001999\nkey 0 10000000000000001000\nrange 0 * [10000000000000000001\n",
    ).expect(rt, "ample memory");
    line
}

#[test]
fn a_long_list(rt: HostRuntime) {
    let line = long_line(&rt, rt.alloc());
    let wanted = b"made 0\nsize 2000\n\
        some 10000000000000001999 10000000000000002000\n\
        some 10000000000000001000 10000000000000001001\n\
        range 10000000000000000000:10000000000000000001 10000000000000000001:10000000000000000002\n";
    let _ = allocations(&rt, rt.alloc(), 4_096, line.as_str().as_bytes(), wanted);
}
