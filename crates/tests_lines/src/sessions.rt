//! Whole sessions: each line, and the line that is printed for it.
use crate::session::{assert_answers, assert_prints};

// Each op on a list and a stack, and some that don't fit or find nothing.
const LISTS_AND_STACKS: [(&str, &str); 28] = [
    ("new 0 dropfirst", "refused 1"),
    ("make list", "made 0"),
    ("new 0 pushfront 7", "made 1"),
    ("in 0 push 1", "refused 2"),
    ("new 0 dropfirst", "done false"),
    ("make stack", "made 2"),
    ("in 2 push 8", "done true"),
    ("new 2 push 9", "made 3"),
    ("new 3 pop", "made 4"),
    ("in 3 pop", "done true"),
    ("in 1 pushfront 6", "done true"),
    ("new 1 reverse", "made 5"),
    ("new 5 dropfirst", "made 6"),
    ("in 2 reverse", "refused 2"),
    ("copy 3", "made 7"),
    ("show 0", "[]"),
    ("show 1", "[6, 7]"),
    ("show 2", "Stack(8)"),
    ("show 3", "Stack(8)"),
    ("show 4", "Stack(8)"),
    ("show 5", "[7, 6]"),
    ("show 6", "[6]"),
    ("show 7", "Stack(8)"),
    ("first 1", "some 6"),
    ("at 1 0", "refused 2"),
    ("range 1 [5 [2", "refused 2"),
    ("in 1 pushback 3", "refused 2"),
    ("extend 1 1", "refused 2"),
];

const ORDERED_MAP: [(&str, &str); 30] = [
    ("make rmap", "made 0"),
    ("new 0 insert 1 10", "made 1"),
    ("new 1 insert 2 20", "made 2"),
    ("new 2 remove 1", "made 3"),
    ("writekey 3 2 99", "done true"),
    ("show 2", "{1: 10, 2: 20}"),
    ("show 3", "{2: 99}"),
    ("new 9 pop", "refused 1"),
    ("in 0 pop", "refused 2"),
    ("in 0 remove 5", "done false"),
    ("new 0 remove 5", "made 4"),
    ("equal 0 4", "true"),
    ("range 2 [2 (2", "range"),
    ("range 2 (2 (2", "refused 5"),
    ("range 2 * *", "range 1:10 2:20"),
    ("compare 0 1", "less"),
    ("key 2 1", "some 1 10"),
    ("writekey 0 2 5", "done false"),
    ("size 2", "size 2"),
    ("new 2 remove 9", "made 5"),
    ("equal 2 5", "true"),
    ("first 2", "some 1 10"),
    ("has 2 1", "true"),
    ("has 3 1", "false"),
    ("key 3 1", "none"),
    ("range 2 [2 [1", "refused 5"),
    ("subset 2 2", "refused 2"),
    ("disjoint 2 2", "refused 2"),
    ("show 6", "refused 1"),
    ("bogus", "bad line"),
];

// A walk goes by the digits of the keys in base 16, the lowest first: those of 66 are 2, 4, of 22 6, 1 and of 38 6, 2.
const HASHED_MAP: [(&str, &str); 19] = [
    ("degree hmap 16", "made 0"),
    ("in 0 insert 38 1", "done true"),
    ("in 0 insert 22 2", "done true"),
    ("in 0 insert 66 3", "done true"),
    ("show 0", "{66: 3, 22: 2, 38: 1}"),
    ("key 0 38", "some 38 1"),
    ("compare 0 0", "refused 2"),
    ("compare 0 9", "refused 1"),
    ("new 0 insert 38 9", "made 1"),
    ("new 0 remove 22", "made 2"),
    ("degree hmap 2", "made 3"),
    ("show 1", "{66: 3, 22: 2, 38: 9}"),
    ("show 2", "{66: 3, 38: 1}"),
    ("show 3", "{}"),
    ("key 2 22", "none"),
    ("has 0 22", "true"),
    ("has 2 22", "false"),
    ("size 2", "size 2"),
    ("equal 0 1", "false"),
];

const QUEUE: [(&str, &str); 14] = [
    ("make queue", "made 0"),
    ("in 0 dequeue", "done false"),
    ("in 0 enqueue 0", "done true"),
    ("in 0 enqueue 1", "done true"),
    ("in 0 dequeue", "done true"),
    ("in 0 enqueue 2", "done true"),
    ("in 0 enqueue 3", "done true"),
    ("show 0", "Queue(1, 2, 3)"),
    ("new 0 dequeue", "made 1"),
    ("first 1", "some 2"),
    ("first 0", "some 1"),
    ("last 0", "refused 2"),
    ("size 0", "size 3"),
    ("size 2", "refused 1"),
];

// Bits, degrees, items at positions, and a write to one of two versions.
const VECTOR: [(&str, &str); 23] = [
    ("bits 0", "refused 3"),
    ("bits 64", "refused 3"),
    ("bits 255", "refused 3"),
    ("bits 300", "bad line"),
    ("bits 63", "made 0"),
    ("degree hset 1", "refused 4"),
    ("degree hmap 3", "refused 4"),
    ("degree hmap 128", "refused 4"),
    ("degree rset 1", "refused 2"),
    ("extend 0 4 5", "done true"),
    ("copy 0", "made 1"),
    ("writeat 1 1 6", "done true"),
    ("writeat 1 2 6", "done false"),
    ("show 0", "[4, 5]"),
    ("show 1", "[4, 6]"),
    ("compare 0 1", "less"),
    ("at 0 2", "none"),
    ("at 0 1", "some 5"),
    ("at 2 0", "refused 1"),
    ("first 0", "some 4"),
    ("last 0", "some 5"),
    ("in 0 set 02 1", "bad line"),
    ("extend 0", "done true"),
];

// Changes of vectors with the most bits and the fewest.
const BITS: [(&str, &str); 18] = [
    ("bits 63", "made 0"),
    ("bits 1", "made 1"),
    ("in 0 pushback 4", "done true"),
    ("new 0 pushback 5", "made 2"),
    ("new 2 droplast", "made 3"),
    ("in 2 droplast", "done true"),
    ("new 1 droplast", "done false"),
    ("in 1 droplast", "done false"),
    ("new 1 set 0 6", "done false"),
    ("new 0 set 0 7", "made 4"),
    ("show 0", "[4]"),
    ("show 1", "[]"),
    ("show 2", "[4]"),
    ("show 3", "[4]"),
    ("show 4", "[7]"),
    ("first 4", "some 7"),
    ("last 1", "none"),
    ("size 1", "size 0"),
];

const HASHED_SET: [(&str, &str); 21] = [
    ("degree hset 64", "made 0"),
    ("in 0 insertitem 1", "done true"),
    ("new 0 insertitem 2", "made 1"),
    ("new 1 removeitem 1", "made 2"),
    ("in 0 removeitem 5", "done false"),
    ("disjoint 0 2", "true"),
    ("disjoint 2 0", "true"),
    ("in 2 removeitem 2", "done true"),
    ("show 0", "{1}"),
    ("show 1", "{1, 2}"),
    ("show 2", "{}"),
    ("has 1 2", "true"),
    ("has 0 2", "false"),
    ("key 1 2", "some 2"),
    ("key 0 2", "none"),
    ("first 1", "refused 2"),
    ("last 1", "refused 2"),
    ("compare 0 1", "refused 2"),
    ("subset 0 1", "true"),
    ("subset 1 0", "false"),
    ("disjoint 0 1", "false"),
];

// An ordered set, its ranges, and another that it has no member in common with.
const ORDERED_SETS: [(&str, &str); 26] = [
    ("make rset", "made 0"),
    ("in 0 insertitem 4", "done true"),
    ("in 0 insertitem 6", "done true"),
    ("in 0 insertitem 5", "done true"),
    ("show 0", "{4, 5, 6}"),
    ("first 0", "some 4"),
    ("last 0", "some 6"),
    ("has 0 5", "true"),
    ("key 0 7", "none"),
    ("range 0 * *", "range 4 5 6"),
    ("range 0 (4 [6", "range 5 6"),
    ("range 0 [4 (6", "range 4 5"),
    ("range 0 (6 *", "range"),
    ("range 0 (4 (4", "refused 5"),
    ("range 0 [5 [4", "refused 5"),
    ("range 0 [5 [5", "range 5"),
    ("range 0 [5 (5", "range"),
    ("at 0 0", "refused 2"),
    ("new 0 removeitem 4", "made 1"),
    ("compare 0 1", "less"),
    ("compare 1 0", "greater"),
    ("compare 1 1", "equal"),
    ("subset 1 0", "true"),
    ("make rset", "made 2"),
    ("disjoint 1 2", "true"),
    ("range 2 [5 [4", "refused 5"),
];

// Ranges from either end, with bounds that are included, excluded or missing.
const RANGES: [(&str, &str); 8] = [
    ("make rmap", "made 0"),
    ("new 0 insert 1 10", "made 1"),
    ("new 1 insert 2 20", "made 2"),
    ("last 2", "some 2 20"),
    ("range 2 (1 *", "range 2:20"),
    ("range 0 (2 (2", "refused 5"),
    ("writekey 1 1 11", "done true"),
    ("key 2 1", "some 1 10"),
];

// Sets, and questions of two of them.
const SETS: [(&str, &str); 24] = [
    ("make rset", "made 0"),
    ("new 0 insertitem 1", "made 1"),
    ("new 1 insertitem 2", "made 2"),
    ("subset 1 2", "true"),
    ("subset 2 1", "false"),
    ("disjoint 0 0", "true"),
    ("disjoint 1 2", "false"),
    ("make hset", "made 3"),
    ("subset 0 3", "refused 2"),
    ("subset 0 9", "refused 1"),
    ("equal 0 3", "refused 2"),
    ("equal 0 9", "refused 1"),
    ("compare 0 3", "refused 2"),
    ("compare 9 0", "refused 1"),
    ("disjoint 0 3", "refused 2"),
    ("disjoint 9 0", "refused 1"),
    ("range 3 [5 [2", "refused 2"),
    ("range 9 [5 [2", "refused 1"),
    ("new 2 removeitem 1", "made 4"),
    ("disjoint 1 4", "true"),
    ("subset 1 4", "false"),
    ("range 2 [1 (2", "range 1"),
    ("key 2 2", "some 2"),
    ("in 2 removeitem 9", "done false"),
];

// Changes in place of a copy that shares all of its nodes.
const IN_PLACE: [(&str, &str); 16] = [
    ("bits 1", "made 0"),
    ("extend 0 0 1 2 3 4", "done true"),
    ("copy 0", "made 1"),
    ("in 1 set 2 9", "done true"),
    ("in 1 droplast", "done true"),
    ("in 1 pushback 7", "done true"),
    ("show 0", "[0, 1, 2, 3, 4]"),
    ("show 1", "[0, 1, 9, 3, 7]"),
    ("degree hmap 16", "made 2"),
    ("in 2 insert 38 1", "done true"),
    ("in 2 insert 22 2", "done true"),
    ("copy 2", "made 3"),
    ("in 3 remove 38", "done true"),
    ("writekey 3 22 5", "done true"),
    ("show 2", "{22: 2, 38: 1}"),
    ("show 3", "{22: 5}"),
];

// The greatest number and one more, an empty line, two spaces, upper case, a carriage return, no UTF-8, and a last line
// without its line feed.
const HOSTILE: &[u8] = b"make list\n\
    in 0 pushfront 18446744073709551615\n\
    in 0 pushfront 18446744073709551616\n\
    first 18446744073709551615\n\
    first 0\n\
    \n\
    make  list\n\
    make LIST\n\
    size 0\r\n\
    make \xff\n\
    size 0";

const HOSTILE_PRINTED: &[u8] = b"made 0\n\
    done true\n\
    bad line\n\
    refused 1\n\
    some 18446744073709551615\n\
    bad line\n\
    bad line\n\
    bad line\n\
    bad line\n\
    bad line\n\
    size 1\n";

#[test]
fn of_containers(rt: HostRuntime) {
    for session in [
        LISTS_AND_STACKS.as_slice(),
        QUEUE.as_slice(),
        VECTOR.as_slice(),
        BITS.as_slice(),
        HASHED_MAP.as_slice(),
        HASHED_SET.as_slice(),
        ORDERED_MAP.as_slice(),
        RANGES.as_slice(),
        SETS.as_slice(),
        ORDERED_SETS.as_slice(),
        IN_PLACE.as_slice(),
    ] {
        assert_answers(&rt, rt.alloc(), session);
    }
}

#[test]
fn hostile_lines(rt: HostRuntime) {
    assert_prints(&rt, rt.alloc(), HOSTILE, HOSTILE_PRINTED);
}
