//! Lines of the map with snapshots.
use crate::session::assert_answers;

const TWO_SNAPSHOTS: [(&str, &str); 16] = [
    ("snap put 1 10", "done true"),
    ("snap take", "taken 0"),
    ("snap put 1 11", "done true"),
    ("snap put 2 20", "done true"),
    ("snap take", "taken 1"),
    ("snap out 1", "done true"),
    ("snap out 1", "done false"),
    ("snap show", "{2: 20}"),
    ("snap back 0", "done true"),
    ("snap show", "{1: 10}"),
    ("snap at 1", "{1: 11, 2: 20}"),
    ("snap back 2", "refused 9"),
    ("snap back 1", "done true"),
    ("snap get 2", "some 2 20"),
    ("snap get 3", "none"),
    ("snap at 2", "refused 9"),
];

// The table and the map know nothing of each other.
const BESIDE_A_TABLE: [(&str, &str); 12] = [
    ("make rmap", "made 0"),
    ("in 0 insert 1 10", "done true"),
    ("snap show", "{}"),
    ("snap put 2 20", "done true"),
    ("snap take", "taken 0"),
    ("copy 0", "made 1"),
    ("in 0 remove 1", "done true"),
    ("snap back 0", "done true"),
    ("show 0", "{}"),
    ("show 1", "{1: 10}"),
    ("show 2", "refused 1"),
    ("snap at 1", "refused 9"),
];

#[test]
fn of_snapshots(rt: HostRuntime) {
    assert_answers(&rt, rt.alloc(), &TWO_SNAPSHOTS);
    assert_answers(&rt, rt.alloc(), &BESIDE_A_TABLE);
}
