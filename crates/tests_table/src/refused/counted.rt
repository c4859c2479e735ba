//! What each command of a table asks for, on a version of each kind that has 10,000 entries.
use crate::Tests;
use crate::refused::table::TableCall::{Apply, Own};
use crate::refused::table::{Change, TableCall, TableCommand, Versions};
use rpds_faults::Faults;
use rpds_refusals::limits::check_large;
use rpds_refusals::memory;
use rpds_refusals::plan::Sharing::{Alike, Alone, Shared};
use rpds_refusals::plan::{LargeContainer, Limit, MemoryRow, NOTHING};
use rpds_table::table::Mode::{InPlace, New};
use std::alloc::Global;
use std::process::Abort;

type Row = MemoryRow<'static, TableCall>;

const COPY: &[TableCall] = &[Apply(TableCommand::Copy)];

const IN_PLACE_PUT: TableCall = Apply(TableCommand::Change(InPlace, Change::Put));

const PUT: &[TableCall] = &[IN_PLACE_PUT];

const TAKE: &[TableCall] = &[Apply(TableCommand::Change(InPlace, Change::Take))];

const SET: &[TableCall] = &[Apply(TableCommand::Change(InPlace, Change::Set))];

const REVERSE: &[TableCall] = &[Apply(TableCommand::Change(InPlace, Change::Reverse))];

const WRITE_AT: &[TableCall] = &[Apply(TableCommand::WriteAt)];

const WRITE_KEY: &[TableCall] = &[Apply(TableCommand::WriteKey)];

const EXTEND: &[TableCall] = &[Apply(TableCommand::Extend)];

// A new version asks for as much as the container's own call.
const NEW_PUT: &[TableCall] = &[
    Own(Change::Put),
    Apply(TableCommand::Change(New, Change::Put)),
];

const NEW_TAKE: &[TableCall] = &[
    Own(Change::Take),
    Apply(TableCommand::Change(New, Change::Take)),
];

const NEW_SET: &[TableCall] = &[
    Own(Change::Set),
    Apply(TableCommand::Change(New, Change::Set)),
];

const NEW_REVERSE: &[TableCall] = &[
    Own(Change::Reverse),
    Apply(TableCommand::Change(New, Change::Reverse)),
];

// The bytes that come before what is shared: two counts of owners and the allocator. An item has 16 bytes.
const COUNTS: u64 = 24;

const ITEM: u64 = COUNTS + 16;

const PAIR: u64 = COUNTS + 32;

// A cell and its item for a push, none for a drop, a cell for each item that is turned round. A copy shares all.
const CELL: u64 = COUNTS + 24;

const PUSHED: Limit = Limit {
    requests: 2,
    bytes: CELL + ITEM,
};

const TURNED: Limit = Limit {
    requests: 10_000,
    bytes: 10_000 * CELL,
};

const LISTS: &[Row] = &[
    memory!(Alone, calls: PUT, at: &[7], limit: PUSHED),
    memory!(Alone, calls: TAKE, at: &[7], limit: NOTHING),
    memory!(Alone, calls: REVERSE, at: &[7], limit: TURNED),
    memory!(Alone, calls: COPY, at: &[7], limit: NOTHING),
    memory!(Shared, calls: PUT, at: &[7], limit: PUSHED),
    memory!(Shared, calls: TAKE, at: &[7], limit: NOTHING),
    memory!(Shared, calls: REVERSE, at: &[7], limit: TURNED),
    memory!(Alike, calls: NEW_PUT, at: &[7], limit: PUSHED),
    memory!(Alike, calls: NEW_TAKE, at: &[7], limit: NOTHING),
    memory!(Alike, calls: NEW_REVERSE, at: &[7], limit: TURNED),
];

const STACKS: &[Row] = &[
    memory!(Alone, calls: PUT, at: &[7], limit: PUSHED),
    memory!(Alone, calls: TAKE, at: &[7], limit: NOTHING),
    memory!(Alone, calls: COPY, at: &[7], limit: NOTHING),
    memory!(Shared, calls: PUT, at: &[7], limit: PUSHED),
    memory!(Shared, calls: TAKE, at: &[7], limit: NOTHING),
    memory!(Alike, calls: NEW_PUT, at: &[7], limit: PUSHED),
    memory!(Alike, calls: NEW_TAKE, at: &[7], limit: NOTHING),
];

// The first that is dropped has all turned.
const QUEUES: &[Row] = &[
    memory!(Alone, calls: COPY, at: &[7], limit: NOTHING),
    memory!(Alike, calls: NEW_TAKE, at: &[7], limit: TURNED),
    memory!(Alone, calls: TAKE, at: &[7], limit: TURNED),
    memory!(Alone, calls: TAKE, at: &[7], limit: NOTHING),
    memory!(Alone, calls: PUT, at: &[7], limit: PUSHED),
    memory!(Shared, calls: PUT, at: &[7], limit: PUSHED),
    memory!(Shared, calls: TAKE, at: &[7], limit: NOTHING),
    memory!(Alike, calls: NEW_PUT, at: &[7], limit: PUSHED),
    memory!(Alike, calls: NEW_TAKE, at: &[7], limit: NOTHING),
];

// A node of a vector and its row of at most 32. At five bits 10,000 items take three levels.
const BRANCH: u64 = COUNTS + 48 + 32 * 8;

const THREE: Limit = Limit {
    requests: 6,
    bytes: 3 * BRANCH,
};

const THREE_AND_ITEM: Limit = Limit {
    requests: 7,
    bytes: 3 * BRANCH + ITEM,
};

// Alone a push takes the item, and a longer row of the leaf. Three items lie in a list of theirs first, and are put behind a
// copy of the path, which takes the vector's place once all are there. A copied leaf of what is shared grows too.
const VECTORS: &[Row] = &[
    memory!(Alone, calls: PUT, at: &[7], requests: 2, bytes: ITEM + 32 * 8),
    memory!(Alone, calls: EXTEND, at: &[7],
        requests: 11, bytes: 3 * 16 + 3 * ITEM + 3 * BRANCH + 32 * 8),
    memory!(Alone, calls: TAKE, at: &[7], limit: NOTHING),
    memory!(Alone, calls: SET, at: &[0, 9_999], requests: 1, bytes: ITEM),
    memory!(Alone, calls: WRITE_AT, at: &[0, 9_999], limit: NOTHING),
    memory!(Alone, calls: COPY, at: &[7], limit: NOTHING),
    memory!(Shared, calls: TAKE, at: &[7], limit: THREE),
    memory!(Shared, calls: PUT, at: &[7], requests: 8, bytes: 3 * BRANCH + ITEM + 32 * 8),
    memory!(Shared, calls: SET, at: &[0, 9_999], limit: THREE_AND_ITEM),
    memory!(Shared, calls: WRITE_AT, at: &[0, 9_999], limit: THREE_AND_ITEM),
    memory!(Alike, calls: NEW_PUT, at: &[7], limit: THREE_AND_ITEM),
    memory!(Alike, calls: NEW_TAKE, at: &[7], limit: THREE),
    memory!(Alike, calls: NEW_SET, at: &[0, 9_999], limit: THREE_AND_ITEM),
];

// A node of a hashed map and its row of at most 64. Of 10,000 keys each is behind three branches, in a leaf of its own.
const FORK: u64 = COUNTS + 56 + 64 * 8;

const LEAF: u64 = COUNTS + 56;

const FORKS: Limit = Limit {
    requests: 7,
    bytes: 3 * FORK + LEAF,
};

const FORKS_AND_PAIR: Limit = Limit {
    requests: 8,
    bytes: 3 * FORK + LEAF + PAIR,
};

const KEYS: &[u64] = &[4, 5_000, 9_999];

const HASH_TRIE_MAPS: &[Row] = &[
    memory!(Alone, calls: PUT, at: KEYS, requests: 1, bytes: PAIR),
    memory!(Alone, calls: WRITE_KEY, at: KEYS, limit: NOTHING),
    memory!(Alone, calls: TAKE, at: &[77, 6_000], limit: NOTHING),
    memory!(Alone, calls: COPY, at: &[7], limit: NOTHING),
    memory!(Shared, calls: PUT, at: KEYS, limit: FORKS_AND_PAIR),
    memory!(Shared, calls: WRITE_KEY, at: KEYS, limit: FORKS_AND_PAIR),
    memory!(Shared, calls: TAKE, at: &[78, 6_001], limit: FORKS),
    memory!(Alike, calls: NEW_PUT, at: KEYS, limit: FORKS_AND_PAIR),
    memory!(Alike, calls: NEW_TAKE, at: KEYS, limit: FORKS),
];

const HASH_TRIE_SETS: &[Row] = &[
    memory!(Alone, calls: PUT, at: KEYS, requests: 1, bytes: ITEM),
    memory!(Alone, calls: TAKE, at: &[77, 6_000], limit: NOTHING),
    memory!(Alone, calls: COPY, at: &[7], limit: NOTHING),
    memory!(Shared, calls: PUT, at: KEYS, limit: FORKS_AND_PAIR),
    memory!(Shared, calls: TAKE, at: &[78, 6_001], limit: FORKS),
    memory!(Alike, calls: NEW_PUT, at: KEYS, limit: FORKS_AND_PAIR),
    memory!(Alike, calls: NEW_TAKE, at: KEYS, limit: FORKS),
];

// A node of an ordered map. Twice the logarithm of 10,001 is 26: by their contracts a change where a key is makes at most 26
// nodes, an insertion 27, a removal 104.
const NODE: u64 = COUNTS + 48;

const PATH_AND_PAIR: Limit = Limit {
    requests: 28,
    bytes: 27 * NODE + PAIR,
};

const REMOVED: Limit = Limit {
    requests: 104,
    bytes: 104 * NODE,
};

const RED_BLACK_TREE_MAPS: &[Row] = &[
    memory!(Alone, calls: PUT, at: KEYS, requests: 1, bytes: PAIR),
    memory!(Alone, calls: WRITE_KEY, at: KEYS, limit: NOTHING),
    memory!(Alone, calls: TAKE, at: &[77, 6_000], limit: NOTHING),
    memory!(Alone, calls: COPY, at: &[7], limit: NOTHING),
    memory!(Shared, calls: PUT, at: KEYS, limit: PATH_AND_PAIR),
    memory!(Shared, calls: WRITE_KEY, at: KEYS, limit: PATH_AND_PAIR),
    memory!(Shared, calls: TAKE, at: &[78, 6_001], limit: REMOVED),
    memory!(Alike, calls: NEW_PUT, at: KEYS, limit: PATH_AND_PAIR),
    memory!(Alike, calls: NEW_TAKE, at: KEYS, limit: REMOVED),
    // A list of three takes one, and a map of it two for each of them.
    memory!(Alone, calls: SORTED, at: &[3], requests: 7, bytes: 3 * (32 + NODE + PAIR)),
];

const SORTED: &[TableCall] = &[Apply(TableCommand::MakeSorted)];

const RED_BLACK_TREE_SETS: &[Row] = &[
    memory!(Alone, calls: PUT, at: KEYS, requests: 1, bytes: ITEM),
    memory!(Alone, calls: TAKE, at: &[77, 6_000], limit: NOTHING),
    memory!(Alone, calls: COPY, at: &[7], limit: NOTHING),
    memory!(Shared, calls: PUT, at: KEYS, limit: PATH_AND_PAIR),
    memory!(Shared, calls: TAKE, at: &[78, 6_001], limit: REMOVED),
    memory!(Alike, calls: NEW_PUT, at: KEYS, limit: PATH_AND_PAIR),
    memory!(Alike, calls: NEW_TAKE, at: KEYS, limit: REMOVED),
    memory!(Alone, calls: SORTED_ITEMS, at: &[3], requests: 5, bytes: 2 * (16 + NODE + ITEM)),
];

const SORTED_ITEMS: &[TableCall] = &[Apply(TableCommand::MakeSortedItems)];

// A version of this kind, in a list of versions that has room for more.
fn assert_counted(rt: &impl Abort, alloc: Global, kind: u8, rows: &[Row]) {
    let faults = Faults::new(alloc);
    let large = LargeContainer {
        variant: 8u8.wrapping_add(kind),
        count: 10_000,
        step: 1,
        limit: 10_000,
    };
    check_large::<Tests, TableCall, Versions>(&faults, IN_PLACE_PUT, &large, rows).expect(
        rt,
        "requests and bytes",
    );
}

#[test]
fn lists(rt: HostRuntime) {
    assert_counted(&rt, rt.alloc(), 0, LISTS);
}

#[test]
fn stacks(rt: HostRuntime) {
    assert_counted(&rt, rt.alloc(), 1, STACKS);
}

#[test]
fn queues(rt: HostRuntime) {
    assert_counted(&rt, rt.alloc(), 2, QUEUES);
}

#[test]
fn vectors(rt: HostRuntime) {
    assert_counted(&rt, rt.alloc(), 3, VECTORS);
}

#[test]
fn hash_trie_maps(rt: HostRuntime) {
    assert_counted(&rt, rt.alloc(), 4, HASH_TRIE_MAPS);
}

#[test]
fn hash_trie_sets(rt: HostRuntime) {
    assert_counted(&rt, rt.alloc(), 5, HASH_TRIE_SETS);
}

#[test]
fn red_black_tree_maps(rt: HostRuntime) {
    assert_counted(&rt, rt.alloc(), 6, RED_BLACK_TREE_MAPS);
}

#[test]
fn red_black_tree_sets(rt: HostRuntime) {
    assert_counted(&rt, rt.alloc(), 7, RED_BLACK_TREE_SETS);
}
