//! Many snapshots of one large map share its nodes.
use rpds_faults::{FailingAllocator, requests};
use rpds_snapshots::snapshots::{SnapCommand, SnapReply, Snapshots};
use std::process::Abort;

type Numbered<'f> = Snapshots<u64, u64, &'f FailingAllocator>;

// The map of the numbers 0 to 9,999, with 1,000 snapshots of it, and the allocations that these took.
fn thousand_snapshots<'f>(rt: &impl Abort, alloc: &'f FailingAllocator) -> (Numbered<'f>, u64) {
    let mut snapshots = Snapshots::new(alloc);
    for number in 0..10_000u64 {
        assert!(rt; snapshots.apply(SnapCommand::Put(number, number)) == SnapReply::Done(true));
    }
    let _ = requests(alloc);
    for number in 0..1_000usize {
        assert!(rt; snapshots.apply(SnapCommand::Take) == SnapReply::Taken(number));
    }
    (snapshots, requests(alloc))
}

// Whether the snapshot is as the map is now: its size, one pair of its own, and for each hundredth all pairs.
fn is_current(snapshots: &Numbered<'_>, index: usize) -> bool {
    let Some(kept) = snapshots.at(index) else {
        return false;
    };
    let number = index as u64;
    kept.size() == 10_000
        && kept.get(&number) == snapshots.current().get(&number)
        && (index % 100 != 0 || kept == snapshots.current())
}

fn are_current(snapshots: &Numbered<'_>) -> bool {
    for index in 0..1_000usize {
        if !is_current(snapshots, index) {
            return false;
        }
    }
    true
}

#[test]
fn a_snapshot_takes_no_node(rt: HostRuntime) {
    let alloc = FailingAllocator::new(rt.alloc());
    let (mut snapshots, taken) = thousand_snapshots(&rt, &alloc);
    // The list of 1,000 grows by doubling.
    assert!(rt; taken <= 11, "{taken}");
    assert!(rt; are_current(&snapshots));
    // A path has at most 2 floor(log2(10,001)) = 26 nodes.
    assert!(rt; snapshots.apply(SnapCommand::Put(500, 0)) == SnapReply::Done(true));
    let changed = requests(&alloc);
    assert!(rt; changed <= 28, "{changed}");
    assert!(rt; !is_current(&snapshots, 500));
    assert!(rt; snapshots.apply(SnapCommand::GoBack(999)) == SnapReply::Done(true));
    assert_eq!(rt; requests(&alloc), 0);
    assert!(rt; are_current(&snapshots));
}
