//! Want of memory. Each command by itself is refused its allocations in `refused`.
use rpds_faults::FailingAllocator;
use rpds_snapshots::snapshots::{SnapCommand, SnapRefusal, SnapReply, Snapshots};
use std::alloc::{AllocError, Allocator};
use std::process::Abort;
use std::test::Fail;

const NO_MEMORY: SnapReply = SnapReply::Refused(SnapRefusal::NoMemory);

fn three_insertions<A: Allocator>(alloc: A) -> Result<Vec<SnapCommand<u64, u64>, A>, AllocError> {
    let commands = vec![in alloc;
        SnapCommand::Put(1, 10),
        SnapCommand::Put(2, 20),
        SnapCommand::Put(3, 30),
    ]?;
    Ok(commands)
}

// The room for the replies is one allocation, and each insertion takes two.
#[test]
fn a_run_goes_on_after_a_refused_command(rt: HostRuntime) -> Result<(), Fail> {
    let alloc = FailingAllocator::new(rt.alloc());
    let mut snapshots = Snapshots::new(&alloc);
    let commands = three_insertions(&alloc)?;
    alloc.refuse(4);
    let replies = snapshots.run(commands)?;
    let wanted = [SnapReply::Done(true), NO_MEMORY, SnapReply::Done(true)];
    assert!(rt; replies.as_slice() == wanted.as_slice());
    let map = snapshots.current();
    assert!(rt; map.size() == 2 && map.get(&1) == Some(&10) && map.get(&3) == Some(&30));
    Ok(())
}

// The map of the numbers 1 to 3, and a snapshot of it.
fn filled<'f>(
    rt: &impl Abort,
    alloc: &'f FailingAllocator,
) -> Snapshots<u64, u64, &'f FailingAllocator> {
    let mut snapshots = Snapshots::new(alloc);
    for number in 1..=3u64 {
        assert!(rt; snapshots.apply(SnapCommand::Put(number, number)) == SnapReply::Done(true));
    }
    assert!(rt; snapshots.apply(SnapCommand::Take) == SnapReply::Taken(0));
    snapshots
}

// What takes none: the looks, a step back, and a key taken out of the empty map.
#[test]
fn without_memory(rt: HostRuntime) {
    let alloc = FailingAllocator::new(rt.alloc());
    let mut snapshots = filled(&rt, &alloc);
    alloc.refuse(1);
    assert!(rt; snapshots.count() == 1 && snapshots.current().size() == 3);
    assert!(rt; snapshots.len() == 1 && !snapshots.is_empty());
    assert!(rt; snapshots.at(0).is_some() && snapshots.at(1).is_none());
    assert!(rt; snapshots.apply(SnapCommand::GoBack(0)) == SnapReply::Done(true));
    let none = SnapReply::Refused(SnapRefusal::NoSnapshot);
    assert!(rt; snapshots.apply(SnapCommand::GoBack(1)) == none);
    let mut empty: Snapshots<u64, u64, &FailingAllocator> = Snapshots::new(&alloc);
    assert!(rt; empty.apply(SnapCommand::TakeOut(1)) == SnapReply::Done(false));
    assert!(rt; alloc.until_failure() == 1);
}
