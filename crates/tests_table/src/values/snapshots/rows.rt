//! Worked rows, with ample memory.
use rpds_faults::{FailingItem, LifeCounts};
use rpds_snapshots::snapshots::{SnapCommand, SnapRefusal, SnapReply, Snapshots};
use std::alloc::{AllocError, Global};
use std::test::Fail;

// The text of the map as it is now, and of each snapshot.
fn texts(alloc: Global, snapshots: &Snapshots<u64, u64>) -> Result<String, AllocError> {
    let mut text = format!(in alloc; "{}", snapshots.current())?;
    for index in 0..snapshots.count() {
        if let Some(kept) = snapshots.at(index) {
            let more = format!(in alloc; " {kept}")?;
            text.push_str(more.as_str())?;
        }
    }
    Ok(text)
}

// The map {2: 20}, with snapshots of {1: 10} and {1: 11, 2: 20}, and the replies to the commands that make it.
fn two_snapshots(alloc: Global) -> Result<(Snapshots<u64, u64>, Vec<SnapReply>), AllocError> {
    let mut snapshots = Snapshots::new(alloc);
    let commands = vec![in alloc;
        SnapCommand::Put(1, 10),
        SnapCommand::Take,
        SnapCommand::Put(1, 11),
        SnapCommand::Put(2, 20),
        SnapCommand::Take,
        SnapCommand::TakeOut(1),
        SnapCommand::TakeOut(1),
    ]?;
    let replies = snapshots.run(commands)?;
    Ok((snapshots, replies))
}

#[test]
fn a_run(rt: HostRuntime) -> Result<(), Fail> {
    let (snapshots, replies) = two_snapshots(rt.alloc())?;
    let wanted = [
        SnapReply::Done(true),
        SnapReply::Taken(0),
        SnapReply::Done(true),
        SnapReply::Done(true),
        SnapReply::Taken(1),
        SnapReply::Done(true),
        SnapReply::Done(false),
    ];
    assert_eq!(rt; replies.as_slice(), wanted.as_slice());
    let text = texts(rt.alloc(), &snapshots)?;
    assert_eq!(rt; text.as_str(), "{2: 20} {1: 10} {1: 11, 2: 20}");
    Ok(())
}

// As a struct of std's maps is printed.
#[test]
fn printed_for_debugging(rt: HostRuntime) {
    let (snapshots, _) = two_snapshots(rt.alloc()).expect(&rt, "ample memory");
    let text = format!(in rt.alloc(); "{snapshots:?}").expect(&rt, "ample memory");
    let wanted = "Snapshots { current: {2: 20}, taken: [{1: 10}, {1: 11, 2: 20}] }";
    assert!(rt; text.as_str() == wanted, "{text}");
    let text = format!(in rt.alloc(); "{snapshots:#?}").expect(&rt, "ample memory");
    let wanted = "Snapshots {
    current: {
        2: 20,
    },
    taken: [
        {
            1: 10,
        },
        {
            1: 11,
            2: 20,
        },
    ],
}";
    assert!(rt; text.as_str() == wanted, "{text}");
}

#[test]
fn back_and_forth(rt: HostRuntime) -> Result<(), Fail> {
    let (mut snapshots, _) = two_snapshots(rt.alloc())?;
    let none = SnapReply::Refused(SnapRefusal::NoSnapshot);
    // Where it goes back to, what is replied, and the map then.
    for (index, reply, shown) in [
        (0usize, SnapReply::Done(true), "{1: 10}"),
        (2, none, "{1: 10}"),
        (1, SnapReply::Done(true), "{1: 11, 2: 20}"),
    ] {
        assert_eq!(rt; snapshots.apply(SnapCommand::GoBack(index)), reply);
        let text = texts(rt.alloc(), &snapshots)?;
        let wanted = format!(in rt.alloc(); "{shown} {{1: 10}} {{1: 11, 2: 20}}")?;
        assert_eq!(rt; text.as_str(), wanted.as_str());
    }
    assert_eq!(rt; snapshots.current().get(&2).copied(), Some(20));
    assert!(rt; snapshots.current().get(&3).is_none() && snapshots.at(2).is_none());
    Ok(())
}

// Twenty keys put in, a snapshot after each.
fn forty_commands(alloc: Global) -> Result<Vec<SnapCommand<u64, u64>>, AllocError> {
    let mut commands = Vec::new(alloc);
    for key in 0..20u64 {
        commands.push(SnapCommand::Put(key, key))?;
        commands.push(SnapCommand::Take)?;
    }
    Ok(commands)
}

#[test]
fn a_long_run(rt: HostRuntime) -> Result<(), Fail> {
    let mut snapshots = Snapshots::new(rt.alloc());
    let replies = snapshots.run(forty_commands(rt.alloc())?)?;
    assert!(rt; replies.len() == 40 && snapshots.count() == 20);
    for (index, reply) in replies.iter().enumerate() {
        let wanted = match index % 2 {
            0 => SnapReply::Done(true),
            _ => SnapReply::Taken(index / 2),
        };
        assert!(rt; *reply == wanted);
    }
    Ok(())
}

#[test]
fn numbers_of_refusals(rt: HostRuntime) {
    let refusals = [
        SnapRefusal::NoSnapshot,
        SnapRefusal::Full,
        SnapRefusal::NoMemory,
    ];
    assert_eq!(rt; refusals.map(|refusal| refusal.number()), [9, 6, 7]);
}

// The map that is left drops what no snapshot has: here the second pair, and the first value.
#[test]
fn what_is_left_is_dropped(rt: HostRuntime) {
    let counts = LifeCounts::new();
    let mut snapshots = Snapshots::new(rt.alloc());
    for command in [
        SnapCommand::Put(FailingItem::new(1, &counts), FailingItem::new(10, &counts)),
        SnapCommand::Take,
        SnapCommand::Put(FailingItem::new(1, &counts), FailingItem::new(11, &counts)),
        SnapCommand::Put(FailingItem::new(2, &counts), FailingItem::new(20, &counts)),
    ] {
        let _ = snapshots.apply(command);
    }
    assert_eq!(rt; counts.living(), 6);
    assert_eq!(rt;
        snapshots.apply(SnapCommand::GoBack(0)),
        SnapReply::Done(true)
    );
    assert_eq!(rt; counts.living(), 2);
    drop(snapshots);
    assert_eq!(rt; counts.living(), 0);
}
