use rpds_faults::{FailingAllocator, FailingItem, LifeCounts};
use std::test::Fail;

#[test]
fn an_allocator_counts_and_refuses_one_request(rt: HostRuntime) -> Result<(), Fail> {
    let alloc = FailingAllocator::new(rt.alloc());
    let _first = Box::new(&alloc, 1u64)?;
    let _buffer: Vec<u64, &FailingAllocator> = Vec::with_capacity(&alloc, 10)?;
    assert_eq!(rt; u64::MAX - alloc.until_failure(), 2);
    for nth in 1..4u64 {
        alloc.refuse(nth);
        for request in 1..6u64 {
            assert_eq!(rt; Box::new(&alloc, request).is_ok(), request != nth);
        }
    }
    // Giving memory back is no request.
    alloc.refuse(u64::MAX);
    drop(Box::new(&alloc, 2u64)?);
    assert_eq!(rt; u64::MAX - alloc.until_failure(), 1);
    Ok(())
}

// What is handed out is counted, and what is given back, of the allocator below too. A refused request hands out nothing.
#[test]
fn an_allocator_counts_bytes(rt: HostRuntime) -> Result<(), Fail> {
    let below = FailingAllocator::new(rt.alloc());
    let alloc = FailingAllocator::new(&below);
    let three = Box::new(&alloc, (1u64, 2u64, 3u64))?;
    assert!(rt; alloc.bytes() == 24 && below.bytes() == 24);
    assert!(rt; !alloc.holds_nothing() && !below.holds_nothing());
    alloc.refuse(1);
    assert!(rt; Box::new(&alloc, 4u64).is_err());
    drop(three);
    assert!(rt; alloc.bytes() == 24 && alloc.holds_nothing() && below.holds_nothing());
    Ok(())
}

#[test]
fn a_growing_buffer_makes_requests(rt: HostRuntime) -> Result<(), Fail> {
    let alloc = FailingAllocator::new(rt.alloc());
    let mut buffer = Vec::with_capacity(&alloc, 1)?;
    buffer.push(1u64)?;
    alloc.refuse(1);
    assert!(rt; buffer.push(2).is_err());
    assert_eq!(rt; buffer.as_slice(), [1].as_slice());
    buffer.push(2)?;
    assert_eq!(rt; buffer.as_slice(), [1, 2].as_slice());
    Ok(())
}

#[test]
fn an_item_counts_clones_and_drops(rt: HostRuntime) -> Result<(), Fail> {
    let counts = LifeCounts::new();
    let item = FailingItem::new(7, &counts);
    counts.refuse(2);
    let copy = item.clone()?;
    assert!(rt; item.clone().is_err());
    assert!(rt; item.clone()? == copy);
    // The third clone.
    assert_eq!(rt; counts.drops(), 1);
    drop(item);
    drop(copy);
    assert_eq!(rt; counts.drops(), 3);
    assert!(rt; FailingItem::new(1, &counts) < FailingItem::new(2, &counts));
    Ok(())
}
