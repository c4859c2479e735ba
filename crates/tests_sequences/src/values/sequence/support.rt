// What the tests share.
use rpds_core::steps::Steps;
use rpds_sequence::sequence::Sequence;
use std::alloc::{AllocError, Allocator};
use std::process::Abort;

// The numbers below `len`.
pub(super) fn counting<A: Allocator + Copy>(
    alloc: A,
    len: u64,
) -> Result<Sequence<u64, A>, AllocError> {
    Sequence::from_iter(alloc, 0..len)
}

// The item at the index, by each look-up.
fn assert_item<A: Allocator>(
    rt: &impl Abort,
    sequence: &Sequence<u64, A>,
    index: usize,
    wanted: u64,
) {
    assert!(rt; sequence.get(index) == Some(&wanted));
    assert!(rt; sequence.get_counted(index, &mut Steps::new()) == Some(&wanted));
    assert!(rt; index < sequence.len() && sequence[index] == wanted);
}

// The sequence has these items, by index and in walks from both ends.
pub(super) fn assert_items<A: Allocator>(
    rt: &impl Abort,
    sequence: &Sequence<u64, A>,
    wanted: &[u64],
) {
    assert!(rt; sequence.len() == wanted.len());
    assert!(rt; sequence.is_empty() == wanted.is_empty());
    let mut walk = sequence.into_iter();
    for (index, number) in wanted.iter().enumerate() {
        assert_item(rt, sequence, index, *number);
        assert!(rt; walk.next() == Some(number));
    }
    assert!(rt; sequence.get(wanted.len()).is_none());
    assert!(rt; walk.next().is_none());
    assert!(rt;
        sequence
            .iter()
            .rev()
            .copied()
            .eq(wanted.iter().rev().copied())
    );
    for start in [0, 1, wanted.len() / 2, wanted.len(), usize::MAX] {
        let items = sequence.iter_from(start);
        assert!(rt; items.copied().eq(wanted.iter().skip(start).copied()));
    }
    assert!(rt; sequence.first() == wanted.first());
    assert!(rt; sequence.last() == wanted.last());
}
