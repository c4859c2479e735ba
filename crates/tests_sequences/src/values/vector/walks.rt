// Walks from both ends.
use crate::values::vector::support::counting;
use rpds_vector::vector::Vector;
use std::process::Abort;

// Seven turns fall to the two ends of a walk over the numbers from 0 on, as the bits tell, so to the end and past it.
fn assert_turns(rt: &impl Abort, vector: &Vector<u64>, len: u64, turns: u32) {
    let mut walk = vector.iter();
    let mut left = 0..len;
    for turn in 0..7u32 {
        assert!(rt; walk.size_hint() == left.size_hint());
        let (item, number) = if (turns >> turn) & 1 == 0 {
            (walk.next(), left.next())
        } else {
            (walk.next_back(), left.next_back())
        };
        assert!(rt; item.copied() == number);
    }
}

// Each order of the turns.
#[test]
fn every_interleaving(rt: HostRuntime) {
    for len in [0u64, 5] {
        let vector = counting(rt.alloc(), 1, len).expect(&rt, "ample memory");
        for turns in 0..128u32 {
            assert_turns(&rt, &vector, len, turns);
        }
    }
}
