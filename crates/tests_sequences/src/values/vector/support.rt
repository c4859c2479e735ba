// What the tests share.
ghost use Rattle.std.specs.Prelude.{◌≤◌, ◌<◌};

use rpds_core::steps::Steps;
use rpds_vector::vector::Vector;
use std::alloc::{AllocError, Allocator};
use std::process::Abort;

// The numbers below `len`, put in one by one.
pub(super) fn counting<A: Allocator + Copy>(
    alloc: A,
    bits: u8,
    len: u64,
) -> Result<Vector<u64, A>, AllocError>
    requires { (1 ≤ bits) × (bits < 64) }
{
    let mut vector = Vector::new_with_bits(alloc, bits);
    for number in 0..len {
        vector.push_back_mut(number)?;
    }
    Ok(vector)
}

// The item at the index, by each look-up.
fn assert_item<A: Allocator>(rt: &impl Abort, vector: &Vector<u64, A>, index: usize, wanted: u64) {
    assert!(rt; vector.get(index) == Some(&wanted));
    assert!(rt; vector.get_counted(index, &mut Steps::new()) == Some(&wanted));
    assert!(rt; index < vector.len() && vector[index] == wanted);
}

// The vector has these items, by index and in a walk.
pub(super) fn assert_items<A: Allocator>(rt: &impl Abort, vector: &Vector<u64, A>, wanted: &[u64]) {
    assert!(rt; vector.len() == wanted.len());
    assert!(rt; vector.is_empty() == wanted.is_empty());
    let mut walk = vector.into_iter();
    for (index, number) in wanted.iter().enumerate() {
        assert_item(rt, vector, index, *number);
        assert!(rt; walk.next() == Some(number));
    }
    assert!(rt; vector.get(wanted.len()).is_none());
    assert!(rt; walk.next().is_none());
    assert!(rt; vector.first() == wanted.first());
    assert!(rt; vector.last() == wanted.last());
}
