// Worked examples. How many nodes a look-up visits is what the contract of `look_up` says.
ghost use Rattle.std.specs.Prelude.{◌<◌, length};
ghost use Rattle.tests_sequences.specs.Visits.{VisitsRows};

use crate::values::vector::support::counting;
use rpds_core::steps::Steps;
use rpds_faults::texts_are;
use rpds_vector::vector::Vector;
use std::alloc::{Allocator, Global};
use std::process::Abort;

// A look-up, and how many nodes it visits at some bits and lengths.
fn look_up<A: Allocator>(vector: &Vector<u64, A>, index: usize, steps: &mut Steps) -> Option<u64>
    requires { index < length vector.now.items }
    ensures { VisitsRows vector.now steps.old steps.new }
{
    vector.get_counted(index, steps).copied()
}

// Bits, and how many items.
const ROWS: [(u8, u64); 14] = [
    (1, 1),
    (1, 2),
    (1, 3),
    (1, 4),
    (1, 5),
    (1, 1025),
    (2, 16),
    (2, 17),
    (5, 32),
    (5, 33),
    (5, 1024),
    (5, 1025),
    (63, 2),
    (63, 1000),
];

#[test]
fn look_ups(rt: HostRuntime) {
    let mut steps = Steps::new();
    for (bits, len) in ROWS {
        assert!(rt; 1 <= bits && bits < 64);
        let vector = counting(rt.alloc(), bits, len).expect(&rt, "ample memory");
        let index = vector.len() / 2;
        assert!(rt; index < vector.len());
        assert!(rt; look_up(&vector, index, &mut steps) == Some(len / 2));
    }
}

#[test]
fn text(rt: HostRuntime) {
    let none = counting(rt.alloc(), 1, 0).expect(&rt, "ample memory");
    let vector = counting(rt.alloc(), 1, 3).expect(&rt, "ample memory");
    let found = texts_are(
        rt.alloc(),
        (&none, &vector, &vector),
        "[] [0, 1, 2] [  0,   1,   2]",
        "[] [0, 1, 2] [\n    0,\n    1,\n    2,\n]",
    );
    assert!(rt; found == Ok(true));
}

// The vector with another last item.
fn with_last(
    rt: &impl Abort,
    alloc: Global,
    old: &Vector<&'static str>,
    last: &'static str,
) -> Vector<&'static str> {
    let shorter = old
        .drop_last()
        .expect(rt, "ample memory")
        .unwrap_or(Vector::new(alloc));
    assert!(rt; shorter.len() == 2);
    shorter.push_back(last).expect(rt, "ample memory")
}

fn assert_words(rt: &impl Abort, vector: &Vector<&'static str>, words: [&'static str; 3]) {
    assert!(rt; vector.iter().eq(&words));
}

// A changed vector leaves the one that it was made from.
#[test]
fn texts_of_two(rt: HostRuntime) {
    let old = Vector::from_iter(rt.alloc(), ["I’m", "a", "vector"]).expect(&rt, "ample memory");
    let new = with_last(&rt, rt.alloc(), &old, "VECTOR!!!");
    assert_words(&rt, &old, ["I’m", "a", "vector"]);
    assert_words(&rt, &new, ["I’m", "a", "VECTOR!!!"]);
}
