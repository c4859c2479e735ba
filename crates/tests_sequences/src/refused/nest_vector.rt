//! Each request for memory of each call refused in turn, and how many there are.
use rpds_faults::FailingAllocator;
use rpds_nest::nest_vector::NestVector;
use std::alloc::{AllocError, Allocator};
use std::process::Abort;

// The calls that ask for memory.
#[derive(Clone, Copy, Debug)]
enum Call {
    Clone,
    PushBack,
    PushBackMut,
    Set,
    SetMut,
    DropLast,
    DropLastMut,
    Extend,
    Collect,
    OfArray,
}

const CALLS: [Call; 10] = [
    Call::Clone,
    Call::PushBack,
    Call::PushBackMut,
    Call::Set,
    Call::SetMut,
    Call::DropLast,
    Call::DropLastMut,
    Call::Extend,
    Call::Collect,
    Call::OfArray,
];

// A vector: how many items are put in, and how many of them are taken out again; and how many requests each call makes, in the
// order of `CALLS`. The open row is full, has one item, is empty.
//
// A clone asks for each open row that has items. A push asks for the item, and for room in an open row that is empty or was made to
// fit; where it is full, for a new one, and a copy with its pointer, which goes to the level above. A write asks for the item, and for
// a copy of a row with its pointer on each level below the open row that leads to it; the removal of the last item for a row where the
// open one is empty. `Extend` and `Collect` put two items in, and `OfArray` those of a buffer.
const VECTORS: [(u64, u64, [u64; 10]); 5] = [
    (64, 0, [1, 6, 5, 2, 1, 1, 0, 8, 3, 4]),
    (65, 0, [2, 4, 2, 5, 3, 2, 0, 5, 3, 4]),
    (4160, 0, [2, 10, 8, 5, 3, 2, 0, 12, 3, 4]),
    (65, 1, [1, 3, 2, 4, 3, 2, 1, 4, 3, 4]),
    (4161, 1, [2, 4, 2, 7, 5, 3, 1, 5, 3, 4]),
];

// Makes the call. What it hands out takes the vector's place.
fn perform<A: Allocator + Copy>(
    vector: &mut NestVector<u64, A>,
    call: Call,
) -> Result<bool, AllocError> {
    let made = match call {
        Call::Clone => Some(vector.clone()?),
        Call::PushBack => Some(vector.push_back(7)?),
        Call::Set => vector.set(0, 7)?,
        Call::DropLast => vector.drop_last()?,
        Call::Collect => Some(NestVector::from_iter(*vector.allocator(), [7, 7])?),
        Call::OfArray => Some(NestVector::from_array(*vector.allocator(), [7, 7])?),
        Call::PushBackMut => {
            vector.push_back_mut(7)?;
            return Ok(true);
        }
        Call::SetMut => return vector.set_mut(0, 7),
        Call::DropLastMut => return vector.drop_last_mut(),
        Call::Extend => {
            vector.extend([7, 7])?;
            return Ok(true);
        }
    };
    match made {
        None => Ok(false),
        Some(made) => {
            *vector = made;
            Ok(true)
        }
    }
}

// Makes the call with this request refused, and returns whether it came to that. Both versions are as they were then.
fn is_refused<A: Allocator + Copy>(
    rt: &impl Abort,
    faults: &FailingAllocator,
    older: &NestVector<u64, A>,
    call: Call,
    nth: u64,
) -> bool {
    let mut vector = older.clone().expect(rt, "ample memory");
    faults.refuse(nth);
    let answer = perform(&mut vector, call);
    faults.refuse(0);
    assert!(rt; answer != Ok(false), "{call:?}");
    assert!(rt; answer.is_ok() || vector == *older, "{call:?}");
    answer.is_err()
}

// Has the first request of the call refused, the second, and so on, and returns how many there are.
fn count_refused<A: Allocator + Copy>(
    rt: &impl Abort,
    faults: &FailingAllocator,
    older: &NestVector<u64, A>,
    call: Call,
) -> u64 {
    for refused in 0..100 {
        if !is_refused(rt, faults, older, call, refused + 1) {
            return refused;
        }
    }
    100
}

// A vector of so many items, of which so many are taken out again.
fn vector_of<A: Allocator + Copy>(
    rt: &impl Abort,
    alloc: A,
    put: u64,
    dropped: u64,
) -> NestVector<u64, A> {
    let mut vector = NestVector::from_iter(alloc, 0..put).expect(rt, "ample memory");
    for _ in 0..dropped {
        vector.drop_last_mut().expect(rt, "ample memory");
    }
    vector
}

// Makes each call of a vector, and compares how many requests it makes.
fn check_calls<A: Allocator + Copy>(
    rt: &impl Abort,
    faults: &FailingAllocator,
    older: &NestVector<u64, A>,
    requests: &[u64; 10],
) {
    let len = older.len() as u64;
    for (call, wanted) in CALLS.iter().zip(requests.iter()) {
        let refused = count_refused(rt, faults, older, *call);
        assert!(rt; refused == *wanted, "{refused} of {call:?}");
        assert!(rt; older.iter().copied().eq(0..len), "{call:?}");
    }
}

// Makes a vector and each call of it.
fn check<A: Allocator + Copy>(
    rt: &impl Abort,
    faults: &FailingAllocator,
    alloc: A,
    vector: &(u64, u64, [u64; 10]),
) {
    let (put, dropped, requests) = vector;
    let older = vector_of(rt, alloc, *put, *dropped);
    check_calls(rt, faults, &older, requests);
}

// A refused call leaves the vector and the version that shares its rows as they were, and all memory is given back.
#[test]
fn each_request_of_each_call(rt: HostRuntime) {
    let faults = FailingAllocator::new(rt.alloc());
    for vector in &VECTORS {
        check(&rt, &faults, &faults, vector);
        assert!(rt; faults.holds_nothing(), "{vector:?}");
    }
}
