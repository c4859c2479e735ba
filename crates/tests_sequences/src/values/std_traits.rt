//! std's traits: what `collect`, `try_collect`, `Extend`, `len`, `or_default` and `try_take` make of sequences.
ghost use Rattle.std.specs.Prelude.{◌≡◌, ◌*◌, IfOk, length, map, filter, nat_lt};

use rpds_core::lend::ValueMutError;
use rpds_list::list::List;
use rpds_list::queue::Queue;
use rpds_list::stack::Stack;
use rpds_nest::nest_vector::NestVector;
use rpds_vector::vector::Vector;
use std::alloc::{AllocError, Global};
use std::collections::BTreeMap;
use std::iter::Extend;
use std::mem;

fn doubled(alloc: Global, items: &[u8]) -> Result<List<u16>, AllocError>
    ensures { IfOk result (λ list. list ≡ map (λ x. 2 * x) items.now) }
{
    items.iter().map(|x| 2 * u16::from(*x)).collect(alloc)
}

fn below_ten(alloc: Global, list: &List<u64>) -> Result<Vector<u64>, AllocError>
    ensures { IfOk result (λ few. few.items ≡ filter (λ x. nat_lt x 10) list.now) }
{
    list.iter().copied().filter(|x| *x < 10).collect(alloc)
}

fn count(vector: &Vector<u64>) -> usize
    ensures { result ≡ length vector.now.items }
{
    vector.iter().len()
}

#[test]
fn collected(rt: HostRuntime) {
    let alloc = rt.alloc();
    let list = doubled(alloc, &[3, 20, 1]).expect(&rt, "ample memory");
    assert!(rt; list.iter().copied().eq([6, 40, 2]));
    let stack: Stack<u64> = (0u64..3).collect(alloc).expect(&rt, "ample memory");
    assert!(rt; stack.peek() == Some(&0));
    let queue: Queue<u64> = (0u64..3).collect(alloc).expect(&rt, "ample memory");
    assert!(rt; queue.peek() == Some(&0));
    let nested: NestVector<u64> = (0u64..3).collect(alloc).expect(&rt, "ample memory");
    assert!(rt; nested.last() == Some(&2));
}

#[test]
fn made_of_an_array(rt: HostRuntime) {
    let alloc = rt.alloc();
    let vector = Vector::from_array(alloc, [1, 2, 3]).expect(&rt, "ample memory");
    assert!(rt; vector.iter().copied().eq([1, 2, 3]));
    let nested = NestVector::from_array(alloc, [1, 2, 3]).expect(&rt, "ample memory");
    assert!(rt; nested.iter().copied().eq([1, 2, 3]));
}

#[test]
fn collected_from_each_other(rt: HostRuntime) {
    let alloc = rt.alloc();
    let list: List<u64> = [12u64, 3, 40, 5]
        .into_iter()
        .collect(alloc)
        .expect(&rt, "ample memory");
    let vector = below_ten(alloc, &list).expect(&rt, "ample memory");
    assert!(rt; vector.iter().copied().eq([3, 5]));
    assert!(rt; count(&vector) == 2);
}

// The half of an even number.
fn half(number: &u64) -> Result<u64, ValueMutError> {
    if *number % 2 == 0 {
        Ok(*number / 2)
    } else {
        Err(ValueMutError::Absent)
    }
}

// The items are put in one by one, so a list has the last one first.
#[test]
fn collected_up_to_an_error(rt: HostRuntime) {
    let alloc = rt.alloc();
    let vector: Result<Vector<u64>, _> = [2, 4].iter().map(half).try_collect(alloc);
    assert!(rt; vector.is_ok_and(|vector| vector.iter().copied().eq([1, 2])));
    let list: Result<List<u64>, _> = [2, 4].iter().map(half).try_collect(alloc);
    assert!(rt; list.is_ok_and(|list| list.iter().copied().eq([2, 1])));
    let stopped: Result<Vector<u64>, _> = [2, 3, 4].iter().map(half).try_collect(alloc);
    assert!(rt; stopped == Err(ValueMutError::Absent));
}

#[test]
fn extended(rt: HostRuntime) {
    let alloc = rt.alloc();
    let mut list: List<u64> = List::new(alloc);
    Extend::extend(&mut list, 0u64..3).expect(&rt, "ample memory");
    assert!(rt; list.iter().copied().eq([2, 1, 0]));
    let mut vector: Vector<u64> = Vector::new(alloc);
    Extend::extend(&mut vector, list.iter().copied()).expect(&rt, "ample memory");
    assert!(rt; vector.iter().copied().eq([2, 1, 0]));
}

// A walk knows what is left of it, and a copy of it goes on from the same place.
#[test]
fn left_of_a_walk(rt: HostRuntime) {
    let alloc = rt.alloc();
    let list: List<u64> = (0u64..5).collect(alloc).expect(&rt, "ample memory");
    let mut walk = list.iter();
    assert!(rt; walk.next() == Some(&0));
    assert!(rt; walk.len() == 4);
    let copy = walk.clone().expect(&rt, "ample memory");
    assert!(rt; copy.copied().eq([1, 2, 3, 4]));
    assert!(rt; walk.len() == 4);
}

#[test]
fn empty_ones(rt: HostRuntime) {
    let alloc = rt.alloc();
    let mut vector: Vector<u64> = (0u64..3).collect(alloc).expect(&rt, "ample memory");
    let taken = mem::try_take(&mut vector).expect(&rt, "ample memory");
    assert!(rt; vector.is_empty());
    assert!(rt; taken.len() == 3);
    let mut lists: BTreeMap<u64, List<u64>> = BTreeMap::new(alloc);
    let entry = lists.entry(7).expect(&rt, "ample memory");
    let list = entry.or_default();
    list.push_front_mut(1).expect(&rt, "ample memory");
    assert!(rt; lists.get(&7).map(|list| list.len()) == Some(1));
}
