ghost use Rattle.std.specs.Prelude.{◌≡◌, ◌+◌, [], ◌∷◌, IfOk};

use rpds_core::steps::Steps;
use rpds_faults::{Numbers, texts_are};
use rpds_list::list::List;
use std::alloc::{AllocError, Global};
use std::process::Abort;

fn one_two_three(alloc: Global) -> Result<List<u64>, AllocError>
    ensures { IfOk result (λ list. list ≡ 1 ∷ 2 ∷ 3 ∷ []) }
{
    List::new(alloc).push_front(3)?.push_front(2)?.push_front(1)
}

fn of_array(alloc: Global) -> Result<List<u64>, AllocError>
    ensures { IfOk result (λ list. list ≡ 1 ∷ 2 ∷ 3 ∷ []) }
{
    List::from_array(alloc, [1, 2, 3])
}

fn reversed(alloc: Global, steps: &mut Steps) -> Result<List<u64>, AllocError>
    ensures items { IfOk result (λ list. list ≡ 3 ∷ 2 ∷ 1 ∷ []) }
    ensures moved { IfOk result (λ _. steps.new.moved ≡ steps.old.moved + 3) }
{
    one_two_three(alloc)?.reverse_counted(steps)
}

#[test]
fn text(rt: HostRuntime) {
    let none: List<u64> = List::new(rt.alloc());
    let list = one_two_three(rt.alloc()).expect(&rt, "ample memory");
    let back = reversed(rt.alloc(), &mut Steps::new()).expect(&rt, "ample memory");
    let found = texts_are(
        rt.alloc(),
        (&none, &list, &back),
        "[] [1, 2, 3] [  3,   2,   1]",
        "[] [1, 2, 3] [\n    3,\n    2,\n    1,\n]",
    );
    assert!(rt; found == Ok(true));
}

#[test]
fn made_of_an_array(rt: HostRuntime) {
    let list = of_array(rt.alloc()).expect(&rt, "ample memory");
    assert!(rt; list.iter().copied().eq([1, 2, 3]) && list.last() == Some(&3));
    let none = List::<u64>::from_array(rt.alloc(), []).expect(&rt, "ample memory");
    assert!(rt; none.is_empty());
}

#[test]
fn steps_take_no_bytes(rt: HostRuntime) {
    assert!(rt; std::mem::size_of::<Steps>() == 0);
}

#[test]
fn long_chains_end(rt: HostRuntime) {
    let list = List::from_iter(rt.alloc(), 0..50_000u64).expect(&rt, "ample memory");
    let tail = list
        .drop_first()
        .expect(&rt, "ample memory")
        .expect(&rt, "an item");
    drop(list);
    assert!(rt; tail.last() == Some(&49_999));
    assert!(rt; tail.iter().count() == 49_999);
}

fn counting(alloc: Global, from: u64, to: u64) -> Result<List<u64>, AllocError> {
    List::from_iter(alloc, from..to)
}

// The list is of the numbers from the one to the other.
fn assert_numbers(rt: &impl Abort, list: &List<u64>, from: u64, to: u64) {
    assert!(rt; list.iter().copied().eq(from..to));
    assert!(rt; list.last().copied() == if from < to { Some(to - 1) } else { None });
}

// What two lists have one behind the other is the whole.
fn assert_whole(rt: &impl Abort, front: &List<u64>, back: &List<u64>, whole: &List<u64>) {
    assert!(rt; front.len() <= 10 && back.len() <= 10);
    let joined = front.append(back).expect(rt, "ample memory");
    assert!(rt; joined == *whole && joined.last() == whole.last());
}

// The numbers below `len`, cut at a place, and put together again.
fn assert_cut(rt: &impl Abort, alloc: Global, len: u64, place: u64) {
    let list = counting(alloc, 0, len).expect(rt, "ample memory");
    let back = list.skip(place as usize).expect(rt, "ample memory");
    assert_numbers(rt, &back, place.min(len), len);
    let front = counting(alloc, 0, place.min(len)).expect(rt, "ample memory");
    assert_whole(rt, &front, &back, &list);
}

#[test]
fn parts(rt: HostRuntime) {
    for len in 0..5u64 {
        for place in 0..6u64 {
            assert_cut(&rt, rt.alloc(), len, place);
        }
    }
}

// Turned in place, the list is as the other one.
fn assert_turned(rt: &impl Abort, list: &mut List<u64>, wanted: &List<u64>) {
    list.reverse_mut().expect(rt, "ample memory");
    assert!(rt; *list == *wanted && list.last() == wanted.last());
}

// A list with one cell before those that it shares with this one.
fn assert_longer(rt: &impl Abort, alloc: Global, list: &List<u64>) {
    let mut longer = list
        .drop_first()
        .expect(rt, "ample memory")
        .unwrap_or(List::new(alloc));
    longer.push_front_mut(7).expect(rt, "ample memory");
    longer.reverse_mut().expect(rt, "ample memory");
    assert!(rt; longer.last() == Some(&7));
}

// In shared cells, then with one cell before shared ones.
fn assert_shared(
    rt: &impl Abort,
    alloc: Global,
    list: &mut List<u64>,
    forth: &List<u64>,
    back: &List<u64>,
) {
    let kept = list.clone().expect(rt, "ample memory");
    assert_turned(rt, list, forth);
    assert!(rt; kept == *back);
    assert_longer(rt, alloc, list);
    assert!(rt; *list == *forth && kept == *back);
}

// In cells of its own, then in shared ones. Calls hold four cells each, near the middle and the end one each. More than 16,384 items go into
// new cells.
#[test]
fn reversed_in_place(rt: HostRuntime) {
    for len in &[0u64, 1, 2, 3, 4, 5, 6, 7, 8, 9, 13, 18, 16_384, 16_385] {
        let forth = counting(rt.alloc(), 0, *len).expect(&rt, "ample memory");
        let back = forth.reverse().expect(&rt, "ample memory");
        let mut list = counting(rt.alloc(), 0, *len).expect(&rt, "ample memory");
        assert_turned(&rt, &mut list, &back);
        assert_shared(&rt, rt.alloc(), &mut list, &forth, &back);
    }
}

// The first cells are the list's own, and the others are shared: these stay.
fn assert_end_stays(rt: &impl Abort, alloc: Global, own: u64) {
    let end = counting(alloc, own, 19).expect(rt, "ample memory");
    let front = counting(alloc, 0, own).expect(rt, "ample memory");
    let mut list = front.append(&end).expect(rt, "ample memory");
    let wanted = list.reverse().expect(rt, "ample memory");
    assert_turned(rt, &mut list, &wanted);
    assert_numbers(rt, &end, own, 19);
}

// Wherever the shared cells begin.
#[test]
fn reversed_before_shared_cells(rt: HostRuntime) {
    for own in 0..20u64 {
        assert_end_stays(&rt, rt.alloc(), own);
    }
}

// The first item goes, and is the last of the plain vector.
fn split_both(rt: &impl Abort, list: &mut List<u64>, plain: &mut Vec<u64>) {
    let rest = match list.split_first() {
        Ok(Some((first, rest))) => {
            assert!(rt; plain.pop() == Some(*first));
            rest
        }
        Ok(None) => {
            assert!(rt; plain.pop().is_none());
            return;
        }
        Err(_) => return,
    };
    assert!(rt; rest.len() == plain.len() && rest.last() == plain.first());
    *list = rest;
}

// Up to four numbers are put in at once, and up to five are taken out.
#[test]
fn extended_and_split(rt: HostRuntime) {
    let mut numbers = Numbers::new();
    let mut list = List::new(rt.alloc());
    let mut plain = Vec::new(rt.alloc());
    for _ in 0..1000u32 {
        let from = numbers.next() % 1_000_000;
        let to = from + numbers.next() % 5;
        list.extend(from..to).expect(&rt, "ample memory");
        plain.extend(from..to).expect(&rt, "ample memory");
        for _ in 0..numbers.next() % 6 {
            split_both(&rt, &mut list, &mut plain);
        }
        assert!(rt; list.iter().eq(plain.iter().rev()));
    }
}
