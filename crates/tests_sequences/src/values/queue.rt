ghost use Rattle.std.specs.Prelude.{◌≡◌, ◌+◌, [], ◌∷◌, IfOk};

use rpds_core::steps::Steps;
use rpds_faults::{Numbers, texts_are};
use rpds_list::queue::{Queue, QueueOp};
use std::alloc::{AllocError, Global};
use std::collections::VecDeque;
use std::process::Abort;

// Enqueue 0, 1, dequeue, enqueue 2, 3.
fn one_two_three(alloc: Global) -> Result<Queue<u64>, AllocError>
    ensures items { IfOk result (λ queue. queue.items ≡ 1 ∷ 2 ∷ 3 ∷ []) }
    ensures waiting { IfOk result (λ queue. queue.waiting ≡ 2) }
{
    let mut queue = Queue::new(alloc).enqueue(0)?.enqueue(1)?;
    queue.dequeue_mut()?;
    queue.enqueue(2)?.enqueue(3)
}

fn of_array(alloc: Global) -> Result<Queue<u64>, AllocError>
    ensures items { IfOk result (λ queue. queue.items ≡ 1 ∷ 2 ∷ 3 ∷ []) }
    ensures waiting { IfOk result (λ queue. queue.waiting ≡ 0) }
{
    Queue::from_array(alloc, [1, 2, 3])
}

fn assert_items(rt: &impl Abort, queue: &Queue<u64>, items: &[u64]) {
    assert!(rt; queue.len() == items.len());
    let mut left = queue.iter().expect(rt, "ample memory");
    for item in items {
        assert!(rt; left.next() == Some(item));
    }
    assert!(rt; left.next().is_none());
}

#[test]
fn text(rt: HostRuntime) {
    let none: Queue<u64> = Queue::new(rt.alloc());
    let queue = one_two_three(rt.alloc()).expect(&rt, "ample memory");
    assert_items(&rt, &queue, &[1, 2, 3]);
    let found = texts_are(
        rt.alloc(),
        (&none, &queue, &queue),
        "Queue() Queue(1, 2, 3) Queue(  1,   2,   3)",
        "[] [1, 2, 3] [\n    1,\n    2,\n    3,\n]",
    );
    assert!(rt; found == Ok(true));
}

#[test]
fn made_of_an_array(rt: HostRuntime) {
    let queue = of_array(rt.alloc()).expect(&rt, "ample memory");
    assert_items(&rt, &queue, &[1, 2, 3]);
}

fn replayed(alloc: Global, steps: &mut Steps) -> Result<Queue<u64>, AllocError>
    ensures items { IfOk result (λ queue. queue.items ≡ 3 ∷ []) }
    ensures moved { IfOk result (λ _. steps.new.moved ≡ steps.old.moved + 4) }
{
    let ops = vec![in alloc;
        QueueOp::Enqueue(0),
        QueueOp::Enqueue(1),
        QueueOp::Dequeue,
        QueueOp::Enqueue(2),
        QueueOp::Enqueue(3),
        QueueOp::Dequeue,
        QueueOp::Dequeue,
    ]?;
    Queue::replay(alloc, ops, steps)
}

fn replayed_past_the_end(alloc: Global, steps: &mut Steps) -> Result<Queue<u64>, AllocError>
    ensures items { IfOk result (λ queue. queue.items ≡ 3 ∷ []) }
    ensures moved { IfOk result (λ _. steps.new.moved ≡ steps.old.moved + 2) }
{
    let ops = vec![in alloc;
        QueueOp::Dequeue,
        QueueOp::Enqueue(1),
        QueueOp::Enqueue(2),
        QueueOp::Dequeue,
        QueueOp::Dequeue,
        QueueOp::Dequeue,
        QueueOp::Enqueue(3),
    ]?;
    Queue::replay(alloc, ops, steps)
}

#[test]
fn replays(rt: HostRuntime) {
    let queue = replayed(rt.alloc(), &mut Steps::new()).expect(&rt, "ample memory");
    assert_items(&rt, &queue, &[3]);
    let queue = replayed_past_the_end(rt.alloc(), &mut Steps::new()).expect(&rt, "ample memory");
    assert_items(&rt, &queue, &[3]);
}

// A run of changes, five enqueues in eight, so that the queue grows; and a deque that was changed so.
fn long_run(rt: &impl Abort, alloc: Global) -> (Vec<QueueOp<u64>>, VecDeque<u64>) {
    let mut ops = Vec::new(alloc);
    let mut deque = VecDeque::new(alloc);
    let mut numbers = Numbers::new();
    for number in 0..10_000u64 {
        if numbers.next() % 8 < 5 {
            ops.push(QueueOp::Enqueue(number))
                .expect(rt, "ample memory");
            deque.push_back(number).expect(rt, "ample memory");
        } else {
            ops.push(QueueOp::Dequeue).expect(rt, "ample memory");
            deque.pop_front();
        }
    }
    (ops, deque)
}

#[test]
fn a_long_replay_agrees_with_a_deque(rt: HostRuntime) {
    let (ops, deque) = long_run(&rt, rt.alloc());
    let queue = Queue::replay(rt.alloc(), ops, &mut Steps::new()).expect(&rt, "ample memory");
    assert!(rt; queue.len() == deque.len());
    let mut left = queue.iter().expect(&rt, "ample memory");
    for wanted in deque.iter() {
        assert!(rt; left.next() == Some(wanted));
    }
}

// The walks and their copies go on from each place alike.
fn assert_copied(rt: &impl Abort, queue: &Queue<u64>, len: u64) {
    let mut walk = queue.iter().expect(rt, "ample memory");
    let mut free = queue.from_front();
    for number in 0..len {
        let copy = walk.clone().expect(rt, "ample memory");
        assert!(rt; copy.copied().eq(number..len));
        let copy = free.clone().expect(rt, "no memory asked");
        assert!(rt; copy.copied().eq(number..len));
        assert!(rt; walk.next() == Some(&number) && free.next() == Some(&number));
    }
}

// Three items are in the out list, and the others wait.
#[test]
fn copies_of_walks(rt: HostRuntime) {
    let mut queue = Queue::from_array(rt.alloc(), [0, 1, 2]).expect(&rt, "ample memory");
    queue.extend(3..200).expect(&rt, "ample memory");
    assert_copied(&rt, &queue, 200);
}

fn waiting(alloc: Global, len: u64) -> Result<Queue<u64>, AllocError> {
    let mut queue = Queue::new(alloc);
    queue.extend(0..len)?;
    Ok(queue)
}

// The queue has the numbers from the one to the other.
fn assert_numbers(rt: &impl Abort, queue: &Queue<u64>, from: u64, to: u64) {
    let left = queue.iter().expect(rt, "ample memory");
    assert!(rt; left.copied().eq(from..to));
}

// What waits is turned in its own cells.
fn turned(rt: &impl Abort, alloc: Global, len: u64) -> Queue<u64> {
    let mut own = waiting(alloc, len).expect(rt, "ample memory");
    assert!(rt; own.dequeue_mut() == Ok(true));
    own
}

// And in new ones where another queue shares them.
fn assert_shared(rt: &impl Abort, alloc: Global, own: &Queue<u64>, len: u64) {
    let mut shared = waiting(alloc, len).expect(rt, "ample memory");
    let kept = shared.clone().expect(rt, "ample memory");
    assert!(rt; shared.dequeue_mut() == Ok(true));
    assert!(rt; shared == *own);
    assert_numbers(rt, &kept, 0, len);
}

// More than 16,384 go into new cells too.
#[test]
fn turned_in_place(rt: HostRuntime) {
    for len in &[1u64, 2, 3, 4, 5, 6, 7, 8, 9, 16_384, 16_385] {
        let own = turned(&rt, rt.alloc(), *len);
        assert_numbers(&rt, &own, 1, *len);
        assert_shared(&rt, rt.alloc(), &own, *len);
    }
}

#[test]
fn long_chains_end(rt: HostRuntime) {
    let queue = waiting(rt.alloc(), 50_000).expect(&rt, "ample memory");
    let turned = queue
        .dequeue()
        .expect(&rt, "ample memory")
        .expect(&rt, "an item");
    drop(queue);
    assert!(rt; turned.len() == 49_999);
    assert!(rt; turned.peek() == Some(&1));
}

// The first item goes, and is that of the deque.
fn split_both(rt: &impl Abort, queue: &mut Queue<u64>, deque: &mut VecDeque<u64>) {
    let rest = match queue.split_first() {
        Ok(Some((first, rest))) => {
            assert!(rt; deque.pop_front() == Some(*first));
            rest
        }
        Ok(None) => {
            assert!(rt; deque.pop_front().is_none());
            return;
        }
        Err(_) => return,
    };
    assert!(rt; rest.len() == deque.len() && rest.peek() == deque.front());
    *queue = rest;
}

// Up to four numbers are put in at once, and up to five are taken out.
#[test]
fn extended_and_split(rt: HostRuntime) {
    let mut numbers = Numbers::new();
    let mut queue = Queue::new(rt.alloc());
    let mut deque = VecDeque::new(rt.alloc());
    for _ in 0..1000u32 {
        let from = numbers.next() % 1_000_000;
        let to = from + numbers.next() % 5;
        queue.extend(from..to).expect(&rt, "ample memory");
        for number in from..to {
            deque.push_back(number).expect(&rt, "ample memory");
        }
        for _ in 0..numbers.next() % 6 {
            split_both(&rt, &mut queue, &mut deque);
        }
        let mut left = queue.iter().expect(&rt, "ample memory");
        assert!(rt; left.eq(deque.iter()));
    }
}
