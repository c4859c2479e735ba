//! A run of operations on one queue, with a count of its moves.
ghost use Rattle.std.specs.Prelude.{◌≡◌, ◌+◌, ◌≤◌, [], fold, count_by, IfOk, IsOk};
ghost use Rattle.rpds_list.specs.QueueContents.{empty, items_after, contents_after, is_enqueue};

use super::Queue;
use rpds_core::steps::Steps;
use std::alloc::{AllocError, Allocator};

/// An operation on a queue.
#[derive(Clone, Debug, PartialEq, Eq, Drop)]
pub enum QueueOp<T> {
    /// Puts an item at the back.
    Enqueue(T),
    /// Drops the first item. Where there is none, it does nothing.
    Dequeue,
}

impl<T: Drop, A: Allocator + Copy> Queue<T, A> {
    /// The queue that the operations make in turn, from an empty one. It adds one to `moved` for each item that goes from
    /// the in list to the out list: once at most for each item, so that the whole run has at most as many moves as enqueues.
    /// Without an enqueue nothing is allocated.
    pub fn replay(
        alloc: A,
        ops: Vec<QueueOp<T>, A>,
        steps: &mut Steps,
    ) -> Result<Queue<T, A>, AllocError>
        ensures items { IfOk result (λ queue. queue.items ≡ fold items_after [] ops.items) }
        ensures contents { IfOk result (λ queue. queue ≡ fold contents_after empty ops.items) }
        ensures none { count_by is_enqueue ops.items ≡ 0 → IsOk result }

        // Each item that was put in was moved once, or still waits.
        ensures moved { IfOk result (λ queue.
            steps.new.moved + queue.waiting ≡ steps.old.moved + count_by is_enqueue ops.items) }
        ensures at_most { steps.new.moved ≤ steps.old.moved + count_by is_enqueue ops.items }
        ensures others { steps.new ≡ record steps.old { moved = steps.new.moved } }
    {
        let mut queue = Queue::new(alloc);
        for op in ops {
            match op {
                QueueOp::Enqueue(item) => queue.enqueue_mut(item)?,
                QueueOp::Dequeue => {
                    queue.dequeue_mut_counted(steps)?;
                }
            }
        }
        Ok(queue)
    }
}
