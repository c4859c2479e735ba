//! A queue that takes all that an iterator gives.
ghost use Rattle.std.specs.Prelude.{◌≡◌, ◌+◌, ◌++◌, List, length, OnOk, OnErr};
ghost use Rattle.std.specs.Iterator.{IsFinite, Drains};

use super::Queue;
use std::alloc::{AllocError, Allocator};

impl<T: Drop, A: Allocator + Copy> Queue<T, A> {
    /// Puts each item that comes at the back, in turn, as [`enqueue_mut`](Queue::enqueue_mut) does. All of them wait. Two
    /// allocations an item. More items than `usize::MAX` in all are an error, and an error leaves the queue.
    pub fn extend<U: IntoIterator<Item = T>>(&mut self, iter: U) -> Result<(), AllocError>
        requires ends { (it : U.IntoIter) → U.into_iter_gives iter it
            → U.IntoIter.can_next it × IsFinite (U.IntoIter.remaining it) }
        ensures ok { OnOk result ((it : U.IntoIter) × (more : List T) × U.into_iter_gives iter it
            × Drains U.IntoIter.next_gives it more
            × (self.new ≡ record { items = self.old.items ++ more; waiting = self.old.waiting + length more })) }
        ensures err { OnErr result (self.new ≡ self.old) }
    {
        let items = iter.into_iter();
        let mut longer = self.clone()?;
        for item in items {
            longer.enqueue_mut(item)?;
        }
        *self = longer;
        Ok(())
    }
}
