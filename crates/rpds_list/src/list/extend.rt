//! A list that takes all that an iterator gives.
ghost use Rattle.std.specs.Prelude.{◌≡◌, ◌++◌, List, reverse, OnOk, OnErr};
ghost use Rattle.std.specs.Iterator.{IsFinite, Drains};

use crate::list;
use std::alloc::{AllocError, Allocator};

impl<T: Drop, A: Allocator + Copy> list::List<T, A> {
    /// Puts each item that comes before the first one, in turn, as [`push_front_mut`](List::push_front_mut) does: the one that
    /// comes last is the first of the list then. Two allocations an item. More items than `usize::MAX` in all are an error,
    /// and an error leaves the items.
    pub fn extend<U: IntoIterator<Item = T>>(&mut self, iter: U) -> Result<(), AllocError>
        requires ends { (it : U.IntoIter) → U.into_iter_gives iter it
            → U.IntoIter.can_next it × IsFinite (U.IntoIter.remaining it) }
        ensures ok { OnOk result ((it : U.IntoIter) × (more : List T) × U.into_iter_gives iter it
            × Drains U.IntoIter.next_gives it more × (self.new ≡ reverse more ++ self.old)) }
        ensures err { OnErr result (self.new ≡ self.old) }
    {
        let items = iter.into_iter();
        let mut longer = self.clone()?;
        for item in items {
            longer.push_front_mut(item)?;
        }
        *self = longer;
        Ok(())
    }
}
