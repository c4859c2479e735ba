//! A persistent queue: two lists, one to put items in and one to take them out.
ghost use Rattle.std.specs.Prelude.{◌≡◌, ◌+◌, ◌<◌, ◌≤◌, ◌↔◌, ◌++◌, [], ◌∷◌, Some, None, Ok, length, drop, slice_get, IsTrue, false, IfOk, IfSome, OnOk, OnErr, MatchOption};
ghost use Rattle.std.specs.Option.{option_copied};
ghost use Rattle.std.specs.Iterator.{IsFinite, Drains};
ghost use Rattle.rpds_list.specs.QueueContents.{still_waiting};

use crate::list::List;
use rpds_core::size::one_more;
use rpds_core::steps::Steps;
use std::alloc::{AllocError, Allocator, Global};
use std::marker::Model;
use std::mem;

mod compared;
mod extend;
mod from_front;
mod iter;
mod replay;
mod std_traits;
mod text;

pub use from_front::FromFront;
pub use iter::Iter;
pub use replay::QueueOp;

/// A queue whose changes give a new queue and leave the old one as it is.
///
/// ```
/// let jobs = Queue::new(alloc).enqueue(1)?.enqueue(2)?;
/// let mut rest = jobs.clone()?;
/// let dropped = rest.dequeue_mut()?; // true; `rest` begins with 2
/// let next = jobs.peek(); // 1, as before
/// ```
///
/// Items enter at the front of the in list and leave at the front of the out list. Where the out list is empty and an
/// item is to leave, the in list is reversed and becomes the out list. So a queue that is used by itself moves each
/// item once at most, which makes `dequeue` amortized constant (F. W. Burton, 1982; C. Okasaki, Purely Functional Data
/// Structures, 5.2). Where one old version is dequeued over and over, each call may reverse its in list again.
///
/// A contract sees the items, the front first, and `waiting`: how many of them lie in the in list.
///
/// | call | cost | allocations |
/// |---|---|---|
/// | `new`, `peek`, `len`, `is_empty` | constant | none |
/// | `enqueue`, `enqueue_mut` | constant | two: the item and its cell |
/// | `dequeue`, `split_first` | constant, or one step a waiting item | none, or one a waiting item |
/// | `dequeue_mut` | constant, or one step a waiting item | none, or one buffer for up to 16,384 waiting items that no other queue shares, or one a waiting item and at most that buffer |
/// | `clone` | constant | none |
/// | `clear` | one step an item that no other queue shares | none |
/// | `iter` | one step a waiting item | one buffer for the waiting items, none where no item waits |
/// | `from_front` | one step an item of its walk; with n items that wait about n log n more | none |
/// | `from_iter`, `from_array` | one step an item | two an item, and a buffer |
/// | `extend` | one step an item that comes | two an item |
/// | `replay` | one step an op, and one a move | two an enqueue, and one a move |
/// | `==`, `cmp`, `hash`, `Display`, `Debug` | one step an item; with n items that wait about n log n more | none |
///
/// A recursive type can't go through a queue: `docs/CALLING.md` shows the ways out.
#[derive(Drop)]
#[must_use = "a change returns a new queue, and leaves the old one as it is"]
pub struct Queue<T, A: Allocator = Global> {
    alloc: A,
    in_list: List<T, A>,
    out_list: List<T, A>,
}

impl<T, A: Allocator> Model for Queue<T, A> {
    ghost use Rattle.std.specs.Prelude.{◌++◌, ◌<◌, ◌+◌, ◌^◌, reverse, length};
    ghost use Rattle.rpds_list.specs.QueueContents.{Contents};

    ghost Value = { Contents T };

    ghost view = { λ q. record { items = q.out_list ++ reverse q.in_list; waiting = length q.in_list } };

    ghost invariant = { λ q. length q.out_list + length q.in_list < 2 ^ 64 };
}

impl<T, A: Allocator + Copy> Queue<T, A> {
    /// The empty queue. It allocates nothing.
    pub fn new(alloc: A) -> Queue<T, A>
        ensures items { result.items ≡ [] }
        ensures waiting { result.waiting ≡ 0 }
    {
        Queue {
            alloc,
            in_list: List::new(alloc),
            out_list: List::new(alloc),
        }
    }
}

impl<T, A: Allocator> Queue<T, A> {
    /// The allocator that the queue was made with.
    pub fn allocator(&self) -> &A {
        &self.alloc
    }

    /// The item at the front, if there is one.
    pub fn peek(&self) -> Option<&T>
        ensures { option_copied result ≡ slice_get self.now.items 0 }
    {
        match self.out_list.first() {
            Some(item) => Some(item),
            None => self.in_list.last(),
        }
    }

    /// How many items there are, those that wait among them.
    pub fn len(&self) -> usize
        ensures len { result ≡ length self.now.items }
        ensures waiting { self.now.waiting ≤ result }
    {
        self.out_list.len() + self.in_list.len()
    }

    /// Whether there is no item.
    pub fn is_empty(&self) -> bool
        ensures { IsTrue result ↔ (self.now.items ≡ []) }
    {
        self.len() == 0
    }
}

impl<T: Drop, A: Allocator + Copy> Queue<T, A> {
    /// The items in the order in which they come. None of them waits.
    pub fn from_iter<U: IntoIterator<Item = T>>(
        alloc: A,
        iter: U,
    ) -> Result<Queue<T, A>, AllocError>
        requires ends { (it : U.IntoIter) → U.into_iter_gives iter it
            → U.IntoIter.can_next it × IsFinite (U.IntoIter.remaining it) }
        ensures items { IfOk result (λ queue. (it : U.IntoIter) × U.into_iter_gives iter it
            × Drains U.IntoIter.next_gives it queue.items) }
        ensures waiting { IfOk result (λ queue. queue.waiting ≡ 0) }
    {
        let out_list = List::from_iter(alloc, iter)?;
        Ok(Queue {
            alloc,
            in_list: List::new(alloc),
            out_list,
        })
    }

    /// The items of the array in their order. None of them waits. The error means that memory ran out, and drops the items.
    pub fn from_array<const N: usize>(alloc: A, items: [T; N]) -> Result<Queue<T, A>, AllocError>
        ensures items { IfOk result (λ queue. queue.items ≡ items) }
        ensures waiting { IfOk result (λ queue. queue.waiting ≡ 0) }
    {
        let out_list = List::from_array(alloc, items)?;
        Ok(Queue {
            alloc,
            in_list: List::new(alloc),
            out_list,
        })
    }

    /// The queue with the item at its back. Two allocations: the item and its cell. An error means that there is no memory, or
    /// that the queue has the greatest size.
    #[inline(always)]
    pub fn enqueue(&self, item: T) -> Result<Queue<T, A>, AllocError>
        ensures items { IfOk result (λ queue. queue.items ≡ self.now.items ++ item ∷ []) }
        ensures waiting { IfOk result (λ queue. queue.waiting ≡ self.now.waiting + 1) }
    {
        one_more(self.len())?;
        Ok(Queue {
            alloc: self.alloc,
            in_list: self.in_list.push_front(item)?,
            out_list: self.out_list.clone()?,
        })
    }

    /// Puts the item at the back. An error, where there is no memory or the queue has the greatest size, leaves the queue.
    pub fn enqueue_mut(&mut self, item: T) -> Result<(), AllocError>
        ensures items { OnOk result (self.new.items ≡ self.old.items ++ item ∷ []) }
        ensures waiting { OnOk result (self.new.waiting ≡ self.old.waiting + 1) }
        ensures err { OnErr result (self.new ≡ self.old) }
    {
        one_more(self.len())?;
        self.in_list.push_front_mut(item)
    }

    /// The queue without its first item, or None where there is no item. An error means a failed allocation, or that a
    /// reference count overflowed.
    pub fn dequeue(&self) -> Result<Option<Queue<T, A>>, AllocError>
        ensures ok { 0 < length self.now.items → IfOk result (λ queue. queue
            ≡ Some (record { items = drop 1 self.now.items; waiting = still_waiting self.now })) }
        ensures empty { self.now.items ≡ [] → result ≡ Ok None }
    {
        self.dequeue_counted(&mut Steps::new())
    }

    /// [`dequeue`](Queue::dequeue), which adds one to `moved` for each item that it moves from the in list to the out
    /// list: all that wait where the out list is empty, and else none.
    pub fn dequeue_counted(&self, steps: &mut Steps) -> Result<Option<Queue<T, A>>, AllocError>
        ensures ok { 0 < length self.now.items → IfOk result (λ queue. queue
            ≡ Some (record { items = drop 1 self.now.items; waiting = still_waiting self.now })) }
        ensures empty { self.now.items ≡ [] → result ≡ Ok None }

        ensures moved { OnOk result
            (steps.new.moved + still_waiting self.now ≡ steps.old.moved + self.now.waiting) }
        ensures at_most { steps.new.moved ≤ steps.old.moved + self.now.waiting }
        ensures others { steps.new ≡ record steps.old { moved = steps.new.moved } }
    {
        if let Some(out_list) = self.out_list.drop_first()? {
            return Ok(Some(Queue {
                alloc: self.alloc,
                in_list: self.in_list.clone()?,
                out_list,
            }));
        }
        if self.in_list.is_empty() {
            return Ok(None);
        }
        let mut reversed = self.in_list.reverse_counted(steps)?;
        reversed.drop_first_mut()?;
        Ok(Some(Queue {
            alloc: self.alloc,
            in_list: List::new(self.alloc),
            out_list: reversed,
        }))
    }

    /// The first item and the queue without it, as `split_first` of a slice, or None where there is no item. It moves and
    /// allocates what [`dequeue`](Queue::dequeue) does. An error means a failed allocation, or that a reference count
    /// overflowed.
    pub fn split_first(&self) -> Result<Option<(&T, Queue<T, A>)>, AllocError>
        ensures items { IfOk result (λ parts.
            MatchOption parts (self.now.items ≡ []) (λ p. self.now.items ≡ p.0.now ∷ p.1.items)) }
        ensures waiting { IfOk result (λ parts. IfSome parts (λ p. p.1.waiting ≡ still_waiting self.now)) }
        ensures empty { self.now.items ≡ [] → result ≡ Ok None }
    {
        match (self.peek(), self.dequeue()?) {
            (Some(first), Some(rest)) => Ok(Some((first, rest))),
            _ => Ok(None),
        }
    }

    /// Drops the first item, and returns whether there was one. An error, where an allocation fails or a reference count
    /// overflows, leaves the queue.
    pub fn dequeue_mut(&mut self) -> Result<bool, AllocError>
        ensures found { IfOk result (λ dropped. IsTrue dropped ↔ (0 < length self.old.items)) }
        ensures ok { OnOk result (self.new
            ≡ record { items = drop 1 self.old.items; waiting = still_waiting self.old }) }
        ensures err { OnErr result (self.new ≡ self.old) }
        ensures empty { self.old.items ≡ [] → (result ≡ Ok false) × (self.new ≡ self.old) }
    {
        self.dequeue_mut_counted(&mut Steps::new())
    }

    /// [`dequeue_mut`](Queue::dequeue_mut), which adds one to `moved` for each item that it moves from the in list to
    /// the out list. So `moved` and the items that wait add up to the same before and after: over many calls no item is
    /// moved twice.
    pub fn dequeue_mut_counted(&mut self, steps: &mut Steps) -> Result<bool, AllocError>
        ensures found { IfOk result (λ dropped. IsTrue dropped ↔ (0 < length self.old.items)) }
        ensures ok { OnOk result (self.new
            ≡ record { items = drop 1 self.old.items; waiting = still_waiting self.old }) }
        ensures err { OnErr result (self.new ≡ self.old) }
        ensures empty { self.old.items ≡ [] → (result ≡ Ok false) × (self.new ≡ self.old) }

        ensures moved { OnOk result
            (steps.new.moved + self.new.waiting ≡ steps.old.moved + self.old.waiting) }
        ensures at_most { steps.new.moved ≤ steps.old.moved + self.old.waiting }
        ensures others { steps.new ≡ record steps.old { moved = steps.new.moved } }
    {
        if self.out_list.drop_first_mut()? {
            return Ok(true);
        }
        let waiting = self.in_list.len();
        if waiting == 0 {
            return Ok(false);
        }
        if self.in_list.reverse_own(waiting - 1, steps)? {
            // The item that leaves moves past the out list.
            steps.raise_moved();
            self.out_list = mem::replace(&mut self.in_list, List::new(self.alloc));
            return Ok(true);
        }
        let mut out_list = self.in_list.reverse_counted(steps)?;
        out_list.drop_first_mut()?;
        self.out_list = out_list;
        self.in_list = List::new(self.alloc);
        Ok(true)
    }

    /// Drops all items, but for those that another queue shares. It allocates nothing.
    pub fn clear(&mut self)
        ensures { self.new ≡ record { items = []; waiting = 0 } }
    {
        *self = Queue::new(self.alloc);
    }

    /// Another handle to the same queue: both own the same cells. It allocates nothing, and fails only where a
    /// reference count overflows.
    pub fn clone(&self) -> Result<Queue<T, A>, AllocError>
        ensures { IfOk result (λ copy. copy ≡ self.now) }
    {
        let in_list = self.in_list.clone()?;
        Ok(Queue {
            alloc: self.alloc,
            in_list,
            out_list: self.out_list.clone()?,
        })
    }
}

impl<T: Drop, A: Allocator + Copy> Clone for Queue<T, A> {
    ghost is_clone = { λ queue copy. copy ≡ queue };

    fn clone(&self) -> Result<Queue<T, A>, AllocError> {
        Queue::clone(self)
    }
}
