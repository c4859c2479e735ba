//! A persistent stack: a list seen from its top.
ghost use Rattle.std.specs.Prelude.{◌≡◌, ◌<◌, ◌↔◌, [], ◌∷◌, Some, None, Ok, length, drop, slice_get, IsTrue, false, IfOk, OnOk, OnErr, MatchOption};
ghost use Rattle.std.specs.Option.{option_copied};
ghost use Rattle.std.specs.Iterator.{IsFinite, Drains};

use crate::list::List;
use std::alloc::{AllocError, Allocator, Global};
use std::marker::Model;

mod compared;
mod extend;
mod std_traits;
mod text;

pub use crate::list::Iter;

/// A stack whose changes give a new stack and leave the old one as it is: the two share what lies below their tops.
///
/// ```
/// let typed = Stack::new(alloc).push("h")?.push("hi")?;
/// let undone = typed.pop()?; // a stack with `h` on top
/// let top = typed.peek(); // `hi`, as before
/// ```
///
/// | call | cost | allocations |
/// |---|---|---|
/// | `new`, `peek`, `size`, `len`, `is_empty`, `iter` | constant | none |
/// | `push`, `push_mut` | constant | two: the item and its cell |
/// | `pop`, `pop_mut`, `split_first`, `clone` | constant | none |
/// | `clear` | one step an item that no other stack shares | none |
/// | `from_iter`, `from_array` | one step an item | two an item, and a buffer |
/// | `extend` | one step an item that comes | two an item |
/// | an iteration, `==`, `cmp`, `hash`, `Display`, `Debug` | one step an item | none |
///
/// A recursive type can't go through a stack: `docs/CALLING.md` shows the ways out.
#[derive(Drop)]
#[must_use = "a change returns a new stack, and leaves the old one as it is"]
pub struct Stack<T, A: Allocator = Global> {
    list: List<T, A>,
}

impl<T, A: Allocator> Model for Stack<T, A> {
    ghost use Rattle.std.specs.Prelude.{List};

    ghost Value = { List T };

    ghost view = { λ s. s.list };
}

impl<T, A: Allocator> Stack<T, A> {
    /// The empty stack. It allocates nothing.
    pub fn new(alloc: A) -> Stack<T, A>
        ensures { result ≡ [] }
    {
        Stack {
            list: List::new(alloc),
        }
    }

    /// The item on top, if there is one.
    pub fn peek(&self) -> Option<&T>
        ensures { option_copied result ≡ slice_get self.now 0 }
    {
        self.list.first()
    }

    /// How many items there are.
    pub fn size(&self) -> usize
        ensures { result ≡ length self.now }
    {
        self.list.len()
    }

    /// How many items there are, under the name that a list has for it: [`size`](Stack::size).
    pub fn len(&self) -> usize
        ensures { result ≡ length self.now }
    {
        self.size()
    }

    /// Whether there is no item.
    pub fn is_empty(&self) -> bool
        ensures { IsTrue result ↔ (self.now ≡ []) }
    {
        self.list.is_empty()
    }

    /// The allocator that the stack was made with.
    pub fn allocator(&self) -> &A {
        self.list.allocator()
    }

    /// An iterator over the items, from the top down. It allocates nothing.
    pub fn iter(&self) -> Iter<'_, T, A>
        ensures { result ≡ self.now }
    {
        self.list.iter()
    }
}

impl<T: Drop, A: Allocator + Copy> Stack<T, A> {
    /// The items from the top down: the first one that comes is on top.
    pub fn from_iter<U: IntoIterator<Item = T>>(
        alloc: A,
        iter: U,
    ) -> Result<Stack<T, A>, AllocError>
        requires ends { (it : U.IntoIter) → U.into_iter_gives iter it
            → U.IntoIter.can_next it × IsFinite (U.IntoIter.remaining it) }
        ensures { IfOk result (λ stack. (it : U.IntoIter) × U.into_iter_gives iter it
            × Drains U.IntoIter.next_gives it stack) }
    {
        Ok(Stack {
            list: List::from_iter(alloc, iter)?,
        })
    }

    /// The items of the array from the top down: the first one is on top. The error means that memory ran out, and drops the
    /// items.
    pub fn from_array<const N: usize>(alloc: A, items: [T; N]) -> Result<Stack<T, A>, AllocError>
        ensures { IfOk result (λ stack. stack ≡ items) }
    {
        Ok(Stack {
            list: List::from_array(alloc, items)?,
        })
    }

    /// The stack with the item on top. Two allocations: the item and its cell. An error means that there is no memory, or that
    /// the stack has the greatest size.
    #[inline(always)]
    pub fn push(&self, item: T) -> Result<Stack<T, A>, AllocError>
        ensures { IfOk result (λ stack. stack ≡ item ∷ self.now) }
    {
        Ok(Stack {
            list: self.list.push_front(item)?,
        })
    }

    /// Puts the item on top. An error, where there is no memory or the stack has the greatest size, leaves the items.
    pub fn push_mut(&mut self, item: T) -> Result<(), AllocError>
        ensures ok { OnOk result (self.new ≡ item ∷ self.old) }
        ensures err { OnErr result (self.new ≡ self.old) }
    {
        self.list.push_front_mut(item)
    }

    /// The stack without the item on top, or None where there is no item. An error means that a reference count
    /// overflowed.
    pub fn pop(&self) -> Result<Option<Stack<T, A>>, AllocError>
        ensures ok { 0 < length self.now → IfOk result (λ rest. rest ≡ Some (drop 1 self.now)) }
        ensures empty { self.now ≡ [] → result ≡ Ok None }
    {
        match self.list.drop_first()? {
            Some(list) => Ok(Some(Stack { list })),
            None => Ok(None),
        }
    }

    /// The item on top and the stack below it, as `split_first` of a slice, or None where there is no item. An error means that a
    /// reference count overflowed.
    pub fn split_first(&self) -> Result<Option<(&T, Stack<T, A>)>, AllocError>
        ensures ok { IfOk result (λ parts.
            MatchOption parts (self.now ≡ []) (λ p. self.now ≡ p.0.now ∷ p.1)) }
        ensures empty { self.now ≡ [] → result ≡ Ok None }
    {
        match self.list.split_first()? {
            Some((top, list)) => Ok(Some((top, Stack { list }))),
            None => Ok(None),
        }
    }

    /// Drops the item on top, and returns whether there was one. An error, where a reference count overflows, leaves
    /// the items.
    pub fn pop_mut(&mut self) -> Result<bool, AllocError>
        ensures found { IfOk result (λ dropped. IsTrue dropped ↔ (0 < length self.old)) }
        ensures ok { OnOk result (self.new ≡ drop 1 self.old) }
        ensures err { OnErr result (self.new ≡ self.old) }
        ensures empty { self.old ≡ [] → (result ≡ Ok false) × (self.new ≡ self.old) }
    {
        self.list.drop_first_mut()
    }

    /// Drops all items, but for those that another stack shares. It allocates nothing.
    pub fn clear(&mut self)
        ensures { self.new ≡ [] }
    {
        self.list.clear();
    }

    /// Another handle to the same stack: both own the same cells. It allocates nothing, and fails only where a
    /// reference count overflows.
    pub fn clone(&self) -> Result<Stack<T, A>, AllocError>
        ensures { IfOk result (λ copy. copy ≡ self.now) }
    {
        Ok(Stack {
            list: self.list.clone()?,
        })
    }
}

impl<T: Drop, A: Allocator + Copy> Clone for Stack<T, A> {
    ghost is_clone = { λ stack copy. copy ≡ stack };

    fn clone(&self) -> Result<Stack<T, A>, AllocError> {
        Stack::clone(self)
    }
}

impl<'a, T, A: Allocator> IntoIterator for &'a Stack<T, A> {
    type Item = &'a T;

    type IntoIter = Iter<'a, T, A>;

    ghost into_iter_gives = { λ stack it. it ≡ stack.now };

    fn into_iter(self) -> Iter<'a, T, A> {
        self.iter()
    }
}
