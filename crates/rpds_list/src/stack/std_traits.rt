//! std's traits that make and fill a stack by what an iterator gives.
ghost use Rattle.std.specs.Prelude.{◌≡◌, [], ◌++◌, reverse, map};

use crate::stack::Stack;
use std::alloc::{AllocError, Allocator};
use std::default::{Emptied, MadeWith};
use std::iter::{Extend, FromIterator};

/// `collect`: the items from the top down.
impl<T: Drop, A: Allocator + Copy> FromIterator<T> for Stack<T, A> {
    type Alloc = A;

    ghost from_iter_gives = { λ items stack. stack ≡ items };

    fn from_iter<U: IntoIterator<Item = T>>(alloc: A, iter: U) -> Result<Stack<T, A>, AllocError> {
        Stack::from_iter(alloc, iter)
    }
}

/// `extend` by the trait is [`Stack::extend`](Stack::extend): the item that comes last is on top then.
impl<T: Drop, A: Allocator + Copy> Extend<T> for Stack<T, A> {
    ghost extend_gives = { λ stack more taller. taller ≡ reverse more ++ stack };

    fn extend<U: IntoIterator<Item = T>>(&mut self, iter: U) -> Result<(), AllocError> {
        let items = iter.into_iter();
        Stack::extend(self, items)
    }
}

/// The same of what references lead to.
impl<'a, T: Copy + Drop + 'a, A: Allocator + Copy> Extend<&'a T> for Stack<T, A> {
    ghost extend_gives = { λ stack more taller. taller ≡ reverse (map (λ x. x.now) more) ++ stack };

    fn extend<U: IntoIterator<Item = &'a T>>(&mut self, iter: U) -> Result<(), AllocError> {
        let items = iter.into_iter();
        Stack::extend(self, items.copied())
    }
}

/// The empty stack, for `or_default` of std's maps.
impl<T: Drop, A: Allocator + Copy> MadeWith<A> for Stack<T, A> {
    ghost is_made_with = { λ stack. stack ≡ [] };

    fn made_with(alloc: A) -> Stack<T, A> {
        Stack::new(alloc)
    }
}

/// The empty stack, for `mem::try_take`.
impl<T: Drop, A: Allocator + Copy> Emptied for Stack<T, A> {
    ghost is_emptied = { λ stack. stack ≡ [] };

    fn emptied(like: &Stack<T, A>) -> Result<Stack<T, A>, AllocError> {
        Ok(Stack::new(*like.allocator()))
    }
}
