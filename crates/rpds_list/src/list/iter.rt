//! The iterator of a list.
ghost use Rattle.std.specs.Prelude.{◌≡◌, length, Some, IfSome, ⊤};
ghost use Rattle.std.specs.Iterator.{YieldsFirstRef, item_count, UpTo};
ghost use Rattle.std.specs.Iterator.SizeHint.{IsWithinCount};

use super::List;
use crate::cells::Link;
use std::alloc::{AllocError, Allocator, Global};
use std::iter::FusedIterator;
use std::marker::Model;

/// The items that are left, as references, the first one first.
#[derive(Drop)]
pub struct Iter<'a, T, A: Allocator = Global> {
    link: &'a Link<T, A>,
    len: usize,
}

impl<'a, T, A: Allocator> Model for Iter<'a, T, A> {
    ghost use Rattle.std.specs.Prelude.{◌≡◌, List, length};
    ghost use Rattle.rpds_list.specs.Chain.{items};

    ghost Value = { List T };

    ghost view = { λ it. items it.link.now };

    ghost invariant = { λ it. it.len ≡ length (items it.link.now) };
}

impl<'a, T, A: Allocator> Iter<'a, T, A> {
    ghost use Rattle.rpds_list.specs.Chain.{items};

    // An iterator over a chain of `len` cells.
    pub(super) fn over(link: &'a Link<T, A>, len: usize) -> Iter<'a, T, A>
        requires { len ≡ length (items link.now) }
        ensures { result ≡ items link.now }
    {
        Iter { link, len }
    }
}

impl<'a, T, A: Allocator> Iterator for Iter<'a, T, A> {
    type Item = &'a T;

    ghost next_gives = { YieldsFirstRef (λ it. it) };

    ghost remaining = { item_count (λ it. it) };

    #[inline(always)]
    fn next(&mut self) -> Option<&'a T> {
        let Link::More(node) = self.link else {
            return None;
        };
        self.link = &node.next;
        self.len -= 1;
        Some(node.value.as_ref())
    }

    fn size_hint(&self) -> (usize, Option<usize>)
        ensures exact { result ≡ (length self.now, Some (length self.now)) }
        ensures lower { IsWithinCount result.0 (item_count (λ it. it) self.now) }
        ensures upper { IfSome result.1 (UpTo (item_count (λ it. it) self.now)) }
    {
        (self.len, Some(self.len))
    }
}

impl<'a, T, A: Allocator> ExactSizeIterator for Iter<'a, T, A> {
    fn len(&self) -> usize {
        self.len
    }
}

impl<'a, T, A: Allocator> FusedIterator for Iter<'a, T, A> {}

impl<'a, T, A: Allocator> Clone for Iter<'a, T, A> {
    ghost is_clone = { λ it copy. copy ≡ it };

    ghost is_infallible = { λ _. ⊤ };

    fn clone(&self) -> Result<Iter<'a, T, A>, AllocError> {
        Ok(Iter {
            link: self.link,
            len: self.len,
        })
    }
}

impl<'a, T, A: Allocator> IntoIterator for &'a List<T, A> {
    type Item = &'a T;

    type IntoIter = Iter<'a, T, A>;

    ghost into_iter_gives = { λ list it. it ≡ list.now };

    fn into_iter(self) -> Iter<'a, T, A> {
        self.iter()
    }
}
