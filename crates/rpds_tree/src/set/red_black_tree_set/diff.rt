//! What changed from one version of a set to another.
ghost use Rattle.std.specs.Prelude.{◌≡◌, IfSome, None, length, ⊤};
ghost use Rattle.std.specs.Iterator.{at_most, UpTo};
ghost use Rattle.std.specs.Iterator.SizeHint.{IsWithinCount};
ghost use Rattle.std.specs.Map.Iter.{TakesFirst, ShowsInOrder};
ghost use Rattle.rpds_tree.specs.Differences.{member_change_value, member_differences};

use crate::map::red_black_tree_map::Diff as MapDiff;
use crate::set::red_black_tree_set::RedBlackTreeSet;
use rpds_core::change::{MapChange, SetChange};
use std::alloc::{AllocError, Allocator, Global};
use std::iter::FusedIterator;
use std::marker::Model;

/// The changes from one version of a set to another, in the order of the members: those of its map.
#[derive(Drop)]
pub struct Diff<'a, T: Ord, A: Allocator = Global, B: Allocator = Global> {
    pairs: MapDiff<'a, T, (), A, B>,
}

impl<'a, T: Ord, A: Allocator, B: Allocator> Model for Diff<'a, T, A, B> {
    ghost use Rattle.std.specs.Prelude.{List, Bool};
    ghost use Rattle.rpds_tree.specs.Differences.{ChangeNoValue, members_changed};

    ghost Value = { List (T × Bool) };

    ghost view = { λ it. members_changed it.pairs };

    ghost invariant = { λ it. ChangeNoValue it.pairs };
}

impl<'a, T: Ord, A: Allocator, B: Allocator> Iterator for Diff<'a, T, A, B> {
    type Item = SetChange<'a, T>;

    ghost next_gives = { TakesFirst member_change_value };

    ghost remaining = { λ it. at_most (length it) };

    #[inline(always)]
    fn next(&mut self) -> Option<SetChange<'a, T>> {
        match self.pairs.next()? {
            MapChange::Added(member, _) => Some(SetChange::Added(member)),
            MapChange::Removed(member, _) => Some(SetChange::Removed(member)),
            MapChange::Changed(_, _, _) => unreachable!(),
        }
    }

    /// How many changes are left is not known.
    fn size_hint(&self) -> (usize, Option<usize>)
        ensures unknown { result ≡ (0, None) }
        ensures lower { IsWithinCount result.0 (at_most (length self.now)) }
        ensures upper { IfSome result.1 (UpTo (at_most (length self.now))) }
    {
        (0, None)
    }
}

impl<'a, T: Ord, A: Allocator, B: Allocator> FusedIterator for Diff<'a, T, A, B> {}

impl<'a, T: Ord, A: Allocator, B: Allocator> Clone for Diff<'a, T, A, B> {
    ghost is_clone = { λ it copy. copy ≡ it };

    ghost is_infallible = { λ _. ⊤ };

    fn clone(&self) -> Result<Diff<'a, T, A, B>, AllocError> {
        Ok(Diff {
            pairs: self.pairs.clone()?,
        })
    }
}

impl<T: Ord, A: Allocator> RedBlackTreeSet<T, A> {
    /// What changed from this set to the other: the members that it lacks, and those that it has beyond this one, in their
    /// order.
    #[inline(always)]
    pub fn diff<'a, B: Allocator>(&'a self, other: &'a RedBlackTreeSet<T, B>) -> Diff<'a, T, A, B>
        ensures rest { result ≡ member_differences T.cmp self.now.members other.now.members }

        // `next` gives them in this order.
        ensures runs { ShowsInOrder (member_change_value {T = T}) }
    {
        Diff {
            pairs: self.map.diff(&other.map),
        }
    }
}
