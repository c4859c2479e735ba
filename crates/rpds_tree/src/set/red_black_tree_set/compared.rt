//! Equality, order and `Hash` of sets: those of their members in order, whatever the shape of the tree. None of these
//! calls allocates.
ghost use Rattle.std.specs.Hash as fed;
ghost use Rattle.std.specs.Hash.{on_Alike, items_Alike};
ghost use Rattle.std.specs.Cmp.{on_per, on_equiv, on_po, on_total};
ghost use Rattle.std.specs.Cmp.Lexicographic.{pointwise, slice_cmp, slice_partial_cmp, lists_equiv, lists_agrees, lists_total, lists_ties, lists_per, lists_po};

use crate::set::red_black_tree_set::RedBlackTreeSet;
use rpds_core::sequence;
use std::alloc::Allocator;
use std::cmp::Ordering;
use std::hash::{Hash, Hasher};

impl<T: Ord, A: Allocator> PartialEq for RedBlackTreeSet<T, A> {
    ghost eq = { λ s t. pointwise T.eq s.members t.members };

    ghost laws = { on_per (λ s. s.members) (lists_per T.PartialEq.laws) };

    fn eq(&self, other: &RedBlackTreeSet<T, A>) -> bool {
        if self.size() != other.size() {
            return false;
        }
        sequence::equal::<T, &T, _>(self.iter(), other.iter())
    }
}

impl<T: Ord, A: Allocator> Eq for RedBlackTreeSet<T, A> {
    ghost laws = { on_equiv (λ s. s.members) (lists_equiv T.Eq.laws) };
}

impl<T: Ord, A: Allocator> PartialOrd for RedBlackTreeSet<T, A> {
    ghost partial_cmp = { λ s t. slice_partial_cmp T.partial_cmp s.members t.members };

    ghost laws = { on_po (λ s. s.members) (lists_po T.PartialOrd.laws) };

    fn partial_cmp(&self, other: &RedBlackTreeSet<T, A>) -> Option<Ordering> {
        sequence::partial_order::<T, &T, _>(self.iter(), other.iter())
    }
}

impl<T: Ord, A: Allocator> Ord for RedBlackTreeSet<T, A> {
    ghost cmp = { λ s t. slice_cmp T.cmp s.members t.members };

    ghost total = { on_total (λ s. s.members) (lists_total T.total) };

    ghost matches_partial_cmp = { λ s t. lists_agrees T.matches_partial_cmp s.members t.members };

    ghost matches_eq = { λ s t. lists_ties T.cmp T.matches_eq s.members t.members };

    fn cmp(&self, other: &RedBlackTreeSet<T, A>) -> Ordering {
        sequence::order::<T, &T, _>(self.iter(), other.iter())
    }
}

impl<T: Ord + Hash, A: Allocator> Hash for RedBlackTreeSet<T, A> {
    ghost hash_input = { λ s. fed.slice T.hash_input s.members };

    ghost respects_eq = { (on_Alike (λ s. s.members) (items_Alike (record { fed = T.respects_eq }))).fed };

    fn hash<H: Hasher>(&self, state: &mut H) {
        state.write_usize(self.size());
        sequence::feed::<T, &T, _, _>(self.iter(), state);
    }
}
