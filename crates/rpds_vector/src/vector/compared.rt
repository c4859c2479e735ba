//! `Eq`, `Ord` and `Hash` of vectors: those of their items in order, whatever their bits. None of these calls allocates.
ghost use Rattle.std.specs.Hash as fed;
ghost use Rattle.std.specs.Hash.{items_Alike};
ghost use Rattle.std.specs.Cmp.{on_per, on_equiv, on_po, on_total};
ghost use Rattle.std.specs.Cmp.Lexicographic.{pointwise, slice_cmp, slice_partial_cmp, lists_equiv, lists_agrees, lists_total, lists_ties, lists_per, lists_po};

use crate::vector::Vector;
use rpds_core::sequence;
use std::alloc::Allocator;
use std::cmp::Ordering;
use std::hash::{Hash, Hasher};

impl<T: PartialEq, A: Allocator> PartialEq for Vector<T, A> {
    ghost eq = { λ left right. pointwise T.eq left.items right.items };

    ghost laws = { on_per (λ v. v.items) (lists_per T.laws) };

    fn eq(&self, other: &Vector<T, A>) -> bool {
        if self.len() != other.len() {
            return false;
        }
        sequence::equal::<T, &T, _>(self.iter(), other.iter())
    }
}

impl<T: Eq, A: Allocator> Eq for Vector<T, A> {
    ghost laws = { on_equiv (λ v. v.items) (lists_equiv T.Eq.laws) };
}

impl<T: PartialOrd, A: Allocator> PartialOrd for Vector<T, A> {
    ghost partial_cmp = { λ left right. slice_partial_cmp T.partial_cmp left.items right.items };

    ghost laws = { on_po (λ v. v.items) (lists_po T.PartialOrd.laws) };

    fn partial_cmp(&self, other: &Vector<T, A>) -> Option<Ordering> {
        sequence::partial_order::<T, &T, _>(self.iter(), other.iter())
    }
}

impl<T: Ord, A: Allocator> Ord for Vector<T, A> {
    ghost cmp = { λ left right. slice_cmp T.cmp left.items right.items };

    ghost total = { on_total (λ v. v.items) (lists_total T.total) };

    ghost matches_partial_cmp = { λ left right. lists_agrees T.matches_partial_cmp left.items right.items };

    ghost matches_eq = { λ left right. lists_ties T.cmp T.matches_eq left.items right.items };

    fn cmp(&self, other: &Vector<T, A>) -> Ordering {
        sequence::order::<T, &T, _>(self.iter(), other.iter())
    }
}

impl<T: Hash, A: Allocator> Hash for Vector<T, A> {
    ghost hash_input = { λ vector. fed.slice T.hash_input vector.items };

    ghost respects_eq = { λ left right. (items_Alike (record { fed = T.respects_eq })).fed left.items right.items };

    fn hash<H: Hasher>(&self, state: &mut H) {
        state.write_usize(self.len());
        sequence::feed::<T, &T, _, _>(self.iter(), state);
    }
}
