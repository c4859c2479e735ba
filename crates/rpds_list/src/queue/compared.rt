//! `PartialEq`, `Ord` and `Hash` of queues: those of their items, the front first, however many of them wait.
//!
//! None of these calls allocates. With n items that wait they take about n log n steps.
ghost use Rattle.std.specs.Hash as fed;
ghost use Rattle.std.specs.Hash.{items_Alike};
ghost use Rattle.std.specs.Cmp.{on_per, on_equiv, on_po, on_total};
ghost use Rattle.std.specs.Cmp.Lexicographic.{pointwise, slice_cmp, slice_partial_cmp, lists_equiv, lists_agrees, lists_total, lists_ties, lists_per, lists_po};

use super::Queue;
use rpds_core::sequence;
use std::alloc::Allocator;
use std::cmp::Ordering;
use std::hash::{Hash, Hasher};

impl<T: PartialEq, A: Allocator> PartialEq for Queue<T, A> {
    ghost eq = { λ left right. pointwise T.eq left.items right.items };

    ghost laws = { on_per (λ q. q.items) (lists_per T.laws) };

    fn eq(&self, other: &Queue<T, A>) -> bool {
        if self.len() != other.len() {
            return false;
        }
        sequence::equal::<T, &T, _>(self.from_front(), other.from_front())
    }
}

impl<T: Eq, A: Allocator> Eq for Queue<T, A> {
    ghost laws = { on_equiv (λ q. q.items) (lists_equiv T.Eq.laws) };
}

impl<T: PartialOrd, A: Allocator> PartialOrd for Queue<T, A> {
    ghost partial_cmp = { λ left right. slice_partial_cmp T.partial_cmp left.items right.items };

    ghost laws = { on_po (λ q. q.items) (lists_po T.PartialOrd.laws) };

    fn partial_cmp(&self, other: &Queue<T, A>) -> Option<Ordering> {
        sequence::partial_order::<T, &T, _>(self.from_front(), other.from_front())
    }
}

impl<T: Ord, A: Allocator> Ord for Queue<T, A> {
    ghost cmp = { λ left right. slice_cmp T.cmp left.items right.items };

    ghost total = { on_total (λ q. q.items) (lists_total T.total) };

    ghost matches_partial_cmp = { λ left right. lists_agrees T.matches_partial_cmp left.items right.items };

    ghost matches_eq = { λ left right. lists_ties T.cmp T.matches_eq left.items right.items };

    fn cmp(&self, other: &Queue<T, A>) -> Ordering {
        sequence::order::<T, &T, _>(self.from_front(), other.from_front())
    }
}

impl<T: Hash, A: Allocator> Hash for Queue<T, A> {
    ghost hash_input = { λ queue. fed.slice T.hash_input queue.items };

    ghost respects_eq = { λ left right. (items_Alike (record { fed = T.respects_eq })).fed left.items right.items };

    fn hash<H: Hasher>(&self, state: &mut H) {
        state.write_usize(self.len());
        sequence::feed::<T, &T, _, _>(self.from_front(), state);
    }
}
