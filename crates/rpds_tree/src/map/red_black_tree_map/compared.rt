//! Equality, order and `Hash` of maps: those of their pairs in order, each by its key and then its value, whatever the
//! shape of the tree. None of these calls allocates.
ghost use Rattle.std.specs.Prelude.{◌&&◌, ◌++◌};
ghost use Rattle.std.specs.Hash as fed;
ghost use Rattle.std.specs.Hash.{on_Alike, and-Alike, items_Alike};
ghost use Rattle.std.specs.Cmp.{on_equiv, and_equiv, then_agrees, on_total, then_total, both_tied, on_per, and_per, on_po, then_po};
ghost use Rattle.std.specs.Cmp.Lexicographic.{pointwise, slice_cmp, slice_partial_cmp, lists_equiv, lists_agrees, lists_total, lists_ties, lists_per, lists_po};
ghost use Rattle.std.specs.Ordering.{ordering_then, partial_ordering_then};

use crate::map::red_black_tree_map::RedBlackTreeMap;
use rpds_core::sequence;
use std::alloc::Allocator;
use std::cmp::Ordering;
use std::hash::{Hash, Hasher};

impl<K: Ord, V: PartialEq, A: Allocator> PartialEq for RedBlackTreeMap<K, V, A> {
    ghost eq = { λ m n. pointwise (λ p q. K.eq p.0 q.0 && V.eq p.1 q.1) m.entries n.entries };

    ghost laws = { on_per (λ m. m.entries) (lists_per (and_per (on_per (λ p. p.0) K.PartialEq.laws) (on_per (λ p. p.1) V.laws))) };

    fn eq(&self, other: &RedBlackTreeMap<K, V, A>) -> bool {
        if self.size() != other.size() {
            return false;
        }
        sequence::equal::<(K, V), (&K, &V), _>(self.iter(), other.iter())
    }
}

impl<K: Ord, V: Eq, A: Allocator> Eq for RedBlackTreeMap<K, V, A> {
    ghost laws = { on_equiv (λ m. m.entries) (lists_equiv (and_equiv (on_equiv (λ p. p.0) K.Eq.laws) (on_equiv (λ p. p.1) V.Eq.laws))) };
}

impl<K: Ord, V: PartialOrd, A: Allocator> PartialOrd for RedBlackTreeMap<K, V, A> {
    ghost partial_cmp = { λ m n. slice_partial_cmp (λ p q. partial_ordering_then (K.partial_cmp p.0 q.0) (V.partial_cmp p.1 q.1)) m.entries n.entries };

    ghost laws = { on_po (λ m. m.entries) (lists_po (then_po (on_po (λ p. p.0) K.PartialOrd.laws) (on_po (λ p. p.1) V.PartialOrd.laws))) };

    fn partial_cmp(&self, other: &RedBlackTreeMap<K, V, A>) -> Option<Ordering> {
        sequence::partial_order::<(K, V), (&K, &V), _>(self.iter(), other.iter())
    }
}

impl<K: Ord, V: Ord, A: Allocator> Ord for RedBlackTreeMap<K, V, A> {
    ghost cmp = { λ m n. slice_cmp (λ p q. ordering_then (K.cmp p.0 q.0) (V.cmp p.1 q.1)) m.entries n.entries };

    ghost total = { on_total (λ m. m.entries) (lists_total (then_total (on_total (λ p. p.0) K.total) (on_total (λ p. p.1) V.total))) };

    ghost matches_partial_cmp = { λ m n. lists_agrees (then_agrees (λ p q. K.matches_partial_cmp p.0 q.0) (λ p q. V.matches_partial_cmp p.1 q.1)) m.entries n.entries };

    ghost matches_eq = { λ m n.
        let by_key = K.cmp in
        let by_value = V.cmp in
        lists_ties (λ p q. ordering_then (by_key p.0 q.0) (by_value p.1 q.1)) (λ p q. both_tied _ _ (by_key p.0 q.0) (by_value p.1 q.1) (K.matches_eq p.0 q.0) (V.matches_eq p.1 q.1)) m.entries n.entries };

    fn cmp(&self, other: &RedBlackTreeMap<K, V, A>) -> Ordering {
        sequence::order::<(K, V), (&K, &V), _>(self.iter(), other.iter())
    }
}

impl<K: Ord + Hash, V: Hash, A: Allocator> Hash for RedBlackTreeMap<K, V, A> {
    ghost hash_input = { λ m. fed.slice (λ p. K.hash_input p.0 ++ V.hash_input p.1) m.entries };

    ghost respects_eq = { (on_Alike (λ m. m.entries) (items_Alike (and-Alike (on_Alike (λ p. p.0) (record { fed = K.respects_eq })) (on_Alike (λ p. p.1) (record { fed = V.respects_eq }))))).fed };

    fn hash<H: Hasher>(&self, state: &mut H) {
        state.write_usize(self.size());
        sequence::feed::<(K, V), (&K, &V), _, _>(self.iter(), state);
    }
}
