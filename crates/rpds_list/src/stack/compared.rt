//! `PartialEq`, `Ord` and `Hash` of stacks: those of their items, the one on top first.
ghost use Rattle.std.specs.Hash as fed;
ghost use Rattle.std.specs.Hash.{items_Alike};
ghost use Rattle.std.specs.Cmp.Lexicographic.{pointwise, slice_cmp, slice_partial_cmp, lists_equiv, lists_agrees, lists_total, lists_ties, lists_per, lists_po};

use super::Stack;
use std::alloc::Allocator;
use std::cmp::Ordering;
use std::hash::{Hash, Hasher};

impl<T: PartialEq, A: Allocator> PartialEq for Stack<T, A> {
    ghost eq = { pointwise T.eq };

    ghost laws = { lists_per T.laws };

    fn eq(&self, other: &Stack<T, A>) -> bool {
        self.list == other.list
    }
}

impl<T: Eq, A: Allocator> Eq for Stack<T, A> {
    ghost laws = { lists_equiv T.Eq.laws };
}

impl<T: PartialOrd, A: Allocator> PartialOrd for Stack<T, A> {
    ghost partial_cmp = { slice_partial_cmp T.partial_cmp };

    ghost laws = { lists_po T.PartialOrd.laws };

    fn partial_cmp(&self, other: &Stack<T, A>) -> Option<Ordering> {
        self.list.partial_cmp(&other.list)
    }
}

impl<T: Ord, A: Allocator> Ord for Stack<T, A> {
    ghost cmp = { slice_cmp T.cmp };

    ghost total = { lists_total T.total };

    ghost matches_partial_cmp = { lists_agrees T.matches_partial_cmp };

    ghost matches_eq = { lists_ties T.cmp T.matches_eq };

    fn cmp(&self, other: &Stack<T, A>) -> Ordering {
        self.list.cmp(&other.list)
    }
}

impl<T: Hash, A: Allocator> Hash for Stack<T, A> {
    ghost hash_input = { fed.slice T.hash_input };

    ghost respects_eq = { (items_Alike (record { fed = T.respects_eq })).fed };

    fn hash<H: Hasher>(&self, state: &mut H) {
        self.list.hash(state);
    }
}
