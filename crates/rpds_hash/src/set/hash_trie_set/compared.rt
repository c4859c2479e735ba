//! Equality of sets: that of their members, whatever their degrees, their hashers and the orders of their iterators.
ghost use Rattle.std.specs.Cmp.{on_per, on_equiv, partial_equiv_from_equiv};
ghost use Rattle.rpds_hash.specs.HashedSet.{members_equal};
ghost use Rattle.rpds_hash.specs.MembersEqual.{members_equiv};

use crate::set::hash_trie_set::HashTrieSet;
use std::alloc::Allocator;
use std::hash::{BuildHasher, Hash};

/// One look-up for each member, up to the first that isn't found; none where the sizes differ. It allocates nothing.
#[tactic(auto, using(crate::proofs::MembersEqual::same_members))]
impl<T: Eq + Hash, H: BuildHasher, A: Allocator> PartialEq for HashTrieSet<T, H, A> {
    ghost eq = { λ s t. members_equal T.eq s.members t.members };

    ghost laws = { on_per (λ s. s.members) (partial_equiv_from_equiv (members_equiv T.Eq.laws)) };

    fn eq(&self, other: &HashTrieSet<T, H, A>) -> bool {
        self.map == other.map
    }
}

impl<T: Eq + Hash, H: BuildHasher, A: Allocator> Eq for HashTrieSet<T, H, A> {
    ghost laws = { on_equiv (λ s. s.members) (members_equiv T.Eq.laws) };
}
