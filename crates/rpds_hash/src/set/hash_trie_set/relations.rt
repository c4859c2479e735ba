//! How two sets lie to each other, whatever hashers they have: by what they hold, and never by what they share.
ghost use Rattle.std.specs.Prelude.{◌≡◌};
ghost use Rattle.rpds_hash.specs.HashedSet.{is_disjoint, is_subset};

use crate::set::hash_trie_set::HashTrieSet;
use std::alloc::Allocator;
use std::hash::{BuildHasher, Hash};

impl<T: Eq + Hash, H: BuildHasher, A: Allocator> HashTrieSet<T, H, A> {
    /// Whether no member is in the other set. It looks up each member there, up to the first that it finds.
    pub fn is_disjoint<G: BuildHasher, B: Allocator>(&self, other: &HashTrieSet<T, G, B>) -> bool
        ensures { result ≡ is_disjoint T.eq self.now.members other.now.members }
    {
        for member in self {
            if other.contains(member) {
                return false;
            }
        }
        true
    }

    /// Whether each member is in the other set. It looks up each member there, up to the first that it doesn't find.
    pub fn is_subset<G: BuildHasher, B: Allocator>(&self, other: &HashTrieSet<T, G, B>) -> bool
        ensures { result ≡ is_subset T.eq self.now.members other.now.members }
    {
        for member in self {
            if !other.contains(member) {
                return false;
            }
        }
        true
    }

    /// Whether each member of the other set is in this one: [`is_subset`](HashTrieSet::is_subset) the other way round.
    pub fn is_superset<G: BuildHasher, B: Allocator>(&self, other: &HashTrieSet<T, G, B>) -> bool
        ensures { result ≡ is_subset T.eq other.now.members self.now.members }
    {
        other.is_subset(self)
    }
}
