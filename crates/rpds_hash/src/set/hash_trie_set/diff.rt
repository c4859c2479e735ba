//! What changed from one version of a set to another.
ghost use Rattle.std.specs.Prelude.{◌≡◌, IfSome, None, length, ⊤};
ghost use Rattle.std.specs.Iterator.{at_most, UpTo};
ghost use Rattle.std.specs.Iterator.SizeHint.{IsWithinCount};
ghost use Rattle.std.specs.Map.Iter.{TakesFirst, ShowsInOrder};
ghost use Rattle.rpds_hash.specs.HashDifferences.{member_change_value, member_differences};
ghost use Rattle.rpds_hash.specs.HashedSet.{IsHashedSet};
ghost use Rattle.rpds_hash_trie.specs.HashedMap.{key_hash};

use crate::map::hash_trie_map::{DefaultBuildHasher, Diff as MapDiff};
use crate::set::hash_trie_set::HashTrieSet;
use rpds_core::change::{MapChange, SetChange};
use std::alloc::{AllocError, Allocator, Global};
use std::hash::{BuildHasher, Hash};
use std::iter::FusedIterator;
use std::marker::Model;

/// The changes from one version of a set to another, in the order of those of its map.
#[derive(Drop)]
pub struct Diff<
    'a,
    T: Eq + Hash,
    H: BuildHasher = DefaultBuildHasher,
    A: Allocator = Global,
    G: BuildHasher = DefaultBuildHasher,
    B: Allocator = Global,
> {
    pairs: MapDiff<'a, T, (), H, A, G, B>,
}

impl<'a, T: Eq + Hash, H: BuildHasher, A: Allocator, G: BuildHasher, B: Allocator> Model
    for Diff<'a, T, H, A, G, B> {
    ghost use Rattle.std.specs.Prelude.{List, Bool};
    ghost use Rattle.rpds_hash.specs.HashDifferences.{ChangeNoValue, members_changed};

    ghost Value = { List (T × Bool) };

    ghost view = { λ it. members_changed it.pairs };

    ghost invariant = { λ it. ChangeNoValue it.pairs };
}

impl<'a, T: Eq + Hash, H: BuildHasher, A: Allocator, G: BuildHasher, B: Allocator> Iterator
    for Diff<'a, T, H, A, G, B> {
    type Item = SetChange<'a, T>;

    ghost next_gives = { TakesFirst member_change_value };

    ghost remaining = { λ it. at_most (length it) };

    #[inline(always)]
    fn next(&mut self) -> Option<SetChange<'a, T>> {
        match self.pairs.next()? {
            MapChange::Added(member, _) => Some(SetChange::Added(member)),
            MapChange::Removed(member, _) => Some(SetChange::Removed(member)),
            MapChange::Changed(_, _, _) => unreachable!(),
        }
    }

    /// How many changes are left is not known.
    fn size_hint(&self) -> (usize, Option<usize>)
        ensures unknown { result ≡ (0, None) }
        ensures lower { IsWithinCount result.0 (at_most (length self.now)) }
        ensures upper { IfSome result.1 (UpTo (at_most (length self.now))) }
    {
        (0, None)
    }
}

impl<'a, T: Eq + Hash, H: BuildHasher, A: Allocator, G: BuildHasher, B: Allocator> FusedIterator
    for Diff<'a, T, H, A, G, B> {}

impl<'a, T: Eq + Hash, H: BuildHasher, A: Allocator, G: BuildHasher, B: Allocator> Clone
    for Diff<'a, T, H, A, G, B> {
    ghost is_clone = { λ it copy. copy ≡ it };

    ghost is_infallible = { λ _. ⊤ };

    fn clone(&self) -> Result<Diff<'a, T, H, A, G, B>, AllocError> {
        Ok(Diff {
            pairs: self.pairs.clone()?,
        })
    }
}

impl<T: Eq + Hash, H: BuildHasher, A: Allocator> HashTrieSet<T, H, A> {
    /// What changed from this set to the other: first the members that the other lacks, in the order of this set; then those that the
    /// other has beyond this one, in the order of that. Degrees and hashers may differ.
    #[inline(always)]
    pub fn diff<'a, G: BuildHasher, B: Allocator>(
        &'a self,
        other: &'a HashTrieSet<T, G, B>,
    ) -> Diff<'a, T, H, A, G, B>
        ensures rest { result ≡ member_differences T.eq self.now.members other.now.members }
        ensures hashed { IsHashedSet T.eq
            (key_hash H.BuildHasher H.Hasher.Hasher T.hash_input self.now.hasher) self.now }

        // `next` gives them in this order.
        ensures runs { ShowsInOrder (member_change_value {T = T}) }
    {
        Diff {
            pairs: self.map.diff(&other.map),
        }
    }
}
