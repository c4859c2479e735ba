//! The iterators over a map, in the order of the hashes' digits. Each is seen as the list of what it has left.
ghost use Rattle.std.specs.Prelude.{◌≡◌, IfSome, Some, length, ⊤};
ghost use Rattle.std.specs.Iterator.{at_most, UpTo};
ghost use Rattle.std.specs.Iterator.SizeHint.{IsWithinCount};
ghost use Rattle.std.specs.Map.{keys_of, values_of};
ghost use Rattle.std.specs.Map.Iter.{TakesFirst, ShowsInOrder, deref, deref_pair};
ghost use Rattle.rpds_hash_trie.specs.HashedMap.{key_hash, IsHashed};

use crate::map::hash_trie_map::HashTrieMap;
use rpds_core::map::entry::Entry;
use rpds_hash_trie::walk::Walk;
use std::alloc::{AllocError, Allocator, Global};
use std::hash::{BuildHasher, Hash};
use std::iter::FusedIterator;
use std::marker::Model;

/// The pairs of a map, in the order of the digits of the keys' hashes, as references to the key and the value.
///
/// It holds a stack of 65 places. To make it is constant. A whole walk enters each node once and takes no memory.
#[derive(Drop)]
pub struct Iter<'a, K, V, A: Allocator = Global> {
    walk: Walk<'a, K, V, A>,
    left: usize,
}

impl<'a, K, V, A: Allocator> Model for Iter<'a, K, V, A> {
    ghost use Rattle.std.specs.Prelude.{◌≡◌, List, length};
    ghost use Rattle.rpds_hash_trie.specs.HashedMap.{pairs_of};

    ghost Value = { List (K × V) };

    ghost view = { λ it. pairs_of it.walk };

    ghost invariant = { λ it. it.left ≡ length it.walk };
}

impl<'a, K, V, A: Allocator> Iterator for Iter<'a, K, V, A> {
    type Item = (&'a K, &'a V);

    ghost next_gives = { TakesFirst deref_pair };

    ghost remaining = { λ it. at_most (length it) };

    #[inline(always)]
    fn next(&mut self) -> Option<(&'a K, &'a V)> {
        if self.left == 0 {
            return None;
        }
        self.left -= 1;
        match self.walk.next() {
            None => None,
            Some(stored) => {
                let entry: &'a Entry<K, V> = &stored.entry;
                Some((&entry.key, &entry.value))
            }
        }
    }

    fn size_hint(&self) -> (usize, Option<usize>)
        ensures exact { result ≡ (length self.now, Some (length self.now)) }
        ensures lower { IsWithinCount result.0 (at_most (length self.now)) }
        ensures upper { IfSome result.1 (UpTo (at_most (length self.now))) }
    {
        (self.left, Some(self.left))
    }
}

impl<'a, K, V, A: Allocator> ExactSizeIterator for Iter<'a, K, V, A> {
    fn len(&self) -> usize {
        self.left
    }
}

impl<'a, K, V, A: Allocator> FusedIterator for Iter<'a, K, V, A> {}

impl<'a, K, V, A: Allocator> Clone for Iter<'a, K, V, A> {
    ghost is_clone = { λ it copy. copy ≡ it };

    ghost is_infallible = { λ _. ⊤ };

    fn clone(&self) -> Result<Iter<'a, K, V, A>, AllocError> {
        Ok(Iter {
            walk: self.walk.clone()?,
            left: self.left,
        })
    }
}

/// The keys of a map in the order of the digits of their hashes.
#[derive(Drop)]
pub struct IterKeys<'a, K, V, A: Allocator = Global> {
    pairs: Iter<'a, K, V, A>,
}

impl<'a, K, V, A: Allocator> Model for IterKeys<'a, K, V, A> {
    ghost use Rattle.std.specs.Prelude.{List};
    ghost use Rattle.std.specs.Map.{keys_of};

    ghost Value = { List K };

    ghost view = { λ it. keys_of it.pairs };
}

impl<'a, K, V, A: Allocator> Iterator for IterKeys<'a, K, V, A> {
    type Item = &'a K;

    ghost next_gives = { TakesFirst deref };

    ghost remaining = { λ it. at_most (length it) };

    fn next(&mut self) -> Option<&'a K> {
        let (key, _) = self.pairs.next()?;
        Some(key)
    }

    fn size_hint(&self) -> (usize, Option<usize>)
        ensures exact { result ≡ (length self.now, Some (length self.now)) }
        ensures lower { IsWithinCount result.0 (at_most (length self.now)) }
        ensures upper { IfSome result.1 (UpTo (at_most (length self.now))) }
    {
        self.pairs.size_hint()
    }
}

impl<'a, K, V, A: Allocator> ExactSizeIterator for IterKeys<'a, K, V, A> {
    fn len(&self) -> usize {
        self.pairs.len()
    }
}

impl<'a, K, V, A: Allocator> FusedIterator for IterKeys<'a, K, V, A> {}

impl<'a, K, V, A: Allocator> Clone for IterKeys<'a, K, V, A> {
    ghost is_clone = { λ it copy. copy ≡ it };

    ghost is_infallible = { λ _. ⊤ };

    fn clone(&self) -> Result<IterKeys<'a, K, V, A>, AllocError> {
        Ok(IterKeys {
            pairs: self.pairs.clone()?,
        })
    }
}

/// The values of a map in the order of the digits of their keys' hashes.
#[derive(Drop)]
pub struct IterValues<'a, K, V, A: Allocator = Global> {
    pairs: Iter<'a, K, V, A>,
}

impl<'a, K, V, A: Allocator> Model for IterValues<'a, K, V, A> {
    ghost use Rattle.std.specs.Prelude.{List};
    ghost use Rattle.std.specs.Map.{values_of};

    ghost Value = { List V };

    ghost view = { λ it. values_of it.pairs };
}

impl<'a, K, V, A: Allocator> Iterator for IterValues<'a, K, V, A> {
    type Item = &'a V;

    ghost next_gives = { TakesFirst deref };

    ghost remaining = { λ it. at_most (length it) };

    fn next(&mut self) -> Option<&'a V> {
        let (_, value) = self.pairs.next()?;
        Some(value)
    }

    fn size_hint(&self) -> (usize, Option<usize>)
        ensures exact { result ≡ (length self.now, Some (length self.now)) }
        ensures lower { IsWithinCount result.0 (at_most (length self.now)) }
        ensures upper { IfSome result.1 (UpTo (at_most (length self.now))) }
    {
        self.pairs.size_hint()
    }
}

impl<'a, K, V, A: Allocator> ExactSizeIterator for IterValues<'a, K, V, A> {
    fn len(&self) -> usize {
        self.pairs.len()
    }
}

impl<'a, K, V, A: Allocator> FusedIterator for IterValues<'a, K, V, A> {}

impl<'a, K, V, A: Allocator> Clone for IterValues<'a, K, V, A> {
    ghost is_clone = { λ it copy. copy ≡ it };

    ghost is_infallible = { λ _. ⊤ };

    fn clone(&self) -> Result<IterValues<'a, K, V, A>, AllocError> {
        Ok(IterValues {
            pairs: self.pairs.clone()?,
        })
    }
}

impl<K: Eq + Hash, V, H: BuildHasher, A: Allocator> HashTrieMap<K, V, H, A> {
    /// The pairs, in the order of the digits of their keys' hashes.
    #[inline(always)]
    pub fn iter(&self) -> Iter<'_, K, V, A>
        ensures rest { result ≡ self.now.entries }
        ensures hashed { IsHashed K.eq
            (key_hash H.BuildHasher H.Hasher.Hasher K.hash_input self.now.hasher) self.now }

        // `next` gives them in this order.
        ensures runs { ShowsInOrder (deref_pair {K = K} {X = V}) }
    {
        Iter {
            walk: Walk::over(&self.root),
            left: self.size(),
        }
    }

    /// The keys, in the order of the digits of their hashes.
    pub fn keys(&self) -> IterKeys<'_, K, V, A>
        ensures rest { result ≡ keys_of self.now.entries }
        ensures hashed { IsHashed K.eq
            (key_hash H.BuildHasher H.Hasher.Hasher K.hash_input self.now.hasher) self.now }
        ensures runs { ShowsInOrder (deref {X = K}) }
    {
        IterKeys { pairs: self.iter() }
    }

    /// The values, in the order of the digits of their keys' hashes.
    pub fn values(&self) -> IterValues<'_, K, V, A>
        ensures rest { result ≡ values_of self.now.entries }
        ensures hashed { IsHashed K.eq
            (key_hash H.BuildHasher H.Hasher.Hasher K.hash_input self.now.hasher) self.now }
        ensures runs { ShowsInOrder (deref {X = V}) }
    {
        IterValues { pairs: self.iter() }
    }
}

impl<'a, K: Eq + Hash, V, H: BuildHasher, A: Allocator> IntoIterator
    for &'a HashTrieMap<K, V, H, A> {
    type Item = (&'a K, &'a V);

    type IntoIter = Iter<'a, K, V, A>;

    ghost into_iter_gives = { λ m it. (it ≡ m.now.entries) × ShowsInOrder (deref_pair {K = K} {X = V}) × IsHashed K.eq (key_hash H.BuildHasher H.Hasher.Hasher K.hash_input m.now.hasher) m.now };

    fn into_iter(self) -> Iter<'a, K, V, A> {
        HashTrieMap::iter(self)
    }
}
