//! A node of the trie: a branch of nodes by the next digit of the hash, one entry, or entries of one hash where no digit
//! is left.
ghost use Rattle.std.specs.Prelude.{◌≡◌, ◌≢◌, ℕ, ◌+◌, ◌-◌, ◌*◌, ◌<◌, ◌≤◌, ◌^◌, ◌/◌, ◌%◌, [], ◌∷◌, Some, None, IfOk, IsSome, length, map};
ghost use Rattle.std.specs.Option.{option_copied, option_map};
ghost use Rattle.rpds_hash_trie.specs.Digits.{hash_count};
ghost use Rattle.rpds_hash_trie.specs.HashTrie.{level_count, levels_shared, IsSound, matches, found, unmatched, AllAgree, hashes_in};
ghost use Rattle.rpds_hash_trie.specs.HashLookUp.{IsLookUp};
ghost use Rattle.rpds_hash_trie.specs.HashNode.{stored, shown};

use crate::sparse_array_usize::SparseArrayUsize;
use rpds_core::key::HashKey;
use rpds_core::map::entry::Entry;
use rpds_core::steps::Steps;
use std::alloc::{AllocError, Allocator};
use std::hash::Hash;
use std::marker::Model;
use std::rc::Rc;

/// An entry with the hash of its key, which is never computed again.
#[derive(Drop)]
pub struct EntryWithHash<K, V, A: Allocator> {
    /// The key and its value, which several tries may own.
    pub entry: Rc<Entry<K, V>, A>,
    /// The hash of the key.
    pub key_hash: u64,
}

// Entries of one hash: one, and the others.
#[derive(Drop)]
pub(crate) struct Collision<K, V, A: Allocator> {
    pub(crate) front: EntryWithHash<K, V, A>,
    pub(crate) others: Vec<EntryWithHash<K, V, A>, A>,
}

#[cycle(node)]
#[derive(Drop)]
pub(crate) struct Node<K, V, A: Allocator> {
    pub(crate) kind: Kind<K, V, A>,
    pub(crate) depth: u8,
    pub(crate) bits: u8,
}

#[cycle(node)]
#[derive(Drop)]
pub(crate) enum Kind<K, V, A: Allocator> {
    Branch(SparseArrayUsize<Rc<Node<K, V, A>, A>, A>),
    Leaf(EntryWithHash<K, V, A>),
    Collision(Rc<Collision<K, V, A>, A>),
}

impl<K, V, A: Allocator> Model for Node<K, V, A> {
    ghost use Rattle.std.specs.Prelude.{◌-◌};
    ghost use Rattle.rpds_hash_trie.specs.HashTrie.{Trie, level_count};

    ghost Value = { Trie K V };

    ghost use Rattle.rpds_hash_trie.specs.HashNode.{trie_of, IsNode};

    ghost view = { λ n. trie_of n.bits n.depth n.kind };

    ghost invariant = { λ n. IsNode n.bits n.depth n.kind };

    ghost size = { λ v. level_count v.bits - v.depth };

    ghost use Rattle.rpds_hash_trie.specs.HashFalls.{deep_le_left};

    ghost size_decreases = { λ n h. deep_le_left A.Allocator n.bits n.depth n.kind h };
}

impl<K: Drop, V: Drop, A: Allocator + Copy> Clone for EntryWithHash<K, V, A> {
    ghost is_clone = { λ e copy. stored copy ≡ stored e };

    fn clone(&self) -> Result<EntryWithHash<K, V, A>, AllocError> {
        self.share()
    }
}

impl<K: Drop, V: Drop, A: Allocator + Copy> Clone for Collision<K, V, A> {
    ghost is_clone = { λ c copy. shown copy ≡ shown c };

    fn clone(&self) -> Result<Collision<K, V, A>, AllocError> {
        let front = self.front.share()?;
        let others = self.others.clone()?;
        Ok(Collision { front, others })
    }
}

// A copy shares the children and the entries.
impl<K: Drop, V: Drop, A: Allocator + Copy> Clone for Node<K, V, A> {
    ghost is_clone = { λ node copy. copy ≡ node };

    fn clone(&self) -> Result<Node<K, V, A>, AllocError> {
        match &self.kind {
            Kind::Branch(children) => {
                let children = children.clone()?;
                Ok(Node {
                    kind: Kind::Branch(children),
                    depth: self.depth,
                    bits: self.bits,
                })
            }
            Kind::Leaf(entry) => {
                let entry = entry.share()?;
                Ok(Node {
                    kind: Kind::Leaf(entry),
                    depth: self.depth,
                    bits: self.bits,
                })
            }
            Kind::Collision(collision) => {
                let collision = collision.clone()?;
                Ok(Node {
                    kind: Kind::Collision(collision),
                    depth: self.depth,
                    bits: self.bits,
                })
            }
        }
    }
}

// The digit that comes next in what is left of a hash.
pub(crate) fn place_of(hash_left: u64, bits: u8) -> usize
    requires bits_in { (1 ≤ bits) × (bits ≤ 6) }
    ensures value { result ≡ hash_left % 2 ^ bits }
    ensures within { result < 64 }
{
    (hash_left & ((1u64 << bits) - 1)) as usize
}

impl<K: Eq + Hash, V, A: Allocator> EntryWithHash<K, V, A> {
    // Whether it is the entry of the key. Keys are compared only where the hashes are the same.
    pub(crate) fn matches_counted<Q: HashKey<K>>(
        &self,
        key: Q,
        hash: u64,
        steps: &mut Steps,
    ) -> bool
        ensures value { result ≡ matches Q.same (Q.seen key) hash (stored self.now) }
        ensures matched { steps.new
            ≡ record steps.old {
              matched = steps.old.matched + hash_count hash (self.now.key_hash ∷ []);
            } }
    {
        if self.key_hash != hash {
            return false;
        }
        steps.equal(&self.entry.key, key)
    }

    // The same, where no comparison is counted.
    pub(crate) fn matches<Q: HashKey<K>>(&self, key: Q, hash: u64) -> bool
        ensures { result ≡ matches Q.same (Q.seen key) hash (stored self.now) }
    {
        self.matches_counted(key, hash, &mut Steps::new())
    }
}

// The first of the entries that has the key.
fn find_in<'a, K: Eq + Hash, V, A: Allocator, Q: HashKey<K>>(
    entries: &'a [EntryWithHash<K, V, A>],
    key: Q,
    hash: u64,
    steps: &mut Steps,
) -> Option<&'a EntryWithHash<K, V, A>>
    ensures found { option_map stored (option_copied result) ≡ found (matches Q.same (Q.seen key) hash)
        (map stored entries.now) }
    ensures matched { steps.new.matched ≤ steps.old.matched + hash_count hash
        (hashes_in (map stored entries.now)) }
    ensures least { steps.old.matched ≤ steps.new.matched }
    ensures compares { IsSome (found (matches Q.same (Q.seen key) hash) (map stored entries.now))
        → steps.old.matched < steps.new.matched }
    ensures others { steps.new ≡ record steps.old { matched = steps.new.matched } }
{
    for entry in entries {
        if entry.matches_counted(key, hash, steps) {
            return Some(entry);
        }
    }
    None
}

impl<K, V, A: Allocator> Node<K, V, A> {
    // No work: a caller learns here what holds of each node.
    pub(crate) fn prove_sound(&self)
        ensures { IsSound self.now }
    {
        let _ = &self.kind;
    }
}

impl<K: Eq + Hash, V, A: Allocator> Node<K, V, A> {
    // The entry of the key. `hash_left` is what the levels above leave of the hash.
    pub(crate) fn get<Q: HashKey<K>>(
        &self,
        key: Q,
        hash: u64,
        hash_left: u64,
        steps: &mut Steps,
    ) -> Option<&EntryWithHash<K, V, A>>
        requires hash_left { hash_left ≡ hash / 2 ^ (self.now.depth * self.now.bits) }
        requires alike { AllAgree self.now.bits self.now.depth hash self.now.entries }
        requires once { length self.now.entries
            ≤ length (unmatched (matches Q.same (Q.seen key) hash) self.now.entries) + 1 }
        ensures found { option_map stored (option_copied result)
            ≡ found (matches Q.same (Q.seen key) hash) self.now.entries }

        // A hit enters as many nodes as there are levels that the key shares with another entry, and one.
        ensures counts { IsLookUp (IsSome (found (matches Q.same (Q.seen key) hash) self.now.entries)) (self.now.entries ≢ [])
            (levels_shared Q.same (Q.seen key) hash self.now + 1) (level_count self.now.bits - self.now.depth + 1)
            (hash_count hash (hashes_in self.now.entries)) steps.old steps.new }
    {
        let bits = self.bits;
        let mut node = self;
        let mut hash_left = hash_left;
        loop {
            steps.raise_visited();
            match &node.kind {
                Kind::Branch(children) => match children.get(place_of(hash_left, bits)) {
                    None => return None,
                    Some(child) => {
                        hash_left >>= bits;
                        node = child;
                    }
                },
                Kind::Leaf(entry) => {
                    return if entry.matches_counted(key, hash, steps) {
                        Some(entry)
                    } else {
                        None
                    };
                }
                Kind::Collision(collision) => {
                    let collision: &Collision<K, V, A> = collision;
                    if collision.front.matches_counted(key, hash, steps) {
                        return Some(&collision.front);
                    }
                    return find_in(&collision.others, key, hash, steps);
                }
            }
        }
    }
}
