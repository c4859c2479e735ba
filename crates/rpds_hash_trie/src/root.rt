//! The root of a trie: a node at the depth 0, or nothing.
ghost use Rattle.std.specs.Prelude.{◌≡◌, ◌≢◌, ◌+◌, ◌-◌, ◌<◌, ◌≤◌, ◌∷◌, [], None, IfOk, OnOk, OnErr, IsSome, is_some, MatchOption, length, ◌^◌};
ghost use Rattle.std.specs.Map.Iter.{deref_pair};
ghost use Rattle.std.specs.Option.{option_map};
ghost use Rattle.rpds_hash_trie.specs.HashInPlace.{IsPutIn};
ghost use Rattle.rpds_hash_trie.specs.HashLookUp.{IsLookUp};
ghost use Rattle.rpds_hash_trie.specs.HashNode.{stored};
ghost use Rattle.rpds_hash_trie.specs.HashRemoval.{IsLeft};
ghost use Rattle.rpds_hash_trie.specs.HashRoot.{IsTop, empty_of};
ghost use Rattle.rpds_core.specs.Counts.{IsMadeWithin};
ghost use Rattle.rpds_hash_trie.specs.Digits.{hash_count, reach_within};
ghost use Rattle.rpds_hash_trie.specs.HashTrie.{level_count, matches, found, unmatched, hashes_in};

use crate::in_place::Removed;
use crate::node::{EntryWithHash, Node};
use crate::remove::Removal;
use rpds_core::key::HashKey;
use rpds_core::map::entry::Entry;
use rpds_core::own::own;
use rpds_core::steps::Steps;
use std::alloc::{AllocError, Allocator};
use std::hash::Hash;
use std::marker::Model;
use std::rc::Rc;

/// All entries of a map, with the hashes of their keys: the root of a hash trie, or none where there is no entry.
#[derive(Drop)]
pub struct Root<K, V, A: Allocator> {
    pub(crate) node: Option<Rc<Node<K, V, A>, A>>,
    pub(crate) bits: u8,
}

impl<K, V, A: Allocator> Model for Root<K, V, A> {
    ghost use Rattle.rpds_hash_trie.specs.HashTrie.{Trie};
    ghost use Rattle.rpds_hash_trie.specs.HashRoot.{root_of, IsRoot};

    ghost Value = { Trie K V };

    ghost view = { λ r. root_of r.bits r.node };

    ghost invariant = { λ r. IsRoot r.bits r.node };
}

impl<K, V, A: Allocator> Root<K, V, A> {
    /// An empty root, whose digits have `bits` bits.
    pub fn new(bits: u8) -> Root<K, V, A>
        requires { (1 ≤ bits) × (bits ≤ 6) }
        ensures { result ≡ empty_of bits }
    {
        Root { node: None, bits }
    }

    /// How many bits a digit has.
    pub fn bits(&self) -> u8
        ensures { result ≡ self.now.bits }
    {
        self.bits
    }

    /// Does nothing: its contract says what holds of each root.
    pub fn prove_sound(&self)
        ensures { IsTop self.now }
    {
        match &self.node {
            None => {}
            Some(node) => {
                let node: &Node<K, V, A> = node;
                node.prove_sound()
            }
        }
    }
}

impl<K: Eq + Hash, V, A: Allocator> Root<K, V, A> {
    /// The stored key that is equal to the key, and its value.
    #[tactic(auto, using(crate::proofs::Flat::agree_top))]
    pub fn get<Q: HashKey<K>>(&self, key: Q, hash: u64, steps: &mut Steps) -> Option<(&K, &V)>
        requires { length self.now.entries
            ≤ length (unmatched (matches Q.same (Q.seen key) hash) self.now.entries) + 1 }
        ensures found { option_map deref_pair result ≡ option_map (λ e. e.1)
            (found (matches Q.same (Q.seen key) hash) self.now.entries) }

        ensures counts { let others = unmatched (matches Q.same (Q.seen key) hash) self.now.entries in
            let shared = reach_within (2 ^ self.now.bits) hash (hashes_in others) 0 (level_count self.now.bits) in
            IsLookUp (IsSome (found (matches Q.same (Q.seen key) hash) self.now.entries)) (self.now.entries ≢ [])
            (shared + 1) (level_count self.now.bits + 1) (hash_count hash (hashes_in self.now.entries))
            steps.old steps.new }
    {
        match &self.node {
            None => None,
            Some(node) => {
                let node: &Node<K, V, A> = node;
                match node.get(key, hash, hash, steps) {
                    None => None,
                    Some(stored) => {
                        let entry: &Entry<K, V> = &stored.entry;
                        Some((&entry.key, &entry.value))
                    }
                }
            }
        }
    }
}

impl<K: Eq + Hash + Drop, V: Drop, A: Allocator + Copy> Root<K, V, A> {
    /// Another handle to the same root. An error means that a reference count overflowed.
    pub fn share(&self) -> Result<Root<K, V, A>, AllocError>
        ensures { IfOk result (λ r. r ≡ self.now) }
    {
        Ok(Root {
            node: self.node.clone()?,
            bits: self.bits,
        })
    }

    /// The stored pair of the key: another handle to it. An error means that a reference count overflowed.
    #[tactic(auto, using(crate::proofs::Flat::agree_top))]
    pub fn shared_entry<Q: HashKey<K>>(
        &self,
        key: Q,
        hash: u64,
    ) -> Result<Option<Rc<Entry<K, V>, A>>, AllocError>
        requires { length self.now.entries
            ≤ length (unmatched (matches Q.same (Q.seen key) hash) self.now.entries) + 1 }
        ensures { IfOk result (λ entry. option_map (λ e. (e.value.key, e.value.value)) entry
            ≡ option_map (λ e. e.1) (found (matches Q.same (Q.seen key) hash) self.now.entries)) }
    {
        let Some(node) = &self.node else {
            return Ok(None);
        };
        let node: &Node<K, V, A> = node;
        match node.get(key, hash, hash, &mut Steps::new()) {
            None => Ok(None),
            Some(stored) => Ok(Some(stored.entry.clone()?)),
        }
    }

    /// The entries with this one in the place of the one that has its key. `fresh` tells whether the key is new. An error means
    /// that memory ran out.
    #[tactic(auto, using(crate::proofs::Flat::agree_top))]
    pub fn insert(
        &self,
        alloc: A,
        entry: EntryWithHash<K, V, A>,
        fresh: &mut bool,
        steps: &mut Steps,
    ) -> Result<Root<K, V, A>, AllocError>
        requires { length self.now.entries ≤ length
            (unmatched (matches K.eq entry.entry.value.key entry.key_hash) self.now.entries) + 1 }
        ensures ok { IfOk result (λ r.
            IsPutIn (matches K.eq entry.entry.value.key entry.key_hash)
            (stored entry) self.now r fresh.new) }
        ensures made { let others = unmatched (matches K.eq entry.entry.value.key entry.key_hash) self.now.entries in
            let shared = reach_within (2 ^ self.now.bits) entry.key_hash (hashes_in others) 0 (level_count self.now.bits) in
            IsMadeWithin (shared + 2) steps.old steps.new }
        ensures first { self.now.entries ≡ [] → IsMadeWithin 1 steps.old steps.new }
        ensures makes { OnOk result (steps.old.made < steps.new.made) }
    {
        let hash = entry.key_hash;
        match &self.node {
            None => {
                *fresh = true;
                let leaf = Node::leaf(alloc, 0, self.bits, entry, steps)?;
                Ok(Root {
                    node: Some(leaf),
                    bits: self.bits,
                })
            }
            Some(node) => {
                let node: &Node<K, V, A> = node;
                node.prove_sound();
                let changed = node.insert(alloc, entry, hash, fresh, steps)?;
                Ok(Root {
                    node: Some(changed),
                    bits: self.bits,
                })
            }
        }
    }

    /// The entries without the key; None where it is absent. An error means that memory ran out.
    #[tactic(auto, using(crate::proofs::Flat::agree_top))]
    pub fn remove<Q: HashKey<K>>(
        &self,
        alloc: A,
        key: Q,
        hash: u64,
        steps: &mut Steps,
    ) -> Result<Option<Root<K, V, A>>, AllocError>
        requires { length self.now.entries
            ≤ length (unmatched (matches Q.same (Q.seen key) hash) self.now.entries) + 1 }
        ensures ok { IfOk result (λ r.
            MatchOption r (found (matches Q.same (Q.seen key) hash) self.now.entries ≡ None)
            (IsLeft (matches Q.same (Q.seen key) hash) self.now)) }
        ensures made { let others = unmatched (matches Q.same (Q.seen key) hash) self.now.entries in
            let shared = reach_within (2 ^ self.now.bits) hash (hashes_in others) 0 (level_count self.now.bits) in
            IsMadeWithin (shared + 1) steps.old steps.new }
        ensures makes { IfOk result (λ r. MatchOption r (steps.new ≡ steps.old) (λ left.
            left.entries ≢ [] → steps.old.made < steps.new.made)) }
    {
        match &self.node {
            None => Ok(None),
            Some(node) => {
                let node: &Node<K, V, A> = node;
                match node.remove(alloc, key, hash, hash, steps)? {
                    Removal::Absent => Ok(None),
                    Removal::Empty => Ok(Some(Root {
                        node: None,
                        bits: self.bits,
                    })),
                    Removal::Left(left) => Ok(Some(Root {
                        node: Some(left),
                        bits: self.bits,
                    })),
                }
            }
        }
    }

    /// Puts the entry in, in place of the one that has its key, and returns whether the key is new. An error means that memory
    /// ran out, and leaves the entries as they are.
    #[tactic(auto, using(crate::proofs::Flat::agree_top))]
    pub fn insert_mut(
        &mut self,
        alloc: A,
        entry: EntryWithHash<K, V, A>,
    ) -> Result<bool, AllocError>
        requires { length self.old.entries ≤ length
            (unmatched (matches K.eq entry.entry.value.key entry.key_hash) self.old.entries) + 1 }
        ensures ok { IfOk result (λ added.
            IsPutIn (matches K.eq entry.entry.value.key entry.key_hash)
            (stored entry) self.old self.new added) }
        ensures err { OnErr result (self.new ≡ self.old) }
    {
        let hash = entry.key_hash;
        let bits = self.bits;
        match &mut self.node {
            None => {
                let leaf = Node::leaf(alloc, 0, bits, entry, &mut Steps::new())?;
                self.node = Some(leaf);
                Ok(true)
            }
            Some(node) => {
                let node = own(node)?;
                let added = node.insert_mut(alloc, entry, hash)?;
                Ok(added)
            }
        }
    }

    /// Drops all entries.
    pub fn clear(&mut self)
        ensures { self.new ≡ empty_of self.old.bits }
    {
        self.node = None;
    }

    /// Removes the entry of the key, and returns whether there was one. An error means that memory ran out, and leaves the
    /// entries as they are.
    pub fn remove_mut<Q: HashKey<K>>(&mut self, key: Q, hash: u64) -> Result<bool, AllocError>
        requires { length self.old.entries
            ≤ length (unmatched (matches Q.same (Q.seen key) hash) self.old.entries) + 1 }
        ensures found { IfOk result (λ there.
            there ≡ is_some (found (matches Q.same (Q.seen key) hash) self.old.entries)) }
        ensures ok { OnOk result
            (self.new ≡ record self.old {
              entries = unmatched
                  (matches Q.same (Q.seen key) hash) self.old.entries;
            }) }
        ensures err { OnErr result (self.new ≡ self.old) }
    {
        let Some(node) = &mut self.node else {
            return Ok(false);
        };
        let held: &Node<K, V, A> = node;
        if let Some(only) = held.only_entry() {
            if !only.matches(key, hash) {
                return Ok(false);
            }
            self.node = None;
            return Ok(true);
        }
        let node = own(node)?;
        match node.remove_mut(key, hash, hash)? {
            Removed::NotFound => Ok(false),
            Removed::OneLeft(entry) => {
                node.become_leaf(entry);
                Ok(true)
            }
            Removed::Done => Ok(true),
        }
    }
}
