//! Changes of a node in place. Each is one descent that makes the nodes on its way the trie's own: a shared one is
//! replaced by a copy, which is equal, so an error leaves the node as it is.
ghost use Rattle.std.specs.Prelude.{◌≡◌, ℕ, ◌+◌, ◌-◌, ◌*◌, ◌<◌, ◌≤◌, ◌^◌, ◌/◌, ◌%◌, ◌∷◌, length, map, true, is_none, IfOk, OnOk, OnErr, IsSome};
ghost use Rattle.std.specs.Option.{option_copied};
ghost use Rattle.rpds_hash_trie.specs.Places.{seen, item_at, put_at, without_at};
ghost use Rattle.rpds_hash_trie.specs.HashTrie.{matches, flat, found, unmatched, AllAgree, IsCollision, IsLeaf, IsLoose};
ghost use Rattle.rpds_hash_trie.specs.HashNode.{stored, shown, leaf_of, IsAlone};
ghost use Rattle.rpds_hash_trie.specs.HashInPlace.{IsPutIn};
ghost use Rattle.rpds_hash_trie.specs.HashRemovalInPlace.{IsRemoved, IsRemovedChild, IsRemovedFrom};

use crate::colliding::{put_colliding, remove_colliding};
use crate::node::{EntryWithHash, Kind, Node, place_of};
use crate::sparse_array_usize::SparseArrayUsize;
use rpds_core::key::HashKey;
use rpds_core::own::own;
use rpds_core::steps::Steps;
use std::alloc::{AllocError, Allocator};
use std::hash::Hash;
use std::rc::Rc;

// Puts the leaf of the entry at a place that has no child, and returns that its key is new.
fn put_leaf<K: Drop, V: Drop, A: Allocator + Copy>(
    children: &mut SparseArrayUsize<Rc<Node<K, V, A>, A>, A>,
    alloc: A,
    depth: u8,
    bits: u8,
    place: usize,
    entry: EntryWithHash<K, V, A>,
) -> Result<bool, AllocError>
    requires small { place < 64 }
    requires fits { IsLeaf bits (depth + 1) }
    ensures fresh { IfOk result (λ added. added ≡ true) }
    ensures ok { OnOk result (seen children.new
        ≡ put_at place (leaf_of bits (depth + 1) (stored entry)) (seen children.old)) }
    ensures err { OnErr result (children.new ≡ children.old) }
{
    let leaf = Node::leaf(alloc, depth + 1, bits, entry, &mut Steps::new())?;
    children.set(place, leaf)?;
    Ok(true)
}

impl<K: Eq + Hash + Drop, V: Drop, A: Allocator + Copy> Node<K, V, A> {
    // Puts the entry in, in place of the one that has its key, and returns whether the key is new. `hash_left` is what
    // the levels above leave of its hash.
    pub(crate) fn insert_mut(
        &mut self,
        alloc: A,
        entry: EntryWithHash<K, V, A>,
        hash_left: u64,
    ) -> Result<bool, AllocError>
        requires hash_left { hash_left ≡ entry.key_hash / 2 ^ (self.old.depth * self.old.bits) }
        requires alike { AllAgree self.old.bits self.old.depth entry.key_hash self.old.entries }
        requires once { length self.old.entries ≤ length
            (unmatched (matches K.eq entry.entry.value.key entry.key_hash) self.old.entries) + 1 }
        ensures ok { IfOk result (λ added.
            IsPutIn (matches K.eq entry.entry.value.key entry.key_hash)
            (stored entry) self.old self.new added) }
        ensures err { OnErr result (self.new ≡ self.old) }
    {
        let depth = self.depth;
        let bits = self.bits;
        match &mut self.kind {
            Kind::Branch(children) => {
                let place = place_of(hash_left, bits);
                match children.get_mut(place) {
                    None => put_leaf(children, alloc, depth, bits, place, entry),
                    Some(child) => {
                        let child = own(child)?;
                        let added = child.insert_mut(alloc, entry, hash_left >> bits);
                        child.prove_sound();
                        added
                    }
                }
            }
            Kind::Leaf(old) => {
                if old.matches(&entry.entry.key, entry.key_hash) {
                    *old = entry;
                    return Ok(false);
                }
                let parted = Node::part(alloc, depth, bits, old, entry, &mut Steps::new())?;
                *self = parted;
                Ok(true)
            }
            Kind::Collision(collision) => put_colliding(collision, entry),
        }
    }
}

// What a removal in place found and did.
#[derive(Drop)]
pub(crate) enum Removed<K, V, A: Allocator> {
    // The key is not there.
    NotFound,
    // One other entry stays, which is this one. The node is as it was, and its owner makes it a leaf.
    OneLeft(EntryWithHash<K, V, A>),
    // Its entry is gone, and two others or more stay.
    Done,
}

// The one entry that stays without the child at the place, where there is no other.
fn only_entry_beside<'a, K, V, A: Allocator>(
    children: &'a SparseArrayUsize<Rc<Node<K, V, A>, A>, A>,
    place: usize,
    depth: u8,
    bits: u8,
) -> Option<&'a EntryWithHash<K, V, A>>
    requires small { place < 64 }
    requires there { IsSome (item_at place children.now) }
    requires loose { IsLoose bits depth (without_at place (seen children.now)) }
    ensures { IsAlone (flat (without_at place (seen children.now))) (option_copied result) }
{
    if children.size() != 2 {
        return None;
    }
    match children.beside(place) {
        None => None,
        Some(only) => {
            let only: &Node<K, V, A> = only;
            only.only_entry()
        }
    }
}

// Removes the child at the place, or returns the one entry that would stay.
fn remove_child<K: Drop, V: Drop, A: Allocator + Copy>(
    children: &mut SparseArrayUsize<Rc<Node<K, V, A>, A>, A>,
    place: usize,
    depth: u8,
    bits: u8,
) -> Result<Removed<K, V, A>, AllocError>
    requires small { place < 64 }
    requires there { IsSome (item_at place children.old) }
    requires loose { IsLoose bits depth (without_at place (seen children.old)) }
    ensures ok { IfOk result (λ removed. IsRemovedChild place children.old children.new removed) }
    ensures err { OnErr result (children.new ≡ children.old) }
{
    match only_entry_beside(children, place, depth, bits) {
        Some(entry) => {
            let entry = entry.share()?;
            Ok(Removed::OneLeft(entry))
        }
        None => {
            children.remove(place);
            Ok(Removed::Done)
        }
    }
}

impl<K: Drop, V: Drop, A: Allocator + Copy> Node<K, V, A> {
    // Becomes the leaf of an entry.
    pub(crate) fn become_leaf(&mut self, entry: EntryWithHash<K, V, A>)
        ensures { self.new ≡ leaf_of self.old.bits self.old.depth (stored entry) }
    {
        self.prove_sound();
        let depth = self.depth;
        let bits = self.bits;
        let kind = Kind::Leaf(entry);
        *self = Node { kind, depth, bits };
    }
}

impl<K: Eq + Hash + Drop, V: Drop, A: Allocator + Copy> Node<K, V, A> {
    // Removes the entry of the key from a node of several. `hash_left` is what the levels above leave of its hash. A leaf
    // is never copied: its owner sees whether it goes.
    pub(crate) fn remove_mut<Q: HashKey<K>>(
        &mut self,
        key: Q,
        hash: u64,
        hash_left: u64,
    ) -> Result<Removed<K, V, A>, AllocError>
        requires hash_left { hash_left ≡ hash / 2 ^ (self.old.depth * self.old.bits) }
        requires several { 2 ≤ length self.old.entries }
        requires once { length self.old.entries
            ≤ length (unmatched (matches Q.same (Q.seen key) hash) self.old.entries) + 1 }
        ensures ok { IfOk result (λ removed.
            IsRemovedFrom (matches Q.same (Q.seen key) hash) self.old self.new removed) }
        ensures err { OnErr result (self.new ≡ self.old) }
    {
        let depth = self.depth;
        let bits = self.bits;
        match &mut self.kind {
            Kind::Branch(children) => {
                let place = place_of(hash_left, bits);
                let alone = children.size() == 1;
                let Some(child) = children.get_mut(place) else {
                    return Ok(Removed::NotFound);
                };
                let held: &Node<K, V, A> = child;
                if let Some(only) = held.only_entry() {
                    if only.matches(key, hash) {
                        return remove_child(children, place, depth, bits);
                    }
                    return Ok(Removed::NotFound);
                }
                let child = own(child)?;
                match child.remove_mut(key, hash, hash_left >> bits)? {
                    Removed::NotFound => Ok(Removed::NotFound),
                    Removed::OneLeft(entry) => {
                        if alone {
                            return Ok(Removed::OneLeft(entry));
                        }
                        child.become_leaf(entry);
                        child.prove_sound();
                        Ok(Removed::Done)
                    }
                    Removed::Done => {
                        child.prove_sound();
                        Ok(Removed::Done)
                    }
                }
            }
            Kind::Leaf(_) => unreachable!(),
            Kind::Collision(collision) => remove_colliding(collision, key, hash),
        }
    }
}
