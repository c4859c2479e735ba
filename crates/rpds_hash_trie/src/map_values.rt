//! A trie of the same keys with other values, made in one walk: no key is hashed or compared.
ghost use Rattle.std.specs.Prelude.{◌≡◌, IfOk, map};
ghost use Rattle.rpds_core.specs.Calls.{HasValueOf};
ghost use Rattle.rpds_hash_trie.specs.HashNode.{collision_of, stored};
ghost use Rattle.rpds_hash_trie.specs.HashTrie.{IsCollision};
ghost use Rattle.rpds_hash_trie.specs.HashValues.{HasStoredValueOf, HasValuesOf};

use crate::node::{Collision, EntryWithHash, Kind, Node};
use crate::root::Root;
use rpds_core::map::entry::Entry;
use rpds_core::steps::Steps;
use std::alloc::{AllocError, Allocator};
use std::rc::Rc;

// A clone of the key, with what `change` answers at the value.
fn map_pair<K: Clone + Drop, V, W: Drop, F: Fn(&V) -> Result<W, AllocError>>(
    entry: &Entry<K, V>,
    change: &F,
) -> Result<Entry<K, W>, AllocError>
    requires clone_keys { (x y : K) → K.is_clone x y → y ≡ x }
    requires callable { F.IsAlwaysCallable change.now }
    ensures { IfOk result (λ e. HasValueOf F.Fn change.now (entry.now.key, entry.now.value) (e.key, e.value)) }
{
    let key = entry.key.clone()?;
    let value = change(&entry.value)?;
    Ok(Entry { key, value })
}

impl<K: Clone + Drop, V, A: Allocator + Copy> EntryWithHash<K, V, A> {
    // An entry of its own with such a pair. The hash is kept.
    fn map_value<W: Drop, F: Fn(&V) -> Result<W, AllocError>>(
        &self,
        alloc: A,
        change: &F,
    ) -> Result<EntryWithHash<K, W, A>, AllocError>
        requires clone_keys { (x y : K) → K.is_clone x y → y ≡ x }
        requires callable { F.IsAlwaysCallable change.now }
        ensures { IfOk result (λ e. HasStoredValueOf F.Fn change.now (stored self.now) (stored e)) }
    {
        let pair = map_pair(&self.entry, change)?;
        let entry = Rc::new(alloc, pair)?;
        Ok(EntryWithHash {
            entry,
            key_hash: self.key_hash,
        })
    }
}

// A node of the same entries of one hash, with other values.
#[inline(never)]
fn map_collision<
    K: Clone + Drop,
    V,
    W: Drop,
    A: Allocator + Copy,
    F: Fn(&V) -> Result<W, AllocError>,
>(
    alloc: A,
    depth: u8,
    bits: u8,
    collision: &Collision<K, V, A>,
    change: &F,
) -> Result<Rc<Node<K, W, A>, A>, AllocError>
    requires sound { IsCollision bits depth collision.now.front.key_hash (map stored collision.now.others.items) }
    requires clone_keys { (x y : K) → K.is_clone x y → y ≡ x }
    requires callable { F.IsAlwaysCallable change.now }
    ensures { let all = collision_of bits depth (stored collision.now.front) (map stored collision.now.others.items) in
        IfOk result (λ n. HasValuesOf F.Fn change.now all n.value) }
{
    let front = collision.front.map_value(alloc, change)?;
    let entries = collision.others.as_slice();
    let mut others = Vec::with_capacity(alloc, entries.len())?;
    for entry in entries {
        let mapped = entry.map_value(alloc, change)?;
        others.push_reserved(mapped);
    }
    Node::collision(alloc, depth, bits, front, others, &mut Steps::new())
}

impl<K: Clone + Drop, V, A: Allocator + Copy> Node<K, V, A> {
    // A node of the same kind over the same keys, each with what `change` answers at its value.
    pub(crate) fn map_values<W: Drop, F: Fn(&V) -> Result<W, AllocError>>(
        &self,
        alloc: A,
        change: &F,
    ) -> Result<Rc<Node<K, W, A>, A>, AllocError>
        requires clone_keys { (x y : K) → K.is_clone x y → y ≡ x }
        requires callable { F.IsAlwaysCallable change.now }
        ensures { IfOk result (λ n. HasValuesOf F.Fn change.now self.now n.value) }
    {
        let (depth, bits) = (self.depth, self.bits);
        match &self.kind {
            Kind::Leaf(entry) => {
                let entry = entry.map_value(alloc, change)?;
                Node::leaf(alloc, depth, bits, entry, &mut Steps::new())
            }
            Kind::Collision(collision) => {
                let collision: &Collision<K, V, A> = collision;
                map_collision(alloc, depth, bits, collision, change)
            }
            Kind::Branch(children) => {
                let row = children.as_slice();
                let mut mapped_row = Vec::with_capacity(alloc, row.len())?;
                for child in row {
                    let child: &Node<K, V, A> = child;
                    let mapped = child.map_values(alloc, change)?;
                    mapped_row.push_reserved(mapped);
                }
                let children = children.with_items(mapped_row);
                Node::branch(alloc, depth, bits, children, &mut Steps::new())
            }
        }
    }
}

impl<K: Clone + Drop, V, A: Allocator + Copy> Root<K, V, A> {
    /// The trie of the same keys, each with what `change` answers at its value, in one walk: the hashes are kept. An error means that
    /// `change` or the clone of a key failed, or that memory ran out.
    pub fn map_values<W: Drop, F: Fn(&V) -> Result<W, AllocError>>(
        &self,
        alloc: A,
        change: &F,
    ) -> Result<Root<K, W, A>, AllocError>
        requires clone_keys { (x y : K) → K.is_clone x y → y ≡ x }
        requires callable { F.IsAlwaysCallable change.now }
        ensures { IfOk result (λ r. HasValuesOf F.Fn change.now self.now r) }
    {
        let node = match &self.node {
            None => None,
            Some(node) => {
                let node: &Node<K, V, A> = node;
                Some(node.map_values(alloc, change)?)
            }
        };
        Ok(Root {
            node,
            bits: self.bits,
        })
    }
}
