//! The value of a key, lent to be written to: the path to it is made the trie's own first.
ghost use Rattle.std.specs.Prelude.{◌≡◌, ℕ, ◌+◌, ◌-◌, ◌<◌, ◌≤◌, [], ◌∷◌, Some, None, Ok, Err, length, ◌^◌};
ghost use Rattle.std.specs.Borrow.{sem};
ghost use Rattle.rpds_core.specs.Counts.{IsWithin};
ghost use Rattle.rpds_core.specs.ValueLends.{Tells, with_reason};
ghost use Rattle.rpds_core.specs.declared.lend.ValueMutError.TheVariants.{Absent, NoMemory};
ghost use Rattle.rpds_hash_trie.specs.Digits.{digit};
ghost use Rattle.rpds_hash_trie.specs.HashTrie.{level_count, matches, found, unmatched, flat, IsBranch};
ghost use Rattle.rpds_hash_trie.specs.HashNode.{stored, shown, branch_of, trie_of, IsNode};
ghost use Rattle.rpds_hash_trie.specs.Places.{seen};
ghost use Rattle.rpds_hash_trie.specs.HashLent.{IsReady, value_of, node_with, lends_in_entry, lends_in_leaf, lends_in_collision, lends_in_shared, lends_in_children, lends_in_kind, lends_in_root};

use crate::colliding::index_in;
use crate::node::{Collision, EntryWithHash, Kind, Node, place_of};
use crate::root::Root;
use crate::sparse_array_usize::SparseArrayUsize;
use rpds_core::key::HashKey;
use rpds_core::lend::{
    Descent, Lend, Levels, NotLent, Search, Then, ValueMutError, lend_within_64,
};
use rpds_core::own::own;
use rpds_core::steps::Steps;
use std::alloc::Allocator;
use std::hash::Hash;
use std::rc::Rc;

impl<K: Eq + Hash + Clone + Drop, V: Clone + Drop, A: Allocator + Copy> Root<K, V, A> {
    /// The value of the key, to write to. The nodes on the way to it become the root's own. It returns `Absent` where the key
    /// isn't there, and `NoMemory` where a copy or a clone failed: both leave the entries as they are.
    pub fn value_mut<'a, Q: HashKey<K>>(
        &'a mut self,
        key: Q,
        hash: u64,
    ) -> Result<&'a mut V, ValueMutError>
        requires once { length self.old.entries
            ≤ length (unmatched (matches Q.same (Q.seen key) hash) self.old.entries) + 1 }
        requires clone_keys { (x y : K) → K.is_clone x y → y ≡ x }
        requires clone_values { (x y : V) → V.is_clone x y → y ≡ x }
        ensures* writes_back { sem 𝓛
            (lends_in_root K.row V.row A.row A.Allocator
            (matches Q.same (Q.seen key) hash) self.entry result) }
        ensures returned { Tells (value_of (matches Q.same (Q.seen key) hash) self.old.entries) result }
    {
        match &mut self.node {
            None => Err(ValueMutError::Absent),
            Some(node) => {
                let node = own(node)?;
                let probe = Probe { key, hash };
                lend_within_64::<Node<K, V, A>, Probe<Q>, V, ByKey, Level, Then<Level, NoLevel>>(
                    node,
                    probe,
                    &mut Steps::new(),
                )
            }
        }
    }
}

// A form of a key that is looked for, and its hash.
#[derive(Clone, Copy, Drop)]
pub(crate) struct Probe<Q> {
    key: Q,
    hash: u64,
}

// A value is looked for in a node by its key.
pub(crate) struct ByKey;

impl<K: Eq + Hash + Clone + Drop, V: Clone + Drop, A: Allocator + Copy, Q: HashKey<K>> Search<
    Node<K, V, A>,
    Probe<Q>,
    V,
> for ByKey {
    // The node's own level too, so that below the last one no node comes.
    ghost depth = { λ n. level_count n.bits + 1 - n.depth };

    ghost ready = { λ n p. IsReady Q.same K.is_clone V.is_clone n (Q.seen p.key) p.hash };

    ghost value = { λ n p. value_of (matches Q.same (Q.seen p.key) p.hash) n.entries };

    ghost written = { λ n p v. node_with (matches Q.same (Q.seen p.key) p.hash) v n };
}

// The digit of the hash at a depth that has one.
#[tactic(auto, using(crate::proofs::Digits::digit_of, crate::proofs::Digits::shift_lt))]
fn digit_at(hash: u64, depth: u8, bits: u8) -> usize
    requires bits_in { (1 ≤ bits) × (bits ≤ 6) }
    requires left { depth < level_count bits }
    ensures value { result ≡ digit (2 ^ bits) depth hash }
    ensures within { result < 64 }
{
    place_of(hash >> (depth as u32 * bits as u32), bits)
}

// The value of an entry, which is made the node's own.
fn lend_value<'a, K: Clone + Drop, V: Clone + Drop, A: Allocator + Copy>(
    held: &'a mut EntryWithHash<K, V, A>,
) -> Result<&'a mut V, NotLent>
    requires keys { (x y : K) → K.is_clone x y → y ≡ x }
    requires values { (x y : V) → V.is_clone x y → y ≡ x }
    ensures* writes_back { sem 𝓛 (lends_in_entry K.row V.row A.row A.Allocator held.entry result) }
    ensures returned { Tells (Some held.old.entry.value.value) (with_reason NoMemory result) }
{
    let entry = own(&mut held.entry)?;
    Ok(&mut entry.value)
}

// The value of the key, if the entry of a leaf is the key's; else why there is none.
fn lend_in_leaf<
    'a,
    K: Eq + Hash + Clone + Drop,
    V: Clone + Drop,
    A: Allocator + Copy,
    Q: HashKey<K>,
>(
    held: &'a mut EntryWithHash<K, V, A>,
    key: Q,
    hash: u64,
    failure: &mut ValueMutError,
) -> Result<&'a mut V, NotLent>
    requires keys { (x y : K) → K.is_clone x y → y ≡ x }
    requires values { (x y : V) → V.is_clone x y → y ≡ x }
    requires fresh { failure.old ≡ NoMemory }
    ensures* writes_back { sem 𝓛
        (lends_in_leaf K.row V.row A.row A.Allocator
        (matches Q.same (Q.seen key) hash) held.entry result) }
    ensures returned { Tells (value_of (matches Q.same (Q.seen key) hash) (stored held.old ∷ []))
        (with_reason failure.new result) }
{
    if held.matches(key, hash) {
        return lend_value(held);
    }
    *failure = ValueMutError::Absent;
    Err(NotLent)
}

// The value of the key in a collision, or why there is none. The entries keep their order.
fn lend_in_collision<
    'a,
    K: Eq + Hash + Clone + Drop,
    V: Clone + Drop,
    A: Allocator + Copy,
    Q: HashKey<K>,
>(
    collision: &'a mut Collision<K, V, A>,
    key: Q,
    hash: u64,
    failure: &mut ValueMutError,
) -> Result<&'a mut V, NotLent>
    requires keys { (x y : K) → K.is_clone x y → y ≡ x }
    requires values { (x y : V) → V.is_clone x y → y ≡ x }
    requires fresh { failure.old ≡ NoMemory }
    ensures* writes_back { sem 𝓛
        (lends_in_collision K.row V.row A.row A.Allocator
        (matches Q.same (Q.seen key) hash) collision.entry result) }
    ensures returned { Tells (value_of (matches Q.same (Q.seen key) hash) (shown collision.old))
        (with_reason failure.new result) }
{
    if collision.front.matches(key, hash) {
        return lend_value(&mut collision.front);
    }
    let at = index_in(&collision.others, key, hash);
    match collision.others.get_mut(at) {
        None => {
            *failure = ValueMutError::Absent;
            Err(NotLent)
        }
        Some(held) => lend_value(held),
    }
}

// The same in a collision that other nodes may share: it is made the node's own.
fn lend_in_shared<
    'a,
    K: Eq + Hash + Clone + Drop,
    V: Clone + Drop,
    A: Allocator + Copy,
    Q: HashKey<K>,
>(
    collision: &'a mut Rc<Collision<K, V, A>, A>,
    key: Q,
    hash: u64,
    failure: &mut ValueMutError,
) -> Result<&'a mut V, NotLent>
    requires keys { (x y : K) → K.is_clone x y → y ≡ x }
    requires values { (x y : V) → V.is_clone x y → y ≡ x }
    requires fresh { failure.old ≡ NoMemory }
    ensures* writes_back { sem 𝓛
        (lends_in_shared K.row V.row A.row A.Allocator
        (matches Q.same (Q.seen key) hash) collision.entry result) }
    ensures returned { Tells (value_of (matches Q.same (Q.seen key) hash) (shown collision.old.value))
        (with_reason failure.new result) }
{
    let collision = own(collision)?;
    lend_in_collision(collision, key, hash, failure)
}

// The value of the key in the child on the way to it, or why there is none. They are the children of a branch at `depth`.
fn lend_in_children<
    'a,
    K: Eq + Hash + Clone + Drop,
    V: Clone + Drop,
    A: Allocator + Copy,
    Q: HashKey<K>,
    L: Lend<Node<K, V, A>, Probe<Q>, V, ByKey>,
>(
    children: &'a mut SparseArrayUsize<Rc<Node<K, V, A>, A>, A>,
    bits: u8,
    depth: u8,
    descent: &mut Descent<Probe<Q>>,
    steps: &mut Steps,
) -> Result<&'a mut V, NotLent>
    requires branch { IsBranch bits depth (seen children.old) }
    requires ready { IsReady Q.same K.is_clone V.is_clone (branch_of bits depth (seen children.old))
        (Q.seen descent.old.key.key) descent.old.key.hash }
    requires fresh { descent.old.failure ≡ NoMemory }
    requires shallow { level_count bits + 1 - depth ≤ 1 + L.reach }
    ensures* writes_back { sem 𝓛
        (lends_in_children K.row V.row A.row A.Allocator bits depth
        (matches Q.same (Q.seen descent.old.key.key) descent.old.key.hash) children.entry result) }
    ensures returned { Tells
        (value_of (matches Q.same (Q.seen descent.old.key.key) descent.old.key.hash) (flat (seen children.old)))
        (with_reason descent.new.failure result) }
    ensures steps { IsWithin (level_count bits + 1 - depth) (level_count bits + 1 - depth)
        steps.old steps.new }
{
    let place = digit_at(descent.key.hash, depth, bits);
    match children.get_mut(place) {
        None => {
            descent.failure = ValueMutError::Absent;
            Err(NotLent)
        }
        Some(child) => {
            let child = own(child)?;
            L::lend(child, descent, steps)
        }
    }
}

// The value of the key in a node at `depth` that is of this kind, or why there is none.
#[inline(always)]
fn lend_in_kind<
    'a,
    K: Eq + Hash + Clone + Drop,
    V: Clone + Drop,
    A: Allocator + Copy,
    Q: HashKey<K>,
    L: Lend<Node<K, V, A>, Probe<Q>, V, ByKey>,
>(
    kind: &'a mut Kind<K, V, A>,
    bits: u8,
    depth: u8,
    descent: &mut Descent<Probe<Q>>,
    steps: &mut Steps,
) -> Result<&'a mut V, NotLent>
    requires node { IsNode bits depth kind.old }
    requires ready { IsReady Q.same K.is_clone V.is_clone (trie_of bits depth kind.old)
        (Q.seen descent.old.key.key) descent.old.key.hash }
    requires fresh { descent.old.failure ≡ NoMemory }
    requires shallow { level_count bits + 1 - depth ≤ 1 + L.reach }
    ensures* writes_back { sem 𝓛
        (lends_in_kind K.row V.row A.row A.Allocator bits depth
        (matches Q.same (Q.seen descent.old.key.key) descent.old.key.hash) kind.entry result) }
    ensures returned { let t = matches Q.same (Q.seen descent.old.key.key) descent.old.key.hash in
        Tells (value_of t (trie_of bits depth kind.old).entries) (with_reason descent.new.failure result) }
    ensures steps { IsWithin (level_count bits + 1 - depth) (level_count bits + 1 - depth)
        steps.old steps.new }
{
    let key = descent.key.key;
    let hash = descent.key.hash;
    match kind {
        Kind::Branch(children) => {
            lend_in_children::<K, V, A, Q, L>(children, bits, depth, descent, steps)
        }
        Kind::Leaf(held) => lend_in_leaf(held, key, hash, &mut descent.failure),
        Kind::Collision(collision) => lend_in_shared(collision, key, hash, &mut descent.failure),
    }
}

// One level of a trie.
pub(crate) struct Level;

impl<K: Eq + Hash + Clone + Drop, V: Clone + Drop, A: Allocator + Copy, Q: HashKey<K>> Levels<
    Node<K, V, A>,
    Probe<Q>,
    V,
    ByKey,
> for Level {
    ghost levels = { 1 };

    fn descend<'a, L: Lend<Node<K, V, A>, Probe<Q>, V, ByKey>>(
        node: &'a mut Node<K, V, A>,
        descent: &mut Descent<Probe<Q>>,
        steps: &mut Steps,
    ) -> Result<&'a mut V, NotLent> {
        let bits = node.bits;
        let depth = node.depth;
        lend_in_kind::<K, V, A, Q, L>(&mut node.kind, bits, depth, descent, steps)
    }
}

// Below the last level of a trie.
pub(crate) struct NoLevel;

impl<K: Eq + Hash + Clone + Drop, V: Clone + Drop, A: Allocator + Copy, Q: HashKey<K>> Lend<
    Node<K, V, A>,
    Probe<Q>,
    V,
    ByKey,
> for NoLevel {
    ghost reach = { 0 };

    fn lend<'a>(
        node: &'a mut Node<K, V, A>,
        _descent: &mut Descent<Probe<Q>>,
        _steps: &mut Steps,
    ) -> Result<&'a mut V, NotLent> {
        // No node comes here.
        node.prove_sound();
        unreachable!()
    }
}
