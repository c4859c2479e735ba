//! A changed copy of a node, along the path of one key.
ghost use Rattle.std.specs.Prelude.{◌≡◌, ◌≢◌, ℕ, ◌+◌, ◌-◌, ◌*◌, ◌<◌, ◌≤◌, ◌^◌, ◌/◌, ◌%◌, [], ◌∷◌, length, map, IfOk, OnOk};
ghost use Rattle.rpds_core.specs.Counts.{IsMadeWithin};
ghost use Rattle.rpds_hash_trie.specs.Digits.{agree, digit};
ghost use Rattle.rpds_hash_trie.specs.HashTrie.{level_count, levels_between, levels_shared, matches, AllAgree, unmatched, IsBranch, IsCollision, IsLeaf};
ghost use Rattle.rpds_hash_trie.specs.HashInPlace.{IsNodeOf, IsPutIn};
ghost use Rattle.rpds_hash_trie.specs.HashNode.{stored, shown, branch_of, leaf_of, collision_of};
ghost use Rattle.rpds_hash_trie.specs.Places.{put_at, seen};

use crate::node::{Collision, EntryWithHash, Kind, Node, place_of};
use crate::sparse_array_usize::SparseArrayUsize;
use rpds_core::key::HashKey;
use rpds_core::steps::Steps;
use std::alloc::{AllocError, Allocator};
use std::hash::Hash;
use std::rc::Rc;

// The entries without the key.
pub(crate) fn others_of<K: Eq + Hash + Drop, V: Drop, A: Allocator + Copy, Q: HashKey<K>>(
    alloc: A,
    front: &EntryWithHash<K, V, A>,
    others: &[EntryWithHash<K, V, A>],
    key: Q,
    key_hash: u64,
) -> Result<Vec<EntryWithHash<K, V, A>, A>, AllocError>
    ensures { IfOk result (λ v.
        unmatched (matches Q.same (Q.seen key) key_hash) (stored front.now ∷ map stored others.now)
        ≡ map stored v.items) }
{
    let mut rest = Vec::with_capacity(alloc, others.len().saturating_add(1))?;
    if !front.matches(key, key_hash) {
        rest.push(front.share()?)?;
    }
    for other in others {
        if !other.matches(key, key_hash) {
            rest.push(other.share()?)?;
        }
    }
    Ok(rest)
}

impl<K: Drop, V: Drop, A: Allocator + Copy> Node<K, V, A> {
    // A branch of the same children, but for the one at the place.
    pub(crate) fn with_child(
        alloc: A,
        depth: u8,
        bits: u8,
        children: &SparseArrayUsize<Rc<Node<K, V, A>, A>, A>,
        place: usize,
        child: Rc<Node<K, V, A>, A>,
        steps: &mut Steps,
    ) -> Result<Rc<Node<K, V, A>, A>, AllocError>
        requires small { place < 64 }
        requires sound { IsBranch bits depth (put_at place child.value (seen children.now)) }
        ensures ok { IfOk result (λ n.
            n.value ≡ branch_of bits depth (put_at place child.value (seen children.now))) }
        ensures made { IsMadeWithin 1 steps.old steps.new }
    {
        let children = children.with_child(alloc, place, child)?;
        Node::branch(alloc, depth, bits, children, steps)
    }

    // A branch of the same children, and the leaf of the entry at the place.
    fn with_leaf(
        alloc: A,
        depth: u8,
        bits: u8,
        children: &SparseArrayUsize<Rc<Node<K, V, A>, A>, A>,
        place: usize,
        entry: EntryWithHash<K, V, A>,
        steps: &mut Steps,
    ) -> Result<Rc<Node<K, V, A>, A>, AllocError>
        requires small { place < 64 }
        requires sound { IsBranch bits depth
            (put_at place (leaf_of bits (depth + 1) (stored entry)) (seen children.now)) }
        ensures ok { IfOk result (λ n. n.value ≡ branch_of bits depth
            (put_at place (leaf_of bits (depth + 1) (stored entry)) (seen children.now))) }
        ensures made { IsMadeWithin 2 steps.old steps.new }
        ensures makes { OnOk result (steps.old.made < steps.new.made) }
    {
        let leaf = Node::leaf(alloc, depth + 1, bits, entry, steps)?;
        Node::with_child(alloc, depth, bits, children, place, leaf, steps)
    }

    // A branch over one child.
    fn chain(
        alloc: A,
        depth: u8,
        bits: u8,
        place: usize,
        child: Node<K, V, A>,
        steps: &mut Steps,
    ) -> Result<Node<K, V, A>, AllocError>
        requires small { place < 64 }
        requires sound { IsBranch bits depth ((place, child) ∷ []) }
        ensures ok { IfOk result (λ n. n ≡ branch_of bits depth ((place, child) ∷ [])) }
        ensures made { IsMadeWithin 1 steps.old steps.new }
        ensures makes { OnOk result (steps.old.made < steps.new.made) }
    {
        let child = Rc::new(alloc, child)?;
        let mut children = SparseArrayUsize::with_capacity(alloc, 1)?;
        children.set(place, child)?;
        Ok(Node::over(depth, bits, children, steps))
    }

    // A branch over two leaves, with room for four children, as it is soon to have.
    #[tactic(auto, using(crate::proofs::Digits::level_count_le))]
    fn fork(
        alloc: A,
        depth: u8,
        bits: u8,
        old: EntryWithHash<K, V, A>,
        old_place: usize,
        new: EntryWithHash<K, V, A>,
        new_place: usize,
        steps: &mut Steps,
    ) -> Result<Node<K, V, A>, AllocError>
        requires bits_in { (1 ≤ bits) × (bits ≤ 6) }
        requires deep { depth < level_count bits }
        requires alike { agree (2 ^ bits) depth old.key_hash new.key_hash }
        requires old_is { old_place ≡ digit (2 ^ bits) depth old.key_hash }
        requires new_is { new_place ≡ digit (2 ^ bits) depth new.key_hash }
        requires apart { old_place ≢ new_place }
        requires small { (old_place < 64) × (new_place < 64) }
        ensures ok { IfOk result (IsNodeOf bits depth (stored new ∷ stored old ∷ [])) }
        ensures made { IsMadeWithin 3 steps.old steps.new }
        ensures makes { OnOk result (steps.old.made < steps.new.made) }
    {
        let old_leaf = Node::leaf(alloc, depth + 1, bits, old, steps)?;
        let new_leaf = Node::leaf(alloc, depth + 1, bits, new, steps)?;
        old_leaf.prove_sound();
        new_leaf.prove_sound();
        let mut children = SparseArrayUsize::with_capacity(alloc, 4)?;
        children.set(old_place, old_leaf)?;
        children.set(new_place, new_leaf)?;
        Ok(Node::over(depth, bits, children, steps))
    }

    // A trie of two entries with different keys.
    #[tactic(auto, using(crate::proofs::Digits::digit_of, crate::proofs::Digits::not_full))]
    pub(crate) fn join(
        alloc: A,
        depth: u8,
        bits: u8,
        old: EntryWithHash<K, V, A>,
        new: EntryWithHash<K, V, A>,
        steps: &mut Steps,
    ) -> Result<Node<K, V, A>, AllocError>
        requires bits_in { (1 ≤ bits) × (bits ≤ 6) }
        requires deep { depth ≤ level_count bits }
        requires alike { agree (2 ^ bits) depth old.key_hash new.key_hash }
        ensures ok { IfOk result (IsNodeOf bits depth (stored new ∷ stored old ∷ [])) }
        ensures made { IsMadeWithin (levels_between bits depth old.key_hash new.key_hash + 2) steps.old steps.new }
        ensures makes { OnOk result (steps.old.made < steps.new.made) }
    {
        let old_hash = old.key_hash;
        let new_hash = new.key_hash;
        let shift = depth as u32 * bits as u32;
        if shift >= 64 {
            let mut others = Vec::with_capacity(alloc, 1)?;
            others.push_reserved(old);
            return Node::colliding(alloc, depth, bits, new, others, steps);
        }
        let old_place = place_of(old_hash >> shift, bits);
        let new_place = place_of(new_hash >> shift, bits);
        if old_place == new_place {
            let joined = Node::join(alloc, depth + 1, bits, old, new, steps)?;
            joined.prove_sound();
            Node::chain(alloc, depth, bits, old_place, joined, steps)
        } else {
            Node::fork(alloc, depth, bits, old, old_place, new, new_place, steps)
        }
    }

    // A trie of a leaf's entry, which stays there too, and of one with another key.
    pub(crate) fn part(
        alloc: A,
        depth: u8,
        bits: u8,
        old: &EntryWithHash<K, V, A>,
        new: EntryWithHash<K, V, A>,
        steps: &mut Steps,
    ) -> Result<Node<K, V, A>, AllocError>
        requires leaf { IsLeaf bits depth }
        requires alike { agree (2 ^ bits) depth old.now.key_hash new.key_hash }
        ensures ok { IfOk result (IsNodeOf bits depth (stored new ∷ stored old.now ∷ [])) }
        ensures made { IsMadeWithin (levels_between bits depth old.now.key_hash new.key_hash + 2) steps.old steps.new }
        ensures makes { OnOk result (steps.old.made < steps.new.made) }
    {
        let old = old.share()?;
        Node::join(alloc, depth, bits, old, new, steps)
    }
}

// The entries of one hash with this one, in front of the others; `fresh` tells whether its key is new.
fn collision_with<K: Eq + Hash + Drop, V: Drop, A: Allocator + Copy>(
    alloc: A,
    depth: u8,
    bits: u8,
    collision: &Collision<K, V, A>,
    entry: EntryWithHash<K, V, A>,
    fresh: &mut bool,
    steps: &mut Steps,
) -> Result<Rc<Node<K, V, A>, A>, AllocError>
    requires sound { IsCollision bits depth collision.now.front.key_hash
        (map stored collision.now.others.items) }
    requires alike { AllAgree bits depth entry.key_hash (shown collision.now) }
    requires once { length (shown collision.now) ≤ length
        (unmatched (matches K.eq entry.entry.value.key entry.key_hash) (shown collision.now)) + 1 }
    ensures ok { IfOk result (λ n.
        IsPutIn (matches K.eq entry.entry.value.key entry.key_hash) (stored entry)
        (collision_of bits depth (stored collision.now.front)
        (map stored collision.now.others.items)) n.value fresh.new) }
    ensures made { IsMadeWithin 1 steps.old steps.new }
    ensures makes { OnOk result (steps.old.made < steps.new.made) }
{
    // For the proof that the new entry has the hash of the others: hashes are below 2^64.
    let _front_hash = collision.front.key_hash;
    let rest = others_of(
        alloc,
        &collision.front,
        &collision.others,
        &entry.entry.key,
        entry.key_hash,
    )?;
    *fresh = rest.len() > collision.others.len();
    Node::collision(alloc, depth, bits, entry, rest, steps)
}

impl<K: Eq + Hash + Drop, V: Drop, A: Allocator + Copy> Node<K, V, A> {
    // A copy with the entry, in place of the one that has its key; `fresh` tells whether the key is new. `hash_left` is
    // what the levels above leave of its hash.
    pub(crate) fn insert(
        &self,
        alloc: A,
        entry: EntryWithHash<K, V, A>,
        hash_left: u64,
        fresh: &mut bool,
        steps: &mut Steps,
    ) -> Result<Rc<Node<K, V, A>, A>, AllocError>
        requires hash_left { hash_left ≡ entry.key_hash / 2 ^ (self.now.depth * self.now.bits) }
        requires alike { AllAgree self.now.bits self.now.depth entry.key_hash self.now.entries }
        requires once { length self.now.entries ≤ length
            (unmatched (matches K.eq entry.entry.value.key entry.key_hash) self.now.entries) + 1 }
        ensures ok { IfOk result (λ n.
            IsPutIn (matches K.eq entry.entry.value.key entry.key_hash)
            (stored entry) self.now n.value fresh.new) }
        ensures made { IsMadeWithin
            (levels_shared K.eq entry.entry.value.key entry.key_hash self.now + 2) steps.old steps.new }
        ensures makes { OnOk result (steps.old.made < steps.new.made) }
    {
        let (depth, bits) = (self.depth, self.bits);
        match &self.kind {
            Kind::Branch(children) => {
                let place = place_of(hash_left, bits);
                match children.get(place) {
                    None => {
                        *fresh = true;
                        Node::with_leaf(alloc, depth, bits, children, place, entry, steps)
                    }
                    Some(child) => {
                        let child: &Node<K, V, A> = child;
                        let changed = child.insert(alloc, entry, hash_left >> bits, fresh, steps)?;
                        changed.prove_sound();
                        Node::with_child(alloc, depth, bits, children, place, changed, steps)
                    }
                }
            }
            Kind::Leaf(old) => {
                if old.matches(&entry.entry.key, entry.key_hash) {
                    *fresh = false;
                    Node::leaf(alloc, depth, bits, entry, steps)
                } else {
                    *fresh = true;
                    let parted = Node::part(alloc, depth, bits, old, entry, steps)?;
                    let node = Rc::new(alloc, parted)?;
                    Ok(node)
                }
            }
            Kind::Collision(collision) => {
                let collision: &Collision<K, V, A> = collision;
                collision_with(alloc, depth, bits, collision, entry, fresh, steps)
            }
        }
    }
}
