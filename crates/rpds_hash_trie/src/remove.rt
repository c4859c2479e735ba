//! A copy of a node without one key.
ghost use Rattle.std.specs.Prelude.{◌≡◌, ℕ, ◌+◌, ◌-◌, ◌*◌, ◌<◌, ◌≤◌, ◌^◌, ◌/◌, ◌%◌, [], ◌∷◌, Some, None, length, map, IfOk, OnOk, IsSome};
ghost use Rattle.std.specs.Option.{option_copied};
ghost use Rattle.rpds_core.specs.Counts.{IsMadeWithin};
ghost use Rattle.rpds_hash_trie.specs.HashTrie.{levels_shared, matches, unmatched, flat, AllAgree, IsLoose, IsCollision};
ghost use Rattle.rpds_hash_trie.specs.HashNode.{stored, IsAlone, branch_of, collision_of};
ghost use Rattle.rpds_hash_trie.specs.HashRemoval.{IsRemoval, MakesLeft};
ghost use Rattle.rpds_hash_trie.specs.Places.{seen, item_at, put_at, without_at};

use crate::insert::others_of;
use crate::node::{Collision, EntryWithHash, Kind, Node, place_of};
use crate::sparse_array_usize::SparseArrayUsize;
use rpds_core::key::HashKey;
use rpds_core::steps::Steps;
use std::alloc::{AllocError, Allocator};
use std::hash::Hash;
use std::rc::Rc;

// What a removal leaves of a node.
#[derive(Drop)]
pub(crate) enum Removal<K, V, A: Allocator> {
    // The key was not there.
    Absent,
    // It was all there was.
    Empty,
    Left(Rc<Node<K, V, A>, A>),
}

impl<K, V, A: Allocator> Node<K, V, A> {
    // The entry, where there is no other.
    pub(crate) fn only_entry(&self) -> Option<&EntryWithHash<K, V, A>>
        ensures { IsAlone self.now.entries (option_copied result) }
    {
        match &self.kind {
            Kind::Leaf(entry) => Some(entry),
            Kind::Branch(_) => None,
            Kind::Collision(_) => None,
        }
    }
}

// The one entry below the children, where there is no other.
fn only_entry_below<'a, K, V, A: Allocator>(
    children: &'a SparseArrayUsize<Rc<Node<K, V, A>, A>, A>,
    depth: u8,
    bits: u8,
) -> Option<&'a EntryWithHash<K, V, A>>
    requires { IsLoose bits depth (seen children.now) }
    ensures { IsAlone (flat (seen children.now)) (option_copied result) }
{
    if children.size() != 1 {
        return None;
    }
    match children.first() {
        None => None,
        Some(only) => {
            let only: &Node<K, V, A> = only;
            only.only_entry()
        }
    }
}

impl<K: Drop, V: Drop, A: Allocator + Copy> Node<K, V, A> {
    // A branch of the children, or the leaf that it is where they hold one entry alone.
    pub(crate) fn compressed(
        alloc: A,
        depth: u8,
        bits: u8,
        children: SparseArrayUsize<Rc<Node<K, V, A>, A>, A>,
        steps: &mut Steps,
    ) -> Result<Rc<Node<K, V, A>, A>, AllocError>
        requires { IsLoose bits depth (seen children) }
        ensures ok { IfOk result (λ n. n.value ≡ branch_of bits depth (seen children)) }
        ensures made { IsMadeWithin 1 steps.old steps.new }
        ensures makes { OnOk result (steps.old.made < steps.new.made) }
    {
        match only_entry_below(&children, depth, bits) {
            Some(entry) => Node::leaf(alloc, depth, bits, entry.share()?, steps),
            None => Node::branch(alloc, depth, bits, children, steps),
        }
    }
}

impl<K: Drop, V: Drop, A: Allocator + Copy> Node<K, V, A> {
    // The branch without the child at the place.
    fn without_child(
        alloc: A,
        depth: u8,
        bits: u8,
        children: &SparseArrayUsize<Rc<Node<K, V, A>, A>, A>,
        place: usize,
        steps: &mut Steps,
    ) -> Result<Rc<Node<K, V, A>, A>, AllocError>
        requires small { place < 64 }
        requires there { IsSome (item_at place children.now) }
        requires loose { IsLoose bits depth (without_at place (seen children.now)) }
        ensures ok { IfOk result (λ n.
            n.value ≡ branch_of bits depth (without_at place (seen children.now))) }
        ensures made { IsMadeWithin 1 steps.old steps.new }
        ensures makes { OnOk result (steps.old.made < steps.new.made) }
    {
        let fewer = children.without_child(alloc, place)?;
        Node::compressed(alloc, depth, bits, fewer, steps)
    }

    // The branch with a smaller child at the place.
    fn with_less(
        alloc: A,
        depth: u8,
        bits: u8,
        children: &SparseArrayUsize<Rc<Node<K, V, A>, A>, A>,
        place: usize,
        child: Rc<Node<K, V, A>, A>,
        steps: &mut Steps,
    ) -> Result<Rc<Node<K, V, A>, A>, AllocError>
        requires small { place < 64 }
        requires loose { IsLoose bits depth (put_at place child.value (seen children.now)) }
        ensures ok { IfOk result (λ n.
            n.value ≡ branch_of bits depth (put_at place child.value (seen children.now))) }
        ensures made { IsMadeWithin 1 steps.old steps.new }
        ensures makes { OnOk result (steps.old.made < steps.new.made) }
    {
        let changed = children.with_child(alloc, place, child)?;
        Node::compressed(alloc, depth, bits, changed, steps)
    }
}

// What is left of the entries of one hash.
fn less_collision<K: Eq + Hash + Drop, V: Drop, A: Allocator + Copy, Q: HashKey<K>>(
    alloc: A,
    depth: u8,
    bits: u8,
    collision: &Collision<K, V, A>,
    key: Q,
    hash: u64,
    steps: &mut Steps,
) -> Result<Removal<K, V, A>, AllocError>
    requires sound { IsCollision bits depth collision.now.front.key_hash
        (map stored collision.now.others.items) }
    requires once { let all = stored collision.now.front ∷ map stored collision.now.others.items in
        length all ≤ length (unmatched (matches Q.same (Q.seen key) hash) all) + 1 }
    ensures ok { IfOk result (λ r.
        IsRemoval (matches Q.same (Q.seen key) hash) (collision_of bits depth (stored collision.now.front)
        (map stored collision.now.others.items)) r) }
    ensures made { IsMadeWithin 1 steps.old steps.new }
    ensures makes { IfOk result (λ r. MakesLeft steps.old steps.new r) }
{
    let mut left = others_of(alloc, &collision.front, &collision.others, key, hash)?;
    if left.len() > collision.others.len() {
        return Ok(Removal::Absent);
    }
    let front = left.remove(0);
    if left.is_empty() {
        let leaf = Node::leaf(alloc, depth, bits, front, steps)?;
        Ok(Removal::Left(leaf))
    } else {
        let fewer = Node::collision(alloc, depth, bits, front, left, steps)?;
        Ok(Removal::Left(fewer))
    }
}

impl<K: Eq + Hash + Drop, V: Drop, A: Allocator + Copy> Node<K, V, A> {
    // What is left without the key. `hash_left` is what the levels above leave of its hash.
    pub(crate) fn remove<Q: HashKey<K>>(
        &self,
        alloc: A,
        key: Q,
        hash: u64,
        hash_left: u64,
        steps: &mut Steps,
    ) -> Result<Removal<K, V, A>, AllocError>
        requires hash_left { hash_left ≡ hash / 2 ^ (self.now.depth * self.now.bits) }
        requires alike { AllAgree self.now.bits self.now.depth hash self.now.entries }
        requires once { length self.now.entries
            ≤ length (unmatched (matches Q.same (Q.seen key) hash) self.now.entries) + 1 }
        ensures ok { IfOk result (λ r. IsRemoval (matches Q.same (Q.seen key) hash) self.now r) }
        ensures made { IsMadeWithin
            (levels_shared Q.same (Q.seen key) hash self.now + 1) steps.old steps.new }
        ensures makes { IfOk result (λ r. MakesLeft steps.old steps.new r) }
    {
        let (depth, bits) = (self.depth, self.bits);
        match &self.kind {
            Kind::Branch(children) => {
                let place = place_of(hash_left, bits);
                match children.get(place) {
                    None => Ok(Removal::Absent),
                    Some(child) => {
                        let child: &Node<K, V, A> = child;
                        match child.remove(alloc, key, hash, hash_left >> bits, steps)? {
                            Removal::Absent => Ok(Removal::Absent),
                            Removal::Empty => {
                                let left = Node::without_child(
                                    alloc, depth, bits, children, place, steps,
                                )?;
                                Ok(Removal::Left(left))
                            }
                            Removal::Left(smaller) => {
                                smaller.prove_sound();
                                let left = Node::with_less(
                                    alloc, depth, bits, children, place, smaller, steps,
                                )?;
                                Ok(Removal::Left(left))
                            }
                        }
                    }
                }
            }
            Kind::Leaf(entry) => {
                if entry.matches(key, hash) {
                    Ok(Removal::Empty)
                } else {
                    Ok(Removal::Absent)
                }
            }
            Kind::Collision(collision) => {
                let collision: &Collision<K, V, A> = collision;
                less_collision(alloc, depth, bits, collision, key, hash, steps)
            }
        }
    }
}
