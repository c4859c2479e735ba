//! Nodes are made here, and counted.
ghost use Rattle.std.specs.Prelude.{◌≡◌, ℕ, ◌+◌, ◌<◌, ◌≤◌, ◌∷◌, [], IfOk, map, length};
ghost use Rattle.rpds_hash_trie.specs.Places.{seen, put_at};
ghost use Rattle.rpds_hash_trie.specs.HashTrie.{IsBranch, IsCollision, IsLeaf};
ghost use Rattle.rpds_hash_trie.specs.HashNode.{stored, branch_of, leaf_of, collision_of};

use crate::node::{Collision, EntryWithHash, Kind, Node};
use crate::sparse_array_usize::SparseArrayUsize;
use rpds_core::steps::Steps;
use std::alloc::{AllocError, Allocator};
use std::rc::Rc;

impl<K: Drop, V: Drop, A: Allocator + Copy> EntryWithHash<K, V, A> {
    // One more owner of the same entry.
    pub(crate) fn share(&self) -> Result<EntryWithHash<K, V, A>, AllocError>
        ensures { IfOk result (λ e. stored e ≡ stored self.now) }
    {
        let entry = self.entry.clone()?;
        Ok(EntryWithHash {
            entry,
            key_hash: self.key_hash,
        })
    }
}

impl<K: Drop, V: Drop, A: Allocator + Copy> Node<K, V, A> {
    // A branch over the children.
    pub(crate) fn over(
        depth: u8,
        bits: u8,
        children: SparseArrayUsize<Rc<Node<K, V, A>, A>, A>,
        steps: &mut Steps,
    ) -> Node<K, V, A>
        requires { IsBranch bits depth (seen children) }
        ensures value { result ≡ branch_of bits depth (seen children) }
        ensures made { steps.new ≡ record steps.old { made = steps.old.made + 1 } }
    {
        steps.raise_made();
        let kind = Kind::Branch(children);
        Node { kind, depth, bits }
    }

    pub(crate) fn branch(
        alloc: A,
        depth: u8,
        bits: u8,
        children: SparseArrayUsize<Rc<Node<K, V, A>, A>, A>,
        steps: &mut Steps,
    ) -> Result<Rc<Node<K, V, A>, A>, AllocError>
        requires { IsBranch bits depth (seen children) }
        ensures ok { IfOk result (λ n. n.value ≡ branch_of bits depth (seen children)) }
        ensures made { steps.new ≡ record steps.old { made = steps.old.made + 1 } }
    {
        let node = Rc::new(alloc, Node::over(depth, bits, children, steps))?;
        Ok(node)
    }

    pub(crate) fn leaf(
        alloc: A,
        depth: u8,
        bits: u8,
        entry: EntryWithHash<K, V, A>,
        steps: &mut Steps,
    ) -> Result<Rc<Node<K, V, A>, A>, AllocError>
        requires { IsLeaf bits depth }
        ensures ok { IfOk result (λ n. n.value ≡ leaf_of bits depth (stored entry)) }
        ensures made { steps.new ≡ record steps.old { made = steps.old.made + 1 } }
    {
        steps.raise_made();
        let kind = Kind::Leaf(entry);
        let node = Rc::new(alloc, Node { kind, depth, bits })?;
        Ok(node)
    }

    // Entries of one hash, where no digit is left.
    pub(crate) fn colliding(
        alloc: A,
        depth: u8,
        bits: u8,
        front: EntryWithHash<K, V, A>,
        others: Vec<EntryWithHash<K, V, A>, A>,
        steps: &mut Steps,
    ) -> Result<Node<K, V, A>, AllocError>
        requires { IsCollision bits depth front.key_hash (map stored others.items) }
        ensures ok { IfOk result (λ n.
            n ≡ collision_of bits depth (stored front) (map stored others.items)) }
        ensures made { steps.new ≡ record steps.old { made = steps.old.made + 1 } }
    {
        steps.raise_made();
        let collision = Rc::new(alloc, Collision { front, others })?;
        let kind = Kind::Collision(collision);
        Ok(Node { kind, depth, bits })
    }

    pub(crate) fn collision(
        alloc: A,
        depth: u8,
        bits: u8,
        front: EntryWithHash<K, V, A>,
        others: Vec<EntryWithHash<K, V, A>, A>,
        steps: &mut Steps,
    ) -> Result<Rc<Node<K, V, A>, A>, AllocError>
        requires { IsCollision bits depth front.key_hash (map stored others.items) }
        ensures ok { IfOk result (λ n.
            n.value ≡ collision_of bits depth (stored front) (map stored others.items)) }
        ensures made { steps.new ≡ record steps.old { made = steps.old.made + 1 } }
    {
        let colliding = Node::colliding(alloc, depth, bits, front, others, steps)?;
        let node = Rc::new(alloc, colliding)?;
        Ok(node)
    }
}
