//! A node of the trie: a leaf of items, or a branch of nodes that are full but for the last.
ghost use Rattle.std.specs.Prelude.{◌≡◌, ℕ, ◌+◌, ◌*◌, ◌<◌, ◌≤◌, ◌^◌, ◌/◌, ◌%◌, ◌++◌, ◌∷◌, [], ◌-◌, Some, IfOk, OnOk, length, set, take};
ghost use Rattle.std.specs.List.{slice_get};
ghost use Rattle.rpds_core.specs.Counts.{IsMadeWithin};
ghost use Rattle.rpds_core.specs.Rows.{behind};
ghost use Rattle.rpds_vector.specs.Trie.{Trie, span, IsSound, IsBranch, IsLeaf, IsTop};
ghost use Rattle.rpds_vector.specs.Remade.{IsRemadeBut};
ghost use Rattle.rpds_vector.specs.VectorNode.{branch_of, leaf_of, trie_of, IsFirstChild, IsFull, IsIn, IsNode, IsPartAt};

mod in_place;

use rpds_core::row::{self, with_changed};
use rpds_core::steps::Steps;
use std::alloc::{AllocError, Allocator};
use std::marker::Model;
use std::rc::Rc;

#[cycle(node)]
#[derive(Drop)]
pub(crate) struct Node<T, A: Allocator> {
    pub(crate) kind: Kind<T, A>,
    pub(crate) bits: u8,
}

#[cycle(node)]
#[derive(Drop)]
pub(crate) enum Kind<T, A: Allocator> {
    Branch(Vec<Rc<Node<T, A>, A>, A>),
    Leaf(Vec<Rc<T, A>, A>),
}

impl<T, A: Allocator> Model for Node<T, A> {
    ghost use Rattle.rpds_vector.specs.Trie.{Trie};

    ghost Value = { Trie T };

    ghost use Rattle.rpds_vector.specs.VectorNode.{trie_of, IsNode};

    ghost view = { λ n. trie_of n.bits n.kind };

    ghost invariant = { λ n. IsNode n.bits n.kind };

    ghost size = { λ v. v.height };

    ghost use Rattle.rpds_vector.specs.Falls.{deep_le_height};

    ghost size_decreases = { λ n h. deep_le_height A.Allocator n.bits n.kind h };
}

// A copy shares the parts.
impl<T: Drop, A: Allocator + Copy> Clone for Node<T, A> {
    ghost is_clone = { λ node copy. copy ≡ node };

    fn clone(&self) -> Result<Node<T, A>, AllocError> {
        match &self.kind {
            Kind::Branch(children) => {
                let children = children.clone()?;
                Ok(Node {
                    kind: Kind::Branch(children),
                    bits: self.bits,
                })
            }
            Kind::Leaf(items) => {
                let items = items.clone()?;
                Ok(Node {
                    kind: Kind::Leaf(items),
                    bits: self.bits,
                })
            }
        }
    }
}

// What is left of an index below a height: its place in a node of the height less one.
pub(crate) fn left_below(index: usize, height: usize, bits: u8) -> usize
    requires bits_in { (1 ≤ bits) × (bits < 64) }
    requires shift { height * bits < 64 }
    ensures { result ≡ index % span bits height }
{
    index & ((1usize << (height * bits as usize)) - 1)
}

// The bucket of an index at a height.
pub(crate) fn bucket(index: usize, height: usize, bits: u8) -> usize
    requires bits_in { (1 ≤ bits) × (bits < 64) }
    requires shift { height * bits < 64 }
    ensures { result ≡ index / span bits height % 2 ^ bits }
{
    (index >> (height * bits as usize)) & ((1usize << bits) - 1)
}

impl<T, A: Allocator> Node<T, A> {
    // No work: its clause says what holds of each node.
    pub(crate) fn prove_sound(&self)
        ensures { IsSound self.now }
    {
        // For the invariant: what holds of the parts.
        let _ = &self.kind;
    }

    // The item at an index. It visits one node on each level. The bits are at hand, so that no node's are read.
    pub(crate) fn get(&self, index: usize, height: usize, bits: u8, steps: &mut Steps) -> &T
        requires there { IsIn self.now index height }
        requires bits { bits ≡ self.now.bits }
        ensures found { let place = index % span self.now.bits (height + 1) in
            slice_get self.now.items place ≡ Some result.now }
        ensures visited { steps.new ≡ record steps.old {
          visited = steps.old.visited +
              (height + 1);
        } }
    {
        steps.raise_visited();
        match &self.kind {
            Kind::Branch(children) => {
                let place = bucket(index, height, bits);
                children[place].get(index, height - 1, bits, steps)
            }
            Kind::Leaf(items) => {
                let place = bucket(index, 0, bits);
                &items[place]
            }
        }
    }

    // The node of a height in which an index lies. The bits are at hand, as for `get`.
    pub(crate) fn below(&self, index: usize, height: usize, lower: usize, bits: u8) -> &Node<T, A>
        requires there { IsIn self.now index height }
        requires lower { lower ≤ height }
        requires bits { bits ≡ self.now.bits }
        ensures part { let place = index % span self.now.bits (height + 1) in
            IsPartAt self.now.items place (index % span self.now.bits (lower + 1)) result.now.items }
        ensures level { result.now.height ≡ lower }
        ensures same_bits { result.now.bits ≡ self.now.bits }
    {
        if height == lower {
            return self;
        }
        match &self.kind {
            Kind::Branch(children) => {
                let place = bucket(index, height, bits);
                children[place].below(index, height - 1, lower, bits)
            }
            Kind::Leaf(_) => unreachable!(),
        }
    }

    // The items of a leaf.
    pub(crate) fn items(&self) -> &[Rc<T, A>]
        requires { self.now.height ≡ 0 }
        ensures items { behind result.now ≡ self.now.items }
        ensures some { 0 < length result.now }
    {
        match &self.kind {
            Kind::Branch(_) => unreachable!(),
            Kind::Leaf(items) => items.as_slice(),
        }
    }

    // The node on the path to the first item that stands so many levels below this one.
    pub(crate) fn first(&self, levels: usize) -> &Node<T, A>
        requires { levels ≤ self.now.height }
        ensures { let height = self.now.height - levels in
            let items = take (span self.now.bits (height + 1)) self.now.items in
            result.now ≡ record self.now { items = items; height = height } }
    {
        if levels == 0 {
            // For its clause: it has no more items than it has room for.
            self.prove_sound();
            return self;
        }
        match &self.kind {
            Kind::Branch(children) => children[0].first(levels - 1),
            Kind::Leaf(_) => unreachable!(),
        }
    }
}

impl<T: Drop, A: Allocator + Copy> Node<T, A> {
    // A node behind a pointer. All nodes but those that `make_unique` copies are made here, and counted.
    #[inline(always)]
    pub(crate) fn new(
        alloc: A,
        bits: u8,
        kind: Kind<T, A>,
        steps: &mut Steps,
    ) -> Result<Rc<Node<T, A>, A>, AllocError>
        requires { IsNode bits kind }
        ensures ok { IfOk result (λ n. n.value ≡ trie_of bits kind) }
        ensures made { steps.new ≡ record steps.old { made = steps.old.made + 1 } }
    {
        steps.raise_made();
        let node = Rc::new(alloc, Node { kind, bits })?;
        Ok(node)
    }

    // A leaf of one item.
    pub(crate) fn leaf_of_one(
        alloc: A,
        bits: u8,
        item: Rc<T, A>,
        steps: &mut Steps,
    ) -> Result<Rc<Node<T, A>, A>, AllocError>
        requires bits_in { (1 ≤ bits) × (bits < 64) }
        ensures ok { IfOk result (λ n. n.value ≡ leaf_of bits (item.value ∷ [])) }
        ensures made { OnOk result (steps.new ≡ record steps.old { made = steps.old.made + 1 }) }
        ensures refused { IsMadeWithin 1 steps.old steps.new }
    {
        let items = row::of_one(alloc, item)?;
        Node::new(alloc, bits, Kind::Leaf(items), steps)
    }

    // A chain of nodes above a leaf.
    pub(crate) fn path(
        alloc: A,
        bits: u8,
        height: usize,
        leaf: Rc<Node<T, A>, A>,
        steps: &mut Steps,
    ) -> Result<Rc<Node<T, A>, A>, AllocError>
        requires same_bits { leaf.value.bits ≡ bits }
        requires is_leaf { leaf.value.height ≡ 0 }
        ensures ok { IfOk result (λ n. n.value ≡ record leaf.value { height = height }) }
        ensures made { OnOk result
            (steps.new ≡ record steps.old { made = steps.old.made + height }) }
        ensures refused { IsMadeWithin height steps.old steps.new }
    {
        if height == 0 {
            return Ok(leaf);
        }
        let child = Node::path(alloc, bits, height - 1, leaf, steps)?;
        child.prove_sound();
        let children = row::of_one(alloc, child)?;
        Node::new(alloc, bits, Kind::Branch(children), steps)
    }

    // A branch over a full node and a path to a leaf.
    pub(crate) fn above(
        alloc: A,
        bits: u8,
        height: usize,
        left: &Rc<Node<T, A>, A>,
        leaf: Rc<Node<T, A>, A>,
        steps: &mut Steps,
    ) -> Result<Rc<Node<T, A>, A>, AllocError>
        requires full { IsFull bits height left.now.value }
        requires same_bits { leaf.value.bits ≡ bits }
        requires is_leaf { leaf.value.height ≡ 0 }
        ensures ok { let items = left.now.value.items ++ leaf.value.items in
            IfOk result (λ n. n.value ≡ record left.now.value { items = items; height = height + 1 }) }
        ensures made { OnOk result (steps.new ≡ record steps.old {
          made = steps.old.made +
              (height + 1);
        }) }
        ensures refused { IsMadeWithin (height + 1) steps.old steps.new }
    {
        let right = Node::path(alloc, bits, height, leaf, steps)?;
        left.prove_sound();
        right.prove_sound();
        let left = left.clone()?;
        let children = row::of_two(alloc, left, right)?;
        Node::new(alloc, bits, Kind::Branch(children), steps)
    }

    // A copy of the path to an index, with the item there.
    pub(crate) fn set(
        &self,
        alloc: A,
        index: usize,
        height: usize,
        item: Rc<T, A>,
        steps: &mut Steps,
    ) -> Result<Rc<Node<T, A>, A>, AllocError>
        requires { IsIn self.now index height }
        ensures ok { let place = index % span self.now.bits (height + 1) in
            IfOk result (λ n. n.value ≡ record self.now { items = set self.now.items place item.value }) }
        ensures made { OnOk result (steps.new ≡ record steps.old {
          made = steps.old.made +
              (height + 1);
        }) }
        ensures refused { IsMadeWithin (height + 1) steps.old steps.new }
    {
        match &self.kind {
            Kind::Branch(children) => {
                let place = bucket(index, height, self.bits);
                let child = children[place].set(alloc, index, height - 1, item, steps)?;
                let children = with_changed(alloc, children, place, child)?;
                Node::new(alloc, self.bits, Kind::Branch(children), steps)
            }
            Kind::Leaf(items) => {
                let place = bucket(index, 0, self.bits);
                let items = with_changed(alloc, items, place, item)?;
                Node::new(alloc, self.bits, Kind::Leaf(items), steps)
            }
        }
    }

    // A copy of the path to the end, with the item behind it.
    pub(crate) fn push(
        &self,
        alloc: A,
        index: usize,
        height: usize,
        item: Rc<T, A>,
        steps: &mut Steps,
    ) -> Result<Rc<Node<T, A>, A>, AllocError>
        requires level { height ≡ self.now.height }
        requires shift { height * self.now.bits < 64 }
        requires end { index % span self.now.bits (height + 1) ≡ length self.now.items }
        ensures ok { let items = self.now.items ++ item.value ∷ [] in
            IfOk result (λ n. n.value ≡ record self.now { items = items }) }
        ensures made { OnOk result (steps.new ≡ record steps.old {
          made = steps.old.made +
              (height + 1);
        }) }
        ensures refused { IsMadeWithin (height + 1) steps.old steps.new }
    {
        match &self.kind {
            Kind::Branch(children) => {
                let place = bucket(index, height, self.bits);
                if place < children.len() {
                    let child = children[place].push(alloc, index, height - 1, item, steps)?;
                    let children = with_changed(alloc, children, place, child)?;
                    return Node::new(alloc, self.bits, Kind::Branch(children), steps);
                }
                let leaf = Node::leaf_of_one(alloc, self.bits, item, steps)?;
                let child = Node::path(alloc, self.bits, height - 1, leaf, steps)?;
                child.prove_sound();
                let children = row::with_more(alloc, children, child)?;
                Node::new(alloc, self.bits, Kind::Branch(children), steps)
            }
            Kind::Leaf(items) => {
                let items = row::with_more(alloc, items, item)?;
                Node::new(alloc, self.bits, Kind::Leaf(items), steps)
            }
        }
    }

    // A copy of the path to the last item, which has this index and isn't the only one, without that item and the nodes in
    // which it stands alone.
    pub(crate) fn drop_last(
        &self,
        alloc: A,
        index: usize,
        height: usize,
        steps: &mut Steps,
    ) -> Result<Rc<Node<T, A>, A>, AllocError>
        requires level { height ≡ self.now.height }
        requires shift { height * self.now.bits < 64 }
        requires last { index % span self.now.bits (height + 1) + 1 ≡ length self.now.items }
        requires more { 1 < length self.now.items }
        ensures ok { let items = take (length self.now.items - 1) self.now.items in
            IfOk result (λ n. n.value ≡ record self.now { items = items }) }
        ensures made { OnOk result ((alone : ℕ)
            × IsRemadeBut alone self.now.bits (index + 1) (height + 1) steps.old steps.new) }
        ensures refused { IsMadeWithin (height + 1) steps.old steps.new }
    {
        match &self.kind {
            Kind::Branch(children) => {
                let last = children.len() - 1;
                let child = &children[last];
                if left_below(index, height, self.bits) == 0 {
                    let children = row::with_first(alloc, children, last)?;
                    return Node::new(alloc, self.bits, Kind::Branch(children), steps);
                }
                let child = child.drop_last(alloc, index, height - 1, steps)?;
                let children = with_changed(alloc, children, last, child)?;
                Node::new(alloc, self.bits, Kind::Branch(children), steps)
            }
            Kind::Leaf(items) => {
                let items = row::with_first(alloc, items, items.len() - 1)?;
                Node::new(alloc, self.bits, Kind::Leaf(items), steps)
            }
        }
    }

    // A copy of the path to an index, without what comes behind it.
    pub(crate) fn take(
        &self,
        alloc: A,
        index: usize,
        height: usize,
    ) -> Result<Rc<Node<T, A>, A>, AllocError>
        requires { IsIn self.now index height }
        ensures { let kept = index % span self.now.bits (height + 1) + 1 in
            IfOk result (λ n. n.value ≡ record self.now { items = take kept self.now.items }) }
    {
        match &self.kind {
            Kind::Branch(children) => {
                let place = bucket(index, height, self.bits);
                let last = children[place].take(alloc, index, height - 1)?;
                let kept = row::with_first_and(alloc, children, place, last)?;
                Node::new(alloc, self.bits, Kind::Branch(kept), &mut Steps::new())
            }
            Kind::Leaf(items) => {
                let place = bucket(index, 0, self.bits);
                let kept = row::with_first(alloc, items, place + 1)?;
                Node::new(alloc, self.bits, Kind::Leaf(kept), &mut Steps::new())
            }
        }
    }

    // The first child of a branch.
    pub(crate) fn first_child(&self) -> Result<Rc<Node<T, A>, A>, AllocError>
        requires { 0 < self.now.height }
        ensures { IfOk result (λ n. IsFirstChild self.now n.value) }
    {
        match &self.kind {
            Kind::Branch(children) => children[0].clone(),
            Kind::Leaf(_) => unreachable!(),
        }
    }
}
