//! Changes of a node in place. Each is one descent that copies the shared nodes on its way by `make_unique`. A copy is equal to
//! its source, so a failed allocation leaves what the node holds.
ghost use Rattle.std.specs.Prelude.{◌≡◌, ℕ, ◌+◌, ◌-◌, ◌*◌, ◌<◌, ◌≤◌, ◌^◌, ◌%◌, ◌++◌, ◌∷◌, [], MatchResult, length, set, take};
ghost use Rattle.rpds_core.specs.Rows.{behind};
ghost use Rattle.rpds_vector.specs.Trie.{Trie, span};
ghost use Rattle.rpds_vector.specs.VectorNode.{IsIn};

use crate::vector::node::{Kind, Node, bucket, left_below};
use crate::vector::unique::make_unique;
use rpds_core::steps::Steps;
use std::alloc::{AllocError, Allocator};
use std::rc::Rc;

impl<T: Drop, A: Allocator + Copy> Node<T, A> {
    // Puts the item at an index.
    pub(crate) fn set_mut(
        &mut self,
        index: usize,
        height: usize,
        item: Rc<T, A>,
    ) -> Result<(), AllocError>
        requires { IsIn self.old index height }
        ensures { let place = index % span self.old.bits (height + 1) in
            let items = set self.old.items place item.value in
            MatchResult result (λ _. self.new ≡ record self.old { items = items })
            (λ _. self.new ≡ self.old) }
    {
        let bits = self.bits;
        // For the invariant: how the parts make up the node.
        let _kind = &self.kind;
        match &mut self.kind {
            Kind::Branch(children) => {
                let place = bucket(index, height, bits);
                make_unique(&mut children[place])?.set_mut(index, height - 1, item)
            }
            Kind::Leaf(items) => {
                let place = bucket(index, 0, bits);
                items[place] = item;
                Ok(())
            }
        }
    }

    // Puts the item behind the last, into the last leaf, which isn't full.
    pub(crate) fn push_item(&mut self, item: Rc<T, A>) -> Result<(), AllocError>
        requires room { 0 < length self.old.items % 2 ^ self.old.bits }
        ensures { let items = self.old.items ++ item.value ∷ [] in
            MatchResult result (λ _. self.new ≡ record self.old { items = items })
            (λ _. self.new ≡ self.old) }
    {
        // For the invariant: how the parts make up the node.
        let _kind = &self.kind;
        match &mut self.kind {
            Kind::Branch(children) => {
                let last = children.len() - 1;
                make_unique(&mut children[last])?.push_item(item)
            }
            Kind::Leaf(items) => {
                items.push(item)?;
                Ok(())
            }
        }
    }

    // Puts the items behind the last, into the last leaf, which isn't full and has room for them.
    pub(crate) fn push_row(&mut self, row: Vec<Rc<T, A>, A>) -> Result<(), AllocError>
        requires part { 0 < length self.old.items % 2 ^ self.old.bits }
        requires room { length self.old.items % 2 ^ self.old.bits + length (behind row.items) ≤ 2 ^ self.old.bits }
        ensures { let items = self.old.items ++ behind row.items in
            MatchResult result (λ _. self.new ≡ record self.old { items = items })
            (λ _. self.new ≡ self.old) }
    {
        // For the invariant: how the parts make up the node.
        let _kind = &self.kind;
        match &mut self.kind {
            Kind::Branch(children) => {
                let last = children.len() - 1;
                make_unique(&mut children[last])?.push_row(row)
            }
            Kind::Leaf(items) => {
                let mut row = row;
                items.append(&mut row)?;
                Ok(())
            }
        }
    }

    // Puts a leaf behind the last leaf, where all leaves are full and the node has room for one more.
    pub(crate) fn push_leaf(
        &mut self,
        alloc: A,
        index: usize,
        height: usize,
        leaf: Rc<Node<T, A>, A>,
    ) -> Result<(), AllocError>
        requires level { height ≡ self.old.height }
        requires shift { height * self.old.bits < 64 }
        requires end { index % span self.old.bits (height + 1) ≡ length self.old.items }
        requires whole { index % 2 ^ self.old.bits ≡ 0 }
        requires same_bits { leaf.value.bits ≡ self.old.bits }
        requires is_leaf { leaf.value.height ≡ 0 }
        ensures { let items = self.old.items ++ leaf.value.items in
            MatchResult result (λ _. self.new ≡ record self.old { items = items })
            (λ _. self.new ≡ self.old) }
    {
        leaf.prove_sound();
        let bits = self.bits;
        // For the invariant: how the parts make up the node.
        let _kind = &self.kind;
        match &mut self.kind {
            Kind::Branch(children) => {
                let place = bucket(index, height, bits);
                if place < children.len() {
                    let child = make_unique(&mut children[place])?;
                    return child.push_leaf(alloc, index, height - 1, leaf);
                }
                let path = Node::path(alloc, bits, height - 1, leaf, &mut Steps::new())?;
                path.prove_sound();
                children.push(path)?;
                Ok(())
            }
            // A leaf has some item, so its end isn't a multiple of a leaf.
            Kind::Leaf(_) => Ok(()),
        }
    }

    // Takes the last item away, which has this index and isn't the only one, and with it the nodes in which it stands alone.
    pub(crate) fn drop_last_mut(&mut self, index: usize, height: usize) -> Result<(), AllocError>
        requires level { height ≡ self.old.height }
        requires shift { height * self.old.bits < 64 }
        requires last { index % span self.old.bits (height + 1) + 1 ≡ length self.old.items }
        requires more { 1 < length self.old.items }
        ensures { let items = take (length self.old.items - 1) self.old.items in
            MatchResult result (λ _. self.new ≡ record self.old { items = items })
            (λ _. self.new ≡ self.old) }
    {
        let bits = self.bits;
        // For the invariant: how the parts make up the node.
        let _kind = &self.kind;
        match &mut self.kind {
            Kind::Branch(children) => {
                let last = children.len() - 1;
                if left_below(index, height, bits) == 0 {
                    // For the proof: the child that goes.
                    let _last = &children[last];
                    children.pop();
                    return Ok(());
                }
                let child = make_unique(&mut children[last])?;
                child.drop_last_mut(index, height - 1)
            }
            Kind::Leaf(items) => {
                items.pop();
                Ok(())
            }
        }
    }
}
