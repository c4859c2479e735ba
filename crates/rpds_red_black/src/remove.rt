//! Removal by path copying: each node on the path to the pair's place is made anew once, on the way up. What stands beside the
//! path is touched only where a side of a node has lost a black node on each path.
//!
//! What a tree lost by it goes to `loss`, apart from what is left: one value of both would be moved with the bytes between them,
//! which takes a fifth of the time.
ghost use Rattle.std.specs.Prelude.{◌≡◌, ◌≢◌, ◌<◌, ◌≤◌, ◌*◌, ◌+◌, ◌-◌, ◌++◌, [], true, length, IfOk, IfSome, IsNone, OnOk, MatchOption};
ghost use Rattle.std.specs.List.{remove};
ghost use Rattle.rpds_core.specs.Counts.{IsWithin};
ghost use Rattle.rpds_red_black.specs.Pairs.{IsAscending, find};
ghost use Rattle.rpds_red_black.specs.Removal.{IsEndTaken, IsRemains, IsRemainsOver, IsRemoved};
ghost use Rattle.rpds_red_black.specs.SeekCuts.{IsWithoutSought};
ghost use Rattle.rpds_red_black.specs.Shape.{leaf};
ghost use Rattle.rpds_red_black.specs.Sides.{is_right, joined};
ghost use Rattle.rpds_red_black.specs.Take.{is_taken, IsLowered};
ghost use Rattle.rpds_red_black.specs.TreeNode.{painted, shape_of, pair_of, IsEven};
ghost use Rattle.rpds_red_black.specs.TreeWalk.{near_side, far_side};
ghost use Rattle.rpds_red_black.specs.declared.remove_in_place.Loss.TheVariants.{Absent};
ghost use Rattle.rpds_red_black.specs.declared.tree.Color.TheVariants.{Black};

use crate::remove_balance::{loss_of, remove_balance};
use crate::remove_in_place::Loss;
use crate::rotation::Side;
use crate::seek::{Aim, At, AtKey, Seek};
use crate::tree::{Color, Link, Node, Tree};
use rpds_core::key::OrdKey;
use rpds_core::map::entry::Entry;
use rpds_core::steps::Steps;
use std::alloc::{AllocError, Allocator};
use std::rc::Rc;

impl<K: Drop, V: Drop, A: Allocator + Copy> Node<K, V, A> {
    // This node with the entry, and with what a removal left of its near side. The loss of that side becomes the node's.
    #[inline(always)]
    fn over_remains(
        &self,
        color: Color,
        alloc: A,
        side: Side,
        below: Tree<K, V, A>,
        entry: Rc<Entry<K, V>, A>,
        loss: &mut Loss,
        steps: &mut Steps,
    ) -> Result<Tree<K, V, A>, AllocError>
        requires even { IsEven (painted color self.now) }
        requires taken { is_taken loss.old ≡ true }
        requires lowered { IsLowered loss.old (near_side (is_right side) self.now) below }
        ensures ok { let right = is_right side in
            let far = far_side right self.now in
            let pairs = joined right below.entries (pair_of entry.value) far.entries in
            IfOk result (IsRemains pairs (shape_of (painted color self.now)) loss.new) }
        ensures makes { OnOk result (steps.old.made < steps.new.made) }
        ensures steps { IsWithin 0 4 steps.old steps.new }
    {
        let far = self.far(side);
        if let Loss::RemovedShorter = *loss {
            return remove_balance(alloc, side, color, below, entry, far, loss, steps);
        }
        let far = far.share()?;
        Tree::of_parts(alloc, side, color, below, entry, far, steps)
    }

    // What is left of this node by what is left of its near side. The loss of that side becomes the node's.
    #[inline(always)]
    fn remove_near(
        &self,
        color: Color,
        alloc: A,
        side: Side,
        below: Tree<K, V, A>,
        loss: &mut Loss,
        steps: &mut Steps,
    ) -> Result<Tree<K, V, A>, AllocError>
        requires even { IsEven (painted color self.now) }
        requires lowered { is_taken loss.old ≡ true
            → IsLowered loss.old (near_side (is_right side) self.now) below }
        ensures ok { let node = painted color self.now in
            IfOk result (IsRemainsOver (is_right side) node loss.old below loss.new) }
        ensures unmade { loss.old ≡ Absent → steps.new ≡ steps.old }
        ensures makes { is_taken loss.old ≡ true → OnOk result (steps.old.made < steps.new.made) }
        ensures steps { IsWithin 0 4 steps.old steps.new }
    {
        if let Loss::Absent = *loss {
            return Ok(below);
        }
        let entry = self.entry.clone()?;
        self.over_remains(color, alloc, side, below, entry, loss, steps)
    }

    // What is left without the node's own pair, where nothing is on the near side: a node on the far side is red, and becomes
    // black.
    #[inline(always)]
    fn far_remains(
        &self,
        color: Color,
        alloc: A,
        side: Side,
        loss: &mut Loss,
        steps: &mut Steps,
    ) -> Result<Tree<K, V, A>, AllocError>
        requires even { IsEven (painted color self.now) }
        requires empty { near_side (is_right side) self.now ≡ leaf }
        ensures ok { let far = far_side (is_right side) self.now in
            IfOk result (IsRemains far.entries (shape_of (painted color self.now)) loss.new) }
        ensures makes { IfOk result (λ left. left.entries ≢ []
            → steps.old.made < steps.new.made) }
        ensures steps { IsWithin 0 1 steps.old steps.new }
    {
        let far = self.far(side);
        if far.is_leaf() {
            *loss = loss_of(color);
            return Ok(Tree::new());
        }
        far.prove_sound();
        *loss = Loss::Removed;
        far.darkened(alloc, steps)
    }

    // What is left without the node's own pair: the next pair takes its place, where there is one on the right side.
    fn remove_own(
        &self,
        color: Color,
        alloc: A,
        loss: &mut Loss,
        steps: &mut Steps,
    ) -> Result<Tree<K, V, A>, AllocError>
        requires { IsEven (painted color self.now) }
        ensures ok { let pairs = self.now.left.entries ++ self.now.right.entries in
            IfOk result (IsRemains pairs (shape_of (painted color self.now)) loss.new) }
        ensures makes { IfOk result (λ left. left.entries ≢ []
            → steps.old.made < steps.new.made) }
        ensures steps { IsWithin 0 (4 * self.now.right.depth + 1) steps.old steps.new }
    {
        if self.right.is_leaf() {
            return self.far_remains(color, alloc, Side::Right, loss, steps);
        }
        let next = self.right.share_first_entry()?;
        let below = self.right.remove_end(alloc, Side::Left, loss, steps)?;
        self.over_remains(color, alloc, Side::Right, below, next, loss, steps)
    }
}

impl<K: Drop, V: Drop, A: Allocator + Copy> Tree<K, V, A> {
    /// What is left of the tree without the pair at the end of the side, and in `loss` what it lost. It makes the nodes of one path
    /// anew, and some next to it. The error means that memory ran out.
    pub fn remove_end(
        &self,
        alloc: A,
        side: Side,
        loss: &mut Loss,
        steps: &mut Steps,
    ) -> Result<Tree<K, V, A>, AllocError>
        requires { 0 < self.now.depth }
        ensures ok { IfOk result (IsEndTaken (is_right side) self.now loss.new) }
        ensures makes { IfOk result (λ left. left.entries ≢ []
            → steps.old.made < steps.new.made) }
        ensures steps { IsWithin 0 (4 * self.now.depth - 3) steps.old steps.new }
    {
        match &self.root {
            Link::Leaf => unreachable!(),
            Link::Branch(color, _, node) => {
                let node: &Node<K, V, A> = node;
                let near = node.near(side);
                if near.is_leaf() {
                    return node.far_remains(*color, alloc, side, loss, steps);
                }
                let below = near.remove_end(alloc, side, loss, steps)?;
                let entry = node.entry.clone()?;
                node.over_remains(*color, alloc, side, below, entry, loss, steps)
            }
        }
    }

    // What is left of the tree without the pair that is found. Where none is, no node is made.
    pub(crate) fn remove_sought<S: Seek<K, V, A>>(
        &self,
        alloc: A,
        sought: S,
        loss: &mut Loss,
        steps: &mut Steps,
    ) -> Result<Tree<K, V, A>, AllocError>
        requires { S.ready sought self.now.entries }
        ensures ok { IfOk result (IsWithoutSought S.looks sought self.now loss.new) }
        ensures unmade { OnOk result (loss.new ≡ Absent → steps.new.made ≡ steps.old.made) }
        ensures makes { IfOk result (λ left. is_taken loss.new ≡ true → left.entries ≢ []
            → steps.old.made < steps.new.made) }
        ensures compares { self.now.entries ≢ [] → steps.old.compared + S.compares ≤ steps.new.compared }
        ensures steps { IsWithin self.now.depth (4 * self.now.depth - 3) steps.old steps.new }
    {
        match &self.root {
            Link::Leaf => {
                *loss = Loss::Absent;
                Ok(Tree::new())
            }
            Link::Branch(color, _, node) => {
                let node: &Node<K, V, A> = node;
                let aim = sought.aim(node, steps);
                match aim {
                    Aim::Here => node.remove_own(*color, alloc, loss, steps),
                    Aim::Left(below) => {
                        let left = node.left.remove_sought(alloc, below, loss, steps)?;
                        node.remove_near(*color, alloc, Side::Left, left, loss, steps)
                    }
                    Aim::Right(below) => {
                        let right = node.right.remove_sought(alloc, below, loss, steps)?;
                        node.remove_near(*color, alloc, Side::Right, right, loss, steps)
                    }
                }
            }
        }
    }

    /// The tree without the pair at the position, among `size` pairs. It makes the nodes of one path anew, and some next to it. The
    /// error means that memory ran out.
    pub fn remove_at(
        &self,
        alloc: A,
        size: usize,
        position: usize,
        steps: &mut Steps,
    ) -> Result<Tree<K, V, A>, AllocError>
        requires size { size ≡ length self.now.entries }
        requires within { position < size }
        ensures pairs { IfOk result (λ left. left.entries ≡ remove self.now.entries position) }
        ensures black { IfOk result (λ left. left.color ≡ Black) }
        ensures makes { IfOk result (λ left. left.entries ≢ [] → steps.old.made < steps.new.made) }
        ensures steps { IsWithin self.now.depth (4 * self.now.depth) steps.old steps.new }
    {
        let mut loss = Loss::Absent;
        let tree = self.remove_sought(alloc, At { size, position }, &mut loss, steps)?;
        Ok(tree.into_black())
    }
}

impl<K: Ord + Drop, V: Drop, A: Allocator + Copy> Tree<K, V, A> {
    /// The tree without the pair of the key; None where there is no such pair. It makes the nodes of one path anew, and some next to
    /// it. The error means that memory ran out.
    ///
    /// Where the sibling is black it balances as Kahrs (Red-Black Trees with Types, 2001).
    pub fn remove_counted<Q: OrdKey<K>>(
        &self,
        alloc: A,
        key: Q,
        steps: &mut Steps,
    ) -> Result<Option<Tree<K, V, A>>, AllocError>
        requires { IsAscending K.cmp self.now.entries }
        ensures ok { let absent = IsNone (find Q.order (Q.seen key) self.now.entries) in
            IfOk result (λ r. MatchOption r absent (IsRemoved (Q.order (Q.seen key)) self.now)) }
        ensures unmade { IfOk result (λ r. IsNone r → steps.new.made ≡ steps.old.made) }
        ensures compares { self.now.entries ≢ [] → steps.old.compared < steps.new.compared }
        ensures makes { IfOk result (λ r. IfSome r (λ left. left.entries ≢ []
            → steps.old.made < steps.new.made)) }
        ensures steps { IsWithin self.now.depth (4 * self.now.depth) steps.old steps.new }
    {
        let mut loss = Loss::Absent;
        let sought = AtKey { form: key };
        let tree = self.remove_sought(alloc, sought, &mut loss, steps)?;
        if let Loss::Absent = loss {
            return Ok(None);
        }
        Ok(Some(tree.into_black()))
    }
}
