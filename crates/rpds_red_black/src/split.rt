//! A tree, cut in two at what is looked for: at a key, or at a position.
ghost use Rattle.std.specs.Prelude.{◌≡◌, ◌≢◌, ◌+◌, ◌*◌, ◌<◌, ◌≤◌, ◌++◌, [], IfOk, None, Some, if◌then◌else◌, length, take, drop};
ghost use Rattle.rpds_core.specs.Counts.{IsWithin};
ghost use Rattle.rpds_red_black.specs.Cuts.{items_of};
ghost use Rattle.rpds_red_black.specs.Join.{gap, pair_lent, IsSplit};
ghost use Rattle.rpds_red_black.specs.Pairs.{IsAscending};
ghost use Rattle.rpds_red_black.specs.SeekCuts.{IsCutOf, IsExtendedAfter, IsExtendedBefore};
ghost use Rattle.rpds_red_black.specs.Shape.{leaf};
ghost use Rattle.rpds_red_black.specs.TreeNode.{painted, pair_of, shape_of, IsEven};

use crate::join::Measured;
use crate::seek::{Aim, AtKey, Gap, Seek};
use crate::tree::{Link, Node, Tree};
use rpds_core::map::entry::Entry;
use rpds_core::steps::Steps;
use std::alloc::{AllocError, Allocator};
use std::rc::Rc;

/// The trees of the entries before what was looked for and after it, and the entry at it.
#[derive(Drop)]
pub struct Split<'a, K, V, A: Allocator> {
    /// The tree of the entries before it.
    pub before: Measured<K, V, A>,
    /// The entry at it, if there is one.
    pub found: Option<&'a Rc<Entry<K, V>, A>>,
    /// The tree of the entries after it.
    pub after: Measured<K, V, A>,
}

impl<'a, K: Drop, V: Drop, A: Allocator + Copy> Split<'a, K, V, A> {
    // An empty tree, cut.
    fn empty() -> Split<'a, K, V, A>
        ensures before { result.before ≡ leaf }
        ensures found { result.found ≡ None }
        ensures after { result.after ≡ leaf }
    {
        Split {
            before: Measured::empty(),
            found: None,
            after: Measured::empty(),
        }
    }

    // The tree of a node, cut at the node's own key. The height of the node's sides is passed in.
    fn around(node: &'a Node<K, V, A>, below: usize) -> Result<Split<'a, K, V, A>, AllocError>
        requires left { below ≡ node.now.left.black }
        requires right { below ≡ node.now.right.black }
        ensures { IfOk result (λ s. (s.before ≡ node.now.left)
            × (pair_lent s.found ≡ Some (pair_of node.now.entry.value)) × (s.after ≡ node.now.right)) }
    {
        let before = Measured::share(&node.left, below)?;
        let after = Measured::share(&node.right, below)?;
        Ok(Split {
            before,
            found: Some(&node.entry),
            after,
        })
    }

    /// The entries after the key, and the one at it, where that is kept and there is one. The error means that memory ran out.
    pub fn from_key(
        self,
        alloc: A,
        kept: bool,
        steps: &mut Steps,
    ) -> Result<Measured<K, V, A>, AllocError>
        requires { length self.after.entries ≤ usize.MAX }
        ensures ok { let found = items_of (pair_lent self.entry.found) in
            IfOk result (λ t. t.entries ≡ (if kept then found else []) ++ self.entry.after.entries) }
        ensures steps { IsWithin 0 (2 * self.entry.after.black + 2) steps.old steps.new }
    {
        if !kept {
            return Ok(self.after);
        }
        match self.found {
            None => Ok(self.after),
            Some(entry) => {
                let entry = entry.clone()?;
                Tree::join(alloc, Measured::empty(), entry, self.after, steps)
            }
        }
    }

    /// The entries before the key, and the one at it, where that is kept and there is one. The error means that memory ran out.
    pub fn up_to_key(
        self,
        alloc: A,
        kept: bool,
        steps: &mut Steps,
    ) -> Result<Measured<K, V, A>, AllocError>
        requires { length self.before.entries ≤ usize.MAX }
        ensures ok { let found = items_of (pair_lent self.entry.found) in
            IfOk result (λ t. t.entries ≡ self.entry.before.entries ++ (if kept then found else [])) }
        ensures steps { IsWithin 0 (2 * self.entry.before.black + 2) steps.old steps.new }
    {
        if !kept {
            return Ok(self.before);
        }
        match self.found {
            None => Ok(self.before),
            Some(entry) => {
                let entry = entry.clone()?;
                Tree::join(alloc, self.before, entry, Measured::empty(), steps)
            }
        }
    }
}

impl<'a, K: Drop, V: Drop, A: Allocator + Copy> Split<'a, K, V, A> {
    // The cut of a tree, where this is the cut of its root's left side. Where nothing is before the cut nor at it, what is after it
    // is another handle to the same tree.
    fn extend_after(
        self,
        alloc: A,
        tree: &Tree<K, V, A>,
        height: usize,
        root: &Node<K, V, A>,
        below: usize,
        steps: &mut Steps,
    ) -> Result<Split<'a, K, V, A>, AllocError>
        requires root { tree.now ≡ shape_of (painted tree.now.color root.now) }
        requires even { IsEven (painted tree.now.color root.now) }
        requires height { height ≡ tree.now.black }
        requires below { below ≡ root.now.right.black }
        requires cut { root.now.left.entries
            ≡ self.before.entries ++ (items_of (pair_lent self.found) ++ self.after.entries) }
        requires fits { length self.after.entries + length root.now.right.entries < 2 * usize.MAX }
        ensures cut { IfOk result (IsExtendedAfter tree.now (painted tree.now.color root.now) self.entry) }
        ensures high { IfOk result (λ s. root.now.right.black ≤ s.after.black) }
        ensures steps { IsWithin 0 (2 * gap self.entry.after.black root.now.right.black + 2) steps.old steps.new }
    {
        let Split {
            before,
            found,
            after,
        } = self;
        if found.is_none() && before.tree.is_leaf() {
            let after = Measured::share(tree, height)?;
            return Ok(Split {
                before,
                found,
                after,
            });
        }
        let entry = root.entry.clone()?;
        let far = Measured::share(&root.right, below)?;
        let after = Tree::join(alloc, after, entry, far, steps)?;
        Ok(Split {
            before,
            found,
            after,
        })
    }

    // The cut of a tree, where this is the cut of its root's right side. Where nothing is after the cut nor at it, what is before it
    // is another handle to the same tree.
    fn extend_before(
        self,
        alloc: A,
        tree: &Tree<K, V, A>,
        height: usize,
        root: &Node<K, V, A>,
        below: usize,
        steps: &mut Steps,
    ) -> Result<Split<'a, K, V, A>, AllocError>
        requires root { tree.now ≡ shape_of (painted tree.now.color root.now) }
        requires even { IsEven (painted tree.now.color root.now) }
        requires height { height ≡ tree.now.black }
        requires below { below ≡ root.now.left.black }
        requires cut { root.now.right.entries
            ≡ self.before.entries ++ (items_of (pair_lent self.found) ++ self.after.entries) }
        requires fits { length root.now.left.entries + length self.before.entries < 2 * usize.MAX }
        ensures cut { IfOk result (IsExtendedBefore tree.now (painted tree.now.color root.now) self.entry) }
        ensures high { IfOk result (λ s. root.now.left.black ≤ s.before.black) }
        ensures steps { IsWithin 0 (2 * gap root.now.left.black self.entry.before.black + 2) steps.old steps.new }
    {
        let Split {
            before,
            found,
            after,
        } = self;
        if found.is_none() && after.tree.is_leaf() {
            let before = Measured::share(tree, height)?;
            return Ok(Split {
                before,
                found,
                after,
            });
        }
        let entry = root.entry.clone()?;
        let far = Measured::share(&root.left, below)?;
        let before = Tree::join(alloc, far, entry, before, steps)?;
        Ok(Split {
            before,
            found,
            after,
        })
    }
}

impl<K: Drop, V: Drop, A: Allocator + Copy> Tree<K, V, A> {
    /// Cuts the tree, whose height is passed in, at what is looked for. Where all entries lie on one side of it, that side is another
    /// handle to the same tree. The error means that memory ran out. After Blelloch, Ferizovic, Sun (Just Join for Parallel Ordered
    /// Sets, 2016).
    pub fn cut<S: Seek<K, V, A>>(
        &self,
        alloc: A,
        height: usize,
        sought: S,
        steps: &mut Steps,
    ) -> Result<Split<'_, K, V, A>, AllocError>
        requires height { height ≡ self.now.black }
        requires ready { S.ready sought self.now.entries }
        requires fits { length self.now.entries ≤ 2 * usize.MAX }
        ensures ok { IfOk result (IsCutOf S.looks sought self.now) }
        ensures made { IfOk result (λ s. steps.new.made
            ≤ steps.old.made + 2 * (s.before.black + s.after.black) + 2 * self.now.depth) }
        ensures compared { steps.new.compared ≤ steps.old.compared + length self.now.entries }
        ensures compares { self.now.entries ≢ [] → steps.old.compared + S.compares ≤ steps.new.compared }
        ensures steps { IsWithin self.now.depth (4 * self.now.black + 2 * self.now.depth) steps.old steps.new }
    {
        match &self.root {
            Link::Leaf => Ok(Split::empty()),
            Link::Branch(color, _, node) => {
                let node: &Node<K, V, A> = node;
                let below = node.height_below(*color, height);
                let aim = sought.aim(node, steps);
                match aim {
                    Aim::Here => Split::around(node, below),
                    Aim::Left(inside) => {
                        let cut = node.left.cut(alloc, below, inside, steps)?;
                        cut.extend_after(alloc, self, height, node, below, steps)
                    }
                    Aim::Right(inside) => {
                        let cut = node.right.cut(alloc, below, inside, steps)?;
                        cut.extend_before(alloc, self, height, node, below, steps)
                    }
                }
            }
        }
    }

    /// The trees of the first pairs, so many as `position` tells, and of those behind them, among `size` pairs.
    pub fn cut_at(
        &self,
        alloc: A,
        size: usize,
        position: usize,
        steps: &mut Steps,
    ) -> Result<(Measured<K, V, A>, Measured<K, V, A>), AllocError>
        requires size { size ≡ length self.now.entries }
        requires within { position ≤ size }
        ensures before { IfOk result (λ r. r.0.entries ≡ take position self.now.entries) }
        ensures after { IfOk result (λ r. r.1.entries ≡ drop position self.now.entries) }
        ensures steps { IsWithin self.now.depth (4 * self.now.black + 2 * self.now.depth) steps.old steps.new }
    {
        let height = self.height();
        let cut = self.cut(alloc, height, Gap { size, position }, steps)?;
        Ok((cut.before, cut.after))
    }
}

impl<K: Ord + Drop, V: Drop, A: Allocator + Copy> Tree<K, V, A> {
    /// Cuts the tree, whose height is passed in, at a key. It compares at most one key on each level. Where all entries lie on one
    /// side of the key, that side is another handle to the same tree. The error means that memory ran out. After Blelloch, Ferizovic,
    /// Sun (Just Join for Parallel Ordered Sets, 2016).
    pub fn split(
        &self,
        alloc: A,
        height: usize,
        key: &K,
        steps: &mut Steps,
    ) -> Result<Split<'_, K, V, A>, AllocError>
        requires height { height ≡ self.now.black }
        requires ascending { IsAscending K.cmp self.now.entries }
        requires fits { length self.now.entries ≤ 2 * usize.MAX }
        ensures ok { IfOk result (IsSplit K.cmp key.now self.now) }
        ensures made { IfOk result (λ s. steps.new.made
            ≤ steps.old.made + 2 * (s.before.black + s.after.black) + 2 * self.now.depth) }
        ensures compared { steps.new.compared ≤ steps.old.compared + length self.now.entries }
        ensures compares { self.now.entries ≢ [] → steps.old.compared < steps.new.compared }
        ensures steps { IsWithin self.now.depth (4 * self.now.black + 2 * self.now.depth) steps.old steps.new }
    {
        self.cut(alloc, height, AtKey { form: key }, steps)
    }
}
