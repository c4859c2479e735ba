//! Two trees in one (Blelloch, Ferizovic, Sun, Just Join for Parallel Ordered Sets, 2016).
ghost use Rattle.std.specs.Prelude.{◌≡◌, ◌+◌, ◌*◌, ◌-◌, ◌<◌, ◌≤◌, ◌∷◌, ◌++◌, max, IfOk, None, Some, if◌then◌else◌, length};
ghost use Rattle.rpds_core.specs.Counts.{IsWithin};
ghost use Rattle.rpds_red_black.specs.Cuts.{items_of};
ghost use Rattle.rpds_red_black.specs.Join.{gap, pair_held, rank, redness, IsJoined, IsOfHeight, IsTakenOff};
ghost use Rattle.rpds_red_black.specs.Logarithm.{most_levels};
ghost use Rattle.rpds_red_black.specs.Shape.{leaf};
ghost use Rattle.rpds_red_black.specs.Sides.{is_right, joined};
ghost use Rattle.rpds_red_black.specs.TreeNode.{painted, shape_of, pair_of, IsEven, IsRedRoot};
ghost use Rattle.rpds_red_black.specs.TreeWalk.{near_side, far_side};
ghost use Rattle.rpds_red_black.specs.declared.tree.Color.TheVariants.{Red, Black};

use crate::remove_in_place::Loss;
use crate::rotation::Side;
use crate::tree::{Color, Link, Node, Tree};
use rpds_core::map::entry::Entry;
use rpds_core::steps::Steps;
use std::alloc::{AllocError, Allocator};
use std::cmp::Ordering;
use std::marker::Model;
use std::rc::Rc;

/// A tree, and how many black nodes there are on each path of it.
#[derive(Drop)]
pub struct Measured<K, V, A: Allocator> {
    /// The tree.
    pub tree: Tree<K, V, A>,
    /// Its height, in black nodes.
    pub height: usize,
}

impl<K, V, A: Allocator> Model for Measured<K, V, A> {
    ghost use Rattle.std.specs.Prelude.{◌≡◌};
    ghost use Rattle.rpds_red_black.specs.Shape.{Shape};

    ghost Value = { Shape K V };

    ghost view = { λ m. m.tree };

    ghost invariant = { λ m. m.height ≡ m.tree.black };
}

// The first entry of a tree, and the tree of those after it.
#[derive(Drop)]
pub(crate) struct TakenOff<K, V, A: Allocator> {
    pub(crate) first: Rc<Entry<K, V>, A>,
    pub(crate) rest: Measured<K, V, A>,
}

impl<K, V, A: Allocator> Measured<K, V, A> {
    pub(crate) fn empty() -> Measured<K, V, A>
        ensures { result ≡ leaf }
    {
        Measured {
            tree: Tree::new(),
            height: 0,
        }
    }
}

impl<K, V, A: Allocator> Tree<K, V, A> {
    /// How many black nodes there are on each path. It goes down one path.
    pub fn height(&self) -> usize
        requires { length self.now.entries ≤ 2 * usize.MAX }
        ensures { result ≡ self.now.black }
    {
        match &self.root {
            Link::Leaf => 0,
            Link::Branch(color, _, node) => {
                let node: &Node<K, V, A> = node;
                let below = node.left.height();
                match *color {
                    Color::Red => below,
                    Color::Black => below + 1,
                }
            }
        }
    }
}

impl<K, V, A: Allocator> Tree<K, V, A> {
    /// Without code, for its clauses: its rank is no higher than the logarithm of its number of entries allows.
    #[tactic(auto, using(crate::proofs::Ranks::rank_log, crate::proofs::Ranks::depth_rank))]
    pub fn prove_low_rank(&self)
        ensures low { rank self.now ≤ most_levels (length self.now.entries) }
        ensures deep { self.now.depth ≤ rank self.now }
    {
        self.prove_sound();
        if self.has_red_root() {
            self.prove_sound_in_black();
        }
    }
}

impl<K, V, A: Allocator> Node<K, V, A> {
    // How many black nodes there are on each path of its sides, from those of its tree.
    #[inline(always)]
    pub(crate) fn height_below(&self, color: Color, height: usize) -> usize
        requires { height ≡ (shape_of (painted color self.now)).black }
        ensures { result ≡ self.now.left.black }
    {
        match color {
            Color::Red => height,
            Color::Black => height - 1,
        }
    }
}

impl<K: Drop, V: Drop, A: Allocator + Copy> Measured<K, V, A> {
    // One more owner of a tree of this height, where it is kept.
    pub(crate) fn share_if(
        kept: bool,
        tree: &Tree<K, V, A>,
        height: usize,
    ) -> Result<Measured<K, V, A>, AllocError>
        requires { height ≡ tree.now.black }
        ensures { IfOk result (λ m. m ≡ (if kept then tree.now else leaf)) }
    {
        if kept {
            Measured::share(tree, height)
        } else {
            Ok(Measured::empty())
        }
    }

    // One more owner of the same tree, where it is kept.
    pub(crate) fn share_kept(&self, kept: bool) -> Result<Option<Measured<K, V, A>>, AllocError>
        ensures { IfOk result (λ m. m ≡ (if kept then Some self.now else None)) }
    {
        if !kept {
            return Ok(None);
        }
        let shared = Measured::share(&self.tree, self.height)?;
        Ok(Some(shared))
    }

    /// Another handle to a tree of this height, as [`Tree::share`] makes it.
    pub fn share(tree: &Tree<K, V, A>, height: usize) -> Result<Measured<K, V, A>, AllocError>
        requires { height ≡ tree.now.black }
        ensures { IfOk result (λ m. m ≡ tree.now) }
    {
        let tree = tree.share()?;
        Ok(Measured { tree, height })
    }

    // The same pairs below a black root. No node is made.
    fn darkened(self) -> Measured<K, V, A>
        requires { self.black < usize.MAX }
        ensures pairs { result.entries ≡ self.entries }
        ensures color { result.color ≡ Black }
        ensures black { result.black ≡ self.black + redness self.color }
    {
        let red = self.tree.has_red_root();
        let height = if red { self.height + 1 } else { self.height };
        let tree = self.tree.into_black();
        Measured { tree, height }
    }

    // The first entry, and the tree of those after it.
    #[tactic(auto, using(crate::proofs::Ranks::lowered_rank))]
    pub(crate) fn take_off_first(
        &self,
        alloc: A,
        steps: &mut Steps,
    ) -> Result<TakenOff<K, V, A>, AllocError>
        requires { 0 < self.now.depth }
        ensures ok { IfOk result (IsTakenOff self.now) }
        ensures steps { IsWithin 0 (8 * self.now.black + 1) steps.old steps.new }
    {
        self.tree.prove_sound();
        let first = self.tree.share_first_entry()?;
        let mut loss = Loss::Absent;
        let tree = self.tree.remove_end(alloc, Side::Left, &mut loss, steps)?;
        let height = match loss {
            Loss::RemovedShorter => self.height - 1,
            _ => self.height,
        };
        let rest = Measured { tree, height };
        Ok(TakenOff { first, rest })
    }
}

// Links a black node again over its red near child, on whose near side there is another tree now, which is as high as the one
// that was there. Its root may be red.
fn link_over_red<K: Drop, V: Drop, A: Allocator + Copy>(
    alloc: A,
    side: Side,
    node: &Node<K, V, A>,
    child: &Node<K, V, A>,
    near: Tree<K, V, A>,
    steps: &mut Steps,
) -> Result<Tree<K, V, A>, AllocError>
    requires even { IsEven (painted Black node.now) }
    requires red { IsRedRoot (near_side (is_right side) node.now) child.now }
    requires level { near.black ≡ (near_side (is_right side) child.now).black }
    ensures ok { let right = is_right side in
        let beside = far_side right child.now in
        let far = far_side right node.now in
        let rest = joined right beside.entries (pair_of node.now.entry.value) far.entries in
        let pairs = joined right near.entries (pair_of child.now.entry.value) rest in
        IfOk result (IsOfHeight pairs (shape_of (painted Black node.now)).black) }
    ensures steps { IsWithin 0 2 steps.old steps.new }
{
    let low = child.entry.clone()?;
    let beside = child.far(side).share()?;
    let high = node.entry.clone()?;
    let far = node.far(side);
    if !near.has_red_root() {
        let far = far.share()?;
        let near = Tree::of_parts(alloc, side, Color::Red, near, low, beside, steps)?;
        return Tree::of_parts(alloc, side, Color::Black, near, high, far, steps);
    }
    if far.has_red_root() {
        let far = far.share_black()?;
        let near = Tree::of_parts(alloc, side, Color::Black, near, low, beside, steps)?;
        return Tree::of_parts(alloc, side, Color::Red, near, high, far, steps);
    }
    let far = far.share()?;
    let far = Tree::of_parts(alloc, side, Color::Red, beside, high, far, steps)?;
    Tree::of_parts(alloc, side, Color::Black, near, low, far, steps)
}

impl<K: Drop, V: Drop, A: Allocator + Copy> Tree<K, V, A> {
    // This tree, whose root is black, with the entry and a tree on its side, which is lower by `above` black nodes. The result
    // is as high, and may have a red root.
    fn join_below(
        &self,
        alloc: A,
        side: Side,
        above: usize,
        entry: Rc<Entry<K, V>, A>,
        lower: Tree<K, V, A>,
        steps: &mut Steps,
    ) -> Result<Tree<K, V, A>, AllocError>
        requires black { self.now.color ≡ Black }
        requires color { lower.color ≡ Black }
        requires higher { self.now.black ≡ lower.black + above }
        ensures ok { let pairs = joined (is_right side) lower.entries (pair_of entry.value) self.now.entries in
            IfOk result (IsOfHeight pairs self.now.black) }
        ensures steps { IsWithin 0 (2 * above + 1) steps.old steps.new }
    {
        if above == 0 {
            let far = self.share()?;
            return Tree::of_parts(alloc, side, Color::Red, lower, entry, far, steps);
        }
        let node: &Node<K, V, A> = self.root_node();
        let near = node.near(side);
        if let Some(child) = near.red_node() {
            let child: &Node<K, V, A> = child;
            let below = child.near(side);
            let below = below.join_below(alloc, side, above - 1, entry, lower, steps)?;
            return link_over_red(alloc, side, node, child, below, steps);
        }
        let near = near.join_below(alloc, side, above - 1, entry, lower, steps)?;
        let own = node.entry.clone()?;
        let far = node.far(side).share()?;
        Tree::of_parts(alloc, side, Color::Black, near, own, far, steps)
    }
}

impl<K: Drop, V: Drop, A: Allocator + Copy> Node<K, V, A> {
    // A tree with a black root, of this red node's parts, where the entry and a tree, which is lower by `above` black nodes, come
    // into its near side.
    fn join_near(
        &self,
        alloc: A,
        side: Side,
        above: usize,
        entry: Rc<Entry<K, V>, A>,
        lower: Tree<K, V, A>,
        steps: &mut Steps,
    ) -> Result<Tree<K, V, A>, AllocError>
        requires even { IsEven (painted Red self.now) }
        requires color { lower.color ≡ Black }
        requires higher { (near_side (is_right side) self.now).black ≡ lower.black + above }
        ensures ok { let old = shape_of (painted Red self.now) in
            let pairs = joined (is_right side) lower.entries (pair_of entry.value) old.entries in
            IfOk result (IsOfHeight pairs (old.black + 1)) }
        ensures color { IfOk result (λ t. t.color ≡ Black) }
        ensures steps { IsWithin 0 (2 * above + 2) steps.old steps.new }
    {
        let near = self.near(side);
        let near = near.join_below(alloc, side, above, entry, lower, steps)?;
        let own = self.entry.clone()?;
        let far = self.far(side).share()?;
        Tree::of_parts(alloc, side, Color::Black, near, own, far, steps)
    }
}

impl<K: Drop, V: Drop, A: Allocator + Copy> Tree<K, V, A> {
    // Both trees in one, where the lower one comes on the side, with the entry between them.
    fn join_taller(
        alloc: A,
        side: Side,
        taller: Measured<K, V, A>,
        entry: Rc<Entry<K, V>, A>,
        lower: Measured<K, V, A>,
        steps: &mut Steps,
    ) -> Result<Measured<K, V, A>, AllocError>
        requires lower { lower.black < taller.black }
        requires fits { length taller.entries + length lower.entries < 2 * usize.MAX }
        ensures ok { let pairs = joined (is_right side) lower.entries (pair_of entry.value) taller.entries in
            IfOk result (IsJoined pairs lower taller) }
        ensures steps { IsWithin 0 (2 * (taller.black - lower.black) + 2) steps.old steps.new }
    {
        taller.tree.prove_sound();
        let lower = lower.darkened();
        let above = taller.height - lower.height;
        match taller.tree.red_node() {
            None => {
                let tree = taller
                    .tree
                    .join_below(alloc, side, above, entry, lower.tree, steps)?;
                Ok(Measured {
                    tree,
                    height: taller.height,
                })
            }
            Some(node) => {
                let node: &Node<K, V, A> = node;
                let tree = node.join_near(alloc, side, above, entry, lower.tree, steps)?;
                Ok(Measured {
                    tree,
                    height: taller.height + 1,
                })
            }
        }
    }

    // Both trees in one, where both are as high, with the entry between them.
    fn join_level(
        alloc: A,
        left: Measured<K, V, A>,
        entry: Rc<Entry<K, V>, A>,
        right: Measured<K, V, A>,
        steps: &mut Steps,
    ) -> Result<Measured<K, V, A>, AllocError>
        requires level { left.black ≡ right.black }
        requires fits { length left.entries + length right.entries < 2 * usize.MAX }
        ensures ok { IfOk result (IsJoined (left.entries ++ pair_of entry.value ∷ right.entries) left right) }
        ensures steps { IsWithin 0 1 steps.old steps.new }
    {
        let red = left.tree.has_red_root() || right.tree.has_red_root();
        left.tree.prove_sound();
        let height = if red { left.height + 1 } else { left.height };
        let color = if red { Color::Black } else { Color::Red };
        let node = Node {
            left: left.tree,
            entry,
            right: right.tree,
        };
        let tree = Tree::from_node(alloc, color, node, steps)?;
        Ok(Measured { tree, height })
    }

    // Both trees in one, with the entry between them. It compares no keys.
    #[tactic(auto, using(crate::proofs::Joining::joined_swapped))]
    pub(crate) fn join(
        alloc: A,
        left: Measured<K, V, A>,
        entry: Rc<Entry<K, V>, A>,
        right: Measured<K, V, A>,
        steps: &mut Steps,
    ) -> Result<Measured<K, V, A>, AllocError>
        requires fits { length left.entries + length right.entries < 2 * usize.MAX }
        ensures ok { IfOk result (IsJoined (left.entries ++ pair_of entry.value ∷ right.entries) left right) }
        ensures steps { IsWithin 0 (2 * gap left.black right.black + 2) steps.old steps.new }
    {
        match left.height.cmp(&right.height) {
            Ordering::Less => Tree::join_taller(alloc, Side::Left, right, entry, left, steps),
            Ordering::Equal => Tree::join_level(alloc, left, entry, right, steps),
            Ordering::Greater => Tree::join_taller(alloc, Side::Right, left, entry, right, steps),
        }
    }

    /// Both trees in one, with the entry between them, if there is one. It makes nodes as far down the higher tree as the heights
    /// differ. The error means that memory ran out. After Blelloch, Ferizovic, Sun (Just Join for Parallel Ordered Sets, 2016).
    pub fn join_around(
        alloc: A,
        left: Measured<K, V, A>,
        middle: Option<Rc<Entry<K, V>, A>>,
        right: Measured<K, V, A>,
        steps: &mut Steps,
    ) -> Result<Measured<K, V, A>, AllocError>
        requires fits { length left.entries + length right.entries < 2 * usize.MAX }
        ensures ok { IfOk result (λ t.
            t.entries ≡ left.entries ++ (items_of (pair_held middle) ++ right.entries)) }
        ensures steps { IsWithin 0 (10 * max left.black right.black + 3) steps.old steps.new }
    {
        if let Some(entry) = middle {
            return Tree::join(alloc, left, entry, right, steps);
        }
        if right.tree.is_leaf() {
            return Ok(left);
        }
        if left.tree.is_leaf() {
            return Ok(right);
        }
        let TakenOff { first, rest } = right.take_off_first(alloc, steps)?;
        Tree::join(alloc, left, first, rest, steps)
    }
}
