//! Balance after a removal, on the way up: a node whose near side has lost a black node on each path is made anew, and so are
//! its sibling, and a nephew that is red. The sibling is the root of the node's far side, and the near and the far nephew are
//! the roots of its own near and far side.
ghost use Rattle.std.specs.Prelude.{◌≡◌, ◌+◌, ◌<◌, IfOk, OnOk};
ghost use Rattle.rpds_core.specs.Counts.{IsWithin};
ghost use Rattle.rpds_red_black.specs.Removal.{IsBalanced, IsRebalanced};
ghost use Rattle.rpds_red_black.specs.Shape.{blackness, MayStandOver};
ghost use Rattle.rpds_red_black.specs.Sides.{is_right, joined, node_of};
ghost use Rattle.rpds_red_black.specs.Take.{loss_under, IsDarker};
ghost use Rattle.rpds_red_black.specs.TreeNode.{painted, shape_of, pair_of, IsEven, IsRedRoot, IsRoot};
ghost use Rattle.rpds_red_black.specs.TreeWalk.{near_side, far_side};
ghost use Rattle.rpds_red_black.specs.declared.tree.Color.TheVariants.{Red, Black};

use crate::remove_in_place::Loss;
use crate::rotation::Side;
use crate::tree::{Color, Link, Node, Tree};
use rpds_core::map::entry::Entry;
use rpds_core::steps::Steps;
use std::alloc::{AllocError, Allocator};
use std::rc::Rc;

// What a node of the color loses where both its sides have lost a black node on each path: a red one becomes black, and so
// loses none.
#[inline(always)]
pub(crate) fn loss_of(color: Color) -> Loss
    ensures { result ≡ loss_under color }
{
    match color {
        Color::Red => Loss::Removed,
        Color::Black => Loss::RemovedShorter,
    }
}

impl<K: Drop, V: Drop, A: Allocator + Copy> Tree<K, V, A> {
    // A tree whose root has these parts.
    #[inline(always)]
    pub(crate) fn of_parts(
        alloc: A,
        side: Side,
        color: Color,
        near: Tree<K, V, A>,
        entry: Rc<Entry<K, V>, A>,
        far: Tree<K, V, A>,
        steps: &mut Steps,
    ) -> Result<Tree<K, V, A>, AllocError>
        requires { IsEven (node_of (is_right side) color near entry far) }
        ensures ok { IfOk result (λ t. t ≡ shape_of (node_of (is_right side) color near entry far)) }
        ensures steps { steps.new ≡ record steps.old { made = steps.old.made + 1 } }
    {
        let node = Node::facing(side, near, entry, far);
        Tree::from_node(alloc, color, node, steps)
    }

    // This tree with its red root made black, in a node of its own.
    #[inline(always)]
    pub(crate) fn darkened(&self, alloc: A, steps: &mut Steps) -> Result<Tree<K, V, A>, AllocError>
        requires { self.now.color ≡ Red }
        ensures ok { IfOk result (IsDarker self.now) }
        ensures steps { IsWithin 0 1 steps.old steps.new }
        ensures makes { OnOk result (steps.old.made < steps.new.made) }
    {
        match self.red_node() {
            None => unreachable!(),
            Some(root) => {
                let root = root.copy()?;
                Tree::from_node(alloc, Color::Black, root, steps)
            }
        }
    }

    // This tree with its red root made black. The color lies in the link, so that no node is made.
    #[inline(always)]
    pub(crate) fn share_black(&self) -> Result<Tree<K, V, A>, AllocError>
        requires { self.now.color ≡ Red }
        ensures { IfOk result (IsDarker self.now) }
    {
        match self.red_node() {
            None => unreachable!(),
            Some(root) => {
                let root = root.clone()?;
                Ok(Tree::from_shared(Color::Black, root))
            }
        }
    }

    /// This tree with a black root.
    #[inline(always)]
    pub fn into_black(self) -> Tree<K, V, A>
        ensures pairs { result.entries ≡ self.entries }
        ensures black { result.color ≡ Black }
        ensures high { result.black + blackness self.color ≡ self.black + 1 }
    {
        let Tree { root } = self;
        match root {
            Link::Leaf => Tree::new(),
            Link::Branch(_, _, node) => Tree::from_shared(Color::Black, node),
        }
    }
}

// Balances a node of these parts, where the sibling is black and the far nephew red: the sibling takes the node's place, over
// the node and the far nephew, both black.
#[inline(always)]
fn balance_with_red_far_nephew<K: Drop, V: Drop, A: Allocator + Copy>(
    alloc: A,
    side: Side,
    color: Color,
    near: Tree<K, V, A>,
    entry: Rc<Entry<K, V>, A>,
    sibling: &Node<K, V, A>,
    steps: &mut Steps,
) -> Result<Tree<K, V, A>, AllocError>
    requires even { IsEven (painted Black sibling.now) }
    requires red { (far_side (is_right side) sibling.now).color ≡ Red }
    requires lower { near.black + 1 ≡ (shape_of (painted Black sibling.now)).black }
    ensures ok { let old = shape_of (painted Black sibling.now) in
        let pairs = joined (is_right side) near.entries (pair_of entry.value) old.entries in
        IfOk result (IsBalanced pairs old.black color) }
    ensures makes { OnOk result (steps.old.made < steps.new.made) }
    ensures steps { IsWithin 0 3 steps.old steps.new }
{
    let beside = sibling.near(side).share()?;
    let low = Tree::of_parts(alloc, side, Color::Black, near, entry, beside, steps)?;
    let high = sibling.far(side).share_black()?;
    let above = sibling.entry.clone()?;
    Tree::of_parts(alloc, side, color, low, above, high, steps)
}

// Balances a node of these parts, where the sibling is black and the near nephew red: the near nephew takes the node's place,
// over the node and the sibling, both black.
#[inline(always)]
fn balance_with_red_near_nephew<K: Drop, V: Drop, A: Allocator + Copy>(
    alloc: A,
    side: Side,
    color: Color,
    near: Tree<K, V, A>,
    entry: Rc<Entry<K, V>, A>,
    sibling: &Node<K, V, A>,
    nephew: &Node<K, V, A>,
    steps: &mut Steps,
) -> Result<Tree<K, V, A>, AllocError>
    requires even { IsEven (painted Black sibling.now) }
    requires nephew { IsRedRoot (near_side (is_right side) sibling.now) nephew.now }
    requires lower { near.black + 1 ≡ (shape_of (painted Black sibling.now)).black }
    ensures ok { let old = shape_of (painted Black sibling.now) in
        let pairs = joined (is_right side) near.entries (pair_of entry.value) old.entries in
        IfOk result (IsBalanced pairs old.black color) }
    ensures makes { OnOk result (steps.old.made < steps.new.made) }
    ensures steps { IsWithin 0 3 steps.old steps.new }
{
    let beside = nephew.near(side).share()?;
    let low = Tree::of_parts(alloc, side, Color::Black, near, entry, beside, steps)?;
    let between = nephew.far(side).share()?;
    let beyond = sibling.far(side).share()?;
    let own = sibling.entry.clone()?;
    let high = Tree::of_parts(alloc, side, Color::Black, between, own, beyond, steps)?;
    let above = nephew.entry.clone()?;
    Tree::of_parts(alloc, side, color, low, above, high, steps)
}

// Balances a node of these parts, where the sibling and both nephews are black: the node is black over the sibling, which
// becomes red, and so the whole has lost a black node on each path.
#[inline(always)]
fn balance_with_black_nephews<K: Drop, V: Drop, A: Allocator + Copy>(
    alloc: A,
    side: Side,
    near: Tree<K, V, A>,
    entry: Rc<Entry<K, V>, A>,
    sibling: &Rc<Node<K, V, A>, A>,
    steps: &mut Steps,
) -> Result<Tree<K, V, A>, AllocError>
    requires even { IsEven (painted Black sibling.now.value) }
    requires near_nephew { (near_side (is_right side) sibling.now.value).color ≡ Black }
    requires far_nephew { (far_side (is_right side) sibling.now.value).color ≡ Black }
    requires lower { near.black + 1 ≡ (shape_of (painted Black sibling.now.value)).black }
    ensures ok { let old = shape_of (painted Black sibling.now.value) in
        let pairs = joined (is_right side) near.entries (pair_of entry.value) old.entries in
        IfOk result (IsBalanced pairs near.black Black) }
    ensures makes { OnOk result (steps.old.made < steps.new.made) }
    ensures steps { IsWithin 0 3 steps.old steps.new }
{
    let sibling = sibling.clone()?;
    let far = Tree::from_shared(Color::Red, sibling);
    Tree::of_parts(alloc, side, Color::Black, near, entry, far, steps)
}

// Balances a node of these parts, where the sibling is black.
#[inline(always)]
fn balance_with_black_sibling<K: Drop, V: Drop, A: Allocator + Copy>(
    alloc: A,
    side: Side,
    color: Color,
    near: Tree<K, V, A>,
    entry: Rc<Entry<K, V>, A>,
    far: &Tree<K, V, A>,
    loss: &mut Loss,
    steps: &mut Steps,
) -> Result<Tree<K, V, A>, AllocError>
    requires black { far.now.color ≡ Black }
    requires lower { near.black + 1 ≡ far.now.black }
    ensures ok { let pairs = joined (is_right side) near.entries (pair_of entry.value) far.now.entries in
        IfOk result (IsRebalanced pairs far.now.black color loss.new) }
    ensures makes { OnOk result (steps.old.made < steps.new.made) }
    ensures steps { IsWithin 0 3 steps.old steps.new }
{
    let root = far.root_node();
    let sibling: &Node<K, V, A> = root;
    if sibling.far(side).has_red_root() {
        *loss = Loss::Removed;
        return balance_with_red_far_nephew(alloc, side, color, near, entry, sibling, steps);
    }
    if let Some(nephew) = sibling.near(side).red_node() {
        let nephew: &Node<K, V, A> = nephew;
        *loss = Loss::Removed;
        return balance_with_red_near_nephew(
            alloc, side, color, near, entry, sibling, nephew, steps,
        );
    }
    *loss = loss_of(color);
    balance_with_black_nephews(alloc, side, near, entry, root, steps)
}

// Balances a node of these parts. A red sibling is first rotated up: the node, now red below it, has the near nephew, which is
// black, as its sibling, and is balanced there.
#[inline(never)]
pub(crate) fn remove_balance<K: Drop, V: Drop, A: Allocator + Copy>(
    alloc: A,
    side: Side,
    color: Color,
    near: Tree<K, V, A>,
    entry: Rc<Entry<K, V>, A>,
    far: &Tree<K, V, A>,
    loss: &mut Loss,
    steps: &mut Steps,
) -> Result<Tree<K, V, A>, AllocError>
    requires under { MayStandOver color far.now }
    requires lower { near.black + 1 ≡ far.now.black }
    ensures ok { let pairs = joined (is_right side) near.entries (pair_of entry.value) far.now.entries in
        IfOk result (IsRebalanced pairs far.now.black color loss.new) }
    ensures makes { OnOk result (steps.old.made < steps.new.made) }
    ensures steps { IsWithin 0 4 steps.old steps.new }
{
    let Some(sibling) = far.red_node() else {
        return balance_with_black_sibling(alloc, side, color, near, entry, far, loss, steps);
    };
    let sibling: &Node<K, V, A> = sibling;
    let near_nephew = sibling.near(side);
    let below = balance_with_black_sibling(
        alloc,
        side,
        Color::Red,
        near,
        entry,
        near_nephew,
        loss,
        steps,
    )?;
    let beyond = sibling.far(side).share()?;
    let above = sibling.entry.clone()?;
    *loss = Loss::Removed;
    Tree::of_parts(alloc, side, Color::Black, below, above, beyond, steps)
}
