//! A pair put at a place, in place: each node on the way down is made the tree's own, and on the way up parts of them are swapped.
//! The place is a key or a position.
ghost use Rattle.std.specs.Prelude.{◌≡◌, ◌≢◌, ◌<◌, ◌≤◌, ◌+◌, [], IfOk, OnOk, OnErr, length, if◌then◌else◌};
ghost use Rattle.rpds_core.specs.Counts.{IsWithin};
ghost use Rattle.rpds_red_black.specs.Insertion.{IsGrownTo};
ghost use Rattle.rpds_red_black.specs.OrderedMap.{map_of};
ghost use Rattle.rpds_red_black.specs.Sides.{is_right, joined, node_of};
ghost use Rattle.rpds_red_black.specs.TreeNode.{painted, pair_of, pairs_of, shape_of, IsEven};
ghost use Rattle.rpds_red_black.specs.declared.tree.Color.TheVariants.{Black};

use crate::insert::{Growth, are_black, count_added, stays, was_added};
use crate::rotation::{Side, rotate_away};
use crate::seek::{Aim, Place};
use crate::tree::{Color, Link, Node, Tree};
use crate::unique::make_unique;
use rpds_core::map::entry::Entry;
use rpds_core::steps::Steps;
use std::alloc::{AllocError, Allocator};
use std::mem;
use std::rc::Rc;

// Puts the entry at its place in the tree of this node, which keeps its color. A black node that gets taller may become
// red; a red one gets taller on the side `lean` alone.
#[cycle(place)]
fn place_in<K: Drop, V: Drop, A: Allocator + Copy, P: Place<K, V, A>>(
    node: &mut Node<K, V, A>,
    color: Color,
    alloc: A,
    lean: Side,
    place: P,
    entry: Rc<Entry<K, V>, A>,
    steps: &mut Steps,
) -> Result<Growth, AllocError>
    requires even { IsEven (painted color node.old) }
    requires ready { P.ready place (pairs_of node.old) }
    ensures ok { let old = painted color node.old in
        let pairs = P.placed place (pair_of entry.value) (pairs_of node.old) in
        IfOk result (λ growth. IsGrownTo pairs old lean growth (painted color node.new)) }
    ensures err { OnErr result (node.new ≡ node.old) }
    ensures compares { steps.old.compared + P.compares ≤ steps.new.compared }
    ensures steps { let depth = (shape_of (painted color node.old)).depth in
        IsWithin depth depth steps.old steps.new }
{
    let aim = place.aim(&entry, node, steps);
    match aim {
        Aim::Here => {
            node.entry = entry;
            Ok(Growth::Replaced)
        }
        Aim::Left(below) => {
            if node.left.is_leaf() {
                return node.add(color, alloc, Side::Left, lean, entry, steps);
            }
            let (near, far) = (&mut node.left, &mut node.right);
            let above = &mut node.entry;
            place_near(
                Side::Left,
                near,
                above,
                far,
                color,
                lean,
                alloc,
                below,
                entry,
                steps,
            )
        }
        Aim::Right(below) => {
            if node.right.is_leaf() {
                return node.add(color, alloc, Side::Right, lean, entry, steps);
            }
            let (near, far) = (&mut node.right, &mut node.left);
            let above = &mut node.entry;
            place_near(
                Side::Right,
                near,
                above,
                far,
                color,
                lean,
                alloc,
                below,
                entry,
                steps,
            )
        }
    }
}

// Puts the entry at its place in the near side of a node of these parts, where there is a root. Where that is taller then, a black
// root below a black node becomes red; below a red node it may stay where the node leans to it. Else the node is rotated away.
#[cycle(place)]
#[inline(always)]
fn place_near<K: Drop, V: Drop, A: Allocator + Copy, P: Place<K, V, A>>(
    side: Side,
    near: &mut Tree<K, V, A>,
    above: &mut Rc<Entry<K, V>, A>,
    far: &mut Tree<K, V, A>,
    color: Color,
    lean: Side,
    alloc: A,
    place: P,
    entry: Rc<Entry<K, V>, A>,
    steps: &mut Steps,
) -> Result<Growth, AllocError>
    requires even { IsEven (node_of (is_right side) color near.old above.old far.old) }
    requires root { 0 < near.old.depth }
    requires ready { P.ready place near.old.entries }
    ensures ok { let right = is_right side in
        let old = node_of right color near.old above.old far.old in
        let new = node_of right color near.new above.new far.new in
        let grown = P.placed place (pair_of entry.value) near.old.entries in
        let pairs = joined right grown (pair_of above.old.value) far.old.entries in
        IfOk result (λ growth. IsGrownTo pairs old lean growth new) }
    ensures err { OnErr result ((near.new ≡ near.old) × (above.new ≡ above.old)
        × (far.new ≡ far.old)) }
    ensures steps { IsWithin near.old.depth (near.old.depth + 1) steps.old steps.new }
{
    far.prove_sound();
    let Link::Branch(own, count, root) = &mut near.root else {
        unreachable!();
    };
    let node = make_unique(root, steps)?;
    let grown = place_in(node, *own, alloc, side, place, entry, steps);
    node.prove_sound();
    count_added(&grown, count);
    if stays(&grown, color, lean.is(side)) {
        return grown;
    }
    if are_black(color, *own) {
        *own = Color::Red;
        return Ok(Growth::Added);
    }
    rotate_away(side, node, above, far);
    *own = Color::Black;
    *count = node.count();
    mem::swap(near, far);
    Ok(Growth::AddedTaller)
}

impl<K: Drop, V: Drop, A: Allocator + Copy> Tree<K, V, A> {
    /// Puts the entry at its place, and returns whether there is one pair more. Nodes that the tree shares with no other one are
    /// changed in place. The error means that memory ran out, and leaves what the tree holds.
    pub fn place<P: Place<K, V, A>>(
        &mut self,
        alloc: A,
        place: P,
        entry: Rc<Entry<K, V>, A>,
        steps: &mut Steps,
    ) -> Result<bool, AllocError>
        requires ready { P.ready place self.old.entries }
        ensures pairs { OnOk result
            (self.new.entries ≡ P.placed place (pair_of entry.value) self.old.entries) }
        ensures count { IfOk result (λ added.
            length self.new.entries ≡ length self.old.entries + (if added then 1 else 0)) }
        ensures black { OnOk result (self.new.color ≡ Black) }
        ensures err { OnErr result (map_of self.new ≡ map_of self.old) }
        ensures steps { IsWithin self.old.depth (self.old.depth + 1) steps.old steps.new }
        ensures makes { OnOk result (steps.old.made < steps.new.made) }
        ensures compares { OnOk result (self.old.entries ≢ []
            → steps.old.compared + P.compares ≤ steps.new.compared) }
    {
        let Link::Branch(color, count, root) = &mut self.root else {
            *self = Tree::of_entry(alloc, Color::Black, entry, steps)?;
            return Ok(true);
        };
        let root = make_unique(root, steps)?;
        *color = Color::Black;
        root.prove_sound();
        let grown = place_in(root, Color::Black, alloc, Side::Left, place, entry, steps);
        root.prove_sound();
        count_added(&grown, count);
        was_added(grown)
    }
}
