//! A node told from one of its sides, and rotated to it, in place.
ghost use Rattle.std.specs.Prelude.{◌≡◌, ◌≢◌, false, true};
ghost use Rattle.std.specs.Borrow.{sem};
ghost use Rattle.rpds_red_black.specs.SideLends.{lends_near, lends_far};
ghost use Rattle.rpds_red_black.specs.Sides.{is_right, faced};
ghost use Rattle.rpds_red_black.specs.TreeWalk.{near_side, far_side};

use crate::tree::{Node, Tree};
use rpds_core::map::entry::Entry;
use std::alloc::Allocator;
use std::mem;
use std::rc::Rc;

/// A side of a node.
#[derive(Clone, Copy, Drop)]
pub enum Side {
    /// That of the lesser keys.
    Left,
    /// That of the greater keys.
    Right,
}

impl Side {
    pub(crate) fn is(self, other: Side) -> bool
        ensures yes { result ≡ true → self ≡ other }
        ensures no { result ≡ false → self ≢ other }
    {
        match self {
            Side::Left => match other {
                Side::Left => true,
                Side::Right => false,
            },
            Side::Right => match other {
                Side::Left => false,
                Side::Right => true,
            },
        }
    }
}

impl<K, V, A: Allocator> Node<K, V, A> {
    // The node of these parts.
    #[inline(always)]
    pub(crate) fn facing(
        side: Side,
        near: Tree<K, V, A>,
        entry: Rc<Entry<K, V>, A>,
        far: Tree<K, V, A>,
    ) -> Node<K, V, A>
        ensures { result ≡ faced (is_right side) near entry far }
    {
        let (left, right) = match side {
            Side::Left => (near, far),
            Side::Right => (far, near),
        };
        Node { left, entry, right }
    }

    // What lies on the side.
    #[inline(always)]
    pub(crate) fn near(&self, side: Side) -> &Tree<K, V, A>
        ensures { result.now ≡ near_side (is_right side) self.now }
    {
        match side {
            Side::Left => &self.left,
            Side::Right => &self.right,
        }
    }

    // What lies on the other side.
    #[inline(always)]
    pub(crate) fn far(&self, side: Side) -> &Tree<K, V, A>
        ensures { result.now ≡ far_side (is_right side) self.now }
    {
        match side {
            Side::Left => &self.right,
            Side::Right => &self.left,
        }
    }

    // What lies on the side, to be changed.
    #[inline(always)]
    pub(crate) fn near_mut(&mut self, side: Side) -> &mut Tree<K, V, A>
        ensures* writes_back { sem 𝓛
            (lends_near K.row V.row A.row A.Allocator (is_right side) self.entry result) }
        ensures value { result.now ≡ near_side (is_right side) self.old }
    {
        match side {
            Side::Left => &mut self.left,
            Side::Right => &mut self.right,
        }
    }

    // What lies on the other side, to be changed.
    #[inline(always)]
    pub(crate) fn far_mut(&mut self, side: Side) -> &mut Tree<K, V, A>
        ensures* writes_back { sem 𝓛
            (lends_far K.row V.row A.row A.Allocator (is_right side) self.entry result) }
        ensures value { result.now ≡ far_side (is_right side) self.old }
    {
        match side {
            Side::Left => &mut self.right,
            Side::Right => &mut self.left,
        }
    }
}

// Rotates a node of these parts to the side: the node on its other side goes below it. Its two links are still to be swapped,
// and the link to the node below is to be given its color and count.
#[inline(always)]
pub(crate) fn rotate<K, V, A: Allocator>(
    side: Side,
    far: &mut Node<K, V, A>,
    entry: &mut Rc<Entry<K, V>, A>,
    near: &mut Tree<K, V, A>,
)
    ensures below { let right = is_right side in
        far.new ≡ faced right near.old entry.old (near_side right far.old) }
    ensures above { entry.new ≡ far.old.entry }
    ensures beside { near.new ≡ far_side (is_right side) far.old }
{
    mem::swap(&mut far.entry, entry);
    mem::swap(&mut far.left, &mut far.right);
    mem::swap(far.near_mut(side), near);
}

// Rotates a node of these parts away from the side: the node on that side goes below it. Its two links are still to be
// swapped, and the link to the node below is to be given its color and count.
#[inline(always)]
pub(crate) fn rotate_away<K, V, A: Allocator>(
    side: Side,
    near: &mut Node<K, V, A>,
    entry: &mut Rc<Entry<K, V>, A>,
    far: &mut Tree<K, V, A>,
)
    ensures below { let right = is_right side in
        near.new ≡ faced right (far_side right near.old) entry.old far.old }
    ensures above { entry.new ≡ near.old.entry }
    ensures beside { far.new ≡ near_side (is_right side) near.old }
{
    mem::swap(&mut near.entry, entry);
    mem::swap(&mut near.left, &mut near.right);
    mem::swap(near.far_mut(side), far);
}
