//! Insertion by a pair's own key and at a position, and what one does to a node on the way up.
ghost use Rattle.std.specs.Prelude.{◌≡◌, ◌≢◌, ◌<◌, ◌≤◌, ◌+◌, [], ◌∷◌, ◌++◌, IfOk, OnOk, OnErr, length, set, true, false, if◌then◌else◌};
ghost use Rattle.std.specs.List.{insert};
ghost use Rattle.rpds_core.specs.Counts.{IsWithin};
ghost use Rattle.rpds_red_black.specs.Insertion.{added_by, added_of, stays_of, IsGrownTo};
ghost use Rattle.rpds_red_black.specs.TreeNode.{counted, painted, pair_of, IsEven};
ghost use Rattle.rpds_red_black.specs.OrderedMap.{map_of};
ghost use Rattle.rpds_red_black.specs.Pairs.{IsAscending, put};
ghost use Rattle.rpds_red_black.specs.Shape.{leaf};
ghost use Rattle.rpds_red_black.specs.Sides.{is_right, joined};
ghost use Rattle.rpds_red_black.specs.TreeWalk.{near_side, far_side};
ghost use Rattle.rpds_red_black.specs.declared.tree.Color.TheVariants.{Black};

use crate::rotation::Side;
use crate::seek::{At, First, Gap, Last, OwnKey};
use crate::tree::{Color, Node, Tree};
use rpds_core::map::entry::Entry;
use rpds_core::steps::Steps;
use std::alloc::{AllocError, Allocator};
use std::rc::Rc;

// What an insertion did to a node: it replaced the pair of an equal key, or there is one pair more, and there may be one
// black node more on each path.
#[derive(Clone, Copy, Drop)]
pub(crate) enum Growth {
    Replaced,
    Added,
    AddedTaller,
}

impl<K: Drop, V: Drop, A: Allocator + Copy> Node<K, V, A> {
    // Puts the entry on the side, where there is nothing. A red node has nothing on the other side either: where it leans
    // there, its own entry goes there, and the new one takes its place.
    pub(crate) fn add(
        &mut self,
        color: Color,
        alloc: A,
        side: Side,
        lean: Side,
        entry: Rc<Entry<K, V>, A>,
        steps: &mut Steps,
    ) -> Result<Growth, AllocError>
        requires even { IsEven (painted color self.old) }
        requires empty { near_side (is_right side) self.old ≡ leaf }
        ensures ok { let old = self.old in
            let right = is_right side in
            let near = pair_of entry.value ∷ [] in
            let pairs = joined right near (pair_of old.entry.value) (far_side right old).entries in
            IfOk result (λ growth. IsGrownTo pairs (painted color old) lean growth (painted color self.new)) }
        ensures err { OnErr result (self.new ≡ self.old) }
        ensures steps { IsWithin 0 1 steps.old steps.new }
    {
        match color {
            Color::Black => {
                *self.near_mut(side) = Tree::of_entry(alloc, Color::Red, entry, steps)?;
                Ok(Growth::Added)
            }
            Color::Red => {
                if lean.is(side) {
                    *self.near_mut(side) = Tree::of_entry(alloc, Color::Black, entry, steps)?;
                } else {
                    let beyond = self.entry.clone()?;
                    *self.far_mut(side) = Tree::of_entry(alloc, Color::Black, beyond, steps)?;
                    self.entry = entry;
                }
                Ok(Growth::AddedTaller)
            }
        }
    }
}

// Whether a node of the color stays as it is over a side that grew so: that isn't taller, or the node is red and leans to it.
#[inline(always)]
pub(crate) fn stays(grown: &Result<Growth, AllocError>, color: Color, leans: bool) -> bool
    ensures { result ≡ stays_of grown.now color leans }
{
    match grown {
        Ok(Growth::Replaced) => true,
        Ok(Growth::Added) => true,
        Ok(Growth::AddedTaller) => match color {
            Color::Red => leans,
            Color::Black => false,
        },
        Err(_) => true,
    }
}

// Counts the pair that was added, where one was.
#[inline(always)]
pub(crate) fn count_added(grown: &Result<Growth, AllocError>, count: &mut u32)
    ensures { counted count.old ≡ count.old → count.new ≡ counted (count.old + added_by grown.now) }
{
    match grown {
        Ok(Growth::Replaced) => {}
        Ok(Growth::Added) => *count = count.wrapping_add(1),
        Ok(Growth::AddedTaller) => *count = count.wrapping_add(1),
        Err(_) => {}
    }
}

// Whether a pair was added.
#[inline(always)]
pub(crate) fn was_added(grown: Result<Growth, AllocError>) -> Result<bool, AllocError>
    ensures { result ≡ added_of grown }
{
    match grown {
        Ok(Growth::Replaced) => Ok(false),
        Ok(Growth::Added) => Ok(true),
        Ok(Growth::AddedTaller) => Ok(true),
        Err(error) => Err(error),
    }
}

// Whether both colors are black.
#[inline(always)]
pub(crate) fn are_black(a: Color, b: Color) -> bool
    ensures yes { result ≡ true → (a ≡ Black) × (b ≡ Black) }
    ensures no { result ≡ false → a ≡ Black → b ≢ Black }
{
    match a {
        Color::Red => false,
        Color::Black => match b {
            Color::Red => false,
            Color::Black => true,
        },
    }
}

impl<K: Ord + Drop, V: Drop, A: Allocator + Copy> Tree<K, V, A> {
    /// Puts the entry's pair into the tree, and returns whether its key is new. Nodes that it shares with no other tree are changed
    /// in place. The error means that memory ran out, and leaves what the tree holds.
    pub fn insert_counted(
        &mut self,
        alloc: A,
        entry: Rc<Entry<K, V>, A>,
        steps: &mut Steps,
    ) -> Result<bool, AllocError>
        requires ascending { IsAscending K.cmp self.old.entries }
        ensures pairs { OnOk result (self.new.entries ≡ put K.cmp (pair_of entry.value) self.old.entries) }
        ensures count { IfOk result (λ added.
            length self.new.entries ≡ length self.old.entries + (if added then 1 else 0)) }
        ensures black { OnOk result (self.new.color ≡ Black) }
        ensures err { OnErr result (map_of self.new ≡ map_of self.old) }
        ensures steps { IsWithin self.old.depth (self.old.depth + 1) steps.old steps.new }
        ensures makes { OnOk result (steps.old.made < steps.new.made) }
        ensures compares { OnOk result (self.old.entries ≢ []
            → steps.old.compared < steps.new.compared) }
    {
        self.place(alloc, OwnKey, entry, steps)
    }
}

impl<K: Drop, V: Drop, A: Allocator + Copy> Tree<K, V, A> {
    /// Puts the pair before the one at the position, or behind the last one, among `size` pairs.
    pub fn insert_at(
        &mut self,
        alloc: A,
        size: usize,
        position: usize,
        key: K,
        value: V,
        steps: &mut Steps,
    ) -> Result<(), AllocError>
        requires size { size ≡ length self.old.entries }
        requires within { position ≤ size }
        ensures pairs { OnOk result (self.new.entries ≡ insert self.old.entries position (key, value)) }
        ensures black { OnOk result (self.new.color ≡ Black) }
        ensures err { OnErr result (map_of self.new ≡ map_of self.old) }
        ensures steps { IsWithin self.old.depth (self.old.depth + 1) steps.old steps.new }
        ensures makes { OnOk result (steps.old.made < steps.new.made) }
    {
        let entry = Rc::new(alloc, Entry::new(key, value))?;
        self.place(alloc, Gap { size, position }, entry, steps)?;
        Ok(())
    }

    /// Puts the pair before the first one.
    pub fn insert_first(
        &mut self,
        alloc: A,
        key: K,
        value: V,
        steps: &mut Steps,
    ) -> Result<(), AllocError>
        ensures pairs { OnOk result (self.new.entries ≡ (key, value) ∷ self.old.entries) }
        ensures black { OnOk result (self.new.color ≡ Black) }
        ensures err { OnErr result (map_of self.new ≡ map_of self.old) }
        ensures steps { IsWithin self.old.depth (self.old.depth + 1) steps.old steps.new }
        ensures makes { OnOk result (steps.old.made < steps.new.made) }
    {
        let entry = Rc::new(alloc, Entry::new(key, value))?;
        self.place(alloc, First, entry, steps)?;
        Ok(())
    }

    /// Puts the pair behind the last one.
    pub fn insert_last(
        &mut self,
        alloc: A,
        key: K,
        value: V,
        steps: &mut Steps,
    ) -> Result<(), AllocError>
        ensures pairs { OnOk result (self.new.entries ≡ self.old.entries ++ (key, value) ∷ []) }
        ensures black { OnOk result (self.new.color ≡ Black) }
        ensures err { OnErr result (map_of self.new ≡ map_of self.old) }
        ensures steps { IsWithin self.old.depth (self.old.depth + 1) steps.old steps.new }
        ensures makes { OnOk result (steps.old.made < steps.new.made) }
    {
        let entry = Rc::new(alloc, Entry::new(key, value))?;
        self.place(alloc, Last, entry, steps)?;
        Ok(())
    }

    /// Puts the pair in the place of the one at the position, among `size` pairs.
    pub fn set_at(
        &mut self,
        alloc: A,
        size: usize,
        position: usize,
        key: K,
        value: V,
        steps: &mut Steps,
    ) -> Result<(), AllocError>
        requires size { size ≡ length self.old.entries }
        requires within { position < size }
        ensures pairs { OnOk result (self.new.entries ≡ set self.old.entries position (key, value)) }
        ensures black { OnOk result (self.new.color ≡ Black) }
        ensures err { OnErr result (map_of self.new ≡ map_of self.old) }
        ensures steps { IsWithin self.old.depth (self.old.depth + 1) steps.old steps.new }
        ensures makes { OnOk result (steps.old.made < steps.new.made) }
    {
        let entry = Rc::new(alloc, Entry::new(key, value))?;
        self.place(alloc, At { size, position }, entry, steps)?;
        Ok(())
    }
}
