//! Removal in place: each node on the way down is made the tree's own, and so are the sibling and the nephews that a rotation
//! may need on the way up, so that nothing can be refused once a pair is gone. The sibling is the root of a node's far side,
//! and the near and the far nephew are the roots of its own near and far side.
ghost use Rattle.std.specs.Prelude.{◌≡◌, ◌≢◌, [], ◌+◌, ◌*◌, ◌<◌, ◌≤◌, ◌++◌, if◌then◌else◌, length, max, true, false, is_some, slice_get};
ghost use Rattle.std.specs.Prelude.{IfOk, OnOk, OnErr, MatchResult, Ok, Some};
ghost use Rattle.std.specs.List.{remove};
ghost use Rattle.rpds_core.specs.Counts.{IsWithin};
ghost use Rattle.rpds_red_black.specs.TreeNode.{counted, painted, pairs_of, pair_of, IsEven};
ghost use Rattle.rpds_red_black.specs.OrderedMap.{map_of};
ghost use Rattle.rpds_red_black.specs.Pairs.{IsAscending, find, without};
ghost use Rattle.rpds_red_black.specs.Seeks.{IsSoughtBy};
ghost use Rattle.rpds_red_black.specs.Shape.{leaf};
ghost use Rattle.rpds_red_black.specs.Sides.{faced, is_right, node_of, joined};
ghost use Rattle.rpds_red_black.specs.Take.{got_shorter, has_taken, loss_under, parts_of, restored_of, taken_by, taken_of, under_of};
ghost use Rattle.rpds_red_black.specs.Take.{finds, finds_at, outcome_of, rest, rest_at, IsDarkenedFor, IsReadyAt, IsTaken, IsTakenWithNephew, IsTakenFrom};
ghost use Rattle.rpds_red_black.specs.TreeWalk.{near_side, far_side};
ghost use Rattle.rpds_red_black.specs.declared.seek.Aim.TheVariants.{Here};
ghost use Rattle.rpds_red_black.specs.declared.tree.Color.{Color};
ghost use Rattle.rpds_red_black.specs.declared.tree.Color.TheVariants.{Red, Black};

use crate::rotation::{Side, rotate};
use crate::seek::{Aim, At, AtKey, First, Seek};
use crate::tree::{Color, Link, Node, Tree};
use crate::unique::make_unique;
use rpds_core::key::OrdKey;
use rpds_core::map::entry::Entry;
use rpds_core::steps::Steps;
use std::alloc::{AllocError, Allocator};
use std::mem;
use std::rc::Rc;

/// What a removal did to a tree: nothing, or there is one pair less, and there may be one black node less on each path.
#[derive(Clone, Copy, Drop)]
pub enum Loss {
    /// Nothing.
    Absent,
    /// It has one pair less.
    Removed,
    /// It has one pair less, and one black node less on each path.
    RemovedShorter,
}

/// A [`Loss`], or that memory was refused. It is one byte, which a caller tests once, where a `Result` of them has two.
#[derive(Clone, Copy, Drop)]
pub(crate) enum Taken {
    Refused,
    Absent,
    Removed,
    RemovedShorter,
}

/// What a node loses over two sides that have lost a black node on each path: a red one becomes black, and so loses none.
fn darken(color: &mut Color) -> Taken
    ensures loss { outcome_of result ≡ Ok (loss_under color.old) }
    ensures black { color.new ≡ Black }
{
    match *color {
        Color::Red => {
            *color = Color::Black;
            Taken::Removed
        }
        Color::Black => Taken::RemovedShorter,
    }
}

/// Whether there is one black node less on each path.
#[inline(always)]
fn is_shorter(taken: Taken) -> bool
    ensures { result ≡ got_shorter (outcome_of taken) }
{
    match taken {
        Taken::Refused => false,
        Taken::Absent => false,
        Taken::Removed => false,
        Taken::RemovedShorter => true,
    }
}

/// Whether there is one pair less.
#[inline(always)]
fn is_taken(taken: Taken) -> bool
    ensures { result ≡ has_taken (outcome_of taken) }
{
    match taken {
        Taken::Refused => false,
        Taken::Absent => false,
        Taken::Removed => true,
        Taken::RemovedShorter => true,
    }
}

/// Counts off the pair that was taken, where one was.
#[inline(always)]
fn count_taken(taken: Taken, count: &mut u32)
    ensures { counted count.old ≡ count.old → (counted count.new ≡ count.new)
        × (counted (count.new + taken_by (outcome_of taken)) ≡ count.old) }
{
    if is_taken(taken) {
        *count = count.wrapping_sub(1);
    }
}

/// The loss of a node, whose shorter side a rotation has made up for.
#[inline(always)]
fn restored(taken: Taken) -> Taken
    ensures { outcome_of result ≡ restored_of (outcome_of taken) }
{
    match taken {
        Taken::Refused => Taken::Refused,
        Taken::Absent => Taken::Absent,
        Taken::Removed => Taken::Removed,
        Taken::RemovedShorter => Taken::Removed,
    }
}

/// The loss of a node of the color, where both its sides have lost as much.
#[inline(always)]
fn lost_under(taken: Taken, color: &mut Color) -> Taken
    ensures loss { outcome_of result ≡ under_of color.old (outcome_of taken) }
    ensures black { color.new ≡ (if got_shorter (outcome_of taken) then Black else color.old) }
{
    match taken {
        Taken::Refused => Taken::Refused,
        Taken::Absent => Taken::Absent,
        Taken::Removed => Taken::Removed,
        Taken::RemovedShorter => darken(color),
    }
}

/// Whether the pair was there.
#[inline(always)]
fn was_there(taken: Taken) -> Result<bool, AllocError>
    ensures { result ≡ taken_of (outcome_of taken) }
{
    match taken {
        Taken::Refused => Err(AllocError),
        Taken::Absent => Ok(false),
        Taken::Removed => Ok(true),
        Taken::RemovedShorter => Ok(true),
    }
}

/// Puts a node's own entry back where the removal was refused.
#[inline(always)]
fn put_back<K: Drop, V: Drop, A: Allocator>(
    taken: Taken,
    entry: &mut Rc<Entry<K, V>, A>,
    own: Rc<Entry<K, V>, A>,
)
    ensures ok { IfOk (outcome_of taken) (λ _. entry.new ≡ entry.old) }
    ensures err { OnErr (outcome_of taken) (entry.new ≡ own) }
{
    if let Taken::Refused = taken {
        *entry = own;
    }
}

/// Rotates a node of these parts to the side, where that is asked.
#[inline(always)]
fn rotate_if<K, V, A: Allocator>(
    asked: bool,
    side: Side,
    far: &mut Node<K, V, A>,
    entry: &mut Rc<Entry<K, V>, A>,
    near: &mut Tree<K, V, A>,
)
    ensures below { let right = is_right side in
        let turned = faced right near.old entry.old (near_side right far.old) in
        far.new ≡ (if asked then turned else far.old) }
    ensures above { entry.new ≡ (if asked then far.old.entry else entry.old) }
    ensures beside { near.new ≡ (if asked then far_side (is_right side) far.old else near.old) }
{
    if asked {
        rotate(side, far, entry, near);
    }
}

/// Swaps two trees, where that is asked.
#[inline(always)]
fn swap_if<K, V, A: Allocator>(asked: bool, a: &mut Tree<K, V, A>, b: &mut Tree<K, V, A>)
    ensures a { a.new ≡ (if asked then b.old else a.old) }
    ensures b { b.new ≡ (if asked then a.old else b.old) }
{
    if asked {
        mem::swap(a, b);
    }
}

/// Changes a node's own color, where that is asked.
#[inline(always)]
fn paint_if(asked: bool, own: &mut Color, color: Color)
    ensures { own.new ≡ (if asked then color else own.old) }
{
    if asked {
        *own = color;
    }
}

impl<K, V, A: Allocator> Node<K, V, A> {
    /// Counts its pairs anew, where that is asked.
    #[inline(always)]
    fn recount_if(&self, asked: bool, count: &mut u32)
        ensures { count.new ≡ (if asked then counted (length (pairs_of self.now)) else count.old) }
    {
        if asked {
            *count = self.count();
        }
    }

    /// Whether the node's own pair is the one that is found, and no side is left without it.
    #[inline(always)]
    fn is_last<S: Copy + Drop>(&self, aim: Aim<S>) -> bool
        ensures yes { result ≡ true → (aim ≡ Here) × (self.now.left ≡ leaf) × (self.now.right ≡ leaf) }
        ensures no { result ≡ false → aim ≡ Here → 0 < self.now.left.depth + self.now.right.depth }
    {
        match aim {
            Aim::Here => self.left.is_leaf() && self.right.is_leaf(),
            Aim::Left(_) => false,
            Aim::Right(_) => false,
        }
    }
}

impl<K: Drop, V: Drop, A: Allocator + Copy> Tree<K, V, A> {
    /// The entry of the least key, which gets one more owner.
    pub(crate) fn share_first_entry(&self) -> Result<Rc<Entry<K, V>, A>, AllocError>
        requires { 0 < self.now.depth }
        ensures { IfOk result (λ entry. slice_get self.now.entries 0 ≡ Some (pair_of entry.value)) }
    {
        match self.first_entry() {
            None => unreachable!(),
            Some(entry) => entry.clone(),
        }
    }
}

impl<K: Drop, V: Drop, A: Allocator + Copy> Node<K, V, A> {
    /// Takes the node's own pair out: its only child, which is on the side, takes its place.
    // Cold, as `replace_by_successor`: few of the levels of a path come here.
    #[cold]
    fn replace_by_child(&mut self, side: Side) -> Taken
        requires near { 0 < (near_side (is_right side) self.old).depth }
        requires far { far_side (is_right side) self.old ≡ leaf }
        ensures { let pairs = self.old.left.entries ++ self.old.right.entries in
            MatchResult (outcome_of result) (λ loss. (color : Color) → IsEven (painted color self.old)
            → IsTakenFrom pairs true (painted color self.old) loss (painted color self.new))
            (λ _. self.new ≡ self.old) }
    {
        let Link::Branch(_, _, child) = &self.near(side).root else {
            unreachable!();
        };
        let child: &Node<K, V, A> = child;
        let Ok(below) = child.copy() else {
            return Taken::Refused;
        };
        self.left = below.left;
        self.entry = below.entry;
        self.right = below.right;
        Taken::Removed
    }

    /// Takes the node's own pair out: its successor, the first pair of the right side, takes its place.
    #[cold]
    fn replace_by_successor(&mut self, color: &mut Color, steps: &mut Steps) -> Taken
        requires even { IsEven (painted color.old self.old) }
        requires right { 0 < self.old.right.depth }
        ensures taken { let pairs = self.old.left.entries ++ self.old.right.entries in
            let old = painted color.old self.old in
            MatchResult (outcome_of result) (λ loss. IsTakenFrom pairs true old loss (painted color.new self.new))
            (λ _. (self.new ≡ self.old) × (color.new ≡ color.old)) }
        ensures steps { IsWithin self.old.right.depth
            (4 * self.old.right.depth + 3) steps.old steps.new }
    {
        let Ok(next) = self.right.share_first_entry() else {
            return Taken::Refused;
        };
        let own = mem::replace(&mut self.entry, next);
        let (near, far) = (&mut self.right, &mut self.left);
        let entry = &mut self.entry;
        let taken = take_from_near(Side::Right, near, entry, far, color, First, steps);
        put_back(taken, &mut self.entry, own);
        taken
    }

    /// Takes the node's own pair out, where another pair is left.
    #[inline(always)]
    fn take_own(&mut self, color: &mut Color, steps: &mut Steps) -> Taken
        requires others { 0 < self.old.left.depth + self.old.right.depth }
        requires even { IsEven (painted color.old self.old) }
        ensures taken { let pairs = self.old.left.entries ++ self.old.right.entries in
            let old = painted color.old self.old in
            MatchResult (outcome_of result) (λ loss. IsTakenFrom pairs true old loss (painted color.new self.new))
            (λ _. (self.new ≡ self.old) × (color.new ≡ color.old)) }
        ensures steps { let below = max self.old.left.depth self.old.right.depth in
            IsWithin below (4 * below + 3) steps.old steps.new }
    {
        if self.right.is_leaf() {
            return self.replace_by_child(Side::Left);
        }
        if self.left.is_leaf() {
            return self.replace_by_child(Side::Right);
        }
        self.replace_by_successor(color, steps)
    }
}

/// Takes the pair that is found out of the near side of a node, where the far nephew is red: it becomes black where the near
/// side got shorter.
#[cycle(take)]
#[inline(always)]
fn take_with_red_far_nephew<K: Drop, V: Drop, A: Allocator + Copy, S: TakeFound<K, V, A>>(
    near: &mut Tree<K, V, A>,
    far_nephew: &mut Tree<K, V, A>,
    sought: S,
    steps: &mut Steps,
) -> Taken
    requires red { far_nephew.old.color ≡ Red }
    requires ready { S.ready sought near.old.entries }
    ensures taken { MatchResult (outcome_of result) (λ loss. IsTaken S.looks sought near.old loss near.new
        × IsDarkenedFor loss far_nephew.old far_nephew.new)
        (λ _. (near.new ≡ near.old) × (far_nephew.new ≡ far_nephew.old)) }
    ensures steps { IsWithin near.old.depth (4 * near.old.depth) steps.old steps.new }
{
    far_nephew.prove_sound_in_black();
    let Link::Branch(own, _, _) = &mut far_nephew.root else {
        unreachable!();
    };
    let taken = take(near, sought, steps);
    paint_if(is_shorter(taken), own, Color::Black);
    taken
}

/// Takes the pair that is found out of the near side of a node, where the near nephew is red: it goes up into the place of
/// the node's own entry where the near side got shorter.
#[cycle(take)]
#[inline(always)]
fn take_with_red_near_nephew<K: Drop, V: Drop, A: Allocator + Copy, S: TakeFound<K, V, A>>(
    side: Side,
    near: &mut Tree<K, V, A>,
    entry: &mut Rc<Entry<K, V>, A>,
    near_nephew: &mut Tree<K, V, A>,
    sought: S,
    steps: &mut Steps,
) -> Taken
    requires red { near_nephew.old.color ≡ Red }
    requires lower { near.old.black ≡ near_nephew.old.black + 1 }
    requires ready { S.ready sought near.old.entries }
    ensures taken { let old = parts_of near.old entry.old near_nephew.old in
        let new = parts_of near.new entry.new near_nephew.new in
        MatchResult (outcome_of result) (λ loss. IsTakenWithNephew (is_right side) S.looks sought old loss new)
        (λ _. (near.new ≡ near.old) × (entry.new ≡ entry.old) × (near_nephew.new ≡ near_nephew.old)) }
    ensures steps { IsWithin near.old.depth (4 * near.old.depth + 1) steps.old steps.new }
{
    let Link::Branch(own, count, root) = &mut near_nephew.root else {
        unreachable!();
    };
    let Ok(root) = make_unique(root, steps) else {
        return Taken::Refused;
    };
    root.prove_sound();
    let taken = take(near, sought, steps);
    near.prove_sound();
    let shorter = is_shorter(taken);
    rotate_if(shorter, side, root, entry, near);
    paint_if(shorter, own, Color::Black);
    root.recount_if(shorter, count);
    swap_if(shorter, near_nephew, near);
    restored(taken)
}

/// Takes the pair that is found out of the near side of a node of these parts, where the sibling is black.
#[cycle(take)]
#[inline(always)]
fn take_with_black_sibling<K: Drop, V: Drop, A: Allocator + Copy, S: TakeFound<K, V, A>>(
    side: Side,
    near: &mut Tree<K, V, A>,
    entry: &mut Rc<Entry<K, V>, A>,
    far: &mut Tree<K, V, A>,
    color: &mut Color,
    sought: S,
    steps: &mut Steps,
) -> Taken
    requires even { IsEven (node_of (is_right side) color.old near.old entry.old far.old) }
    requires black { far.old.color ≡ Black }
    requires node { 0 < far.old.black }
    requires ready { S.ready sought near.old.entries }
    ensures taken { let right = is_right side in
        let old = node_of right color.old near.old entry.old far.old in
        let new = node_of right color.new near.new entry.new far.new in
        let left = rest S.looks sought near.old.entries in
        let pairs = joined right left (pair_of entry.old.value) far.old.entries in
        let there = finds S.looks sought near.old.entries in
        MatchResult (outcome_of result) (λ loss. IsTakenFrom pairs there old loss new)
        (λ _. (near.new ≡ near.old) × (entry.new ≡ entry.old)
        × (far.new ≡ far.old) × (color.new ≡ color.old)) }
    ensures steps { IsWithin near.old.depth (4 * near.old.depth + 2) steps.old steps.new }
{
    let Link::Branch(own, count, root) = &mut far.root else {
        unreachable!();
    };
    let Ok(sibling) = make_unique(root, steps) else {
        return Taken::Refused;
    };
    sibling.prove_sound();
    if sibling.far(side).has_red_root() {
        let taken = take_with_red_far_nephew(near, sibling.far_mut(side), sought, steps);
        near.prove_sound();
        let shorter = is_shorter(taken);
        rotate_if(shorter, side, sibling, entry, near);
        sibling.recount_if(shorter, count);
        swap_if(shorter, far, near);
        return restored(taken);
    }
    if sibling.near(side).has_red_root() {
        let near_nephew = sibling.near_mut(side);
        let taken = take_with_red_near_nephew(side, near, entry, near_nephew, sought, steps);
        sibling.prove_sound();
        *count = sibling.count();
        return taken;
    }
    let taken = take(near, sought, steps);
    paint_if(is_shorter(taken), own, Color::Red);
    lost_under(taken, color)
}

/// Takes the pair that is found out of the near side of a black node of these parts, where the sibling is red. Once the pair is
/// gone the sibling is rotated up: the node is red below it then, and has the near nephew, which is black, as its sibling. It is
/// balanced as if it had been there before.
#[cycle(take)]
#[inline(always)]
fn take_with_red_sibling<K: Drop, V: Drop, A: Allocator + Copy, S: TakeFound<K, V, A>>(
    side: Side,
    near: &mut Tree<K, V, A>,
    entry: &mut Rc<Entry<K, V>, A>,
    far: &mut Tree<K, V, A>,
    sought: S,
    steps: &mut Steps,
) -> Taken
    requires level { near.old.black ≡ far.old.black }
    requires red { far.old.color ≡ Red }
    requires black { near.old.color ≡ Black }
    requires node { 0 < near.old.black }
    requires ready { S.ready sought near.old.entries }
    ensures taken { let right = is_right side in
        let old = node_of right Black near.old entry.old far.old in
        let new = node_of right Black near.new entry.new far.new in
        let left = rest S.looks sought near.old.entries in
        let pairs = joined right left (pair_of entry.old.value) far.old.entries in
        let there = finds S.looks sought near.old.entries in
        MatchResult (outcome_of result) (λ loss. IsTakenFrom pairs there old loss new)
        (λ _. (near.new ≡ near.old) × (entry.new ≡ entry.old) × (far.new ≡ far.old)) }
    ensures steps { IsWithin near.old.depth (4 * near.old.depth + 3) steps.old steps.new }
{
    let Link::Branch(own, count, root) = &mut far.root else {
        unreachable!();
    };
    let Ok(sibling) = make_unique(root, steps) else {
        return Taken::Refused;
    };
    sibling.prove_sound();
    let mut color = Color::Red;
    let near_nephew = sibling.near_mut(side);
    let taken = take_with_black_sibling(side, near, entry, near_nephew, &mut color, sought, steps);
    near.prove_sound();
    sibling.prove_sound();
    let removed = is_taken(taken);
    rotate_if(removed, side, sibling, entry, near);
    paint_if(removed, own, color);
    sibling.recount_if(removed, count);
    swap_if(removed, far, near);
    taken
}

/// Takes the pair that is found out of the near side of a node of these parts.
#[cycle(take)]
#[inline(always)]
fn take_from_near<K: Drop, V: Drop, A: Allocator + Copy, S: TakeFound<K, V, A>>(
    side: Side,
    near: &mut Tree<K, V, A>,
    entry: &mut Rc<Entry<K, V>, A>,
    far: &mut Tree<K, V, A>,
    color: &mut Color,
    sought: S,
    steps: &mut Steps,
) -> Taken
    requires even { IsEven (node_of (is_right side) color.old near.old entry.old far.old) }
    requires ready { S.ready sought near.old.entries }
    ensures taken { let right = is_right side in
        let old = node_of right color.old near.old entry.old far.old in
        let new = node_of right color.new near.new entry.new far.new in
        let left = rest S.looks sought near.old.entries in
        let pairs = joined right left (pair_of entry.old.value) far.old.entries in
        let there = finds S.looks sought near.old.entries in
        MatchResult (outcome_of result) (λ loss. IsTakenFrom pairs there old loss new)
        (λ _. (near.new ≡ near.old) × (entry.new ≡ entry.old)
        × (far.new ≡ far.old) × (color.new ≡ color.old)) }
    ensures steps { IsWithin near.old.depth (4 * near.old.depth + 3) steps.old steps.new }
{
    if !near.has_black_root() {
        return take(near, sought, steps);
    }
    if far.has_red_root() {
        take_with_red_sibling(side, near, entry, far, sought, steps)
    } else {
        take_with_black_sibling(side, near, entry, far, color, sought, steps)
    }
}

/// Takes the pair that is found out of the tree of this node, with where that lies: another pair is left.
#[cycle(take)]
#[inline(always)]
fn take_in<K: Drop, V: Drop, A: Allocator + Copy, S: TakeFound<K, V, A>>(
    node: &mut Node<K, V, A>,
    color: &mut Color,
    aim: Aim<S>,
    steps: &mut Steps,
) -> Taken
    requires ready { IsReadyAt S.ready node.old aim }
    requires found { aim ≡ Here → S.found_at node.old }
    requires others { aim ≡ Here → 0 < node.old.left.depth + node.old.right.depth }
    requires even { IsEven (painted color.old node.old) }
    ensures taken { let old = painted color.old node.old in
        let left = rest_at S.looks node.old aim in
        let there = finds_at S.looks node.old aim in
        MatchResult (outcome_of result) (λ loss. IsTakenFrom left there old loss (painted color.new node.new))
        (λ _. (node.new ≡ node.old) × (color.new ≡ color.old)) }
    ensures steps { let below = max node.old.left.depth node.old.right.depth in
        IsWithin below (4 * below + 3) steps.old steps.new }
{
    match aim {
        Aim::Here => S::take_found(node, color, steps),
        Aim::Left(below) => {
            let (near, far) = (&mut node.left, &mut node.right);
            let entry = &mut node.entry;
            take_from_near(Side::Left, near, entry, far, color, below, steps)
        }
        Aim::Right(below) => {
            let (near, far) = (&mut node.right, &mut node.left);
            let entry = &mut node.entry;
            take_from_near(Side::Right, near, entry, far, color, below, steps)
        }
    }
}

/// Takes the pair that is found out of the tree.
#[cycle(take)]
fn take<K: Drop, V: Drop, A: Allocator + Copy, S: TakeFound<K, V, A>>(
    tree: &mut Tree<K, V, A>,
    sought: S,
    steps: &mut Steps,
) -> Taken
    requires ready { S.ready sought tree.old.entries }
    ensures taken { MatchResult (outcome_of result) (λ loss. IsTaken S.looks sought tree.old loss tree.new)
        (λ _. tree.new ≡ tree.old) }
    ensures steps { IsWithin tree.old.depth (4 * tree.old.depth) steps.old steps.new }
{
    let Link::Branch(color, count, root) = &mut tree.root else {
        return Taken::Absent;
    };
    let Ok(root) = make_unique(root, steps) else {
        return Taken::Refused;
    };
    let aim = sought.aim(root, steps);
    if root.is_last(aim) {
        let loss = darken(color);
        tree.root = Link::Leaf;
        return loss;
    }
    let taken = take_in(root, color, aim, steps);
    root.prove_sound();
    count_taken(taken, count);
    taken
}

impl<K: Drop, V: Drop, A: Allocator + Copy> Tree<K, V, A> {
    /// Takes the pair that is found out of the tree, and returns whether there was one.
    fn take_sought<S: TakeFound<K, V, A>>(
        &mut self,
        sought: S,
        steps: &mut Steps,
    ) -> Result<bool, AllocError>
        requires ready { S.ready sought self.old.entries }
        ensures pairs { OnOk result (self.new.entries ≡ rest S.looks sought self.old.entries) }
        ensures found { IfOk result (λ there. there ≡ finds S.looks sought self.old.entries) }
        ensures absent { result ≡ Ok false → map_of self.new ≡ map_of self.old }
        ensures black { OnOk result (self.new.color ≡ Black) }
        ensures err { OnErr result (map_of self.new ≡ map_of self.old) }
        ensures steps { IsWithin self.old.depth (4 * self.old.depth) steps.old steps.new }
        ensures compares { self.old.entries ≢ [] → steps.old.compared + S.compares ≤ steps.new.compared }
    {
        let Link::Branch(color, count, root) = &mut self.root else {
            return Ok(false);
        };
        let aim = sought.aim(root, steps);
        let root = make_unique(root, steps)?;
        if root.is_last(aim) {
            self.root = Link::Leaf;
            return Ok(true);
        }
        *color = Color::Black;
        let taken = take_in(root, color, aim, steps);
        root.prove_sound();
        count_taken(taken, count);
        was_there(taken)
    }

    /// Takes the pair at the position out of the tree, among `size` pairs. Nodes that it shares with no other tree are changed in
    /// place. The error means that memory ran out, and leaves what the tree holds.
    pub fn take_at(
        &mut self,
        size: usize,
        position: usize,
        steps: &mut Steps,
    ) -> Result<(), AllocError>
        requires size { size ≡ length self.old.entries }
        requires within { position < size }
        ensures pairs { OnOk result (self.new.entries ≡ remove self.old.entries position) }
        ensures black { OnOk result (self.new.color ≡ Black) }
        ensures err { OnErr result (map_of self.new ≡ map_of self.old) }
        ensures steps { IsWithin self.old.depth (4 * self.old.depth) steps.old steps.new }
    {
        self.take_sought(At { size, position }, steps)?;
        Ok(())
    }
}

impl<K: Ord + Drop, V: Drop, A: Allocator + Copy> Tree<K, V, A> {
    /// Takes the pair of the key out of the tree, and returns whether it was there. Nodes that it shares with no other tree are
    /// changed in place. The error means that memory ran out, and leaves what the tree holds.
    pub fn take_counted<Q: OrdKey<K>>(
        &mut self,
        key: Q,
        steps: &mut Steps,
    ) -> Result<bool, AllocError>
        requires ascending { IsAscending K.cmp self.old.entries }
        ensures pairs { OnOk result (self.new.entries ≡ without Q.order (Q.seen key) self.old.entries) }
        ensures found { IfOk result (λ there.
            there ≡ is_some (find Q.order (Q.seen key) self.old.entries)) }
        ensures absent { result ≡ Ok false → map_of self.new ≡ map_of self.old }
        ensures black { OnOk result (self.new.color ≡ Black) }
        ensures err { OnErr result (map_of self.new ≡ map_of self.old) }
        ensures steps { IsWithin self.old.depth (4 * self.old.depth) steps.old steps.new }
        ensures compares { self.old.entries ≢ [] → steps.old.compared < steps.new.compared }
    {
        self.take_sought(AtKey { form: key }, steps)
    }
}

/// How a node's own pair is taken out, where that is the one that is found.
pub(crate) trait TakeFound<K: Drop, V: Drop, A: Allocator + Copy>: Seek<K, V, A> {
    ghost use Rattle.rpds_red_black.specs.declared.tree.Node.{Node};

    /// What holds of a node whose own pair is found.
    ghost found_at: { Node K V A → Type 0 };

    /// Takes the node's own pair out, where another pair is left.
    fn take_found(node: &mut Node<K, V, A>, color: &mut Color, steps: &mut Steps) -> Taken
        requires found { found_at node.old }
        requires others { 0 < node.old.left.depth + node.old.right.depth }
        requires even { IsEven (painted color.old node.old) }
        ensures taken { let pairs = node.old.left.entries ++ node.old.right.entries in
            let old = painted color.old node.old in
            MatchResult (outcome_of result) (λ loss. IsTakenFrom pairs true old loss (painted color.new node.new))
            (λ _. (node.new ≡ node.old) × (color.new ≡ color.old)) }
        ensures steps { let below = max node.old.left.depth node.old.right.depth in
            IsWithin below (4 * below + 3) steps.old steps.new };

    /// It does, where the search ends.
    ghost ends: { (s : Self) (n : Node K V A) → IsSoughtBy Self.ready Self.looks s n Here → found_at n };
}

impl<K: Drop, V: Drop, A: Allocator + Copy> TakeFound<K, V, A> for At {
    ghost found_at = { λ n. Unit {0} };

    #[inline(always)]
    fn take_found(node: &mut Node<K, V, A>, color: &mut Color, steps: &mut Steps) -> Taken {
        node.take_own(color, steps)
    }

    ghost ends = { λ s n h. tt };
}

impl<K: Ord + Drop, V: Drop, A: Allocator + Copy, Q: OrdKey<K>> TakeFound<K, V, A> for AtKey<Q> {
    ghost found_at = { λ n. Unit {0} };

    #[inline(always)]
    fn take_found(node: &mut Node<K, V, A>, color: &mut Color, steps: &mut Steps) -> Taken {
        node.take_own(color, steps)
    }

    ghost ends = { λ s n h. tt };
}

impl<K: Drop, V: Drop, A: Allocator + Copy> TakeFound<K, V, A> for First {
    ghost use Rattle.std.proofs.Common.{sym};

    ghost found_at = { λ n. n.left.entries ≡ [] };

    // The first pair has none on its left.
    #[inline(always)]
    fn take_found(node: &mut Node<K, V, A>, _color: &mut Color, _steps: &mut Steps) -> Taken {
        node.left.prove_held();
        if node.left.is_leaf() {
            node.replace_by_child(Side::Right)
        } else {
            unreachable!()
        }
    }

    ghost ends = { λ s n h. sym h.0 };
}
