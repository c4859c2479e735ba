//! A walk from one end of a tree.
ghost use Rattle.std.specs.Prelude.{◌≡◌, ◌+◌, ◌<◌, ◌≤◌, ◌∷◌, ◌++◌, [], Bool, false, true, drop, filter, length, slice_get, ⊤};
ghost use Rattle.std.specs.Option.{option_copied};
ghost use Rattle.std.specs.Map.{keys_of};
ghost use Rattle.std.specs.Map.Iter.{deref_pair};
ghost use Rattle.rpds_red_black.specs.Pairs.{IsAscending};
ghost use Rattle.std.specs.Range.Bound.{bound_map};
ghost use Rattle.rpds_red_black.specs.Ranges.{is_from, within_forms};
ghost use Rattle.rpds_core.specs.WalkStack.{from_top, HasRoom};
ghost use Rattle.rpds_red_black.specs.Shape.{leaf};
ghost use Rattle.rpds_red_black.specs.TreeNode.{pair_of};
ghost use Rattle.rpds_red_black.specs.TreeWalk.{along, form_along, near_side, far_side, given, upcoming, IsUpcoming, Fits};

use crate::positions::gives_counted;
use crate::tree::{Node, Tree};
use rpds_core::key::OrdKey;
use rpds_core::map::entry::Entry;
use rpds_core::steps::Steps;
use rpds_core::tall_stack::TallStack;
use std::alloc::{AllocError, Allocator};
use std::cmp::Ordering;
use std::marker::{Model, PhantomData};
use std::ops::Bound;
use std::rc::Rc;

/// The end that a walk starts at.
pub trait Direction {
    /// Whether that is the back.
    ghost back: { Bool };

    /// The side of a node that comes before the node's own entry.
    fn near<K, V, A: Allocator>(node: &Node<K, V, A>) -> &Tree<K, V, A>
        ensures { result.now ≡ near_side back node.now };

    /// The side that comes after it.
    fn far<K, V, A: Allocator>(node: &Node<K, V, A>) -> &Tree<K, V, A>
        ensures { result.now ≡ far_side back node.now };

    /// How a form of a key and a key are. The comparison is counted.
    fn compare_form<K: Ord, Q: OrdKey<K>>(form: Q, key: &K, steps: &mut Steps) -> Ordering
        ensures order { result ≡ form_along back Q.order Q.turned (Q.seen form) key.now }
        ensures compared { steps.new ≡ record steps.old { compared = steps.old.compared + 1 } };
}

/// From the first pair on.
pub struct Forward;

impl Direction for Forward {
    ghost back = { false };

    fn near<K, V, A: Allocator>(node: &Node<K, V, A>) -> &Tree<K, V, A> {
        &node.left
    }

    fn far<K, V, A: Allocator>(node: &Node<K, V, A>) -> &Tree<K, V, A> {
        &node.right
    }

    #[inline(always)]
    fn compare_form<K: Ord, Q: OrdKey<K>>(form: Q, key: &K, steps: &mut Steps) -> Ordering {
        steps.compare_form(form, key)
    }
}

/// From the last pair on, back.
pub struct Backward;

impl Direction for Backward {
    ghost back = { true };

    fn near<K, V, A: Allocator>(node: &Node<K, V, A>) -> &Tree<K, V, A> {
        &node.right
    }

    fn far<K, V, A: Allocator>(node: &Node<K, V, A>) -> &Tree<K, V, A> {
        &node.left
    }

    #[inline(always)]
    fn compare_form<K: Ord, Q: OrdKey<K>>(form: Q, key: &K, steps: &mut Steps) -> Ordering {
        steps.compare_form(form, key).reverse()
    }
}

// No path is longer than 128 nodes.
type Nodes<'a, K, V, A> = TallStack<&'a Node<K, V, A>, 128>;

/// A walk over a tree from one end, seen as the list of the pairs that it has still to give.
///
/// What comes next is a tree, and on the stack are the nodes whose own entry and far side come after it, the next one on top.
/// A walk goes down a tree when it is asked for its first entry.
#[derive(Drop)]
pub struct Walk<'a, K, V, A: Allocator, D: Direction> {
    rest: &'a Tree<K, V, A>,
    stack: Nodes<'a, K, V, A>,
    direction: PhantomData<D>,
}

impl<'a, K, V, A: Allocator, D: Direction> Model for Walk<'a, K, V, A, D> {
    ghost use Rattle.std.specs.Prelude.{List, ◌++◌};
    ghost use Rattle.rpds_core.specs.WalkStack.{from_top};
    ghost use Rattle.rpds_red_black.specs.TreeWalk.{along, given, HasPlaces};

    ghost Value = { List (K × V) };

    ghost view = { λ w. along D.back w.rest.now.entries ++ from_top (given D.back) w.stack };

    ghost invariant = { λ w. HasPlaces D.back w.rest.now w.stack };
}

impl<'a, K, V, A: Allocator, D: Direction> Walk<'a, K, V, A, D> {
    /// A walk that gives all entries of the tree.
    #[inline(always)]
    pub fn over(tree: &'a Tree<K, V, A>) -> Walk<'a, K, V, A, D>
        requires { tree.now.depth ≤ 128 }
        ensures { result ≡ along D.back tree.now.entries }
    {
        Walk {
            rest: tree,
            stack: TallStack::new(),
            direction: PhantomData,
        }
    }

    /// The next entry.
    #[inline(always)]
    pub fn next(&mut self) -> (&'a K, &'a V)
        requires { 0 < length self.old }
        ensures { self.old ≡ deref_pair result ∷ self.new }
    {
        let entry: &'a Entry<K, V> = self.next_entry();
        (&entry.key, &entry.value)
    }

    /// The next entry, which may get one more owner.
    #[inline(always)]
    pub fn next_entry(&mut self) -> &'a Rc<Entry<K, V>, A>
        requires { 0 < length self.old }
        ensures { self.old ≡ pair_of result.now.value ∷ self.new }
    {
        match nearest::<K, V, A, D>(&mut self.stack, self.rest) {
            None => unreachable!(),
            Some(node) => {
                self.rest = D::far(node);
                &node.entry
            }
        }
    }
}

impl<'a, K, V, A: Allocator> Walk<'a, K, V, A, Forward> {
    /// Begins it anew in a tree of `size` pairs: it gives those from the position on. It goes down one path.
    pub fn start_at(&mut self, tree: &'a Tree<K, V, A>, size: usize, position: usize)
        requires shallow { tree.now.depth ≤ 128 }
        requires size { size ≡ length tree.now.entries }
        requires within { position ≤ size }
        ensures { self.new ≡ drop position tree.now.entries }
    {
        self.stack = TallStack::new();
        self.rest = push_behind(&mut self.stack, tree, size, position);
    }
}

impl<'a, K, V, A: Allocator, D: Direction> Clone for Walk<'a, K, V, A, D> {
    ghost is_clone = { λ it copy. copy ≡ it };

    ghost is_infallible = { λ _. ⊤ };

    fn clone(&self) -> Result<Walk<'a, K, V, A, D>, AllocError> {
        Ok(Walk {
            rest: self.rest,
            stack: self.stack.clone()?,
            direction: PhantomData,
        })
    }
}

/// A walk whose next node is known, so that its key can be looked at. On the stack are the nodes whose own entry and far side
/// come after that node and its far side.
#[derive(Drop)]
pub struct PeekedWalk<'a, K, V, A: Allocator, D: Direction> {
    next: Option<&'a Node<K, V, A>>,
    stack: Nodes<'a, K, V, A>,
    direction: PhantomData<D>,
}

impl<'a, K, V, A: Allocator, D: Direction> Model for PeekedWalk<'a, K, V, A, D> {
    ghost use Rattle.std.specs.Prelude.{List};
    ghost use Rattle.rpds_core.specs.WalkStack.{from_top};
    ghost use Rattle.rpds_red_black.specs.TreeWalk.{given, upcoming, IsUpcoming, Fits};

    ghost Value = { List (K × V) };

    ghost view = { λ w. from_top (given D.back) (upcoming w.next w.stack) };

    ghost invariant = { λ w. IsUpcoming (Fits D.back) w.next w.stack };
}

impl<'a, K, V, A: Allocator, D: Direction> PeekedWalk<'a, K, V, A, D> {
    /// A walk that hasn't started. It is started where it lies, so that its stack isn't copied.
    pub fn empty() -> PeekedWalk<'a, K, V, A, D>
        ensures { result ≡ [] }
    {
        PeekedWalk {
            next: None,
            stack: TallStack::new(),
            direction: PhantomData,
        }
    }

    /// The key of the next entry.
    #[inline(always)]
    pub fn next_key(&self) -> Option<&'a K>
        ensures { option_copied result ≡ slice_get (keys_of self.now) 0 }
    {
        match self.next {
            None => None,
            Some(node) => {
                let entry: &'a Entry<K, V> = &node.entry;
                Some(&entry.key)
            }
        }
    }

    /// The next entry.
    #[inline(always)]
    pub fn next(&mut self) -> (&'a K, &'a V)
        requires { 0 < length self.old }
        ensures { self.old ≡ deref_pair result ∷ self.new }
    {
        match self.next {
            None => unreachable!(),
            Some(node) => {
                self.next = nearest::<K, V, A, D>(&mut self.stack, D::far(node));
                let entry: &'a Entry<K, V> = &node.entry;
                (&entry.key, &entry.value)
            }
        }
    }
}

impl<'a, K, V, A: Allocator, D: Direction> PeekedWalk<'a, K, V, A, D> {
    /// Starts it at its end of the tree: it gives all entries.
    pub fn start(&mut self, tree: &'a Tree<K, V, A>)
        requires fresh { self.old ≡ [] }
        requires shallow { tree.now.depth ≤ 128 }
        ensures { self.new ≡ along D.back tree.now.entries }
    {
        self.next = nearest::<K, V, A, D>(&mut self.stack, tree);
    }
}

impl<'a, K: Ord, V, A: Allocator, D: Direction> PeekedWalk<'a, K, V, A, D> {
    /// Starts it at a bound, which is a form of a key: it gives the entries of the tree from there on. It compares a key on
    /// each level, and adds to no count.
    pub fn start_from<Q: OrdKey<K>>(&mut self, tree: &'a Tree<K, V, A>, bound: &Bound<Q>)
        requires fresh { self.old ≡ [] }
        requires shallow { tree.now.depth ≤ 128 }
        requires ascending { IsAscending K.cmp tree.now.entries }
        ensures { let gives = is_from (form_along D.back Q.order Q.turned) (bound_map Q.seen bound.now) in
            self.new ≡ filter (λ p. gives p.0) (along D.back tree.now.entries) }
    {
        push_from::<K, V, A, D, Q>(&mut self.stack, tree, bound);
        self.next = self.stack.pop();
    }
}

impl<'a, K, V, A: Allocator, D: Direction> Clone for PeekedWalk<'a, K, V, A, D> {
    ghost is_clone = { λ it copy. copy ≡ it };

    ghost is_infallible = { λ _. ⊤ };

    fn clone(&self) -> Result<PeekedWalk<'a, K, V, A, D>, AllocError> {
        Ok(PeekedWalk {
            next: self.next,
            stack: self.stack.clone()?,
            direction: PhantomData,
        })
    }
}

/// The part of a tree in which all its entries within the bounds lie: the root of that part is within them, or it is empty. It compares
/// at most two keys on each level, and adds to no count.
pub fn narrowed<'a, K: Ord, V, A: Allocator, Q: OrdKey<K>>(
    tree: &'a Tree<K, V, A>,
    start: &Bound<Q>,
    end: &Bound<Q>,
) -> &'a Tree<K, V, A>
    requires { IsAscending K.cmp tree.now.entries }
    ensures within { let inside = within_forms Q.order Q.turned (bound_map Q.seen start.now) (bound_map Q.seen end.now) in
        inside result.now.entries ≡ inside tree.now.entries }
    ensures ascending { IsAscending K.cmp result.now.entries }
    ensures shallow { result.now.depth ≤ tree.now.depth }
{
    let mut tree = tree;
    let steps = &mut Steps::new();
    while let Some(node) = tree.node() {
        let key = &node.entry.key;
        if !gives_counted::<K, Forward, Q>(start, key, steps) {
            tree = &node.right;
        } else if !gives_counted::<K, Backward, Q>(end, key, steps) {
            tree = &node.left;
        } else {
            break;
        }
    }
    tree
}

// The node of a tree's nearest entry, or the node on top where the tree has none. The nodes that lead there are put on top.
#[inline(always)]
fn nearest<'a, K, V, A: Allocator, D: Direction>(
    stack: &mut Nodes<'a, K, V, A>,
    tree: &'a Tree<K, V, A>,
) -> Option<&'a Node<K, V, A>>
    requires room { HasRoom (Fits D.back) stack.old }
    requires fits { length stack.old + tree.now.depth ≤ 128 }
    ensures rest { let rest = from_top (given D.back) in
        rest (upcoming result stack.new) ≡ along D.back tree.now.entries ++ rest stack.old }
    ensures room { IsUpcoming (Fits D.back) result stack.new }
{
    let Some(root) = tree.node() else {
        return stack.pop();
    };
    let mut node = root;
    while let Some(below) = D::near(node).node() {
        stack.push(node);
        node = below;
    }
    Some(node)
}

// Puts the nodes on top that lead to a tree's nearest entry inside a bound.
fn push_from<'a, K: Ord, V, A: Allocator, D: Direction, Q: OrdKey<K>>(
    stack: &mut Nodes<'a, K, V, A>,
    tree: &'a Tree<K, V, A>,
    bound: &Bound<Q>,
)
    requires room { HasRoom (Fits D.back) stack.old }
    requires fits { length stack.old + tree.now.depth ≤ 128 }
    requires ascending { IsAscending K.cmp tree.now.entries }
    ensures rest { let rest = from_top (given D.back) in
        let gives = is_from (form_along D.back Q.order Q.turned) (bound_map Q.seen bound.now) in
        rest stack.new ≡ filter (λ p. gives p.0) (along D.back tree.now.entries) ++ rest stack.old }
    ensures room { HasRoom (Fits D.back) stack.new }
{
    let mut tree = tree;
    let steps = &mut Steps::new();
    while let Some(node) = tree.node() {
        if gives_counted::<K, D, Q>(bound, &node.entry.key, steps) {
            stack.push(node);
            tree = D::near(node);
        } else {
            tree = D::far(node);
        }
    }
}

// Puts the nodes on top that lead to a tree's entries from the position on, of `size` pairs. The path ends at an empty tree, which
// is returned.
fn push_behind<'a, K, V, A: Allocator>(
    stack: &mut Nodes<'a, K, V, A>,
    tree: &'a Tree<K, V, A>,
    size: usize,
    position: usize,
) -> &'a Tree<K, V, A>
    requires room { HasRoom (Fits false) stack.old }
    requires fits { length stack.old + tree.now.depth ≤ 128 }
    requires size { size ≡ length tree.now.entries }
    requires within { position ≤ size }
    ensures rest { let rest = from_top (given false) in
        rest stack.new ≡ drop position tree.now.entries ++ rest stack.old }
    ensures room { HasRoom (Fits false) stack.new }
    ensures fits { length stack.new ≤ 128 }
    ensures end { result.now ≡ leaf }
{
    let mut tree = tree;
    let mut size = size;
    let mut position = position;
    while let Some(node) = tree.node() {
        let before = node.left.len_within(size);
        if position <= before {
            stack.push(node);
            tree = &node.left;
            size = before;
        } else {
            tree = &node.right;
            size -= before + 1;
            position -= before + 1;
        }
    }
    tree
}
