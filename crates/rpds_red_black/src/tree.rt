//! A red-black tree, seen as its pairs, its depth, its black height and the color of its root.
ghost use Rattle.std.specs.Prelude.{◌≡◌, ◌≢◌, ◌+◌, ◌<◌, [], length, IfOk, MatchOption, true, false};
ghost use Rattle.rpds_red_black.specs.TreeNode.{counted, painted, pairs_of, shape_of, pair_of, IsCopy, IsEven, IsRedRoot, IsRoot};
ghost use Rattle.rpds_red_black.specs.Shape.{leaf, branch, IsSound};
ghost use Rattle.rpds_red_black.specs.declared.tree.Color.TheVariants.{Red, Black};

use rpds_core::map::entry::Entry;
use rpds_core::steps::Steps;
use std::alloc::{AllocError, Allocator};
use std::marker::Model;
use std::rc::Rc;

/// The color of a node.
#[derive(Clone, Copy, Drop)]
pub enum Color {
    /// The children of such a node are black.
    Red,
    /// Each path of a tree has as many such nodes.
    Black,
}

/// A red-black tree. Contracts see its pairs in order, the number of nodes on its longest path, that of black nodes on each
/// path, and the color of its root (`Shape`). The order of its keys is no part of it: calls that compare keys require it.
///
/// A root may be red. After Okasaki (Red-Black Trees in a Functional Setting, 1999).
#[cycle(tree)]
#[derive(Drop)]
pub struct Tree<K, V, A: Allocator> {
    pub(crate) root: Link<K, V, A>,
}

// A link to a node holds the node's color, and how many pairs there are in the node's tree, modulo 2^32: both lie beside the
// link's tag, where they take no memory.
#[cycle(tree)]
#[derive(Drop)]
pub(crate) enum Link<K, V, A: Allocator> {
    Leaf,
    Branch(Color, u32, Rc<Node<K, V, A>, A>),
}

/// A node is open: its sides are whole trees, but they may differ in their black height, and it may be red over red.
#[cycle(tree)]
#[derive(Drop)]
pub struct Node<K, V, A: Allocator> {
    pub(crate) left: Tree<K, V, A>,
    pub(crate) entry: Rc<Entry<K, V>, A>,
    pub(crate) right: Tree<K, V, A>,
}

impl<K, V, A: Allocator> Model for Tree<K, V, A> {
    ghost use Rattle.rpds_red_black.specs.Shape.{Shape};

    ghost Value = { Shape K V };

    ghost use Rattle.rpds_red_black.specs.TreeNode.{shape_of_link, IsWhole};

    ghost view = { λ t. shape_of_link t.root };

    ghost invariant = { λ t. IsWhole t.root };

    ghost size = { λ s. s.depth };

    ghost use Rattle.std.proofs.Common.{arith};

    ghost size_decreases = { λ t h. Prim.grind (arith) };
}

impl<K, V, A: Allocator> Tree<K, V, A> {
    /// The empty tree. It allocates nothing.
    pub fn new() -> Tree<K, V, A>
        ensures { result ≡ leaf }
    {
        Tree { root: Link::Leaf }
    }

    /// Without code, for its clause: no path is long.
    pub fn prove_sound(&self)
        ensures { IsSound self.now }
    {
        let _ = &self.root;
    }

    // Without code, for its clause: where there is a root, there are pairs.
    #[inline(always)]
    pub(crate) fn prove_held(&self)
        ensures { 0 < self.now.depth → self.now.entries ≢ [] }
    {
        let _ = &self.root;
    }

    // Without code, for its clause: a red root may become black.
    #[inline(always)]
    pub(crate) fn prove_sound_in_black(&self)
        requires { self.now.color ≡ Red }
        ensures { IsSound (record self.now { black = self.now.black + 1; color = Black }) }
    {
        if let Link::Branch(_, _, node) = &self.root {
            node.prove_sound();
        }
    }

    // How many pairs it has, modulo 2^32.
    #[inline(always)]
    pub(crate) fn count(&self) -> u32
        ensures { result ≡ counted (length self.now.entries) }
    {
        match &self.root {
            Link::Leaf => 0,
            Link::Branch(_, count, _) => *count,
        }
    }

    // The node at its root.
    pub(crate) fn node(&self) -> Option<&Node<K, V, A>>
        ensures { MatchOption result (self.now ≡ leaf)
            (λ n. self.now ≡ shape_of (painted self.now.color n.now)) }
    {
        let Link::Branch(_, _, node) = &self.root else {
            return None;
        };
        Some(node.as_ref())
    }

    #[inline(always)]
    pub(crate) fn is_leaf(&self) -> bool
        ensures yes { result ≡ true → self.now ≡ leaf }
        ensures no { result ≡ false → 0 < self.now.depth }
    {
        match &self.root {
            Link::Leaf => true,
            Link::Branch(_, _, _) => false,
        }
    }

    /// Whether it has no pair.
    #[inline(always)]
    pub fn is_empty(&self) -> bool
        ensures yes { result ≡ true → self.now.entries ≡ [] }
        ensures no { result ≡ false → self.now.entries ≢ [] }
    {
        self.prove_held();
        self.is_leaf()
    }

    /// Whether its root has another owner. No contract can know that: it decides what a call costs, and nothing else.
    #[inline(always)]
    pub fn is_shared(&self) -> bool {
        match &self.root {
            Link::Leaf => false,
            Link::Branch(_, _, root) => Rc::strong_count(root) != 1,
        }
    }

    // Whether there is a root, and it is black.
    pub(crate) fn has_black_root(&self) -> bool
        ensures yes { result ≡ true → (self.now.color ≡ Black) × (0 < self.now.black) }
        ensures no { result ≡ false → self.now.color ≡ Black → self.now.black ≡ 0 }
    {
        // A `match` would test the tag for `Leaf`, and the `let .. else` of a caller then test it again, for `Branch`.
        let Link::Branch(color, _, _) = &self.root else {
            return false;
        };
        match *color {
            Color::Red => false,
            Color::Black => true,
        }
    }

    // Whether there is a root, and it is red.
    pub(crate) fn has_red_root(&self) -> bool
        ensures yes { result ≡ true → self.now.color ≡ Red }
        ensures no { result ≡ false → self.now.color ≡ Black }
    {
        let Link::Branch(color, _, _) = &self.root else {
            return false;
        };
        match *color {
            Color::Red => true,
            Color::Black => false,
        }
    }

    // The node at its root, where that is red.
    #[inline(always)]
    pub(crate) fn red_node(&self) -> Option<&Rc<Node<K, V, A>, A>>
        ensures { MatchOption result (self.now.color ≡ Black) (λ n. IsRedRoot self.now n.now.value) }
    {
        match &self.root {
            Link::Leaf => None,
            Link::Branch(color, _, node) => match *color {
                Color::Red => Some(node),
                Color::Black => None,
            },
        }
    }

    // The node at its root, where there is a black node.
    #[inline(always)]
    pub(crate) fn root_node(&self) -> &Rc<Node<K, V, A>, A>
        requires { 0 < self.now.black }
        ensures { IsRoot self.now result.now.value }
    {
        match &self.root {
            Link::Leaf => unreachable!(),
            Link::Branch(_, _, node) => node,
        }
    }
}

impl<K: Drop, V: Drop, A: Allocator + Copy> Tree<K, V, A> {
    /// Another handle to the same tree. It allocates nothing, and fails only where the root's count of owners is full.
    #[inline(always)]
    pub fn share(&self) -> Result<Tree<K, V, A>, AllocError>
        ensures { IfOk result (λ t. t ≡ self.now) }
    {
        match &self.root {
            Link::Leaf => Ok(Tree { root: Link::Leaf }),
            Link::Branch(color, count, node) => {
                let node = node.clone()?;
                Ok(Tree {
                    root: Link::Branch(*color, *count, node),
                })
            }
        }
    }

    // A tree whose root is the node, of the color. Each node of a tree is made here, and counted.
    #[inline(always)]
    pub(crate) fn from_node(
        alloc: A,
        color: Color,
        node: Node<K, V, A>,
        steps: &mut Steps,
    ) -> Result<Tree<K, V, A>, AllocError>
        requires { IsEven (painted color node) }
        ensures ok { IfOk result (λ t. t ≡ shape_of (painted color node)) }
        ensures steps { steps.new ≡ record steps.old { made = steps.old.made + 1 } }
    {
        node.prove_sound();
        steps.raise_made();
        let count = node.count();
        let node = Rc::new(alloc, node)?;
        Ok(Tree {
            root: Link::Branch(color, count, node),
        })
    }

    // A tree whose root is the node, of the color: an owner of it more, where it has others.
    #[inline(always)]
    pub(crate) fn from_shared(color: Color, node: Rc<Node<K, V, A>, A>) -> Tree<K, V, A>
        requires { IsEven (painted color node.value) }
        ensures { result ≡ shape_of (painted color node.value) }
    {
        let root: &Node<K, V, A> = &node;
        root.prove_sound();
        let count = root.count();
        Tree {
            root: Link::Branch(color, count, node),
        }
    }

    // A tree of one node.
    pub(crate) fn of_entry(
        alloc: A,
        color: Color,
        entry: Rc<Entry<K, V>, A>,
        steps: &mut Steps,
    ) -> Result<Tree<K, V, A>, AllocError>
        ensures ok { IfOk result (λ t. t ≡ branch color leaf (pair_of entry.value) leaf) }
        ensures steps { steps.new ≡ record steps.old { made = steps.old.made + 1 } }
    {
        let node = Node {
            left: Tree::new(),
            entry,
            right: Tree::new(),
        };
        Tree::from_node(alloc, color, node, steps)
    }
}

impl<K, V, A: Allocator> Node<K, V, A> {
    // How many pairs there are in its sides, and its own, modulo 2^32.
    #[inline(always)]
    pub(crate) fn count(&self) -> u32
        ensures { result ≡ counted (length (pairs_of self.now)) }
    {
        self.left
            .count()
            .wrapping_add(self.right.count())
            .wrapping_add(1)
    }

    // Without code, for its clauses: no path below this node is long.
    pub(crate) fn prove_sound(&self)
        ensures left { IsSound self.now.left }
        ensures right { IsSound self.now.right }
    {
        self.left.prove_sound();
        self.right.prove_sound();
    }
}

impl<K: Drop, V: Drop, A: Allocator + Copy> Node<K, V, A> {
    #[inline(always)]
    pub(crate) fn copy(&self) -> Result<Node<K, V, A>, AllocError>
        ensures { IfOk result (IsCopy self.now) }
    {
        let left = self.left.share()?;
        let entry = self.entry.clone()?;
        let right = self.right.share()?;
        Ok(Node { left, entry, right })
    }
}

impl<K: Drop, V: Drop, A: Allocator + Copy> Clone for Node<K, V, A> {
    ghost is_clone = { λ node copy. IsCopy node copy };

    fn clone(&self) -> Result<Node<K, V, A>, AllocError> {
        self.copy()
    }
}
