//! A walk through a trie: the entries in the order of their hashes' digits.
ghost use Rattle.std.specs.Prelude.{◌≡◌, ◌+◌, ◌<◌, ◌≤◌, ◌++◌, ◌∷◌, [], length, map, MatchOption, ⊤};
ghost use Rattle.rpds_core.specs.WalkStack.{from_top, HasRoom};
ghost use Rattle.rpds_hash_trie.specs.Places.{behind};
ghost use Rattle.rpds_hash_trie.specs.HashNode.{stored};
ghost use Rattle.rpds_hash_trie.specs.HashWalk.{flatten, given, AllFit, Fits, HasPlaces};

use crate::node::{Collision, EntryWithHash, Kind, Node};
use crate::root::Root;
use rpds_core::tall_stack::TallStack;
use std::alloc::{AllocError, Allocator};
use std::marker::Model;
use std::rc::Rc;

// On each level the nodes that are still to be walked, the lowest level on top. A trie of 64 digits has 65 levels, one of degree
// 64 at most 12, which lie in the low part.
type Rows<'a, K, V, A> = TallStack<&'a [Rc<Node<K, V, A>, A>], 65>;

/// A walk over the entries of a trie, in the order of the digits of their hashes. It takes no memory.
///
/// It holds what is left of the collision that it is in, the nodes that come next, and the rows of the levels above them.
#[derive(Drop)]
pub struct Walk<'a, K, V, A: Allocator> {
    others: &'a [EntryWithHash<K, V, A>],
    row: &'a [Rc<Node<K, V, A>, A>],
    stack: Rows<'a, K, V, A>,
}

impl<'a, K, V, A: Allocator> Model for Walk<'a, K, V, A> {
    ghost use Rattle.std.specs.Prelude.{List, ◌++◌, map};
    ghost use Rattle.rpds_hash_trie.specs.HashTrie.{Stored};
    ghost use Rattle.rpds_core.specs.WalkStack.{from_top};
    ghost use Rattle.rpds_hash_trie.specs.HashNode.{stored};
    ghost use Rattle.rpds_hash_trie.specs.HashWalk.{given, HasPlaces};

    ghost Value = { List (Stored K V) };

    ghost view = { λ w. map stored w.others.now ++ (given w.row ++ from_top given w.stack) };

    ghost invariant = { λ w. HasPlaces w.row w.stack };
}

// Rows that are used up are left out, so that no place is without nodes.
#[inline(always)]
fn push_row<'a, K, V, A: Allocator>(stack: &mut Rows<'a, K, V, A>, row: &'a [Rc<Node<K, V, A>, A>])
    requires room { HasRoom Fits stack.old }
    requires fits { AllFit (length stack.old) (behind row.now) }
    ensures rest { from_top given stack.new ≡ flatten (behind row.now) ++ from_top given stack.old }
    ensures room { HasRoom Fits stack.new }
    ensures more { length stack.new ≤ length stack.old + 1 }
{
    if !row.is_empty() {
        stack.push(row);
    }
}

// The row that comes next. It is empty where there is none.
#[inline(always)]
fn next_row<'a, K, V, A: Allocator>(
    stack: &mut Rows<'a, K, V, A>,
    row: &'a [Rc<Node<K, V, A>, A>],
) -> &'a [Rc<Node<K, V, A>, A>]
    requires { HasPlaces row stack.old }
    ensures rest { given result ++ from_top given stack.new ≡ given row.entry ++ from_top given stack.old }
    ensures places { HasPlaces result stack.new }
    ensures none { result.now ≡ [] → (row.now ≡ []) × (from_top given stack.new ≡ []) }
{
    if !row.is_empty() {
        return row;
    }
    match stack.pop() {
        None => row,
        Some(above) => above,
    }
}

impl<'a, K, V, A: Allocator> Walk<'a, K, V, A> {
    /// A walk that gives all entries of a trie.
    #[inline(always)]
    pub fn over(root: &'a Root<K, V, A>) -> Walk<'a, K, V, A>
        ensures { result ≡ root.now.entries }
    {
        Walk {
            others: &[],
            row: root.node.as_slice(),
            stack: TallStack::new(),
        }
    }

    /// The next entry: it goes down to the next leaf or collision, and pushes what lies beside the path.
    #[inline(always)]
    pub fn next(&mut self) -> Option<&'a EntryWithHash<K, V, A>>
        ensures { MatchOption result (self.old ≡ []) (λ e. self.old ≡ stored e.now ∷ self.new) }
    {
        let others = self.others;
        if let Some((first, rest)) = others.split_first() {
            self.others = rest;
            return Some(first);
        }
        let mut row = next_row(&mut self.stack, self.row);
        while let Some((node, rest)) = row.split_first() {
            let node: &'a Node<K, V, A> = node;
            match &node.kind {
                Kind::Branch(children) => {
                    push_row(&mut self.stack, rest);
                    row = children.as_slice();
                }
                Kind::Leaf(entry) => {
                    self.row = rest;
                    return Some(entry);
                }
                Kind::Collision(collision) => {
                    let collision: &'a Collision<K, V, A> = collision;
                    self.row = rest;
                    self.others = collision.others.as_slice();
                    return Some(&collision.front);
                }
            }
        }
        None
    }
}

impl<'a, K, V, A: Allocator> Clone for Walk<'a, K, V, A> {
    ghost is_clone = { λ it copy. copy ≡ it };

    ghost is_infallible = { λ _. ⊤ };

    fn clone(&self) -> Result<Walk<'a, K, V, A>, AllocError> {
        Ok(Walk {
            others: self.others,
            row: self.row,
            stack: self.stack.clone()?,
        })
    }
}
