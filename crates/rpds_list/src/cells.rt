//! The cells of a chain, of which lists and histories are made.
ghost use Rattle.std.specs.Prelude.{◌≡◌, IfOk};

use std::alloc::{AllocError, Allocator};
use std::rc::Rc;

/// A chain of cells: what follows a cell, or a whole chain.
#[cycle(chain)]
#[derive(Drop)]
pub enum Link<T, A: Allocator> {
    /// Nothing more.
    End,
    /// The first cell, which other chains may share.
    More(Rc<Node<T, A>, A>),
}

/// A cell. Its item has an owner count of its own, so that a chain in another order can share it.
#[cycle(chain)]
#[derive(Drop)]
pub struct Node<T, A: Allocator> {
    /// The item.
    pub value: Rc<T, A>,
    /// What follows the cell.
    pub next: Link<T, A>,
}

impl<T: Drop, A: Allocator> Link<T, A> {
    ghost use Rattle.rpds_list.specs.Chain.{items};

    /// Another handle to the same cells. It fails only where a reference count overflows.
    #[inline(always)]
    pub fn share(&self) -> Result<Link<T, A>, AllocError>
        ensures { IfOk result (λ link. items link ≡ items self.now) }
    {
        match self {
            Link::End => Ok(Link::End),
            Link::More(node) => Ok(Link::More(node.clone()?)),
        }
    }
}

/// Drops a chain in a loop, so that a long one needs no deep stack. It goes on until another chain shares what is left.
// The last owner's work is out of line, so that the drop of any other handle is a few steps where it stands.
#[inline(always)]
pub fn release<T: Drop, A: Allocator>(chain: Link<T, A>) {
    if let Link::More(node) = chain {
        if Rc::strong_count(&node) == 1 {
            release_cells(node);
        } else {
            drop(node);
        }
    }
}

#[inline(never)]
fn release_cells<T: Drop, A: Allocator>(first: Rc<Node<T, A>, A>) {
    let mut node = first;
    loop {
        let Some(Node { value: _, next }) = Rc::into_inner(node) else {
            return;
        };
        let Link::More(rest) = next else {
            return;
        };
        node = rest;
    }
}
