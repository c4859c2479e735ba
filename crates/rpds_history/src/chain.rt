//! A chain of versions on one side of the present one, the nearest first, whose cells forks share.
ghost use Rattle.std.specs.Prelude.{◌≡◌, ◌+◌, ◌<◌, ◌≤◌, ◌↔◌, [], ◌∷◌, length, take, Ok, true, false, IfOk, OnOk, OnErr, IsTrue};
ghost use Rattle.rpds_history.specs.HistoryContents.{back, contents};
ghost use Rattle.rpds_list.specs.Chain.{items};

use rpds_list::cells::{Link, Node, release};
use std::alloc::{AllocError, Allocator};
use std::marker::Model;
use std::mem;
use std::rc::Rc;

// How many versions are kept in their own cells where others go: a call for each lies on the stack.
const MAX_CUT_IN_PLACE: usize = 512;

pub(crate) struct Chain<T, A: Allocator> {
    head: Link<T, A>,
    len: usize,
}

impl<T, A: Allocator> Model for Chain<T, A> {
    ghost use Rattle.std.specs.Prelude.{◌≡◌, List, length};
    ghost use Rattle.rpds_list.specs.Chain.{items};

    ghost Value = { List T };

    ghost view = { λ c. items c.head };

    ghost invariant = { λ c. c.len ≡ length (items c.head) };
}

impl<T: Drop, A: Allocator> Drop for Chain<T, A> {
    fn drop(self) {
        let Chain { head, len: _ } = self;
        release(head);
    }
}

// Drops what follows the first `count` cells. False where there are fewer, or another chain shares one of them: then all is as
// it was.
fn cut<T: Drop, A: Allocator>(chain: &mut Link<T, A>, count: usize) -> bool
    ensures cut { result ≡ true → items chain.new ≡ take count (items chain.old) }
    ensures not { result ≡ false → items chain.new ≡ items chain.old }
{
    if count == 0 {
        release(mem::replace(chain, Link::End));
        return true;
    }
    let Link::More(cell) = chain else {
        return false;
    };
    match Rc::get_mut(cell) {
        Some(node) => cut(&mut node.next, count - 1),
        None => false,
    }
}

// What a step makes where another chain shares the first cell: its version, what follows it, and a new cell of the present
// version before those of `to`.
fn shared_step<T: Drop, A: Allocator + Copy>(
    cell: &Node<T, A>,
    alloc: A,
    present: &Rc<T, A>,
    to: &Link<T, A>,
) -> Result<(Rc<T, A>, Link<T, A>, Link<T, A>), AllocError>
    ensures version { IfOk result (λ made. made.0.value ≡ cell.now.value.value) }
    ensures rest { IfOk result (λ made. items made.1 ≡ items cell.now.next) }
    ensures moved { IfOk result (λ made. items made.2 ≡ present.now.value ∷ items to.now) }
{
    let next = to.share()?;
    let value = present.clone()?;
    let moved = Rc::new(alloc, Node { value, next })?;
    Ok((cell.value.clone()?, cell.next.share()?, Link::More(moved)))
}

// Takes the first version out as the present one, and puts that before the others of `to`. False where there is none. Its cell
// goes along, unless another chain shares it: then one is asked for. An error leaves all as it was.
fn move_first<T: Drop, A: Allocator + Copy>(
    from: &mut Link<T, A>,
    alloc: A,
    present: &mut Rc<T, A>,
    to: &mut Link<T, A>,
) -> Result<bool, AllocError>
    ensures found { IfOk result (λ there. IsTrue there ↔ (0 < length (items from.old))) }
    ensures ok { OnOk result (contents (items from.new) present.new.value (items to.new)
        ≡ back (items from.old) present.old.value (items to.old)) }
    ensures none { items from.old ≡ [] → result ≡ Ok false }
    ensures err { OnErr result (contents (items from.new) present.new.value (items to.new)
        ≡ contents (items from.old) present.old.value (items to.old)) }
{
    if move_own(from, present, to) {
        return Ok(true);
    }
    let Link::More(cell) = &*from else {
        return Ok(false);
    };
    let (version, rest, moved) = shared_step(cell, alloc, present, to)?;
    *present = version;
    *from = rest;
    *to = moved;
    Ok(true)
}

// The same, if there is a first cell and no other chain shares it. False where not, and then all is as it was.
fn move_own<T: Drop, A: Allocator>(
    from: &mut Link<T, A>,
    present: &mut Rc<T, A>,
    to: &mut Link<T, A>,
) -> bool
    ensures found { result ≡ true → 0 < length (items from.old) }
    ensures ok { result ≡ true → contents (items from.new) present.new.value (items to.new)
        ≡ back (items from.old) present.old.value (items to.old) }
    ensures not { result ≡ false → contents (items from.new) present.new.value (items to.new)
        ≡ contents (items from.old) present.old.value (items to.old) }
{
    let Link::More(cell) = from else {
        return false;
    };
    let Some(node) = Rc::get_mut(cell) else {
        return false;
    };
    mem::swap(&mut node.value, present);
    mem::swap(&mut node.next, to);
    mem::swap(from, to);
    true
}

impl<T, A: Allocator> Chain<T, A> {
    pub(crate) fn new() -> Chain<T, A>
        ensures { result ≡ [] }
    {
        Chain {
            head: Link::End,
            len: 0,
        }
    }

    pub(crate) fn clear(&mut self)
    where
        T: Drop,
        ensures { self.new ≡ [] }
    {
        *self = Chain::new();
    }

    pub(crate) fn len(&self) -> usize
        ensures { result ≡ length self.now }
    {
        self.len
    }
}

impl<T: Drop, A: Allocator + Copy> Chain<T, A> {
    // Another handle to the same versions.
    pub(crate) fn share(&self) -> Result<Chain<T, A>, AllocError>
        ensures { IfOk result (λ copy. copy ≡ self.now) }
    {
        Ok(Chain {
            head: self.head.share()?,
            len: self.len,
        })
    }

    // Puts a version before the others. One request, for its cell.
    pub(crate) fn push(&mut self, alloc: A, version: Rc<T, A>) -> Result<(), AllocError>
        requires { length self.old < usize.MAX }
        ensures ok { OnOk result (self.new ≡ version.value ∷ self.old) }
        ensures err { OnErr result (self.new ≡ self.old) }
    {
        let next = mem::replace(&mut self.head, Link::End);
        let first = Node {
            value: version,
            next,
        };
        match Rc::new(alloc, first) {
            Ok(node) => {
                self.head = Link::More(node);
                self.len += 1;
                Ok(())
            }
            Err(failed) => {
                let node = failed.value;
                let Node { value: _, next } = node;
                self.head = next;
                Err(AllocError)
            }
        }
    }

    // Drops the versions that follow the first `count`, in place. False where there are more than a stack holds calls, or where
    // another chain shares a cell: then all is as it was.
    pub(crate) fn cut(&mut self, count: usize) -> bool
        requires { count ≤ length self.old }
        ensures cut { result ≡ true → self.new ≡ take count self.old }
        ensures not { result ≡ false → self.new ≡ self.old }
    {
        if count > MAX_CUT_IN_PLACE || !cut(&mut self.head, count) {
            return false;
        }
        self.len = count;
        true
    }

    // Takes the first version out as the present one, and puts that before the others of `to`. False where there is none. One
    // request where another chain shares its cell, else none. An error leaves all as it was.
    pub(crate) fn move_to(
        &mut self,
        alloc: A,
        present: &mut Rc<T, A>,
        to: &mut Chain<T, A>,
    ) -> Result<bool, AllocError>
        requires { length self.old + length to.old < usize.MAX }
        ensures found { IfOk result (λ there. IsTrue there ↔ (0 < length self.old)) }
        ensures ok { OnOk result (contents self.new present.new.value to.new ≡ back self.old present.old.value to.old) }
        ensures none { self.old ≡ [] → result ≡ Ok false }
        ensures err { OnErr result (contents self.new present.new.value to.new ≡ contents self.old present.old.value to.old) }
    {
        if !move_first(&mut self.head, alloc, present, &mut to.head)? {
            return Ok(false);
        }
        self.len -= 1;
        to.len += 1;
        Ok(true)
    }
}
