//! What is, what was before it and what was undone.
ghost use Rattle.std.specs.Prelude.{◌≡◌, ◌+◌, ◌<◌, ◌≤◌, ◌↔◌, [], length, take, Ok, false, IfOk, OnOk, OnErr, IsTrue, MatchBool};
ghost use Rattle.rpds_history.specs.HistoryContents.{GoesTo, recorded, redone, undone, versions_of};

use crate::chain::Chain;
use rpds_core::size::total;
use std::alloc::{AllocError, Allocator, Global};
use std::marker::Model;
use std::rc::Rc;

/// The present version of something, the versions before it, and those that were undone. A version is never cloned, so it may be
/// of any type.
///
/// ```
/// let mut text = History::new(alloc, "h")?;
/// text.record("hi")?;
/// let back = text.undo()?; // true, and the present version is `h`
/// let forth = text.redo()?; // true, and it is `hi` again
/// ```
///
/// | call | cost | allocations |
/// |---|---|---|
/// | `new` | constant | one: the version |
/// | `present`, `undo_len`, `redo_len`, `len`, `fork` | constant | none |
/// | `record` | constant, and one step a version that is forgotten | two: the version, and a cell for the one before it |
/// | `undo`, `redo` | constant | none; one where a fork shares the cell that goes over |
/// | `go_to` | one step a version on the way | one a version on the way |
/// | `limit` | one step a version that is kept or goes | none for up to 512 that are kept and that no fork shares, else one each |
/// | `clear_redo` | one step a version that no fork shares | none |
#[derive(Drop)]
#[must_use = "a fork is another history, and leaves this one as it is"]
pub struct History<T, A: Allocator = Global> {
    alloc: A,
    past: Chain<T, A>,
    present: Rc<T, A>,
    future: Chain<T, A>,
}

impl<T, A: Allocator> Model for History<T, A> {
    ghost use Rattle.std.specs.Prelude.{◌+◌, ◌<◌, ◌^◌, length};
    ghost use Rattle.rpds_history.specs.HistoryContents.{Contents, contents};

    ghost Value = { Contents T };

    ghost view = { λ h. contents h.past h.present.value h.future };

    ghost invariant = { λ h. length h.past + 1 + length h.future < 2 ^ 64 };
}

impl<T, A: Allocator> History<T, A> {
    /// The present version.
    pub fn present(&self) -> &T
        ensures { result.now ≡ self.now.present }
    {
        self.present.as_ref()
    }

    /// How many versions there are before the present one. This is its number too: the oldest version has the number 0.
    pub fn undo_len(&self) -> usize
        ensures { result ≡ length self.now.past }
    {
        self.past.len()
    }

    /// How many versions were undone and can be redone.
    pub fn redo_len(&self) -> usize
        ensures { result ≡ length self.now.future }
    {
        self.future.len()
    }

    /// How many versions there are in all, the present one among them.
    pub fn len(&self) -> usize
        ensures { result ≡ length (versions_of self.now) }
    {
        self.past.len() + 1 + self.future.len()
    }

    /// The allocator that the history was made with.
    pub fn allocator(&self) -> &A {
        &self.alloc
    }
}

impl<T: Drop, A: Allocator + Copy> History<T, A> {
    /// A history of one version. It takes one allocation.
    pub fn new(alloc: A, present: T) -> Result<History<T, A>, AllocError>
        ensures { IfOk result (λ history. history ≡ record { past = []; present = present; future = [] }) }
    {
        Ok(History {
            alloc,
            past: Chain::new(),
            present: Rc::new(alloc, present)?,
            future: Chain::new(),
        })
    }

    /// Makes the next version the present one. The present one goes before it, and what was undone is forgotten. It
    /// takes two allocations. An error, where there is no memory or there are `usize::MAX` versions, leaves the history.
    pub fn record(&mut self, next: T) -> Result<(), AllocError>
        ensures ok { OnOk result (self.new ≡ recorded next self.old) }
        ensures err { OnErr result (self.new ≡ self.old) }
    {
        total(self.past.len(), 2)?;
        let next = Rc::new(self.alloc, next)?;
        let before = self.present.clone()?;
        self.past.push(self.alloc, before)?;
        self.present = next;
        self.future = Chain::new();
        Ok(())
    }

    /// Goes one version back, and returns whether there was one. It allocates nothing but where a fork shares the step. An
    /// error leaves the history.
    pub fn undo(&mut self) -> Result<bool, AllocError>
        ensures found { IfOk result (λ there. IsTrue there ↔ (0 < length self.old.past)) }
        ensures ok { OnOk result (self.new ≡ undone self.old) }
        ensures none { self.old.past ≡ [] → result ≡ Ok false }
        ensures err { OnErr result (self.new ≡ self.old) }
    {
        self.past
            .move_to(self.alloc, &mut self.present, &mut self.future)
    }

    /// Goes to the version that was undone last, and returns whether there was one. It allocates nothing but where a fork
    /// shares the step. An error leaves the history.
    pub fn redo(&mut self) -> Result<bool, AllocError>
        ensures found { IfOk result (λ there. IsTrue there ↔ (0 < length self.old.future)) }
        ensures ok { OnOk result (self.new ≡ redone self.old) }
        ensures none { self.old.future ≡ [] → result ≡ Ok false }
        ensures err { OnErr result (self.new ≡ self.old) }
    {
        self.future
            .move_to(self.alloc, &mut self.present, &mut self.past)
    }

    /// Goes to the version of this number, of all versions from the oldest on, and returns whether there is one. It takes
    /// one allocation for each version on the way. An error leaves the history.
    pub fn go_to(&mut self, index: usize) -> Result<bool, AllocError>
        ensures found { IfOk result (λ there. IsTrue there ↔ (index < length (versions_of self.old))) }
        ensures ok { IfOk result (λ there. MatchBool there (GoesTo index self.old self.new) (self.new ≡ self.old)) }
        ensures none { length (versions_of self.old) ≤ index → result ≡ Ok false }
        ensures err { OnErr result (self.new ≡ self.old) }
    {
        if index >= self.len() {
            return Ok(false);
        }
        let mut there = self.fork()?;
        there.walk_to(index)?;
        *self = there;
        Ok(true)
    }

    // Goes to the version of this number, one after another. An error leaves it at a version on the way.
    fn walk_to(&mut self, index: usize) -> Result<(), AllocError>
        requires { index < length (versions_of self.old) }
        ensures { OnOk result (GoesTo index self.old self.new) }
    {
        'back: while index < self.undo_len() {
            self.undo()?;
        }
        'forth: while self.undo_len() < index {
            self.redo()?;
        }
        Ok(())
    }

    /// Keeps the nearest versions before the present one, at most `most` of them, and drops the older ones. It takes no
    /// allocation where no fork shares those that are kept and they are at most 512, else one for each. An error leaves the
    /// history.
    pub fn limit(&mut self, most: usize) -> Result<(), AllocError>
        ensures ok { OnOk result (self.new ≡ record self.old { past = take most self.old.past }) }
        ensures err { OnErr result (self.new ≡ self.old) }
    {
        if self.past.len() <= most || self.past.cut(most) {
            return Ok(());
        }
        *self = self.limited(most)?;
        Ok(())
    }

    // The history with so many versions before the present one, in cells of their own.
    fn limited(&self, most: usize) -> Result<History<T, A>, AllocError>
        requires { most < length self.now.past }
        ensures { IfOk result (λ limited. limited ≡ record self.now { past = take most self.now.past }) }
    {
        let oldest = self.undo_len() - most;
        let mut limited = self.fork()?;
        limited.walk_to(oldest)?;
        limited.clear_past();
        limited.walk_to(most)?;
        Ok(limited)
    }

    /// Forgets what was undone. It allocates nothing.
    pub fn clear_redo(&mut self)
        ensures { self.new ≡ record self.old { future = [] } }
    {
        self.future.clear();
    }

    // Forgets what was before the present version.
    fn clear_past(&mut self)
        ensures { self.new ≡ record self.old { past = [] } }
    {
        self.past.clear();
    }

    /// Another history of the same versions: what is done to one leaves the other as it is. It allocates nothing, and fails only
    /// where a reference count overflows.
    pub fn fork(&self) -> Result<History<T, A>, AllocError>
        ensures { IfOk result (λ other. other ≡ self.now) }
    {
        Ok(History {
            alloc: self.alloc,
            past: self.past.share()?,
            present: self.present.clone()?,
            future: self.future.share()?,
        })
    }
}

impl<T: Drop, A: Allocator + Copy> Clone for History<T, A> {
    ghost is_clone = { λ history copy. copy ≡ history };

    fn clone(&self) -> Result<History<T, A>, AllocError> {
        self.fork()
    }
}
