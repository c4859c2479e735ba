//! A list reversed in its own cells, where no other list shares one.
ghost use Rattle.std.specs.Prelude.{◌≡◌, ◌+◌, ◌/◌, ◌<◌, ◌≤◌, length, take, reverse, set, get_or, Ok, true, false, IfOk, OnErr};
ghost use Rattle.rpds_core.specs.Rows.{behind};
ghost use Rattle.rpds_list.specs.Chain.{items};
ghost use Rattle.rpds_list.specs.Turned.{IsTurned, IsSwapped};

use super::List;
use crate::cells::Link;
use rpds_core::steps::Steps;
use std::alloc::{AllocError, Allocator};
use std::mem;
use std::rc::Rc;

// How long a list may be to be reversed in its own cells. Calls hold them, and take up to 20 bytes of the stack for each.
const MAX_REVERSED_IN_PLACE: usize = 16_384;

impl<T: Drop, A: Allocator + Copy> List<T, A> {
    // Reverses the first `kept` items in their cells, and drops the others. False where a cell is shared or the list is
    // long: then, and at an error, all is as it was. One allocation, for the items of the front half.
    pub(crate) fn reverse_own(&mut self, kept: usize, steps: &mut Steps) -> Result<bool, AllocError>
        requires { kept ≤ length self.old }
        ensures reversed { result ≡ Ok true → self.new ≡ reverse (take kept self.old) }
        ensures not { result ≡ Ok false → self.new ≡ self.old }
        ensures err { OnErr result (self.new ≡ self.old) }
        ensures none { kept ≡ 0 → result ≡ Ok true }
        ensures moved { result ≡ Ok true → steps.new.moved ≡ steps.old.moved + kept }
        ensures not_moved { result ≡ Ok false → steps.new.moved ≡ steps.old.moved }
        ensures err_moved { OnErr result (steps.new.moved ≡ steps.old.moved) }
        ensures others { steps.new ≡ record steps.old { moved = steps.new.moved } }
    {
        if kept == 0 {
            self.clear();
            return Ok(true);
        }
        if self.len > MAX_REVERSED_IN_PLACE || !self.head.is_own() {
            return Ok(false);
        }
        let Some(last) = self.head.first()? else {
            return Ok(false);
        };
        let mut held = blanks(self.alloc, &last, kept / 2)?;
        if !self.head.turn_front(0, kept, &mut held) {
            return Ok(false);
        }
        self.last = Some(last);
        self.len = kept;
        raise_moved(kept, steps);
        Ok(true)
    }
}

// As many handles to one item.
fn blanks<T: Drop, A: Allocator + Copy>(
    alloc: A,
    item: &Rc<T, A>,
    count: usize,
) -> Result<Vec<Rc<T, A>, A>, AllocError>
    ensures { IfOk result (λ held. length held.items ≡ count) }
{
    let mut held = Vec::with_capacity(alloc, count)?;
    for _i in 0..count {
        held.push_reserved(item.clone()?);
    }
    Ok(held)
}

// Counts so many items that are put.
fn raise_moved(count: usize, steps: &mut Steps)
    ensures { steps.new ≡ record steps.old { moved = steps.old.moved + count } }
{
    for _i in 0..count {
        steps.raise_moved();
    }
}

// Swaps the item with the one that is held at the place.
#[inline(always)]
fn swap_held<T, A: Allocator>(held: &mut Vec<Rc<T, A>, A>, at: usize, item: &mut Rc<T, A>)
    requires { at < length held.old.items }
    ensures held { behind held.new.items ≡ set (behind held.old.items) at item.old.value }
    ensures item { item.new.value ≡ get_or (behind held.old.items) at item.old.value }
    ensures len { length held.new.items ≡ length held.old.items }
{
    mem::swap(&mut held[at], item);
}

// How the first `kept` cells are turned round, of which each call holds four, and near the middle and the end one. The items of
// the front half are taken out on the way down. On the way up those of the back half swap with them, and then go into the front
// half. False where a cell is shared or there are too few, and then all is as it was: no item of the back half moves before all
// cells are held.
impl<T: Drop, A: Allocator + Copy> Link<T, A> {
    // Whether no other list shares the first cell.
    fn is_own(&self) -> bool {
        match self {
            Link::End => true,
            Link::More(node) => Rc::strong_count(node) == 1,
        }
    }

    // Turns the cells from the place `at` on, which is in the front half, and drops those behind the first `kept`.
    fn turn_front(&mut self, at: usize, kept: usize, held: &mut Vec<Rc<T, A>, A>) -> bool
        requires within { at ≤ kept / 2 }
        requires half { length held.old.items ≡ kept / 2 }
        ensures turned { result ≡ true → IsTurned kept at (behind held.old.items) (items self.old)
            (behind held.new.items) (items self.new) }
        ensures not { result ≡ false → (behind held.new.items ≡ behind held.old.items)
            × (items self.new ≡ items self.old) }
        ensures len { length held.new.items ≡ length held.old.items }
    {
        let left = kept / 2 - at;
        if left < 4 {
            return self.turn_few(at, kept, held);
        }
        let Link::More(first) = self else {
            return false;
        };
        let Some(first) = Rc::get_mut(first) else {
            return false;
        };
        let Link::More(second) = &mut first.next else {
            return false;
        };
        let Some(second) = Rc::get_mut(second) else {
            return false;
        };
        let Link::More(third) = &mut second.next else {
            return false;
        };
        let Some(third) = Rc::get_mut(third) else {
            return false;
        };
        let Link::More(fourth) = &mut third.next else {
            return false;
        };
        let Some(fourth) = Rc::get_mut(fourth) else {
            return false;
        };
        swap_held(held, at, &mut first.value);
        swap_held(held, at + 1, &mut second.value);
        swap_held(held, at + 2, &mut third.value);
        swap_held(held, at + 3, &mut fourth.value);
        let turned = fourth.next.turn_front(at + 4, kept, held);
        swap_held(held, at + 3, &mut fourth.value);
        swap_held(held, at + 2, &mut third.value);
        swap_held(held, at + 1, &mut second.value);
        swap_held(held, at, &mut first.value);
        turned
    }

    // As `turn_front`, with one cell held by a call. The one between both halves keeps its item.
    fn turn_few(&mut self, at: usize, kept: usize, held: &mut Vec<Rc<T, A>, A>) -> bool
        requires within { at ≤ kept / 2 }
        requires half { length held.old.items ≡ kept / 2 }
        ensures turned { result ≡ true → IsTurned kept at (behind held.old.items) (items self.old)
            (behind held.new.items) (items self.new) }
        ensures not { result ≡ false → (behind held.new.items ≡ behind held.old.items)
            × (items self.new ≡ items self.old) }
        ensures len { length held.new.items ≡ length held.old.items }
    {
        let left = kept - at;
        if left == at {
            return self.turn_back(at, held);
        }
        let Link::More(first) = self else {
            return false;
        };
        let Some(first) = Rc::get_mut(first) else {
            return false;
        };
        if left - 1 == at {
            return first.next.turn_back(at, held);
        }
        swap_held(held, at, &mut first.value);
        let turned = first.next.turn_few(at + 1, kept, held);
        swap_held(held, at, &mut first.value);
        turned
    }

    // Swaps the items of the first `left` cells with those held first, the last one with the first, and drops the other cells.
    fn turn_back(&mut self, left: usize, held: &mut Vec<Rc<T, A>, A>) -> bool
        requires { left ≤ length held.old.items }
        ensures swapped { result ≡ true → IsSwapped left (behind held.old.items) (items self.old)
            (behind held.new.items) (items self.new) }
        ensures not { result ≡ false → (behind held.new.items ≡ behind held.old.items)
            × (items self.new ≡ items self.old) }
        ensures len { length held.new.items ≡ length held.old.items }
    {
        if left < 4 {
            return self.turn_last(left, held);
        }
        let Link::More(first) = self else {
            return false;
        };
        let Some(first) = Rc::get_mut(first) else {
            return false;
        };
        let Link::More(second) = &mut first.next else {
            return false;
        };
        let Some(second) = Rc::get_mut(second) else {
            return false;
        };
        let Link::More(third) = &mut second.next else {
            return false;
        };
        let Some(third) = Rc::get_mut(third) else {
            return false;
        };
        let Link::More(fourth) = &mut third.next else {
            return false;
        };
        let Some(fourth) = Rc::get_mut(fourth) else {
            return false;
        };
        if !fourth.next.turn_back(left - 4, held) {
            return false;
        }
        swap_held(held, left - 4, &mut fourth.value);
        swap_held(held, left - 3, &mut third.value);
        swap_held(held, left - 2, &mut second.value);
        swap_held(held, left - 1, &mut first.value);
        true
    }

    // As `turn_back`, with one cell held by a call.
    fn turn_last(&mut self, left: usize, held: &mut Vec<Rc<T, A>, A>) -> bool
        requires { left ≤ length held.old.items }
        ensures swapped { result ≡ true → IsSwapped left (behind held.old.items) (items self.old)
            (behind held.new.items) (items self.new) }
        ensures not { result ≡ false → (behind held.new.items ≡ behind held.old.items)
            × (items self.new ≡ items self.old) }
        ensures len { length held.new.items ≡ length held.old.items }
    {
        if left == 0 {
            *self = Link::End;
            return true;
        }
        let Link::More(first) = self else {
            return false;
        };
        let Some(first) = Rc::get_mut(first) else {
            return false;
        };
        if !first.next.turn_last(left - 1, held) {
            return false;
        }
        swap_held(held, left - 1, &mut first.value);
        true
    }
}
