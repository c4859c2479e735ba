//! The iterator of a list from its back, which allocates nothing.
ghost use Rattle.std.specs.Prelude.{◌≡◌, ◌+◌, ◌-◌, ◌^◌, ◌<◌, ◌≤◌, ◌++◌, ◌∷◌, [], length, take, drop, reverse, map, MatchOption, ⊤};
ghost use Rattle.std.specs.Iterator.{YieldsFirstRef, item_count};
ghost use Rattle.rpds_core.specs.WalkStack.{HasRoom};
ghost use Rattle.rpds_list.specs.Chain.{items};
ghost use Rattle.rpds_list.specs.Stretches.{items_of, Fits, to_top};

use super::List;
use crate::cells::Link;
use rpds_core::walk_stack::WalkStack;
use std::alloc::{AllocError, Allocator};
use std::marker::Model;
use std::mem;

// A chain and how many of its first cells count: the last stretch on top. Each has at most half of what the one below it
// began with, so that 64 places are enough.
type Stretches<'a, T, A> = WalkStack<(&'a Link<T, A>, usize), 64>;

// Items that lie one behind the other, the last one on top.
type Near<'a, T> = WalkStack<&'a T, 64>;

// The items that are left, as references, the last one first.
//
// The last stretch is cut in halves until at most 64 items are left, which are kept at hand. Then come those of the front half
// of each: n items take about n log n steps in all, and no memory.
#[derive(Drop)]
pub(crate) struct FromBack<'a, T, A: Allocator> {
    near: Near<'a, T>,
    // A stretch on top of the others, which isn't put there, so that a short chain needs no place. None where `left` is 0.
    rest: &'a Link<T, A>,
    left: usize,
    stretches: Stretches<'a, T, A>,
}

impl<'a, T, A: Allocator> Model for FromBack<'a, T, A> {
    ghost use Rattle.std.specs.Prelude.{List, ◌++◌, ◌≤◌, ◌-◌, ◌^◌, length, map, reverse, take};
    ghost use Rattle.rpds_core.specs.WalkStack.{HasRoom};
    ghost use Rattle.rpds_list.specs.Chain.{items};
    ghost use Rattle.rpds_list.specs.Stretches.{items_of, Fits, to_top};

    ghost Value = { List T };

    ghost view = { λ w. map (λ x. x.now) w.near ++ reverse (to_top items_of w.stretches ++ take w.left (items w.rest.now)) };

    ghost invariant = { λ w. HasRoom Fits w.stretches × (w.left ≤ length (items w.rest.now))
        × (w.left ≤ 2 ^ (64 - length w.stretches)) };
}

// What follows the first `count` cells.
#[tactic(auto, using(crate::proofs::Halves::drop_next))]
pub(super) fn skip<'a, T, A: Allocator>(link: &'a Link<T, A>, count: usize) -> &'a Link<T, A>
    requires { count ≤ length (items link.now) }
    ensures { items result.now ≡ drop count (items link.now) }
{
    let mut rest = link;
    for _i in 0..count {
        match rest {
            Link::End => return rest,
            Link::More(node) => rest = &node.next,
        }
    }
    rest
}

// The rest of a stretch, of at most 64 cells, once its front halves are pushed.
fn last_cells<'a, T, A: Allocator>(
    stretches: &mut Stretches<'a, T, A>,
    link: &'a Link<T, A>,
    count: usize,
) -> (&'a Link<T, A>, usize)
    requires some { 0 < count }
    requires within { count ≤ length (items link.now) }
    requires room { HasRoom Fits stretches.old }
    requires fits { count ≤ 2 ^ (64 - length stretches.old) }
    ensures rest { to_top items_of stretches.new ++ take result.1 (items result.0.now)
        ≡ to_top items_of stretches.old ++ take count (items link.now) }
    ensures room { HasRoom Fits stretches.new }
    ensures some { 0 < result.1 }
    ensures few { result.1 ≤ 64 }
    ensures within { result.1 ≤ length (items result.0.now) }
{
    let mut rest = link;
    let mut left = count;
    while left > 64 {
        let half = left / 2;
        stretches.push((rest, half));
        rest = skip(rest, half);
        left -= half;
    }
    (rest, left)
}

// The last of the first `count` items. Those before it are pushed.
fn last_item<'a, T, A: Allocator>(
    near: &mut Near<'a, T>,
    link: &'a Link<T, A>,
    count: usize,
) -> &'a T
    requires none { near.old ≡ [] }
    requires some { 0 < count }
    requires few { count ≤ 64 }
    requires within { count ≤ length (items link.now) }
    ensures { result.now ∷ map (λ x. x.now) near.new ≡ reverse (take count (items link.now)) }
{
    let mut rest = link;
    let mut left = count;
    while left > 1 {
        match rest {
            Link::End => unreachable!(),
            Link::More(node) => {
                near.push(node.value.as_ref());
                rest = &node.next;
                left -= 1;
            }
        }
    }
    match rest {
        Link::End => unreachable!(),
        Link::More(node) => node.value.as_ref(),
    }
}

// The last of the first `count` items. What lies before it is pushed: the items next to it near by, the others as stretches.
fn last_of_some<'a, T, A: Allocator>(
    near: &mut Near<'a, T>,
    stretches: &mut Stretches<'a, T, A>,
    link: &'a Link<T, A>,
    count: usize,
) -> &'a T
    requires none { near.old ≡ [] }
    requires some { 0 < count }
    requires within { count ≤ length (items link.now) }
    requires room { HasRoom Fits stretches.old }
    requires fits { count ≤ 2 ^ (64 - length stretches.old) }
    ensures item { result.now ∷ map (λ x. x.now) near.new ++ reverse (to_top items_of stretches.new)
        ≡ reverse (to_top items_of stretches.old ++ take count (items link.now)) }
    ensures room { HasRoom Fits stretches.new }
{
    let (rest, left) = last_cells(stretches, link, count);
    last_item(near, rest, left)
}

// The last of the first `count` items, or where that is none, of the stretch on top. What lies before it is pushed.
#[inline(never)]
fn last_of_stretch<'a, T, A: Allocator>(
    near: &mut Near<'a, T>,
    stretches: &mut Stretches<'a, T, A>,
    link: &'a Link<T, A>,
    count: usize,
) -> Option<&'a T>
    requires none { near.old ≡ [] }
    requires within { count ≤ length (items link.now) }
    requires room { HasRoom Fits stretches.old }
    requires fits { count ≤ 2 ^ (64 - length stretches.old) }
    ensures item { let left = reverse (to_top items_of stretches.old ++ take count (items link.now)) in
        MatchOption result ((left ≡ []) × (near.new ≡ []) × (stretches.new ≡ []))
        (λ x. left ≡ x.now ∷ map (λ y. y.now) near.new ++ reverse (to_top items_of stretches.new)) }
    ensures room { HasRoom Fits stretches.new }
{
    if count > 0 {
        return Some(last_of_some(near, stretches, link, count));
    }
    let (link, count) = stretches.pop()?;
    Some(last_of_some(near, stretches, link, count))
}

impl<T, A: Allocator> List<T, A> {
    // An iterator over the items, the last one first. It allocates nothing.
    pub(crate) fn from_back(&self) -> FromBack<'_, T, A>
        ensures { result ≡ reverse self.now }
    {
        let left = self.len();
        FromBack {
            near: WalkStack::new(),
            rest: &self.head,
            left,
            stretches: WalkStack::new(),
        }
    }
}

impl<'a, T, A: Allocator> FromBack<'a, T, A> {
    // The last item that is left.
    #[inline(always)]
    fn step(&mut self) -> Option<&'a T>
        ensures { MatchOption result ((self.old ≡ []) × (self.new ≡ [])) (λ x.
            self.old ≡ x.now ∷ self.new) }
    {
        if let Some(item) = self.near.pop() {
            return Some(item);
        }
        let count = mem::replace(&mut self.left, 0);
        last_of_stretch(&mut self.near, &mut self.stretches, self.rest, count)
    }
}

impl<'a, T, A: Allocator> Iterator for FromBack<'a, T, A> {
    type Item = &'a T;

    ghost next_gives = { YieldsFirstRef (λ it. it) };

    ghost remaining = { item_count (λ it. it) };

    fn next(&mut self) -> Option<&'a T> {
        self.step()
    }
}

impl<'a, T, A: Allocator> Clone for FromBack<'a, T, A> {
    ghost is_clone = { λ it copy. copy ≡ it };

    ghost is_infallible = { λ _. ⊤ };

    fn clone(&self) -> Result<FromBack<'a, T, A>, AllocError> {
        Ok(FromBack {
            near: self.near.clone()?,
            rest: self.rest,
            left: self.left,
            stretches: self.stretches.clone()?,
        })
    }
}
