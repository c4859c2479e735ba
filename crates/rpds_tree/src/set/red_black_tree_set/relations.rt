//! How two sets lie to each other: by what they hold, and never by what they share.
//!
//! Two sets are gone over side by side. Where one has few members, or the other over 8 times as many, they are looked up.
ghost use Rattle.std.specs.Prelude.{◌≡◌, true, filter, is_some};
ghost use Rattle.std.specs.List.Sorted.{IsStrictlySortedBy};
ghost use Rattle.std.specs.Ordering.{is_gt};
ghost use Rattle.rpds_tree.specs.OrderedSet.{find_member, is_disjoint, is_subset};

use crate::set::red_black_tree_set::{Iter, RedBlackTreeSet};
use std::alloc::Allocator;

// Whether the value is among the members that are left. It goes on behind the value, or behind the first member above it.
#[inline(always)]
fn meets<T: Ord, A: Allocator>(members: &mut Iter<'_, T, A>, value: &T) -> bool
    requires { IsStrictlySortedBy T.cmp members.old }
    ensures found { result ≡ is_some (find_member T.cmp value.now members.old) }
    ensures rest { result ≡ true
        → members.new ≡ filter (λ m. is_gt (T.cmp m value.now)) members.old }
{
    while let Some(member) = members.next() {
        let order = member.cmp(value);
        if !order.is_lt() {
            return order.is_eq();
        }
    }
    false
}

// Whether to look up each of a few members among many takes less than to go over both.
fn is_for_looking_up(few: usize, many: usize) -> bool {
    few <= 8 || few < many / 8
}

impl<T: Ord, A: Allocator> RedBlackTreeSet<T, A> {
    /// Whether no member is in the other set. It goes over both side by side, up to the first member that both have;
    /// where one has at most 8, or the other over 8 times as many, it looks up each of them there.
    pub fn is_disjoint<B: Allocator>(&self, other: &RedBlackTreeSet<T, B>) -> bool
        ensures { result ≡ is_disjoint T.cmp self.now.members other.now.members }
    {
        if is_for_looking_up(self.size(), other.size()) {
            self.has_none_of(other)
        } else if is_for_looking_up(other.size(), self.size()) {
            other.has_none_of(self)
        } else {
            self.meets_none_of(other)
        }
    }

    // Whether no member is in the other set, by looking up each there.
    fn has_none_of<B: Allocator>(&self, other: &RedBlackTreeSet<T, B>) -> bool
        ensures { result ≡ is_disjoint T.cmp self.now.members other.now.members }
    {
        for member in self {
            if other.contains(member) {
                return false;
            }
        }
        true
    }

    // Whether no member is in the other set, by a walk over both: the one of the lesser member goes on.
    fn meets_none_of<B: Allocator>(&self, other: &RedBlackTreeSet<T, B>) -> bool
        ensures { result ≡ is_disjoint T.cmp self.now.members other.now.members }
    {
        let mut members = self.iter();
        let mut others = other.iter();
        let (mut next, mut next_other) = (members.next(), others.next());
        while let (Some(member), Some(found)) = (next, next_other) {
            let order = member.cmp(found);
            if order.is_eq() {
                return false;
            }
            if order.is_lt() {
                next = members.next();
            } else {
                next_other = others.next();
            }
        }
        true
    }

    /// Whether each member is in the other set, which a set of more members never is. It goes over both side by side, up to
    /// the first member that the other hasn't; where this one has at most 8, or the other over 8 times as many, it looks up
    /// each.
    pub fn is_subset<B: Allocator>(&self, other: &RedBlackTreeSet<T, B>) -> bool
        ensures { result ≡ is_subset T.cmp self.now.members other.now.members }
    {
        if self.size() > other.size() {
            false
        } else if is_for_looking_up(self.size(), other.size()) {
            self.has_all_in(other)
        } else {
            self.meets_all_in(other)
        }
    }

    // Whether each member is in the other set, by looking up each there.
    fn has_all_in<B: Allocator>(&self, other: &RedBlackTreeSet<T, B>) -> bool
        ensures { result ≡ is_subset T.cmp self.now.members other.now.members }
    {
        for member in self {
            if !other.contains(member) {
                return false;
            }
        }
        true
    }

    // Whether each member is in the other set, by a walk over both.
    fn meets_all_in<B: Allocator>(&self, other: &RedBlackTreeSet<T, B>) -> bool
        ensures { result ≡ is_subset T.cmp self.now.members other.now.members }
    {
        let mut others = other.iter();
        for member in self {
            if !meets(&mut others, member) {
                return false;
            }
        }
        true
    }

    /// Whether each member of the other set is in this one: [`is_subset`](RedBlackTreeSet::is_subset) the other way
    /// round.
    pub fn is_superset<B: Allocator>(&self, other: &RedBlackTreeSet<T, B>) -> bool
        ensures { result ≡ is_subset T.cmp other.now.members self.now.members }
    {
        other.is_subset(self)
    }
}
