//! Searches of a sequence whose items stand in an order. Each goes down one path.
ghost use Rattle.std.specs.Prelude.{◌≡◌, ◌≤◌, Bool, true, false, IfOk, length};
ghost use Rattle.std.specs.Ordering.{partial_le};
ghost use Rattle.std.specs.Fn.{ComputesKey};
ghost use Rattle.std.specs.List.{HoldsAt, IsAllAdjacentAnswer};
ghost use Rattle.std.specs.List.Sorted.{IsBinarySearchResult, IsPartitionedBy, IsPartitionPoint, IsSearchInRange};
ghost use Rattle.std.specs.declared.cmp.Ordering.{Ordering};
ghost use Rattle.rpds_sequence.specs.Contents.{less_or_greater};

use crate::sequence::Sequence;
use std::alloc::Allocator;
use std::cmp::Ordering;

impl<T, A: Allocator> Sequence<T, A> {
    /// The index of an item that is equal to `x`, or as an error the place for one among items in order. Of several such items it
    /// may be any.
    pub fn binary_search(&self, x: &T) -> Result<usize, usize>
    where
        T: Ord,
        ensures bound { IsSearchInRange result (length self.now) }
        ensures ok { IfOk result (HoldsAt (λ y. T.cmp y x.now ≡ Ordering.Equal) self.now) }
        ensures position { IsBinarySearchResult (λ y. T.cmp y x.now) self.now result }
    {
        self.binary_search_by(|item| item.cmp(x))
    }

    /// The index of an item at which `f` answers `Equal`, or as an error the place behind those at which it answers `Less`, where
    /// they come first and those at which it answers `Greater` last. It is called once on each level.
    pub fn binary_search_by<F: FnMut(&T) -> Ordering>(&self, f: F) -> Result<usize, usize>
        requires { F.IsAlwaysCallable f }
        ensures bound { IsSearchInRange result (length self.now) }
        ensures position { (ord : T → Ordering) → ComputesKey F.FnMut ord f → IsBinarySearchResult ord self.now result }
    {
        self.tree.search_by(self.size, f)
    }

    /// [`binary_search`](Sequence::binary_search) for a key, which `f` gives of each item.
    pub fn binary_search_by_key<B: Ord + Drop, F: Fn(&T) -> B>(
        &self,
        b: &B,
        f: F,
    ) -> Result<usize, usize>
        requires { F.IsAlwaysCallable f }
        ensures bound { IsSearchInRange result (length self.now) }
        ensures position { (key : T → B) → ComputesKey F.FnMut key f
            → IsBinarySearchResult (λ y. B.cmp (key y) b.now) self.now result }
    {
        self.binary_search_by(
            |item: &T| -> Ordering
                requires { F.IsAlwaysCallable f }
                ensures { (key : T → B) → ComputesKey F.FnMut key f → result ≡ B.cmp (key item.now) b.entry.now }
            { f(item).cmp(b) },
        )
    }

    /// The index of the first item at which `pred` answers false, where those at which it answers true come first.
    pub fn partition_point<F: Fn(&T) -> bool>(&self, pred: F) -> usize
        requires { F.IsAlwaysCallable pred }
        ensures bound { result ≤ length self.now }
        ensures partitioned { (p : T → Bool) → ComputesKey F.FnMut p pred → IsPartitionedBy p self.now
            → IsPartitionPoint (λ y. p y ≡ true) (λ y. p y ≡ false) self.now result }
    {
        let found = self.binary_search_by(
            |item: &T| -> Ordering
                requires { F.IsAlwaysCallable pred }
                ensures { (p : T → Bool) → ComputesKey F.FnMut p pred → result ≡ less_or_greater (p item.now) }
            {
                if pred(item) {
                    Ordering::Less
                } else {
                    Ordering::Greater
                }
            },
        );
        match found {
            Ok(index) => index,
            Err(index) => index,
        }
    }

    /// Whether no item is less than the one before it, by a walk.
    pub fn is_sorted(&self) -> bool
    where
        T: PartialOrd,
        ensures { IsAllAdjacentAnswer (λ x y b. partial_le T.partial_cmp x y ≡ b) self.now result }
    {
        let mut items = self.iter();
        let Some(mut last) = items.next() else {
            return true;
        };
        while let Some(item) = items.next() {
            if last.le(item) {
                last = item;
            } else {
                return false;
            }
        }
        true
    }
}
