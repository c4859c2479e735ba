//! A finite map from the places below 64.
ghost use Rattle.std.specs.Prelude.{◌≡◌, ◌-◌, ◌<◌, [], length, take, slice_get, zip, IfOk, OnErr, OnOk, IsSome};
ghost use Rattle.std.specs.Option.{option_copied, option_map};
ghost use Rattle.std.specs.Slice.Iter.{iter_rest};
ghost use Rattle.rpds_hash_trie.specs.Places.{item_at, put_at, without_at, first_item, last_item, items_of, places_of, seen, AreClones};

mod row;

use rpds_core::row::with_changed;
use std::alloc::{AllocError, Allocator, Global};
use std::marker::Model;
use std::rc::Rc;
use std::slice::Iter;

/// Items at places below 64. Contracts see the items with their places, the lowest place first.
///
/// A bitmap has the places that are set, and a row has the items alone, in the order of their places (as in the nodes of
/// Bagwell, Ideal Hash Trees, 2001). So a look-up counts bits, and an array takes the memory of its items.
#[derive(Drop)]
pub struct SparseArrayUsize<T, A: Allocator = Global> {
    bitmap: u64,
    items: Vec<T, A>,
}

impl<T, A: Allocator> Model for SparseArrayUsize<T, A> {
    ghost use Rattle.std.specs.Prelude.{◌≡◌, ℕ, List, length};
    ghost use Rattle.std.specs.Coded.{coded_list, coded×, coded_ℕ};
    ghost use Rattle.std.specs.Int.Count.{ones_in};
    ghost use Rattle.rpds_hash_trie.specs.Places.{placed};

    ghost Value = { List (ℕ × T) };

    ghost coded = { coded_list (coded× coded_ℕ T.code) };

    ghost view = { λ a. placed a.bitmap a.items.items };

    ghost invariant = { λ a. length a.items.items ≡ ones_in 64 a.bitmap };
}

// The item at `at` in the packed order.
fn item_of<T>(items: &[T], at: usize) -> Option<&T>
    ensures { option_copied result ≡ slice_get items.now at }
{
    items.get(at)
}

impl<T, A: Allocator> SparseArrayUsize<T, A> {
    /// An array with no item. It takes no memory until the first one comes.
    pub fn new(alloc: A) -> SparseArrayUsize<T, A>
        ensures { result ≡ [] }
    {
        SparseArrayUsize {
            bitmap: 0,
            items: Vec::new(alloc),
        }
    }

    // An array with no item, and with room for `capacity` items. It makes one allocation, and an error means that it was
    // refused.
    pub(crate) fn with_capacity(
        alloc: A,
        capacity: usize,
    ) -> Result<SparseArrayUsize<T, A>, AllocError>
        ensures { IfOk result (λ array. array ≡ []) }
    {
        let items = Vec::with_capacity(alloc, capacity)?;
        Ok(SparseArrayUsize { bitmap: 0, items })
    }

    /// How many items there are.
    pub fn size(&self) -> usize
        ensures { result ≡ length self.now }
    {
        self.items.len()
    }

    // The items in the order of their places.
    pub(crate) fn as_slice(&self) -> &[T]
        ensures { result.now ≡ items_of self.now }
    {
        self.items.as_slice()
    }

    /// An iterator over the items, the one at the lowest place first. It takes no memory.
    pub fn iter(&self) -> Iter<'_, T>
        ensures { iter_rest result ≡ items_of self.now }
    {
        self.as_slice().iter()
    }

    /// The item at the lowest place, if there is one.
    pub fn first(&self) -> Option<&T>
        ensures { option_copied result ≡ first_item self.now }
    {
        item_of(&self.items, 0)
    }

    /// The item at the place, if there is one, by one count of bits.
    pub fn get(&self, place: usize) -> Option<&T>
        requires { place < 64 }
        ensures { option_copied result ≡ item_at place self.now }
    {
        let bit = 1u64 << place;
        if self.bitmap & bit == 0 {
            None
        } else {
            let at = (self.bitmap & (bit - 1)).count_ones() as usize;
            Some(&self.items[at])
        }
    }

    // Other items at the same places.
    pub(crate) fn with_items<U>(&self, items: Vec<U, A>) -> SparseArrayUsize<U, A>
        requires { length items.items ≡ length self.now }
        ensures { result ≡ zip (places_of self.now) items.items }
    {
        SparseArrayUsize {
            bitmap: self.bitmap,
            items,
        }
    }

    // The other item, where there are two.
    pub(crate) fn beside(&self, place: usize) -> Option<&T>
        requires small { place < 64 }
        requires there { IsSome (item_at place self.now) }
        requires two { length self.now ≡ 2 }
        ensures { option_copied result ≡ first_item (without_at place self.now) }
    {
        let at = (self.bitmap & ((1u64 << place) - 1)).count_ones() as usize;
        item_of(&self.items, 1 - at)
    }

    /// Takes out the item at the highest place, if there is one. It takes no memory.
    pub fn pop(&mut self) -> Option<T>
        ensures last { result ≡ last_item self.old }
        ensures rest { self.new ≡ take (length self.old - 1) self.old }
    {
        let Some(item) = self.items.pop() else {
            return None;
        };
        self.bitmap -= 1u64 << self.bitmap.ilog2();
        Some(item)
    }
}

impl<T, A: Allocator> SparseArrayUsize<T, A> {
    ghost use Rattle.std.specs.Borrow.{sem};
    ghost use Rattle.rpds_hash_trie.specs.SparseArrayLends.{lends_item};

    /// The item at the place, to write to, if there is one.
    pub fn get_mut(&mut self, place: usize) -> Option<&mut T>
        requires { place < 64 }
        ensures* writes_back { sem 𝓛 (lends_item T.row A.row A.Allocator self.entry place result) }
        ensures found { option_map (λ x. x.now) result ≡ item_at place self.old }
    {
        let bit = 1u64 << place;
        let at = if self.bitmap & bit == 0 {
            self.items.len()
        } else {
            (self.bitmap & (bit - 1)).count_ones() as usize
        };
        self.items.get_mut(at)
    }
}

impl<T: Drop, A: Allocator> SparseArrayUsize<T, A> {
    /// Puts the item at the place, where it takes the place of one that was there. A new place makes at most one
    /// allocation; an error means that it was refused, and the array is as it was.
    pub fn set(&mut self, place: usize, item: T) -> Result<(), AllocError>
        requires { place < 64 }
        ensures ok { OnOk result (self.new ≡ put_at place item self.old) }
        ensures err { OnErr result (self.new ≡ self.old) }
    {
        let bit = 1u64 << place;
        let at = (self.bitmap & (bit - 1)).count_ones() as usize;
        if self.bitmap & bit == 0 {
            let Ok(()) = self.items.insert(at, item) else {
                return Err(AllocError);
            };
            self.bitmap |= bit;
        } else {
            self.items[at] = item;
        }
        Ok(())
    }

    /// Drops the item at the place, if there is one. It takes no memory.
    pub fn remove(&mut self, place: usize)
        requires { place < 64 }
        ensures { self.new ≡ without_at place self.old }
    {
        let bit = 1u64 << place;
        if self.bitmap & bit != 0 {
            let at = (self.bitmap & (bit - 1)).count_ones() as usize;
            self.items.remove(at);
            self.bitmap -= bit;
        }
    }
}

impl<T: Clone, A: Allocator + Copy> SparseArrayUsize<T, A> {
    /// A copy with clones of the items, in one allocation besides what the clones take. An error means that it or a
    /// clone was refused.
    pub fn clone(&self) -> Result<SparseArrayUsize<T, A>, AllocError>
        ensures { IfOk result (λ copy. AreClones T.is_clone self.now copy) }
    {
        <SparseArrayUsize<T, A> as Clone>::clone(self)
    }
}

impl<T: Clone, A: Allocator + Copy> Clone for SparseArrayUsize<T, A> {
    ghost is_clone = { λ array copy. AreClones T.is_clone array copy };

    fn clone(&self) -> Result<SparseArrayUsize<T, A>, AllocError> {
        let items = self.items.clone()?;
        Ok(SparseArrayUsize {
            bitmap: self.bitmap,
            items,
        })
    }
}

impl<X: Drop, A: Allocator + Copy> SparseArrayUsize<Rc<X, A>, A> {
    // A copy with the child at the place, in one allocation.
    pub(crate) fn with_child(
        &self,
        alloc: A,
        place: usize,
        child: Rc<X, A>,
    ) -> Result<SparseArrayUsize<Rc<X, A>, A>, AllocError>
        requires { place < 64 }
        ensures { IfOk result (λ r. seen r ≡ put_at place child.value (seen self.now)) }
    {
        let bit = 1u64 << place;
        let at = (self.bitmap & (bit - 1)).count_ones() as usize;
        if self.bitmap & bit == 0 {
            let items = row::with_inserted(alloc, &self.items, at, child)?;
            Ok(SparseArrayUsize {
                bitmap: self.bitmap | bit,
                items,
            })
        } else {
            let items = with_changed(alloc, &self.items, at, child)?;
            Ok(SparseArrayUsize {
                bitmap: self.bitmap,
                items,
            })
        }
    }

    // A copy without the child at the place, in one allocation.
    pub(crate) fn without_child(
        &self,
        alloc: A,
        place: usize,
    ) -> Result<SparseArrayUsize<Rc<X, A>, A>, AllocError>
        requires place { place < 64 }
        requires there { IsSome (item_at place self.now) }
        ensures { IfOk result (λ r. seen r ≡ without_at place (seen self.now)) }
    {
        let bit = 1u64 << place;
        let at = (self.bitmap & (bit - 1)).count_ones() as usize;
        let items = row::with_removed(alloc, &self.items, at)?;
        Ok(SparseArrayUsize {
            bitmap: self.bitmap - bit,
            items,
        })
    }
}
