//! Sets made of two sets, the operators that stand for them, and the members of a set that pass a test.
ghost use Rattle.std.specs.Prelude.{◌≡◌, if◌then◌else◌, Bool, None, filter, is_none, is_some, IfOk, OnOk, OnErr};
ghost use Rattle.std.specs.Fn.{CalledAt};
ghost use Rattle.std.specs.Iterator.{ActsAsAt};
ghost use Rattle.std.specs.List.Retain.{IsFiltered};
ghost use Rattle.std.specs.Option.{option_or, option_xor};
ghost use Rattle.rpds_core.specs.OptionFilter.{option_filter};
ghost use Rattle.rpds_hash.specs.HashedSet.{find_member};

use crate::set::hash_trie_set::HashTrieSet;
use std::alloc::{AllocError, Allocator};
use std::hash::{BuildHasher, Hash};
use std::ops::{BitAnd, BitOr, BitXor, Sub};

impl<T: Eq + Hash + Drop, H: BuildHasher + Clone + Drop, A: Allocator + Copy> HashTrieSet<T, H, A> {
    /// Keeps the members of which `keep` says true, in the order that they had. It is called once at each member, in that
    /// order. An error leaves the set as it is: the others are taken out of another handle, which takes the set's place at the
    /// end.
    pub fn retain<F: FnMut(&T) -> bool>(&mut self, mut keep: F) -> Result<(), AllocError>
        requires clone_hasher { (x y : H) → H.is_clone x y → y ≡ x }
        requires callable { F.IsAlwaysCallable keep }
        ensures ok { OnOk result
            (IsFiltered (CalledAt F.FnMut) keep self.old.members self.new.members) }
        ensures found { OnOk result ((test : T → Bool) → ActsAsAt F.FnMut keep test → (x : T)
            → find_member T.eq x self.new.members ≡ option_filter test (find_member T.eq x self.old.members)) }
        ensures same { OnOk result (self.new ≡ record self.old { members = self.new.members }) }
        ensures err { OnErr result (self.new ≡ self.old) }
    {
        let mut left = self.clone()?;
        for member in self.iter() {
            // For its clause: the members are pairwise unequal.
            let _size = left.size();
            let stays = keep(member);
            if !stays {
                left.remove_mut(member)?;
            }
        }
        *self = left;
        Ok(())
    }

    /// The members of this set that are in the other too, in the order that they have. None is cloned. `&a & &b` is the same. It takes
    /// what the map's [`intersection`](HashTrieMap::intersection) takes.
    pub fn intersection(
        &self,
        other: &HashTrieSet<T, H, A>,
    ) -> Result<HashTrieSet<T, H, A>, AllocError>
        requires clone_hasher { (x y : H) → H.is_clone x y → y ≡ x }
        ensures members { let both = filter (λ m. is_some (find_member T.eq m other.now.members)) self.now.members in
            IfOk result (λ s. s ≡ record self.now { members = both }) }
        ensures found { IfOk result (λ s. (x : T) → find_member T.eq x s.members
            ≡ (if is_some (find_member T.eq x other.now.members) then find_member T.eq x self.now.members else None)) }
    {
        let map = self.map.intersection(&other.map)?;
        Ok(HashTrieSet { map })
    }

    /// The members of this set that aren't in the other, in the order that they have. None is cloned. `&a - &b` is the same. It takes
    /// what the map's [`difference`](HashTrieMap::difference) takes.
    pub fn difference(
        &self,
        other: &HashTrieSet<T, H, A>,
    ) -> Result<HashTrieSet<T, H, A>, AllocError>
        requires clone_hasher { (x y : H) → H.is_clone x y → y ≡ x }
        ensures members { let left = filter (λ m. is_none (find_member T.eq m other.now.members)) self.now.members in
            IfOk result (λ s. s ≡ record self.now { members = left }) }
        ensures found { IfOk result (λ s. (x : T) → find_member T.eq x s.members
            ≡ (if is_none (find_member T.eq x other.now.members) then find_member T.eq x self.now.members else None)) }
    {
        let map = self.map.difference(&other.map)?;
        Ok(HashTrieSet { map })
    }

    /// The members of both sets; of two that are equal, this set's. None is cloned. `&a | &b` is the same. It takes what the map's
    /// [`union`](HashTrieMap::union) takes.
    ///
    /// The error means that memory ran out; it comes, too, where there would be more than `usize::MAX` members.
    pub fn union(&self, other: &HashTrieSet<T, H, A>) -> Result<HashTrieSet<T, H, A>, AllocError>
        requires clone_hasher { (x y : H) → H.is_clone x y → y ≡ x }
        ensures found { IfOk result (λ s. (x : T) → find_member T.eq x s.members
            ≡ option_or (find_member T.eq x self.now.members) (find_member T.eq x other.now.members)) }
        ensures same { IfOk result (λ s. s ≡ record self.now { members = s.members }) }
    {
        let map = self.map.union(&other.map)?;
        Ok(HashTrieSet { map })
    }

    /// The members of either set that aren't in the other: the [`union`](HashTrieSet::union) of both differences. `&a ^ &b` is
    /// the same.
    ///
    /// The error means the same as that of [`union`](HashTrieSet::union).
    pub fn symmetric_difference(
        &self,
        other: &HashTrieSet<T, H, A>,
    ) -> Result<HashTrieSet<T, H, A>, AllocError>
        requires clone_hasher { (x y : H) → H.is_clone x y → y ≡ x }
        ensures found { IfOk result (λ s. (x : T) → find_member T.eq x s.members
            ≡ option_xor (find_member T.eq x self.now.members) (find_member T.eq x other.now.members)) }
        ensures same { IfOk result (λ s. s ≡ record self.now { members = s.members }) }
    {
        let others = other.difference(self)?;
        let left = self.difference(other)?;
        left.union(&others)
    }
}

/// [`union`](HashTrieSet::union).
impl<'a, 'b, T: Eq + Hash + Drop, H: BuildHasher + Clone + Drop, A: Allocator + Copy> BitOr<
    &'b HashTrieSet<T, H, A>,
> for &'a HashTrieSet<T, H, A> {
    type Output = Result<HashTrieSet<T, H, A>, AllocError>;

    ghost can_bitor = { λ _ _. (x y : H) → H.is_clone x y → y ≡ x };

    ghost bitor_gives = { λ a b r. IfOk r (λ s. ((x : T) → find_member T.eq x s.members
        ≡ option_or (find_member T.eq x a.now.members) (find_member T.eq x b.now.members))
        × (s ≡ record a.now { members = s.members })) };

    fn bitor(self, other: &'b HashTrieSet<T, H, A>) -> Result<HashTrieSet<T, H, A>, AllocError> {
        self.union(other)
    }
}

/// [`symmetric_difference`](HashTrieSet::symmetric_difference).
impl<'a, 'b, T: Eq + Hash + Drop, H: BuildHasher + Clone + Drop, A: Allocator + Copy> BitXor<
    &'b HashTrieSet<T, H, A>,
> for &'a HashTrieSet<T, H, A> {
    type Output = Result<HashTrieSet<T, H, A>, AllocError>;

    ghost can_bitxor = { λ _ _. (x y : H) → H.is_clone x y → y ≡ x };

    ghost bitxor_gives = { λ a b r. IfOk r (λ s. ((x : T) → find_member T.eq x s.members
        ≡ option_xor (find_member T.eq x a.now.members) (find_member T.eq x b.now.members))
        × (s ≡ record a.now { members = s.members })) };

    fn bitxor(self, other: &'b HashTrieSet<T, H, A>) -> Result<HashTrieSet<T, H, A>, AllocError> {
        self.symmetric_difference(other)
    }
}

/// [`intersection`](HashTrieSet::intersection).
impl<'a, 'b, T: Eq + Hash + Drop, H: BuildHasher + Clone + Drop, A: Allocator + Copy> BitAnd<
    &'b HashTrieSet<T, H, A>,
> for &'a HashTrieSet<T, H, A> {
    type Output = Result<HashTrieSet<T, H, A>, AllocError>;

    ghost can_bitand = { λ _ _. (x y : H) → H.is_clone x y → y ≡ x };

    ghost bitand_gives = { λ a b r. IfOk r (λ s. ((x : T) → find_member T.eq x s.members
        ≡ (if is_some (find_member T.eq x b.now.members) then find_member T.eq x a.now.members else None))
        × (s ≡ record a.now { members = filter (λ m. is_some (find_member T.eq m b.now.members)) a.now.members })) };

    fn bitand(self, other: &'b HashTrieSet<T, H, A>) -> Result<HashTrieSet<T, H, A>, AllocError> {
        self.intersection(other)
    }
}

/// [`difference`](HashTrieSet::difference).
impl<'a, 'b, T: Eq + Hash + Drop, H: BuildHasher + Clone + Drop, A: Allocator + Copy> Sub<
    &'b HashTrieSet<T, H, A>,
> for &'a HashTrieSet<T, H, A> {
    type Output = Result<HashTrieSet<T, H, A>, AllocError>;

    ghost can_sub = { λ _ _. (x y : H) → H.is_clone x y → y ≡ x };

    ghost sub_gives = { λ a b r. IfOk r (λ s. ((x : T) → find_member T.eq x s.members
        ≡ (if is_none (find_member T.eq x b.now.members) then find_member T.eq x a.now.members else None))
        × (s ≡ record a.now { members = filter (λ m. is_none (find_member T.eq m b.now.members)) a.now.members })) };

    fn sub(self, other: &'b HashTrieSet<T, H, A>) -> Result<HashTrieSet<T, H, A>, AllocError> {
        self.difference(other)
    }
}
