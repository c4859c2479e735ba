//! Maps without their first or last pair.
ghost use Rattle.std.specs.Prelude.{◌≡◌, ◌≢◌, ◌*◌, ◌<◌, ◌≤◌, ◌∷◌, ◌++◌, [], Ok, None, length, IfOk, IfSome, MatchOption, OnErr, OnOk};
ghost use Rattle.std.specs.Map.Iter.{deref_pair};
ghost use Rattle.std.specs.Option.{option_map};
ghost use Rattle.rpds_core.specs.Counts.{IsWithin};
ghost use Rattle.rpds_red_black.specs.Logarithm.{most_levels};
ghost use Rattle.rpds_red_black.specs.Removal.{IsWithoutEnd};
ghost use Rattle.rpds_red_black.specs.Sides.{is_right};

use crate::map::red_black_tree_map::RedBlackTreeMap;
use rpds_core::steps::Steps;
use rpds_red_black::remove_in_place::Loss;
use rpds_red_black::rotation::Side;
use std::alloc::{AllocError, Allocator};

impl<K: Ord + Drop, V: Drop, A: Allocator + Copy> RedBlackTreeMap<K, V, A> {
    // The map without the pair at the end of the side; None where there is no pair.
    fn without_end(
        &self,
        side: Side,
        steps: &mut Steps,
    ) -> Result<Option<RedBlackTreeMap<K, V, A>>, AllocError>
        ensures ok { let pairs = self.now.entries in
            IfOk result (λ left. MatchOption left (pairs ≡ []) (IsWithoutEnd (is_right side) pairs)) }
        ensures empty { self.now.entries ≡ [] → result ≡ Ok None }
        ensures makes { IfOk result (λ left. IfSome left (λ m. m.entries ≢ []
            → steps.old.made < steps.new.made)) }
        ensures steps { IsWithin 0 (4 * most_levels (length self.now.entries)) steps.old steps.new }
    {
        if self.size == 0 {
            return Ok(None);
        }
        let mut loss = Loss::Absent;
        let tree = self.tree.remove_end(self.alloc, side, &mut loss, steps)?;
        let tree = tree.into_black();
        Ok(Some(RedBlackTreeMap::of_tree(self.alloc, tree, self.size - 1)))
    }

    /// The pair of the least key and the map without it, or None where there is no pair. It compares no key, and makes the
    /// nodes of one path anew, and some next to it.
    pub fn pop_first(&self) -> Result<Option<((&K, &V), RedBlackTreeMap<K, V, A>)>, AllocError>
        ensures ok { IfOk result (λ popped. MatchOption popped (self.now.entries ≡ [])
            (λ p. self.now.entries ≡ deref_pair p.0 ∷ p.1.entries)) }
        ensures depth { IfOk result (λ popped. IfSome popped (λ p.
            p.1.depth ≤ most_levels (length p.1.entries))) }
        ensures empty { self.now.entries ≡ [] → result ≡ Ok None }
    {
        self.pop_first_counted(&mut Steps::new())
    }

    /// [`pop_first`](RedBlackTreeMap::pop_first), which counts the nodes that it makes.
    pub fn pop_first_counted(
        &self,
        steps: &mut Steps,
    ) -> Result<Option<((&K, &V), RedBlackTreeMap<K, V, A>)>, AllocError>
        ensures ok { IfOk result (λ popped. MatchOption popped (self.now.entries ≡ [])
            (λ p. self.now.entries ≡ deref_pair p.0 ∷ p.1.entries)) }
        ensures depth { IfOk result (λ popped. IfSome popped (λ p.
            p.1.depth ≤ most_levels (length p.1.entries))) }
        ensures empty { self.now.entries ≡ [] → result ≡ Ok None }

        ensures makes { IfOk result (λ popped. IfSome popped (λ p. p.1.entries ≢ []
            → steps.old.made < steps.new.made)) }
        ensures steps { IsWithin 0 (4 * most_levels (length self.now.entries)) steps.old steps.new }
    {
        match (self.first(), self.without_end(Side::Left, steps)?) {
            (Some(first), Some(rest)) => Ok(Some((first, rest))),
            _ => Ok(None),
        }
    }

    /// The pair of the greatest key and the map without it, or None where there is no pair. It costs what
    /// [`pop_first`](RedBlackTreeMap::pop_first) costs.
    pub fn pop_last(&self) -> Result<Option<((&K, &V), RedBlackTreeMap<K, V, A>)>, AllocError>
        ensures ok { IfOk result (λ popped. MatchOption popped (self.now.entries ≡ [])
            (λ p. self.now.entries ≡ p.1.entries ++ deref_pair p.0 ∷ [])) }
        ensures depth { IfOk result (λ popped. IfSome popped (λ p.
            p.1.depth ≤ most_levels (length p.1.entries))) }
        ensures empty { self.now.entries ≡ [] → result ≡ Ok None }
    {
        self.pop_last_counted(&mut Steps::new())
    }

    /// [`pop_last`](RedBlackTreeMap::pop_last), which counts the nodes that it makes.
    pub fn pop_last_counted(
        &self,
        steps: &mut Steps,
    ) -> Result<Option<((&K, &V), RedBlackTreeMap<K, V, A>)>, AllocError>
        ensures ok { IfOk result (λ popped. MatchOption popped (self.now.entries ≡ [])
            (λ p. self.now.entries ≡ p.1.entries ++ deref_pair p.0 ∷ [])) }
        ensures depth { IfOk result (λ popped. IfSome popped (λ p.
            p.1.depth ≤ most_levels (length p.1.entries))) }
        ensures empty { self.now.entries ≡ [] → result ≡ Ok None }

        ensures makes { IfOk result (λ popped. IfSome popped (λ p. p.1.entries ≢ []
            → steps.old.made < steps.new.made)) }
        ensures steps { IsWithin 0 (4 * most_levels (length self.now.entries)) steps.old steps.new }
    {
        match (self.last(), self.without_end(Side::Right, steps)?) {
            (Some(last), Some(rest)) => Ok(Some((last, rest))),
            _ => Ok(None),
        }
    }
}

// Clones of a key and its value.
fn cloned<K: Clone + Drop, V: Clone>(pair: Option<(&K, &V)>) -> Result<Option<(K, V)>, AllocError>
    requires clone_keys { (x y : K) → K.is_clone x y → y ≡ x }
    requires clone_values { (x y : V) → V.is_clone x y → y ≡ x }
    ensures ok { IfOk result (λ copy. copy ≡ option_map deref_pair pair.entry) }
    ensures none { option_map deref_pair pair.entry ≡ None → result ≡ Ok None }
{
    match pair {
        None => Ok(None),
        Some((key, value)) => {
            let key = key.clone()?;
            Ok(Some((key, value.clone()?)))
        }
    }
}

impl<K: Ord + Clone + Drop, V: Clone + Drop, A: Allocator + Copy> RedBlackTreeMap<K, V, A> {
    /// Takes the pair of the least key out of the map, and returns clones of the key and its value, or None where there is no
    /// pair. The error, which leaves the map as it is, means that memory ran out or that a clone failed.
    ///
    /// It costs what [`remove_mut`](RedBlackTreeMap::remove_mut) of that key costs: nodes that no other map shares are
    /// changed in place.
    pub fn pop_first_mut(&mut self) -> Result<Option<(K, V)>, AllocError>
        requires clone_keys { (x y : K) → K.is_clone x y → y ≡ x }
        requires clone_values { (x y : V) → V.is_clone x y → y ≡ x }
        ensures ok { IfOk result (λ popped. MatchOption popped (self.old.entries ≡ [])
            (λ p. self.old.entries ≡ p ∷ self.new.entries)) }
        ensures depth { OnOk result (self.new.depth ≤ most_levels (length self.new.entries)) }
        ensures empty { self.old.entries ≡ [] → (result ≡ Ok None) × (self.new ≡ self.old) }
        ensures err { OnErr result (self.new ≡ self.old) }
    {
        self.pop_first_mut_counted(&mut Steps::new())
    }

    /// [`pop_first_mut`](RedBlackTreeMap::pop_first_mut), which counts the keys that it compares and the nodes that it makes.
    pub fn pop_first_mut_counted(&mut self, steps: &mut Steps) -> Result<Option<(K, V)>, AllocError>
        requires clone_keys { (x y : K) → K.is_clone x y → y ≡ x }
        requires clone_values { (x y : V) → V.is_clone x y → y ≡ x }
        ensures ok { IfOk result (λ popped. MatchOption popped (self.old.entries ≡ [])
            (λ p. self.old.entries ≡ p ∷ self.new.entries)) }
        ensures depth { OnOk result (self.new.depth ≤ most_levels (length self.new.entries)) }
        ensures empty { self.old.entries ≡ [] → (result ≡ Ok None) × (self.new ≡ self.old) }
        ensures err { OnErr result (self.new ≡ self.old) }

        ensures steps { let levels = most_levels (length self.old.entries) in
            IsWithin levels (4 * levels) steps.old steps.new }
        ensures compares { OnOk result (self.old.entries ≢ []
            → steps.old.compared < steps.new.compared) }
    {
        // For its clause: the keys ascend.
        let _size = self.size();
        match cloned(self.first())? {
            None => Ok(None),
            Some((key, value)) => {
                self.remove_mut_counted(&key, steps)?;
                Ok(Some((key, value)))
            }
        }
    }

    /// Takes the pair of the greatest key out of the map, and returns clones of the key and its value, as
    /// [`pop_first_mut`](RedBlackTreeMap::pop_first_mut) does at the other end.
    pub fn pop_last_mut(&mut self) -> Result<Option<(K, V)>, AllocError>
        requires clone_keys { (x y : K) → K.is_clone x y → y ≡ x }
        requires clone_values { (x y : V) → V.is_clone x y → y ≡ x }
        ensures ok { IfOk result (λ popped. MatchOption popped (self.old.entries ≡ [])
            (λ p. self.old.entries ≡ self.new.entries ++ p ∷ [])) }
        ensures depth { OnOk result (self.new.depth ≤ most_levels (length self.new.entries)) }
        ensures empty { self.old.entries ≡ [] → (result ≡ Ok None) × (self.new ≡ self.old) }
        ensures err { OnErr result (self.new ≡ self.old) }
    {
        self.pop_last_mut_counted(&mut Steps::new())
    }

    /// [`pop_last_mut`](RedBlackTreeMap::pop_last_mut), which counts the keys that it compares and the nodes that it makes.
    pub fn pop_last_mut_counted(&mut self, steps: &mut Steps) -> Result<Option<(K, V)>, AllocError>
        requires clone_keys { (x y : K) → K.is_clone x y → y ≡ x }
        requires clone_values { (x y : V) → V.is_clone x y → y ≡ x }
        ensures ok { IfOk result (λ popped. MatchOption popped (self.old.entries ≡ [])
            (λ p. self.old.entries ≡ self.new.entries ++ p ∷ [])) }
        ensures depth { OnOk result (self.new.depth ≤ most_levels (length self.new.entries)) }
        ensures empty { self.old.entries ≡ [] → (result ≡ Ok None) × (self.new ≡ self.old) }
        ensures err { OnErr result (self.new ≡ self.old) }

        ensures steps { let levels = most_levels (length self.old.entries) in
            IsWithin levels (4 * levels) steps.old steps.new }
        ensures compares { OnOk result (self.old.entries ≢ []
            → steps.old.compared < steps.new.compared) }
    {
        // For its clause: the keys ascend.
        let _size = self.size();
        match cloned(self.last())? {
            None => Ok(None),
            Some((key, value)) => {
                self.remove_mut_counted(&key, steps)?;
                Ok(Some((key, value)))
            }
        }
    }
}
