//! Sets without their first or last member.
ghost use Rattle.std.specs.Prelude.{◌≡◌, ◌≢◌, ◌*◌, ◌<◌, ◌≤◌, ◌∷◌, ◌++◌, [], Ok, None, length, IfOk, IfSome, MatchOption, OnErr, OnOk};
ghost use Rattle.rpds_core.specs.Counts.{IsWithin};
ghost use Rattle.rpds_red_black.specs.Logarithm.{most_levels};

use crate::set::red_black_tree_set::RedBlackTreeSet;
use rpds_core::steps::Steps;
use std::alloc::{AllocError, Allocator};

#[tactic(auto, using(crate::proofs::Members::member_rules))]
impl<T: Ord + Drop, A: Allocator + Copy> RedBlackTreeSet<T, A> {
    /// The least member and the set without it, or None where there is no member. It compares none, and makes the nodes of
    /// one path anew, and some next to it.
    pub fn pop_first(&self) -> Result<Option<(&T, RedBlackTreeSet<T, A>)>, AllocError>
        ensures ok { IfOk result (λ popped. MatchOption popped (self.now.members ≡ [])
            (λ p. self.now.members ≡ p.0.now ∷ p.1.members)) }
        ensures depth { IfOk result (λ popped. IfSome popped (λ p.
            p.1.depth ≤ most_levels (length p.1.members))) }
        ensures empty { self.now.members ≡ [] → result ≡ Ok None }
    {
        self.pop_first_counted(&mut Steps::new())
    }

    /// [`pop_first`](RedBlackTreeSet::pop_first), which counts the nodes that it makes.
    pub fn pop_first_counted(
        &self,
        steps: &mut Steps,
    ) -> Result<Option<(&T, RedBlackTreeSet<T, A>)>, AllocError>
        ensures ok { IfOk result (λ popped. MatchOption popped (self.now.members ≡ [])
            (λ p. self.now.members ≡ p.0.now ∷ p.1.members)) }
        ensures depth { IfOk result (λ popped. IfSome popped (λ p.
            p.1.depth ≤ most_levels (length p.1.members))) }
        ensures empty { self.now.members ≡ [] → result ≡ Ok None }

        ensures makes { IfOk result (λ popped. IfSome popped (λ p. p.1.members ≢ []
            → steps.old.made < steps.new.made)) }
        ensures steps { IsWithin 0 (4 * most_levels (length self.now.members)) steps.old steps.new }
    {
        match self.map.pop_first_counted(steps)? {
            None => Ok(None),
            Some(((member, _), map)) => Ok(Some((member, RedBlackTreeSet { map }))),
        }
    }

    /// The greatest member and the set without it, or None where there is no member. It costs what
    /// [`pop_first`](RedBlackTreeSet::pop_first) costs.
    pub fn pop_last(&self) -> Result<Option<(&T, RedBlackTreeSet<T, A>)>, AllocError>
        ensures ok { IfOk result (λ popped. MatchOption popped (self.now.members ≡ [])
            (λ p. self.now.members ≡ p.1.members ++ p.0.now ∷ [])) }
        ensures depth { IfOk result (λ popped. IfSome popped (λ p.
            p.1.depth ≤ most_levels (length p.1.members))) }
        ensures empty { self.now.members ≡ [] → result ≡ Ok None }
    {
        self.pop_last_counted(&mut Steps::new())
    }

    /// [`pop_last`](RedBlackTreeSet::pop_last), which counts the nodes that it makes.
    pub fn pop_last_counted(
        &self,
        steps: &mut Steps,
    ) -> Result<Option<(&T, RedBlackTreeSet<T, A>)>, AllocError>
        ensures ok { IfOk result (λ popped. MatchOption popped (self.now.members ≡ [])
            (λ p. self.now.members ≡ p.1.members ++ p.0.now ∷ [])) }
        ensures depth { IfOk result (λ popped. IfSome popped (λ p.
            p.1.depth ≤ most_levels (length p.1.members))) }
        ensures empty { self.now.members ≡ [] → result ≡ Ok None }

        ensures makes { IfOk result (λ popped. IfSome popped (λ p. p.1.members ≢ []
            → steps.old.made < steps.new.made)) }
        ensures steps { IsWithin 0 (4 * most_levels (length self.now.members)) steps.old steps.new }
    {
        match self.map.pop_last_counted(steps)? {
            None => Ok(None),
            Some(((member, _), map)) => Ok(Some((member, RedBlackTreeSet { map }))),
        }
    }
}

#[tactic(auto, using(crate::proofs::Members::member_rules))]
impl<T: Ord + Clone + Drop, A: Allocator + Copy> RedBlackTreeSet<T, A> {
    /// Takes the least member out of the set, and returns a clone of it, or None where there is no member. The error, which
    /// leaves the set as it is, means that memory ran out or that the clone failed.
    ///
    /// It costs what [`remove_mut`](RedBlackTreeSet::remove_mut) of that member costs: nodes that no other set shares are
    /// changed in place.
    pub fn pop_first_mut(&mut self) -> Result<Option<T>, AllocError>
        requires { (x y : T) → T.is_clone x y → y ≡ x }
        ensures ok { IfOk result (λ popped. MatchOption popped (self.old.members ≡ [])
            (λ m. self.old.members ≡ m ∷ self.new.members)) }
        ensures depth { OnOk result (self.new.depth ≤ most_levels (length self.new.members)) }
        ensures empty { self.old.members ≡ [] → (result ≡ Ok None) × (self.new ≡ self.old) }
        ensures err { OnErr result (self.new ≡ self.old) }
    {
        self.pop_first_mut_counted(&mut Steps::new())
    }

    /// [`pop_first_mut`](RedBlackTreeSet::pop_first_mut), which counts the members that it compares and the nodes that it
    /// makes.
    pub fn pop_first_mut_counted(&mut self, steps: &mut Steps) -> Result<Option<T>, AllocError>
        requires { (x y : T) → T.is_clone x y → y ≡ x }
        ensures ok { IfOk result (λ popped. MatchOption popped (self.old.members ≡ [])
            (λ m. self.old.members ≡ m ∷ self.new.members)) }
        ensures depth { OnOk result (self.new.depth ≤ most_levels (length self.new.members)) }
        ensures empty { self.old.members ≡ [] → (result ≡ Ok None) × (self.new ≡ self.old) }
        ensures err { OnErr result (self.new ≡ self.old) }

        ensures steps { let levels = most_levels (length self.old.members) in
            IsWithin levels (4 * levels) steps.old steps.new }
        ensures compares { OnOk result (self.old.members ≢ []
            → steps.old.compared < steps.new.compared) }
    {
        match self.map.pop_first_mut_counted(steps)? {
            None => Ok(None),
            Some((member, _)) => Ok(Some(member)),
        }
    }

    /// Takes the greatest member out of the set, and returns a clone of it, as
    /// [`pop_first_mut`](RedBlackTreeSet::pop_first_mut) does at the other end.
    pub fn pop_last_mut(&mut self) -> Result<Option<T>, AllocError>
        requires { (x y : T) → T.is_clone x y → y ≡ x }
        ensures ok { IfOk result (λ popped. MatchOption popped (self.old.members ≡ [])
            (λ m. self.old.members ≡ self.new.members ++ m ∷ [])) }
        ensures depth { OnOk result (self.new.depth ≤ most_levels (length self.new.members)) }
        ensures empty { self.old.members ≡ [] → (result ≡ Ok None) × (self.new ≡ self.old) }
        ensures err { OnErr result (self.new ≡ self.old) }
    {
        self.pop_last_mut_counted(&mut Steps::new())
    }

    /// [`pop_last_mut`](RedBlackTreeSet::pop_last_mut), which counts the members that it compares and the nodes that it
    /// makes.
    pub fn pop_last_mut_counted(&mut self, steps: &mut Steps) -> Result<Option<T>, AllocError>
        requires { (x y : T) → T.is_clone x y → y ≡ x }
        ensures ok { IfOk result (λ popped. MatchOption popped (self.old.members ≡ [])
            (λ m. self.old.members ≡ self.new.members ++ m ∷ [])) }
        ensures depth { OnOk result (self.new.depth ≤ most_levels (length self.new.members)) }
        ensures empty { self.old.members ≡ [] → (result ≡ Ok None) × (self.new ≡ self.old) }
        ensures err { OnErr result (self.new ≡ self.old) }

        ensures steps { let levels = most_levels (length self.old.members) in
            IsWithin levels (4 * levels) steps.old steps.new }
        ensures compares { OnOk result (self.old.members ≢ []
            → steps.old.compared < steps.new.compared) }
    {
        match self.map.pop_last_mut_counted(steps)? {
            None => Ok(None),
            Some((member, _)) => Ok(Some(member)),
        }
    }
}
