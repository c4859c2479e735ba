//! Where a change of a tree lies: told at one node after another, by a key or by a position.
ghost use Rattle.std.specs.Prelude.{◌≡◌, ℕ, suc, refl, ◌+◌, ◌<◌, ◌≤◌, [], ◌∷◌, ◌++◌, List, Option, None, length, set, take, drop, slice_get};
ghost use Rattle.std.specs.List.{insert};
ghost use Rattle.rpds_core.specs.Counts.{IsWithin};
ghost use Rattle.rpds_red_black.specs.Cuts.{items_of};
ghost use Rattle.rpds_red_black.specs.Pairs.{IsAscending, find, put};
ghost use Rattle.rpds_red_black.specs.KeySeeks.{above_form, below_form, key_parts};
ghost use Rattle.rpds_red_black.specs.Seeks.{IsAt, IsGapAt, IsPlacedBy, IsSoughtBy, Looks};
ghost use Rattle.rpds_red_black.specs.SeekLaws.{at_never_ends, at_parts, gap_at_end, gap_parts, none_before, none_after};
ghost use Rattle.rpds_red_black.specs.TreeNode.{pairs_of, pair_of};

use crate::tree::Node;
use rpds_core::key::OrdKey;
use rpds_core::map::entry::Entry;
use rpds_core::steps::Steps;
use std::alloc::Allocator;

/// Where a descent goes on from a node: it ends at the node's own entry, or goes on in a side, with what is looked for there.
#[derive(Clone, Copy, Drop)]
pub enum Aim<S> {
    /// At the node's own entry.
    Here,
    /// In its left side.
    Left(S),
    /// In its right side.
    Right(S),
}

/// A place for an entry: at its key, or at a position.
pub trait Place<K, V, A: Allocator>: Copy + Drop {
    /// What must hold of the pairs for the place to be found.
    ghost ready: { Self → List (K × V) → Type 0 };
    /// The pairs with one put there.
    ghost placed: { Self → K × V → List (K × V) → List (K × V) };
    /// How many keys are compared at a node: one, or none.
    ghost compares: { ℕ };

    /// Where the place of the entry lies in the node's tree. At most one key is compared.
    fn aim(self, entry: &Entry<K, V>, node: &Node<K, V, A>, steps: &mut Steps) -> Aim<Self>
        requires { ready self (pairs_of node.now) }
        ensures aim { IsPlacedBy ready placed self (pair_of entry.now) node.now result }
        ensures compares { steps.old.compared + compares ≤ steps.new.compared }
        ensures steps { IsWithin 1 0 steps.old steps.new };

    /// Where there is nothing, the pair is all.
    ghost alone: { (s : Self) (p : K × V) → ready s [] → placed s p [] ≡ p ∷ [] };
}

/// What is looked for in a tree: a key, or a position.
pub trait Seek<K, V, A: Allocator>: Copy + Drop {
    /// What must hold of the pairs for it to be found.
    ghost ready: { Self → List (K × V) → Type 0 };
    /// What it finds of a list of pairs.
    ghost looks: { Looks Self K V };
    /// How many keys are compared at a node: one, or none.
    ghost compares: { ℕ };

    /// Where it lies in the node's tree. At most one key is compared.
    fn aim(self, node: &Node<K, V, A>, steps: &mut Steps) -> Aim<Self>
        requires { ready self (pairs_of node.now) }
        ensures aim { IsSoughtBy ready looks self node.now result }
        ensures compares { steps.old.compared + compares ≤ steps.new.compared }
        ensures steps { IsWithin 1 0 steps.old steps.new };

    /// Where there is nothing, nothing is found.
    ghost none: { (s : Self) → ready s [] → (looks.before s [] ≡ []) × (looks.found s [] ≡ None) × (looks.after s [] ≡ []) };

    /// What is before it, what is at it and what is after it are all.
    ghost parts: { (s : Self) (es : List (K × V)) → ready s es
        → es ≡ looks.before s es ++ (items_of (looks.found s es) ++ looks.after s es) };
}

/// The gap before the pair at a position, or behind the last one, among so many pairs.
#[derive(Clone, Copy, Drop)]
pub struct Gap {
    /// How many pairs there are.
    pub size: usize,
    /// How many are before the gap.
    pub position: usize,
}

/// The pair at a position, among so many pairs.
#[derive(Clone, Copy, Drop)]
pub struct At {
    /// How many pairs there are.
    pub size: usize,
    /// How many are before it.
    pub position: usize,
}

impl Gap {
    // Where the gap lies in the node's tree.
    #[inline(always)]
    fn aim<K, V, A: Allocator>(self, node: &Node<K, V, A>) -> Aim<Gap>
        requires size { self.size ≡ length (pairs_of node.now) }
        requires within { self.position ≤ self.size }
        ensures { IsGapAt self node.now result }
    {
        let before = node.left.len_within(self.size);
        if self.position <= before {
            Aim::Left(Gap {
                size: before,
                position: self.position,
            })
        } else {
            Aim::Right(Gap {
                size: self.size - before - 1,
                position: self.position - before - 1,
            })
        }
    }
}

impl At {
    // Where the pair lies in the node's tree.
    #[inline(always)]
    pub(crate) fn aim<K, V, A: Allocator>(self, node: &Node<K, V, A>) -> Aim<At>
        requires size { self.size ≡ length (pairs_of node.now) }
        requires within { self.position < self.size }
        ensures { IsAt self node.now result }
    {
        let before = node.left.len_within(self.size);
        if self.position == before {
            return Aim::Here;
        }
        if self.position < before {
            Aim::Left(At {
                size: before,
                position: self.position,
            })
        } else {
            Aim::Right(At {
                size: self.size - before - 1,
                position: self.position - before - 1,
            })
        }
    }
}

impl<K, V, A: Allocator> Place<K, V, A> for Gap {
    ghost ready = { λ s es. (s.size ≡ length es) × (s.position ≤ length es) };

    ghost placed = { λ s p es. insert es s.position p };

    ghost compares = { 0 };

    #[inline(always)]
    #[tactic(auto, using(crate::proofs::ByPosition::gap_placed))]
    fn aim(self, _entry: &Entry<K, V>, node: &Node<K, V, A>, _steps: &mut Steps) -> Aim<Gap> {
        Gap::aim(self, node)
    }

    ghost alone = { λ s p r. gap_at_end s.position p r.1 };
}

impl<K, V, A: Allocator> Place<K, V, A> for At {
    ghost ready = { λ s es. (s.size ≡ length es) × (s.position < length es) };

    ghost placed = { λ s p es. set es s.position p };

    ghost compares = { 0 };

    #[inline(always)]
    #[tactic(auto, using(crate::proofs::ByPosition::at_placed))]
    fn aim(self, _entry: &Entry<K, V>, node: &Node<K, V, A>, _steps: &mut Steps) -> Aim<At> {
        At::aim(self, node)
    }

    ghost alone = { λ s p r. at_never_ends s.position r.1 };
}

impl<K, V, A: Allocator> Seek<K, V, A> for Gap {
    ghost ready = { λ s es. (s.size ≡ length es) × (s.position ≤ length es) };

    ghost looks = { record {
      before = λ s es. take s.position es;
      found = λ s es. None;
      after = λ s es. drop s.position es;
    } };

    ghost compares = { 0 };

    #[inline(always)]
    #[tactic(auto, using(crate::proofs::ByPosition::gap_sought))]
    fn aim(self, node: &Node<K, V, A>, _steps: &mut Steps) -> Aim<Gap> {
        Gap::aim(self, node)
    }

    ghost none = { λ s r. (none_before s.position r.1, refl, none_after s.position r.1) };

    ghost parts = { λ s es r. gap_parts s.position es };
}

impl<K, V, A: Allocator> Seek<K, V, A> for At {
    ghost ready = { λ s es. (s.size ≡ length es) × (s.position < length es) };

    ghost looks = { record {
      before = λ s es. take s.position es;
      found = λ s es. slice_get es s.position;
      after = λ s es. drop (suc s.position) es;
    } };

    ghost compares = { 0 };

    #[inline(always)]
    #[tactic(auto, using(crate::proofs::ByPosition::at_sought))]
    fn aim(self, node: &Node<K, V, A>, _steps: &mut Steps) -> Aim<At> {
        At::aim(self, node)
    }

    ghost none = { λ s r. at_never_ends s.position r.1 };

    ghost parts = { λ s es r. at_parts s.position es };
}

/// The first pair, or the place before it.
#[derive(Clone, Copy, Drop)]
pub struct First;

/// The place behind the last pair.
#[derive(Clone, Copy, Drop)]
pub struct Last;

impl<K, V, A: Allocator> Place<K, V, A> for First {
    ghost ready = { λ s es. Unit {0} };

    ghost placed = { λ s p es. p ∷ es };

    ghost compares = { 0 };

    #[inline(always)]
    fn aim(self, _entry: &Entry<K, V>, _node: &Node<K, V, A>, _steps: &mut Steps) -> Aim<First> {
        Aim::Left(First)
    }

    ghost alone = { λ s p r. refl };
}

impl<K, V, A: Allocator> Place<K, V, A> for Last {
    ghost ready = { λ s es. Unit {0} };

    ghost placed = { λ s p es. es ++ p ∷ [] };

    ghost compares = { 0 };

    #[inline(always)]
    fn aim(self, _entry: &Entry<K, V>, _node: &Node<K, V, A>, _steps: &mut Steps) -> Aim<Last> {
        Aim::Right(Last)
    }

    ghost alone = { λ s p r. refl };
}

impl<K, V, A: Allocator> Seek<K, V, A> for First {
    ghost ready = { λ s es. Unit {0} };

    ghost looks = { record {
      before = λ s es. [];
      found = λ s es. slice_get es 0;
      after = λ s es. drop 1 es;
    } };

    ghost compares = { 0 };

    #[inline(always)]
    fn aim(self, node: &Node<K, V, A>, _steps: &mut Steps) -> Aim<First> {
        node.left.prove_held();
        if node.left.is_leaf() {
            Aim::Here
        } else {
            Aim::Left(First)
        }
    }

    ghost none = { λ s r. (refl, refl, refl) };

    ghost parts = { λ s es r. at_parts 0 es };
}

/// The place of an entry by its own key.
#[derive(Clone, Copy, Drop)]
pub struct OwnKey;

impl<K: Ord, V, A: Allocator> Place<K, V, A> for OwnKey {
    ghost ready = { λ s es. IsAscending K.cmp es };

    ghost placed = { λ s p es. put K.cmp p es };

    ghost compares = { 1 };

    #[inline(always)]
    fn aim(self, entry: &Entry<K, V>, node: &Node<K, V, A>, steps: &mut Steps) -> Aim<OwnKey> {
        let order = steps.compare(&entry.key, &node.entry.key);
        if order.is_eq() {
            return Aim::Here;
        }
        if order.is_lt() {
            Aim::Left(OwnKey)
        } else {
            Aim::Right(OwnKey)
        }
    }

    ghost alone = { λ s p r. refl };
}

/// The pair of a key, which is given by a form of it.
#[derive(Clone, Copy, Drop)]
pub struct AtKey<Q> {
    /// The form.
    pub form: Q,
}

impl<K: Ord, V, A: Allocator, Q: OrdKey<K>> Seek<K, V, A> for AtKey<Q> {
    ghost ready = { λ _ es. IsAscending K.cmp es };

    ghost looks = { record {
      before = λ s es. below_form (Q.order (Q.seen s.form)) es;
      found = λ s es. find Q.order (Q.seen s.form) es;
      after = λ s es. above_form (Q.order (Q.seen s.form)) es;
    } };

    ghost compares = { 1 };

    #[inline(always)]
    fn aim(self, node: &Node<K, V, A>, steps: &mut Steps) -> Aim<AtKey<Q>> {
        let order = steps.compare_form(self.form, &node.entry.key);
        if order.is_eq() {
            return Aim::Here;
        }
        if order.is_lt() {
            Aim::Left(self)
        } else {
            Aim::Right(self)
        }
    }

    ghost none = { λ s r. (refl, refl, refl) };

    ghost parts = { λ s es r. key_parts K.cmp (Q.searches s.form) es r };
}
