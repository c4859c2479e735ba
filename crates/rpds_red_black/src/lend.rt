//! The value of a key, or the key at a position, lent to be written to: the path to it is made the tree's own first.
ghost use Rattle.std.specs.Prelude.{◌+◌, Ok, Err, slice_get};
ghost use Rattle.std.specs.Option.{option_map};
ghost use Rattle.rpds_core.specs.declared.lend.ValueMutError.TheVariants.{Absent};
ghost use Rattle.rpds_red_black.specs.Pairs.{find};
ghost use Rattle.rpds_red_black.specs.Values.{tree_with_key_at, tree_with_value_by, IsReady, IsPlaceIn};

use crate::seek::{Aim, At};
use crate::tree::{Link, Tree};
use crate::unique::make_unique;
use rpds_core::key::OrdKey;
use rpds_core::lend::{Descent, Lend, Levels, NotLent, Search, ValueMutError};
use rpds_core::own::own;
use rpds_core::steps::Steps;
use std::alloc::Allocator;

/// How a value is looked for in a tree: by its key, which is given by a form of it.
pub struct ByKey;

impl<K: Ord + Clone + Drop, V: Clone + Drop, A: Allocator + Copy, Q: OrdKey<K>> Search<
    Tree<K, V, A>,
    Q,
    V,
> for ByKey {
    ghost depth = { λ t. t.depth };

    ghost ready = { λ t form. IsReady K.cmp K.is_clone V.is_clone t };

    ghost value = { λ t form. option_map (λ p. p.1) (find Q.order (Q.seen form) t.entries) };

    ghost written = { λ t form v. tree_with_value_by (Q.order (Q.seen form)) t v };
}

/// One level of a descent through a tree.
pub struct Level;

impl<K: Ord + Clone + Drop, V: Clone + Drop, A: Allocator + Copy, Q: OrdKey<K>> Levels<
    Tree<K, V, A>,
    Q,
    V,
    ByKey,
> for Level {
    ghost levels = { 1 };

    fn descend<'a, L: Lend<Tree<K, V, A>, Q, V, ByKey>>(
        tree: &'a mut Tree<K, V, A>,
        descent: &mut Descent<Q>,
        steps: &mut Steps,
    ) -> Result<&'a mut V, NotLent> {
        match &mut tree.root {
            Link::Leaf => {
                descent.failure = ValueMutError::Absent;
                Err(NotLent)
            }
            Link::Branch(_, _, node) => {
                let node = make_unique(node, steps)?;
                let order = steps.compare_form(descent.key, &node.entry.key);
                if order.is_eq() {
                    let entry = own(&mut node.entry)?;
                    return Ok(&mut entry.value);
                }
                if order.is_lt() {
                    L::lend(&mut node.left, descent, steps)
                } else {
                    L::lend(&mut node.right, descent, steps)
                }
            }
        }
    }
}

/// The end of a descent: a tree of no levels is empty.
pub struct Leaf;

impl<K: Ord + Clone + Drop, V: Clone + Drop, A: Allocator + Copy, Q: OrdKey<K>> Lend<
    Tree<K, V, A>,
    Q,
    V,
    ByKey,
> for Leaf {
    ghost reach = { 0 };

    fn lend<'a>(
        tree: &'a mut Tree<K, V, A>,
        descent: &mut Descent<Q>,
        _steps: &mut Steps,
    ) -> Result<&'a mut V, NotLent> {
        // For its view: a tree of no levels has no root.
        let _root = &tree.root;
        descent.failure = ValueMutError::Absent;
        Err(NotLent)
    }
}

/// How a key is looked for in a tree: by its position.
pub struct ByPosition;

impl<K: Clone + Drop, V: Clone + Drop, A: Allocator + Copy> Search<Tree<K, V, A>, At, K>
    for ByPosition {
    ghost depth = { λ t. t.depth };

    ghost ready = { λ t place. IsPlaceIn K.is_clone V.is_clone t place };

    ghost value = { λ t place. option_map (λ p. p.0) (slice_get t.entries place.position) };

    ghost written = { λ t place k. tree_with_key_at t place.position k };
}

/// One level of a descent to a position.
pub struct PositionLevel;

impl<K: Clone + Drop, V: Clone + Drop, A: Allocator + Copy> Levels<Tree<K, V, A>, At, K, ByPosition>
    for PositionLevel {
    ghost levels = { 1 };

    fn descend<'a, L: Lend<Tree<K, V, A>, At, K, ByPosition>>(
        tree: &'a mut Tree<K, V, A>,
        descent: &mut Descent<At>,
        steps: &mut Steps,
    ) -> Result<&'a mut K, NotLent> {
        match &mut tree.root {
            Link::Leaf => Err(NotLent),
            Link::Branch(_, _, node) => {
                let node = make_unique(node, steps)?;
                let aim = At::aim(descent.key, node);
                match aim {
                    Aim::Here => {
                        let entry = own(&mut node.entry)?;
                        Ok(&mut entry.key)
                    }
                    Aim::Left(below) => {
                        let mut descent = Descent {
                            key: below,
                            failure: ValueMutError::NoMemory,
                        };
                        L::lend(&mut node.left, &mut descent, steps)
                    }
                    Aim::Right(below) => {
                        let mut descent = Descent {
                            key: below,
                            failure: ValueMutError::NoMemory,
                        };
                        L::lend(&mut node.right, &mut descent, steps)
                    }
                }
            }
        }
    }
}

/// The end of a descent to a position: a tree of no levels has none.
pub struct PositionLeaf;

impl<K: Clone + Drop, V: Clone + Drop, A: Allocator + Copy> Lend<Tree<K, V, A>, At, K, ByPosition>
    for PositionLeaf {
    ghost reach = { 0 };

    fn lend<'a>(
        tree: &'a mut Tree<K, V, A>,
        _descent: &mut Descent<At>,
        _steps: &mut Steps,
    ) -> Result<&'a mut K, NotLent> {
        // For its view: a tree of no levels has no root.
        let _root = &tree.root;
        Err(NotLent)
    }
}
