//! A map of a list whose keys ascend, and one of an array.
ghost use Rattle.std.specs.Prelude.{◌≡◌, ◌+◌, ◌<◌, ◌≤◌, [], length, map, vec_len, IsOk, IfOk, IsSome, OnOk};
ghost use Rattle.std.specs.Map.{keys_of};
ghost use Rattle.rpds_core.specs.Counts.{IsMadeWithin};
ghost use Rattle.rpds_red_black.specs.Logarithm.{floor_log2, most_levels};
ghost use Rattle.rpds_red_black.specs.Pairs.{put_all};
ghost use Rattle.rpds_tree.specs.Sorted.{first_out_of_order, reported_position};

use crate::in_order::in_order;
use crate::map::red_black_tree_map::RedBlackTreeMap;
use crate::sorted::{SortedError, first_out_of_order};
use rpds_core::steps::Steps;
use rpds_red_black::sorted_item::SortedItem;
use rpds_red_black::tree::Tree;
use std::alloc::{AllocError, Allocator};

impl<K: Ord + Drop, V: Drop, A: Allocator + Copy> RedBlackTreeMap<K, V, A> {
    // The map of items that come by ascending keys.
    pub(crate) fn from_items<X: SortedItem<K, V, A> + Drop>(
        alloc: A,
        items: Vec<X, A>,
        steps: &mut Steps,
    ) -> Result<RedBlackTreeMap<K, V, A>, SortedError>
        ensures entries { IfOk result (λ m. m.entries ≡ map X.pair items.items) }
        ensures out_of_order { reported_position result
            ≡ first_out_of_order K.cmp (keys_of (map X.pair items.items)) }
        ensures depth { IfOk result (λ m. m.depth ≤ floor_log2 (vec_len items) + 1) }
        ensures empty { items.items ≡ [] → IsOk result }
        ensures made { OnOk result
            (steps.new ≡ record steps.old { made = steps.old.made + vec_len items }) }
        ensures steps { IsMadeWithin (vec_len items) steps.old steps.new }
        ensures untouched { IsSome (reported_position result) → steps.new ≡ steps.old }
    {
        if let Some(position) = first_out_of_order(&items) {
            return Err(SortedError::NotAscending(position));
        }
        let size = items.len();
        let tree = Tree::from_items(alloc, items, steps)?;
        Ok(RedBlackTreeMap::of_tree(alloc, tree, size))
    }

    // The map of items in any order, each put into the map of those before it.
    pub(crate) fn collected<X: SortedItem<K, V, A> + Drop>(
        alloc: A,
        items: Vec<X, A>,
    ) -> Result<RedBlackTreeMap<K, V, A>, AllocError>
        ensures entries { IfOk result (λ m. m.entries ≡ put_all K.cmp [] (map X.pair items.items)) }
        ensures depth { IfOk result (λ m. m.depth ≤ most_levels (length m.entries)) }
        ensures shallowest { IfOk result (λ m. m.depth ≤ floor_log2 (length m.entries) + 1) }
    {
        let ordered = in_order(items)?;
        let size = ordered.len();
        let tree = Tree::from_items(alloc, ordered, &mut Steps::new())?;
        Ok(RedBlackTreeMap::of_tree(alloc, tree, size))
    }

    /// The pairs of the array in their order, each put into the map of those before it: of equal keys the last one stays, with its
    /// value.
    ///
    /// It costs what [`from_iter`](RedBlackTreeMap::from_iter) costs, and no path is longer. The error means that memory ran out, and
    /// drops the pairs.
    pub fn from_array<const N: usize>(
        alloc: A,
        pairs: [(K, V); N],
    ) -> Result<RedBlackTreeMap<K, V, A>, AllocError>
        ensures entries { IfOk result (λ m. m.entries ≡ put_all K.cmp [] pairs) }
        ensures depth { IfOk result (λ m. m.depth ≤ most_levels (length m.entries)) }
        ensures shallowest { IfOk result (λ m. m.depth ≤ floor_log2 (length m.entries) + 1) }
    {
        match Vec::from_array(alloc, pairs) {
            Ok(pairs) => RedBlackTreeMap::collected(alloc, pairs),
            Err(refused) => Err(AllocError::from(refused)),
        }
    }
}
