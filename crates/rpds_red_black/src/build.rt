//! A tree of a list whose keys ascend.
ghost use Rattle.std.specs.Prelude.{◌≡◌, ◌+◌, ◌*◌, ◌^◌, ◌++◌, ◌<◌, ◌≤◌, [], ◌∷◌, map, vec_len, IsOk, IfOk, OnOk};
ghost use Rattle.rpds_core.specs.Counts.{IsMadeWithin};
ghost use Rattle.rpds_red_black.specs.Logarithm.{floor_log2};
ghost use Rattle.rpds_red_black.specs.declared.tree.Color.TheVariants.{Black};
ghost use Rattle.rpds_red_black.specs.TreeNode.{pair_of};

use crate::sorted_item::SortedItem;
use crate::tree::{Color, Node, Tree};
use rpds_core::map::entry::Entry;
use rpds_core::steps::Steps;
use std::alloc::{AllocError, Allocator};
use std::rc::Rc;

impl<K: Drop, V: Drop, A: Allocator + Copy> Tree<K, V, A> {
    /// A tree of all items, with a black root: no tree of as many nodes is shallower. Each node is made once. The error means that
    /// memory ran out.
    pub fn from_items<X: SortedItem<K, V, A> + Drop>(
        alloc: A,
        mut items: Vec<X, A>,
        steps: &mut Steps,
    ) -> Result<Tree<K, V, A>, AllocError>
        ensures pairs { IfOk result (λ t. t.entries ≡ map X.pair items.items) }
        ensures black { IfOk result (λ t. t.color ≡ Black) }
        ensures depth { IfOk result (λ t. t.depth ≤ floor_log2 (vec_len items) + 1) }
        ensures made { OnOk result
            (steps.new ≡ record steps.old { made = steps.old.made + vec_len items }) }
        ensures steps { IsMadeWithin (vec_len items) steps.old steps.new }
        ensures empty { items.items ≡ [] → IsOk result }
    {
        match items.len() {
            0 => Ok(Tree::new()),
            1 => {
                let entry = take_last(alloc, &mut items)?;
                Tree::of_entry(alloc, Color::Black, entry, steps)
            }
            count => Tree::build(alloc, &mut items, count, count.ilog2(), steps),
        }
    }

    // A tree of the last `count` items, which leave the list: a node over two halves, which differ by one item at most.
    // Its `height` upper levels are full and black, and the nodes that are left stand below them, red.
    //
    // After `treeify` of Appel (Efficient Verified Red-Black Trees, 2011): each node is made once, and none is looked at
    // again.
    fn build<X: SortedItem<K, V, A> + Drop>(
        alloc: A,
        items: &mut Vec<X, A>,
        count: usize,
        height: u32,
        steps: &mut Steps,
    ) -> Result<Tree<K, V, A>, AllocError>
        requires there { count ≤ vec_len items.old }
        requires enough { 2 ^ height ≤ count + 1 }
        requires few { count < 2 * 2 ^ height }
        ensures pairs { IfOk result (λ t.
            map X.pair items.old.items ≡ map X.pair items.new.items ++ t.entries) }
        ensures rest { OnOk result (vec_len items.old ≡ vec_len items.new + count) }
        ensures black { IfOk result (λ t. t.black ≡ height) }
        ensures color { IfOk result (λ t. 0 < height → t.color ≡ Black) }
        ensures depth { IfOk result (λ t. t.depth ≤ height + 1) }
        ensures made { OnOk result
            (steps.new ≡ record steps.old { made = steps.old.made + count }) }
        ensures steps { IsMadeWithin count steps.old steps.new }
    {
        if count == 0 {
            return Ok(Tree::new());
        }
        if height == 0 {
            let entry = take_last(alloc, items)?;
            return Tree::of_entry(alloc, Color::Red, entry, steps);
        }
        let below = count - 1;
        let right = Tree::build(alloc, items, below / 2, height - 1, steps)?;
        let entry = take_last(alloc, items)?;
        let left = Tree::build(alloc, items, below - below / 2, height - 1, steps)?;
        let node = Node { left, entry, right };
        Tree::from_node(alloc, Color::Black, node, steps)
    }
}

// The entry of the last item, which leaves the list.
fn take_last<K: Drop, V: Drop, X: SortedItem<K, V, A>, A: Allocator>(
    alloc: A,
    items: &mut Vec<X, A>,
) -> Result<Rc<Entry<K, V>, A>, AllocError>
    requires { 0 < vec_len items.old }
    ensures pairs { IfOk result (λ e.
        map X.pair items.old.items ≡ map X.pair items.new.items ++ pair_of e.value ∷ []) }
    ensures rest { vec_len items.old ≡ vec_len items.new + 1 }
{
    let Some(item) = items.pop() else {
        unreachable!();
    };
    item.into_entry(alloc)
}
