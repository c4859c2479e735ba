//! The pairs of a map that flags choose.
ghost use Rattle.std.specs.Prelude.{◌≡◌, ◌≤◌, length, map, IfOk};
ghost use Rattle.std.specs.List.{filter, items_where_true};
ghost use Rattle.rpds_red_black.specs.Logarithm.{most_levels};
ghost use Rattle.rpds_red_black.specs.OrderedMap.{IsOrdered};
ghost use Rattle.rpds_red_black.specs.TreeNode.{pair_of};

use crate::map::red_black_tree_map::RedBlackTreeMap;
use rpds_core::map::entry::Entry;
use rpds_core::steps::Steps;
use rpds_red_black::tree::Tree;
use rpds_red_black::walk::{Forward, Walk};
use std::alloc::{AllocError, Allocator};
use std::rc::Rc;

// How many flags are true.
fn count_true(flags: &[bool]) -> usize
    ensures { result ≡ length (filter (λ b. b) flags.now) }
{
    let mut count = 0;
    for flag in flags {
        if *flag {
            count += 1;
        }
    }
    count
}

impl<K: Ord + Drop, V: Drop, A: Allocator + Copy> RedBlackTreeMap<K, V, A> {
    /// The map of the pairs whose flags are true. Each pair has a flag, in the order of the keys. Where all flags are true, it
    /// is another handle to the same map.
    ///
    /// Where at least 10 times as many stay as go, those that go are taken out one by one, and the map shares all nodes that aren't
    /// on their paths or next to them. Else it is built at once, as by [`from_sorted`](RedBlackTreeMap::from_sorted), and each pair
    /// that stays gets one more owner. No key is compared.
    pub fn keep_by_flags(&self, keeps: &[bool]) -> Result<RedBlackTreeMap<K, V, A>, AllocError>
        requires { length keeps.now ≡ length self.now.entries }
        ensures ok { IfOk result (λ m. m.entries ≡ items_where_true keeps.now self.now.entries) }
        ensures all { items_where_true keeps.now self.now.entries ≡ self.now.entries
            → IfOk result (λ m. m ≡ self.now) }
        ensures depth { IfOk result (λ m. m.depth ≤ most_levels (length m.entries)) }
    {
        self.keep_by_flags_counted(keeps, &mut Steps::new())
    }

    // The same, which counts the nodes that it makes. No clause says that it compares no key: a tree's `take_at` allows it.
    fn keep_by_flags_counted(
        &self,
        keeps: &[bool],
        steps: &mut Steps,
    ) -> Result<RedBlackTreeMap<K, V, A>, AllocError>
        requires { length keeps.now ≡ length self.now.entries }
        ensures ok { IfOk result (λ m. m.entries ≡ items_where_true keeps.now self.now.entries) }
        ensures all { items_where_true keeps.now self.now.entries ≡ self.now.entries
            → IfOk result (λ m. m ≡ self.now) }
        ensures depth { IfOk result (λ m. m.depth ≤ most_levels (length m.entries)) }
    {
        let stay = count_true(keeps);
        let go = self.size() - stay;
        if go == 0 {
            self.clone_counted(steps)
        } else if go <= stay / 10 {
            self.without_others(keeps, steps)
        } else {
            self.built_of(keeps, stay, steps)
        }
    }

    // A walk over all pairs.
    #[inline(always)]
    fn walk(&self) -> Walk<'_, K, V, A, Forward>
        ensures rest { result ≡ self.now.entries }
        ensures ordered { IsOrdered K.cmp self.now }
    {
        // For its clauses: the keys ascend, and no path is long.
        let _size = self.size();
        Walk::over(&self.tree)
    }

    // The map of the pairs whose flags are true, by taking the others out one by one.
    fn without_others(
        &self,
        keeps: &[bool],
        steps: &mut Steps,
    ) -> Result<RedBlackTreeMap<K, V, A>, AllocError>
        requires { length keeps.now ≡ length self.now.entries }
        ensures ok { IfOk result (λ m. m.entries ≡ items_where_true keeps.now self.now.entries) }
        ensures depth { IfOk result (λ m. m.depth ≤ most_levels (length m.entries)) }
    {
        // For its clause: no path is long.
        let _size = self.size();
        let mut left = self.clone()?;
        let mut position = 0;
        for stays in keeps {
            if !*stays {
                left.take_nth(position, steps)?;
            } else {
                position += 1;
            }
        }
        Ok(left)
    }

    // The same map, built of their entries.
    fn built_of(
        &self,
        keeps: &[bool],
        stay: usize,
        steps: &mut Steps,
    ) -> Result<RedBlackTreeMap<K, V, A>, AllocError>
        requires flags { length keeps.now ≡ length self.now.entries }
        requires count { stay ≡ length (filter (λ b. b) keeps.now) }
        ensures ok { IfOk result (λ m. m.entries ≡ items_where_true keeps.now self.now.entries) }
        ensures depth { IfOk result (λ m. m.depth ≤ most_levels (length m.entries)) }
    {
        let chosen = self.share_chosen(keeps, stay)?;
        let tree = Tree::from_items(self.alloc, chosen, steps)?;
        Ok(RedBlackTreeMap::of_tree(self.alloc, tree, stay))
    }

    // Their entries, each with one more owner.
    fn share_chosen(
        &self,
        keeps: &[bool],
        stay: usize,
    ) -> Result<Vec<Rc<Entry<K, V>, A>, A>, AllocError>
        requires { length keeps.now ≡ length self.now.entries }
        ensures { IfOk result (λ chosen. map (λ e. pair_of e.value) chosen.items
            ≡ items_where_true keeps.now self.now.entries) }
    {
        let mut chosen = Vec::with_capacity(self.alloc, stay)?;
        let mut walk = self.walk();
        for stays in keeps {
            let entry = walk.next_entry();
            if *stays {
                chosen.push(entry.clone()?)?;
            }
        }
        Ok(chosen)
    }
}
