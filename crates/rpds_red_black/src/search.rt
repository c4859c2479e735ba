//! A binary search down one path of a tree.
ghost use Rattle.std.specs.Prelude.{◌≡◌, length};
ghost use Rattle.std.specs.Fn.{ComputesKey};
ghost use Rattle.std.specs.List.Sorted.{IsBinarySearchResult, IsSearchInRange};
ghost use Rattle.std.specs.Map.{keys_of};
ghost use Rattle.std.specs.declared.cmp.Ordering.{Ordering};

use crate::tree::Tree;
use std::alloc::Allocator;
use std::cmp::Ordering;

impl<K, V, A: Allocator> Tree<K, V, A> {
    /// The position of a key at which `order` answers `Equal`, among `size` pairs. Where there is none, it is the place behind the
    /// keys at which it answers `Less`, and an error. `order` is called at most once on each level.
    pub fn search_by<F: FnMut(&K) -> Ordering>(
        &self,
        size: usize,
        mut order: F,
    ) -> Result<usize, usize>
        requires size { size ≡ length self.now.entries }
        requires callable { F.IsAlwaysCallable order }
        ensures bound { IsSearchInRange result size }
        ensures position { (ord : K → Ordering) → ComputesKey F.FnMut ord order
            → IsBinarySearchResult ord (keys_of self.now.entries) result }
    {
        let mut tree = self;
        let mut size = size;
        let mut before = 0;
        while let Some(node) = tree.node() {
            let left = node.left.len_within(size);
            let answer = order(&node.entry.key);
            if answer.is_eq() {
                return Ok(before + left);
            }
            if answer.is_lt() {
                tree = &node.right;
                size -= left + 1;
                before += left + 1;
            } else {
                tree = &node.left;
                size = left;
            }
        }
        Err(before)
    }
}
