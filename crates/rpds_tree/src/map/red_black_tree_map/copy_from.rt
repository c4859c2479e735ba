//! What a key has in one map, taken over into another.
ghost use Rattle.std.specs.Prelude.{◌≡◌, ◌+◌, ◌*◌, IfOk, OnOk, OnErr, length};
ghost use Rattle.rpds_core.specs.Counts.{IsWithin};
ghost use Rattle.rpds_red_black.specs.Logarithm.{most_levels};
ghost use Rattle.rpds_red_black.specs.Pairs.{find};
ghost use Rattle.rpds_tree.specs.Altered.{with_found};

use crate::map::red_black_tree_map::RedBlackTreeMap;
use rpds_core::key::OrdKey;
use rpds_core::steps::Steps;
use std::alloc::{AllocError, Allocator};

impl<K: Ord + Drop, V: Drop, A: Allocator + Copy> RedBlackTreeMap<K, V, A> {
    /// The map in which the key has what it has in the other one: the stored pair there, which both maps then share, or nothing.
    /// Neither a key nor a value is cloned.
    ///
    /// The error means that memory ran out; it comes, too, where a pair comes and there are `usize::MAX` pairs.
    pub fn copy_from<Q: OrdKey<K>>(
        &self,
        other: &RedBlackTreeMap<K, V, A>,
        key: Q,
    ) -> Result<RedBlackTreeMap<K, V, A>, AllocError>
        ensures { let seek = Q.order (Q.seen key) in
            IfOk result (λ m. m.entries ≡ with_found K.cmp seek (find Q.order (Q.seen key) other.now.entries) self.now.entries) }
    {
        let mut map = self.clone()?;
        map.copy_from_mut(other, key)?;
        Ok(map)
    }

    /// [`copy_from`](RedBlackTreeMap::copy_from), in place. An error leaves the map as it is.
    pub fn copy_from_mut<Q: OrdKey<K>>(
        &mut self,
        other: &RedBlackTreeMap<K, V, A>,
        key: Q,
    ) -> Result<(), AllocError>
        ensures ok { let seek = Q.order (Q.seen key) in
            OnOk result (self.new.entries ≡ with_found K.cmp seek (find Q.order (Q.seen key) other.now.entries) self.old.entries) }
        ensures err { OnErr result (self.new ≡ self.old) }
    {
        self.copy_from_mut_counted(other, key, &mut Steps::new())
    }

    /// [`copy_from_mut`](RedBlackTreeMap::copy_from_mut), which counts the keys that it compares and the nodes that it makes.
    pub fn copy_from_mut_counted<Q: OrdKey<K>>(
        &mut self,
        other: &RedBlackTreeMap<K, V, A>,
        key: Q,
        steps: &mut Steps,
    ) -> Result<(), AllocError>
        ensures ok { let seek = Q.order (Q.seen key) in
            OnOk result (self.new.entries ≡ with_found K.cmp seek (find Q.order (Q.seen key) other.now.entries) self.old.entries) }
        ensures err { OnErr result (self.new ≡ self.old) }
        ensures steps { let levels = most_levels (length self.old.entries) in
            IsWithin (most_levels (length other.now.entries) + levels) (4 * levels + 1) steps.old steps.new }
    {
        match other.shared_entry_counted(key, steps)? {
            Some(entry) => self.insert_entry(entry, steps),
            None => {
                self.remove_mut_counted(key, steps)?;
                Ok(())
            }
        }
    }
}
