//! A pair that several maps share.
ghost use Rattle.std.specs.Prelude.{◌≡◌, ◌≤◌, IfOk, OnErr, OnOk, length};
ghost use Rattle.std.specs.Option.{option_map};
ghost use Rattle.rpds_core.specs.Counts.{IsWithin};
ghost use Rattle.rpds_red_black.specs.Logarithm.{most_levels};
ghost use Rattle.rpds_red_black.specs.Pairs.{find, put};

use crate::map::red_black_tree_map::RedBlackTreeMap;
use rpds_core::key::OrdKey;
use rpds_core::map::entry::Entry;
use rpds_core::steps::Steps;
use std::alloc::{AllocError, Allocator};
use std::rc::Rc;

impl<K: Ord + Drop, V: Drop, A: Allocator + Copy> RedBlackTreeMap<K, V, A> {
    /// The stored pair of the key, if it is there, for [`insert_shared`](RedBlackTreeMap::insert_shared) into other maps. It
    /// allocates nothing, and fails only on a reference count overflow.
    pub fn shared_entry<Q: OrdKey<K>>(
        &self,
        key: Q,
    ) -> Result<Option<Rc<Entry<K, V>, A>>, AllocError>
        ensures { IfOk result (λ entry. option_map (λ e. (e.value.key, e.value.value)) entry
            ≡ find Q.order (Q.seen key) self.now.entries) }
    {
        self.shared_entry_counted(key, &mut Steps::new())
    }

    /// [`shared_entry`](RedBlackTreeMap::shared_entry), which adds one to `compared` for each key that it compares: at most one on
    /// each level.
    pub fn shared_entry_counted<Q: OrdKey<K>>(
        &self,
        key: Q,
        steps: &mut Steps,
    ) -> Result<Option<Rc<Entry<K, V>, A>>, AllocError>
        ensures found { IfOk result (λ entry. option_map (λ e. (e.value.key, e.value.value)) entry
            ≡ find Q.order (Q.seen key) self.now.entries) }
        ensures steps { IsWithin (most_levels (length self.now.entries)) 0 steps.old steps.new }
    {
        // For its clause: no path is long.
        let _size = self.size();
        self.tree.shared_entry_counted(key, steps)
    }

    /// The map with a pair in it that other maps may have too, which replaces an equal key and its value. Neither the key nor the
    /// value is cloned.
    ///
    /// The error means that memory ran out; it comes, too, where there are `usize::MAX` pairs.
    pub fn insert_shared(
        &self,
        entry: Rc<Entry<K, V>, A>,
    ) -> Result<RedBlackTreeMap<K, V, A>, AllocError>
        ensures ok { IfOk result (λ m. m.entries ≡ put K.cmp (entry.value.key, entry.value.value) self.now.entries) }
        ensures depth { IfOk result (λ m. m.depth ≤ most_levels (length m.entries)) }
    {
        let mut map = self.clone()?;
        map.insert_shared_mut(entry)?;
        Ok(map)
    }

    /// [`insert_shared`](RedBlackTreeMap::insert_shared), in place. An error leaves the map as it is.
    pub fn insert_shared_mut(&mut self, entry: Rc<Entry<K, V>, A>) -> Result<(), AllocError>
        ensures ok { OnOk result (self.new.entries ≡ put K.cmp (entry.value.key, entry.value.value) self.old.entries) }
        ensures err { OnErr result (self.new ≡ self.old) }
        ensures depth { OnOk result (self.new.depth ≤ most_levels (length self.new.entries)) }
    {
        self.insert_entry(entry, &mut Steps::new())
    }
}
