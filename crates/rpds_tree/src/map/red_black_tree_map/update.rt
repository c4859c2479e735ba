//! The value of a key, made of the one that it had.
ghost use Rattle.std.specs.Prelude.{◌≡◌, Ok, IfOk, OnOk, OnErr};
ghost use Rattle.std.specs.Option.{option_map};
ghost use Rattle.rpds_core.specs.Calls.{FnOnceReturnsAtOption};
ghost use Rattle.rpds_red_black.specs.Pairs.{find, put};

use crate::map::red_black_tree_map::RedBlackTreeMap;
use std::alloc::{AllocError, Allocator};

impl<K: Ord + Drop, V: Drop, A: Allocator + Copy> RedBlackTreeMap<K, V, A> {
    /// The map with what `change` answers as the value of the key, which takes the place of an equal key: a count, a sum, a
    /// list that grows. `change` is handed the value that the key has, or `None` where it is absent, and an error of it is
    /// handed on. Nothing is cloned.
    ///
    /// The error means that `change` failed or that memory ran out; it comes, too, where there are `usize::MAX` pairs.
    pub fn update<F: FnOnce(Option<&V>) -> Result<V, AllocError>>(
        &self,
        key: K,
        change: F,
    ) -> Result<RedBlackTreeMap<K, V, A>, AllocError>
        requires { F.IsAlwaysCallable change }
        ensures { let old = option_map (λ p. p.1) (find K.cmp key self.now.entries) in
            IfOk result (λ m. (value : V) × FnOnceReturnsAtOption F.FnOnce change old (Ok value)
            × (m.entries ≡ put K.cmp (key, value) self.now.entries)) }
    {
        let mut map = self.clone()?;
        map.update_mut(key, change)?;
        Ok(map)
    }

    /// [`update`](RedBlackTreeMap::update), in place. An error leaves the map as it is.
    ///
    /// Where no other map shares the key's pair, [`value_mut`](RedBlackTreeMap::value_mut) writes to its value in place, and is
    /// faster.
    pub fn update_mut<F: FnOnce(Option<&V>) -> Result<V, AllocError>>(
        &mut self,
        key: K,
        change: F,
    ) -> Result<(), AllocError>
        requires { F.IsAlwaysCallable change }
        ensures ok { let old = option_map (λ p. p.1) (find K.cmp key self.old.entries) in
            OnOk result ((value : V) × FnOnceReturnsAtOption F.FnOnce change old (Ok value)
            × (self.new.entries ≡ put K.cmp (key, value) self.old.entries)) }
        ensures err { OnErr result (self.new ≡ self.old) }
    {
        let value = change(self.get(&key))?;
        self.insert_mut(key, value)
    }
}
