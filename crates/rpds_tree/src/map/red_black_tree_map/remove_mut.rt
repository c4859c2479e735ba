//! Removal in place: from a map whose root another map shares, and from one that owns its root.
ghost use Rattle.std.specs.Prelude.{◌≡◌, ◌≢◌, ◌*◌, ◌<◌, ◌≤◌, [], Ok, false, is_some, length, IfOk, OnOk, OnErr};
ghost use Rattle.std.specs.List.{remove};
ghost use Rattle.rpds_core.specs.Counts.{IsWithin};
ghost use Rattle.rpds_red_black.specs.Logarithm.{most_levels};
ghost use Rattle.rpds_red_black.specs.Pairs.{find, without};

use crate::map::red_black_tree_map::RedBlackTreeMap;
use rpds_core::key::OrdKey;
use rpds_core::steps::Steps;
use std::alloc::{AllocError, Allocator};

impl<K: Ord + Drop, V: Drop, A: Allocator + Copy> RedBlackTreeMap<K, V, A> {
    /// Puts the map without the key in place of this one. An absent key is looked for alone, and no node is made.
    pub(crate) fn remove_shared<Q: OrdKey<K>>(
        &mut self,
        key: Q,
        steps: &mut Steps,
    ) -> Result<bool, AllocError>
        ensures found { IfOk result (λ there.
            there ≡ is_some (find Q.order (Q.seen key) self.old.entries)) }
        ensures ok { OnOk result (self.new.entries ≡ without Q.order (Q.seen key) self.old.entries) }
        ensures absent { result ≡ Ok false → self.new ≡ self.old }
        ensures err { OnErr result (self.new ≡ self.old) }
        ensures depth { OnOk result (self.new.depth ≤ most_levels (length self.new.entries)) }
        ensures steps { let levels = most_levels (length self.old.entries) in
            IsWithin levels (4 * levels) steps.old steps.new }
        ensures compares { self.old.entries ≢ [] → steps.old.compared < steps.new.compared }
    {
        match self.remove_present(key, steps)? {
            None => Ok(false),
            Some(map) => {
                *self = map;
                Ok(true)
            }
        }
    }

    /// Takes the key out of the nodes that no other map shares, and copies the others on its way.
    pub(crate) fn remove_owned<Q: OrdKey<K>>(
        &mut self,
        key: Q,
        steps: &mut Steps,
    ) -> Result<bool, AllocError>
        ensures found { IfOk result (λ there.
            there ≡ is_some (find Q.order (Q.seen key) self.old.entries)) }
        ensures ok { OnOk result (self.new.entries ≡ without Q.order (Q.seen key) self.old.entries) }
        ensures absent { result ≡ Ok false → self.new ≡ self.old }
        ensures err { OnErr result (self.new ≡ self.old) }
        ensures depth { OnOk result (self.new.depth ≤ most_levels (length self.new.entries)) }
        ensures steps { let levels = most_levels (length self.old.entries) in
            IsWithin levels (4 * levels) steps.old steps.new }
        ensures compares { self.old.entries ≢ [] → steps.old.compared < steps.new.compared }
    {
        if !self.tree.take_counted(key, steps)? {
            return Ok(false);
        }
        self.tree.prove_sound();
        self.size -= 1;
        Ok(true)
    }

    // Takes the pair at the position out of the map: out of a version of its own where another map shares the root. It compares
    // no key.
    pub(crate) fn take_nth(&mut self, position: usize, steps: &mut Steps) -> Result<(), AllocError>
        requires { position < length self.old.entries }
        ensures ok { OnOk result (self.new.entries ≡ remove self.old.entries position) }
        ensures err { OnErr result (self.new ≡ self.old) }
        ensures depth { OnOk result (self.new.depth ≤ most_levels (length self.new.entries)) }
    {
        if self.tree.is_shared() {
            return self.take_nth_shared(position, steps);
        }
        self.tree.take_at(self.size, position, steps)?;
        self.tree.prove_sound();
        self.size -= 1;
        Ok(())
    }

    // Puts the map without the pair at the position in place of this one.
    fn take_nth_shared(&mut self, position: usize, steps: &mut Steps) -> Result<(), AllocError>
        requires { position < length self.old.entries }
        ensures ok { OnOk result (self.new.entries ≡ remove self.old.entries position) }
        ensures err { OnErr result (self.new ≡ self.old) }
        ensures depth { OnOk result (self.new.depth ≤ most_levels (length self.new.entries)) }
    {
        let left = self.without_nth(position, steps)?;
        *self = left;
        Ok(())
    }

    // The map without the pair at the position.
    fn without_nth(
        &self,
        position: usize,
        steps: &mut Steps,
    ) -> Result<RedBlackTreeMap<K, V, A>, AllocError>
        requires { position < length self.now.entries }
        ensures ok { IfOk result (λ m. m.entries ≡ remove self.now.entries position) }
        ensures depth { IfOk result (λ m. m.depth ≤ most_levels (length m.entries)) }
    {
        let tree = self.tree.remove_at(self.alloc, self.size, position, steps)?;
        Ok(RedBlackTreeMap::of_tree(self.alloc, tree, self.size - 1))
    }
}
