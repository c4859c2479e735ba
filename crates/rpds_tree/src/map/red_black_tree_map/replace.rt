//! The value that a key had before it is replaced or taken out.
ghost use Rattle.std.specs.Prelude.{◌≡◌, IfOk, OnOk, OnErr};
ghost use Rattle.std.specs.Option.{option_map};
ghost use Rattle.rpds_red_black.specs.Pairs.{find, put, without};

use crate::map::red_black_tree_map::RedBlackTreeMap;
use rpds_core::key::OrdKey;
use std::alloc::{AllocError, Allocator};

// A clone of the value of the key, if it is there.
fn value_of<K: Ord, V: Clone, A: Allocator, Q: OrdKey<K>>(
    map: &RedBlackTreeMap<K, V, A>,
    key: Q,
) -> Result<Option<V>, AllocError>
    requires { (x y : V) → V.is_clone x y → y ≡ x }
    ensures { IfOk result (λ value.
        value ≡ option_map (λ p. p.1) (find Q.order (Q.seen key) map.now.entries)) }
{
    match map.get(key) {
        None => Ok(None),
        Some(value) => Ok(Some(value.clone()?)),
    }
}

impl<K: Ord + Drop, V: Clone + Drop, A: Allocator + Copy> RedBlackTreeMap<K, V, A> {
    /// Puts the pair in, in place of an equal key and its value, and returns a clone of that value. An error leaves the map as
    /// it is.
    ///
    /// The error means that memory ran out or that the clone failed; it comes, too, where there are `usize::MAX` pairs.
    pub fn replace(&mut self, key: K, value: V) -> Result<Option<V>, AllocError>
        requires { (x y : V) → V.is_clone x y → y ≡ x }
        ensures value { IfOk result (λ old.
            old ≡ option_map (λ p. p.1) (find K.cmp key self.old.entries)) }
        ensures ok { OnOk result (self.new.entries ≡ put K.cmp (key, value) self.old.entries) }
        ensures err { OnErr result (self.new ≡ self.old) }
    {
        let old = value_of(self, &key)?;
        self.insert_mut(key, value)?;
        Ok(old)
    }

    /// Takes the key out, and returns a clone of the value that it had. An error leaves the map as it is.
    ///
    /// The error means that memory ran out or that the clone failed.
    pub fn take<Q: OrdKey<K>>(&mut self, key: Q) -> Result<Option<V>, AllocError>
        requires { (x y : V) → V.is_clone x y → y ≡ x }
        ensures value { IfOk result (λ old.
            old ≡ option_map (λ p. p.1) (find Q.order (Q.seen key) self.old.entries)) }
        ensures ok { OnOk result (self.new.entries ≡ without Q.order (Q.seen key) self.old.entries) }
        ensures err { OnErr result (self.new ≡ self.old) }
    {
        let old = value_of(self, key)?;
        self.remove_mut(key)?;
        Ok(old)
    }
}
