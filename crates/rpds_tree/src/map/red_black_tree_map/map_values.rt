//! A map with other values.
ghost use Rattle.std.specs.Prelude.{◌≡◌, Ok, IfOk};
ghost use Rattle.std.specs.Fn.{FnReturnsAt};
ghost use Rattle.std.specs.Option.{option_map};
ghost use Rattle.rpds_core.specs.Calls.{HaveValuesOf};
ghost use Rattle.rpds_red_black.specs.Pairs.{find};

use crate::map::red_black_tree_map::RedBlackTreeMap;
use std::alloc::{AllocError, Allocator};

impl<K: Ord + Clone + Drop, V, A: Allocator + Copy> RedBlackTreeMap<K, V, A> {
    /// The map of the same keys, each with what `change` answers at its value, which may be of another type.
    ///
    /// The error means that `change` or the clone of a key failed, or that memory ran out.
    pub fn map_values<W: Drop, F: Fn(&V) -> Result<W, AllocError>>(
        &self,
        change: F,
    ) -> Result<RedBlackTreeMap<K, W, A>, AllocError>
        requires clone_keys { (x y : K) → K.is_clone x y → y ≡ x }
        requires callable { F.IsAlwaysCallable change }
        ensures ok { IfOk result (λ m. HaveValuesOf F.Fn change self.now.entries m.entries) }
        ensures values { IfOk result (λ m. (h : V → W) → ((x : V) (y : W) → FnReturnsAt F.Fn change x (Ok y) → y ≡ h x) → (k : K)
            → option_map (λ p. p.1) (find K.cmp k m.entries) ≡ option_map h (option_map (λ p. p.1) (find K.cmp k self.now.entries))) }
    {
        let mut pairs = Vec::with_capacity(*self.allocator(), self.size())?;
        for (key, value) in self {
            pairs.push((key.clone()?, change(value)?))?;
        }
        match RedBlackTreeMap::from_sorted(*self.allocator(), pairs) {
            Ok(map) => Ok(map),
            // The keys ascend, so memory ran out.
            Err(_) => Err(AllocError),
        }
    }
}
