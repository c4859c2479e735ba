//! The members of a set that flags choose.
ghost use Rattle.std.specs.Prelude.{◌≡◌, ◌≤◌, length, IfOk};
ghost use Rattle.std.specs.List.{items_where_true};
ghost use Rattle.rpds_red_black.specs.Logarithm.{most_levels};

use crate::set::red_black_tree_set::RedBlackTreeSet;
use std::alloc::{AllocError, Allocator};

impl<T: Ord + Drop, A: Allocator + Copy> RedBlackTreeSet<T, A> {
    /// The set of the members whose flags are true. Each member has a flag, in their order. Where all flags are true, it is
    /// another handle to the same set.
    ///
    /// Where at least 10 times as many stay as go, those that go are taken out one by one, and the set shares all nodes that
    /// aren't on their paths or next to them. Else it is built at once, as by
    /// [`from_sorted`](RedBlackTreeSet::from_sorted), and each member that stays gets one more owner. No member is compared.
    pub fn keep_by_flags(&self, keeps: &[bool]) -> Result<RedBlackTreeSet<T, A>, AllocError>
        requires { length keeps.now ≡ length self.now.members }
        ensures ok { IfOk result (λ s. s.members ≡ items_where_true keeps.now self.now.members) }
        ensures all { items_where_true keeps.now self.now.members ≡ self.now.members
            → IfOk result (λ s. s ≡ self.now) }
        ensures depth { IfOk result (λ s. s.depth ≤ most_levels (length s.members)) }
    {
        let map = self.map.keep_by_flags(keeps)?;
        Ok(RedBlackTreeSet { map })
    }
}
