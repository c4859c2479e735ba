//! A list before another one.
ghost use Rattle.std.specs.Prelude.{◌≡◌, ◌++◌, length, IfOk, OnOk, OnErr, vec_len};
ghost use Rattle.rpds_core.specs.Rows.{behind};

use super::List;
use crate::cells::Link;
use rpds_core::size::total;
use std::alloc::{AllocError, Allocator};
use std::rc::Rc;

impl<T: Drop, A: Allocator + Copy> List<T, A> {
    /// The items of this list and then those of the other, with this list's allocator. It shares the cells of the other, and
    /// makes one for each item of this list. No item is cloned. An error means that there is no memory, or that both have more
    /// items than the greatest size.
    pub fn append(&self, other: &List<T, A>) -> Result<List<T, A>, AllocError>
        ensures { IfOk result (λ list. list ≡ self.now ++ other.now) }
    {
        total(self.len, other.len)?;
        let mut items = self.shared_items()?;
        let mut joined = other.clone()?;
        joined.alloc = self.alloc;
        while let Some(item) = items.pop() {
            joined.push_front_shared(item)?;
        }
        Ok(joined)
    }

    /// Puts the items of the other list behind the last one, as [`append`](List::append). An error leaves the items.
    pub fn append_mut(&mut self, other: &List<T, A>) -> Result<(), AllocError>
        ensures ok { OnOk result (self.new ≡ self.old ++ other.now) }
        ensures err { OnErr result (self.new ≡ self.old) }
    {
        *self = self.append(other)?;
        Ok(())
    }

    // Another handle to each item, in order.
    pub(super) fn shared_items(&self) -> Result<Vec<Rc<T, A>, A>, AllocError>
        ensures items { IfOk result (λ items. behind items.items ≡ self.now) }
        ensures len { IfOk result (λ items. vec_len items ≡ length self.now) }
    {
        let mut items = Vec::with_capacity(self.alloc, self.len)?;
        let mut link = &self.head;
        while let Link::More(node) = link {
            items.push_reserved(node.value.clone()?);
            link = &node.next;
        }
        Ok(items)
    }
}
