//! A persistent list: the linked list of functional languages, whose versions share their tails.
ghost use Rattle.std.specs.Prelude.{◌≡◌, ◌+◌, ◌-◌, ◌≤◌, ◌<◌, ◌↔◌, [], ◌∷◌, Some, None, Ok, length, drop, reverse, slice_get, IsTrue, false, IfOk, OnOk, OnErr, IsOk, MatchOption};
ghost use Rattle.std.specs.Option.{option_copied, option_map};
ghost use Rattle.std.specs.Iterator.{IsFinite, Drains};

use crate::cells::{Link, Node, release};
use rpds_core::size::one_more;
use rpds_core::steps::Steps;
use std::alloc::{AllocError, Allocator, Global};
use std::marker::Model;
use std::mem;
use std::rc::Rc;

mod append;
mod compared;
mod extend;
mod from_back;
mod in_place;
mod iter;
mod std_traits;
mod text;

pub(crate) use from_back::FromBack;
use from_back::skip;
pub use iter::Iter;

/// A list whose changes give a new list and leave the old one as it is: the two share their common tail.
///
/// ```
/// let list = List::new(alloc).push_front("list")?;
/// let a_list = list.push_front("a")?; // `a`, `list`
/// let first = list.first(); // `list`, as before
/// ```
///
/// | call | cost | allocations |
/// |---|---|---|
/// | `new`, `first`, `last`, `len`, `is_empty`, `iter` | constant | none |
/// | `push_front`, `push_front_mut` | constant | two: the item and its cell |
/// | `drop_first`, `drop_first_mut`, `split_first`, `clone` | constant | none |
/// | `clear` | one step an item that no other list shares | none |
/// | `skip` | one step an item that is skipped | none |
/// | `append`, `append_mut` | one step an item of the first list | one an item of the first list, and a buffer |
/// | `reverse` | one step an item | one an item |
/// | `reverse_mut` | one step an item | one buffer for up to 16,384 items that no other list shares, else one an item and at most that buffer |
/// | `from_iter`, `from_array` | one step an item | two an item, and a buffer |
/// | `extend` | one step an item that comes | two an item |
/// | an iteration, `==`, `cmp`, `hash`, `Display`, `Debug` | one step an item | none |
///
/// A list is dropped in a loop, so that a long one needs no deep stack.
///
/// A recursive type can't go through a list: `docs/CALLING.md` shows the ways out.
#[must_use = "a change returns a new list, and leaves the old one as it is"]
pub struct List<T, A: Allocator = Global> {
    alloc: A,
    head: Link<T, A>,
    last: Option<Rc<T, A>>,
    len: usize,
}

impl<T, A: Allocator> Model for List<T, A> {
    ghost use Rattle.std.specs.Prelude.{◌≡◌, List, length};
    ghost use Rattle.std.specs.Option.{option_map};

    ghost Value = { List T };

    ghost use Rattle.rpds_list.specs.Chain.{items, last_of};

    ghost view = { λ l. items l.head };

    ghost invariant = { λ l. (l.len ≡ length (items l.head)) × (option_map (λ r. r.value) l.last ≡ last_of (items l.head)) };
}

impl<T: Drop, A: Allocator> Drop for List<T, A> {
    fn drop(self) {
        let List {
            alloc: _,
            head,
            last: _,
            len: _,
        } = self;
        release(head);
    }
}

impl<T: Drop, A: Allocator + Copy> Link<T, A> {
    ghost use Rattle.rpds_list.specs.Chain.{items};

    // A cell with the item, before these. It is counted even if an allocation fails.
    #[inline(always)]
    fn prepend(&self, alloc: A, item: T, steps: &mut Steps) -> Result<Link<T, A>, AllocError>
        ensures items { IfOk result (λ link. items link ≡ item ∷ items self.now) }
        ensures made { steps.new ≡ record steps.old { made = steps.old.made + 1 } }
    {
        steps.raise_made();
        let value = Rc::new(alloc, item)?;
        let next = self.share()?;
        Ok(Link::More(Rc::new(alloc, Node { value, next })?))
    }

    // Another handle to the first item.
    #[inline(always)]
    fn first(&self) -> Result<Option<Rc<T, A>>, AllocError>
        ensures { IfOk result (λ first.
            option_map (λ item. item.value) first ≡ slice_get (items self.now) 0) }
    {
        match self {
            Link::End => Ok(None),
            Link::More(node) => Ok(Some(node.value.clone()?)),
        }
    }
}

impl<T, A: Allocator> List<T, A> {
    /// The empty list. It allocates nothing.
    pub fn new(alloc: A) -> List<T, A>
        ensures { result ≡ [] }
    {
        List {
            alloc,
            head: Link::End,
            last: None,
            len: 0,
        }
    }

    /// The first item, if there is one.
    pub fn first(&self) -> Option<&T>
        ensures { option_copied result ≡ slice_get self.now 0 }
    {
        match &self.head {
            Link::End => None,
            Link::More(node) => Some(node.value.as_ref()),
        }
    }

    /// The last item, if there is one. The list keeps it at hand, so no cell is visited.
    #[tactic(auto, using(crate::proofs::Chains::last_of_get))]
    pub fn last(&self) -> Option<&T>
        ensures { option_copied result ≡ slice_get self.now (length self.now - 1) }
    {
        match &self.last {
            None => None,
            Some(value) => Some(value.as_ref()),
        }
    }

    /// The allocator that the list was made with.
    pub fn allocator(&self) -> &A {
        &self.alloc
    }

    /// How many items there are.
    pub fn len(&self) -> usize
        ensures { result ≡ length self.now }
    {
        self.len
    }

    /// Whether there is no item.
    pub fn is_empty(&self) -> bool
        ensures { IsTrue result ↔ (self.now ≡ []) }
    {
        self.len() == 0
    }

    /// An iterator over the items, the first one first. It allocates nothing.
    pub fn iter(&self) -> Iter<'_, T, A>
        ensures { result ≡ self.now }
    {
        Iter::over(&self.head, self.len)
    }
}

impl<T: Drop, A: Allocator + Copy> List<T, A> {
    /// The items in the order in which they come.
    pub fn from_iter<U: IntoIterator<Item = T>>(alloc: A, iter: U) -> Result<List<T, A>, AllocError>
        requires ends { (it : U.IntoIter) → U.into_iter_gives iter it
            → U.IntoIter.can_next it × IsFinite (U.IntoIter.remaining it) }
        ensures { IfOk result (λ list. (it : U.IntoIter) × U.into_iter_gives iter it
            × Drains U.IntoIter.next_gives it list) }
    {
        let mut items = Vec::new(alloc);
        for item in iter {
            items.push(item)?;
        }
        List::from_items(alloc, items)
    }

    /// The items of the array in their order. The error means that memory ran out, and drops the items.
    pub fn from_array<const N: usize>(alloc: A, items: [T; N]) -> Result<List<T, A>, AllocError>
        ensures { IfOk result (λ list. list ≡ items) }
    {
        match Vec::from_array(alloc, items) {
            Ok(items) => List::from_items(alloc, items),
            Err(refused) => Err(AllocError::from(refused)),
        }
    }

    // The items of a buffer in their order.
    fn from_items(alloc: A, mut items: Vec<T, A>) -> Result<List<T, A>, AllocError>
        ensures { IfOk result (λ list. list ≡ items.items) }
    {
        let mut list = List::new(alloc);
        while let Some(item) = items.pop() {
            list.push_front_mut(item)?;
        }
        Ok(list)
    }

    /// The list with the item before its first one. Two allocations: the item and its cell. An error means that there is no
    /// memory, or that the list has the greatest size.
    #[inline(always)]
    pub fn push_front(&self, item: T) -> Result<List<T, A>, AllocError>
        ensures { IfOk result (λ list. list ≡ item ∷ self.now) }
    {
        self.push_front_counted(item, &mut Steps::new())
    }

    /// [`push_front`](List::push_front), which adds one to `made`, for the cell.
    #[inline(always)]
    pub fn push_front_counted(&self, item: T, steps: &mut Steps) -> Result<List<T, A>, AllocError>
        ensures list { IfOk result (λ list. list ≡ item ∷ self.now) }
        ensures made { steps.new ≡ record steps.old { made = steps.old.made + 1 } }
    {
        let head = self.head.prepend(self.alloc, item, steps)?;
        let last = match &self.last {
            None => head.first()?,
            Some(last) => Some(last.clone()?),
        };
        Ok(List {
            alloc: self.alloc,
            head,
            last,
            len: one_more(self.len)?,
        })
    }

    /// Puts the item before the first one. An error, where there is no memory or the list has the greatest size, leaves the
    /// items.
    pub fn push_front_mut(&mut self, item: T) -> Result<(), AllocError>
        ensures ok { OnOk result (self.new ≡ item ∷ self.old) }
        ensures err { OnErr result (self.new ≡ self.old) }
    {
        one_more(self.len)?;
        let value = Rc::new(self.alloc, item)?;
        self.push_front_shared(value)
    }

    // The item may have owners besides this list.
    #[inline(always)]
    fn push_front_shared(&mut self, value: Rc<T, A>) -> Result<(), AllocError>
        requires { length self.old < usize.MAX }
        ensures ok { OnOk result (self.new ≡ value.value ∷ self.old) }
        ensures err { OnErr result (self.new ≡ self.old) }
    {
        if self.len == 0 {
            self.last = Some(value.clone()?);
        }
        let next = mem::replace(&mut self.head, Link::End);
        match Rc::new(self.alloc, Node { value, next }) {
            Ok(node) => {
                self.head = Link::More(node);
                self.len += 1;
                Ok(())
            }
            Err(failed) => {
                let node = failed.value;
                let Node { value: _, next } = node;
                self.head = next;
                if self.len == 0 {
                    self.last = None;
                }
                Err(AllocError)
            }
        }
    }

    /// The list without its first item, or None where there is no item. An error means that a reference count
    /// overflowed.
    pub fn drop_first(&self) -> Result<Option<List<T, A>>, AllocError>
        ensures ok { 0 < length self.now → IfOk result (λ rest. rest ≡ Some (drop 1 self.now)) }
        ensures empty { self.now ≡ [] → result ≡ Ok None }
    {
        self.drop_first_counted(&mut Steps::new())
    }

    /// [`drop_first`](List::drop_first), which changes no count: it makes no cell.
    pub fn drop_first_counted(&self, steps: &mut Steps) -> Result<Option<List<T, A>>, AllocError>
        ensures ok { 0 < length self.now → IfOk result (λ rest. rest ≡ Some (drop 1 self.now)) }
        ensures empty { self.now ≡ [] → result ≡ Ok None }
        ensures counts { steps.new ≡ steps.old }
    {
        let Link::More(node) = &self.head else {
            return Ok(None);
        };
        let head = node.next.share()?;
        let last = match &head {
            Link::End => None,
            Link::More(_) => match &self.last {
                None => None,
                Some(last) => Some(last.clone()?),
            },
        };
        Ok(Some(List {
            alloc: self.alloc,
            head,
            last,
            len: self.len - 1,
        }))
    }

    /// The first item and the list without it, as `split_first` of a slice, or None where there is no item. An error means that
    /// a reference count overflowed.
    pub fn split_first(&self) -> Result<Option<(&T, List<T, A>)>, AllocError>
        ensures ok { IfOk result (λ parts.
            MatchOption parts (self.now ≡ []) (λ p. self.now ≡ p.0.now ∷ p.1)) }
        ensures empty { self.now ≡ [] → result ≡ Ok None }
    {
        match (self.first(), self.drop_first()?) {
            (Some(first), Some(rest)) => Ok(Some((first, rest))),
            _ => Ok(None),
        }
    }

    /// Drops the first item, and returns whether there was one. An error, where a reference count overflows, leaves
    /// the items.
    pub fn drop_first_mut(&mut self) -> Result<bool, AllocError>
        ensures found { IfOk result (λ dropped. IsTrue dropped ↔ (0 < length self.old)) }
        ensures ok { OnOk result (self.new ≡ drop 1 self.old) }
        ensures err { OnErr result (self.new ≡ self.old) }
        ensures empty { self.old ≡ [] → (result ≡ Ok false) × (self.new ≡ self.old) }
    {
        let Link::More(node) = mem::replace(&mut self.head, Link::End) else {
            return Ok(false);
        };
        match Rc::try_unwrap(node) {
            Ok(node) => {
                let Node { value: _, next } = node;
                self.head = next;
            }
            Err(node) => match node.next.share() {
                Ok(next) => self.head = next,
                Err(overflow) => {
                    self.head = Link::More(node);
                    return Err(overflow);
                }
            },
        }
        self.len -= 1;
        if self.len == 0 {
            self.last = None;
        }
        Ok(true)
    }

    /// The list without its first `count` items, and the empty list where it has no more than those. It shares the cells
    /// that are left. An error means that a reference count overflowed.
    pub fn skip(&self, count: usize) -> Result<List<T, A>, AllocError>
        ensures { IfOk result (λ rest. rest ≡ drop count self.now) }
    {
        if count >= self.len {
            return Ok(List::new(self.alloc));
        }
        let head = skip(&self.head, count).share()?;
        let last = match &self.last {
            None => None,
            Some(last) => Some(last.clone()?),
        };
        Ok(List {
            alloc: self.alloc,
            head,
            last,
            len: self.len - count,
        })
    }

    /// Drops all items, but for those that another list shares. It allocates nothing.
    pub fn clear(&mut self)
        ensures { self.new ≡ [] }
    {
        *self = List::new(self.alloc);
    }

    /// The items from back to front. They are shared, not cloned.
    pub fn reverse(&self) -> Result<List<T, A>, AllocError>
        ensures list { IfOk result (λ list. list ≡ reverse self.now) }
        ensures empty { self.now ≡ [] → IsOk result }
    {
        self.reverse_counted(&mut Steps::new())
    }

    /// [`reverse`](List::reverse), which adds one to `moved` for each item that it puts into the new list.
    pub fn reverse_counted(&self, steps: &mut Steps) -> Result<List<T, A>, AllocError>
        ensures list { IfOk result (λ list. list ≡ reverse self.now) }
        ensures empty { self.now ≡ [] → IsOk result }
        ensures moved { IfOk result (λ _. steps.new.moved ≡ steps.old.moved + length self.now) }
        ensures at_most { steps.new.moved ≤ steps.old.moved + length self.now }
        ensures others { steps.new ≡ record steps.old { moved = steps.new.moved } }
    {
        // For its invariant: the length is below 2^64.
        let _len = self.len;
        let mut reversed = List::new(self.alloc);
        let mut link = &self.head;
        while let Link::More(node) = link {
            reversed.push_front_shared(node.value.clone()?)?;
            steps.raise_moved();
            link = &node.next;
        }
        Ok(reversed)
    }

    /// Reverses the list: one of up to 16,384 items that shares no cell in its own cells, which takes up to 20 bytes of the stack for
    /// each, any other in new ones. An error leaves the items in their order.
    pub fn reverse_mut(&mut self) -> Result<(), AllocError>
        ensures ok { OnOk result (self.new ≡ reverse self.old) }
        ensures err { OnErr result (self.new ≡ self.old) }
        ensures empty { self.old ≡ [] → IsOk result }
    {
        let len = self.len();
        if self.reverse_own(len, &mut Steps::new())? {
            return Ok(());
        }
        *self = self.reverse()?;
        Ok(())
    }

    /// Another handle to the same list: both own the same cells. It allocates nothing, and fails only where a
    /// reference count overflows.
    pub fn clone(&self) -> Result<List<T, A>, AllocError>
        ensures { IfOk result (λ copy. copy ≡ self.now) }
    {
        self.clone_counted(&mut Steps::new())
    }

    /// [`clone`](List::clone), which changes no count: it makes no cell.
    #[inline(always)]
    pub fn clone_counted(&self, steps: &mut Steps) -> Result<List<T, A>, AllocError>
        ensures copy { IfOk result (λ copy. copy ≡ self.now) }
        ensures counts { steps.new ≡ steps.old }
    {
        let Link::More(node) = &self.head else {
            return Ok(List::new(self.alloc));
        };
        let last = match &self.last {
            None => None,
            Some(value) => Some(value.clone()?),
        };
        Ok(List {
            alloc: self.alloc,
            head: Link::More(node.clone()?),
            last,
            len: self.len,
        })
    }
}

impl<T: Drop, A: Allocator + Copy> Clone for List<T, A> {
    ghost is_clone = { λ list copy. copy ≡ list };

    fn clone(&self) -> Result<List<T, A>, AllocError> {
        List::clone(self)
    }
}
