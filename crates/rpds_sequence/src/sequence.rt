//! A persistent sequence that changes in the middle.
ghost use Rattle.std.specs.Prelude.{◌≡◌, ◌+◌, ◌-◌, ◌<◌, ◌≤◌, Some, ◌↔◌, [], length, slice_get, IsTrue, IfOk};
ghost use Rattle.std.specs.Option.{option_copied};
ghost use Rattle.rpds_red_black.specs.Logarithm.{most_levels};
ghost use Rattle.rpds_red_black.specs.declared.tree.Color.TheVariants.{Black};
ghost use Rattle.rpds_sequence.specs.Contents.{items_of};

mod build;
mod changes;
mod compared;
mod ends;
mod iter;
mod lend;
mod parts;
mod retain;
mod search;
mod std_traits;
mod text;
mod update;

pub use crate::sequence::iter::Iter;
use rpds_core::steps::Steps;
use rpds_red_black::tree::Tree;
use std::alloc::{AllocError, Allocator, Global};
use std::marker::Model;
use std::ops::Index;

/// A sequence whose changes, at any place, give a new sequence and leave the one that they start from as it is. The two share all
/// nodes but those of one or two paths.
///
/// ```
/// let text = Sequence::from_iter(rt.alloc(), ["one", "three"])?;
/// let Some(edited) = text.insert(1, "two")? else {
///     return Ok(());
/// };
/// println!(rt; "{text} {edited}")?;    // [one, three] [one, two, three]
/// ```
///
/// It is a red-black tree whose links count the items below them, so that an item is found by its index; no order of the items
/// is asked for. Two sequences are put together, and one is cut, as Blelloch, Ferizovic and Sun join and split trees (Just Join
/// for Parallel Ordered Sets, 2016). No path has more than `2 floor(log2(n + 1))` nodes, n being the number of items.
///
/// Take a [`Vector`] where items are looked up by index and put in at the end, and a `Sequence` where a text changes in its middle,
/// or is cut and put together.
///
/// | call | cost in nodes | allocations |
/// |---|---|---|
/// | `new`, `len`, `is_empty`, `clone` | constant | none |
/// | `get`, `first`, `last`, `Index` | one path | none |
/// | `binary_search`, `binary_search_by`, `binary_search_by_key`, `partition_point` | one path | none |
/// | `is_sorted` | a walk | none |
/// | `insert`, `push_front`, `push_back` | one path | one for each node of it, and at most two |
/// | `set`, `update` | the path to the item | one for each node of it, and one |
/// | `insert_mut`, `push_front_mut`, `push_back_mut` | one path | at most two, and one for each node of it that another sequence shares |
/// | `set_mut`, `update_mut` | the path to the item | one, and one for each node of it that another sequence shares |
/// | `remove`, `pop_front`, `pop_back` | one path, and nodes next to it | one for each node of the path, and up to three where a side got shorter |
/// | `remove_mut` | one path, and nodes next to it | those of `remove` where another sequence shares the root; else one for each of these nodes that another sequence shares |
/// | `item_mut`, `get_mut` | the path to the item | one for each node of it that another sequence shares, and those of a clone of the item |
/// | `append` | one path of each | a few for each level |
/// | `split_at`, `take`, `skip`, `truncate` | one path | a few for each level |
/// | `slice`, `without_range` | two paths | a few for each level |
/// | `splice` | two paths, and those of two `append`s | a few for each level |
/// | `from_vec` | each node once | two an item |
/// | `from_iter`, `from_array` | each node once | two an item, and those of a `Vec` of all items |
/// | `extend` | those of `from_iter`, and of one `append` | those of both |
/// | `reverse` | each node once | one an item, and one |
/// | `retain` | each node once | one, and one an item that stays where some go |
/// | `map` | each node once | two an item, and one |
/// | `clear` | each that no other sequence shares is freed | none |
/// | `iter`, `iter_from` | one path for each end, then each node once | none |
/// | `==`, `Ord`, `Hash`, `Display`, `Debug` | a walk over each sequence | none |
///
/// A recursive type can't go through a sequence: `docs/CALLING.md` shows the ways out.
///
/// [`Vector`]: rpds_vector::vector::Vector
#[derive(Drop)]
#[must_use = "a change returns a new sequence, and leaves the old one as it is"]
pub struct Sequence<T, A: Allocator = Global> {
    alloc: A,
    tree: Tree<T, (), A>,
    size: usize,
}

impl<T, A: Allocator> Model for Sequence<T, A> {
    ghost use Rattle.std.specs.Prelude.{List};
    ghost use Rattle.rpds_sequence.specs.Contents.{items_of, IsSequence};

    ghost Value = { List T };

    ghost view = { λ s. items_of s.tree };

    ghost invariant = { λ s. IsSequence s.tree s.size };
}

impl<T, A: Allocator> Sequence<T, A> {
    /// The empty sequence. It allocates nothing.
    pub fn new(alloc: A) -> Sequence<T, A>
        ensures { result ≡ [] }
    {
        Sequence {
            alloc,
            tree: Tree::new(),
            size: 0,
        }
    }

    /// The allocator that the sequence was made with, and that a changed one is made with too.
    pub fn allocator(&self) -> &A {
        &self.alloc
    }

    /// How many items there are.
    #[tactic(auto, using(crate::proofs::Items::item_rules))]
    pub fn len(&self) -> usize
        ensures { result ≡ length self.now }
    {
        self.size
    }

    /// Whether there is no item.
    pub fn is_empty(&self) -> bool
        ensures { IsTrue result ↔ (self.now ≡ []) }
    {
        self.len() == 0
    }

    /// The item at the index, if there is one.
    pub fn get(&self, index: usize) -> Option<&T>
        ensures { option_copied result ≡ slice_get self.now index }
    {
        self.get_counted(index, &mut Steps::new())
    }

    /// [`get`](Sequence::get), which adds one to `visited` for each node that it enters.
    #[tactic(auto, using(crate::proofs::Items::item_rules))]
    pub fn get_counted(&self, index: usize, steps: &mut Steps) -> Option<&T>
        ensures found { option_copied result ≡ slice_get self.now index }

        // In range the root and at most one node on each level below it, out of range none.
        ensures visited { steps.new.visited ≤ steps.old.visited + most_levels (length self.now) }
        ensures enters { index < length self.now → steps.old.visited < steps.new.visited }
        ensures out_of_range { length self.now ≤ index → steps.new ≡ steps.old }
        ensures others { steps.new ≡ record steps.old { visited = steps.new.visited } }
    {
        if index >= self.size {
            return None;
        }
        let (item, _) = self.tree.nth(self.size, index, steps)?;
        Some(item)
    }

    /// The first item, if there is one.
    #[tactic(auto, using(crate::proofs::Items::item_rules))]
    pub fn first(&self) -> Option<&T>
        ensures { option_copied result ≡ slice_get self.now 0 }
    {
        let (item, _) = self.tree.first()?;
        Some(item)
    }

    /// The last item, if there is one.
    #[tactic(auto, using(crate::proofs::Items::item_rules))]
    pub fn last(&self) -> Option<&T>
        ensures { option_copied result ≡ slice_get self.now (length self.now - 1) }
    {
        let (item, _) = self.tree.last()?;
        Some(item)
    }

    // A sequence of the tree's items.
    #[tactic(auto, using(crate::proofs::Shallow::shallow_tree))]
    pub(crate) fn of_tree(alloc: A, tree: Tree<T, (), A>, size: usize) -> Sequence<T, A>
        requires black { tree.color ≡ Black }
        requires size { size ≡ length tree.entries }
        ensures { result ≡ items_of tree }
    {
        tree.prove_sound();
        Sequence { alloc, tree, size }
    }
}

impl<T: Drop, A: Allocator + Copy> Sequence<T, A> {
    /// A sequence of the same items, which shares all nodes. It allocates nothing.
    ///
    /// The error means a reference count overflow.
    pub fn clone(&self) -> Result<Sequence<T, A>, AllocError>
        ensures { IfOk result (λ copy. copy ≡ self.now) }
    {
        self.clone_counted(&mut Steps::new())
    }

    /// [`clone`](Sequence::clone), which adds to no count: it makes no node.
    pub fn clone_counted(&self, steps: &mut Steps) -> Result<Sequence<T, A>, AllocError>
        ensures copy { IfOk result (λ copy. copy ≡ self.now) }
        ensures counts { steps.new ≡ steps.old }
    {
        // The root gets one more owner, and nothing is left to count.
        let _ = steps;
        Ok(Sequence {
            alloc: self.alloc,
            tree: self.tree.share()?,
            size: self.size,
        })
    }

    /// Drops all items, but for those that another sequence shares. It allocates nothing.
    pub fn clear(&mut self)
        ensures { self.new ≡ [] }
    {
        self.tree = Tree::new();
        self.size = 0;
    }
}

impl<T: Drop, A: Allocator + Copy> Clone for Sequence<T, A> {
    ghost is_clone = { λ sequence copy. copy ≡ sequence };

    fn clone(&self) -> Result<Sequence<T, A>, AllocError> {
        Sequence::clone(self)
    }
}

impl<T, A: Allocator> Index<usize> for Sequence<T, A> {
    type Output = T;

    ghost can_index = { λ sequence index. index < length sequence };

    ghost index_gives = { λ sequence index item. slice_get sequence index ≡ Some item };

    fn index(&self, index: usize) -> &T {
        self.get(index).unwrap()
    }
}
