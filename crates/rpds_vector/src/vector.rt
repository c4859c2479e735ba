//! Persistent vectors, as bitmapped tries.
ghost use Rattle.std.specs.Prelude.{◌≡◌, ℕ, ◌+◌, ◌-◌, ◌*◌, ◌%◌, ◌^◌, ◌<◌, ◌≤◌, [], Some, IfOk, IfSome, IsTrue, ◌↔◌, length};
ghost use Rattle.std.specs.List.{slice_get};
ghost use Rattle.std.specs.Option.{option_copied};
ghost use Rattle.rpds_core.specs.Rows.{behind};
ghost use Rattle.rpds_vector.specs.Trie.{span};
ghost use Rattle.rpds_vector.specs.VectorContents.{Contents, IsVector};
ghost use Rattle.rpds_vector.specs.VectorNode.{IsPartAt, IsSubtree};
ghost use Rattle.rpds_vector.specs.Width.{width};

mod builder;
mod changes;
mod collects;
mod compared;
mod in_place;
mod iter;
mod lend;
mod middle;
mod node;
mod std_traits;
mod text;
mod unique;
mod walk;

pub use self::iter::Iter;
use self::node::{Kind, Node, bucket, left_below};
use rpds_core::steps::Steps;
use std::alloc::{AllocError, Allocator, Global};
use std::marker::Model;
use std::ops::Index;
use std::rc::Rc;

const DEFAULT_BITS: u8 = 5;

/// A vector whose changes return a new vector, and leave the one that they start from as it is. The two share all nodes but
/// those of one path.
///
/// It is a bitmapped trie, as Hickey made them for Clojure after Bagwell's hash tries: a leaf holds up to
/// `2^bits` items, a branch up to `2^bits` nodes, and all but the last of a row are full. With n items it
/// has as many levels as `n - 1` has digits in base `2^bits`.
///
/// # Examples
///
/// ```
/// let old = Vector::new(alloc).push_back(1)?.push_back(2)?;
/// let new = old.push_back(3)?;
/// assert!(old.len() == 2);
/// assert!(new.get(2) == Some(&3));
/// ```
///
/// # Cost
///
/// | call | nodes | allocations |
/// |---|---|---|
/// | `new`, `len`, `is_empty` | none | none |
/// | `first`, `last`, `get`, `index` | one visited on each level | none |
/// | `set`, `push_back` | one made on each level | two for each node made, one for the item |
/// | `drop_last` | at most one made on each level, none where the vector becomes one level lower | two for each node made |
/// | `set_mut` | each shared one on the path is copied | two for each copied, one for the item |
/// | `push_back_mut` | each shared one on the path is copied, and at times a leaf or branches are made | two for each of them, one for the item, at times one to grow a row |
/// | `drop_last_mut` | each shared one on the path that stays is copied, none where the vector becomes one level lower | two for each copied |
/// | `clear` | each that no other vector shares is freed | none |
/// | `item_mut`, `get_mut` | each shared one on the path is copied | two for each copied, one for a shared item |
/// | `take`, `truncate` | one made on each level that stays | two for each node made |
/// | `skip` | all of what is left, one step an item of it | those of the nodes |
/// | `append` | those of the other's items, and the path to the end; one step an item of the other | those of the nodes |
/// | `insert` | as `take` before the index and `skip` behind it | those of the nodes, one for the item |
/// | `remove` | as `take` before the index and `skip` behind it | those of the nodes |
/// | `clone` | none | none |
/// | `iter` | none made | none |
/// | `from_iter` | a leaf for each `2^bits` items, and the branches above | one for each item, and those of the nodes |
/// | `from_array` | as those of `from_iter` | those of `from_iter`, and one for the array |
/// | `extend` | as one `push_back_mut` where the last leaf has room for all; else a path, and the nodes of the further items | one for each item, those of a buffer and of the nodes |
/// | an iteration, `==`, order, `hash`, `Display` | none made, one step an item and a node, and one visited on each level for each `2^(4 * bits)` items, with 16 bits and more for each leaf | none |
///
/// A node that is made or copied takes a step for each of its parts, so up to `2^bits`: with many bits a change of a shared
/// vector copies most of it.
///
/// The checker refuses recursive types that go through a vector: `docs/CALLING.md` shows the ways out.
#[derive(Drop)]
#[must_use = "a change returns a new vector, and leaves the old one as it is"]
pub struct Vector<T, A: Allocator = Global> {
    root: Option<Rc<Node<T, A>, A>>,
    len: usize,
    alloc: A,
    bits: u8,
}

impl<T, A: Allocator> Model for Vector<T, A> {
    ghost use Rattle.rpds_vector.specs.VectorContents.{Contents, items_of, IsVector};

    ghost Value = { Contents T };

    ghost view = { λ v. record { items = items_of v.root; bits = v.bits } };

    ghost invariant = { λ v. IsVector v.root v.bits v.len };
}

// The height of the root of a vector of this length.
fn height_for(len: usize, bits: u8) -> usize
    requires { (1 ≤ bits) × (bits < 64) }
    ensures levels { width len bits ≡ result + 1 }
    ensures shift { result * bits < 64 }
    ensures room { len ≤ span bits (result + 1) }
{
    if len > 1 {
        (len - 1).ilog2() as usize / bits as usize
    } else {
        0
    }
}

impl<T, A: Allocator> Vector<T, A> {
    /// An empty vector of 5 bits.
    pub fn new(alloc: A) -> Vector<T, A>
        ensures { result ≡ record { items = []; bits = 5 } }
    {
        Vector::new_with_bits(alloc, DEFAULT_BITS)
    }

    /// An empty vector whose nodes have at most `2^bits` parts.
    pub fn new_with_bits(alloc: A, bits: u8) -> Vector<T, A>
        requires { (1 ≤ bits) × (bits < 64) }
        ensures { result ≡ record { items = []; bits = bits } }
    {
        Vector {
            root: None,
            len: 0,
            alloc,
            bits,
        }
    }

    /// The allocator that the vector was made with.
    pub fn allocator(&self) -> &A {
        &self.alloc
    }

    /// The first item, if there is one.
    pub fn first(&self) -> Option<&T>
        ensures { option_copied result ≡ slice_get self.now.items 0 }
    {
        self.get(0)
    }

    /// The last item, if there is one.
    pub fn last(&self) -> Option<&T>
        ensures { option_copied result ≡ slice_get self.now.items (length self.now.items - 1) }
    {
        if self.len == 0 {
            return None;
        }
        self.get(self.len - 1)
    }

    /// The item at the index, if there is one.
    pub fn get(&self, index: usize) -> Option<&T>
        ensures { option_copied result ≡ slice_get self.now.items index }
    {
        self.get_counted(index, &mut Steps::new())
    }

    /// `get` with counts: a node is visited for each digit of the last position in base `2^bits`.
    pub fn get_counted(&self, index: usize, steps: &mut Steps) -> Option<&T>
        ensures found { option_copied result ≡ slice_get self.now.items index }

        // In range one node on each level, out of range none.
        ensures visited { let levels = width (length self.now.items) self.now.bits in
            index < length self.now.items → steps.new.visited ≡ steps.old.visited + levels }
        ensures out_of_range { length self.now.items ≤ index → steps.new ≡ steps.old }
        ensures others { steps.new ≡ record steps.old { visited = steps.new.visited } }
    {
        if index >= self.len {
            return None;
        }
        match &self.root {
            None => None,
            Some(root) => {
                let root: &Node<T, A> = root;
                root.prove_sound();
                let height = height_for(self.len, self.bits);
                Some(root.get(index, height, self.bits, steps))
            }
        }
    }

    // The items of the leaf in which an index lies.
    fn leaf(&self, index: usize) -> &[Rc<T, A>]
        requires { index < length self.now.items }
        ensures { IsPartAt self.now.items index (index % 2 ^ self.now.bits) (behind result.now) }
    {
        match &self.root {
            None => unreachable!(),
            Some(root) => {
                let root: &Node<T, A> = root;
                root.prove_sound();
                let leaf = root.below(index, height_for(self.len, self.bits), 0, self.bits);
                leaf.items()
            }
        }
    }

    // The items of the root, where that is a leaf.
    #[inline(always)]
    fn only_leaf(&self) -> Option<&[Rc<T, A>]>
        ensures { IfSome result (λ leaf. behind leaf.now ≡ self.now.items) }
    {
        match &self.root {
            None => None,
            Some(root) => match &root.kind {
                Kind::Branch(_) => None,
                Kind::Leaf(items) => Some(items.as_slice()),
            },
        }
    }

    // The node of at most 3 levels of branches in which an index lies, where a place is at an edge of it. There is none where
    // that many levels take all bits of an index.
    #[inline(always)]
    fn subtree(&self, index: usize, edge: usize) -> Option<&Node<T, A>>
        requires { index < length self.now.items }
        ensures { IfSome result (λ node. IsSubtree self.now index edge node.now) }
    {
        if self.bits >= 16 {
            return None;
        }
        match &self.root {
            None => unreachable!(),
            Some(root) => {
                let root: &Node<T, A> = root;
                root.prove_sound();
                let height = height_for(self.len, self.bits);
                let lower = height.min(3);
                if edge != self.len && left_below(edge, lower + 1, self.bits) != 0 {
                    return None;
                }
                let node = root.below(index, height, lower, self.bits);
                node.prove_sound();
                Some(node)
            }
        }
    }

    // The place of an index in its leaf.
    fn place(&self, index: usize) -> usize
        ensures { result ≡ index % 2 ^ self.now.bits }
    {
        bucket(index, 0, self.bits)
    }

    /// How many items there are. A proof may call it for its clause `bits`, which holds of any vector.
    pub fn len(&self) -> usize
        ensures len { result ≡ length self.now.items }
        ensures bits { (1 ≤ self.now.bits) × (self.now.bits < 64) }
    {
        self.len
    }

    /// Whether there are no items.
    pub fn is_empty(&self) -> bool
        ensures { IsTrue result ↔ (self.now.items ≡ []) }
    {
        self.len() == 0
    }
}

impl<T: Drop, A: Allocator + Copy> Vector<T, A> {
    // A vector of the same bits with another root.
    fn with_root(&self, root: Rc<Node<T, A>, A>, len: usize) -> Vector<T, A>
        requires { IsVector (Some root) self.now.bits len }
        ensures { result ≡ record self.now { items = root.value.items } }
    {
        Vector {
            root: Some(root),
            len,
            alloc: self.alloc,
            bits: self.bits,
        }
    }

    /// A vector of the same items, which shares all nodes. It makes no node and allocates nothing.
    ///
    /// The error means a reference count overflow.
    pub fn clone(&self) -> Result<Vector<T, A>, AllocError>
        ensures { IfOk result (λ copy. copy ≡ self.now) }
    {
        self.clone_counted(&mut Steps::new())
    }

    /// `clone` with counts. It makes no node.
    pub fn clone_counted(&self, steps: &mut Steps) -> Result<Vector<T, A>, AllocError>
        ensures copy { IfOk result (λ copy. copy ≡ self.now) }
        ensures counts { steps.new ≡ steps.old }
    {
        let root = match &self.root {
            None => None,
            Some(root) => Some(root.clone()?),
        };
        Ok(Vector {
            root,
            len: self.len,
            alloc: self.alloc,
            bits: self.bits,
        })
    }
}

impl<T: Drop, A: Allocator + Copy> Clone for Vector<T, A> {
    ghost is_clone = { λ vector copy. copy ≡ vector };

    fn clone(&self) -> Result<Vector<T, A>, AllocError> {
        Vector::clone(self)
    }
}

impl<T, A: Allocator> Index<usize> for Vector<T, A> {
    type Output = T;

    ghost can_index = { λ vector index. index < length vector.items };

    ghost index_gives = { λ vector index item. slice_get vector.items index ≡ Some item };

    fn index(&self, index: usize) -> &T {
        self.get(index).unwrap()
    }
}
