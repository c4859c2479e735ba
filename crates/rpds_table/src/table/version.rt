//! A version of a table, and a reference to one, as an enum of the kinds of containers.
ghost use Rattle.std.specs.Prelude.{◌≡◌, IfOk};
ghost use Rattle.rpds_hash.specs.Digits.{IsDegree};
ghost use Rattle.rpds_hash.specs.HashedMap.{key_hash};
ghost use Rattle.rpds_table.specs.Answers.{answer_value};
ghost use Rattle.rpds_table.specs.Budgets.{Spends};
ghost use Rattle.rpds_table.specs.Compared.{compared};
ghost use Rattle.rpds_table.specs.Kinds.{IsInOrder, Same, IsCostOfAnswer, answer_of, answer_of_two, budget_of_edit, budget_of_op, empty_of_degree, outcome_of_edit, outcome_of_op, version_of_ref};
ghost use Rattle.rpds_table.specs.Outcomes.{IsEdited, IsMade};

use super::container::{Asked, Container};
use super::edit::Edit;
use super::outcome::Changed;
use super::{Answer, Kind, Op, Question, Refusal};
use rpds_core::steps::Steps;
use rpds_hash::map::hash_trie_map::HashTrieMap;
use rpds_hash::set::hash_trie_set::HashTrieSet;
use rpds_list::list::List;
use rpds_list::queue::Queue;
use rpds_list::stack::Stack;
use rpds_tree::map::red_black_tree_map::RedBlackTreeMap;
use rpds_tree::set::red_black_tree_set::RedBlackTreeSet;
use rpds_vector::vector::Vector;
use std::alloc::{AllocError, Allocator, Global};
use std::hash::{BuildHasher, Hash};

mod text;

/// A container of one of the kinds.
#[derive(Drop)]
pub enum Version<K: Ord + Hash, V, H: BuildHasher, A: Allocator> {
    List(List<V, A>),
    Stack(Stack<V, A>),
    Queue(Queue<V, A>),
    Vector(Vector<V, A>),
    HashTrieMap(HashTrieMap<K, V, H, A>),
    HashTrieSet(HashTrieSet<K, H, A>),
    RedBlackTreeMap(RedBlackTreeMap<K, V, A>),
    RedBlackTreeSet(RedBlackTreeSet<K, A>),
}

/// A reference to the container of a version.
#[derive_where(Copy)]
pub enum VersionRef<'a, K: Ord + Hash, V, H: BuildHasher, A: Allocator = Global> {
    List(&'a List<V, A>),
    Stack(&'a Stack<V, A>),
    Queue(&'a Queue<V, A>),
    Vector(&'a Vector<V, A>),
    HashTrieMap(&'a HashTrieMap<K, V, H, A>),
    HashTrieSet(&'a HashTrieSet<K, H, A>),
    RedBlackTreeMap(&'a RedBlackTreeMap<K, V, A>),
    RedBlackTreeSet(&'a RedBlackTreeSet<K, A>),
}

impl<K: Ord + Hash, V, H: BuildHasher, A: Allocator> Clone for VersionRef<'_, K, V, H, A> {
    ghost is_clone = { λ version copy. copy ≡ version };

    fn clone(&self) -> Result<Self, AllocError> {
        Ok(*self)
    }
}

impl<K: Ord + Hash, V, H: BuildHasher + Clone, A: Allocator + Copy> Version<K, V, H, A> {
    // The empty container of the kind, of the degree where it is a hashed one.
    pub(crate) fn empty(
        alloc: A,
        hasher: &H,
        kind: Kind,
        degree: u8,
    ) -> Result<Version<K, V, H, A>, AllocError>
        requires degree { IsDegree degree }
        requires clone_hasher { (x y : H) → H.is_clone x y → y ≡ x }
        ensures { IfOk result (λ version. version ≡ empty_of_degree hasher.now degree kind) }
    {
        match kind {
            Kind::List => Ok(Version::List(List::new(alloc))),
            Kind::Stack => Ok(Version::Stack(Stack::new(alloc))),
            Kind::Queue => Ok(Version::Queue(Queue::new(alloc))),
            Kind::Vector => Ok(Version::Vector(Vector::new(alloc))),
            Kind::HashTrieMap => {
                let map = HashTrieMap::new_with_hasher_and_degree(alloc, hasher.clone()?, degree);
                Ok(Version::HashTrieMap(map))
            }
            Kind::HashTrieSet => {
                let set = HashTrieSet::new_with_hasher_and_degree(alloc, hasher.clone()?, degree);
                Ok(Version::HashTrieSet(set))
            }
            Kind::RedBlackTreeMap => Ok(Version::RedBlackTreeMap(RedBlackTreeMap::new(alloc))),
            Kind::RedBlackTreeSet => Ok(Version::RedBlackTreeSet(RedBlackTreeSet::new(alloc))),
        }
    }
}

// Writes the arms of a match, one for each kind.
macro_rules! each_kind {
    ($arms:ident: $($form:tt)*) => {
        $arms!(
            List Stack Queue Vector HashTrieMap HashTrieSet RedBlackTreeMap RedBlackTreeSet:
            $($form)*
        )
    };
}

// What is done with the container of a version, or with that of a reference to one.
macro_rules! of_its_kind {
    ($($kind:ident)*: $version:expr, $type:ident($container:ident) => $call:expr) => {
        match $version {
            $($type::$kind($container) => $call,)*
        }
    };
}

pub(crate) use each_kind;
pub(crate) use of_its_kind;

// What is done with those of two versions of one kind, and where they differ in kind.
macro_rules! of_one_kind {
    ($($kind:ident)*: $versions:expr, ($one:ident, $two:ident) => $call:expr, _ => $differ:expr) => {
        match $versions {
            $((Version::$kind($one), Version::$kind($two)) => $call,)*
            _ => $differ,
        }
    };
}

// What becomes of the container of a version, as the variant of its kind.
macro_rules! as_its_kind {
    ($($kind:ident)*: $version:expr, $container:ident => $type:ident($call:expr)) => {
        match $version {
            $(Version::$kind($container) => $type::$kind($call),)*
        }
    };
}

impl<K: Ord + Hash, V, H: BuildHasher, A: Allocator> Version<K, V, H, A> {
    pub(crate) fn as_ref(&self) -> VersionRef<'_, K, V, H, A>
        ensures { version_of_ref result ≡ self.now }
    {
        each_kind!(as_its_kind: self, container => VersionRef(container))
    }

    // No work: a caller learns here that the version is in the order of its kind.
    pub(crate) fn prove_order(&self)
        ensures { IsInOrder (compared K.eq K.cmp)
            (key_hash H.BuildHasher H.Hasher.Hasher K.hash_input) self.now }
    {
        match self {
            Version::HashTrieMap(map) => {
                let _size = map.size();
            }
            Version::HashTrieSet(set) => {
                let _size = set.size();
            }
            Version::RedBlackTreeMap(map) => {
                let _size = map.size();
            }
            Version::RedBlackTreeSet(set) => {
                let _size = set.size();
            }
            _ => {}
        }
    }
}

impl<K: Ord + Hash, V: Ord, H: BuildHasher, A: Allocator> Version<K, V, H, A> {
    // The answer to a question about it alone.
    pub(crate) fn answer<'a>(
        &'a self,
        question: &'a Question<K>,
        steps: &mut Steps,
    ) -> Answer<'a, K, V, A>
        ensures answer { answer_value result
            ≡ answer_of (compared K.eq K.cmp) self.now question.now }
        ensures counts { let hash = key_hash H.BuildHasher H.Hasher.Hasher K.hash_input in
            IsCostOfAnswer (compared K.eq K.cmp) hash self.now question.now steps.old steps.new }
    {
        each_kind!(of_its_kind: self, Version(container) => container.answer(question, steps))
    }

    // The answer to a question about it and another one.
    pub(crate) fn answer_with(
        &self,
        other: &Version<K, V, H, A>,
        question: &Question<K>,
    ) -> Answer<'_, K, V, A>
        ensures { answer_value result ≡ answer_of_two (compared K.eq K.cmp)
            (compared V.eq V.cmp) self.now other.now question.now }
    {
        each_kind!(
            of_one_kind: (self, other),
            (one, two) => one.answer_of_two(two, question),
            _ => Answer::Refused(Refusal::WrongKind)
        )
    }
}

impl<
    K: Ord + Hash + Clone + Drop,
    V: Clone + Drop,
    H: BuildHasher + Clone + Drop,
    A: Allocator + Copy,
> Version<K, V, H, A> {
    // Another handle to the same container. It makes no node.
    pub(crate) fn share(&self, steps: &mut Steps) -> Result<Version<K, V, H, A>, AllocError>
        requires clone_hasher { (x y : H) → H.is_clone x y → y ≡ x }
        ensures shared { IfOk result (Same self.now) }
        ensures counts { steps.new ≡ steps.old }
    {
        match self {
            Version::List(list) => Ok(Version::List(list.clone_counted(steps)?)),
            Version::Stack(stack) => Ok(Version::Stack(stack.clone()?)),
            Version::Queue(queue) => Ok(Version::Queue(queue.clone()?)),
            Version::Vector(vector) => Ok(Version::Vector(vector.clone_counted(steps)?)),
            Version::HashTrieMap(map) => Ok(Version::HashTrieMap(map.clone_counted(steps)?)),
            Version::HashTrieSet(set) => Ok(Version::HashTrieSet(set.clone()?)),
            Version::RedBlackTreeMap(map) => {
                Ok(Version::RedBlackTreeMap(map.clone_counted(steps)?))
            }
            Version::RedBlackTreeSet(set) => Ok(Version::RedBlackTreeSet(set.clone()?)),
        }
    }

    // What the op makes of it, as a version of its own.
    pub(crate) fn with_op(&self, op: Op<K, V>, steps: &mut Steps) -> Changed<Version<K, V, H, A>>
        requires clone_hasher { (x y : H) → H.is_clone x y → y ≡ x }
        ensures made { IsMade Same (outcome_of_op (compared K.eq K.cmp) self.now op) result }
        ensures counts { Spends (budget_of_op self.now op) result steps.old steps.new }
    {
        each_kind!(of_its_kind: self, Version(container) => container.with_op(op, steps))
    }

    // Edits it in place, and returns what became of it.
    pub(crate) fn edit_mut(&mut self, edit: Edit<K, V, A>, steps: &mut Steps) -> Changed<()>
        requires clone_keys { (x y : K) → K.is_clone x y → y ≡ x }
        requires clone_values { (x y : V) → V.is_clone x y → y ≡ x }
        ensures done { let outcome = outcome_of_edit (compared K.eq K.cmp) self.old edit in
            IsEdited Same outcome result self.old self.new }
        ensures counts { Spends (budget_of_edit self.old edit) result steps.old steps.new }
    {
        each_kind!(of_its_kind: self, Version(container) => {
            Container::<_, _, Version<K, V, H, A>>::edit_mut(container, edit, steps)
        })
    }
}
