//! Persistent containers by number, changed by commands and asked by questions.
ghost use Rattle.std.specs.Prelude.{◌≡◌, ◌+◌, ◌<◌, ◌↔◌, length, [], slice_get, IfOk, IsTrue, OnErr, None};
ghost use Rattle.std.specs.Option.{option_copied, option_map, option_map_or};
ghost use Rattle.rpds_hash.specs.HashedMap.{key_hash};
ghost use Rattle.rpds_table.specs.Answers.{answer_value};
ghost use Rattle.rpds_table.specs.Budgets.{IsWithinBudget, no_budget};
ghost use Rattle.rpds_table.specs.Compared.{compared};
ghost use Rattle.rpds_table.specs.History.{HoldsOwn, history};
ghost use Rattle.rpds_table.specs.Kinds.{budget_of_edit, outcome_of_edit, outcome_of_op, version_of_ref};
ghost use Rattle.rpds_table.specs.Outcomes.{greatest};
ghost use Rattle.rpds_table.specs.Questions.{answer, IsCostOfAnswer};
ghost use Rattle.rpds_table.specs.Replies.{reply_of};
ghost use Rattle.rpds_table.specs.Spent.{CountsEach, spent, spent_by, unless_refused};
ghost use Rattle.rpds_table.specs.Transitions.{adds_version, Allows, changes, Performs, Transition, Run};
ghost use Rattle.rpds_table.specs.Types.{Make, MakeBits, MakeDegree, MakeSorted, MakeSortedItems, Copy, Change, New, InPlace, NoMemory, Refused};

use rpds_core::steps::Steps;
use rpds_tree::map::red_black_tree_map::RedBlackTreeMap;
use rpds_tree::set::red_black_tree_set::RedBlackTreeSet;
use rpds_vector::vector::Vector;
use std::alloc::{AllocError, Allocator, Global};
use std::hash::{BuildHasher, Hash};
use std::marker::Model;

mod answer;
mod command;
mod container;
mod determined;
mod edit;
mod kind;
mod kinds;
mod laws;
mod mode;
mod op;
mod outcome;
mod question;
mod refusal;
mod reply;
mod text;
mod version;

pub use answer::{Answer, Members, Pairs};
pub use command::Command;
pub use determined::{answer_is_lawful, reply_is_lawful};
use edit::Edit;
pub use kind::Kind;
pub use laws::{
    change_in_place_is_lawful, copy_is_lawful, map_change_is_lawful, order_is_lawful,
    same_is_lawful, transition_is_lawful,
};
pub use mode::Mode;
pub use op::Op;
use outcome::Outcome;
pub use question::Question;
pub use refusal::Refusal;
pub use reply::Reply;
pub use rpds_hash::identity_build::{Identity, IdentityBuild};
use version::Version;
pub use version::VersionRef;

/// A list of versions, numbered from 0. A version is a persistent container; a number names the same one for good.
///
/// Sequences hold values, maps keys with values, and sets keys. Hashed containers are made with clones of the table's
/// hasher.
///
/// ```
/// let mut table: Table<u64, i32, IdentityBuild> = Table::new(rt.alloc(), IdentityBuild {});
/// let mut steps = Steps::new();
/// let _ = table.apply(Command::Make(Kind::RedBlackTreeMap), &mut steps);
/// let saved = table.apply(Command::Copy(0), &mut steps);
/// let _ = table.apply(Command::Change(0, Mode::InPlace, Op::Insert(7, 70)), &mut steps);
///
/// assert!(rt; saved == Reply::Made(1));
/// assert!(rt; matches!(table.ask(&Question::Size(0), &mut steps), Answer::Size(1)));
/// assert!(rt; matches!(table.ask(&Question::Size(1), &mut steps), Answer::Size(0)));
/// ```
///
/// | call | cost | allocations |
/// |---|---|---|
/// | `new`, `len`, `is_empty`, `version` | constant | none |
/// | `apply` | that of the container's call | those of the container's call, and one where the list of versions grows |
/// | `run` | that of each command | one for the replies, then those of each command |
/// | `ask` | that of the container's call | none |
///
/// A command that is refused changes no version. `Done(false)` needs no memory, except where an absent key is looked
/// for in a container that isn't empty.
#[derive(Drop)]
pub struct Table<K: Ord + Hash, V, H: BuildHasher, A: Allocator = Global> {
    alloc: A,
    hasher: H,
    versions: Vec<Version<K, V, H, A>, A>,
}

impl<K: Ord + Hash, V, H: BuildHasher, A: Allocator> Model for Table<K, V, H, A> {
    ghost use Rattle.rpds_table.specs.TableContents.{Contents};

    ghost Value = { Contents K V H A H.Hasher };

    ghost view = { λ t. record { hasher = t.hasher; versions = t.versions.items } };
}

impl<K: Ord + Hash, V, H: BuildHasher, A: Allocator + Copy> Table<K, V, H, A> {
    /// The table without versions. Takes no memory.
    pub fn new(alloc: A, hasher: H) -> Table<K, V, H, A>
        ensures versions { result.versions ≡ [] }
        ensures hasher { result.hasher ≡ hasher }
    {
        Table {
            alloc,
            hasher,
            versions: Vec::new(alloc),
        }
    }
}

impl<K: Ord + Hash, V, H: BuildHasher, A: Allocator> Table<K, V, H, A> {
    /// The number of versions.
    pub fn len(&self) -> usize
        ensures { result ≡ length self.now.versions }
    {
        self.versions.len()
    }

    /// Whether there is no version.
    pub fn is_empty(&self) -> bool
        ensures { IsTrue result ↔ (self.now.versions ≡ []) }
    {
        self.versions.is_empty()
    }

    // The version of this number, if there is one.
    fn find(&self, index: usize) -> Option<&Version<K, V, H, A>>
        ensures found { option_copied result ≡ slice_get self.now.versions index }
        // A `Vec` holds fewer items, so that a table always has a number for one version more.
        ensures room { length self.now.versions < greatest }
    {
        self.versions.get(index)
    }

    /// The container of the version of this number, if there is one.
    pub fn version(&self, index: usize) -> Option<VersionRef<'_, K, V, H, A>>
        ensures { option_map version_of_ref result ≡ slice_get self.now.versions index }
    {
        Some(self.find(index)?.as_ref())
    }
}

impl<K: Ord + Hash, V: Ord, H: BuildHasher, A: Allocator> Table<K, V, H, A> {
    /// Answers the question. Takes no memory.
    ///
    /// It is refused, in this order, where a version that it names isn't there, where it doesn't fit the kind or two
    /// versions differ in kind, and where the start of a range is above its end or its equal bounds are both excluded.
    ///
    /// | question | adds to the counts |
    /// |---|---|
    /// | `At` | to `visited` the nodes on the way to the position |
    /// | `Key`, `Contains` of an ordered container of `n` | to `compared` at most `2 floor(log2(n + 1))` |
    /// | `Key`, `Contains` of a hashed one | to `visited` the nodes on the way to the key, to `matched` the keys of its hash that it was compared with |
    /// | any other | nothing |
    pub fn ask<'a>(&'a self, question: &'a Question<K>, steps: &mut Steps) -> Answer<'a, K, V, A>
        ensures answer { answer_value result
            ≡ answer (compared K.eq K.cmp) (compared V.eq V.cmp) self.now question.now }
        ensures counts { let hash = key_hash H.BuildHasher H.Hasher.Hasher K.hash_input in
            IsCostOfAnswer (compared K.eq K.cmp) hash self.now question.now steps.old steps.new }
    {
        let (index, other) = question.versions();
        let Some(version) = self.find(index) else {
            return Answer::Refused(Refusal::NoVersion);
        };
        match other {
            None => version.answer(question, steps),
            Some(index) => match self.find(index) {
                None => Answer::Refused(Refusal::NoVersion),
                Some(other) => version.answer_with(other, question),
            },
        }
    }
}

impl<
    K: Ord + Hash + Clone + Drop,
    V: Clone + Drop,
    H: BuildHasher + Clone + Drop,
    A: Allocator + Copy,
> Table<K, V, H, A> {
    /// Applies one command. A refused one changes no version. The keys of an ordered version that it makes or changes
    /// ascend, and a hashed one is walked in the order of the digits of its keys' hashes.
    ///
    /// The conditions are tested in the order of the refusals' numbers: no such version, a command that doesn't fit the
    /// kind, bits outside 1 to 63, a degree other than 2, 4, 8, 16, 32 or 64, a full version, and last a list that
    /// doesn't ascend. `NoMemory` comes only where none of them holds and the command would add or change a version, or
    /// looks for an absent key.
    ///
    /// A change of an ordered container of `n` compares at most `2 floor(log2(n + 1))` keys. An ordered container that
    /// is made of a list counts a node for each pair or member, and no comparison. No other command adds to a count: a
    /// copy makes no node.
    pub fn apply(&mut self, command: Command<K, V, A>, steps: &mut Steps) -> Reply
        // A clone of a key, an item or a hasher is the same.
        requires clone_keys { (x y : K) → K.is_clone x y → y ≡ x }
        requires clone_values { (x y : V) → V.is_clone x y → y ≡ x }
        requires clone_hasher { (x y : H) → H.is_clone x y → y ≡ x }

        ensures transition { let hash = key_hash H.BuildHasher H.Hasher.Hasher K.hash_input in
            Transition (compared K.eq K.cmp) hash self.old command result self.new }
        ensures counts { IsWithinBudget
            (spent_by (λ i. slice_get self.old.versions i) command result) steps.old steps.new }
        ensures each { CountsEach command result steps.old steps.new }
    {
        match self.perform(command, steps) {
            Ok(reply) => reply,
            Err(refusal) => Reply::Refused(refusal),
        }
    }

    // Does what the command says, or tells why it is refused.
    fn perform(&mut self, command: Command<K, V, A>, steps: &mut Steps) -> Result<Reply, Refusal>
        requires clone_keys { (x y : K) → K.is_clone x y → y ≡ x }
        requires clone_values { (x y : V) → V.is_clone x y → y ≡ x }
        requires clone_hasher { (x y : H) → H.is_clone x y → y ≡ x }
        ensures transition { let hash = key_hash H.BuildHasher H.Hasher.Hasher K.hash_input in
            Transition (compared K.eq K.cmp) hash self.old command (reply_of result) self.new }
        ensures counts { IsWithinBudget (spent_by (λ i. slice_get self.old.versions i)
            command (reply_of result)) steps.old steps.new }
        ensures each { CountsEach command (reply_of result) steps.old steps.new }
    {
        match command {
            Command::Make(kind) => self.make(kind),
            Command::MakeBits(bits) => self.make_bits(bits),
            Command::MakeDegree(kind, degree) => self.make_degree(kind, degree),
            Command::MakeSorted(pairs) => self.make_sorted(pairs, steps),
            Command::MakeSortedItems(items) => self.make_sorted_items(items, steps),
            Command::Copy(index) => self.copy(index, steps),
            Command::Change(index, Mode::New, op) => self.change_into_new(index, op, steps),
            Command::Change(index, Mode::InPlace, op) => {
                self.change_in_place(index, Edit::Change(op), steps)
            }
            Command::Extend(index, items) => {
                self.change_in_place(index, Edit::Extend(items), steps)
            }
            Command::WriteAt(index, position, item) => {
                self.change_in_place(index, Edit::WriteAt(position, item), steps)
            }
            Command::WriteKey(index, key, value) => {
                self.change_in_place(index, Edit::WriteKey(key, value), steps)
            }
        }
    }

    /// Applies the commands in order, and returns their replies. Memory for the replies is allocated first: an error
    /// means that no command was applied.
    pub fn run(
        &mut self,
        commands: Vec<Command<K, V, A>, A>,
        steps: &mut Steps,
    ) -> Result<Vec<Reply, A>, AllocError>
        requires clone_keys { (x y : K) → K.is_clone x y → y ≡ x }
        requires clone_values { (x y : V) → V.is_clone x y → y ≡ x }
        requires clone_hasher { (x y : H) → H.is_clone x y → y ≡ x }

        ensures run { let hash = key_hash H.BuildHasher H.Hasher.Hasher K.hash_input in
            IfOk result (λ replies.
            Run (compared K.eq K.cmp) hash self.old commands.items replies.items self.new) }
        // Each version is what its own commands make.
        ensures own { IfOk result (λ replies.
            HoldsOwn (compared K.eq K.cmp) self.old commands.items replies.items self.new) }
        ensures counts { IfOk result (λ replies.
            IsWithinBudget (spent (compared K.eq K.cmp) self.old
            (history commands.items replies.items)) steps.old steps.new) }
        ensures err { OnErr result ((self.new ≡ self.old) × (steps.new ≡ steps.old)) }
    {
        let mut replies = Vec::with_capacity(self.alloc, commands.len())?;
        for command in commands {
            let reply = self.apply(command, steps);
            let Ok(()) = replies.push(reply) else {
                unreachable!();
            };
        }
        Ok(replies)
    }

    fn make(&mut self, kind: Kind) -> Result<Reply, Refusal>
        requires clone_hasher { (x y : H) → H.is_clone x y → y ≡ x }
        ensures { let hash = key_hash H.BuildHasher H.Hasher.Hasher K.hash_input in
            Transition (compared K.eq K.cmp) hash self.old (Make kind) (reply_of result) self.new }
    {
        let alloc = self.alloc;
        let made = Version::empty(alloc, &self.hasher, kind, 64)?;
        self.add(made)
    }

    fn make_bits(&mut self, bits: u8) -> Result<Reply, Refusal>
        ensures { let hash = key_hash H.BuildHasher H.Hasher.Hasher K.hash_input in
            Transition (compared K.eq K.cmp) hash self.old
            (MakeBits bits) (reply_of result) self.new }
    {
        if !(1..=63).contains(&bits) {
            return Err(Refusal::BadBits);
        }
        self.add(Version::Vector(Vector::new_with_bits(self.alloc, bits)))
    }

    fn make_degree(&mut self, kind: Kind, degree: u8) -> Result<Reply, Refusal>
        requires clone_hasher { (x y : H) → H.is_clone x y → y ≡ x }
        ensures { let hash = key_hash H.BuildHasher H.Hasher.Hasher K.hash_input in
            Transition (compared K.eq K.cmp) hash self.old
            (MakeDegree kind degree) (reply_of result) self.new }
    {
        if !kind.is_hashed() {
            return Err(Refusal::WrongKind);
        }
        if !matches!(degree, 2 | 4 | 8 | 16 | 32 | 64) {
            return Err(Refusal::BadDegree);
        }
        let alloc = self.alloc;
        let made = Version::empty(alloc, &self.hasher, kind, degree)?;
        self.add(made)
    }

    fn make_sorted(&mut self, pairs: Vec<(K, V), A>, steps: &mut Steps) -> Result<Reply, Refusal>
        ensures made { let hash = key_hash H.BuildHasher H.Hasher.Hasher K.hash_input in
            Transition (compared K.eq K.cmp) hash self.old
            (MakeSorted pairs) (reply_of result) self.new }
        ensures counts { IsWithinBudget (spent_by (λ i. slice_get self.old.versions i)
            (MakeSorted pairs) (reply_of result)) steps.old steps.new }
        ensures each { CountsEach (MakeSorted pairs) (reply_of result) steps.old steps.new }
    {
        let map = RedBlackTreeMap::from_sorted_counted(self.alloc, pairs, steps)?;
        self.add(Version::RedBlackTreeMap(map))
    }

    fn make_sorted_items(&mut self, items: Vec<K, A>, steps: &mut Steps) -> Result<Reply, Refusal>
        ensures made { let hash = key_hash H.BuildHasher H.Hasher.Hasher K.hash_input in
            Transition (compared K.eq K.cmp) hash self.old
            (MakeSortedItems items) (reply_of result) self.new }
        ensures counts { IsWithinBudget (spent_by (λ i. slice_get self.old.versions i)
            (MakeSortedItems items) (reply_of result)) steps.old steps.new }
        ensures each { CountsEach {V = V}
            (MakeSortedItems items) (reply_of result) steps.old steps.new }
    {
        let set = RedBlackTreeSet::from_sorted_counted(self.alloc, items, steps)?;
        self.add(Version::RedBlackTreeSet(set))
    }

    fn copy(&mut self, index: usize, steps: &mut Steps) -> Result<Reply, Refusal>
        requires clone_hasher { (x y : H) → H.is_clone x y → y ≡ x }
        ensures made { let hash = key_hash H.BuildHasher H.Hasher.Hasher K.hash_input in
            Transition (compared K.eq K.cmp) hash self.old (Copy index) (reply_of result) self.new }
        ensures counts { steps.new ≡ steps.old }
    {
        let Some(version) = self.find(index) else {
            return Err(Refusal::NoVersion);
        };
        let copy = version.share(steps)?;
        self.add(copy)
    }

    fn change_into_new(
        &mut self,
        index: usize,
        op: Op<K, V>,
        steps: &mut Steps,
    ) -> Result<Reply, Refusal>
        requires clone_hasher { (x y : H) → H.is_clone x y → y ≡ x }
        ensures hasher { self.new.hasher ≡ self.old.hasher }
        ensures change { let hash = key_hash H.BuildHasher H.Hasher.Hasher K.hash_input in
            Performs (compared K.eq K.cmp) hash self.old.versions
            (changes index New (λ v. outcome_of_op (compared K.eq K.cmp) v op))
            (reply_of result) self.new.versions }
        ensures counts { IsWithinBudget (spent_by (λ i. slice_get self.old.versions i)
            (Change index New op) (reply_of result)) steps.old steps.new }
    {
        let Some(version) = self.find(index) else {
            return Err(Refusal::NoVersion);
        };
        match version.with_op(op, steps)? {
            Outcome::Becomes(version) => self.add(version),
            outcome => outcome.reply(),
        }
    }

    fn change_in_place(
        &mut self,
        index: usize,
        edit: Edit<K, V, A>,
        steps: &mut Steps,
    ) -> Result<Reply, Refusal>
        requires clone_keys { (x y : K) → K.is_clone x y → y ≡ x }
        requires clone_values { (x y : V) → V.is_clone x y → y ≡ x }
        ensures hasher { self.new.hasher ≡ self.old.hasher }
        ensures change { let hash = key_hash H.BuildHasher H.Hasher.Hasher K.hash_input in
            Performs (compared K.eq K.cmp) hash self.old.versions
            (changes index InPlace (λ v. outcome_of_edit (compared K.eq K.cmp) v edit))
            (reply_of result) self.new.versions }
        ensures counts { IsWithinBudget
            (unless_refused (reply_of result) (option_map_or (λ v. budget_of_edit v edit)
            (slice_get self.old.versions index) no_budget)) steps.old steps.new }
    {
        let Some(version) = self.versions.get_mut(index) else {
            return Err(Refusal::NoVersion);
        };
        let outcome = version.edit_mut(edit, steps)?;
        version.prove_order();
        outcome.reply()
    }

    // Puts the version at the end.
    fn add(&mut self, version: Version<K, V, H, A>) -> Result<Reply, Refusal>
        ensures hasher { self.new.hasher ≡ self.old.hasher }
        ensures added { let hash = key_hash H.BuildHasher H.Hasher.Hasher K.hash_input in
            Allows (compared K.eq K.cmp) hash None (adds_version version)
            self.old.versions (reply_of result) self.new.versions }
    {
        version.prove_order();
        let index = self.len();
        match self.versions.push(version) {
            Ok(()) => Ok(Reply::Made(index)),
            Err(_) => Err(Refusal::NoMemory),
        }
    }
}
