//! What a hashed map does as a version.
#![tactic(auto, using(crate::proofs::HashedCounts::permutes, crate::proofs::Budgets::unspent))]

ghost use Rattle.std.specs.Prelude.{◌≡◌};
ghost use Rattle.rpds_table.specs.Compared.{compared};
ghost use Rattle.rpds_table.specs.Kinds.HashTrieMaps.{Same, outcome_of_edit, behaviour};
ghost use Rattle.rpds_table.specs.Outcomes.{IsEdited};
ghost use Rattle.rpds_table.specs.declared.table.edit.Edit.TheVariants.{Change, WriteKey};
ghost use Rattle.rpds_table.specs.declared.table.op.Op.TheVariants.{Remove};

use crate::table::container::{Asked, Container};
use crate::table::edit::Edit;
use crate::table::outcome::{Changed, Outcome, lacks_room};
use crate::table::version::Version;
use crate::table::{Answer, Op, Question, Refusal};
use rpds_core::lend::ValueMutError;
use rpds_core::steps::Steps;
use rpds_hash::map::hash_trie_map::HashTrieMap;
use std::alloc::{AllocError, Allocator};
use std::hash::{BuildHasher, Hash};

impl<K: Ord + Hash, V: Ord, H: BuildHasher, A: Allocator> Asked<Question<K>, K, V, A>
    for HashTrieMap<K, V, H, A> {
    ghost use Rattle.rpds_hash.specs.HashedMap.{key_hash};
    ghost use Rattle.rpds_table.specs.Behaviours.{answers_of};

    ghost answers = { answers_of (compared K.eq K.cmp) (compared V.eq V.cmp)
        (key_hash H.BuildHasher H.Hasher.Hasher K.hash_input) (behaviour {A = A}) };

    fn answer<'a>(&'a self, question: &'a Question<K>, steps: &mut Steps) -> Answer<'a, K, V, A> {
        match question {
            Question::Key(_, key) => Answer::Pair(self.get_counted(key, steps)),
            Question::Size(_) => Answer::Size(self.size()),
            Question::Contains(_, key) => Answer::Truth(self.get_counted(key, steps).is_some()),
            _ => Answer::Refused(Refusal::WrongKind),
        }
    }

    fn answer_of_two<'a>(&self, other: &Self, question: &Question<K>) -> Answer<'a, K, V, A> {
        match question {
            Question::Equal(_, _) => Answer::Truth(self == other),
            _ => Answer::Refused(Refusal::WrongKind),
        }
    }
}

impl<
    K: Ord + Hash + Clone + Drop,
    V: Clone + Drop,
    H: BuildHasher + Clone + Drop,
    A: Allocator + Copy,
> Container<Op<K, V>, Edit<K, V, A>, Version<K, V, H, A>> for HashTrieMap<K, V, H, A> {
    ghost use Rattle.rpds_table.specs.Kinds.{changes_of};
    ghost use Rattle.rpds_table.specs.declared.table.version.Version.TheVariants as version;

    ghost changes = { changes_of (compared K.eq K.cmp) behaviour version.HashTrieMap };

    ghost clones_hasher = { (x y : H) → H.is_clone x y → y ≡ x };

    ghost clones_keys = { (x y : K) → K.is_clone x y → y ≡ x };

    ghost clones_values = { (x y : V) → V.is_clone x y → y ≡ x };

    fn with_op(&self, op: Op<K, V>, _steps: &mut Steps) -> Changed<Version<K, V, H, A>> {
        match op {
            Op::Insert(_, _) if lacks_room(self.size(), 1) => Ok(Outcome::Full),
            Op::Insert(key, value) => {
                let map = self.insert(key, value)?;
                Ok(Outcome::Becomes(Version::HashTrieMap(map)))
            }
            Op::Remove(key) => {
                let map = self.remove(&key)?;
                Ok(Outcome::Becomes(Version::HashTrieMap(map)))
            }
            _ => Ok(Outcome::Unfit),
        }
    }

    fn edit_mut(&mut self, edit: Edit<K, V, A>, _steps: &mut Steps) -> Changed<()> {
        match edit {
            Edit::Change(Op::Insert(_, _)) if lacks_room(self.size(), 1) => Ok(Outcome::Full),
            Edit::Change(Op::Insert(key, value)) => {
                self.insert_mut(key, value)?;
                Ok(Outcome::Becomes(()))
            }
            Edit::Change(Op::Remove(key)) => remove(self, key),
            Edit::WriteKey(key, value) => write_key(self, key, value),
            _ => Ok(Outcome::Unfit),
        }
    }
}

// Takes the key out.
fn remove<K: Ord + Hash + Drop, V: Drop, H: BuildHasher, A: Allocator + Copy>(
    map: &mut HashTrieMap<K, V, H, A>,
    key: K,
) -> Changed<()>
    ensures { let edit = Change (Remove key) in
        IsEdited Same (outcome_of_edit (compared K.eq K.cmp) {A = A} map.old edit)
        result map.old map.new }
{
    if map.is_empty() {
        return Ok(Outcome::Nothing);
    }
    match map.remove_mut(&key)? {
        true => Ok(Outcome::Becomes(())),
        false => Ok(Outcome::Absent),
    }
}

// Writes the value of the key.
#[tactic(auto, using(crate::proofs::Written::written_is))]
fn write_key<K: Ord + Hash + Clone + Drop, V: Clone + Drop, H: BuildHasher, A: Allocator + Copy>(
    map: &mut HashTrieMap<K, V, H, A>,
    key: K,
    value: V,
) -> Changed<()>
    requires clone_keys { (x y : K) → K.is_clone x y → y ≡ x }
    requires clone_values { (x y : V) → V.is_clone x y → y ≡ x }
    ensures { let edit = WriteKey key value in
        IsEdited Same (outcome_of_edit (compared K.eq K.cmp) {A = A} map.old edit)
        result map.old map.new }
{
    if map.is_empty() {
        return Ok(Outcome::Nothing);
    }
    // For its clause: the keys are pairwise unequal.
    let _size = map.size();
    match map.value_mut(&key) {
        Ok(place) => {
            *place = value;
            Ok(Outcome::Becomes(()))
        }
        Err(ValueMutError::Absent) => Ok(Outcome::Absent),
        Err(ValueMutError::NoMemory) => Err(AllocError),
    }
}
