//! What a hashed set does as a version.
#![tactic(auto, using(crate::proofs::HashedCounts::permutes, crate::proofs::Budgets::unspent))]

ghost use Rattle.std.specs.Prelude.{◌≡◌};
ghost use Rattle.rpds_table.specs.Compared.{compared};
ghost use Rattle.rpds_table.specs.Kinds.HashTrieSets.{Same, outcome_of_edit, behaviour};
ghost use Rattle.rpds_table.specs.Outcomes.{IsEdited};
ghost use Rattle.rpds_table.specs.declared.table.edit.Edit.TheVariants.{Change};
ghost use Rattle.rpds_table.specs.declared.table.op.Op.TheVariants.{RemoveItem};

use crate::table::container::{Asked, Container};
use crate::table::edit::Edit;
use crate::table::outcome::{Changed, Outcome, lacks_room};
use crate::table::version::Version;
use crate::table::{Answer, Op, Question, Refusal};
use rpds_core::steps::Steps;
use rpds_hash::set::hash_trie_set::HashTrieSet;
use std::alloc::Allocator;
use std::hash::{BuildHasher, Hash};

impl<K: Ord + Hash, V: Ord, H: BuildHasher, A: Allocator> Asked<Question<K>, K, V, A>
    for HashTrieSet<K, H, A> {
    ghost use Rattle.rpds_hash.specs.HashedMap.{key_hash};
    ghost use Rattle.rpds_table.specs.Behaviours.{answers_of};

    ghost answers = { answers_of (compared K.eq K.cmp) (compared V.eq V.cmp)
        (key_hash H.BuildHasher H.Hasher.Hasher K.hash_input) (behaviour {A = A}) };

    fn answer<'a>(&'a self, question: &'a Question<K>, steps: &mut Steps) -> Answer<'a, K, V, A> {
        match question {
            Question::Key(_, key) => Answer::Member(self.get_counted(key, steps)),
            Question::Size(_) => Answer::Size(self.size()),
            Question::Contains(_, key) => Answer::Truth(self.get_counted(key, steps).is_some()),
            _ => Answer::Refused(Refusal::WrongKind),
        }
    }

    fn answer_of_two<'a>(&self, other: &Self, question: &Question<K>) -> Answer<'a, K, V, A> {
        match question {
            Question::Equal(_, _) => Answer::Truth(self == other),
            Question::Disjoint(_, _) => Answer::Truth(self.is_disjoint(other)),
            Question::Subset(_, _) => Answer::Truth(self.is_subset(other)),
            _ => Answer::Refused(Refusal::WrongKind),
        }
    }
}

impl<K: Ord + Hash + Drop, V: Drop, H: BuildHasher + Clone + Drop, A: Allocator + Copy> Container<
    Op<K, V>,
    Edit<K, V, A>,
    Version<K, V, H, A>,
> for HashTrieSet<K, H, A> {
    ghost use Rattle.rpds_table.specs.Kinds.{changes_of};
    ghost use Rattle.rpds_table.specs.declared.table.version.Version.TheVariants as version;

    ghost changes = { changes_of (compared K.eq K.cmp) behaviour version.HashTrieSet };

    ghost clones_hasher = { (x y : H) → H.is_clone x y → y ≡ x };

    fn with_op(&self, op: Op<K, V>, _steps: &mut Steps) -> Changed<Version<K, V, H, A>> {
        match op {
            Op::InsertItem(_) if lacks_room(self.size(), 1) => Ok(Outcome::Full),
            Op::InsertItem(item) => {
                let set = self.insert(item)?;
                Ok(Outcome::Becomes(Version::HashTrieSet(set)))
            }
            Op::RemoveItem(item) => {
                let set = self.remove(&item)?;
                Ok(Outcome::Becomes(Version::HashTrieSet(set)))
            }
            _ => Ok(Outcome::Unfit),
        }
    }

    fn edit_mut(&mut self, edit: Edit<K, V, A>, _steps: &mut Steps) -> Changed<()> {
        match edit {
            Edit::Change(Op::InsertItem(_)) if lacks_room(self.size(), 1) => Ok(Outcome::Full),
            Edit::Change(Op::InsertItem(item)) => {
                self.insert_mut(item)?;
                Ok(Outcome::Becomes(()))
            }
            Edit::Change(Op::RemoveItem(item)) => remove::<K, V, H, A>(self, item),
            _ => Ok(Outcome::Unfit),
        }
    }
}

// Takes the item out.
fn remove<K: Ord + Hash + Drop, V, H: BuildHasher, A: Allocator + Copy>(
    set: &mut HashTrieSet<K, H, A>,
    item: K,
) -> Changed<()>
    ensures { let edit = Change (RemoveItem item) in
        IsEdited Same (outcome_of_edit (compared K.eq K.cmp) {V = V} {A = A} set.old edit)
        result set.old set.new }
{
    if set.is_empty() {
        return Ok(Outcome::Nothing);
    }
    match set.remove_mut(&item)? {
        true => Ok(Outcome::Becomes(())),
        false => Ok(Outcome::Absent),
    }
}
