//! What an ordered map does as a version.
ghost use Rattle.std.specs.Prelude.{◌≡◌, if◌then◌else◌};
ghost use Rattle.rpds_table.specs.Answers.{AnswerValue, pairs, refused};
ghost use Rattle.rpds_table.specs.Budgets.{Spends};
ghost use Rattle.rpds_table.specs.Compared.{compared};
ghost use Rattle.rpds_table.specs.Kinds.RedBlackTreeMaps.{Same, budget_of_edit, outcome_of_edit, behaviour};
ghost use Rattle.rpds_table.specs.Outcomes.{IsEdited};
ghost use Rattle.rpds_table.specs.declared.table.edit.Edit.TheVariants.{Change, WriteKey};
ghost use Rattle.rpds_table.specs.declared.table.op.Op.TheVariants.{Remove};
ghost use Rattle.rpds_tree.specs.Ranges.{fits, within};

use crate::table::container::{Asked, Container};
use crate::table::edit::Edit;
use crate::table::outcome::{Changed, Outcome, lacks_room};
use crate::table::version::Version;
use crate::table::{Answer, Op, Pairs, Question, Refusal};
use rpds_core::lend::ValueMutError;
use rpds_core::steps::Steps;
use rpds_tree::map::red_black_tree_map::RedBlackTreeMap;
use std::alloc::{AllocError, Allocator};
use std::hash::{BuildHasher, Hash};

impl<K: Ord, V: Ord, A: Allocator> Asked<Question<K>, K, V, A> for RedBlackTreeMap<K, V, A> {
    ghost use Rattle.rpds_table.specs.Behaviours.{answers_of, unhashed};

    ghost answers = { answers_of (compared K.eq K.cmp) (compared V.eq V.cmp)
        unhashed (behaviour {A = A}) };

    #[tactic(auto, using(crate::proofs::OrderedCounts::looked_up))]
    fn answer<'a>(&'a self, question: &'a Question<K>, steps: &mut Steps) -> Answer<'a, K, V, A> {
        match question {
            Question::First(_) => Answer::Pair(self.first()),
            Question::Last(_) => Answer::Pair(self.last()),
            Question::Key(_, key) => Answer::Pair(self.get_counted(key, steps)),
            Question::Size(_) => Answer::Size(self.size()),
            Question::Contains(_, key) => Answer::Truth(self.get_counted(key, steps).is_some()),
            Question::Range(_, start, end) => match Pairs::new(self, start, end) {
                Some(pairs) => Answer::Pairs(pairs),
                None => Answer::Refused(Refusal::BadRange),
            },
            _ => Answer::Refused(Refusal::WrongKind),
        }
    }

    fn answer_of_two<'a>(&self, other: &Self, question: &Question<K>) -> Answer<'a, K, V, A> {
        match question {
            Question::Equal(_, _) => Answer::Truth(self == other),
            Question::Compare(_, _) => Answer::Order(self.cmp(other)),
            _ => Answer::Refused(Refusal::WrongKind),
        }
    }
}

impl<
    K: Ord + Hash + Clone + Drop,
    V: Clone + Drop,
    H: BuildHasher + Drop,
    A: Allocator + Copy,
> Container<Op<K, V>, Edit<K, V, A>, Version<K, V, H, A>> for RedBlackTreeMap<K, V, A> {
    ghost use Rattle.rpds_table.specs.Kinds.{changes_of};
    ghost use Rattle.rpds_table.specs.declared.table.version.Version.TheVariants as version;

    ghost changes = { changes_of (compared K.eq K.cmp) behaviour version.RedBlackTreeMap };

    ghost clones_keys = { (x y : K) → K.is_clone x y → y ≡ x };

    ghost clones_values = { (x y : V) → V.is_clone x y → y ≡ x };

    #[tactic(auto, using(crate::proofs::OrderedCounts::changed))]
    fn with_op(&self, op: Op<K, V>, steps: &mut Steps) -> Changed<Version<K, V, H, A>> {
        match op {
            Op::Insert(_, _) if lacks_room(self.size(), 1) => Ok(Outcome::Full),
            Op::Insert(key, value) => {
                let map = self.insert_counted(key, value, steps)?;
                Ok(Outcome::Becomes(Version::RedBlackTreeMap(map)))
            }
            Op::Remove(key) => {
                let map = self.remove_counted(&key, steps)?;
                Ok(Outcome::Becomes(Version::RedBlackTreeMap(map)))
            }
            _ => Ok(Outcome::Unfit),
        }
    }

    #[tactic(auto, using(crate::proofs::OrderedCounts::changed))]
    fn edit_mut(&mut self, edit: Edit<K, V, A>, steps: &mut Steps) -> Changed<()> {
        match edit {
            Edit::Change(Op::Insert(_, _)) if lacks_room(self.size(), 1) => Ok(Outcome::Full),
            Edit::Change(Op::Insert(key, value)) => {
                self.insert_mut_counted(key, value, steps)?;
                Ok(Outcome::Becomes(()))
            }
            Edit::Change(Op::Remove(key)) => remove(self, key, steps),
            Edit::WriteKey(key, value) => write_key(self, key, value, steps),
            _ => Ok(Outcome::Unfit),
        }
    }
}

// Takes the key out.
#[tactic(auto, using(crate::proofs::OrderedCounts::changed, crate::proofs::OrderedCounts::found_nothing, crate::proofs::OrderedCounts::reports_found))]
fn remove<K: Ord + Drop, V: Drop, A: Allocator + Copy>(
    map: &mut RedBlackTreeMap<K, V, A>,
    key: K,
    steps: &mut Steps,
) -> Changed<()>
    ensures done { let edit = Change (Remove key) in
        IsEdited Same (outcome_of_edit (compared K.eq K.cmp) {A = A} map.old edit)
        result map.old map.new }
    ensures counts { Spends (budget_of_edit {A = A} map.old (Change (Remove key)))
        result steps.old steps.new }
{
    if map.is_empty() {
        return Ok(Outcome::Nothing);
    }
    match map.remove_mut_counted(&key, steps)? {
        true => Ok(Outcome::Becomes(())),
        false => Ok(Outcome::Absent),
    }
}

// Writes the value of the key.
#[tactic(auto, using(crate::proofs::Budgets::no_work, crate::proofs::OrderedCounts::found_nothing, crate::proofs::OrderedCounts::found_value, crate::proofs::OrderedCounts::found_no_value))]
fn write_key<K: Ord + Clone + Drop, V: Clone + Drop, A: Allocator + Copy>(
    map: &mut RedBlackTreeMap<K, V, A>,
    key: K,
    value: V,
    steps: &mut Steps,
) -> Changed<()>
    requires clone_keys { (x y : K) → K.is_clone x y → y ≡ x }
    requires clone_values { (x y : V) → V.is_clone x y → y ≡ x }
    ensures done { let edit = WriteKey key value in
        IsEdited Same (outcome_of_edit (compared K.eq K.cmp) {A = A} map.old edit)
        result map.old map.new }
    ensures counts { Spends (budget_of_edit {A = A} map.old (WriteKey key value))
        result steps.old steps.new }
{
    if map.is_empty() {
        return Ok(Outcome::Nothing);
    }
    match map.value_mut_counted(&key, steps) {
        Ok(place) => {
            *place = value;
            Ok(Outcome::Becomes(()))
        }
        Err(ValueMutError::Absent) => Ok(Outcome::Absent),
        Err(ValueMutError::NoMemory) => Err(AllocError),
    }
}
