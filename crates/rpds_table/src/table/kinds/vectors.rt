//! What a vector does as a version.
#![tactic(auto, using(crate::proofs::Budgets::unspent))]

ghost use Rattle.std.specs.Prelude.{◌≡◌, ◌+◌};
ghost use Rattle.rpds_table.specs.Compared.{compared};
ghost use Rattle.rpds_table.specs.Kinds.Vectors.{Same, outcome_of_op, outcome_of_edit, behaviour};
ghost use Rattle.rpds_table.specs.Outcomes.{IsEdited};
ghost use Rattle.rpds_table.specs.declared.table.edit.Edit.TheVariants.{Extend, WriteAt};

use crate::table::container::{Asked, Container};
use crate::table::edit::Edit;
use crate::table::outcome::{Changed, Outcome, lacks_room};
use crate::table::version::Version;
use crate::table::{Answer, Op, Question, Refusal};
use rpds_core::lend::ValueMutError;
use rpds_core::steps::Steps;
use rpds_vector::vector::Vector;
use std::alloc::{AllocError, Allocator};
use std::hash::{BuildHasher, Hash};

impl<K: Ord, V: Ord, A: Allocator> Asked<Question<K>, K, V, A> for Vector<V, A> {
    ghost use Rattle.rpds_table.specs.Behaviours.{answers_of, unhashed};

    ghost answers = { answers_of (compared K.eq K.cmp) (compared V.eq V.cmp)
        unhashed (behaviour {A = A}) };

    fn answer<'a>(&'a self, question: &'a Question<K>, steps: &mut Steps) -> Answer<'a, K, V, A> {
        match question {
            Question::First(_) => Answer::Item(self.first()),
            Question::Last(_) => Answer::Item(self.last()),
            Question::At(_, position) => Answer::Item(self.get_counted(*position, steps)),
            Question::Size(_) => Answer::Size(self.len()),
            _ => Answer::Refused(Refusal::WrongKind),
        }
    }

    fn answer_of_two<'a>(&self, other: &Self, question: &Question<K>) -> Answer<'a, K, V, A> {
        match question {
            Question::Equal(_, _) => Answer::Truth(self == other),
            Question::Compare(_, _) => Answer::Order(self.cmp(other)),
            _ => Answer::Refused(Refusal::WrongKind),
        }
    }
}

impl<K: Ord + Hash + Drop, V: Clone + Drop, H: BuildHasher + Drop, A: Allocator + Copy> Container<
    Op<K, V>,
    Edit<K, V, A>,
    Version<K, V, H, A>,
> for Vector<V, A> {
    ghost use Rattle.rpds_table.specs.Kinds.{changes_of};
    ghost use Rattle.rpds_table.specs.declared.table.version.Version.TheVariants as version;

    ghost changes = { changes_of (compared K.eq K.cmp) behaviour version.Vector };

    ghost clones_values = { (x y : V) → V.is_clone x y → y ≡ x };

    fn with_op(&self, op: Op<K, V>, _steps: &mut Steps) -> Changed<Version<K, V, H, A>> {
        match op {
            Op::PushBack(_) if lacks_room(self.len(), 1) => Ok(Outcome::Full),
            Op::PushBack(item) => Ok(Outcome::Becomes(Version::Vector(self.push_back(item)?))),
            Op::DropLast => match self.drop_last()? {
                Some(vector) => Ok(Outcome::Becomes(Version::Vector(vector))),
                None => Ok(Outcome::Nothing),
            },
            Op::Set(position, item) => match self.set(position, item)? {
                Some(vector) => Ok(Outcome::Becomes(Version::Vector(vector))),
                None => Ok(Outcome::Nothing),
            },
            _ => Ok(Outcome::Unfit),
        }
    }

    fn edit_mut(&mut self, edit: Edit<K, V, A>, _steps: &mut Steps) -> Changed<()> {
        match edit {
            Edit::Change(op) => op_mut(self, op),
            Edit::Extend(items) => extend::<K, V, A>(self, items),
            Edit::WriteAt(position, item) => write_at::<K, V, A>(self, position, item),
            Edit::WriteKey(_, _) => Ok(Outcome::Unfit),
        }
    }
}

// Changes the vector in place.
fn op_mut<K: Drop, V: Drop, A: Allocator + Copy>(
    vector: &mut Vector<V, A>,
    op: Op<K, V>,
) -> Changed<()>
    ensures { IsEdited Same (outcome_of_op vector.old op) result vector.old vector.new }
{
    match op {
        Op::PushBack(_) if lacks_room(vector.len(), 1) => Ok(Outcome::Full),
        Op::PushBack(item) => {
            vector.push_back_mut(item)?;
            Ok(Outcome::Becomes(()))
        }
        Op::DropLast => match vector.drop_last_mut()? {
            true => Ok(Outcome::Becomes(())),
            false => Ok(Outcome::Nothing),
        },
        Op::Set(position, item) => match vector.set_mut(position, item)? {
            true => Ok(Outcome::Becomes(())),
            false => Ok(Outcome::Nothing),
        },
        _ => Ok(Outcome::Unfit),
    }
}

// Puts the items behind the last one.
fn extend<K, V: Drop, A: Allocator + Copy>(
    vector: &mut Vector<V, A>,
    items: Vec<V, A>,
) -> Changed<()>
    ensures { let outcome = outcome_of_edit {K = K} vector.old (Extend items) in
        IsEdited Same outcome result vector.old vector.new }
{
    if lacks_room(vector.len(), items.len()) {
        return Ok(Outcome::Full);
    }
    vector.extend(items)?;
    Ok(Outcome::Becomes(()))
}

// Puts the item at the position.
fn write_at<K, V: Clone + Drop, A: Allocator + Copy>(
    vector: &mut Vector<V, A>,
    position: usize,
    item: V,
) -> Changed<()>
    requires clones { (x y : V) → V.is_clone x y → y ≡ x }
    ensures { let outcome = outcome_of_edit {K = K} {A = A} vector.old (WriteAt position item) in
        IsEdited Same outcome result vector.old vector.new }
{
    match vector.item_mut(position) {
        Ok(place) => {
            *place = item;
            Ok(Outcome::Becomes(()))
        }
        Err(ValueMutError::Absent) => Ok(Outcome::Nothing),
        Err(ValueMutError::NoMemory) => Err(AllocError),
    }
}
