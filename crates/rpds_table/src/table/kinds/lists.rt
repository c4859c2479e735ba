//! What a list does as a version.
#![tactic(auto, using(crate::proofs::Budgets::unspent))]

ghost use Rattle.rpds_table.specs.Compared.{compared};
ghost use Rattle.rpds_table.specs.Kinds.Lists.{behaviour};

use crate::table::container::{Asked, Container};
use crate::table::edit::Edit;
use crate::table::outcome::{Changed, Outcome, lacks_room};
use crate::table::version::Version;
use crate::table::{Answer, Op, Question, Refusal};
use rpds_core::steps::Steps;
use rpds_list::list::List;
use std::alloc::Allocator;
use std::hash::{BuildHasher, Hash};

impl<K: Ord, V: Ord, A: Allocator> Asked<Question<K>, K, V, A> for List<V, A> {
    ghost use Rattle.rpds_table.specs.Behaviours.{answers_of, unhashed};

    ghost answers = { answers_of (compared K.eq K.cmp) (compared V.eq V.cmp)
        unhashed (behaviour {A = A}) };

    fn answer<'a>(&'a self, question: &'a Question<K>, _steps: &mut Steps) -> Answer<'a, K, V, A> {
        match question {
            Question::First(_) => Answer::Item(self.first()),
            Question::Last(_) => Answer::Item(self.last()),
            Question::Size(_) => Answer::Size(self.len()),
            _ => Answer::Refused(Refusal::WrongKind),
        }
    }

    fn answer_of_two<'a>(&self, other: &Self, question: &Question<K>) -> Answer<'a, K, V, A> {
        match question {
            Question::Equal(_, _) => Answer::Truth(self == other),
            Question::Compare(_, _) => Answer::Order(self.cmp(other)),
            _ => Answer::Refused(Refusal::WrongKind),
        }
    }
}

impl<K: Ord + Hash + Drop, V: Drop, H: BuildHasher + Drop, A: Allocator + Copy> Container<
    Op<K, V>,
    Edit<K, V, A>,
    Version<K, V, H, A>,
> for List<V, A> {
    ghost use Rattle.rpds_table.specs.Kinds.{changes_of};
    ghost use Rattle.rpds_table.specs.declared.table.version.Version.TheVariants as version;

    ghost changes = { changes_of (compared K.eq K.cmp) behaviour version.List };

    fn with_op(&self, op: Op<K, V>, _steps: &mut Steps) -> Changed<Version<K, V, H, A>> {
        match op {
            Op::PushFront(_) if lacks_room(self.len(), 1) => Ok(Outcome::Full),
            Op::PushFront(item) => Ok(Outcome::Becomes(Version::List(self.push_front(item)?))),
            Op::DropFirst => match self.drop_first()? {
                Some(list) => Ok(Outcome::Becomes(Version::List(list))),
                None => Ok(Outcome::Nothing),
            },
            Op::Reverse => Ok(Outcome::Becomes(Version::List(self.reverse()?))),
            _ => Ok(Outcome::Unfit),
        }
    }

    fn edit_mut(&mut self, edit: Edit<K, V, A>, _steps: &mut Steps) -> Changed<()> {
        match edit {
            Edit::Change(Op::PushFront(_)) if lacks_room(self.len(), 1) => Ok(Outcome::Full),
            Edit::Change(Op::PushFront(item)) => {
                self.push_front_mut(item)?;
                Ok(Outcome::Becomes(()))
            }
            Edit::Change(Op::DropFirst) => match self.drop_first_mut()? {
                true => Ok(Outcome::Becomes(())),
                false => Ok(Outcome::Nothing),
            },
            Edit::Change(Op::Reverse) => {
                self.reverse_mut()?;
                Ok(Outcome::Becomes(()))
            }
            _ => Ok(Outcome::Unfit),
        }
    }
}
