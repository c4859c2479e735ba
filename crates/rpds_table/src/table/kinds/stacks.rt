//! What a stack does as a version.
#![tactic(auto, using(crate::proofs::Budgets::unspent))]

ghost use Rattle.rpds_table.specs.Compared.{compared};
ghost use Rattle.rpds_table.specs.Kinds.Stacks.{behaviour};

use crate::table::container::{Asked, Container};
use crate::table::edit::Edit;
use crate::table::outcome::{Changed, Outcome, lacks_room};
use crate::table::version::Version;
use crate::table::{Answer, Op, Question, Refusal};
use rpds_core::steps::Steps;
use rpds_list::stack::Stack;
use std::alloc::Allocator;
use std::hash::{BuildHasher, Hash};

impl<K: Ord, V: Ord, A: Allocator> Asked<Question<K>, K, V, A> for Stack<V, A> {
    ghost use Rattle.rpds_table.specs.Behaviours.{answers_of, unhashed};

    ghost answers = { answers_of (compared K.eq K.cmp) (compared V.eq V.cmp)
        unhashed (behaviour {A = A}) };

    fn answer<'a>(&'a self, question: &'a Question<K>, _steps: &mut Steps) -> Answer<'a, K, V, A> {
        match question {
            Question::First(_) => Answer::Item(self.peek()),
            Question::Size(_) => Answer::Size(self.size()),
            _ => Answer::Refused(Refusal::WrongKind),
        }
    }

    fn answer_of_two<'a>(&self, other: &Self, question: &Question<K>) -> Answer<'a, K, V, A> {
        match question {
            Question::Equal(_, _) => Answer::Truth(self == other),
            Question::Compare(_, _) => Answer::Order(self.cmp(other)),
            _ => Answer::Refused(Refusal::WrongKind),
        }
    }
}

impl<K: Ord + Hash + Drop, V: Drop, H: BuildHasher + Drop, A: Allocator + Copy> Container<
    Op<K, V>,
    Edit<K, V, A>,
    Version<K, V, H, A>,
> for Stack<V, A> {
    ghost use Rattle.rpds_table.specs.Kinds.{changes_of};
    ghost use Rattle.rpds_table.specs.declared.table.version.Version.TheVariants as version;

    ghost changes = { changes_of (compared K.eq K.cmp) behaviour version.Stack };

    fn with_op(&self, op: Op<K, V>, _steps: &mut Steps) -> Changed<Version<K, V, H, A>> {
        match op {
            Op::Push(_) if lacks_room(self.size(), 1) => Ok(Outcome::Full),
            Op::Push(item) => Ok(Outcome::Becomes(Version::Stack(self.push(item)?))),
            Op::Pop => match self.pop()? {
                Some(stack) => Ok(Outcome::Becomes(Version::Stack(stack))),
                None => Ok(Outcome::Nothing),
            },
            _ => Ok(Outcome::Unfit),
        }
    }

    fn edit_mut(&mut self, edit: Edit<K, V, A>, _steps: &mut Steps) -> Changed<()> {
        match edit {
            Edit::Change(Op::Push(_)) if lacks_room(self.size(), 1) => Ok(Outcome::Full),
            Edit::Change(Op::Push(item)) => {
                self.push_mut(item)?;
                Ok(Outcome::Becomes(()))
            }
            Edit::Change(Op::Pop) => match self.pop_mut()? {
                true => Ok(Outcome::Becomes(())),
                false => Ok(Outcome::Nothing),
            },
            _ => Ok(Outcome::Unfit),
        }
    }
}
