//! What an ordered set does as a version.
ghost use Rattle.std.specs.Prelude.{◌≡◌, if◌then◌else◌};
ghost use Rattle.rpds_table.specs.Answers.{AnswerValue, members, refused};
ghost use Rattle.rpds_table.specs.Budgets.{Spends};
ghost use Rattle.rpds_table.specs.Compared.{compared};
ghost use Rattle.rpds_table.specs.Kinds.RedBlackTreeSets.{Same, budget_of_edit, outcome_of_edit, behaviour};
ghost use Rattle.rpds_table.specs.Outcomes.{IsEdited};
ghost use Rattle.rpds_table.specs.declared.table.edit.Edit.TheVariants.{Change};
ghost use Rattle.rpds_table.specs.declared.table.op.Op.TheVariants.{RemoveItem};
ghost use Rattle.rpds_tree.specs.OrderedSet.{members_within};
ghost use Rattle.rpds_tree.specs.Ranges.{fits};

use crate::table::container::{Asked, Container};
use crate::table::edit::Edit;
use crate::table::outcome::{Changed, Outcome, lacks_room};
use crate::table::version::Version;
use crate::table::{Answer, Members, Op, Question, Refusal};
use rpds_core::steps::Steps;
use rpds_tree::set::red_black_tree_set::RedBlackTreeSet;
use std::alloc::Allocator;
use std::hash::{BuildHasher, Hash};

impl<K: Ord, V: Ord, A: Allocator> Asked<Question<K>, K, V, A> for RedBlackTreeSet<K, A> {
    ghost use Rattle.rpds_table.specs.Behaviours.{answers_of, unhashed};

    ghost answers = { answers_of (compared K.eq K.cmp) (compared V.eq V.cmp)
        unhashed (behaviour {A = A}) };

    #[tactic(auto, using(crate::proofs::OrderedCounts::looked_up))]
    fn answer<'a>(&'a self, question: &'a Question<K>, steps: &mut Steps) -> Answer<'a, K, V, A> {
        match question {
            Question::First(_) => Answer::Member(self.first()),
            Question::Last(_) => Answer::Member(self.last()),
            Question::Key(_, key) => Answer::Member(self.get_counted(key, steps)),
            Question::Size(_) => Answer::Size(self.size()),
            Question::Contains(_, key) => Answer::Truth(self.get_counted(key, steps).is_some()),
            Question::Range(_, start, end) => match Members::new(self, start, end) {
                Some(members) => Answer::Members(members),
                None => Answer::Refused(Refusal::BadRange),
            },
            _ => Answer::Refused(Refusal::WrongKind),
        }
    }

    fn answer_of_two<'a>(&self, other: &Self, question: &Question<K>) -> Answer<'a, K, V, A> {
        match question {
            Question::Equal(_, _) => Answer::Truth(self == other),
            Question::Compare(_, _) => Answer::Order(self.cmp(other)),
            Question::Disjoint(_, _) => Answer::Truth(self.is_disjoint(other)),
            Question::Subset(_, _) => Answer::Truth(self.is_subset(other)),
            _ => Answer::Refused(Refusal::WrongKind),
        }
    }
}

impl<K: Ord + Hash + Drop, V: Drop, H: BuildHasher + Drop, A: Allocator + Copy> Container<
    Op<K, V>,
    Edit<K, V, A>,
    Version<K, V, H, A>,
> for RedBlackTreeSet<K, A> {
    ghost use Rattle.rpds_table.specs.Kinds.{changes_of};
    ghost use Rattle.rpds_table.specs.declared.table.version.Version.TheVariants as version;

    ghost changes = { changes_of (compared K.eq K.cmp) behaviour version.RedBlackTreeSet };

    #[tactic(auto, using(crate::proofs::OrderedCounts::changed))]
    fn with_op(&self, op: Op<K, V>, steps: &mut Steps) -> Changed<Version<K, V, H, A>> {
        match op {
            Op::InsertItem(_) if lacks_room(self.size(), 1) => Ok(Outcome::Full),
            Op::InsertItem(item) => {
                let set = self.insert_counted(item, steps)?;
                Ok(Outcome::Becomes(Version::RedBlackTreeSet(set)))
            }
            Op::RemoveItem(item) => {
                let set = self.remove_counted(&item, steps)?;
                Ok(Outcome::Becomes(Version::RedBlackTreeSet(set)))
            }
            _ => Ok(Outcome::Unfit),
        }
    }

    #[tactic(auto, using(crate::proofs::OrderedCounts::changed))]
    fn edit_mut(&mut self, edit: Edit<K, V, A>, steps: &mut Steps) -> Changed<()> {
        match edit {
            Edit::Change(Op::InsertItem(_)) if lacks_room(self.size(), 1) => Ok(Outcome::Full),
            Edit::Change(Op::InsertItem(item)) => {
                self.insert_mut_counted(item, steps)?;
                Ok(Outcome::Becomes(()))
            }
            Edit::Change(Op::RemoveItem(item)) => remove::<K, V, A>(self, item, steps),
            _ => Ok(Outcome::Unfit),
        }
    }
}

// Takes the item out.
#[tactic(auto, using(crate::proofs::OrderedCounts::changed, crate::proofs::OrderedCounts::found_nothing, crate::proofs::OrderedCounts::found_or_absent))]
fn remove<K: Ord + Drop, V, A: Allocator + Copy>(
    set: &mut RedBlackTreeSet<K, A>,
    item: K,
    steps: &mut Steps,
) -> Changed<()>
    ensures done { let edit = Change (RemoveItem item) in
        IsEdited Same (outcome_of_edit (compared K.eq K.cmp) {V = V} {A = A} set.old edit)
        result set.old set.new }
    ensures counts { Spends (budget_of_edit {V = V} {A = A} set.old (Change (RemoveItem item)))
        result steps.old steps.new }
{
    if set.is_empty() {
        return Ok(Outcome::Nothing);
    }
    match set.remove_mut_counted(&item, steps)? {
        true => Ok(Outcome::Becomes(())),
        false => Ok(Outcome::Absent),
    }
}
