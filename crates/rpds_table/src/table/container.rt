//! What the container of each kind does with an op, an edit and a question.
ghost use Rattle.std.specs.Prelude.{◌≡◌};
ghost use Rattle.rpds_table.specs.Answers.{answer_value};
ghost use Rattle.rpds_table.specs.Budgets.{Spends};
ghost use Rattle.rpds_table.specs.Outcomes.{IsEdited, IsMade};

use super::Answer;
use super::outcome::Changed;
use rpds_core::steps::Steps;
use std::alloc::Allocator;

// A container that is the content of a version `W`: an op `O` makes another version of it, and an edit `E` changes it in
// place.
pub(crate) trait Container<O, E, W> {
    ghost use Rattle.rpds_table.specs.Behaviours.{Changes};

    // What ops and edits make of it.
    ghost changes: { Changes O E W Self };

    // What it asks of the clones that it makes: each is the same.
    ghost clones_hasher: { Type 0 } = { Unit {0} };

    ghost clones_keys: { Type 0 } = { Unit {0} };

    ghost clones_values: { Type 0 } = { Unit {0} };

    // What the op makes of it, as a version of its own.
    fn with_op(&self, op: O, steps: &mut Steps) -> Changed<W>
        requires clone_hasher { clones_hasher }
        ensures made { IsMade changes.SameAs (changes.outcome_of_op self.now op) result }
        ensures counts { Spends (changes.budget_of_op self.now op) result steps.old steps.new };

    // Edits it in place, and returns what became of it.
    fn edit_mut(&mut self, edit: E, steps: &mut Steps) -> Changed<()>
        requires clone_keys { clones_keys }
        requires clone_values { clones_values }
        ensures done { IsEdited changes.Same (changes.outcome_of_edit self.old edit)
            result self.old self.new }
        ensures counts { Spends (changes.budget_of_edit self.old edit) result steps.old steps.new };
}

// A container of keys `K` or values `V`, or both, that is asked questions `Q`.
pub(crate) trait Asked<Q, K: Ord, V, A: Allocator> {
    ghost use Rattle.rpds_table.specs.Behaviours.{Answers};

    // What it answers.
    ghost answers: { Answers Q K V Self };

    // The answer to a question about it alone.
    fn answer<'a>(&'a self, question: &'a Q, steps: &mut Steps) -> Answer<'a, K, V, A>
        ensures answer { answer_value result ≡ answers.answer self.now question.now }
        ensures counts { answers.IsCostOfAnswer self.now question.now steps.old steps.new };

    // The answer to a question about it and another one.
    fn answer_of_two<'a>(&self, other: &Self, question: &Q) -> Answer<'a, K, V, A>
        ensures { answer_value result ≡ answers.answer_of_two self.now other.now question.now };
}
