//! Questions.
ghost use Rattle.std.specs.Prelude.{◌∷◌, [], decimal};
ghost use Rattle.rpds_lines.specs.Grammar.Pieces.{AreRead};
ghost use Rattle.rpds_lines.specs.Grammar.Questions.{pieces_of_question};

use crate::parse::words::Words;
use rpds_table::table::Question;

/// The question whose first word is this one, with the words that are left. The number of a version follows the first word of
/// each.
#[tactic(auto, using(crate::proofs::Questions::lacks_index))]
pub fn parse_question(first: &str, words: &mut Words<'_>) -> Option<Question<u64>>
    ensures { AreRead pieces_of_question (first.now ∷ words.old) result }
{
    let index = words.next_index()?;
    if words.is_empty() {
        return question_of_one(first, index);
    }
    match first {
        "range" => Some(Question::Range(index, words.next_bound()?, words.last_bound()?)),
        _ => question_of_two(first, index, words.last_number()?),
    }
}

// The question of this word and this version.
fn question_of_one(first: &str, index: usize) -> Option<Question<u64>>
    ensures { AreRead pieces_of_question (first.now ∷ decimal index ∷ []) result }
{
    match first {
        "first" => Some(Question::First(index)),
        "last" => Some(Question::Last(index)),
        "size" => Some(Question::Size(index)),
        _ => None,
    }
}

// The question of this word, this version, and a key, a position or another version.
fn question_of_two(first: &str, index: usize, number: u64) -> Option<Question<u64>>
    ensures { AreRead pieces_of_question (first.now ∷ decimal index ∷ decimal number ∷ []) result }
{
    // A `usize` has 64 bits: the check proves that each cast keeps the number.
    match first {
        "at" => Some(Question::At(index, number as usize)),
        "key" => Some(Question::Key(index, number)),
        "has" => Some(Question::Contains(index, number)),
        "equal" => Some(Question::Equal(index, number as usize)),
        "compare" => Some(Question::Compare(index, number as usize)),
        "disjoint" => Some(Question::Disjoint(index, number as usize)),
        "subset" => Some(Question::Subset(index, number as usize)),
        _ => None,
    }
}
