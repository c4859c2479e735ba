//! What a line asks for. Functions that read a whole form read all words that are left.
ghost use Rattle.std.specs.Prelude.{◌≡◌, ◌≢◌, ◌∷◌, IfOk, IfErr, MatchOption};
ghost use Rattle.rpds_table.specs.declared.table.mode.Mode.{Mode as AnyMode};
ghost use Rattle.rpds_lines.specs.Grammar.{pieces_of_request, IsRequestOf};
ghost use Rattle.rpds_lines.specs.Grammar.Commands.{word_of_mode, HaveItems, LacksItems};
ghost use Rattle.rpds_lines.specs.Grammar.Pieces.{AreRead};
ghost use Rattle.rpds_lines.specs.Words.{words_of};

mod bound;
mod command;
mod kind;
mod number;
mod op;
mod question;
mod snap;
mod words;

use command::{parse_change, parse_extension, parse_other_command, parse_sorted};
use question::parse_question;
use rpds_table::table::{Command, Mode, Question};
pub use snap::SnapRequest;
use snap::parse_snap;
use std::alloc::{AllocError, Allocator};
use words::Words;

/// A command, or a question, or the wish to see a version, or what is asked of the map with snapshots.
#[derive(Drop)]
pub enum Request<A: Allocator> {
    Command(Command<u64, u64, A>),
    Question(Question<u64>),
    /// The `Display` of the version of this number.
    Show(usize),
    Snap(SnapRequest),
}

/// What the line asks for, or None for a line outside the grammar.
///
/// An `Err` means that memory for the items of an extension, or of a sorted list, was refused. No other line has this
/// answer.
pub fn parse<A: Allocator>(alloc: A, line: &[u8]) -> Result<Option<Request<A>>, AllocError>
    ensures request { IfOk result (IsRequestOf line.now) }
    ensures memory { IfErr result (λ _. HaveItems (words_of line.now)) }
{
    let Ok(line) = str::from_utf8(line) else {
        return Ok(None);
    };
    let mut words = Words::new(line);
    let Some(first) = words.next() else {
        return Ok(None);
    };
    if let Some(mode) = parse_mode(first) {
        return Ok(parse_change_request(mode, &mut words));
    }
    if first == "extend" {
        let Some(extension) = parse_extension(alloc, &mut words)? else {
            return Ok(None);
        };
        return Ok(Some(Request::Command(extension)));
    }
    if first == "sorted" {
        let Some(sorted) = parse_sorted(alloc, &mut words)? else {
            return Ok(None);
        };
        return Ok(Some(Request::Command(sorted)));
    }
    Ok(parse_other(first, &mut words))
}

// The mode of the changes whose lines begin with this word. Of all words that begin a line these come most often.
fn parse_mode(word: &str) -> Option<Mode>
    ensures { MatchOption result ((mode : AnyMode) → word.now ≢ word_of_mode mode)
        (λ mode. word.now ≡ word_of_mode mode) }
{
    match word {
        "in" => Some(Mode::InPlace),
        "new" => Some(Mode::New),
        _ => None,
    }
}

// The request of a change whose further words are these.
fn parse_change_request<A: Allocator>(mode: Mode, words: &mut Words<'_>) -> Option<Request<A>>
    ensures { AreRead pieces_of_request (word_of_mode mode ∷ words.old) result }
{
    Some(Request::Command(parse_change(words, mode)?))
}

// The request of a line of this first word and these further ones, where it is no change and has no list of items.
fn parse_other<A: Allocator>(first: &str, words: &mut Words<'_>) -> Option<Request<A>>
    ensures { LacksItems first.now → ((mode : AnyMode) → first.now ≢ word_of_mode mode) →
        AreRead pieces_of_request (first.now ∷ words.old) result }
{
    if let Some(question) = parse_question(first, &mut words.copy()) {
        return Some(Request::Question(question));
    }
    if first == "show" {
        return Some(Request::Show(words.last_index()?));
    }
    if first == "snap" {
        return Some(Request::Snap(parse_snap(words)?));
    }
    Some(Request::Command(parse_other_command(first, words)?))
}
