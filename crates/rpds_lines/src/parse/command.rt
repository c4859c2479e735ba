//! Commands.
ghost use Rattle.std.specs.Prelude.{◌≢◌, ◌↔◌, [], ◌∷◌, IfOk, IfErr, IsTrue, codes};
ghost use Rattle.std.specs.List.{flat_map};
ghost use Rattle.rpds_table.specs.declared.table.mode.Mode.{Mode as AnyMode};
ghost use Rattle.rpds_lines.specs.Grammar.Commands.{word_of_mode, pieces_of_command, AreExtension, AreSorted, LacksItems};
ghost use Rattle.rpds_lines.specs.Grammar.Items.{pieces_of_number, pieces_of_pair, AreNumbers, ArePairs};
ghost use Rattle.rpds_lines.specs.Grammar.Pieces.{AreRead};

use crate::parse::kind::parse_kind;
use crate::parse::number::parse_number;
use crate::parse::op::parse_op;
use crate::parse::words::Words;
use rpds_table::table::{Command, Mode};
use std::alloc::{AllocError, Allocator};

/// The command whose first word is this one, with the words that are left, where it is no change and has
/// no list of items.
pub fn parse_other_command<A: Allocator>(
    first: &str,
    words: &mut Words<'_>,
) -> Option<Command<u64, u64, A>>
    ensures { LacksItems first.now → ((mode : AnyMode) → first.now ≢ word_of_mode mode) →
        AreRead pieces_of_command (first.now ∷ words.old) result }
{
    match first {
        "writeat" => parse_write(words),
        "copy" => Some(Command::Copy(words.last_index()?)),
        "make" => Some(Command::Make(words.last_kind()?)),
        "bits" => Some(Command::MakeBits(words.last_byte()?)),
        "degree" => parse_degree(words),
        "writekey" => parse_key_write(words),
        _ => None,
    }
}

/// The change that the words after its mode name.
pub fn parse_change<A: Allocator>(words: &mut Words<'_>, mode: Mode) -> Option<Command<u64, u64, A>>
    ensures { AreRead pieces_of_command (word_of_mode mode ∷ words.old) result }
{
    let index = words.next_index()?;
    let op = parse_op(words)?;
    Some(Command::Change(index, mode, op))
}

// The write that the words after `writeat` name.
fn parse_write<A: Allocator>(words: &mut Words<'_>) -> Option<Command<u64, u64, A>>
    ensures { AreRead pieces_of_command (codes "writeat" ∷ words.old) result }
{
    let index = words.next_index()?;
    let position = words.next_index()?;
    let value = words.last_number()?;
    Some(Command::WriteAt(index, position, value))
}

// The write that the words after `writekey` name.
fn parse_key_write<A: Allocator>(words: &mut Words<'_>) -> Option<Command<u64, u64, A>>
    ensures { AreRead pieces_of_command (codes "writekey" ∷ words.old) result }
{
    let index = words.next_index()?;
    let key = words.next_number()?;
    let value = words.last_number()?;
    Some(Command::WriteKey(index, key, value))
}

// The empty container that the words after `degree` name.
fn parse_degree<A: Allocator>(words: &mut Words<'_>) -> Option<Command<u64, u64, A>>
    ensures { AreRead pieces_of_command (codes "degree" ∷ words.old) result }
{
    let kind = parse_kind(words.next()?)?;
    Some(Command::MakeDegree(kind, words.last_byte()?))
}

/// The extension that the words after `extend` name: a version, and items to the end of the line.
///
/// An `Err` means that memory for the items was refused.
pub fn parse_extension<A: Allocator>(
    alloc: A,
    words: &mut Words<'_>,
) -> Result<Option<Command<u64, u64, A>>, AllocError>
    ensures request { IfOk result (AreRead pieces_of_command (codes "extend" ∷ words.old)) }
    ensures memory { IfErr result (λ _. AreExtension (codes "extend" ∷ words.old)) }
{
    let Some(index) = words.next_index() else {
        return Ok(None);
    };
    let Some(items) = parse_numbers(alloc, words)? else {
        return Ok(None);
    };
    Ok(Some(Command::Extend(index, items)))
}

/// The ordered container that the words after `sorted` name: its kind, and its pairs or members to the end of the line.
///
/// An `Err` means that memory for them was refused.
pub fn parse_sorted<A: Allocator>(
    alloc: A,
    words: &mut Words<'_>,
) -> Result<Option<Command<u64, u64, A>>, AllocError>
    ensures request { IfOk result (AreRead pieces_of_command (codes "sorted" ∷ words.old)) }
    ensures memory { IfErr result (λ _. AreSorted (codes "sorted" ∷ words.old)) }
{
    match words.next() {
        Some("rmap") => {
            let Some(pairs) = parse_pairs(alloc, words)? else {
                return Ok(None);
            };
            Ok(Some(Command::MakeSorted(pairs)))
        }
        Some("rset") => {
            let Some(members) = parse_numbers(alloc, words)? else {
                return Ok(None);
            };
            Ok(Some(Command::MakeSortedItems(members)))
        }
        _ => Ok(None),
    }
}

// The pairs of numbers that all words left write; refused memory is answered as for numbers.
fn parse_pairs<A: Allocator>(
    alloc: A,
    words: &mut Words<'_>,
) -> Result<Option<Vec<(u64, u64), A>>, AllocError>
    ensures read { IfOk result
        (AreRead (λ pairs. flat_map pieces_of_pair pairs.items) words.old) }
    ensures memory { IfErr result (λ _. ArePairs words.old × (words.old ≢ [])) }
{
    let mut pairs = Vec::new(alloc);
    while !words.is_empty() {
        let Some(pair) = words.next_pair() else {
            return Ok(None);
        };
        let Ok(()) = pairs.push(pair) else {
            if are_pairs(words) {
                return Err(AllocError);
            }
            return Ok(None);
        };
    }
    Ok(Some(pairs))
}

// The words that are left write pairs of numbers.
fn are_pairs(words: &mut Words<'_>) -> bool
    ensures { IsTrue result ↔ ArePairs words.old }
{
    while !words.is_empty() {
        let Some(_) = words.next_pair() else {
            return false;
        };
    }
    true
}

// The numbers that all words that are left write. Where memory for one is refused, those after it are read all the same:
// a line outside the grammar is answered as one, with memory or without.
fn parse_numbers<A: Allocator>(
    alloc: A,
    words: &mut Words<'_>,
) -> Result<Option<Vec<u64, A>>, AllocError>
    ensures read { IfOk result
        (AreRead (λ numbers. flat_map pieces_of_number numbers.items) words.old) }
    ensures memory { IfErr result (λ _. AreNumbers words.old × (words.old ≢ [])) }
{
    let mut numbers = Vec::new(alloc);
    while let Some(word) = words.next() {
        let Some(item) = parse_number(word) else {
            return Ok(None);
        };
        let Ok(()) = numbers.push(item) else {
            if are_numbers(words) {
                return Err(AllocError);
            }
            return Ok(None);
        };
    }
    Ok(Some(numbers))
}

// Each word that is left writes a number.
fn are_numbers(words: &mut Words<'_>) -> bool
    ensures { IsTrue result ↔ AreNumbers words.old }
{
    while let Some(word) = words.next() {
        let Some(_) = parse_number(word) else {
            return false;
        };
    }
    true
}
