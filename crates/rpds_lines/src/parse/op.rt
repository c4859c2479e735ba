//! Ops.
ghost use Rattle.std.specs.Prelude.{◌∷◌, [], decimal};
ghost use Rattle.rpds_lines.specs.Grammar.Ops.{pieces_of_op};
ghost use Rattle.rpds_lines.specs.Grammar.Pieces.{AreRead};

use crate::parse::words::Words;
use rpds_table::table::Op;

/// The op that the words name.
pub fn parse_op(words: &mut Words<'_>) -> Option<Op<u64, u64>>
    ensures { AreRead pieces_of_op words.old result }
{
    let name = words.next()?;
    if words.is_empty() {
        return bare_op(name);
    }
    match name {
        "set" => Some(Op::Set(words.next_index()?, words.last_number()?)),
        "insert" => Some(Op::Insert(words.next_number()?, words.last_number()?)),
        _ => op_of_one(name, words.last_number()?),
    }
}

// The op that the one word names.
fn bare_op(name: &str) -> Option<Op<u64, u64>>
    ensures { AreRead pieces_of_op (name.now ∷ []) result }
{
    match name {
        "dropfirst" => Some(Op::DropFirst),
        "reverse" => Some(Op::Reverse),
        "pop" => Some(Op::Pop),
        "dequeue" => Some(Op::Dequeue),
        "droplast" => Some(Op::DropLast),
        _ => None,
    }
}

// The op that the word names, of this value or key.
fn op_of_one(name: &str, number: u64) -> Option<Op<u64, u64>>
    ensures { AreRead pieces_of_op (name.now ∷ decimal number ∷ []) result }
{
    match name {
        "pushfront" => Some(Op::PushFront(number)),
        "push" => Some(Op::Push(number)),
        "enqueue" => Some(Op::Enqueue(number)),
        "pushback" => Some(Op::PushBack(number)),
        "remove" => Some(Op::Remove(number)),
        "insertitem" => Some(Op::InsertItem(number)),
        "removeitem" => Some(Op::RemoveItem(number)),
        _ => None,
    }
}
