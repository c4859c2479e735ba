//! What is printed for a line.
ghost use Rattle.std.specs.Prelude.{ℕ, List, ◌++◌, ◌∷◌, [], OnOk, codes};
ghost use Rattle.std.specs.Io.KnownBytes.{Appends};
ghost use Rattle.std.specs.Option.{option_map};
ghost use Rattle.rpds_table.specs.Answers.{answer_value};
ghost use Rattle.rpds_table.specs.Kinds.{version_of_ref};
ghost use Rattle.rpds_lines.specs.Printed.{text_of_reply, text_of_answer, text_of_ordering, text_of_refusal, IsShown};

mod range;
mod snap;

use range::{write_members, write_pairs};
use rpds_table::table::{Answer, IdentityBuild, Refusal, Reply, VersionRef};
pub use snap::{write_snap_reply, write_snapshot};
use std::alloc::Allocator;
use std::cmp::Ordering;
use std::io::{self, Write};

/// Prints the reply to a command.
pub fn write_reply<W: Write>(writer: &mut W, reply: Reply) -> io::Result<()>
    ensures { OnOk result (Appends (W.contents writer.old) (W.contents writer.new)
        (text_of_reply reply ++ 10 ∷ [])) }
{
    match reply {
        Reply::Made(index) => writeln!(writer, "made {index}"),
        Reply::Done(true) => writer.write_all(b"done true\n"),
        Reply::Done(false) => writer.write_all(b"done false\n"),
        Reply::Refused(refusal) => write_refusal(writer, refusal),
    }
}

/// Prints the answer to a question.
pub fn write_answer<W: Write, A: Allocator>(
    writer: &mut W,
    answer: Answer<'_, u64, u64, A>,
) -> io::Result<()>
    ensures { OnOk result (Appends (W.contents writer.old) (W.contents writer.new)
        (text_of_answer (answer_value answer.entry) ++ 10 ∷ [])) }
{
    match answer {
        Answer::Item(Some(value)) => writeln!(writer, "some {value}"),
        Answer::Size(size) => writeln!(writer, "size {size}"),
        Answer::Pair(Some((key, value))) => writeln!(writer, "some {key} {value}"),
        Answer::Member(Some(key)) => writeln!(writer, "some {key}"),
        Answer::Item(None) | Answer::Pair(None) | Answer::Member(None) => writer.write_all(
            b"none\n",
        ),
        Answer::Truth(true) => writer.write_all(b"true\n"),
        Answer::Truth(false) => writer.write_all(b"false\n"),
        Answer::Pairs(pairs) => write_pairs(writer, pairs),
        Answer::Members(members) => write_members(writer, members),
        Answer::Order(ordering) => write_ordering(writer, ordering),
        Answer::Refused(refusal) => write_refusal(writer, refusal),
    }
}

/// Prints the `Display` of a version, or that there is none.
pub fn write_version<W: Write, A: Allocator>(
    writer: &mut W,
    version: Option<VersionRef<'_, u64, u64, IdentityBuild, A>>,
) -> io::Result<()>
    ensures { OnOk result ((text : List ℕ) × IsShown (option_map version_of_ref version.entry) text
        × Appends (W.contents writer.old) (W.contents writer.new) (text ++ 10 ∷ [])) }
{
    match version {
        Some(version) => writeln!(writer, "{version}"),
        None => write_refusal(writer, Refusal::NoVersion),
    }
}

fn write_ordering<W: Write>(writer: &mut W, ordering: Ordering) -> io::Result<()>
    ensures { OnOk result (Appends (W.contents writer.old) (W.contents writer.new)
        (text_of_ordering ordering ++ 10 ∷ [])) }
{
    match ordering {
        Ordering::Less => writer.write_all(b"less\n"),
        Ordering::Equal => writer.write_all(b"equal\n"),
        Ordering::Greater => writer.write_all(b"greater\n"),
    }
}

fn write_refusal<W: Write>(writer: &mut W, refusal: Refusal) -> io::Result<()>
    ensures { OnOk result (Appends (W.contents writer.old) (W.contents writer.new)
        (text_of_refusal refusal ++ 10 ∷ [])) }
{
    let number = refusal.number();
    writeln!(writer, "refused {number}")
}

/// Prints that a line is outside the grammar.
pub fn write_bad_line<W: Write>(writer: &mut W) -> io::Result<()>
    ensures { OnOk result (Appends (W.contents writer.old) (W.contents writer.new)
        (codes "bad line" ++ 10 ∷ [])) }
{
    writer.write_all(b"bad line\n")
}
