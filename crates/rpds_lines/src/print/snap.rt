//! What is printed of the map with snapshots.
ghost use Rattle.std.specs.Prelude.{ℕ, List, ◌++◌, ◌∷◌, [], OnOk};
ghost use Rattle.std.specs.Io.KnownBytes.{Appends};
ghost use Rattle.std.specs.Option.{option_copied};
ghost use Rattle.rpds_lines.specs.Printed.{text_of_snap_reply, text_of_snap_refusal, IsSnapShown};

use rpds_snapshots::snapshots::{SnapRefusal, SnapReply};
use rpds_tree::map::red_black_tree_map::RedBlackTreeMap;
use std::alloc::Allocator;
use std::io::{self, Write};

/// Prints the reply to a command.
pub fn write_snap_reply<W: Write>(writer: &mut W, reply: SnapReply) -> io::Result<()>
    ensures { OnOk result (Appends (W.contents writer.old) (W.contents writer.new)
        (text_of_snap_reply reply ++ 10 ∷ [])) }
{
    match reply {
        SnapReply::Done(true) => writer.write_all(b"done true\n"),
        SnapReply::Done(false) => writer.write_all(b"done false\n"),
        SnapReply::Taken(number) => writeln!(writer, "taken {number}"),
        SnapReply::Refused(refusal) => write_snap_refusal(writer, refusal),
    }
}

/// Prints the `Display` of a snapshot, or of the map as it is now, or that there is none.
pub fn write_snapshot<W: Write, A: Allocator>(
    writer: &mut W,
    map: Option<&RedBlackTreeMap<u64, u64, A>>,
) -> io::Result<()>
    ensures { OnOk result ((text : List ℕ) × IsSnapShown (option_copied map.entry) text
        × Appends (W.contents writer.old) (W.contents writer.new) (text ++ 10 ∷ [])) }
{
    match map {
        Some(map) => writeln!(writer, "{map}"),
        None => write_snap_refusal(writer, SnapRefusal::NoSnapshot),
    }
}

fn write_snap_refusal<W: Write>(writer: &mut W, refusal: SnapRefusal) -> io::Result<()>
    ensures { OnOk result (Appends (W.contents writer.old) (W.contents writer.new)
        (text_of_snap_refusal refusal ++ 10 ∷ [])) }
{
    let number = refusal.number();
    writeln!(writer, "refused {number}")
}
