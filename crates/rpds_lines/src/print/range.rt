//! What is printed for a range: each pair or member after a space, the least key first.
ghost use Rattle.std.specs.Prelude.{◌++◌, ◌∷◌, [], OnOk, codes};
ghost use Rattle.std.specs.Io.KnownBytes.{Appends};
ghost use Rattle.std.specs.List.{flat_map};
ghost use Rattle.rpds_lines.specs.Printed.{text_of_pair, text_of_member};

use rpds_table::table::{Members, Pairs};
use std::alloc::Allocator;
use std::io::{self, Write};

/// Prints the pairs of a range of a map.
pub fn write_pairs<W: Write, A: Allocator>(
    writer: &mut W,
    pairs: Pairs<'_, u64, u64, A>,
) -> io::Result<()>
    ensures { OnOk result (Appends (W.contents writer.old) (W.contents writer.new)
        ((codes "range" ++ flat_map text_of_pair pairs.entry) ++ 10 ∷ [])) }
{
    write!(writer, "range")?;
    for (key, value) in pairs {
        write!(writer, " {key}:{value}")?;
    }
    writeln!(writer)
}

/// Prints the members of a range of a set.
pub fn write_members<W: Write, A: Allocator>(
    writer: &mut W,
    members: Members<'_, u64, A>,
) -> io::Result<()>
    ensures { OnOk result (Appends (W.contents writer.old) (W.contents writer.new)
        ((codes "range" ++ flat_map text_of_member members.entry) ++ 10 ∷ [])) }
{
    write!(writer, "range")?;
    for key in members {
        write!(writer, " {key}")?;
    }
    writeln!(writer)
}
