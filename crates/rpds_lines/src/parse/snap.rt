//! Requests of the map with snapshots.
ghost use Rattle.std.specs.Prelude.{◌∷◌, []};
ghost use Rattle.rpds_lines.specs.Grammar.Pieces.{AreRead};
ghost use Rattle.rpds_lines.specs.Grammar.Snaps.{pieces_of_snap};

use crate::parse::words::Words;
use rpds_snapshots::snapshots::SnapCommand;

/// A command to the map with snapshots, or the wish to see a part of it.
#[derive(Drop)]
pub enum SnapRequest {
    Command(SnapCommand<u64, u64>),
    /// The pair of this key.
    Get(u64),
    /// The `Display` of the map as it is now.
    Show,
    /// The `Display` of the snapshot of this number.
    At(usize),
}

/// The request that the words after `snap` name.
pub fn parse_snap(words: &mut Words<'_>) -> Option<SnapRequest>
    ensures { AreRead pieces_of_snap words.old result }
{
    let name = words.next()?;
    if words.is_empty() {
        return parse_bare_snap(name);
    }
    match name {
        "put" => Some(SnapRequest::Command(SnapCommand::Put(
            words.next_number()?,
            words.last_number()?,
        ))),
        "out" => Some(SnapRequest::Command(SnapCommand::TakeOut(words.last_number()?))),
        "back" => Some(SnapRequest::Command(SnapCommand::GoBack(words.last_index()?))),
        "get" => Some(SnapRequest::Get(words.last_number()?)),
        "at" => Some(SnapRequest::At(words.last_index()?)),
        _ => None,
    }
}

// The request that the one word names.
fn parse_bare_snap(name: &str) -> Option<SnapRequest>
    ensures { AreRead pieces_of_snap (name.now ∷ []) result }
{
    match name {
        "take" => Some(SnapRequest::Command(SnapCommand::Take)),
        "show" => Some(SnapRequest::Show),
        _ => None,
    }
}
