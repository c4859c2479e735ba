//! Kinds.
ghost use Rattle.rpds_lines.specs.Grammar.Kinds.{piece_of_kind};
ghost use Rattle.rpds_lines.specs.Grammar.Pieces.{IsRead};

use rpds_table::table::Kind;

/// The kind that the word names.
pub fn parse_kind(word: &str) -> Option<Kind>
    ensures { IsRead piece_of_kind word.now result }
{
    match word {
        "list" => Some(Kind::List),
        "stack" => Some(Kind::Stack),
        "queue" => Some(Kind::Queue),
        "vector" => Some(Kind::Vector),
        "hmap" => Some(Kind::HashTrieMap),
        "hset" => Some(Kind::HashTrieSet),
        "rmap" => Some(Kind::RedBlackTreeMap),
        "rset" => Some(Kind::RedBlackTreeSet),
        _ => None,
    }
}
