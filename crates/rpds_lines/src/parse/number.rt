//! Numbers as words.
ghost use Rattle.rpds_lines.specs.Grammar.Pieces.{number, byte, IsRead};

/// The number that the word writes: `0`, or digits of which the first isn't `0`, up to the greatest `u64`.
pub fn parse_number(word: &str) -> Option<u64>
    ensures { IsRead number word.now result }
{
    if word == "0" {
        return Some(0);
    }
    match word.as_bytes().first()? {
        b'1'..=b'9' => word.parse::<u64>().ok(),
        _ => None,
    }
}

/// The number that the word writes, up to 255.
pub fn parse_byte(word: &str) -> Option<u8>
    ensures { IsRead byte word.now result }
{
    u8::try_from(parse_number(word)?).ok()
}

/// The number that the word writes, as the number of a version or a position.
pub fn parse_index(word: &str) -> Option<usize>
    ensures { IsRead number word.now result }
{
    // A `usize` has 64 bits: the check proves that this cast keeps the number.
    Some(parse_number(word)? as usize)
}
