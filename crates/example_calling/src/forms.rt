//! What maps and sets have for another form of a key: a `&str` for a `String`, a number for a key of our own.
ghost use Rattle.std.specs.Prelude.{◌≡◌, ℕ, IfOk, Some, bytes_eq, false, is_some, nat_eq, option_map, string_bytes};
ghost use Rattle.std.specs.Cmp.{nat_eq_equiv, unsigned_Decides};
ghost use Rattle.std.specs.Hash as fed;
ghost use Rattle.std.specs.Hash.{same_Alike};
ghost use Rattle.rpds.specs.HashedMap.{find};
ghost use Rattle.rpds.specs.HashedSet.{find_member};
ghost use Rattle.rpds.specs.Keys.{form_test};

use rpds::laws::{hashed, ordered};
use rpds::{HashKey, HashTrieMap, HashTrieSet, RedBlackTreeMap};
use std::alloc::AllocError;

/// The count of a word: that of the `String` that reads so.
pub fn count_of_word(counts: &HashTrieMap<String, u64>, word: &str) -> Option<u64>
    ensures { result ≡ option_map (λ p. p.1)
        (find (λ key text. bytes_eq (string_bytes key) text) word.now counts.now.entries) }
{
    counts.get(word).copied()
}

/// Whether a map has a word that was taken out.
pub fn forget_word(counts: &mut HashTrieMap<String, u64>, word: &str) -> Result<bool, AllocError>
    ensures { IfOk result (λ there. there ≡ false) }
{
    hashed::form_is_lawful::<String, u64, &str>();
    counts.remove_mut(word)?;
    Ok(counts.contains_key(word))
}

/// Counts a word anew, and looks it up by its text.
pub fn count_anew(
    counts: &mut HashTrieMap<String, u64>,
    word: &str,
    count: u64,
) -> Result<Option<u64>, AllocError>
    ensures { IfOk result (λ found. found ≡ Some count) }
{
    let key = String::from_str(*counts.allocator(), word)?;
    hashed::put_form_is_lawful::<String, u64, &str>(&key, word);
    counts.insert_mut(key, count)?;
    Ok(counts.get(word).copied())
}

/// The same in alphabetical order.
pub fn count_anew_in_order(
    counts: &mut RedBlackTreeMap<String, u64>,
    word: &str,
    count: u64,
) -> Result<Option<u64>, AllocError>
    ensures { IfOk result (λ found. found ≡ Some count) }
{
    let key = String::from_str(*counts.allocator(), word)?;
    ordered::put_form_is_lawful::<String, u64, &str>(&key, word);
    counts.insert_mut(key, count)?;
    Ok(counts.get(word).copied())
}

/// A key that is a number of something.
#[derive(Drop, PartialEq, Eq, Hash)]
pub struct Id {
    pub number: u64,
}

/// A number is looked up without an `Id`.
impl HashKey<Id> for u64 {
    ghost Seen = { ℕ };

    ghost seen = { λ number. number };

    ghost same = { λ id number. nat_eq id.number number };

    ghost tests = { form_test nat_eq_equiv (same_Alike fed.u64 unsigned_Decides).fed (λ id. id.number) };

    fn is_form_of(self, key: &Id) -> bool {
        key.number == self as u64
    }
}

/// Whether a set has the id of a number.
pub fn has_number(ids: &HashTrieSet<Id>, number: u64) -> bool
    ensures { result ≡ is_some (find_member (λ id number. nat_eq id.number number) number ids.now.members) }
{
    ids.contains(number)
}
