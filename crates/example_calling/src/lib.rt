//! What an insertion makes of a map, and what a look-up finds after one in each kind of map and set, and after other calls in
//! each kind of container, proved from the contracts of the library.
#![tactic(auto)]

ghost use Rattle.std.specs.Prelude.{◌≡◌, ◌≢◌, Some, IfOk, IsTrue, option_map};
ghost use Rattle.std.specs.Ordering.{nat_cmp};
ghost use Rattle.rpds.specs.Pairs.{find, put};

pub mod arenas;
pub mod cited;
pub mod forms;
pub mod maps;
pub mod sequences;
pub mod sets;
pub mod whole_maps;

use rpds::laws::ordered;
use rpds::{HashTrieMap, HashTrieSet, RedBlackTreeMap, RedBlackTreeSet};
use std::alloc::AllocError;

/// The map with a value for the key.
pub fn remember(
    map: &RedBlackTreeMap<u64, u64>,
    key: u64,
    value: u64,
) -> Result<RedBlackTreeMap<u64, u64>, AllocError>
    ensures { IfOk result (λ m. m.entries ≡ put nat_cmp (key, value) map.now.entries) }
{
    map.insert(key, value)
}

/// What an ordered map has for a key that was put in, and for another one.
pub fn look_up_in_order(
    map: &RedBlackTreeMap<u64, u64>,
    key: u64,
    value: u64,
    other: u64,
) -> Result<(Option<u64>, Option<u64>), AllocError>
    ensures found { IfOk result (λ values. values.0 ≡ Some value) }
    ensures others { other ≢ key → IfOk result (λ values.
        values.1 ≡ option_map (λ p. p.1) (find nat_cmp other map.now.entries)) }
{
    ordered::put_is_lawful::<u64, u64>();
    let more = map.insert(key, value)?;
    Ok((more.get(&key).copied(), more.get(&other).copied()))
}

/// Whether an ordered set has a value that was put in.
pub fn ask_in_order(set: &RedBlackTreeSet<u64>, value: u64) -> Result<bool, AllocError>
    ensures { IfOk result (λ there. IsTrue there) }
{
    ordered::put_member_is_lawful::<u64>();
    Ok(set.insert(value)?.contains(&value))
}

/// What a hashed map has for a key that was put in.
pub fn look_up_by_hash(
    map: &HashTrieMap<u64, u64>,
    key: u64,
    value: u64,
) -> Result<Option<u64>, AllocError>
    ensures { IfOk result (λ found. found ≡ Some value) }
{
    Ok(map.insert(key, value)?.get(&key).copied())
}

/// Whether a hashed set has a value that was put in.
pub fn ask_by_hash(set: &HashTrieSet<u64>, value: u64) -> Result<bool, AllocError>
    ensures { IfOk result (λ there. IsTrue there) }
{
    Ok(set.insert(value)?.contains(&value))
}
