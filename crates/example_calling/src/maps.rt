//! What maps have after updates, replacements and unions, and after changes of many pairs.
ghost use Rattle.std.specs.Prelude.{◌≡◌, ◌++◌, ◌/◌, Some, None, IfOk, option_map, nat_eq, nat_le, reverse};
ghost use Rattle.std.specs.Option.{option_or};
ghost use Rattle.std.specs.Ordering.{nat_cmp};
ghost use Rattle.rpds.specs.HashedMap.{find as find_by_hash};
ghost use Rattle.rpds.specs.OptionFilter.{option_filter};
ghost use Rattle.rpds.specs.Pairs.{find};

use rpds::laws::{hashed, ordered};
use rpds::{HashTrieMap, RedBlackTreeMap};
use std::alloc::AllocError;

/// The count of a key that an ordered map didn't have, once it came.
pub fn count_in_order(
    counts: &RedBlackTreeMap<u64, u64>,
    key: u64,
) -> Result<Option<u64>, AllocError>
    ensures { find nat_cmp key counts.now.entries ≡ None
        → IfOk result (λ count. count ≡ Some 1) }
{
    ordered::put_is_lawful::<u64, u64>();
    let more = counts.update(key, |old| Ok(old.map_or(1, |count| count.wrapping_add(1))))?;
    Ok(more.get(&key).copied())
}

/// The same of a hashed one.
pub fn count_by_hash(counts: &HashTrieMap<u64, u64>, key: u64) -> Result<Option<u64>, AllocError>
    ensures { find_by_hash nat_eq key counts.now.entries ≡ None
        → IfOk result (λ count. count ≡ Some 1) }
{
    let more = counts.update(key, |old| Ok(old.map_or(1, |count| count.wrapping_add(1))))?;
    Ok(more.get(&key).copied())
}

/// What an ordered map has for a key whose value was replaced.
pub fn replace_in_order(
    map: &mut RedBlackTreeMap<u64, u64>,
    key: u64,
    value: u64,
) -> Result<Option<u64>, AllocError>
    ensures { IfOk result (λ found. found ≡ Some value) }
{
    ordered::put_is_lawful::<u64, u64>();
    let _old = map.replace(key, value)?;
    Ok(map.get(&key).copied())
}

/// Whether an ordered map has a key that was taken out.
pub fn take_in_order(
    map: &mut RedBlackTreeMap<u64, u64>,
    key: u64,
) -> Result<Option<u64>, AllocError>
    ensures { IfOk result (λ found. found ≡ None) }
{
    ordered::without_is_lawful::<u64, u64>();
    let _old = map.take(&key)?;
    Ok(map.get(&key).copied())
}

/// Whether a hashed map has a key that was taken out.
pub fn take_by_hash(map: &mut HashTrieMap<u64, u64>, key: u64) -> Result<Option<u64>, AllocError>
    ensures { IfOk result (λ found. found ≡ None) }
{
    hashed::without_is_lawful::<u64, u64>();
    let _old = map.take(&key)?;
    Ok(map.get(&key).copied())
}

/// What the union of two maps has for a key: the value of the first, or else that of the second.
pub fn look_up_in_both(
    map: &HashTrieMap<u64, u64>,
    other: &HashTrieMap<u64, u64>,
    key: u64,
) -> Result<Option<u64>, AllocError>
    ensures { IfOk result (λ found. found ≡ option_map (λ p. p.1)
        (option_or (find_by_hash nat_eq key map.now.entries) (find_by_hash nat_eq key other.now.entries))) }
{
    Ok(map.union(other)?.get(&key).copied())
}

/// What an ordered map has for a key of which a pair came last.
pub fn extend_in_order(
    map: &mut RedBlackTreeMap<u64, u64>,
    pairs: Vec<(u64, u64)>,
    key: u64,
) -> Result<Option<u64>, AllocError>
    ensures { IfOk result (λ found. found ≡ option_map (λ p. p.1)
        (find nat_cmp key (reverse pairs.items ++ map.old.entries))) }
{
    map.extend(pairs)?;
    Ok(map.get(&key).copied())
}

/// What a hashed map has for a key of which a pair came last.
pub fn extend_by_hash(
    map: &mut HashTrieMap<u64, u64>,
    pairs: Vec<(u64, u64)>,
    key: u64,
) -> Result<Option<u64>, AllocError>
    ensures { IfOk result (λ found. found ≡ option_map (λ p. p.1)
        (find_by_hash nat_eq key (reverse pairs.items ++ map.old.entries))) }
{
    map.extend(pairs)?;
    Ok(map.get(&key).copied())
}

/// What an ordered map has for a key, once pairs of small values went.
pub fn retain_in_order(
    map: &mut RedBlackTreeMap<u64, u64>,
    least: u64,
    key: u64,
) -> Result<Option<u64>, AllocError>
    ensures { IfOk result (λ found. found ≡ option_map (λ p. p.1)
        (option_filter (λ p. nat_le least p.1) (find nat_cmp key map.old.entries))) }
{
    map.retain(|_, value| *value >= least)?;
    Ok(map.get(&key).copied())
}

/// What a hashed map has for a key, once pairs of small values went.
pub fn retain_by_hash(
    map: &mut HashTrieMap<u64, u64>,
    least: u64,
    key: u64,
) -> Result<Option<u64>, AllocError>
    ensures { IfOk result (λ found. found ≡ option_map (λ p. p.1)
        (option_filter (λ p. nat_le least p.1) (find_by_hash nat_eq key map.old.entries))) }
{
    map.retain(|_, value| *value >= least)?;
    Ok(map.get(&key).copied())
}

/// The half of the value that an ordered map has for a key.
pub fn halve_in_order(map: &RedBlackTreeMap<u64, u64>, key: u64) -> Result<Option<u64>, AllocError>
    ensures { IfOk result (λ found. found ≡ option_map (λ x. x / 2)
        (option_map (λ p. p.1) (find nat_cmp key map.now.entries))) }
{
    let halves = map.map_values(|value| Ok(*value / 2))?;
    Ok(halves.get(&key).copied())
}

/// The half of the value that a hashed map has for a key.
pub fn halve_by_hash(map: &HashTrieMap<u64, u64>, key: u64) -> Result<Option<u64>, AllocError>
    ensures { IfOk result (λ found. found ≡ option_map (λ x. x / 2)
        (option_map (λ p. p.1) (find_by_hash nat_eq key map.now.entries))) }
{
    let halves = map.map_values(|value| Ok(*value / 2))?;
    Ok(halves.get(&key).copied())
}
