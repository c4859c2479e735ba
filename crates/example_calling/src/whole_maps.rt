//! What ordered maps and sets have after they were united, cut and taken from.
ghost use Rattle.std.specs.Prelude.{◌≡◌, ◌≢◌, ◌<◌, ◌&&◌, ◌||◌, None, IfOk, IfSome, is_none, is_some, option_map};
ghost use Rattle.std.specs.Option.{option_or, option_xor};
ghost use Rattle.std.specs.Ordering.{nat_cmp};
ghost use Rattle.rpds.specs.OrderedSet.{find_member};
ghost use Rattle.rpds.specs.Pairs.{find};

use rpds::laws::ordered;
use rpds::{RedBlackTreeMap, RedBlackTreeSet};
use std::alloc::AllocError;
use std::ops::Bound;

/// What the union of two maps has for a key: the value of the first, or else that of the second.
pub fn look_up_in_either(
    map: &RedBlackTreeMap<u64, u64>,
    other: &RedBlackTreeMap<u64, u64>,
    key: u64,
) -> Result<Option<u64>, AllocError>
    ensures { IfOk result (λ found. found ≡ option_map (λ p. p.1)
        (option_or (find nat_cmp key map.now.entries) (find nat_cmp key other.now.entries))) }
{
    Ok(map.union(other)?.get(&key).copied())
}

/// What the intersection of two maps has for a key that the second lacks.
pub fn look_up_in_both(
    map: &RedBlackTreeMap<u64, u64>,
    other: &RedBlackTreeMap<u64, u64>,
    key: u64,
) -> Result<Option<u64>, AllocError>
    ensures { find nat_cmp key other.now.entries ≡ None → IfOk result (λ found. found ≡ None) }
{
    Ok(map.intersection(other)?.get(&key).copied())
}

/// What the difference of two maps has for a key that the second lacks.
pub fn look_up_in_first(
    map: &RedBlackTreeMap<u64, u64>,
    other: &RedBlackTreeMap<u64, u64>,
    key: u64,
) -> Result<Option<u64>, AllocError>
    ensures { find nat_cmp key other.now.entries ≡ None → IfOk result (λ found. found
        ≡ option_map (λ p. p.1) (find nat_cmp key map.now.entries)) }
{
    Ok(map.difference(other)?.get(&key).copied())
}

/// What one map alone has for a key.
pub fn look_up_in_one(
    map: &RedBlackTreeMap<u64, u64>,
    other: &RedBlackTreeMap<u64, u64>,
    key: u64,
) -> Result<Option<u64>, AllocError>
    ensures { IfOk result (λ found. found ≡ option_map (λ p. p.1)
        (option_xor (find nat_cmp key map.now.entries) (find nat_cmp key other.now.entries))) }
{
    Ok(map.symmetric_difference(other)?.get(&key).copied())
}

/// What is before a cut for a key below it.
pub fn look_up_before(
    map: &RedBlackTreeMap<u64, u64>,
    cut: u64,
    key: u64,
) -> Result<Option<u64>, AllocError>
    ensures { key < cut → IfOk result (λ found. found
        ≡ option_map (λ p. p.1) (find nat_cmp key map.now.entries)) }
{
    ordered::within_is_lawful::<u64, u64>();
    Ok(map.split(&cut)?.below.get(&key).copied())
}

/// What a map has for a key below a range that was left out.
pub fn look_up_outside(
    map: &RedBlackTreeMap<u64, u64>,
    start: u64,
    key: u64,
) -> Result<Option<u64>, AllocError>
    ensures { key < start → IfOk result (λ found. found
        ≡ option_map (λ p. p.1) (find nat_cmp key map.now.entries)) }
{
    ordered::outside_is_lawful::<u64, u64>();
    let rest = map.without_range(Bound::Included(&start), Bound::Unbounded)?;
    Ok(rest.get(&key).copied())
}

/// What a map has for a key above the first, once the first pair was taken out.
pub fn look_up_behind_first(
    map: &RedBlackTreeMap<u64, u64>,
    key: u64,
) -> Result<Option<(u64, Option<u64>)>, AllocError>
    ensures { IfOk result (λ popped. IfSome popped (λ p. p.0 ≢ key
        → p.1 ≡ option_map (λ q. q.1) (find nat_cmp key map.now.entries))) }
{
    match map.pop_first()? {
        None => Ok(None),
        Some(((first, _), rest)) => Ok(Some((*first, rest.get(&key).copied()))),
    }
}

/// Whether a value is in either set.
pub fn ask_either(
    set: &RedBlackTreeSet<u64>,
    other: &RedBlackTreeSet<u64>,
    value: u64,
) -> Result<bool, AllocError>
    ensures { IfOk result (λ there. there ≡
        (is_some (find_member nat_cmp value set.now.members) || is_some (find_member nat_cmp value other.now.members))) }
{
    Ok(set.union(other)?.contains(&value))
}

/// Whether a value is in the first set alone.
pub fn ask_first_alone(
    set: &RedBlackTreeSet<u64>,
    other: &RedBlackTreeSet<u64>,
    value: u64,
) -> Result<bool, AllocError>
    ensures { IfOk result (λ there. there ≡
        (is_some (find_member nat_cmp value set.now.members) && is_none (find_member nat_cmp value other.now.members))) }
{
    Ok(set.difference(other)?.contains(&value))
}
