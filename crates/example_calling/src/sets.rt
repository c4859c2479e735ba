//! What sets have after unions and the like, and after changes of many members.
ghost use Rattle.std.specs.Prelude.{◌≡◌, ◌&&◌, ◌||◌, ◌++◌, IfOk, is_none, is_some, nat_eq, nat_le, reverse};
ghost use Rattle.std.specs.Option.{option_xor};
ghost use Rattle.std.specs.Ordering.{nat_cmp};
ghost use Rattle.rpds.specs.HashedSet.{find_member};
ghost use Rattle.rpds.specs.OptionFilter.{option_filter};
ghost use Rattle.rpds.specs.OrderedSet.{find_member as find_in_order};

use rpds::{HashTrieSet, RedBlackTreeSet};
use std::alloc::AllocError;

/// Whether a value is in both sets.
pub fn ask_both(
    set: &HashTrieSet<u64>,
    other: &HashTrieSet<u64>,
    value: u64,
) -> Result<bool, AllocError>
    ensures { IfOk result (λ there. there ≡
        (is_some (find_member nat_eq value set.now.members) && is_some (find_member nat_eq value other.now.members))) }
{
    Ok(set.intersection(other)?.contains(&value))
}

/// Whether a value is in either set.
pub fn ask_either(
    set: &HashTrieSet<u64>,
    other: &HashTrieSet<u64>,
    value: u64,
) -> Result<bool, AllocError>
    ensures { IfOk result (λ there. there ≡
        (is_some (find_member nat_eq value set.now.members) || is_some (find_member nat_eq value other.now.members))) }
{
    Ok(set.union(other)?.contains(&value))
}

/// Whether a value is in either set, by the operator.
pub fn ask_either_by_operator(
    set: &HashTrieSet<u64>,
    other: &HashTrieSet<u64>,
    value: u64,
) -> Result<bool, AllocError>
    ensures { IfOk result (λ there. there ≡
        (is_some (find_member nat_eq value set.now.members) || is_some (find_member nat_eq value other.now.members))) }
{
    Ok((set | other)?.contains(&value))
}

/// Whether a value is in the first set alone.
pub fn ask_first_alone(
    set: &HashTrieSet<u64>,
    other: &HashTrieSet<u64>,
    value: u64,
) -> Result<bool, AllocError>
    ensures { IfOk result (λ there. there ≡
        (is_some (find_member nat_eq value set.now.members) && is_none (find_member nat_eq value other.now.members))) }
{
    Ok(set.difference(other)?.contains(&value))
}

/// What one of two sets has of a value, where the other doesn't have it.
pub fn ask_one_alone(
    set: &HashTrieSet<u64>,
    other: &HashTrieSet<u64>,
    value: u64,
) -> Result<Option<u64>, AllocError>
    ensures { IfOk result (λ found. found ≡ option_xor
        (find_member nat_eq value set.now.members) (find_member nat_eq value other.now.members)) }
{
    Ok(set.symmetric_difference(other)?.get(&value).copied())
}

/// What an ordered set has of a value, once others came.
pub fn extend_in_order(
    set: &mut RedBlackTreeSet<u64>,
    values: Vec<u64>,
    value: u64,
) -> Result<Option<u64>, AllocError>
    ensures { IfOk result (λ found. found
        ≡ find_in_order nat_cmp value (reverse values.items ++ set.old.members)) }
{
    set.extend(values)?;
    Ok(set.get(&value).copied())
}

/// What a hashed set has of a value, once others came.
pub fn extend_by_hash(
    set: &mut HashTrieSet<u64>,
    values: Vec<u64>,
    value: u64,
) -> Result<Option<u64>, AllocError>
    ensures { IfOk result (λ found. found
        ≡ find_member nat_eq value (reverse values.items ++ set.old.members)) }
{
    set.extend(values)?;
    Ok(set.get(&value).copied())
}

/// What an ordered set has of a value, once small ones went.
pub fn retain_in_order(
    set: &mut RedBlackTreeSet<u64>,
    least: u64,
    value: u64,
) -> Result<Option<u64>, AllocError>
    ensures { IfOk result (λ found. found
        ≡ option_filter (λ x. nat_le least x) (find_in_order nat_cmp value set.old.members)) }
{
    set.retain(|member| *member >= least)?;
    Ok(set.get(&value).copied())
}

/// What a hashed set has of a value, once small ones went.
pub fn retain_by_hash(
    set: &mut HashTrieSet<u64>,
    least: u64,
    value: u64,
) -> Result<Option<u64>, AllocError>
    ensures { IfOk result (λ found. found
        ≡ option_filter (λ x. nat_le least x) (find_member nat_eq value set.old.members)) }
{
    set.retain(|member| *member >= least)?;
    Ok(set.get(&value).copied())
}
