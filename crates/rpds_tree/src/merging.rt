//! A merge at one key, which those of whole maps and of branches are made of.
ghost use Rattle.std.specs.Prelude.{◌≡◌, ◌+◌, ◌*◌, ◌≤◌, if◌then◌else◌, true, Ok, IfOk, MatchBool, OnErr, OnOk, Option, length};
ghost use Rattle.std.specs.Option.{option_copied};
ghost use Rattle.std.specs.Ordering.{is_eq};
ghost use Rattle.std.specs.declared.cmp.Ordering.TheVariants.{Equal};
ghost use Rattle.rpds_core.specs.Counts.{IsWithin};
ghost use Rattle.rpds_red_black.specs.Logarithm.{most_levels};
ghost use Rattle.rpds_red_black.specs.Pairs.{find};
ghost use Rattle.rpds_tree.specs.Differences.{differ, value_of};
ghost use Rattle.rpds_tree.specs.Merges.{IsMergedAt, IsResolved, is_conflict_at, merged_at};

use crate::map::red_black_tree_map::RedBlackTreeMap;
use rpds_core::steps::Steps;
use std::alloc::{AllocError, Allocator};

// Whether a key has another value, where it may be absent.
fn is_other<V: PartialEq>(a: Option<&V>, b: Option<&V>) -> bool
    ensures { result ≡ differ V.eq (option_copied a.entry) (option_copied b.entry) }
{
    a != b
}

// The value of the key, if it is there.
fn value_counted<'a, K: Ord, V, A: Allocator>(
    map: &'a RedBlackTreeMap<K, V, A>,
    key: &K,
    steps: &mut Steps,
) -> Option<&'a V>
    ensures found { option_copied result ≡ value_of K.cmp key.now map.now.entries }
    ensures steps { IsWithin (most_levels (length map.now.entries)) 0 steps.old steps.new }
{
    match map.get_counted(key, steps) {
        Some((_, value)) => Some(value),
        None => None,
    }
}

/// Takes the key over from theirs where they alone changed it, and returns whether both did, and not alike. Ours is what the map
/// has. It counts the keys that it compares and the nodes that it makes.
pub fn merge_key<K: Ord + Drop, V: PartialEq + Drop, A: Allocator + Copy>(
    map: &mut RedBlackTreeMap<K, V, A>,
    base: &RedBlackTreeMap<K, V, A>,
    theirs: &RedBlackTreeMap<K, V, A>,
    key: &K,
    steps: &mut Steps,
) -> Result<bool, AllocError>
    ensures both { IfOk result (λ both.
        both ≡ is_conflict_at K.cmp V.eq base.now.entries map.old.entries theirs.now.entries key.now) }
    ensures ok { OnOk result ((k : K) → find K.cmp k map.new.entries
        ≡ (if is_eq (K.cmp k key.now)
        then merged_at K.cmp V.eq base.now.entries map.old.entries theirs.now.entries k
        else find K.cmp k map.old.entries)) }
    ensures conflict { result ≡ Ok true → map.new ≡ map.old }
    ensures err { OnErr result (map.new ≡ map.old) }

    ensures more { OnOk result (length map.new.entries ≤ length map.old.entries + 1) }
    ensures steps { let levels = most_levels (length map.old.entries) in
        let before = most_levels (length base.now.entries) in
        let their = most_levels (length theirs.now.entries) in
        IsWithin (before + 2 * (their + levels)) (4 * levels + 1) steps.old steps.new }
{
    let before = value_counted(base, key, steps);
    let their = value_counted(theirs, key, steps);
    if !is_other(before, their) {
        return Ok(false);
    }
    let our = value_counted(map, key, steps);
    if is_other(before, our) {
        return Ok(is_other(our, their));
    }
    map.copy_from_mut_counted(theirs, key, steps)?;
    Ok(false)
}

// Gives the key what `resolve` answers.
fn settle_key<
    K: Ord + Clone + Drop,
    V: PartialEq + Drop,
    A: Allocator + Copy,
    F: Fn(&K, Option<&V>, Option<&V>, Option<&V>) -> Result<Option<V>, AllocError>,
>(
    map: &mut RedBlackTreeMap<K, V, A>,
    base: &RedBlackTreeMap<K, V, A>,
    theirs: &RedBlackTreeMap<K, V, A>,
    key: &K,
    resolve: &F,
    steps: &mut Steps,
) -> Result<(), AllocError>
    requires clone_keys { (x y : K) → K.is_clone x y → K.cmp x y ≡ Equal }
    requires callable { F.IsAlwaysCallable resolve.now }
    ensures ok { OnOk result ((answer : Option V)
        × IsResolved K.cmp F.Fn resolve.now key.now (value_of K.cmp key.now base.now.entries)
        (value_of K.cmp key.now map.old.entries) (value_of K.cmp key.now theirs.now.entries) answer
        × ((k : K) → MatchBool (is_eq (K.cmp k key.now))
        (value_of K.cmp k map.new.entries ≡ answer)
        (find K.cmp k map.new.entries ≡ find K.cmp k map.old.entries))) }
    ensures err { OnErr result (map.new ≡ map.old) }

    ensures more { OnOk result (length map.new.entries ≤ length map.old.entries + 1) }
    ensures steps { let levels = most_levels (length map.old.entries) in
        let before = most_levels (length base.now.entries) in
        let their = most_levels (length theirs.now.entries) in
        IsWithin (before + their + 2 * levels) (4 * levels + 1) steps.old steps.new }
{
    let before = value_counted(base, key, steps);
    let our = value_counted(map, key, steps);
    let their = value_counted(theirs, key, steps);
    match resolve(key, before, our, their)? {
        Some(value) => map.insert_mut_counted(key.clone()?, value, steps),
        None => {
            map.remove_mut_counted(key, steps)?;
            Ok(())
        }
    }
}

/// Takes the key over from theirs where they alone changed it, and gives it what `resolve` answers where both did, and not alike.
/// Ours is what the map has. It counts as [`merge_key`] does; what `resolve` does isn't counted.
pub fn merge_key_with<
    K: Ord + Clone + Drop,
    V: PartialEq + Drop,
    A: Allocator + Copy,
    F: Fn(&K, Option<&V>, Option<&V>, Option<&V>) -> Result<Option<V>, AllocError>,
>(
    map: &mut RedBlackTreeMap<K, V, A>,
    base: &RedBlackTreeMap<K, V, A>,
    theirs: &RedBlackTreeMap<K, V, A>,
    key: &K,
    resolve: &F,
    steps: &mut Steps,
) -> Result<(), AllocError>
    requires clone_keys { (x y : K) → K.is_clone x y → K.cmp x y ≡ Equal }
    requires callable { F.IsAlwaysCallable resolve.now }
    ensures ok { OnOk result ((k : K) → MatchBool (is_eq (K.cmp k key.now))
        (IsMergedAt K.cmp V.eq F.Fn resolve.now base.now.entries map.old.entries theirs.now.entries k
        (find K.cmp k map.new.entries))
        (find K.cmp k map.new.entries ≡ find K.cmp k map.old.entries)) }
    ensures err { OnErr result (map.new ≡ map.old) }

    ensures more { OnOk result (length map.new.entries ≤ length map.old.entries + 1) }
    ensures steps { let levels = most_levels (length map.old.entries) in
        let before = most_levels (length base.now.entries) in
        let their = most_levels (length theirs.now.entries) in
        IsWithin (2 * before + 3 * their + 4 * levels) (8 * levels + 2) steps.old steps.new }
{
    if merge_key(map, base, theirs, key, steps)? {
        return settle_key(map, base, theirs, key, resolve, steps);
    }
    Ok(())
}
