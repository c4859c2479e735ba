//! Items as they come, put into the order of their keys.
ghost use Rattle.std.specs.Prelude.{◌≡◌, [], map, IfOk};
ghost use Rattle.std.specs.Iterator.{Drains, IsFinite};
ghost use Rattle.std.specs.Ordering.{eq_by_cmp};
ghost use Rattle.rpds_red_black.specs.Pairs.{put_all};

use crate::sorted::first_out_of_order;
use rpds_red_black::sorted_item::SortedItem;
use std::alloc::{AllocError, Allocator};
use std::cmp::Ordering;

// What an iterator gives. Memory for as many items as it says that it has at least is asked for at once.
pub(crate) fn listed<X: Drop, A: Allocator, U: IntoIterator<Item = X>>(
    alloc: A,
    iter: U,
) -> Result<Vec<X, A>, AllocError>
    requires ends { (it : U.IntoIter) → U.into_iter_gives iter it →
        U.IntoIter.can_next it × IsFinite (U.IntoIter.remaining it) }
    ensures { IfOk result (λ list. (it : U.IntoIter) × U.into_iter_gives iter it
        × Drains U.IntoIter.next_gives it list.items) }
{
    let items = iter.into_iter();
    let mut list = Vec::with_capacity(alloc, items.size_hint().0)?;
    list.extend(items)?;
    Ok(list)
}

// The items by ascending keys, each put among those before it: of equal keys the last one stays.
pub(crate) fn in_order<K: Ord, V, A: Allocator, X: SortedItem<K, V, A> + Drop>(
    items: Vec<X, A>,
) -> Result<Vec<X, A>, AllocError>
    ensures { IfOk result (λ ordered.
        map X.pair ordered.items ≡ put_all K.cmp [] (map X.pair items.items)) }
{
    match first_out_of_order(&items) {
        None => Ok(items),
        Some(_) => sorted(items),
    }
}

// The same of items that may come in any order.
fn sorted<K: Ord, V, A: Allocator, X: SortedItem<K, V, A> + Drop>(
    items: Vec<X, A>,
) -> Result<Vec<X, A>, AllocError>
    ensures { IfOk result (λ ordered.
        map X.pair ordered.items ≡ put_all K.cmp [] (map X.pair items.items)) }
{
    let mut items = items;
    // Of equal keys the last one comes first now, and stays there: the sort is stable.
    items.reverse();
    let by_key = |left: &X, right: &X| -> Ordering
        ensures { result ≡ K.cmp (X.pair left.now).0 (X.pair right.now).0 }
    { left.key().cmp(right.key()) };
    items.sort_by(by_key)?;
    let is_same = |item: &mut X, kept: &mut X| -> bool
        ensures { (result ≡ eq_by_cmp K.cmp (X.pair item.entry.now).0 (X.pair kept.entry.now).0)
            × (item.exit.now ≡ item.entry.now) × (kept.exit.now ≡ kept.entry.now) }
    { X::key(item).cmp(X::key(kept)).is_eq() };
    items.dedup_by(is_same);
    Ok(items)
}
