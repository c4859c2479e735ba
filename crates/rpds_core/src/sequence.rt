//! What is read off a whole iterator: equality, order, `Hash` and `Display` of its items in order. All containers that have
//! an order take theirs from here.
//!
//! An iterator is seen as a list by two functions that its caller names: `see` reads an item, `rest` the list of what is
//! left.
ghost use Rattle.std.specs.Prelude.{◌≡◌, ℕ, Bool, List, Option, Some, []};
ghost use Rattle.std.specs.Cmp.Lexicographic.{pointwise, slice_cmp, slice_partial_cmp};
ghost use Rattle.std.specs.Fmt.{◌++?◌, debug_items, formatter_spec, DisplaysOnOk, DisplaysStyledOnOk};
ghost use Rattle.std.specs.Hash.{HashWrites};
ghost use Rattle.std.specs.Iterator.{IsFinite};
ghost use Rattle.std.specs.List.{flat_map, fold};
ghost use Rattle.std.specs.declared.cmp.Ordering.{Ordering};
ghost use Rattle.rpds_core.specs.Sequence.{ShowsList};

use std::cmp::Ordering;
use std::fmt;
use std::fmt::{Display, Formatter};
use std::hash::{Hash, Hasher};

/// Whether the two give equal items in order, and end together. One step an item, up to the first that differ.
pub fn equal<T, X: PartialEq + Drop, I: Iterator<Item = X>>(mut left: I, mut right: I) -> bool
    requires can { I.can_next left × I.can_next right }
    requires ends { IsFinite (I.remaining left) }
    ensures { (see : X → T) (rest : I → List T) (eq : T → T → Bool) → ShowsList I.next_gives see rest
        → ((a b : X) → X.eq a b ≡ eq (see a) (see b)) → result ≡ pointwise eq (rest left) (rest right) }
{
    while let Some(a) = left.next() {
        let Some(b) = right.next() else {
            return false;
        };
        if !a.eq(&b) {
            return false;
        }
    }
    match right.next() {
        Some(_) => false,
        None => true,
    }
}

/// The partial order of the first items that aren't equal; where one ends before, it is less. One step an item, up to
/// these.
pub fn partial_order<T, X: PartialOrd + Drop, I: Iterator<Item = X>>(
    mut left: I,
    mut right: I,
) -> Option<Ordering>
    requires can { I.can_next left × I.can_next right }
    requires ends { IsFinite (I.remaining left) }
    ensures { (see : X → T) (rest : I → List T) (partial_cmp : T → T → Option Ordering) → ShowsList I.next_gives see rest
        → ((a b : X) → X.partial_cmp a b ≡ partial_cmp (see a) (see b))
        → result ≡ slice_partial_cmp partial_cmp (rest left) (rest right) }
{
    while let Some(a) = left.next() {
        let Some(b) = right.next() else {
            return Some(Ordering::Greater);
        };
        let Some(order) = a.partial_cmp(&b) else {
            return None;
        };
        if order.is_ne() {
            return Some(order);
        }
    }
    match right.next() {
        Some(_) => Some(Ordering::Less),
        None => Some(Ordering::Equal),
    }
}

/// The order of the first items that aren't equal; where one ends before, it is less. One step an item, up to these.
#[inline(always)]
pub fn order<T, X: Ord + Drop, I: Iterator<Item = X>>(mut left: I, mut right: I) -> Ordering
    requires can { I.can_next left × I.can_next right }
    requires ends { IsFinite (I.remaining left) }
    ensures { (see : X → T) (rest : I → List T) (cmp : T → T → Ordering) → ShowsList I.next_gives see rest
        → ((a b : X) → X.cmp a b ≡ cmp (see a) (see b)) → result ≡ slice_cmp cmp (rest left) (rest right) }
{
    while let Some(a) = left.next() {
        let Some(b) = right.next() else {
            return Ordering::Greater;
        };
        let order = a.cmp(&b);
        if order.is_ne() {
            return order;
        }
    }
    match right.next() {
        Some(_) => Ordering::Less,
        None => Ordering::Equal,
    }
}

/// Feeds the hasher each item in order. One step an item.
pub fn feed<T, X: Hash + Drop, I: Iterator<Item = X>, H: Hasher>(items: I, state: &mut H)
    requires can { I.can_next items }
    requires ends { IsFinite (I.remaining items) }
    ensures { (see : X → T) (rest : I → List T) (input : T → HashWrites) → ShowsList I.next_gives see rest
        → ((x : X) → X.hash_input x ≡ input (see x)) → state.new ≡ fold H.write state.old (flat_map input (rest items)) }
{
    for item in items {
        item.hash(state);
    }
}

// Writes the items in order with a comma and a space between them, each with the options of the formatter.
fn write_items<T, X: Display + Drop, I: Iterator<Item = X>, W: fmt::Write>(
    mut items: I,
    f: &mut Formatter<W>,
) -> fmt::Result
    requires can { I.can_next items }
    requires ends { IsFinite (I.remaining items) }
    ensures writes { (see : X → T) (rest : I → List T) (text : T → Option (List ℕ)) → ShowsList I.next_gives see rest
        → ((x : X) → X.output x ≡ text (see x))
        → DisplaysOnOk W.write_str_gives f.old result (debug_items text [] (rest items)) f.new }
    ensures styled { (see : X → T) (rest : I → List T) (text : T → Option (List ℕ)) → ShowsList I.next_gives see rest
        → ((x : X) → X.styled_output x (formatter_spec f.old) ≡ text (see x))
        → DisplaysStyledOnOk W.write_str_gives f.old result (debug_items text [] (rest items)) f.new }
{
    if let Some(first) = items.next() {
        first.fmt(f)?;
        for item in items {
            f.write_str(", ")?;
            item.fmt(f)?;
        }
    }
    Ok(())
}

/// Writes the opening, the items in order with a comma and a space between them, and the closing. Each item has the
/// options of the formatter. One step an item; an error is that of the writer or of an item.
pub fn write_between<T, X: Display + Drop, I: Iterator<Item = X>, W: fmt::Write>(
    opening: &str,
    items: I,
    closing: &str,
    f: &mut Formatter<W>,
) -> fmt::Result
    requires can { I.can_next items }
    requires ends { IsFinite (I.remaining items) }
    ensures writes { (see : X → T) (rest : I → List T) (text : T → Option (List ℕ)) → ShowsList I.next_gives see rest
        → ((x : X) → X.output x ≡ text (see x))
        → DisplaysOnOk W.write_str_gives f.old result (Some opening.now ++? debug_items text [] (rest items) ++? Some closing.now) f.new }
    ensures styled { (see : X → T) (rest : I → List T) (text : T → Option (List ℕ)) → ShowsList I.next_gives see rest
        → ((x : X) → X.styled_output x (formatter_spec f.old) ≡ text (see x))
        → DisplaysStyledOnOk W.write_str_gives f.old result (Some opening.now ++? debug_items text [] (rest items) ++? Some closing.now) f.new }
{
    f.write_str(opening)?;
    write_items::<T, X, I, W>(items, f)?;
    f.write_str(closing)
}
