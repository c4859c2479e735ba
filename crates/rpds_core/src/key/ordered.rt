//! What ordered maps and sets look their keys up by.
ghost use Rattle.std.specs.Prelude.{◌≡◌, ℕ, List, string_bytes};
ghost use Rattle.std.specs.Box.{boxed_slice_items, boxed_str_bytes};
ghost use Rattle.std.specs.Cmp.Lexicographic.{lists_total, nat_list_cmp_total, slice_cmp};
ghost use Rattle.std.specs.Cow.{cow_str_bytes};
ghost use Rattle.std.specs.Ordering.{nat_cmp, ordering_reverse};
ghost use Rattle.std.specs.Rc.{rc_slice_items, rc_str_bytes};
ghost use Rattle.std.specs.declared.cmp.Ordering.{Ordering};
ghost use Rattle.rpds_core.specs.Keys.{IsSearch, form_search, form_turns, own_search};

use std::alloc::Allocator;
use std::borrow::CowStr;
use std::boxed::{BoxedSlice, BoxedStr};
use std::cmp::Ordering;
use std::rc::{RcSlice, RcStr};

/// What ordered maps and sets look their keys up by: a reference to a key, or another form of it.
///
/// A `&str` finds a `String`, a `&str`, a `BoxedStr`, an `RcStr` or a `CowStr`, and a `&[T]` finds a `Vec<T>`, a `&[T]`, a
/// `BoxedSlice` or an `RcSlice`. It is taken by value, as std's maps take theirs.
///
/// Implement it for a form of keys of your own. Its order has to be that of the key that it is a form of: `form_search` is the proof
/// of `searches`, and `form_turns` that of `turns`, where both are compared by what they are seen as.
pub trait OrdKey<K: Ord>: Copy {
    /// What a form is seen as, for proofs.
    ghost Seen: { Type 0 };

    /// What this one is seen as.
    ghost seen: { Self → Seen };

    /// How what a form is seen as compares to a key.
    ghost order: { Seen → K → Ordering };

    /// How a key compares to what a form is seen as.
    ghost turned: { K → Seen → Ordering };

    /// How the form compares to a key.
    fn order(self, key: &K) -> Ordering
        ensures { result ≡ order (seen self) key.now };

    /// Among keys in order, those below the form come first, then those equal to it, then those above it.
    ghost searches: { (form : Self) → IsSearch K.cmp (order (seen form)) };

    /// A key compares to the form as the form does to the key, the other way round.
    ghost turns: { (form : Self) (key : K) → turned key (seen form) ≡ ordering_reverse (order (seen form) key) };
}

impl<K: Ord> OrdKey<K> for &K {
    ghost Seen = { K };

    ghost seen = { λ form. form.now };

    ghost order = { K.cmp };

    ghost turned = { K.cmp };

    ghost searches = { λ form. own_search K.total form.now };

    ghost turns = { λ form key. K.total.antisymm key form.now };

    #[inline(always)]
    fn order(self, key: &K) -> Ordering {
        self.cmp(key)
    }
}

// Both at one lifetime, the only form of these calls that the borrow checker covers.
#[inline]
fn compare_texts<'x>(a: &'x str, b: &'x str) -> Ordering
    ensures { result ≡ slice_cmp nat_cmp a.now b.now }
{
    Ord::cmp(&a, &b)
}

#[inline]
fn compare_slices<'x, T: Ord>(a: &'x [T], b: &'x [T]) -> Ordering
    ensures { result ≡ slice_cmp T.cmp a.now b.now }
{
    Ord::cmp(&a, &b)
}

impl<A: Allocator> OrdKey<String<A>> for &str {
    ghost Seen = { List ℕ };

    ghost seen = { λ form. form.now };

    ghost order = { λ text key. slice_cmp nat_cmp text (string_bytes key) };

    ghost turned = { λ key text. slice_cmp nat_cmp (string_bytes key) text };

    ghost searches = { λ form. form_search nat_list_cmp_total (λ key. string_bytes key) form.now };

    ghost turns = { λ form key. form_turns nat_list_cmp_total (λ key. string_bytes key) form.now key };

    #[inline(always)]
    fn order(self, key: &String<A>) -> Ordering {
        compare_texts(self, key.as_str())
    }
}

impl<'b> OrdKey<&'b str> for &str {
    ghost Seen = { List ℕ };

    ghost seen = { λ form. form.now };

    ghost order = { λ text key. slice_cmp nat_cmp text key.now };

    ghost turned = { λ key text. slice_cmp nat_cmp key.now text };

    ghost searches = { λ form. form_search nat_list_cmp_total (λ key. key.now) form.now };

    ghost turns = { λ form key. form_turns nat_list_cmp_total (λ key. key.now) form.now key };

    #[inline(always)]
    fn order(self, key: &&'b str) -> Ordering {
        compare_texts(self, *key)
    }
}

impl<A: Allocator> OrdKey<BoxedStr<A>> for &str {
    ghost Seen = { List ℕ };

    ghost seen = { λ form. form.now };

    ghost order = { λ text key. slice_cmp nat_cmp text (boxed_str_bytes key) };

    ghost turned = { λ key text. slice_cmp nat_cmp (boxed_str_bytes key) text };

    ghost searches = { λ form. form_search nat_list_cmp_total (λ key. boxed_str_bytes key) form.now };

    ghost turns = { λ form key. form_turns nat_list_cmp_total (λ key. boxed_str_bytes key) form.now key };

    #[inline(always)]
    fn order(self, key: &BoxedStr<A>) -> Ordering {
        compare_texts(self, key.as_str())
    }
}

impl<A: Allocator> OrdKey<RcStr<A>> for &str {
    ghost Seen = { List ℕ };

    ghost seen = { λ form. form.now };

    ghost order = { λ text key. slice_cmp nat_cmp text (rc_str_bytes key) };

    ghost turned = { λ key text. slice_cmp nat_cmp (rc_str_bytes key) text };

    ghost searches = { λ form. form_search nat_list_cmp_total (λ key. rc_str_bytes key) form.now };

    ghost turns = { λ form key. form_turns nat_list_cmp_total (λ key. rc_str_bytes key) form.now key };

    #[inline(always)]
    fn order(self, key: &RcStr<A>) -> Ordering {
        compare_texts(self, key.as_str())
    }
}

impl<'b, A: Allocator> OrdKey<CowStr<'b, A>> for &str {
    ghost Seen = { List ℕ };

    ghost seen = { λ form. form.now };

    ghost order = { λ text key. slice_cmp nat_cmp text (cow_str_bytes key) };

    ghost turned = { λ key text. slice_cmp nat_cmp (cow_str_bytes key) text };

    ghost searches = { λ form. form_search nat_list_cmp_total (λ key. cow_str_bytes key) form.now };

    ghost turns = { λ form key. form_turns nat_list_cmp_total (λ key. cow_str_bytes key) form.now key };

    #[inline(always)]
    fn order(self, key: &CowStr<'b, A>) -> Ordering {
        compare_texts(self, key.as_str())
    }
}

impl<T: Ord, A: Allocator> OrdKey<Vec<T, A>> for &[T] {
    ghost Seen = { List T };

    ghost seen = { λ form. form.now };

    ghost order = { λ items key. slice_cmp T.cmp items key.items };

    ghost turned = { λ key items. slice_cmp T.cmp key.items items };

    ghost searches = { λ form. form_search (lists_total T.total) (λ key. key.items) form.now };

    ghost turns = { λ form key. form_turns (lists_total T.total) (λ key. key.items) form.now key };

    #[inline(always)]
    fn order(self, key: &Vec<T, A>) -> Ordering {
        compare_slices(self, key.as_slice())
    }
}

impl<'b, T: Ord> OrdKey<&'b [T]> for &[T] {
    ghost Seen = { List T };

    ghost seen = { λ form. form.now };

    ghost order = { λ items key. slice_cmp T.cmp items key.now };

    ghost turned = { λ key items. slice_cmp T.cmp key.now items };

    ghost searches = { λ form. form_search (lists_total T.total) (λ key. key.now) form.now };

    ghost turns = { λ form key. form_turns (lists_total T.total) (λ key. key.now) form.now key };

    #[inline(always)]
    fn order(self, key: &&'b [T]) -> Ordering {
        compare_slices(self, *key)
    }
}

impl<T: Ord, A: Allocator> OrdKey<BoxedSlice<T, A>> for &[T] {
    ghost Seen = { List T };

    ghost seen = { λ form. form.now };

    ghost order = { λ items key. slice_cmp T.cmp items (boxed_slice_items key) };

    ghost turned = { λ key items. slice_cmp T.cmp (boxed_slice_items key) items };

    ghost searches = { λ form. form_search (lists_total T.total) (λ key. boxed_slice_items key) form.now };

    ghost turns = { λ form key. form_turns (lists_total T.total) (λ key. boxed_slice_items key) form.now key };

    #[inline(always)]
    fn order(self, key: &BoxedSlice<T, A>) -> Ordering {
        compare_slices(self, key.as_slice())
    }
}

impl<T: Ord, A: Allocator> OrdKey<RcSlice<T, A>> for &[T] {
    ghost Seen = { List T };

    ghost seen = { λ form. form.now };

    ghost order = { λ items key. slice_cmp T.cmp items (rc_slice_items key) };

    ghost turned = { λ key items. slice_cmp T.cmp (rc_slice_items key) items };

    ghost searches = { λ form. form_search (lists_total T.total) (λ key. rc_slice_items key) form.now };

    ghost turns = { λ form key. form_turns (lists_total T.total) (λ key. rc_slice_items key) form.now key };

    #[inline(always)]
    fn order(self, key: &RcSlice<T, A>) -> Ordering {
        compare_slices(self, key.as_slice())
    }
}
