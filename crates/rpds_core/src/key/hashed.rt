//! What hashed maps and sets look their keys up by.
ghost use Rattle.std.specs.Prelude.{◌≡◌, Bool, List, ℕ, string_bytes, bytes_eq};
ghost use Rattle.std.specs.Cmp.Lexicographic.{pointwise, lists_equiv, nat_list_eq_equiv};
ghost use Rattle.std.specs.Hash.{items_Alike};
ghost use Rattle.std.specs.Box.{boxed_slice_items, boxed_str_bytes};
ghost use Rattle.std.specs.Cow.{cow_str_bytes};
ghost use Rattle.std.specs.Rc.{rc_slice_items, rc_str_bytes};
ghost use Rattle.rpds_core.specs.Keys.{IsTest, form_test, texts_alike};

use std::alloc::Allocator;
use std::borrow::CowStr;
use std::boxed::{BoxedSlice, BoxedStr};
use std::hash::Hash;
use std::rc::{RcSlice, RcStr};

/// What hashed maps and sets look their keys up by: a reference to a key, or another form of it, which is hashed as the key.
///
/// A `&str` looks for a `String`, a `BoxedStr`, an `RcStr`, a `CowStr` or a `&str`, and a `&[T]` for a `Vec<T>`, a
/// `BoxedSlice<T>`, an `RcSlice<T>` or a `&[T]`. Where your own key has another form, write an `impl` for it: its law is refused
/// where the form is hashed otherwise, or tells keys apart otherwise.
pub trait HashKey<K: Eq + Hash>: Copy + Hash {
    /// What a form is seen as, for proofs.
    ghost Seen: { Type 0 };

    /// What this one is seen as.
    ghost seen: { Self → Seen };

    /// Whether a key is the same as what a form is seen as.
    ghost same: { K → Seen → Bool };

    /// Whether this is a form of the key.
    fn is_form_of(self, key: &K) -> bool
        ensures { result ≡ same key.now (seen self) };

    /// It is a form of the keys that are equal to one, or of none, and is hashed as that one.
    ghost tests: { (q : Self) → IsTest K.eq K.hash_input same (seen q) (Self.hash_input q) };
}

impl<K: Eq + Hash> HashKey<K> for &K {
    ghost Seen = { K };

    ghost seen = { λ q. q.now };

    ghost same = { K.eq };

    ghost tests = { λ q. form_test K.Eq.laws K.respects_eq (λ k. k) q.now };

    #[inline(always)]
    fn is_form_of(self, key: &K) -> bool {
        *key == *self
    }
}

// Both at one lifetime: other calls of `==` at references get no proof.
fn equal_texts<'x>(text: &'x str, other: &'x str) -> bool
    ensures { result ≡ bytes_eq text.now other.now }
{
    text == other
}

fn equal_slices<'x, T: Eq>(items: &'x [T], others: &'x [T]) -> bool
    ensures { result ≡ pointwise T.eq items.now others.now }
{
    items == others
}

impl<A: Allocator> HashKey<String<A>> for &str {
    ghost Seen = { List ℕ };

    ghost seen = { λ q. q.now };

    ghost same = { λ k text. bytes_eq (string_bytes k) text };

    ghost tests = { λ q. form_test nat_list_eq_equiv texts_alike (λ k. string_bytes k) q.now };

    fn is_form_of(self, key: &String<A>) -> bool {
        equal_texts(key.as_str(), self)
    }
}

impl<'b> HashKey<&'b str> for &str {
    ghost Seen = { List ℕ };

    ghost seen = { λ q. q.now };

    ghost same = { λ k text. bytes_eq k.now text };

    ghost tests = { λ q. form_test nat_list_eq_equiv texts_alike (λ k. k.now) q.now };

    fn is_form_of(self, key: &&'b str) -> bool {
        equal_texts(*key, self)
    }
}

impl<A: Allocator> HashKey<RcStr<A>> for &str {
    ghost Seen = { List ℕ };

    ghost seen = { λ q. q.now };

    ghost same = { λ k text. bytes_eq (rc_str_bytes k) text };

    ghost tests = { λ q. form_test nat_list_eq_equiv texts_alike (λ k. rc_str_bytes k) q.now };

    fn is_form_of(self, key: &RcStr<A>) -> bool {
        equal_texts(key.as_str(), self)
    }
}

impl<A: Allocator> HashKey<BoxedStr<A>> for &str {
    ghost Seen = { List ℕ };

    ghost seen = { λ q. q.now };

    ghost same = { λ k text. bytes_eq (boxed_str_bytes k) text };

    ghost tests = { λ q. form_test nat_list_eq_equiv texts_alike (λ k. boxed_str_bytes k) q.now };

    fn is_form_of(self, key: &BoxedStr<A>) -> bool {
        equal_texts(key.as_str(), self)
    }
}

impl<'b, A: Allocator> HashKey<CowStr<'b, A>> for &str {
    ghost Seen = { List ℕ };

    ghost seen = { λ q. q.now };

    ghost same = { λ k text. bytes_eq (cow_str_bytes k) text };

    ghost tests = { λ q. form_test nat_list_eq_equiv texts_alike (λ k. cow_str_bytes k) q.now };

    fn is_form_of(self, key: &CowStr<'b, A>) -> bool {
        equal_texts(key.as_str(), self)
    }
}

impl<T: Eq + Hash, A: Allocator> HashKey<Vec<T, A>> for &[T] {
    ghost Seen = { List T };

    ghost seen = { λ q. q.now };

    ghost same = { λ k xs. pointwise T.eq k.items xs };

    ghost tests = { λ q. form_test (lists_equiv T.Eq.laws) (items_Alike (record { fed = T.respects_eq })).fed (λ k. k.items) q.now };

    fn is_form_of(self, key: &Vec<T, A>) -> bool {
        equal_slices(key.as_slice(), self)
    }
}

impl<'b, T: Eq + Hash> HashKey<&'b [T]> for &[T] {
    ghost Seen = { List T };

    ghost seen = { λ q. q.now };

    ghost same = { λ k xs. pointwise T.eq k.now xs };

    ghost tests = { λ q. form_test (lists_equiv T.Eq.laws) (items_Alike (record { fed = T.respects_eq })).fed (λ k. k.now) q.now };

    fn is_form_of(self, key: &&'b [T]) -> bool {
        equal_slices(*key, self)
    }
}

impl<T: Eq + Hash, A: Allocator> HashKey<RcSlice<T, A>> for &[T] {
    ghost Seen = { List T };

    ghost seen = { λ q. q.now };

    ghost same = { λ k xs. pointwise T.eq (rc_slice_items k) xs };

    ghost tests = { λ q. form_test (lists_equiv T.Eq.laws) (items_Alike (record { fed = T.respects_eq })).fed (λ k. rc_slice_items k) q.now };

    fn is_form_of(self, key: &RcSlice<T, A>) -> bool {
        equal_slices(key.as_slice(), self)
    }
}

impl<T: Eq + Hash, A: Allocator> HashKey<BoxedSlice<T, A>> for &[T] {
    ghost Seen = { List T };

    ghost seen = { λ q. q.now };

    ghost same = { λ k xs. pointwise T.eq (boxed_slice_items k) xs };

    ghost tests = { λ q. form_test (lists_equiv T.Eq.laws) (items_Alike (record { fed = T.respects_eq })).fed (λ k. boxed_slice_items k) q.now };

    fn is_form_of(self, key: &BoxedSlice<T, A>) -> bool {
        equal_slices(key.as_slice(), self)
    }
}
