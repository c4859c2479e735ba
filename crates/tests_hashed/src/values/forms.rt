//! Look-ups and removals by another form of a key.
use crate::values::hash_trie_map::scenarios::put;
use rpds_core::key::HashKey;
use rpds_faults::{FailingAllocator, requests};
use rpds_hash::map::hash_trie_map::{DefaultBuildHasher, HashTrieMap};
use rpds_hash::set::hash_trie_set::HashTrieSet;
use rpds_refusals::answer::write_number_if_lent;
use std::alloc::Global;
use std::borrow::CowStr;
use std::boxed::{BoxedSlice, BoxedStr};
use std::hash::Hash;
use std::process::Abort;
use std::rc::{RcSlice, RcStr};

type Words<'t> = HashTrieMap<String, usize, DefaultBuildHasher, &'t FailingAllocator>;

// None, two of one length, one that begins as another, and one that isn't ASCII.
const WORDS: [&str; 5] = ["", "ab", "ba", "abc", "äö"];

fn owned(rt: &impl Abort, alloc: Global, text: &str) -> String {
    String::from_str(alloc, text).expect(rt, "ample memory")
}

// Each word with its place.
fn words<'t>(rt: &impl Abort, alloc: Global, counting: &'t FailingAllocator) -> Words<'t> {
    let mut words = HashTrieMap::new(counting);
    for (place, word) in WORDS.iter().enumerate() {
        put(rt, &mut words, owned(rt, alloc, word), place);
    }
    words
}

fn are_equal<'t>(words: &Words<'t>, others: &Words<'t>) -> bool {
    words == others
}

// The word has its place, by either form of it.
fn assert_there<'t>(rt: &impl Abort, words: &Words<'t>, word: &str, key: &String, place: usize) {
    assert!(rt; words.get(word) == Some(&place) && words.get(key) == Some(&place));
    assert!(rt; words.get_key_value(word) == Some((key, &place)));
}

fn assert_absent<'t>(rt: &impl Abort, words: &Words<'t>, word: &str) {
    assert!(rt; words.get(word).is_none() && !words.contains_key(word));
}

fn assert_answers<'t>(rt: &impl Abort, alloc: Global, words: &Words<'t>) {
    for (place, word) in WORDS.iter().enumerate() {
        assert_there(rt, words, word, &owned(rt, alloc, word), place);
    }
    for word in ["a", "ac", "abcd", "ä"] {
        assert_absent(rt, words, word);
    }
    if words.contains_key("abc") {
        assert!(rt; words["abc"] == 3);
    }
}

#[test]
fn answers(rt: HostRuntime) {
    let counting = FailingAllocator::new(rt.alloc());
    assert_answers(&rt, rt.alloc(), &words(&rt, rt.alloc(), &counting));
}

// Takes the word out in place; whether it was there.
fn take_out<'t>(rt: &impl Abort, words: &mut Words<'t>, word: &str) -> bool {
    words.remove_mut(word).expect(rt, "ample memory")
}

fn assert_less<'t>(rt: &impl Abort, less: &Words<'t>) {
    assert!(rt; less.size() == 4 && !less.contains_key("ab") && less.get("ba") == Some(&2));
}

// The removal of a word that isn't there.
fn assert_same<'t>(rt: &impl Abort, words: &Words<'t>) {
    let same = words.remove("ac").expect(rt, "ample memory");
    assert!(rt; are_equal(&same, words));
    assert!(rt; words.contains_key("ab"));
}

// Each word goes once.
fn assert_taken_out<'t>(rt: &impl Abort, words: &mut Words<'t>) {
    for word in WORDS {
        assert!(rt; take_out(rt, words, word));
        assert!(rt; !take_out(rt, words, word));
    }
    assert!(rt; words.is_empty());
}

#[test]
fn removals(rt: HostRuntime) {
    let counting = FailingAllocator::new(rt.alloc());
    let mut words = words(&rt, rt.alloc(), &counting);
    let less = words.remove("ab").expect(&rt, "ample memory");
    assert_less(&rt, &less);
    assert_same(&rt, &words);
    assert_taken_out(&rt, &mut words);
    assert_less(&rt, &less);
}

fn assert_probed<'t>(rt: &impl Abort, words: &mut Words<'t>) {
    assert!(rt; words.get("abc") == Some(&3) && !words.contains_key("abd"));
    assert!(rt; take_out(rt, words, "abc"));
    assert!(rt; !take_out(rt, words, "abd"));
}

// A probe takes no memory, nor does a removal in place where nothing is shared.
#[test]
fn no_request(rt: HostRuntime) {
    let counting = FailingAllocator::new(rt.alloc());
    let mut words = words(&rt, rt.alloc(), &counting);
    requests(&counting);
    assert_probed(&rt, &mut words);
    assert!(rt; requests(&counting) == 0);
}

// Whether a map without the word could be made.
fn is_made<'t>(kept: &Words<'t>, word: &str) -> bool {
    kept.remove(word).is_ok()
}

// With this request refused, counted from the first of a removal in place on.
fn assert_refused<'t>(rt: &impl Abort, counting: &'t FailingAllocator, kept: &Words<'t>, nth: u64) {
    let mut words = kept.clone().expect(rt, "ample memory");
    counting.refuse(nth);
    let is_taken = words.remove_mut("ba").is_ok();
    let is_made = is_made(kept, "ba");
    counting.refuse(0);
    assert!(rt; is_taken || are_equal(&words, kept));
    assert!(rt; is_made || is_taken);
}

// Each request of a removal refused in turn, from a map that shares all of its nodes.
#[test]
fn refusals(rt: HostRuntime) {
    let counting = FailingAllocator::new(rt.alloc());
    let kept = words(&rt, rt.alloc(), &counting);
    for nth in 1..20 {
        assert_refused(&rt, &counting, &kept, nth);
        assert!(rt; kept.get("ba") == Some(&2));
    }
}

// The keys are texts that the map doesn't own: that a clone of a `String` is equal no clause of std's says.
type BorrowedWords<'b> = HashTrieMap<&'b str, u64>;

fn assert_written<'b>(rt: &impl Abort, words: &mut BorrowedWords<'b>) {
    assert!(rt; write_number_if_lent(words.value_mut("abc"), 8) == Ok(true));
    assert!(rt; words.value_mut("ac").is_err() && words.get("abc") == Some(&8));
    assert!(rt; words.get_mut("ac").expect(rt, "ample memory").is_none());
}

fn assert_taken<'b>(rt: &impl Abort, words: &mut BorrowedWords<'b>) {
    assert!(rt; words.take("ab").expect(rt, "ample memory") == Some(7) && words.size() == 4);
}

fn assert_before<'b>(rt: &impl Abort, before: &BorrowedWords<'b>) {
    assert!(rt; before.get("abc") == Some(&7) && before.size() == 5);
}

// A lent value is written in this map alone.
#[test]
fn a_value_is_written_by_a_str(rt: HostRuntime) {
    let mut words: BorrowedWords<'_> = HashTrieMap::new(rt.alloc());
    for word in WORDS {
        put(&rt, &mut words, word, 7);
    }
    let before = words.clone().expect(&rt, "ample memory");
    assert_written(&rt, &mut words);
    assert_taken(&rt, &mut words);
    assert_before(&rt, &before);
}

// A set of one member.
fn only<T: Eq + Hash + Drop>(rt: &impl Abort, alloc: Global, member: T) -> HashTrieSet<T> {
    let mut set = HashTrieSet::new(alloc);
    set.insert_mut(member).expect(rt, "ample memory");
    set
}

// A set of one member has it by this form, and not what the other form stands for.
fn assert_only<T: Eq + Hash + Drop, Q: HashKey<T>>(
    rt: &impl Abort,
    alloc: Global,
    member: T,
    there: Q,
    absent: Q,
) {
    let set = only(rt, alloc, member);
    assert!(rt; set.contains(there) && !set.contains(absent));
}

#[test]
fn texts(rt: HostRuntime) {
    let alloc = rt.alloc();
    assert_only(&rt, alloc, owned(&rt, alloc, "ab"), "ab", "ac");
    assert_only(&rt, alloc, "ab", "ab", "ac");
    assert_only(&rt, alloc, "ab", &"ab", &"ac");
    let shared = RcStr::from_str(alloc, "ab").expect(&rt, "ample memory");
    assert_only(&rt, alloc, shared, "ab", "ac");
    let boxed = BoxedStr::from_str(alloc, "ab").expect(&rt, "ample memory");
    assert_only(&rt, alloc, boxed, "ab", "ac");
}

#[test]
fn texts_of_either_kind(rt: HostRuntime) {
    let alloc = rt.alloc();
    let mut either: HashTrieSet<CowStr<'_, Global>> = only(&rt, alloc, CowStr::Borrowed("ab"));
    either
        .insert_mut(CowStr::Owned(owned(&rt, alloc, "ba")))
        .expect(&rt, "ample memory");
    assert!(rt; either.contains("ab") && either.contains("ba") && !either.contains("ac"));
}

#[test]
fn slices(rt: HostRuntime) {
    let alloc = rt.alloc();
    let (there, absent): (&[u8], &[u8]) = (&[1, 2], &[1, 3]);
    let vector = Vec::from_array(alloc, [1u8, 2]).expect(&rt, "ample memory");
    assert_only(&rt, alloc, vector, there, absent);
    assert_only(&rt, alloc, there, there, absent);
    let shared = RcSlice::from_slice(alloc, there).expect(&rt, "ample memory");
    assert_only(&rt, alloc, shared, there, absent);
    let boxed = BoxedSlice::from_slice(alloc, there).expect(&rt, "ample memory");
    assert_only(&rt, alloc, boxed, there, absent);
}
