//! Keys looked up by another form of them: texts by `&str`, lists of numbers by slices.
use crate::red_black_tree_map::scenarios::{copied, put};
use crate::red_black_tree_map::walks::steps;
use rpds_faults::{FailingAllocator, requests};
use rpds_tree::map::red_black_tree_map::RedBlackTreeMap;
use rpds_tree::set::red_black_tree_set::RedBlackTreeSet;
use std::alloc::{AllocError, Global};
use std::ops::Bound;
use std::ops::Bound::{Excluded, Included, Unbounded};
use std::process::Abort;

type TextMap<'f> = RedBlackTreeMap<String, u64, &'f FailingAllocator<Global>>;

// Texts that aren't in the order of their numbers: "10" comes before "9".
fn text_of(rt: &impl Abort, alloc: Global, number: u64) -> String {
    format!(in alloc; "{number}").expect(rt, "ample memory")
}

// The even numbers below 1,000 under their texts.
fn even_numbers<'f>(
    rt: &impl Abort,
    alloc: &'f FailingAllocator<Global>,
    texts: Global,
) -> TextMap<'f> {
    let mut map = RedBlackTreeMap::new(alloc);
    for half in 0u64..500 {
        let key = text_of(rt, texts, 2 * half);
        map.insert_mut(key, 2 * half).expect(rt, "ample memory");
    }
    map
}

// The text of the number is found by its `str` and by its reference, or by neither.
fn assert_found(rt: &impl Abort, map: &TextMap<'_>, text: &String, wanted: Option<u64>) {
    assert!(rt; map.get(text.as_str()).copied() == wanted);
    assert!(rt; map.get(text).copied() == wanted);
    assert!(rt; map.contains_key(text.as_str()) == wanted.is_some());
}

fn assert_even_numbers(rt: &impl Abort, map: &TextMap<'_>, texts: Global) {
    for number in 0u64..1_000 {
        let wanted = if number % 2 == 0 { Some(number) } else { None };
        assert_found(rt, map, &text_of(rt, texts, number), wanted);
    }
}

#[test]
fn a_text_is_found_by_its_str_and_by_its_reference(rt: HostRuntime) {
    let alloc = FailingAllocator::new(rt.alloc());
    let map = even_numbers(&rt, &alloc, rt.alloc());
    let _before = requests(&alloc);
    assert_even_numbers(&rt, &map, rt.alloc());
    for (text, wanted) in [("998", Some(998)), ("", None), ("99", None)] {
        assert!(rt; map.get(text).copied() == wanted);
    }
    assert!(rt; requests(&alloc) == 0);
}

// The text goes, and the version before keeps it.
fn assert_goes(rt: &impl Abort, map: &TextMap<'_>) {
    let less = map.remove("500").expect(rt, "ample memory");
    assert!(rt; less.size() == 499 && less.get("500").is_none());
    assert!(rt; map.get("500").copied() == Some(500));
}

// How many pairs are left without a text.
fn left(rt: &impl Abort, map: &TextMap<'_>, text: &str) -> usize {
    map.remove(text).expect(rt, "ample memory").size()
}

#[test]
fn a_text_goes_by_its_str_and_the_old_version_keeps_it(rt: HostRuntime) {
    let alloc = FailingAllocator::new(rt.alloc());
    let map = even_numbers(&rt, &alloc, rt.alloc());
    assert_goes(&rt, &map);
    let _before = requests(&alloc);
    assert!(rt; left(&rt, &map, "501") == 500 && requests(&alloc) == 0);
}

// Takes a text out in place by its `str`, and has one request refused.
fn refused_removal(
    alloc: &FailingAllocator<Global>,
    map: &mut TextMap<'_>,
    nth: u64,
) -> Result<bool, AllocError> {
    alloc.refuse(nth);
    let answer = map.remove_mut("500");
    alloc.refuse(u64::MAX);
    answer
}

// Refuses each request of the removal in turn, and tells how many it makes. Until it isn't refused, the map is as before.
fn removal_requests<'f>(
    rt: &impl Abort,
    alloc: &FailingAllocator<Global>,
    map: &mut TextMap<'f>,
    before: &TextMap<'f>,
) -> u64 {
    for nth in 1u64..64 {
        match refused_removal(alloc, map, nth) {
            Ok(there) => {
                assert!(rt; there);
                return nth - 1;
            }
            Err(_) => assert!(rt; *map == *before),
        }
    }
    panic!(rt; "the removal was refused 64 times");
}

// The text goes in place once no request is refused, and the version before keeps it.
fn assert_goes_in_place<'f>(
    rt: &impl Abort,
    alloc: &FailingAllocator<Global>,
    map: &mut TextMap<'f>,
    before: &TextMap<'f>,
) {
    assert!(rt; removal_requests(rt, alloc, map, before) > 0);
    assert!(rt; map.size() == 499 && map.get("500").is_none());
    assert!(rt; map.remove_mut("500") == Ok(false));
    assert!(rt; before.get("500").copied() == Some(500));
}

#[test]
fn under_a_shared_root_each_refusal_leaves_the_pairs(rt: HostRuntime) {
    let alloc = FailingAllocator::new(rt.alloc());
    let mut map = even_numbers(&rt, &alloc, rt.alloc());
    let before = copied(&rt, &map);
    assert_goes_in_place(&rt, &alloc, &mut map, &before);
}

// The root is the map's own once a pair was put in, and nodes below it are shared.
#[test]
fn in_place_each_refusal_leaves_the_pairs(rt: HostRuntime) {
    let alloc = FailingAllocator::new(rt.alloc());
    let mut map = even_numbers(&rt, &alloc, rt.alloc());
    let before = copied(&rt, &map);
    put(&rt, &mut map, text_of(&rt, rt.alloc(), 0), 0);
    assert_goes_in_place(&rt, &alloc, &mut map, &before);
}

// A request would be refused.
#[test]
fn a_text_goes_in_place_without_memory(rt: HostRuntime) {
    let alloc = FailingAllocator::new(rt.alloc());
    let mut map = even_numbers(&rt, &alloc, rt.alloc());
    assert!(rt; refused_removal(&alloc, &mut map, 1) == Ok(true));
    assert!(rt; refused_removal(&alloc, &mut map, 1) == Ok(false));
    assert!(rt; map.size() == 499 && map.get("500").is_none());
}

// Words in order, each with its place.
fn words<'f>(rt: &impl Abort, alloc: &'f FailingAllocator<Global>, texts: Global) -> TextMap<'f> {
    let mut map = RedBlackTreeMap::new(alloc);
    let mut place = 0u64;
    for word in ["ant", "bee", "cat", "cow", "dog"] {
        let key = format!(in texts; "{word}").expect(rt, "ample memory");
        map.insert_mut(key, place).expect(rt, "ample memory");
        place = place.wrapping_add(1);
    }
    map
}

// The place of a pair.
fn place_of(pair: Option<(&String, &u64)>) -> Option<u64> {
    match pair {
        Some((_, place)) => Some(*place),
        None => None,
    }
}

// A text, how many words are below it, and the places of its neighbors.
type Neighbors = (&'static str, usize, Option<u64>, Option<u64>);

const NEIGHBORS: &[Neighbors] = &[
    ("", 0, None, Some(0)),
    ("ant", 0, Some(0), Some(0)),
    ("b", 1, Some(0), Some(1)),
    ("cat", 2, Some(2), Some(2)),
    ("cod", 3, Some(2), Some(3)),
    ("dog", 4, Some(4), Some(4)),
    ("dogs", 5, Some(4), None),
    ("zebra", 5, Some(4), None),
];

fn assert_neighbors(rt: &impl Abort, map: &TextMap<'_>, row: &Neighbors) {
    let (text, rank, floor, ceiling) = *row;
    assert!(rt; map.rank(text) == rank);
    assert!(rt; place_of(map.floor(text)) == floor);
    assert!(rt; place_of(map.ceiling(text)) == ceiling);
}

#[test]
fn a_str_has_a_rank_and_neighbors(rt: HostRuntime) {
    let alloc = FailingAllocator::new(rt.alloc());
    let map = words(&rt, &alloc, rt.alloc());
    let _before = requests(&alloc);
    for row in NEIGHBORS {
        assert_neighbors(&rt, &map, row);
    }
    assert!(rt; requests(&alloc) == 0);
}

// Two bounds, and how many words are within them.
const RANGES: &[(Bound<&str>, Bound<&str>, usize)] = &[
    (Included("b"), Excluded("cow"), 2),
    (Included("cat"), Included("cow"), 2),
    (Excluded("cat"), Excluded("cow"), 0),
    (Included("d"), Included("b"), 0),
    (Unbounded, Excluded("cat"), 2),
    (Excluded("ant"), Unbounded, 4),
    (Unbounded, Unbounded, 5),
];

fn part_size(rt: &impl Abort, map: &TextMap<'_>, start: Bound<&str>, end: Bound<&str>) -> usize {
    map.subrange(start, end).expect(rt, "ample memory").size()
}

fn rest_size(rt: &impl Abort, map: &TextMap<'_>, start: Bound<&str>, end: Bound<&str>) -> usize {
    map.without_range(start, end)
        .expect(rt, "ample memory")
        .size()
}

// How many words each of four calls finds within the bounds.
fn sizes(rt: &impl Abort, map: &TextMap<'_>, start: Bound<&str>, end: Bound<&str>) -> [usize; 4] {
    [
        map.range_len(start, end),
        map.range_between(start, end).count(),
        part_size(rt, map, start, end),
        map.size().wrapping_sub(rest_size(rt, map, start, end)),
    ]
}

#[test]
fn strs_bound_a_range(rt: HostRuntime) {
    let alloc = FailingAllocator::new(rt.alloc());
    let map = words(&rt, &alloc, rt.alloc());
    for (start, end, size) in RANGES {
        assert!(rt; sizes(&rt, &map, *start, *end) == [*size; 4]);
    }
    assert!(rt; map.size() == 5);
}

// How many words are within some of std's ranges: of a map, and of a set.
#[test]
fn strs_end_a_range_of_std(rt: HostRuntime) {
    let map = words_of_three(&rt, rt.alloc());
    assert!(rt; steps(map.range_of_forms("b".."dog")) == 1);
    assert!(rt; steps(map.range_of_forms("b"..="dog")) == 2);
    let alloc = FailingAllocator::new(rt.alloc());
    let map = words(&rt, &alloc, rt.alloc());
    assert!(rt; steps(map.range_of_forms("b".."cow")) == 2);
    assert!(rt; steps(map.range_of_forms(..="cow")) == 4);
    assert!(rt; map.range_of_forms("d".."b").next().is_none());
}

#[test]
fn strs_end_a_range_of_a_set(rt: HostRuntime) {
    let mut set = RedBlackTreeSet::new(rt.alloc());
    for number in 8u64..12 {
        set.insert_mut(text_of(&rt, rt.alloc(), number))
            .expect(&rt, "ample memory");
    }
    assert!(rt; steps(set.range_of_forms("10".."9")) == 3);
    assert!(rt; steps(set.range_of_forms("11"..)) == 3);
}

// The sizes of what lies below a text and above it, and the place of what lies at it.
fn parts_at(rt: &impl Abort, map: &TextMap<'_>, text: &str) -> (usize, Option<u64>, usize) {
    let split = map.split(text).expect(rt, "ample memory");
    (split.below.size(), place_of(split.at), split.above.size())
}

const CUTS: [(&str, (usize, Option<u64>, usize)); 4] = [
    ("cat", (2, Some(2), 2)),
    ("cod", (3, None, 2)),
    ("", (0, None, 5)),
    ("dogs", (5, None, 0)),
];

#[test]
fn a_map_is_cut_at_a_str(rt: HostRuntime) {
    let alloc = FailingAllocator::new(rt.alloc());
    let map = words(&rt, &alloc, rt.alloc());
    for (text, parts) in CUTS {
        assert!(rt; parts_at(&rt, &map, text) == parts);
    }
}

// The keys are texts that the map doesn't own: that a clone of a `String` is equal no clause of std's says.
type StrMap = RedBlackTreeMap<&'static str, u64>;

fn write(rt: &impl Abort, map: &mut StrMap, word: &str, value: u64) {
    match map.value_mut(word) {
        Ok(place) => *place = value,
        Err(_) => panic!(rt; "the word is there"),
    }
}

// Whether each of two calls lends a value.
fn lends(rt: &impl Abort, map: &mut StrMap, word: &str) -> [bool; 2] {
    [
        map.value_mut(word).is_ok(),
        map.get_mut(word).expect(rt, "ample memory").is_some(),
    ]
}

fn words_of_three(rt: &impl Abort, alloc: Global) -> StrMap {
    let mut map = RedBlackTreeMap::new(alloc);
    for word in ["cow", "ant", "dog"] {
        put(rt, &mut map, word, 3);
    }
    map
}

#[test]
fn a_value_is_written_by_a_str(rt: HostRuntime) {
    let mut map = words_of_three(&rt, rt.alloc());
    let before = copied(&rt, &map);
    write(&rt, &mut map, "cow", 33);
    assert!(rt; lends(&rt, &mut map, "crow") == [false; 2] && map.size() == 3);
    assert!(rt; lends(&rt, &mut map, "dog") == [true; 2]);
    assert!(rt; map.get("cow").copied() == Some(33) && before.get("cow").copied() == Some(3));
    assert!(rt; map.take("ant") == Ok(Some(3)) && map.size() == 2);
}

fn text_set(rt: &impl Abort, alloc: Global) -> RedBlackTreeSet<String> {
    let mut set = RedBlackTreeSet::new(alloc);
    for word in ["ant", "bee", "cat"] {
        let member = format!(in alloc; "{word}").expect(rt, "ample memory");
        set.insert_mut(member).expect(rt, "ample memory");
    }
    set
}

// The ranks of three texts, and the sizes of a range by its length and as a part.
fn assert_places(rt: &impl Abort, set: &RedBlackTreeSet<String>) {
    assert!(rt; set.rank("b") == 1 && set.rank("cat") == 2 && set.rank("d") == 3);
    assert!(rt; set.floor("b") == set.get("ant") && set.ceiling("b") == set.get("bee"));
    assert!(rt; set.floor("a").is_none() && set.ceiling("d").is_none());
    assert!(rt; set.range_len(Excluded("ant"), Included("cat")) == 2);
}

fn assert_parts(rt: &impl Abort, set: &RedBlackTreeSet<String>) {
    let split = set.split("bee").expect(rt, "ample memory");
    assert!(rt; split.below.size() == 1 && split.at.is_some() && split.above.contains("cat"));
    let part = set
        .subrange(Unbounded, Excluded("cat"))
        .expect(rt, "ample memory");
    assert!(rt; part.size() == 2);
}

#[test]
fn a_str_finds_its_place_in_a_set(rt: HostRuntime) {
    let set = text_set(&rt, rt.alloc());
    assert_places(&rt, &set);
    assert_parts(&rt, &set);
}

// The pairs of a number and its rest by 7.
fn rests(rt: &impl Abort, alloc: Global) -> RedBlackTreeSet<Vec<u64>> {
    let mut set = RedBlackTreeSet::new(alloc);
    for last in 0u64..100 {
        let items = vec![in alloc; last % 7, last].expect(rt, "ample memory");
        set.insert_mut(items).expect(rt, "ample memory");
    }
    set
}

#[test]
fn a_slice_finds_a_vec_in_a_set(rt: HostRuntime) {
    let mut set = rests(&rt, rt.alloc());
    let (there, absent) = ([3u64, 73], [3u64, 74]);
    assert!(rt; set.contains(&there[..]) && !set.contains(&absent[..]));
    assert!(rt; !set.contains(&there[..1]));
    assert!(rt; set.remove_mut(&there[..]) == Ok(true));
    assert!(rt; set.size() == 99 && !set.contains(&there[..]));
}
