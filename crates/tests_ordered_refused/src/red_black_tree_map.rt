use crate::Tests;
use crate::red_black_tree_map::MapChanged::{
    AlterPresenceMut, AlterValueMut, Clear, CopyFromMut, CopyFromMutCounted, GetMut, GetMutCounted,
    GetOrInsertWith, InsertMut, InsertMutCounted, PopFirstMut, PopFirstMutCounted, PopLastMut,
    PopLastMutCounted, RemoveMut, RemoveMutCounted, ValueMut, ValueMutCounted,
};
use crate::red_black_tree_map::MapMade::{
    AlterPresence, AlterValue, Append, AppendCounted, Cloned, CopyFrom, FromArray, FromIter,
    FromSorted, FromSortedCounted, Insert, InsertCounted, PopFirst, PopFirstCounted, PopLast,
    PopLastCounted, Remove, RemoveCounted, Share, ShareCounted, Split, SplitCounted, Subrange,
    SubrangeCounted, Union, UnionCounted, WithoutRange, WithoutRangeCounted,
};
use rpds_core::steps::Steps;
use rpds_faults::{FailingAllocator, FailingItem, Faults, LifeCounts};
use rpds_refusals::answer::{
    always_some, always_true, has_number, is_below, put_if_some, write_number, write_number_if_lent,
};
use rpds_refusals::call::Call;
use rpds_refusals::call::Call::{Changed, Made};
use rpds_refusals::check::check_container;
use rpds_refusals::container::Container;
use rpds_refusals::item::pair;
use rpds_refusals::limits::check_large;
use rpds_refusals::looks::Looks;
use rpds_refusals::plan::Sharing::{Alike, Alone, Shared};
use rpds_refusals::plan::{LargeContainer, MemoryRow, NOTHING, NoMemoryRow, Plan, Receiver};
use rpds_refusals::refused::check_some_refused;
use rpds_refusals::subject::Subject;
use rpds_refusals::{memory, no_memory, receiver, receivers};
use rpds_tree::map::red_black_tree_map::RedBlackTreeMap;
use rpds_tree::sorted::SortedError;
use std::alloc::{AllocError, Global};
use std::ops::Bound::{Excluded, Included, Unbounded};
use std::process::Abort;

pub(crate) type FailingMap<'t> = RedBlackTreeMap<
    FailingItem<'t>,
    FailingItem<'t>,
    &'t FailingAllocator,
>;

pub(crate) type MapCall = Call<MapMade, MapChanged>;

// A call that hands out a map.
#[derive(Clone, Copy, Debug)]
pub(crate) enum MapMade {
    Insert,
    InsertCounted,
    Remove,
    RemoveCounted,
    // Another value at a key that is there.
    AlterValue,
    // Without a key that is there, or with one that isn't.
    AlterPresence,
    CopyFrom,
    PopFirst,
    PopFirstCounted,
    PopLast,
    PopLastCounted,
    // What is above the key.
    Split,
    SplitCounted,
    Subrange,
    SubrangeCounted,
    WithoutRange,
    WithoutRangeCounted,
    Union,
    UnionCounted,
    Append,
    AppendCounted,
    FromIter,
    FromArray,
    FromSorted,
    FromSortedCounted,
    Share,
    ShareCounted,
    // By the trait `Clone`.
    Cloned,
}

// A call that changes the map.
#[derive(Clone, Copy, Debug)]
pub(crate) enum MapChanged {
    InsertMut,
    InsertMutCounted,
    RemoveMut,
    RemoveMutCounted,
    AlterValueMut,
    AlterPresenceMut,
    CopyFromMut,
    CopyFromMutCounted,
    PopFirstMut,
    PopFirstMutCounted,
    PopLastMut,
    PopLastMutCounted,
    // A write through what the call lends.
    GetMut,
    GetMutCounted,
    ValueMut,
    ValueMutCounted,
    GetOrInsertWith,
    Clear,
}

// A map of pairs, one key of which may come twice.
fn collected<'t>(number: u64, faults: &'t Faults) -> Result<FailingMap<'t>, AllocError> {
    let counts = &faults.counts;
    let pairs = [pair(2, counts), pair(number, counts), pair(3, counts)];
    RedBlackTreeMap::from_iter(&faults.alloc, pairs)
}

// The same of an array.
fn of_array<'t>(number: u64, faults: &'t Faults) -> Result<FailingMap<'t>, AllocError> {
    let counts = &faults.counts;
    let pairs = [pair(2, counts), pair(number, counts), pair(3, counts)];
    RedBlackTreeMap::from_array(&faults.alloc, pairs)
}

// Pairs, which rise where the number is above 2.
fn rising<'t>(
    number: u64,
    faults: &'t Faults,
) -> Result<Vec<(FailingItem<'t>, FailingItem<'t>), &'t FailingAllocator>, AllocError> {
    let counts = &faults.counts;
    Ok(vec![in &faults.alloc; pair(1, counts), pair(2, counts), pair(number, counts)]?)
}

// A map whose keys are above those of the shapes.
fn behind<'t>(faults: &'t Faults) -> Result<FailingMap<'t>, AllocError> {
    let counts = &faults.counts;
    let pairs = [pair(60, counts), pair(61, counts), pair(62, counts)];
    RedBlackTreeMap::from_iter(&faults.alloc, pairs)
}

// The map, where its keys rose.
fn risen<'t>(
    made: Result<FailingMap<'t>, SortedError>,
) -> Result<Option<FailingMap<'t>>, AllocError> {
    match made {
        Ok(map) => Ok(Some(map)),
        Err(SortedError::NotAscending(_)) => Ok(None),
        Err(SortedError::NoMemory) => Err(AllocError),
    }
}

// The map without a pair at an end, where there was one.
fn rest_of<'t, P: Drop>(
    popped: Result<Option<(P, FailingMap<'t>)>, AllocError>,
) -> Result<Option<FailingMap<'t>>, AllocError> {
    match popped? {
        None => Ok(None),
        Some((_, rest)) => Ok(Some(rest)),
    }
}

// A clone of the value of a key that is there; where it isn't, nothing.
fn kept<'t>(old: Option<&FailingItem<'t>>) -> Result<Option<FailingItem<'t>>, AllocError> {
    match old {
        Some(value) => always_some(value.clone()),
        None => Ok(None),
    }
}

// Nothing for a key that is there; where it isn't, a value.
fn turned<'t>(old: Option<&FailingItem<'t>>, counts: &'t LifeCounts) -> Option<FailingItem<'t>> {
    match old {
        Some(_) => None,
        None => Some(FailingItem::new(99, counts)),
    }
}

// Another value at a key that is there.
fn altered<'t>(
    map: &FailingMap<'t>,
    number: u64,
    counts: &'t LifeCounts,
) -> Result<FailingMap<'t>, AllocError> {
    map.alter(FailingItem::new(number, counts), |old| kept(old))
}

// Without a key that is there, or with one that isn't.
fn turned_over<'t>(
    map: &FailingMap<'t>,
    number: u64,
    counts: &'t LifeCounts,
) -> Result<FailingMap<'t>, AllocError> {
    map.alter(
        FailingItem::new(number, counts),
        |old| Ok(turned(old, counts)),
    )
}

fn made<'t>(
    map: &FailingMap<'t>,
    call: MapMade,
    number: u64,
    faults: &'t Faults,
) -> Result<Option<FailingMap<'t>>, AllocError> {
    let counts = &faults.counts;
    let (key, value) = (
        FailingItem::new(number, counts),
        FailingItem::new(99, counts),
    );
    let steps = &mut Steps::new();
    match call {
        Insert => always_some(map.insert(key, value)),
        InsertCounted => always_some(map.insert_counted(key, value, steps)),
        Remove => always_some(map.remove(&key)),
        RemoveCounted => always_some(map.remove_counted(&key, steps)),
        AlterValue => always_some(altered(map, number, counts)),
        AlterPresence => always_some(turned_over(map, number, counts)),
        CopyFrom => always_some(map.copy_from(&collected(number, faults)?, &key)),
        PopFirst => rest_of(map.pop_first()),
        PopFirstCounted => rest_of(map.pop_first_counted(steps)),
        PopLast => rest_of(map.pop_last()),
        PopLastCounted => rest_of(map.pop_last_counted(steps)),
        Split => Ok(Some(map.split(&key)?.above)),
        SplitCounted => Ok(Some(map.split_counted(&key, steps)?.above)),
        Subrange => always_some(map.subrange(Excluded(&key), Unbounded)),
        SubrangeCounted => always_some(map.subrange_counted(Excluded(&key), Unbounded, steps)),
        WithoutRange => always_some(map.without_range(Included(&key), Unbounded)),
        WithoutRangeCounted => {
            always_some(map.without_range_counted(Included(&key), Unbounded, steps))
        }
        Union => always_some(map.union(&collected(number, faults)?)),
        UnionCounted => always_some(map.union_counted(&collected(number, faults)?, steps)),
        Append => risen(map.append(&behind(faults)?)),
        AppendCounted => risen(map.append_counted(&behind(faults)?, steps)),
        FromIter => always_some(collected(number, faults)),
        FromArray => always_some(of_array(number, faults)),
        FromSorted => risen(RedBlackTreeMap::from_sorted(&faults.alloc, rising(number, faults)?)),
        FromSortedCounted => {
            let pairs = rising(number, faults)?;
            risen(RedBlackTreeMap::from_sorted_counted(&faults.alloc, pairs, steps))
        }
        Share => always_some(map.clone()),
        ShareCounted => always_some(map.clone_counted(steps)),
        Cloned => always_some(Clone::clone(map)),
    }
}

fn lent<'t>(map: &mut FailingMap<'t>, key: &FailingItem<'t>) -> Result<bool, AllocError> {
    Ok(write_number(map.get_mut(key)?, 99))
}

fn lent_counted<'t>(map: &mut FailingMap<'t>, key: &FailingItem<'t>) -> Result<bool, AllocError> {
    Ok(write_number(map.get_mut_counted(key, &mut Steps::new())?, 99))
}

// Alters the value of a key that is there.
fn alter<'t>(
    map: &mut FailingMap<'t>,
    number: u64,
    counts: &'t LifeCounts,
) -> Result<bool, AllocError> {
    always_true(map.alter_mut(FailingItem::new(number, counts), |old| kept(old)))
}

// Takes a key out that is there, or puts it in.
fn turn_over<'t>(
    map: &mut FailingMap<'t>,
    number: u64,
    counts: &'t LifeCounts,
) -> Result<bool, AllocError> {
    always_true(map.alter_mut(
        FailingItem::new(number, counts),
        |old| Ok(turned(old, counts)),
    ))
}

// Writes to the value of a key that is there, or is put in first.
fn filled<'t>(
    map: &mut FailingMap<'t>,
    number: u64,
    counts: &'t LifeCounts,
) -> Result<bool, AllocError> {
    let key = FailingItem::new(number, counts);
    let value = map.get_or_insert_with(key, || Ok(FailingItem::new(99, counts)))?;
    Ok(write_number(Some(value), 99))
}

fn changed<'t>(
    map: &mut FailingMap<'t>,
    call: MapChanged,
    number: u64,
    faults: &'t Faults,
) -> Result<bool, AllocError> {
    let counts = &faults.counts;
    let steps = &mut Steps::new();
    match call {
        InsertMut => {
            let value = FailingItem::new(map.size() as u64, counts);
            always_true(map.insert_mut(FailingItem::new(number, counts), value))
        }
        InsertMutCounted => {
            let value = FailingItem::new(99, counts);
            always_true(map.insert_mut_counted(FailingItem::new(number, counts), value, steps))
        }
        RemoveMut => map.remove_mut(&FailingItem::new(number, counts)),
        RemoveMutCounted => map.remove_mut_counted(&FailingItem::new(number, counts), steps),
        AlterValueMut => alter(map, number, counts),
        AlterPresenceMut => turn_over(map, number, counts),
        CopyFromMut => {
            let others = collected(number, faults)?;
            always_true(map.copy_from_mut(&others, &FailingItem::new(number, counts)))
        }
        CopyFromMutCounted => {
            let others = collected(number, faults)?;
            let key = &FailingItem::new(number, counts);
            always_true(map.copy_from_mut_counted(&others, key, steps))
        }
        PopFirstMut => Ok(map.pop_first_mut()?.is_some()),
        PopFirstMutCounted => Ok(map.pop_first_mut_counted(steps)?.is_some()),
        PopLastMut => Ok(map.pop_last_mut()?.is_some()),
        PopLastMutCounted => Ok(map.pop_last_mut_counted(steps)?.is_some()),
        GetMut => lent(map, &FailingItem::new(number, counts)),
        GetMutCounted => lent_counted(map, &FailingItem::new(number, counts)),
        ValueMut => write_number_if_lent(map.value_mut(&FailingItem::new(number, counts)), 99),
        ValueMutCounted => write_number_if_lent(
            map.value_mut_counted(&FailingItem::new(number, counts), steps),
            99,
        ),
        GetOrInsertWith => filled(map, number, counts),
        Clear => {
            map.clear();
            Ok(map.is_empty())
        }
    }
}

// The key 2 is there with the value 1, and 9 isn't there.
fn gets<'t>(map: &FailingMap<'t>, looks: &mut Looks<'_, 't>) {
    let there = &FailingItem::new(2, &looks.faults.counts);
    let absent = &FailingItem::new(9, &looks.faults.counts);
    let steps = &mut Steps::new();
    looks.see(
        "get",
        has_number(map.get(there), 1) && map.get(absent).is_none(),
    );
    looks.see("get_key_value", map.get_key_value(there).is_some());
    looks.see("get_counted", map.get_counted(there, steps).is_some());
    looks.see(
        "get_counted of no key",
        map.get_counted(absent, steps).is_none(),
    );
    looks.see(
        "contains_key",
        map.contains_key(there) && !map.contains_key(absent),
    );
    looks.see("index", map.contains_key(there) && map[there].number == 1);
}

// From the number 2 on. A range is dropped after a step, and another one is gone over from both ends.
fn ranges<'t>(map: &FailingMap<'t>, looks: &mut Looks<'_, 't>) {
    let bound = &FailingItem::new(2, &looks.faults.counts);
    let is_barred = map.range_fits(Excluded(bound), Excluded(bound));
    let is_fit = map.range_fits(Included(bound), Unbounded);
    looks.see("range_fits", is_fit && !is_barred);
    if is_fit {
        looks.see(
            "range",
            map.range(Included(bound), Unbounded).next().is_some(),
        );
        let mut range = map.range(Included(bound), Unbounded);
        looks.see("range from its end", range.next_back().is_some());
        looks.see(
            "range to its end",
            range.next().is_some() && range.next().is_none(),
        );
    }
}

// Each iterator is dropped after a step, and can be had again.
fn walks<'t>(map: &FailingMap<'t>, looks: &mut Looks<'_, 't>) {
    looks.see(
        "iter",
        map.iter().next().is_some() && map.iter().count() == 3,
    );
    looks.see("rev", map.iter().rev().count() == 3);
    looks.see(
        "into_iter",
        map.into_iter().next().is_some() && map.into_iter().count() == 3,
    );
    looks.see("size_hint", map.iter().size_hint() == (3, Some(3)));
    looks.see("keys", map.keys().count() == 3);
    looks.see("values", map.values().count() == 3);
}

// Whether both have the same pairs, and look-ups in both take the same steps.
pub(crate) fn are_same<'t>(
    map: &FailingMap<'t>,
    twin: &FailingMap<'t>,
    faults: &'t Faults,
) -> bool {
    faults.counts.compared();
    for key in map.keys() {
        map.get(key);
        let compared = faults.counts.compared();
        twin.get(key);
        if faults.counts.compared() != compared {
            return false;
        }
    }
    *map == *twin
}

// How many keys and values it has.
pub(crate) fn held<'t>(map: &FailingMap<'t>) -> u64 {
    (map.size() as u64).wrapping_mul(2)
}

impl<'t> Subject<'t, Tests, MapCall> for FailingMap<'t> {
    fn start(_variant: u8, faults: &'t Faults) -> Result<Self, AllocError> {
        Ok(RedBlackTreeMap::new(&faults.alloc))
    }

    fn share(&mut self, _faults: &'t Faults) -> Result<Option<Self>, AllocError> {
        always_some(self.clone())
    }

    fn is_as(&self, twin: &Self, faults: &'t Faults) -> bool {
        are_same(self, twin, faults)
    }

    fn held(&self) -> Option<u64> {
        Some(held(self))
    }

    fn perform(
        &mut self,
        call: MapCall,
        number: u64,
        faults: &'t Faults,
    ) -> Result<bool, AllocError> {
        match call {
            Made(call) => {
                let made = made(self, call, number, faults);
                put_if_some(self, made)
            }
            Changed(call) => changed(self, call, number, faults),
        }
    }
}

impl<'t> Container<'t, Tests, MapCall> for FailingMap<'t> {
    fn looks(&self, other: &Self, empty: &Self, looks: &mut Looks<'_, 't>) {
        looks.see("size", self.size() == 3 && self.len() == 3);
        looks.see("is_empty", !self.is_empty() && empty.is_empty());
        looks.see("first", self.first().is_some() && empty.first().is_none());
        looks.see("last", self.last().is_some() && empty.last().is_none());
        gets(self, looks);
        looks.see("compared", is_below(self, other));
        ranges(self, looks);
        walks(self, looks);
    }
}

// Of no keys, one, 12 and 33. The 12 lack one of the numbers, so that an absent key is looked for on either side of the root.
pub(crate) const RECEIVERS: &[Receiver<'static>] = receivers![
    &[],
    &[0],
    &[0, 2, 3, 4, 5, 6, 7, 8, 9, 10, 11, 12],
    &[
        0, 1, 2, 3, 4, 5, 6, 7, 8, 9, 10, 11, 12, 13, 14, 15, 16, 17, 18, 19, 20, 21, 22, 23, 24,
        25, 26, 27, 28, 29, 30, 31, 32
    ]
];

// Keys, the last one nowhere.
pub(crate) const NUMBERS: &[u64] = &[1, 11, 24, 100];

const PLAN: Plan<'static, MapCall> = Plan {
    put: Changed(InsertMut),
    receivers: RECEIVERS,
    numbers: NUMBERS,
    calls: &[],
    never_refused: NEVER_REFUSED,
    empty_without_memory: &[0],
    without_memory: WITHOUT_MEMORY,
    limits: &[(RISING, ROWS)],
};

// The calls that ask for memory or for a clone. Each list has a test of its own.
const INSERTIONS: &[MapCall] = &[
    Made(Insert),
    Made(InsertCounted),
    Changed(InsertMut),
    Changed(InsertMutCounted),
    Changed(GetOrInsertWith),
];

const REMOVALS: &[MapCall] = &[
    Made(Remove),
    Made(RemoveCounted),
    Changed(RemoveMut),
    Changed(RemoveMutCounted),
];

const ALTERATIONS: &[MapCall] = &[
    Made(AlterValue),
    Made(AlterPresence),
    Changed(AlterValueMut),
    Changed(AlterPresenceMut),
];

const COPIES: &[MapCall] = &[Made(CopyFrom)];

const COPIES_IN_PLACE: &[MapCall] = &[Changed(CopyFromMut), Changed(CopyFromMutCounted)];

const CUTS: &[MapCall] = &[Made(Split), Made(SplitCounted)];

const SUBRANGES: &[MapCall] = &[
    Made(Subrange),
    Made(SubrangeCounted),
    Made(WithoutRange),
    Made(WithoutRangeCounted),
];

const UNIONS: &[MapCall] = &[Made(Union), Made(UnionCounted)];

const APPENDS: &[MapCall] = &[Made(Append), Made(AppendCounted)];

const BUILDS: &[MapCall] = &[
    Made(FromIter),
    Made(FromArray),
    Made(FromSorted),
    Made(FromSortedCounted),
];

const NEVER_REFUSED: &[MapCall] = &[
    Made(Share),
    Made(Cloned),
    Made(ShareCounted),
    Changed(Clear),
];

// There is no such key, and no memory is needed.
const WITHOUT_MEMORY: &[NoMemoryRow<'static, MapCall>] = &[
    no_memory!(receiver!(&[]), calls: &[Changed(RemoveMut), Changed(RemoveMutCounted)], at: 1,
        answer: false),
    no_memory!(receiver!(&[]), calls: LENDS, at: 1, answer: false),
    no_memory!(receiver!(&[]), calls: POPS, at: 1, answer: false),
    no_memory!(receiver!(&[]), calls: POPS_IN_PLACE, at: 1, answer: false),
];

const POPS: &[MapCall] = &[
    Made(PopFirst),
    Made(PopLast),
    Made(PopFirstCounted),
    Made(PopLastCounted),
];

const POPS_IN_PLACE: &[MapCall] = &[
    Changed(PopFirstMut),
    Changed(PopLastMut),
    Changed(PopFirstMutCounted),
    Changed(PopLastMutCounted),
];

// The calls that lend a value.
const LENDS: &[MapCall] = &[
    Changed(GetMut),
    Changed(ValueMut),
    Changed(GetMutCounted),
    Changed(ValueMutCounted),
];

// Keys of a large one.
pub(crate) const STORED: &[u64] = &[0, 1, 2, 17, 4_095, 4_999, 5_000, 8_191, 9_000, 9_998, 9_999];

// Numbers below and above all keys, once 0 is taken out.
pub(crate) const BEYOND: &[u64] = &[0, 10_000];

// Keys that aren't there.
pub(crate) const ABSENT: &[u64] = &[10_000, 16_383];

// The keys rise.
pub(crate) const RISING: LargeContainer = LargeContainer {
    variant: 0,
    count: 10_000,
    step: 1,
    limit: 10_000,
};

// The keys come in no order.
pub(crate) const MIXED: LargeContainer = LargeContainer {
    variant: 0,
    count: 10_000,
    step: 7919,
    limit: 10_000,
};

// The bytes that come before what is shared: two counts of owners and the allocator.
pub(crate) const COUNTS: u64 = 24;

// The bytes of a node: its links, each with a color, a count and a pointer, and the pointer to its pair.
pub(crate) const NODE: u64 = COUNTS + 40;

// The bytes of a pair.
pub(crate) const PAIR: u64 = COUNTS + 32;

// Twice the logarithm of 10,001 is 26, and that of 10,004 too. By their contracts an insertion makes at most 27 nodes, a removal
// 104, a union 237 for each pair of the smaller one, a cut 104, a range 264, and what is left of one 397.
pub(crate) const POPPED: u64 = 104;

pub(crate) const COMBINED: u64 = 3 * 237;

pub(crate) const CUT: u64 = 104;

pub(crate) const RANGE: u64 = 264;

pub(crate) const REST: u64 = 397;

const ROWS: &[MemoryRow<'static, MapCall>] = &[
    memory!(Alike, calls: &[Made(Insert), Made(InsertCounted)], at: STORED,
        requests: 19, bytes: 18 * NODE + PAIR),
    memory!(
        Shared,
        calls: &[Changed(InsertMut), Changed(InsertMutCounted), Made(AlterValue),
            Changed(AlterValueMut)],
        at: STORED, requests: 19, bytes: 18 * NODE + PAIR
    ),
    memory!(Alike, calls: &[Made(Insert), Made(InsertCounted)], at: ABSENT,
        requests: 20, bytes: 19 * NODE + PAIR),
    memory!(
        Shared,
        calls: &[Changed(InsertMut), Changed(InsertMutCounted), Made(AlterPresence),
            Changed(AlterPresenceMut)],
        at: ABSENT, requests: 20, bytes: 19 * NODE + PAIR
    ),
    memory!(Alike, calls: &[Made(Remove), Made(RemoveCounted)], at: STORED,
        requests: 47, bytes: 47 * NODE),
    memory!(
        Shared,
        calls: &[Changed(RemoveMut), Changed(RemoveMutCounted), Made(AlterPresence),
            Changed(AlterPresenceMut)],
        at: STORED, requests: 47, bytes: 47 * NODE
    ),
    memory!(Shared, calls: LENDS, at: STORED, requests: 19, bytes: 18 * NODE + PAIR),
    memory!(Shared, calls: &[Changed(GetOrInsertWith)], at: STORED,
        requests: 19, bytes: 18 * NODE + PAIR),
    memory!(Shared, calls: &[Changed(GetOrInsertWith)], at: ABSENT,
        requests: 20, bytes: 19 * NODE + PAIR),
    memory!(Alike, calls: &[Made(Share), Made(ShareCounted), Made(Cloned)], at: &[7],
        limit: NOTHING),
    // A list of three takes one, and nothing more where it doesn't ascend; a map of it two for each of them.
    memory!(Alike, calls: &[Made(FromSorted), Made(FromSortedCounted)], at: &[1, 2],
        answer: false, requests: 1, bytes: 3 * 32),
    memory!(Alike, calls: &[Made(FromSorted), Made(FromSortedCounted)], at: &[3],
        requests: 7, bytes: 3 * (32 + NODE + PAIR)),
    memory!(Alike, calls: &[Made(FromArray)], at: &[7], requests: 7, bytes: 3 * (32 + NODE + PAIR)),
    memory!(Alike, calls: &[Made(FromIter)], at: &[1, 7],
        requests: 7, bytes: 3 * (32 + NODE + PAIR)),
    memory!(Alike, calls: UNIONS, at: STORED,
        requests: 7 + COMBINED, bytes: 3 * (32 + NODE + PAIR) + COMBINED * NODE),
    // The large one has keys above those of the other.
    memory!(Alike, calls: APPENDS, at: &[7], answer: false,
        requests: 7, bytes: 3 * (32 + NODE + PAIR)),
    memory!(Alike, calls: CUTS, at: STORED,
        requests: CUT, bytes: CUT * NODE),
    memory!(Alike, calls: &[Made(Subrange), Made(SubrangeCounted)], at: STORED,
        requests: RANGE, bytes: RANGE * NODE),
    memory!(Alike, calls: &[Made(WithoutRange), Made(WithoutRangeCounted)], at: STORED,
        requests: REST, bytes: REST * NODE),
    // In place with clones of a key and its value.
    memory!(Shared, calls: POPS, at: &[7],
        clones: 2, requests: POPPED, bytes: POPPED * NODE),
    memory!(Shared, calls: POPS_IN_PLACE, at: &[7],
        clones: 2, requests: POPPED, bytes: POPPED * NODE),
    memory!(Shared, calls: &[Made(CopyFrom), Changed(CopyFromMut), Changed(CopyFromMutCounted)],
        at: STORED, requests: 7 + POPPED, bytes: 3 * (32 + NODE + PAIR) + POPPED * NODE),
    // Alone: the pair, where one is put in, and its node, where its key is new.
    memory!(Alone, calls: &[Changed(InsertMut)], at: STORED, requests: 1, bytes: PAIR),
    memory!(Alone, calls: &[Changed(InsertMutCounted)], at: STORED, requests: 1, bytes: PAIR),
    memory!(Alone, calls: &[Changed(AlterValueMut)], at: STORED, requests: 1, bytes: PAIR),
    memory!(Alone, calls: &[Changed(GetMut)], at: STORED, limit: NOTHING),
    memory!(Alone, calls: &[Changed(GetMutCounted)], at: STORED, limit: NOTHING),
    memory!(Alone, calls: &[Changed(GetOrInsertWith)], at: STORED, limit: NOTHING),
    memory!(Alone, calls: &[Changed(RemoveMut)], at: STORED, limit: NOTHING),
    memory!(Alone, calls: &[Changed(InsertMut)], at: STORED, requests: 2, bytes: NODE + PAIR),
    memory!(Alone, calls: &[Changed(RemoveMutCounted)], at: STORED, limit: NOTHING),
    memory!(Alone, calls: &[Changed(AlterPresenceMut)], at: STORED,
        requests: 2, bytes: NODE + PAIR),
    memory!(Alone, calls: &[Changed(AlterPresenceMut)], at: STORED, limit: NOTHING),
    // All keys lie above 0 by now, and below 10,000, so each part is empty or another handle.
    memory!(Alike, calls: CUTS, at: BEYOND, limit: NOTHING),
    memory!(Alone, calls: POPS_IN_PLACE, at: &[7], clones: 2, limit: NOTHING),
];

// Makes the calls with each request and each clone refused in turn.
fn assert_refused(rt: &impl Abort, alloc: Global, calls: &'static [MapCall]) {
    let faults = Faults::new(alloc);
    check_some_refused::<Tests, MapCall, FailingMap>(&faults, &PLAN, calls).expect(rt, "each call");
}

#[test]
fn insertions(rt: HostRuntime) {
    assert_refused(&rt, rt.alloc(), INSERTIONS);
}

#[test]
fn removals(rt: HostRuntime) {
    assert_refused(&rt, rt.alloc(), REMOVALS);
}

#[test]
fn alterations(rt: HostRuntime) {
    assert_refused(&rt, rt.alloc(), ALTERATIONS);
}

#[test]
fn copies(rt: HostRuntime) {
    assert_refused(&rt, rt.alloc(), COPIES);
}

#[test]
fn copies_in_place(rt: HostRuntime) {
    assert_refused(&rt, rt.alloc(), COPIES_IN_PLACE);
}

#[test]
fn cuts(rt: HostRuntime) {
    assert_refused(&rt, rt.alloc(), CUTS);
}

#[test]
fn subranges(rt: HostRuntime) {
    assert_refused(&rt, rt.alloc(), SUBRANGES);
}

#[test]
fn unions(rt: HostRuntime) {
    assert_refused(&rt, rt.alloc(), UNIONS);
}

#[test]
fn appends(rt: HostRuntime) {
    assert_refused(&rt, rt.alloc(), APPENDS);
}

#[test]
fn builds(rt: HostRuntime) {
    assert_refused(&rt, rt.alloc(), BUILDS);
}

#[test]
fn pops(rt: HostRuntime) {
    assert_refused(&rt, rt.alloc(), POPS);
}

#[test]
fn pops_in_place(rt: HostRuntime) {
    assert_refused(&rt, rt.alloc(), POPS_IN_PLACE);
}

#[test]
fn lends(rt: HostRuntime) {
    assert_refused(&rt, rt.alloc(), LENDS);
}

#[test]
fn asked_where_keys_came_in_no_order(rt: HostRuntime) {
    let faults = Faults::new(rt.alloc());
    check_large::<Tests, MapCall, FailingMap>(&faults, PLAN.put, &MIXED, ROWS).expect(
        &rt, "each row",
    );
}

// What asks for no memory, and what is asked for where keys rose.
#[test]
fn asked(rt: HostRuntime) {
    let faults = Faults::new(rt.alloc());
    check_container::<Tests, MapCall, FailingMap>(
        &faults,
        &PLAN,
        Changed(Clear),
        &receiver!(&[1, 2, 3]),
        &receiver!(&[1, 5]),
    )
    .expect(&rt, "each check");
}
