use crate::Tests;
use crate::red_black_tree_map::{
    ABSENT, BEYOND, COMBINED, COUNTS, CUT, MIXED, NODE, NUMBERS, POPPED, RANGE, RECEIVERS, REST,
    RISING, STORED,
};
use crate::red_black_tree_set::SetChanged::{
    Clear, InsertMut, InsertMutCounted, PopFirstMut, PopFirstMutCounted, PopLastMut,
    PopLastMutCounted, RemoveMut, RemoveMutCounted,
};
use crate::red_black_tree_set::SetMade::{
    Append, AppendCounted, Cloned, FromArray, FromIter, FromSorted, FromSortedCounted, Insert,
    InsertCounted, PopFirst, PopFirstCounted, PopLast, PopLastCounted, Remove, RemoveCounted,
    Share, Split, SplitCounted, Subrange, SubrangeCounted, Union, UnionCounted, WithoutRange,
    WithoutRangeCounted,
};
use rpds_core::steps::Steps;
use rpds_faults::{FailingAllocator, FailingItem, Faults};
use rpds_refusals::answer::{always_some, always_true, has_number, is_below, put_if_some};
use rpds_refusals::call::Call;
use rpds_refusals::call::Call::{Changed, Made};
use rpds_refusals::check::check_container;
use rpds_refusals::container::Container;
use rpds_refusals::limits::check_large;
use rpds_refusals::looks::Looks;
use rpds_refusals::plan::Sharing::{Alike, Alone, Shared};
use rpds_refusals::plan::{MemoryRow, NOTHING, NoMemoryRow, Plan};
use rpds_refusals::refused::check_some_refused;
use rpds_refusals::subject::Subject;
use rpds_refusals::{memory, no_memory, receiver};
use rpds_tree::set::red_black_tree_set::RedBlackTreeSet;
use rpds_tree::sorted::SortedError;
use std::alloc::{AllocError, Global};
use std::ops::Bound::{Excluded, Included, Unbounded};
use std::process::Abort;

pub(crate) type FailingSet<'t> = RedBlackTreeSet<FailingItem<'t>, &'t FailingAllocator>;

pub(crate) type SetCall = Call<SetMade, SetChanged>;

// A call that hands out a set.
#[derive(Clone, Copy, Debug)]
pub(crate) enum SetMade {
    Insert,
    InsertCounted,
    Remove,
    RemoveCounted,
    PopFirst,
    PopFirstCounted,
    PopLast,
    PopLastCounted,
    // What is above the value.
    Split,
    SplitCounted,
    Subrange,
    SubrangeCounted,
    WithoutRange,
    WithoutRangeCounted,
    Union,
    UnionCounted,
    Append,
    AppendCounted,
    FromIter,
    FromArray,
    FromSorted,
    FromSortedCounted,
    Share,
    // By the trait `Clone`.
    Cloned,
}

// A call that changes the set.
#[derive(Clone, Copy, Debug)]
pub(crate) enum SetChanged {
    InsertMut,
    InsertMutCounted,
    RemoveMut,
    RemoveMutCounted,
    PopFirstMut,
    PopFirstMutCounted,
    PopLastMut,
    PopLastMutCounted,
    Clear,
}

// A set of items, one of which may come twice.
fn collected<'t>(number: u64, faults: &'t Faults) -> Result<FailingSet<'t>, AllocError> {
    let counts = &faults.counts;
    let items = [
        FailingItem::new(2, counts),
        FailingItem::new(number, counts),
        FailingItem::new(3, counts),
    ];
    RedBlackTreeSet::from_iter(&faults.alloc, items)
}

// The same of an array.
fn of_array<'t>(number: u64, faults: &'t Faults) -> Result<FailingSet<'t>, AllocError> {
    let counts = &faults.counts;
    let items = [
        FailingItem::new(2, counts),
        FailingItem::new(number, counts),
        FailingItem::new(3, counts),
    ];
    RedBlackTreeSet::from_array(&faults.alloc, items)
}

// Items, which rise where the number is above 2.
fn rising<'t>(
    number: u64,
    faults: &'t Faults,
) -> Result<Vec<FailingItem<'t>, &'t FailingAllocator>, AllocError> {
    let counts = &faults.counts;
    Ok(vec![in &faults.alloc;
        FailingItem::new(1, counts),
        FailingItem::new(2, counts),
        FailingItem::new(number, counts),
    ]?)
}

// A set whose members are above those of the shapes.
fn behind<'t>(faults: &'t Faults) -> Result<FailingSet<'t>, AllocError> {
    let counts = &faults.counts;
    let members = [
        FailingItem::new(60, counts),
        FailingItem::new(61, counts),
        FailingItem::new(62, counts),
    ];
    RedBlackTreeSet::from_iter(&faults.alloc, members)
}

// The set, where its members rose.
fn risen<'t>(
    made: Result<FailingSet<'t>, SortedError>,
) -> Result<Option<FailingSet<'t>>, AllocError> {
    match made {
        Ok(set) => Ok(Some(set)),
        Err(SortedError::NotAscending(_)) => Ok(None),
        Err(SortedError::NoMemory) => Err(AllocError),
    }
}

// The set without a member at an end, where there was one.
fn rest_of<'t, P: Drop>(
    popped: Result<Option<(P, FailingSet<'t>)>, AllocError>,
) -> Result<Option<FailingSet<'t>>, AllocError> {
    match popped? {
        None => Ok(None),
        Some((_, rest)) => Ok(Some(rest)),
    }
}

fn made<'t>(
    set: &FailingSet<'t>,
    call: SetMade,
    number: u64,
    faults: &'t Faults,
) -> Result<Option<FailingSet<'t>>, AllocError> {
    let item = FailingItem::new(number, &faults.counts);
    let steps = &mut Steps::new();
    match call {
        Insert => always_some(set.insert(item)),
        InsertCounted => always_some(set.insert_counted(item, steps)),
        Remove => always_some(set.remove(&item)),
        RemoveCounted => always_some(set.remove_counted(&item, steps)),
        PopFirst => rest_of(set.pop_first()),
        PopFirstCounted => rest_of(set.pop_first_counted(steps)),
        PopLast => rest_of(set.pop_last()),
        PopLastCounted => rest_of(set.pop_last_counted(steps)),
        Split => Ok(Some(set.split(&item)?.above)),
        SplitCounted => Ok(Some(set.split_counted(&item, steps)?.above)),
        Subrange => always_some(set.subrange(Excluded(&item), Unbounded)),
        SubrangeCounted => always_some(set.subrange_counted(Excluded(&item), Unbounded, steps)),
        WithoutRange => always_some(set.without_range(Included(&item), Unbounded)),
        WithoutRangeCounted => {
            always_some(set.without_range_counted(Included(&item), Unbounded, steps))
        }
        Union => always_some(set.union(&collected(number, faults)?)),
        UnionCounted => always_some(set.union_counted(&collected(number, faults)?, steps)),
        Append => risen(set.append(&behind(faults)?)),
        AppendCounted => risen(set.append_counted(&behind(faults)?, steps)),
        FromIter => always_some(collected(number, faults)),
        FromArray => always_some(of_array(number, faults)),
        FromSorted => risen(RedBlackTreeSet::from_sorted(&faults.alloc, rising(number, faults)?)),
        FromSortedCounted => {
            let items = rising(number, faults)?;
            risen(RedBlackTreeSet::from_sorted_counted(&faults.alloc, items, steps))
        }
        Share => always_some(set.clone()),
        Cloned => always_some(Clone::clone(set)),
    }
}

fn changed<'t>(
    set: &mut FailingSet<'t>,
    call: SetChanged,
    number: u64,
    faults: &'t Faults,
) -> Result<bool, AllocError> {
    let item = FailingItem::new(number, &faults.counts);
    let steps = &mut Steps::new();
    match call {
        InsertMut => always_true(set.insert_mut(item)),
        InsertMutCounted => always_true(set.insert_mut_counted(item, steps)),
        RemoveMut => set.remove_mut(&item),
        RemoveMutCounted => set.remove_mut_counted(&item, steps),
        PopFirstMut => Ok(set.pop_first_mut()?.is_some()),
        PopFirstMutCounted => Ok(set.pop_first_mut_counted(steps)?.is_some()),
        PopLastMut => Ok(set.pop_last_mut()?.is_some()),
        PopLastMutCounted => Ok(set.pop_last_mut_counted(steps)?.is_some()),
        Clear => {
            set.clear();
            Ok(set.is_empty())
        }
    }
}

// The item 2 is there.
fn gets<'t>(set: &FailingSet<'t>, empty: &FailingSet<'t>, looks: &mut Looks<'_, 't>) {
    let there = &FailingItem::new(2, &looks.faults.counts);
    looks.see(
        "get",
        has_number(set.get(there), 2) && empty.get(there).is_none(),
    );
    looks.see(
        "get_counted",
        has_number(set.get_counted(there, &mut Steps::new()), 2),
    );
    looks.see("contains", set.contains(there) && !empty.contains(there));
}

// The other holds 1 and 5.
fn relates<'t>(set: &FailingSet<'t>, other: &FailingSet<'t>, looks: &mut Looks<'_, 't>) {
    looks.see("compared", is_below(set, other));
    looks.see("is_disjoint", !set.is_disjoint(other));
    looks.see("is_subset", !set.is_subset(other));
    looks.see("is_superset", !set.is_superset(other));
}

// From the number 2 on. A range is dropped after a step, and another one is gone over from both ends.
fn ranges<'t>(set: &FailingSet<'t>, looks: &mut Looks<'_, 't>) {
    let bound = &FailingItem::new(2, &looks.faults.counts);
    let is_barred = set.range_fits(Excluded(bound), Excluded(bound));
    let is_fit = set.range_fits(Included(bound), Unbounded);
    looks.see("range_fits", is_fit && !is_barred);
    if is_fit {
        looks.see(
            "range",
            set.range(Included(bound), Unbounded).next().is_some(),
        );
        let mut range = set.range(Included(bound), Unbounded);
        looks.see("range from its end", range.next_back().is_some());
        looks.see(
            "range to its end",
            range.next().is_some() && range.next().is_none(),
        );
    }
}

// Each iterator is dropped after a step, and can be had again.
fn walks<'t>(set: &FailingSet<'t>, looks: &mut Looks<'_, 't>) {
    looks.see(
        "iter",
        has_number(set.iter().next(), 1) && set.iter().count() == 3,
    );
    looks.see(
        "rev",
        has_number(set.iter().next_back(), 3) && set.iter().rev().count() == 3,
    );
    looks.see(
        "into_iter",
        has_number(set.into_iter().next(), 1) && set.into_iter().count() == 3,
    );
    looks.see("size_hint", set.iter().size_hint() == (3, Some(3)));
}

// Whether both have the same items, and look-ups in both take the same steps.
pub(crate) fn are_same<'t>(
    set: &FailingSet<'t>,
    twin: &FailingSet<'t>,
    faults: &'t Faults,
) -> bool {
    faults.counts.compared();
    for item in set.iter() {
        set.get(item);
        let compared = faults.counts.compared();
        twin.get(item);
        if faults.counts.compared() != compared {
            return false;
        }
    }
    *set == *twin
}

impl<'t> Subject<'t, Tests, SetCall> for FailingSet<'t> {
    fn start(_variant: u8, faults: &'t Faults) -> Result<Self, AllocError> {
        Ok(RedBlackTreeSet::new(&faults.alloc))
    }

    fn share(&mut self, _faults: &'t Faults) -> Result<Option<Self>, AllocError> {
        always_some(self.clone())
    }

    fn is_as(&self, twin: &Self, faults: &'t Faults) -> bool {
        are_same(self, twin, faults)
    }

    fn held(&self) -> Option<u64> {
        Some(self.size() as u64)
    }

    fn perform(
        &mut self,
        call: SetCall,
        number: u64,
        faults: &'t Faults,
    ) -> Result<bool, AllocError> {
        match call {
            Made(call) => {
                let made = made(self, call, number, faults);
                put_if_some(self, made)
            }
            Changed(call) => changed(self, call, number, faults),
        }
    }
}

impl<'t> Container<'t, Tests, SetCall> for FailingSet<'t> {
    fn looks(&self, other: &Self, empty: &Self, looks: &mut Looks<'_, 't>) {
        looks.see("size", self.size() == 3 && self.len() == 3);
        looks.see("is_empty", !self.is_empty() && empty.is_empty());
        looks.see(
            "first",
            has_number(self.first(), 1) && empty.first().is_none(),
        );
        looks.see("last", has_number(self.last(), 3) && empty.last().is_none());
        gets(self, empty, looks);
        relates(self, other, looks);
        ranges(self, looks);
        walks(self, looks);
    }
}

const PLAN: Plan<'static, SetCall> = Plan {
    put: Changed(InsertMut),
    receivers: RECEIVERS,
    numbers: NUMBERS,
    calls: &[],
    never_refused: &[Made(Share), Made(Cloned), Changed(Clear)],
    empty_without_memory: &[0],
    without_memory: WITHOUT_MEMORY,
    limits: &[(RISING, ROWS)],
};

// The calls that ask for memory or for a clone. Each list has a test of its own.
const INSERTIONS: &[SetCall] = &[
    Made(Insert),
    Made(InsertCounted),
    Changed(InsertMut),
    Changed(InsertMutCounted),
];

const REMOVALS: &[SetCall] = &[
    Made(Remove),
    Made(RemoveCounted),
    Changed(RemoveMut),
    Changed(RemoveMutCounted),
];

const CUTS: &[SetCall] = &[Made(Split), Made(SplitCounted)];

const SUBRANGES: &[SetCall] = &[
    Made(Subrange),
    Made(SubrangeCounted),
    Made(WithoutRange),
    Made(WithoutRangeCounted),
];

const UNIONS: &[SetCall] = &[Made(Union), Made(UnionCounted)];

const APPENDS: &[SetCall] = &[Made(Append), Made(AppendCounted)];

const BUILDS: &[SetCall] = &[
    Made(FromIter),
    Made(FromArray),
    Made(FromSorted),
    Made(FromSortedCounted),
];

// There is no such item, and no memory is needed.
const WITHOUT_MEMORY: &[NoMemoryRow<'static, SetCall>] = &[
    no_memory!(receiver!(&[]), calls: &[Changed(RemoveMut), Changed(RemoveMutCounted)], at: 1,
        answer: false),
    no_memory!(receiver!(&[]), calls: POPS, at: 1, answer: false),
    no_memory!(receiver!(&[]), calls: POPS_IN_PLACE, at: 1, answer: false),
];

const POPS: &[SetCall] = &[
    Made(PopFirst),
    Made(PopLast),
    Made(PopFirstCounted),
    Made(PopLastCounted),
];

const POPS_IN_PLACE: &[SetCall] = &[
    Changed(PopFirstMut),
    Changed(PopLastMut),
    Changed(PopFirstMutCounted),
    Changed(PopLastMutCounted),
];

// The bytes of an item.
pub(crate) const ITEM: u64 = COUNTS + 16;

// As much as those of a map.
const ROWS: &[MemoryRow<'static, SetCall>] = &[
    memory!(Alike, calls: &[Made(Insert), Made(InsertCounted)], at: STORED,
        requests: 19, bytes: 18 * NODE + ITEM),
    memory!(Shared, calls: &[Changed(InsertMut), Changed(InsertMutCounted)], at: STORED,
        requests: 19, bytes: 18 * NODE + ITEM),
    memory!(Alike, calls: &[Made(Insert), Made(InsertCounted)], at: ABSENT,
        requests: 20, bytes: 19 * NODE + ITEM),
    memory!(Shared, calls: &[Changed(InsertMut), Changed(InsertMutCounted)], at: ABSENT,
        requests: 20, bytes: 19 * NODE + ITEM),
    memory!(Alike, calls: &[Made(Remove), Made(RemoveCounted)], at: STORED,
        requests: 47, bytes: 47 * NODE),
    memory!(Shared, calls: &[Changed(RemoveMut), Changed(RemoveMutCounted)], at: STORED,
        requests: 47, bytes: 47 * NODE),
    memory!(Alike, calls: &[Made(Share), Made(Cloned)], at: &[7], limit: NOTHING),
    // A list of three takes one, and nothing more where it doesn't ascend; a set of it two for each of them.
    memory!(Alike, calls: &[Made(FromSorted), Made(FromSortedCounted)], at: &[1, 2],
        answer: false, requests: 1, bytes: 3 * 16),
    memory!(Alike, calls: &[Made(FromSorted), Made(FromSortedCounted)], at: &[3],
        requests: 7, bytes: 3 * (16 + NODE + ITEM)),
    memory!(Alike, calls: &[Made(FromArray)], at: &[7], requests: 7, bytes: 3 * (16 + NODE + ITEM)),
    memory!(Alike, calls: &[Made(FromIter)], at: &[1, 7],
        requests: 7, bytes: 3 * (16 + NODE + ITEM)),
    memory!(Alike, calls: UNIONS, at: STORED,
        requests: 7 + COMBINED, bytes: 3 * (16 + NODE + ITEM) + COMBINED * NODE),
    memory!(Alike, calls: APPENDS, at: &[7], answer: false,
        requests: 7, bytes: 3 * (16 + NODE + ITEM)),
    memory!(Alike, calls: CUTS, at: STORED,
        requests: CUT, bytes: CUT * NODE),
    memory!(Alike, calls: &[Made(Subrange), Made(SubrangeCounted)], at: STORED,
        requests: RANGE, bytes: RANGE * NODE),
    memory!(Alike, calls: &[Made(WithoutRange), Made(WithoutRangeCounted)], at: STORED,
        requests: REST, bytes: REST * NODE),
    memory!(Shared, calls: POPS, at: &[7],
        clones: 1, requests: POPPED, bytes: POPPED * NODE),
    memory!(Shared, calls: POPS_IN_PLACE, at: &[7],
        clones: 1, requests: POPPED, bytes: POPPED * NODE),
    // Alone: the item, where one is put in, and its node, where it is new.
    memory!(Alone, calls: &[Changed(InsertMut)], at: STORED, requests: 1, bytes: ITEM),
    memory!(Alone, calls: &[Changed(InsertMutCounted)], at: STORED, requests: 1, bytes: ITEM),
    memory!(Alone, calls: &[Changed(RemoveMut)], at: STORED, limit: NOTHING),
    memory!(Alone, calls: &[Changed(InsertMut)], at: STORED, requests: 2, bytes: NODE + ITEM),
    memory!(Alone, calls: &[Changed(RemoveMutCounted)], at: STORED, limit: NOTHING),
    // All members lie above 0 by now, and below 10,000, so each part is empty or another handle.
    memory!(Alike, calls: CUTS, at: BEYOND, limit: NOTHING),
    memory!(Alone, calls: POPS_IN_PLACE, at: &[7], clones: 1, limit: NOTHING),
];

// Makes the calls with each request and each clone refused in turn.
fn assert_refused(rt: &impl Abort, alloc: Global, calls: &'static [SetCall]) {
    let faults = Faults::new(alloc);
    check_some_refused::<Tests, SetCall, FailingSet>(&faults, &PLAN, calls).expect(rt, "each call");
}

#[test]
fn insertions(rt: HostRuntime) {
    assert_refused(&rt, rt.alloc(), INSERTIONS);
}

#[test]
fn removals(rt: HostRuntime) {
    assert_refused(&rt, rt.alloc(), REMOVALS);
}

#[test]
fn cuts(rt: HostRuntime) {
    assert_refused(&rt, rt.alloc(), CUTS);
}

#[test]
fn subranges(rt: HostRuntime) {
    assert_refused(&rt, rt.alloc(), SUBRANGES);
}

#[test]
fn unions(rt: HostRuntime) {
    assert_refused(&rt, rt.alloc(), UNIONS);
}

#[test]
fn appends(rt: HostRuntime) {
    assert_refused(&rt, rt.alloc(), APPENDS);
}

#[test]
fn builds(rt: HostRuntime) {
    assert_refused(&rt, rt.alloc(), BUILDS);
}

#[test]
fn pops(rt: HostRuntime) {
    assert_refused(&rt, rt.alloc(), POPS);
}

#[test]
fn pops_in_place(rt: HostRuntime) {
    assert_refused(&rt, rt.alloc(), POPS_IN_PLACE);
}

#[test]
fn asked_where_keys_came_in_no_order(rt: HostRuntime) {
    let faults = Faults::new(rt.alloc());
    check_large::<Tests, SetCall, FailingSet>(&faults, PLAN.put, &MIXED, ROWS).expect(
        &rt, "each row",
    );
}

// What asks for no memory, and what is asked for where keys rose.
#[test]
fn asked(rt: HostRuntime) {
    let faults = Faults::new(rt.alloc());
    check_container::<Tests, SetCall, FailingSet>(
        &faults,
        &PLAN,
        Changed(Clear),
        &receiver!(&[1, 2, 3]),
        &receiver!(&[1, 5]),
    )
    .expect(&rt, "each check");
}
