//! The calls on whole sets, each with its counted form.
use crate::Tests;
use crate::red_black_tree_map::{NODE, RISING, STORED};
use crate::red_black_tree_set::{FailingSet, ITEM, are_same};
use crate::whole_maps::{HUNDRED, SIFTED, UPPER};
use rpds_core::steps::Steps;
use rpds_faults::{FailingItem, Faults, LifeCounts};
use rpds_refusals::answer::always_true;
use rpds_refusals::call::Call;
use rpds_refusals::call::Call::{Changed, Made};
use rpds_refusals::check::check_calls;
use rpds_refusals::plan::Sharing::{Alike, Shared};
use rpds_refusals::plan::{MemoryRow, Plan};
use rpds_refusals::refused::check_some_refused;
use rpds_refusals::subject::Subject;
use rpds_refusals::{memory, receivers};
use rpds_tree::set::red_black_tree_set::RedBlackTreeSet;
use std::alloc::{AllocError, Global};
use std::process::Abort;

// A call that hands out a set.
#[derive(Clone, Copy, Debug)]
enum MadeCall {
    Union,
    UnionCounted,
    Intersection,
    IntersectionCounted,
    Difference,
    DifferenceCounted,
    SymmetricDifference,
    SymmetricDifferenceCounted,
    UnionOfHandles,
    IntersectionOfVersions,
    DifferenceOfMany,
    KeepByFlags,
}

// A call that changes the set.
#[derive(Clone, Copy, Debug)]
enum ChangedCall {
    Put,
    Extend,
    ExtendByHundred,
    Retain,
}

type WholeCall = Call<MadeCall, ChangedCall>;

// A set of two members: the number, and one that is nowhere else.
fn few<'t>(number: u64, faults: &'t Faults) -> Result<FailingSet<'t>, AllocError> {
    let counts = &faults.counts;
    let members = [
        FailingItem::new(number, counts),
        FailingItem::new(77_777, counts),
    ];
    RedBlackTreeSet::from_iter(&faults.alloc, members)
}

// A set of 21 members, each third number: of more than any receiver has.
fn many<'t>(faults: &'t Faults) -> Result<FailingSet<'t>, AllocError> {
    let mut set = RedBlackTreeSet::new(&faults.alloc);
    for place in 0..21u64 {
        set.insert_mut(FailingItem::new(place.wrapping_mul(3), &faults.counts))?;
    }
    Ok(set)
}

// What the set has in common with its version without the number.
fn common_of_versions<'t>(
    set: &FailingSet<'t>,
    number: u64,
    counts: &'t LifeCounts,
) -> Result<FailingSet<'t>, AllocError> {
    let version = set.remove(&FailingItem::new(number, counts))?;
    set.intersection(&version)
}

const FLAGS: [bool; 12] = [
    true, false, true, true, false, true, true, true, false, true, true, false,
];

// Some of twelve members, or all of another number of them.
fn kept_by_flags<'t>(set: &FailingSet<'t>) -> Result<FailingSet<'t>, AllocError> {
    if set.size() == FLAGS.len() {
        set.keep_by_flags(&FLAGS)
    } else {
        RedBlackTreeSet::clone(set)
    }
}

// The set that a call hands out.
fn made<'t>(
    set: &FailingSet<'t>,
    call: MadeCall,
    number: u64,
    faults: &'t Faults,
) -> Result<FailingSet<'t>, AllocError> {
    let other = few(number, faults)?;
    let steps = &mut Steps::new();
    match call {
        MadeCall::Union => set.union(&other),
        MadeCall::UnionCounted => set.union_counted(&other, steps),
        MadeCall::Intersection => set.intersection(&other),
        MadeCall::IntersectionCounted => set.intersection_counted(&other, steps),
        MadeCall::Difference => set.difference(&other),
        MadeCall::DifferenceCounted => set.difference_counted(&other, steps),
        MadeCall::SymmetricDifference => set.symmetric_difference(&other),
        MadeCall::SymmetricDifferenceCounted => set.symmetric_difference_counted(&other, steps),
        MadeCall::UnionOfHandles => set.union(&RedBlackTreeSet::clone(set)?),
        MadeCall::IntersectionOfVersions => common_of_versions(set, number, &faults.counts),
        MadeCall::DifferenceOfMany => set.difference(&many(faults)?),
        MadeCall::KeepByFlags => kept_by_flags(set),
    }
}

// Puts in a hundred members, from the number on.
fn extend_by_hundred<'t>(
    set: &mut FailingSet<'t>,
    number: u64,
    counts: &'t LifeCounts,
) -> Result<(), AllocError> {
    let numbers = number..number.wrapping_add(100);
    set.extend(numbers.map(|member| FailingItem::new(member, counts)))
}

// Makes a call in place, which always has something to do.
fn changed<'t>(
    set: &mut FailingSet<'t>,
    call: ChangedCall,
    number: u64,
    counts: &'t LifeCounts,
) -> Result<bool, AllocError> {
    let item = FailingItem::new(number, counts);
    match call {
        ChangedCall::Put => always_true(set.insert_mut(item)),
        ChangedCall::Extend => always_true(set.extend([item, FailingItem::new(77_777, counts)])),
        ChangedCall::ExtendByHundred => always_true(extend_by_hundred(set, number, counts)),
        ChangedCall::Retain => always_true(set.retain(|member| *member != item)),
    }
}

impl<'t> Subject<'t, Tests, WholeCall> for FailingSet<'t> {
    fn start(_variant: u8, faults: &'t Faults) -> Result<Self, AllocError> {
        Ok(RedBlackTreeSet::new(&faults.alloc))
    }

    fn share(&mut self, _faults: &'t Faults) -> Result<Option<Self>, AllocError> {
        Ok(Some(RedBlackTreeSet::clone(self)?))
    }

    fn is_as(&self, twin: &Self, faults: &'t Faults) -> bool {
        are_same(self, twin, faults)
    }

    fn held(&self) -> Option<u64> {
        Some(self.size() as u64)
    }

    fn perform(
        &mut self,
        call: WholeCall,
        number: u64,
        faults: &'t Faults,
    ) -> Result<bool, AllocError> {
        match call {
            Made(call) => {
                *self = made(self, call, number, faults)?;
                Ok(true)
            }
            Changed(call) => changed(self, call, number, &faults.counts),
        }
    }
}

// Of no members, a few, twelve, for which there are flags, and so many that a difference cuts the other set.
const PLAN: Plan<'static, WholeCall> = Plan {
    put: Changed(ChangedCall::Put),
    receivers: receivers![
        &[],
        &[1, 2, 3, 4, 20, 36, 255],
        &[1, 2, 3, 4, 5, 6, 7, 8, 9, 20, 36, 255],
        &[
            0, 1, 2, 3, 4, 5, 6, 7, 8, 9, 10, 11, 12, 13, 14, 15, 16, 17, 18, 19
        ]
    ],
    numbers: &[2, 20, 52],
    calls: &[],
    never_refused: &[],
    empty_without_memory: &[0],
    without_memory: &[],
    limits: &[(RISING, ROWS)],
};

// The calls that ask for memory or for a clone. Each list has a test of its own.
const UNIONS: &[WholeCall] = &[
    Made(MadeCall::Union),
    Made(MadeCall::UnionCounted),
    Made(MadeCall::UnionOfHandles),
];

const INTERSECTIONS: &[WholeCall] = &[
    Made(MadeCall::Intersection),
    Made(MadeCall::IntersectionCounted),
    Made(MadeCall::IntersectionOfVersions),
];

const DIFFERENCES: &[WholeCall] = &[
    Made(MadeCall::Difference),
    Made(MadeCall::DifferenceCounted),
];

const DIFFERENCES_OF_MANY: &[WholeCall] = &[Made(MadeCall::DifferenceOfMany)];

const SYMMETRIC_DIFFERENCES: &[WholeCall] = &[
    Made(MadeCall::SymmetricDifference),
    Made(MadeCall::SymmetricDifferenceCounted),
];

const CHANGES: &[WholeCall] = &[
    Made(MadeCall::KeepByFlags),
    Changed(ChangedCall::Retain),
    Changed(ChangedCall::Extend),
];

// As much as those of a map.
const INSERTED: u64 = 27;

const REMOVED: u64 = 104;

const COMBINED: u64 = 2 * 237;

const OTHER: u64 = 2 * (16 + NODE + ITEM);

// Of 33 members at least.
const PIECES: u64 = 10_000 / 33;

const ROWS: &[MemoryRow<'static, WholeCall>] = &[
    memory!(Alike, calls: &[Made(MadeCall::Union), Made(MadeCall::UnionCounted)], at: STORED,
        requests: 5 + COMBINED, bytes: OTHER + COMBINED * NODE),
    memory!(
        Alike,
        calls: &[Made(MadeCall::Intersection), Made(MadeCall::IntersectionCounted)],
        at: STORED, requests: 5 + COMBINED, bytes: OTHER + COMBINED * NODE
    ),
    memory!(
        Alike,
        calls: &[Made(MadeCall::Difference), Made(MadeCall::DifferenceCounted)],
        at: STORED, requests: 5 + COMBINED, bytes: OTHER + COMBINED * NODE
    ),
    memory!(
        Alike,
        calls: &[Made(MadeCall::SymmetricDifference), Made(MadeCall::SymmetricDifferenceCounted)],
        at: STORED, requests: 5 + COMBINED, bytes: OTHER + COMBINED * NODE
    ),
    // No node: pieces of up to 64 members are cut as lists of references.
    memory!(Shared, calls: &[Made(MadeCall::UnionOfHandles)], at: &[7],
        requests: 5 + PIECES, bytes: OTHER + 10_000 * 8),
    memory!(Shared, calls: &[Made(MadeCall::IntersectionOfVersions)], at: &[4_999],
        requests: 5 + REMOVED + SIFTED + UPPER,
        bytes: OTHER + (REMOVED + SIFTED) * NODE + 10_000 * 8),
    memory!(Shared, calls: &[Changed(ChangedCall::Extend)], at: STORED,
        requests: 2 + 2 * INSERTED, bytes: 2 * ITEM + 2 * INSERTED * NODE),
    memory!(Shared, calls: &[Changed(ChangedCall::ExtendByHundred)], at: &[0, 4_999, 9_000],
        requests: 100 + HUNDRED, bytes: 100 * ITEM + HUNDRED * NODE),
    // A flag for each member too.
    memory!(Shared, calls: &[Changed(ChangedCall::Retain)], at: STORED,
        requests: 1 + REMOVED, bytes: 10_000 + REMOVED * NODE),
];

// Makes the calls with each request and each clone refused in turn.
fn assert_refused(rt: &impl Abort, alloc: Global, calls: &'static [WholeCall]) {
    let faults = Faults::new(alloc);
    check_some_refused::<Tests, WholeCall, FailingSet>(&faults, &PLAN, calls).expect(
        rt,
        "each call",
    );
}

#[test]
fn unions(rt: HostRuntime) {
    assert_refused(&rt, rt.alloc(), UNIONS);
}

#[test]
fn intersections(rt: HostRuntime) {
    assert_refused(&rt, rt.alloc(), INTERSECTIONS);
}

#[test]
fn differences(rt: HostRuntime) {
    assert_refused(&rt, rt.alloc(), DIFFERENCES);
}

#[test]
fn differences_of_many(rt: HostRuntime) {
    assert_refused(&rt, rt.alloc(), DIFFERENCES_OF_MANY);
}

#[test]
fn symmetric_differences(rt: HostRuntime) {
    assert_refused(&rt, rt.alloc(), SYMMETRIC_DIFFERENCES);
}

#[test]
fn changes(rt: HostRuntime) {
    assert_refused(&rt, rt.alloc(), CHANGES);
}

#[test]
fn asked(rt: HostRuntime) {
    let faults = Faults::new(rt.alloc());
    check_calls::<Tests, WholeCall, FailingSet>(&faults, &PLAN).expect(&rt, "each check");
}
