//! The further calls of hashed sets.
use crate::Tests;
use crate::more::refused::maps::{ABOVE_HUNDRED, is_of_hundred};
use rpds_faults::{FailingAllocator, FailingItem, Faults, FlooredBuild};
use rpds_hash::set::hash_trie_set::HashTrieSet;
use rpds_refusals::answer::always_true;
use rpds_refusals::check::check_calls;
use rpds_refusals::plan::Sharing::Shared;
use rpds_refusals::plan::{LargeContainer, MemoryRow, Plan, Receiver};
use rpds_refusals::subject::Subject;
use rpds_refusals::{memory, receivers};
use std::alloc::AllocError;

type FailingTrie<'t> = HashTrieSet<FailingItem<'t>, FlooredBuild<'t>, &'t FailingAllocator>;

// The calls.
#[derive(Clone, Copy, Debug)]
enum SetCall {
    Extend,
    Retain,
    RetainMost,
    Union,
    SymmetricDifference,
    Intersection,
    Difference,
}

// The hashed set of these numbers, at the degree 4. All numbers up to 3 have one hash.
fn set_of<'t>(numbers: &[u64], faults: &'t Faults) -> Result<FailingTrie<'t>, AllocError> {
    let hasher = FlooredBuild::new(3, &faults.counts);
    let mut set = HashTrieSet::new_with_hasher_and_degree(&faults.alloc, hasher, 4);
    for number in numbers {
        set.extend([FailingItem::new(*number, &faults.counts)])?;
    }
    Ok(set)
}

// Puts into the set's place what one of these calls makes of it and of another set.
fn combine<'t>(
    set: &mut FailingTrie<'t>,
    call: SetCall,
    number: u64,
    faults: &'t Faults,
) -> Result<bool, AllocError> {
    let other = set_of(&[number, 77], faults)?;
    *set = match call {
        SetCall::Union => set.union(&other)?,
        SetCall::SymmetricDifference => set.symmetric_difference(&other)?,
        SetCall::Intersection => set.intersection(&other)?,
        _ => set.difference(&other)?,
    };
    Ok(true)
}

impl<'t> Subject<'t, Tests, SetCall> for FailingTrie<'t> {
    fn start(_variant: u8, faults: &'t Faults) -> Result<Self, AllocError> {
        set_of(&[], faults)
    }

    fn share(&mut self, _faults: &'t Faults) -> Result<Option<Self>, AllocError> {
        Ok(Some(self.clone()?))
    }

    fn is_as(&self, twin: &Self, _faults: &'t Faults) -> bool {
        *self == *twin
    }

    // The hasher too.
    fn held(&self) -> Option<u64> {
        Some((self.size() as u64).wrapping_add(1))
    }

    fn perform(
        &mut self,
        call: SetCall,
        number: u64,
        faults: &'t Faults,
    ) -> Result<bool, AllocError> {
        match call {
            SetCall::Extend => always_true(self.extend([FailingItem::new(number, &faults.counts)])),
            SetCall::Retain => always_true(self.retain(|member| member.number != number)),
            SetCall::RetainMost => {
                always_true(self.retain(|member| !is_of_hundred(member.number)))
            }
            _ => combine(self, call, number, faults),
        }
    }
}

const RECEIVERS: &[Receiver<'static>] = receivers![
    &[],
    &[1, 2, 3, 4, 20, 36, 255],
    &[1, 2, 3, 4, 5, 6, 7, 8, 9, 20, 36, 255]
];

const PLAN: Plan<'static, SetCall> = Plan {
    put: SetCall::Extend,
    receivers: RECEIVERS,
    numbers: &[2, 20, 52],
    calls: &[
        SetCall::Extend,
        SetCall::Retain,
        SetCall::Union,
        SetCall::SymmetricDifference,
        SetCall::Intersection,
        SetCall::Difference,
    ],
    never_refused: &[],
    empty_without_memory: &[0],
    without_memory: &[],
    limits: &[(LARGE, ROWS)],
};

const LARGE: LargeContainer = LargeContainer {
    variant: 0,
    count: 10_000,
    step: 1,
    limit: 10_000,
};

// The bytes of a branch of four children, and of a member.
const BRANCH: u64 = 80 + 4 * 8;

const MEMBER: u64 = 24 + 16;

// The path of a member has eight branches at most and a leaf, two requests for each; a new one may need one more.
const PATH: u64 = 9 * BRANCH;

// What the other set of two members takes: each of them, its leaf, and a branch over both, where the first leaf is made again.
const OTHER: u64 = 2 * MEMBER + 4 * BRANCH;

const ROWS: &[MemoryRow<'static, SetCall>] = &[
    memory!(Shared, calls: &[SetCall::Extend], at: &[9_000, 10_001],
        requests: 21, bytes: PATH + BRANCH + MEMBER),
    memory!(Shared, calls: &[SetCall::Retain], at: &[9_000], requests: 18, bytes: PATH),
    // Each branch above a member that goes is copied once.
    memory!(Shared, calls: &[SetCall::RetainMost], at: &[7],
        requests: 2 * ABOVE_HUNDRED, bytes: ABOVE_HUNDRED * BRANCH),
    // A walk over the other set alone: two leaves and a branch over them.
    memory!(Shared, calls: &[SetCall::Intersection], at: &[9_000],
        requests: 10 + 6, bytes: OTHER + 3 * BRANCH),
    memory!(Shared, calls: &[SetCall::Union, SetCall::Difference], at: &[9_000, 10_001],
        requests: 10 + 40, bytes: OTHER + 20 * BRANCH),
    memory!(Shared, calls: &[SetCall::SymmetricDifference], at: &[9_000, 10_001],
        requests: 10 + 60, bytes: OTHER + 30 * BRANCH),
];

#[test]
fn calls(rt: HostRuntime) {
    let faults = Faults::new(rt.alloc());
    check_calls::<Tests, SetCall, FailingTrie>(&faults, &PLAN).expect(&rt, "each call");
}
