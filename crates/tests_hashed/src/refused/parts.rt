//! What the maps are made of: sparse arrays and entries.
use crate::Tests;
use rpds_core::map::entry::Entry;
use rpds_faults::{FailingAllocator, FailingItem, Faults};
use rpds_hash::map::sparse_array_usize::SparseArrayUsize;
use rpds_refusals::plan::Plan;
use rpds_refusals::receivers;
use rpds_refusals::refused::check_refused;
use rpds_refusals::subject::Subject;
use std::alloc::AllocError;
use std::process::Abort;

// The calls of both.
#[derive(Clone, Copy, Debug)]
enum PartsCall {
    Set,
    CloneArray,
    CloneEntry,
}

// A sparse array and an entry.
#[derive(Drop)]
struct Parts<'t> {
    array: SparseArrayUsize<FailingItem<'t>, &'t FailingAllocator>,
    entry: Entry<FailingItem<'t>, FailingItem<'t>>,
}

impl<'t> Subject<'t, Tests, PartsCall> for Parts<'t> {
    fn start(_variant: u8, faults: &'t Faults) -> Result<Self, AllocError> {
        let counts = &faults.counts;
        Ok(Parts {
            array: SparseArrayUsize::new(&faults.alloc),
            entry: Entry::new(FailingItem::new(1, counts), FailingItem::new(2, counts)),
        })
    }

    fn share(&mut self, _faults: &'t Faults) -> Result<Option<Self>, AllocError> {
        let array = self.array.clone()?;
        let entry = self.entry.clone()?;
        Ok(Some(Parts { array, entry }))
    }

    fn is_as(&self, twin: &Self, _faults: &'t Faults) -> bool {
        for place in 0..64 {
            if self.array.get(place) != twin.array.get(place) {
                return false;
            }
        }
        self.entry.key == twin.entry.key && self.entry.value == twin.entry.value
    }

    fn held(&self) -> Option<u64> {
        Some((self.array.size() as u64).wrapping_add(2))
    }

    // The item at a place tells how many there were.
    fn perform(
        &mut self,
        call: PartsCall,
        number: u64,
        faults: &'t Faults,
    ) -> Result<bool, AllocError> {
        match call {
            PartsCall::Set => {
                let item = FailingItem::new(self.array.size() as u64, &faults.counts);
                self.array.set((number % 64) as usize, item)?
            }
            PartsCall::CloneArray => self.array = self.array.clone()?,
            PartsCall::CloneEntry => self.entry = self.entry.clone()?,
        }
        Ok(true)
    }
}

// With items at no place, one, four, seven and 60.
const PLAN: Plan<'static, PartsCall> = Plan {
    put: PartsCall::Set,
    receivers: receivers![
        &[],
        &[0],
        &[0, 1, 2, 3],
        &[0, 1, 2, 3, 4, 5, 6],
        &[
            0, 1, 2, 3, 4, 5, 6, 7, 8, 9, 10, 11, 12, 13, 14, 15, 16, 17, 18, 19, 20, 21, 22, 23,
            24, 25, 26, 27, 28, 29, 30, 31, 32, 33, 34, 35, 36, 37, 38, 39, 40, 41, 42, 43, 44, 45,
            46, 47, 48, 49, 50, 51, 52, 53, 54, 55, 56, 57, 58, 59
        ]
    ],
    numbers: &[0, 4, 63],
    calls: &[PartsCall::Set, PartsCall::CloneArray, PartsCall::CloneEntry],
    never_refused: &[],
    empty_without_memory: &[],
    without_memory: &[],
    limits: &[],
};

#[test]
fn refused(rt: HostRuntime) {
    let faults = Faults::new(rt.alloc());
    check_refused::<Tests, PartsCall, Parts>(&faults, &PLAN).expect(&rt, "each refusal");
}

type FailingArray<'t> = SparseArrayUsize<FailingItem<'t>, &'t FailingAllocator>;

// With items at the places 0, 7 and 14.
fn array_of_three<'t>(rt: &impl Abort, faults: &'t Faults) -> FailingArray<'t> {
    let mut array = SparseArrayUsize::new(&faults.alloc);
    for place in [0usize, 7, 14] {
        assert!(rt; place < 64);
        array
            .set(place, FailingItem::new(1, &faults.counts))
            .expect(rt, "ample memory");
    }
    array
}

fn looks<'t>(array: &FailingArray<'t>) -> bool {
    array.size() == 3
        && array.first().is_some()
        && array.get(7).is_some()
        && array.get(8).is_none()
        && array.iter().count() == 3
}

// A place that has an item takes another one without memory.
#[test]
fn without_memory(rt: HostRuntime) {
    let faults = Faults::new(rt.alloc());
    let mut array = array_of_three(&rt, &faults);
    faults.refuse_next();
    let is_seen = looks(&array) && array.get_mut(7).is_some();
    let is_set = array.set(14, FailingItem::new(9, &faults.counts)).is_ok();
    array.remove(7);
    array.remove(8);
    let is_popped = array.pop().is_some();
    assert!(rt; is_seen && is_set && is_popped && array.size() == 1 && faults.none_came());
}
