use crate::Tests;
use crate::red_black_tree_map::{FailingMap, MapCall, MapChanged, MapMade};
use crate::red_black_tree_set::{FailingSet, SetCall, SetChanged, SetMade};
use rpds_core::steps::Steps;
use rpds_faults::{FailingItem, Faults};
use rpds_refusals::alike::{Keyed, check_alike};
use rpds_refusals::call::Call::{Changed, Made};

impl<'t> Keyed<'t, Tests, SetCall> for FailingSet<'t> {
    fn size(&self) -> usize {
        self.size()
    }

    fn agrees(&self) -> bool {
        let size = self.size();
        let is_sized = self.is_empty() == (size == 0)
            && self.iter().size_hint() == (size, Some(size));
        is_sized && self.first() == self.iter().next() && self.last() == self.iter().next_back()
    }

    fn found(&self, key: &FailingItem<'t>) -> [bool; 3] {
        let found = self.get(key);
        let counted = self.get_counted(key, &mut Steps::new());
        [self.contains(key), found.is_some(), found == counted]
    }

    fn at(&self, place: usize) -> Option<&FailingItem<'t>> {
        self.iter().nth(place)
    }
}

impl<'t> Keyed<'t, Tests, MapCall> for FailingMap<'t> {
    fn size(&self) -> usize {
        self.size()
    }

    fn agrees(&self) -> bool {
        let size = self.size();
        self.is_empty() == (size == 0) && self.keys().size_hint() == (size, Some(size))
    }

    fn found(&self, key: &FailingItem<'t>) -> [bool; 3] {
        let found = self.get_key_value(key).map(|pair| pair.0);
        let counted = self.get_counted(key, &mut Steps::new()).map(|pair| pair.0);
        [self.contains_key(key), found.is_some(), found == counted]
    }

    fn at(&self, place: usize) -> Option<&FailingItem<'t>> {
        self.keys().nth(place)
    }
}

// The same calls of a set and of a map.
const CALLS: &[(SetCall, MapCall)] = &[
    (Made(SetMade::Insert), Made(MapMade::Insert)),
    (Made(SetMade::InsertCounted), Made(MapMade::InsertCounted)),
    (Made(SetMade::Remove), Made(MapMade::Remove)),
    (Made(SetMade::RemoveCounted), Made(MapMade::RemoveCounted)),
    (
        Changed(SetChanged::InsertMut),
        Changed(MapChanged::InsertMut),
    ),
    (
        Changed(SetChanged::InsertMutCounted),
        Changed(MapChanged::InsertMutCounted),
    ),
    (
        Changed(SetChanged::RemoveMut),
        Changed(MapChanged::RemoveMut),
    ),
    (
        Changed(SetChanged::RemoveMutCounted),
        Changed(MapChanged::RemoveMutCounted),
    ),
];

// Among so few as two, both are empty at times.
#[test]
fn a_set_agrees_with_a_map(rt: HostRuntime) {
    let faults = Faults::new(rt.alloc());
    for limit in [64, 2] {
        check_alike::<Tests, SetCall, MapCall, FailingSet, FailingMap>(
            &faults, 0, CALLS, limit,
        ).expect(&rt, "each call");
    }
}
