use crate::Tests;
use crate::refused::hash_trie_map::{FailingMap, MapCall, MapChanged, MapMade};
use crate::refused::hash_trie_set::{FailingSet, SetCall, SetChanged, SetMade};
use rpds_core::steps::Steps;
use rpds_faults::{FailingItem, Faults};
use rpds_refusals::alike::{Keyed, check_alike};
use rpds_refusals::call::Call::{Changed, Made};

impl<'t> Keyed<'t, Tests, SetCall> for FailingSet<'t> {
    fn size(&self) -> usize {
        self.size()
    }

    fn agrees(&self) -> bool {
        let size = self.size();
        self.is_empty() == (size == 0) && self.iter().size_hint() == (size, Some(size))
    }

    fn found(&self, key: &FailingItem<'t>) -> [bool; 3] {
        let found = self.get(key);
        let counted = self.get_counted(key, &mut Steps::new());
        [self.contains(key), found.is_some(), found == counted]
    }

    fn at(&self, place: usize) -> Option<&FailingItem<'t>> {
        self.iter().nth(place)
    }
}

impl<'t> Keyed<'t, Tests, MapCall> for FailingMap<'t> {
    fn size(&self) -> usize {
        self.size()
    }

    fn agrees(&self) -> bool {
        let size = self.size();
        self.is_empty() == (size == 0) && self.keys().size_hint() == (size, Some(size))
    }

    fn found(&self, key: &FailingItem<'t>) -> [bool; 3] {
        let found = self.get_key_value(key).map(|pair| pair.0);
        let counted = self.get_counted(key, &mut Steps::new()).map(|pair| pair.0);
        [self.contains_key(key), found.is_some(), found == counted]
    }

    fn at(&self, place: usize) -> Option<&FailingItem<'t>> {
        self.keys().nth(place)
    }
}

// The same calls of a set and of a map.
const CALLS: &[(SetCall, MapCall)] = &[
    (Made(SetMade::Insert), Made(MapMade::Insert)),
    (Made(SetMade::Remove), Made(MapMade::Remove)),
    (
        Changed(SetChanged::InsertMut),
        Changed(MapChanged::InsertMut),
    ),
    (
        Changed(SetChanged::RemoveMut),
        Changed(MapChanged::RemoveMut),
    ),
];

// Four numbers have one hash, and those of the others have up to three digits at degree 4. Among so few as two, both are empty at
// times.
#[test]
fn a_set_agrees_with_a_map(rt: HostRuntime) {
    let faults = Faults::new(rt.alloc());
    for limit in [40, 2] {
        check_alike::<Tests, SetCall, MapCall, FailingSet, FailingMap>(
            &faults, 4, CALLS, limit,
        ).expect(&rt, "each call");
    }
}
