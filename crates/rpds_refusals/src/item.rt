//! Items that are put in together.
use rpds_faults::{FailingItem, LifeCounts};

/// Three items.
pub fn three<'t>(counts: &'t LifeCounts) -> [FailingItem<'t>; 3] {
    [
        FailingItem::new(1, counts),
        FailingItem::new(2, counts),
        FailingItem::new(3, counts),
    ]
}

/// Five items.
pub fn five<'t>(counts: &'t LifeCounts) -> [FailingItem<'t>; 5] {
    [
        FailingItem::new(5, counts),
        FailingItem::new(6, counts),
        FailingItem::new(7, counts),
        FailingItem::new(8, counts),
        FailingItem::new(9, counts),
    ]
}

/// A key and its value.
pub fn pair<'t>(number: u64, counts: &'t LifeCounts) -> (FailingItem<'t>, FailingItem<'t>) {
    (
        FailingItem::new(number, counts),
        FailingItem::new(number, counts),
    )
}
