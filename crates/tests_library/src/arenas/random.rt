//! Long runs of calls beside std's `Vec`.
use rpds_arena::arena::Arena;
use rpds_arena::interner::Interner;
use rpds_faults::Numbers;
use std::process::Abort;

// What each item comes to, by a loop: the sum of it and of all before it.
fn sums(rt: &impl Abort, alloc: std::alloc::Global, items: &[u64]) -> Vec<u64> {
    let mut sums = Vec::new(alloc);
    let mut sum = 0u64;
    for item in items {
        sum = sum.wrapping_add(*item);
        sums.push(sum).expect(rt, "ample memory");
    }
    sums
}

fn assert_fold(rt: &impl Abort, alloc: std::alloc::Global, arena: &Arena<u64>, items: &[u64]) {
    let all = arena
        .fold(|older: &[u64], item: &u64| older.last().copied().unwrap_or(0).wrapping_add(*item))
        .expect(rt, "ample memory");
    assert!(rt; all.as_slice() == sums(rt, alloc, items).as_slice());
}

// The arena has these items, by each look-up.
fn assert_same(rt: &impl Abort, arena: &Arena<u64>, items: &[u64]) {
    assert!(rt; arena.len() == items.len() && arena.is_empty() == items.is_empty());
    for (number, item) in items.iter().enumerate() {
        let id = arena.id_at(number).expect(rt, "an item");
        assert!(rt; id.number() == number && arena.get(id) == Some(item));
    }
    assert!(rt; arena.id_at(items.len()).is_none() && arena.id_at(usize::MAX).is_none());
    assert!(rt; arena.iter().eq(items.iter()));
}

// The older version has no item where the newer one has its last.
fn assert_absent(rt: &impl Abort, older: &Arena<u64>, newer: &Arena<u64>) {
    let id = newer
        .id_at(newer.len().saturating_sub(1))
        .expect(rt, "an item");
    assert!(rt; older.get(id).is_none() && newer.get(id).is_some());
}

// Puts fifty numbers into both.
fn put(rt: &impl Abort, arena: &mut Arena<u64>, items: &mut Vec<u64>, numbers: &mut Numbers) {
    for _ in 0..50u64 {
        let item = numbers.next();
        let id = arena.put(item).expect(rt, "ample memory");
        assert!(rt; id.number() == items.len());
        items.push(item).expect(rt, "ample memory");
    }
}

// A version from before some calls has the items that it had.
#[test]
fn an_arena_agrees_with_a_vec(rt: HostRuntime) {
    let mut numbers = Numbers::new();
    let mut arena = Arena::new(rt.alloc());
    let mut items = Vec::new(rt.alloc());
    for _ in 0..30u64 {
        let older = arena.clone().expect(&rt, "ample memory");
        let before = items.clone().expect(&rt, "ample memory");
        put(&rt, &mut arena, &mut items, &mut numbers);
        assert_same(&rt, &arena, &items);
        assert_same(&rt, &older, &before);
        assert_absent(&rt, &older, &arena);
        assert_fold(&rt, rt.alloc(), &arena, &items);
    }
}

// Interns fifty numbers below `bound`, and keeps in `values` those that came first.
fn intern(
    rt: &impl Abort,
    interner: &mut Interner<u64>,
    values: &mut Vec<u64>,
    numbers: &mut Numbers,
    bound: u64,
) {
    for _ in 0..50u64 {
        let value = numbers.next() % bound.max(1);
        let place = values.iter().position(|x| *x == value);
        assert!(rt; interner.id_of(&value).map(|id| id.number()) == place);
        let id = interner.intern(value).expect(rt, "ample memory");
        assert!(rt; id.number() == place.unwrap_or(values.len()));
        if place.is_none() {
            values.push(value).expect(rt, "ample memory");
        }
    }
}

#[test]
fn an_interner_numbers_values_as_they_come(rt: HostRuntime) {
    let mut numbers = Numbers::new();
    let mut interner = Interner::new(rt.alloc());
    let mut values = Vec::new(rt.alloc());
    for turn in 0..20u64 {
        let older = interner.clone().expect(&rt, "ample memory");
        let before = values.clone().expect(&rt, "ample memory");
        intern(&rt, &mut interner, &mut values, &mut numbers, 20 * turn);
        assert_same(&rt, interner.arena(), &values);
        assert_same(&rt, older.arena(), &before);
    }
}
