// Worked examples: at each edge of an index and of a range, and what is written.
use crate::values::sequence::support::{assert_items, counting};
use rpds_refusals::answer::write_number_if_lent;
use rpds_sequence::sequence::Sequence;
use std::alloc::{AllocError, Global};
use std::process::Abort;

// A change at an index: a 9 is put in, or takes the place of the item there, or that item is taken out.
#[derive(Clone, Copy)]
enum Change {
    Insert,
    Set,
    Update,
    Lend,
    Remove,
}

const WRITES: &[Change] = &[Change::Set, Change::Update, Change::Lend];

const ALL: &[u64] = &[0, 1, 2];

// Changes, an index, and what each of them makes of 0, 1, 2: nothing where there is no such place or item.
const CHANGES: [(&[Change], usize, Option<&[u64]>); 14] = [
    (&[Change::Insert], 0, Some(&[9, 0, 1, 2])),
    (&[Change::Insert], 1, Some(&[0, 9, 1, 2])),
    (&[Change::Insert], 2, Some(&[0, 1, 9, 2])),
    (&[Change::Insert], 3, Some(&[0, 1, 2, 9])),
    (&[Change::Insert], 4, None),
    (&[Change::Insert], usize::MAX, None),
    (WRITES, 0, Some(&[9, 1, 2])),
    (WRITES, 2, Some(&[0, 1, 9])),
    (WRITES, 3, None),
    (WRITES, usize::MAX, None),
    (&[Change::Remove], 0, Some(&[1, 2])),
    (&[Change::Remove], 2, Some(&[0, 1])),
    (&[Change::Remove], 3, None),
    (&[Change::Remove], usize::MAX, None),
];

fn change_in_place(
    sequence: &mut Sequence<u64>,
    kind: Change,
    index: usize,
) -> Result<bool, AllocError> {
    match kind {
        Change::Insert => sequence.insert_mut(index, 9),
        Change::Set => sequence.set_mut(index, 9),
        Change::Update => sequence.update_mut(index, |_| Ok(9)),
        Change::Lend => write_number_if_lent(sequence.item_mut(index), 9),
        Change::Remove => sequence.remove_mut(index),
    }
}

// The same as another sequence. An item is lent out of another handle.
fn changed(
    sequence: &Sequence<u64>,
    kind: Change,
    index: usize,
) -> Result<Option<Sequence<u64>>, AllocError> {
    match kind {
        Change::Insert => sequence.insert(index, 9),
        Change::Set => sequence.set(index, 9),
        Change::Update => sequence.update(index, |_| Ok(9)),
        Change::Lend => lent(sequence, index),
        Change::Remove => sequence.remove(index),
    }
}

fn lent(sequence: &Sequence<u64>, index: usize) -> Result<Option<Sequence<u64>>, AllocError> {
    let mut copy = sequence.clone()?;
    if change_in_place(&mut copy, Change::Lend, index)? {
        Ok(Some(copy))
    } else {
        Ok(None)
    }
}

// There is such a sequence, of these items.
fn assert_made(rt: &impl Abort, made: Option<Sequence<u64>>, wanted: Option<&[u64]>) {
    match (made, wanted) {
        (Some(made), Some(wanted)) => assert_items(rt, &made, wanted),
        (None, None) => {}
        _ => rt.abort(),
    }
}

// A change makes this of 0, 1, 2, first as another sequence, and then in place.
fn assert_change(
    rt: &impl Abort,
    alloc: Global,
    kind: Change,
    index: usize,
    wanted: Option<&[u64]>,
) {
    let mut sequence = counting(alloc, 3).expect(rt, "ample memory");
    let made = changed(&sequence, kind, index).expect(rt, "ample memory");
    assert_made(rt, made, wanted);
    assert_items(rt, &sequence, ALL);
    let done = change_in_place(&mut sequence, kind, index).expect(rt, "ample memory");
    assert!(rt; done == wanted.is_some());
    assert_items(rt, &sequence, wanted.unwrap_or(ALL));
}

#[test]
fn changes_at_an_index(rt: HostRuntime) {
    for (changes, index, wanted) in CHANGES {
        for kind in changes {
            assert_change(&rt, rt.alloc(), *kind, index, wanted);
        }
    }
}

// A place, and what lies before it and behind it in 0, 1, 2.
const CUTS: [(usize, &[u64], &[u64]); 5] = [
    (0, &[], &[0, 1, 2]),
    (2, &[0, 1], &[2]),
    (3, &[0, 1, 2], &[]),
    (4, &[0, 1, 2], &[]),
    (usize::MAX, &[0, 1, 2], &[]),
];

// These items lie before the place, by each call that hands them out.
fn assert_before(rt: &impl Abort, sequence: &Sequence<u64>, place: usize, wanted: &[u64]) {
    let before = sequence.take(place).expect(rt, "ample memory");
    assert_items(rt, &before, wanted);
    let first = sequence.slice(0..place).expect(rt, "ample memory");
    assert_items(rt, &first, wanted);
    let mut left = sequence.clone().expect(rt, "ample memory");
    left.truncate(place).expect(rt, "ample memory");
    assert_items(rt, &left, wanted);
}

// These lie behind it.
fn assert_behind(rt: &impl Abort, sequence: &Sequence<u64>, place: usize, wanted: &[u64]) {
    let behind = sequence.skip(place).expect(rt, "ample memory");
    assert_items(rt, &behind, wanted);
    let last = sequence.slice(place..usize::MAX).expect(rt, "ample memory");
    assert_items(rt, &last, wanted);
}

fn assert_cut(
    rt: &impl Abort,
    sequence: &Sequence<u64>,
    place: usize,
    before: &[u64],
    behind: &[u64],
) {
    let (first, second) = sequence.split_at(place).expect(rt, "ample memory");
    assert_items(rt, &first, before);
    assert_items(rt, &second, behind);
    assert_before(rt, sequence, place, before);
    assert_behind(rt, sequence, place, behind);
}

#[test]
fn cuts(rt: HostRuntime) {
    let sequence = counting(rt.alloc(), 3).expect(&rt, "ample memory");
    for (place, before, behind) in CUTS {
        assert_cut(&rt, &sequence, place, before, behind);
    }
}

// Where a range starts and ends, what it has, and what is left without it.
const RANGES: [(usize, usize, &[u64], &[u64]); 11] = [
    (0, 0, &[], &[0, 1, 2, 3]),
    (0, 4, &[0, 1, 2, 3], &[]),
    (0, 9, &[0, 1, 2, 3], &[]),
    (1, 3, &[1, 2], &[0, 3]),
    (3, 4, &[3], &[0, 1, 2]),
    (3, 1, &[], &[0, 1, 2, 3]),
    (4, 4, &[], &[0, 1, 2, 3]),
    (7, 9, &[], &[0, 1, 2, 3]),
    (1, usize::MAX, &[1, 2, 3], &[0]),
    (usize::MAX, 0, &[], &[0, 1, 2, 3]),
    (usize::MAX, usize::MAX, &[], &[0, 1, 2, 3]),
];

// A range has these items, and these are left without it.
fn assert_range(
    rt: &impl Abort,
    sequence: &Sequence<u64>,
    range: (usize, usize),
    inside: &[u64],
    left: &[u64],
) {
    let (start, end) = range;
    let part = sequence.slice(start..end).expect(rt, "ample memory");
    assert_items(rt, &part, inside);
    let rest = sequence
        .without_range(start..end)
        .expect(rt, "ample memory");
    assert_items(rt, &rest, left);
}

#[test]
fn ranges(rt: HostRuntime) {
    let sequence = counting(rt.alloc(), 4).expect(&rt, "ample memory");
    for (start, end, inside, left) in RANGES {
        assert_range(&rt, &sequence, (start, end), inside, left);
    }
}

#[test]
fn a_stretch_in_the_place_of_another(rt: HostRuntime) {
    let sequence = counting(rt.alloc(), 4).expect(&rt, "ample memory");
    let other = Sequence::from_iter(rt.alloc(), [7, 8]).expect(&rt, "ample memory");
    let spliced = sequence.splice(1..3, &other).expect(&rt, "ample memory");
    assert_items(&rt, &spliced, &[0, 7, 8, 3]);
    let put_in = sequence.splice(2..2, &other).expect(&rt, "ample memory");
    assert_items(&rt, &put_in, &[0, 1, 7, 8, 2, 3]);
    let put_last = sequence
        .splice(usize::MAX..0, &other)
        .expect(&rt, "ample memory");
    assert_items(&rt, &put_last, &[0, 1, 2, 3, 7, 8]);
}

#[test]
fn text(rt: HostRuntime) {
    let sequence = counting(rt.alloc(), 3).expect(&rt, "ample memory");
    let text = format!(in rt.alloc(); "{sequence} {sequence:?} {sequence:#?}");
    let text = text.expect(&rt, "ample memory");
    assert!(rt; text.as_str() == "[0, 1, 2] [0, 1, 2] [\n    0,\n    1,\n    2,\n]");
}

// So many items that a call for each would need more stack than tests have, where they are let go.
fn many(alloc: Global) -> Result<(Option<u64>, usize), AllocError> {
    let mut sequence = counting(alloc, 100_000)?;
    sequence.insert_mut(50_000, 7)?;
    let (first, second) = sequence.split_at(25_000)?;
    let turned = second.append(&first)?;
    Ok((turned.get(25_000).copied(), turned.len()))
}

#[test]
fn many_items(rt: HostRuntime) {
    let found = many(rt.alloc()).expect(&rt, "ample memory");
    assert!(rt; found == (Some(7), 100_001));
}
