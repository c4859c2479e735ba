// A run of random calls against a plain `Vec`, by each call that does the same.
use crate::values::sequence::support::assert_items;
use rpds_core::steps::Steps;
use rpds_faults::Numbers;
use rpds_refusals::answer::{put_if_some, put_in_place, write_number, write_number_if_lent};
use rpds_sequence::sequence::Sequence;
use std::alloc::{AllocError, Global};
use std::ops::Range;
use std::process::Abort;

// Makes the call of this number at an index, and tells whether there was something to change: the first four put the item in, the
// next eight write it, and the others take out what is there.
fn change_by(
    sequence: &mut Sequence<u64>,
    call: u64,
    index: usize,
    item: u64,
) -> Result<bool, AllocError> {
    let steps = &mut Steps::new();
    match call {
        0 => {
            let made = sequence.insert(index, item);
            put_if_some(sequence, made)
        }
        1 => {
            let made = sequence.insert_counted(index, item, steps);
            put_if_some(sequence, made)
        }
        2 => sequence.insert_mut_counted(index, item, steps),
        3 => sequence.insert_mut(index, item),
        4 => {
            let made = sequence.set(index, item);
            put_if_some(sequence, made)
        }
        5 => {
            let made = sequence.set_counted(index, item, steps);
            put_if_some(sequence, made)
        }
        6 => sequence.set_mut_counted(index, item, steps),
        7 => sequence.set_mut(index, item),
        8 => {
            let made = sequence.update(index, |_| Ok(item));
            put_if_some(sequence, made)
        }
        9 => sequence.update_mut(index, |_| Ok(item)),
        10 => Ok(write_number(sequence.get_mut(index)?, item)),
        11 => write_number_if_lent(sequence.item_mut(index), item),
        12 => {
            let made = sequence.remove(index);
            put_if_some(sequence, made)
        }
        13 => {
            let made = sequence.remove_counted(index, steps);
            put_if_some(sequence, made)
        }
        14 => sequence.remove_mut_counted(index, steps),
        _ => sequence.remove_mut(index),
    }
}

// One call at a place on both.
fn change_item(
    rt: &impl Abort,
    sequence: &mut Sequence<u64>,
    plain: &mut Vec<u64>,
    numbers: &mut Numbers,
) -> Result<(), AllocError> {
    let item = numbers.next() % 1_000_000;
    let index = (numbers.next() % (plain.len() as u64).wrapping_add(2).max(1)) as usize;
    let call = numbers.next() % 16;
    let done = change_by(sequence, call, index, item)?;
    if call < 4 {
        assert!(rt; done == (index <= plain.len()));
        if done {
            plain.insert(index, item)?;
        }
        return Ok(());
    }
    assert!(rt; done == (index < plain.len()));
    if done && call < 12 {
        plain[index] = item;
    } else if done {
        plain.remove(index);
    }
    Ok(())
}

// What a pop hands out: the item is given back, and the rest takes the sequence's place.
fn put_rest(sequence: &mut Sequence<u64>, popped: Option<(u64, Sequence<u64>)>) -> Option<u64> {
    let (item, rest) = popped?;
    *sequence = rest;
    Some(item)
}

// The item of a pop by itself.
fn own(popped: Option<(&u64, Sequence<u64>)>) -> Option<(u64, Sequence<u64>)> {
    let (item, rest) = popped?;
    Some((*item, rest))
}

// The item at an end, which is taken out.
fn pop_by(sequence: &mut Sequence<u64>, call: u64) -> Result<Option<u64>, AllocError> {
    let steps = &mut Steps::new();
    let popped = match call {
        6 => own(sequence.pop_front()?),
        7 => own(sequence.pop_front_counted(steps)?),
        8 => own(sequence.pop_back()?),
        _ => own(sequence.pop_back_counted(steps)?),
    };
    Ok(put_rest(sequence, popped))
}

// The sequence with the item at an end.
fn pushed_by(sequence: &Sequence<u64>, call: u64, item: u64) -> Result<Sequence<u64>, AllocError> {
    let steps = &mut Steps::new();
    match call {
        0 => sequence.push_front(item),
        1 => sequence.push_front_counted(item, steps),
        3 => sequence.push_back(item),
        _ => sequence.push_back_counted(item, steps),
    }
}

fn push_by(sequence: &mut Sequence<u64>, call: u64, item: u64) -> Result<(), AllocError> {
    match call {
        2 => sequence.push_front_mut(item),
        5 => sequence.push_back_mut(item),
        _ => {
            let made = pushed_by(sequence, call, item);
            put_in_place(sequence, made)?;
            Ok(())
        }
    }
}

// One call at an end on both.
fn change_end(
    rt: &impl Abort,
    sequence: &mut Sequence<u64>,
    plain: &mut Vec<u64>,
    numbers: &mut Numbers,
) -> Result<(), AllocError> {
    let item = numbers.next() % 1_000_000;
    let call = numbers.next() % 10;
    match call {
        0..=2 => {
            push_by(sequence, call, item)?;
            plain.insert(0, item)?;
            Ok(())
        }
        3..=5 => {
            push_by(sequence, call, item)?;
            plain.push(item)?;
            Ok(())
        }
        6 | 7 => {
            let first = if plain.is_empty() {
                None
            } else {
                Some(plain.remove(0))
            };
            assert!(rt; pop_by(sequence, call)? == first);
            Ok(())
        }
        _ => {
            assert!(rt; pop_by(sequence, call)? == plain.pop());
            Ok(())
        }
    }
}

// Puts the items from one place up to another behind those of a list, as far as there are such.
fn push_stretch(
    items: &mut Vec<u64>,
    plain: &[u64],
    start: usize,
    end: usize,
) -> Result<(), AllocError> {
    for index in start..end {
        if let Some(item) = plain.get(index) {
            items.push(*item)?;
        }
    }
    Ok(())
}

// The same, the last item first.
fn push_turned(
    items: &mut Vec<u64>,
    plain: &[u64],
    start: usize,
    end: usize,
) -> Result<(), AllocError> {
    for index in (start..end).rev() {
        if let Some(item) = plain.get(index) {
            items.push(*item)?;
        }
    }
    Ok(())
}

// Those that aren't divisible by 3.
fn push_chosen(items: &mut Vec<u64>, plain: &[u64]) -> Result<(), AllocError> {
    for item in plain {
        if *item % 3 != 0 {
            items.push(*item)?;
        }
    }
    Ok(())
}

// The half of each.
fn push_halves(items: &mut Vec<u64>, plain: &[u64]) -> Result<(), AllocError> {
    for item in plain {
        items.push(*item / 2)?;
    }
    Ok(())
}

// What the call of this number makes of a sequence: cut, and put together in another way.
fn whole_by(
    sequence: &Sequence<u64>,
    call: u64,
    range: Range<usize>,
) -> Result<Sequence<u64>, AllocError> {
    match call {
        0 => {
            let (first, second) = sequence.split_at(range.start)?;
            second.append(&first)
        }
        1 => sequence.slice(range),
        2 => sequence.without_range(range),
        3 => {
            let other = sequence.slice(range.start..range.end)?.reverse()?;
            sequence.splice(range, &other)
        }
        4 => {
            let more = sequence.slice(range)?;
            let mut longer = sequence.clone()?;
            longer.extend(more.iter().copied())?;
            Ok(longer)
        }
        5 => {
            let mut fewer = sequence.clone()?;
            fewer.retain(|item| *item % 3 != 0)?;
            Ok(fewer)
        }
        6 => sequence.map(|item| Ok(*item / 2)),
        7 => Sequence::from_iter(
            *sequence.allocator(),
            sequence.iter_from(range.start).copied(),
        ),
        _ => sequence.reverse(),
    }
}

// The same of a list.
fn plain_by(
    alloc: Global,
    plain: &[u64],
    call: u64,
    start: usize,
    end: usize,
) -> Result<Vec<u64>, AllocError> {
    let len = plain.len();
    let mut items = Vec::new(alloc);
    match call {
        0 => {
            push_stretch(&mut items, plain, start, len)?;
            push_stretch(&mut items, plain, 0, start)?;
        }
        1 => push_stretch(&mut items, plain, start, end)?,
        2 => {
            push_stretch(&mut items, plain, 0, start)?;
            push_stretch(&mut items, plain, start.max(end), len)?;
        }
        3 => {
            push_stretch(&mut items, plain, 0, start)?;
            push_turned(&mut items, plain, start, end)?;
            push_stretch(&mut items, plain, start.max(end), len)?;
        }
        4 => {
            push_stretch(&mut items, plain, 0, len)?;
            push_stretch(&mut items, plain, start, end)?;
        }
        5 => push_chosen(&mut items, plain)?,
        6 => push_halves(&mut items, plain)?,
        7 => push_stretch(&mut items, plain, start, len)?,
        _ => push_turned(&mut items, plain, 0, len)?,
    }
    Ok(items)
}

// One call on both as wholes.
fn change_whole(
    sequence: &mut Sequence<u64>,
    plain: &mut Vec<u64>,
    numbers: &mut Numbers,
) -> Result<(), AllocError> {
    let bound = (plain.len() as u64).wrapping_add(3);
    let start = (numbers.next() % bound.max(1)) as usize;
    let end = (numbers.next() % bound.max(1)) as usize;
    let call = numbers.next() % 9;
    *plain = plain_by(*sequence.allocator(), plain.as_slice(), call, start, end)?;
    let made = whole_by(sequence, call, start..end);
    put_in_place(sequence, made)?;
    Ok(())
}

// Sixty calls on both.
fn change_both(
    rt: &impl Abort,
    sequence: &mut Sequence<u64>,
    plain: &mut Vec<u64>,
    numbers: &mut Numbers,
) {
    for _ in 0..50u32 {
        change_item(rt, sequence, plain, numbers).expect(rt, "ample memory");
    }
    for _ in 0..6u32 {
        change_end(rt, sequence, plain, numbers).expect(rt, "ample memory");
    }
    for _ in 0..4u32 {
        change_whole(sequence, plain, numbers).expect(rt, "ample memory");
    }
}

// Brings both to a length: what goes above it is cut off, and what is missing is put behind.
fn set_len(
    sequence: &mut Sequence<u64>,
    plain: &mut Vec<u64>,
    len: usize,
) -> Result<(), AllocError> {
    sequence.truncate(len)?;
    plain.truncate(len);
    let missing = len.saturating_sub(plain.len()) as u64;
    sequence.extend(0..missing)?;
    for item in 0..missing {
        plain.push(item)?;
    }
    Ok(())
}

// A round of calls. All items are looked at after it, and so are those of the version before it.
fn run_round(
    rt: &impl Abort,
    sequence: &mut Sequence<u64>,
    plain: &mut Vec<u64>,
    numbers: &mut Numbers,
) {
    let version = sequence.clone().expect(rt, "ample memory");
    let before = plain.clone().expect(rt, "ample memory");
    change_both(rt, sequence, plain, numbers);
    assert_items(rt, sequence, plain.as_slice());
    assert_items(rt, &version, before.as_slice());
}

// Rounds of calls, each of which begins with so many items.
fn run(rt: &impl Abort, alloc: Global, len: usize, rounds: u32) {
    let mut sequence = Sequence::new(alloc);
    let mut plain = Vec::new(alloc);
    let mut numbers = Numbers::new();
    for _ in 0..rounds {
        set_len(&mut sequence, &mut plain, len).expect(rt, "ample memory");
        run_round(rt, &mut sequence, &mut plain, &mut numbers);
    }
}

#[test]
fn agrees_with_a_vec(rt: HostRuntime) {
    for len in [0, 20, 700] {
        run(&rt, rt.alloc(), len, 20);
    }
}

#[test]
fn agrees_with_a_long_vec(rt: HostRuntime) {
    run(&rt, rt.alloc(), 4_000, 4);
}
