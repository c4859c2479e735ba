ghost use Rattle.std.specs.Prelude.{◌≡◌, [], ◌∷◌, IfOk};
ghost use Rattle.rpds_history.specs.HistoryContents.{contents};

use rpds_faults::Numbers;
use rpds_history::history::History;
use std::alloc::{AllocError, Global};
use std::process::Abort;

// The history of 1, 2 and 3, of which the last one is present.
fn one_two_three(alloc: Global) -> Result<History<u64>, AllocError>
    ensures { IfOk result (λ history. history ≡ contents (2 ∷ 1 ∷ []) 3 []) }
{
    let mut history = History::new(alloc, 1)?;
    history.record(2)?;
    history.record(3)?;
    Ok(history)
}

// What a step answers, and where it leads.
fn assert_at(
    rt: &impl Abort,
    answer: Result<bool, AllocError>,
    history: &History<u64>,
    (there, present, before, behind): (bool, u64, usize, usize),
) {
    assert!(rt; answer == Ok(there) && *history.present() == present);
    assert!(rt; history.undo_len() == before && history.redo_len() == behind);
}

fn assert_steps(rt: &impl Abort, history: &mut History<u64>) {
    let answer = history.undo();
    assert_at(rt, answer, history, (true, 2, 1, 1));
    let answer = history.undo();
    assert_at(rt, answer, history, (true, 1, 0, 2));
    let answer = history.undo();
    assert_at(rt, answer, history, (false, 1, 0, 2));
    let answer = history.redo();
    assert_at(rt, answer, history, (true, 2, 1, 1));
}

#[test]
fn steps(rt: HostRuntime) {
    let mut history = one_two_three(rt.alloc()).expect(&rt, "ample memory");
    let answer = history.redo();
    assert_at(&rt, answer, &history, (false, 3, 2, 0));
    assert_steps(&rt, &mut history);
}

// One goes another way, and the other stays as it was.
fn assert_apart(rt: &impl Abort, history: &mut History<u64>, fork: &History<u64>) {
    history.undo().expect(rt, "ample memory");
    history.record(4).expect(rt, "ample memory");
    assert_at(rt, Ok(true), history, (true, 4, 2, 0));
    assert_at(rt, Ok(true), fork, (true, 3, 2, 0));
}

#[test]
fn forked(rt: HostRuntime) {
    let mut history = one_two_three(rt.alloc()).expect(&rt, "ample memory");
    let mut fork = history.fork().expect(&rt, "ample memory");
    assert_apart(&rt, &mut history, &fork);
    assert_steps(&rt, &mut fork);
}

// A plain history: all versions, and the number of the present one.
#[derive(Drop)]
struct Plain {
    versions: Vec<u64>,
    place: usize,
}

fn assert_same(rt: &impl Abort, history: &History<u64>, plain: &Plain) {
    assert!(rt; plain.versions.get(plain.place) == Some(history.present()));
    assert!(rt; history.undo_len() == plain.place && history.len() == plain.versions.len());
}

fn record(rt: &impl Abort, history: &mut History<u64>, plain: &mut Plain, next: u64) {
    history.record(next).expect(rt, "ample memory");
    plain.versions.truncate(plain.place.saturating_add(1));
    plain.versions.push(next).expect(rt, "ample memory");
    plain.place = plain.versions.len().saturating_sub(1);
}

fn go_to(rt: &impl Abort, history: &mut History<u64>, plain: &mut Plain, place: usize) {
    let there = history.go_to(place).expect(rt, "ample memory");
    assert!(rt; there == (place < plain.versions.len()));
    if there {
        plain.place = place;
    }
}

fn limit(rt: &impl Abort, history: &mut History<u64>, plain: &mut Plain, most: usize) {
    history.limit(most).expect(rt, "ample memory");
    for _ in most..plain.place {
        if !plain.versions.is_empty() {
            plain.versions.remove(0);
        }
    }
    plain.place = plain.place.min(most);
}

// One call of both.
fn call(rt: &impl Abort, history: &mut History<u64>, plain: &mut Plain, number: u64) {
    let argument = number / 16;
    match number % 16 {
        0 => limit(rt, history, plain, (argument % 20) as usize),
        1 => {
            history.clear_redo();
            plain.versions.truncate(plain.place.saturating_add(1));
        }
        2 | 3 => go_to(rt, history, plain, (argument % 40) as usize),
        4 | 5 | 6 => {
            let there = history.undo().expect(rt, "ample memory");
            assert!(rt; there == (plain.place > 0));
            plain.place = plain.place.saturating_sub(1);
        }
        7 | 8 => {
            let there = history.redo().expect(rt, "ample memory");
            plain.place = plain.place.saturating_add(usize::from(there));
        }
        _ => record(rt, history, plain, argument),
    }
}

// Now and then the history is a fork of what it was, which lives on until the next one.
#[test]
fn agrees_with_a_plain_history(rt: HostRuntime) {
    let mut numbers = Numbers::new();
    let mut history = History::new(rt.alloc(), 0).expect(&rt, "ample memory");
    let mut plain = Plain {
        versions: vec![in rt.alloc(); 0].expect(&rt, "ample memory"),
        place: 0,
    };
    let mut older = history.fork().expect(&rt, "ample memory");
    for round in 0..3000u32 {
        call(&rt, &mut history, &mut plain, numbers.next());
        assert_same(&rt, &history, &plain);
        if round % 7 == 0 {
            older = history.fork().expect(&rt, "ample memory");
        }
    }
    assert!(rt; older.len() > 0);
}

// 50,000 versions before the present one, and then behind it.
#[test]
fn long_histories_end(rt: HostRuntime) {
    let mut history = History::new(rt.alloc(), 0).expect(&rt, "ample memory");
    for number in 1..=50_000u64 {
        history.record(number).expect(&rt, "ample memory");
    }
    let fork = history.fork().expect(&rt, "ample memory");
    history.go_to(0).expect(&rt, "ample memory");
    drop(fork);
    assert!(rt; *history.present() == 0 && history.redo_len() == 50_000);
}
