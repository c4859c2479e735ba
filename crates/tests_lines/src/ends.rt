//! How the program ends: what was printed by then, and its status.
use crate::session::{PRINTED, SESSION, assert_printed};
use rpds_faults::FailingAllocator;
use rpds_lines::fault::{Fault, status};
use rpds_lines::run::run;
use std::io::{BufReader, BufWriter};
use std::process::ExitCode;

// A last line without its line feed is answered after the last flush of `serve`.
#[test]
fn all_is_printed(rt: HostRuntime) {
    for (lines, wanted) in [
        (b"".as_slice(), b"".as_slice()),
        (b"make list\nsize 0", b"made 0\nsize 0\n"),
        (SESSION, PRINTED),
    ] {
        let mut reader = BufReader::with_capacity(rt.alloc(), 16, lines).expect(
            &rt,
            "ample memory",
        );
        let writer = BufWriter::new(rt.alloc(), Vec::new(rt.alloc())).expect(&rt, "ample memory");
        let (printed, outcome) = run(rt.alloc(), &mut reader, writer);
        assert!(rt; outcome.is_ok(), "{outcome:?}");
        assert!(rt; status(outcome) == ExitCode::SUCCESS);
        assert_printed(&rt, printed.as_slice(), wanted);
    }
}

// The two answers wait in the buffer when memory for the item of the third line is refused, and are let go. The first
// allocation is room for a line.
#[test]
fn a_fault_prints_nothing(rt: HostRuntime) {
    let alloc = FailingAllocator::new(rt.alloc());
    let lines = b"size 0\nsize 0\nextend 0 1\n".as_slice();
    let mut reader = BufReader::with_capacity(rt.alloc(), 64, lines).expect(&rt, "ample memory");
    let writer = BufWriter::new(&alloc, Vec::new(&alloc)).expect(&rt, "ample memory");
    alloc.refuse(2);
    let (printed, outcome) = run(&alloc, &mut reader, writer);
    assert!(rt; matches!(outcome, Err(Fault::NoMemory)));
    assert!(rt; status(outcome) == ExitCode::FAILURE);
    assert!(rt; printed.is_empty());
}
