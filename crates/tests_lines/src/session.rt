//! A session over memory: its lines, and what is printed for them.
use rpds_faults::FailingAllocator;
use rpds_lines::fault::Fault;
use rpds_lines::serve::serve;
use std::alloc::{Allocator, Global};
use std::io::BufReader;
use std::process::Abort;

pub(crate) const SESSION: &[u8] = b"make list\n\
    new 0 pushfront 7\n\
    first 1\n\
    first 0\n\
    in 1 dropfirst\n\
    first 1\n\
    new 1 dropfirst\n";

pub(crate) const PRINTED: &[u8] = b"made 0\n\
    made 1\n\
    some 7\n\
    none\n\
    done true\n\
    none\n\
    done false\n";

// Serves the lines, and leaves in `printed` what is printed for them.
pub(crate) fn serve_lines<A: Allocator + Copy>(
    alloc: A,
    lines: &[u8],
    printed: &mut Vec<u8, A>,
) -> Result<(), Fault> {
    let mut reader = lines;
    serve(alloc, &mut reader, printed)
}

// What is printed is as wanted, line by line.
pub(crate) fn assert_printed(rt: &impl Abort, printed: &[u8], wanted: &[u8]) {
    let printed = str::from_utf8(printed).expect(rt, "text is printed");
    let wanted = str::from_utf8(wanted).expect(rt, "text is wanted");
    let mut answers = printed.lines();
    for wanted in wanted.lines() {
        let answer = answers.next();
        assert!(rt; answer == Some(wanted), "{answer:?} in place of {wanted:?}");
    }
    let more = answers.next();
    assert!(rt; more.is_none(), "{more:?} behind the last line");
    assert!(rt; printed == wanted, "a line feed is amiss");
}

// What is printed for the lines is as wanted.
pub(crate) fn assert_prints(rt: &impl Abort, alloc: Global, lines: &[u8], wanted: &[u8]) {
    let mut printed = Vec::new(alloc);
    let served = serve_lines(alloc, lines, &mut printed);
    assert!(rt; served.is_ok(), "{served:?}");
    assert_printed(rt, printed.as_slice(), wanted);
}

// Each line is answered by the line next to it.
pub(crate) fn assert_answers(rt: &impl Abort, alloc: Global, session: &[(&str, &str)]) {
    let mut lines = String::new(alloc);
    for (line, _) in session {
        lines.push_str(line).expect(rt, "ample memory");
        lines.push('\n').expect(rt, "ample memory");
    }
    let mut printed = Vec::new(alloc);
    let served = serve_lines(alloc, lines.as_str().as_bytes(), &mut printed);
    assert!(rt; served.is_ok(), "{served:?}");
    let printed = str::from_utf8(printed.as_slice()).expect(rt, "text is printed");
    let mut answers = printed.lines();
    for (line, wanted) in session {
        let answer = answers.next();
        assert!(rt;
            answer == Some(*wanted),
            "{line}: {answer:?} in place of {wanted:?}"
        );
    }
}

// How many allocations a session makes over these lines, read `capacity` bytes at a time. Each is answered as wanted.
pub(crate) fn allocations(
    rt: &impl Abort,
    alloc: Global,
    capacity: usize,
    lines: &[u8],
    wanted: &[u8],
) -> u64 {
    let failing = FailingAllocator::new(alloc);
    let mut reader = BufReader::with_capacity(alloc, capacity, lines).expect(rt, "ample memory");
    let mut printed = Vec::new(alloc);
    failing.refuse(u64::MAX);
    let served = serve(&failing, &mut reader, &mut printed);
    assert!(rt; served.is_ok(), "{served:?}");
    assert_printed(rt, printed.as_slice(), wanted);
    assert!(rt;
        failing.holds_nothing(),
        "the session gives all memory back"
    );
    u64::MAX - failing.until_failure()
}
