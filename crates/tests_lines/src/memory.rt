//! Memory that is refused: the session ends where it was for a line or its list, and else the command is refused.
use crate::session::{allocations, assert_printed};
use rpds_faults::FailingAllocator;
use rpds_lines::fault::Fault;
use rpds_lines::serve::serve;
use std::io::BufReader;
use std::process::Abort;

// The first allocation is room for a line. Nor does what these lines ask for take memory.
#[test]
fn lines_take_no_memory(rt: HostRuntime) {
    let lines = b"first 0\nbogus\nsize 7\nsnap show\nsnap at 0\nsnap back 0\nsnap out 1\n";
    let wanted = b"refused 1\nbad line\nrefused 1\n{}\nrefused 9\nrefused 9\ndone false\n";
    assert!(rt; allocations(&rt, rt.alloc(), 16, lines, wanted) == 1);
    assert!(rt; allocations(&rt, rt.alloc(), 100, lines, wanted) == 1);
}

// How the allocations of a session were answered that were refused in turn: by its end, and by `refused 7`.
#[derive(Debug, PartialEq, Eq, Drop)]
struct Refusals {
    ends: u64,
    refused: u64,
}

fn refused_in_turn(
    rt: &impl Abort,
    alloc: &FailingAllocator,
    lines: &[u8],
    wanted: &[u8],
) -> Refusals {
    let mut refusals = Refusals {
        ends: 0,
        refused: 0,
    };
    for nth in 1..100u64 {
        let mut printed = Vec::new(alloc);
        printed.reserve(500).expect(rt, "ample memory");
        let mut reader = BufReader::with_capacity(alloc, 16, lines).expect(rt, "ample memory");
        alloc.refuse(nth);
        let served = serve(alloc, &mut reader, &mut printed);
        let reached = alloc.until_failure() == 0 || alloc.until_failure() > nth;
        alloc.refuse(u64::MAX);
        if !reached {
            assert!(rt; served.is_ok(), "{served:?}");
            assert_printed(rt, printed.as_slice(), wanted);
            return refusals;
        }
        match served {
            Err(fault) => {
                assert!(rt; matches!(fault, Fault::NoMemory), "{nth}: {fault:?}");
                refusals.ends = refusals.ends.wrapping_add(1);
            }
            Ok(()) => {
                assert!(rt;
                    is_refused_once(printed.as_slice()),
                    "{nth}: {:?}",
                    str::from_utf8(printed.as_slice())
                );
                refusals.refused = refusals.refused.wrapping_add(1);
            }
        }
    }
    refusals
}

fn is_refused_once(printed: &[u8]) -> bool {
    printed
        .windows(9)
        .filter(|part| *part == b"refused 7".as_slice())
        .count()
        == 1
}

// The reader gives the lines in parts. The session ends for want of room for a line, which it makes at first, and for the
// items of `extend`. The other allocations are the commands' own.
#[test]
fn each_allocation_of_lists(rt: HostRuntime) {
    let alloc = FailingAllocator::new(rt.alloc());
    let lines = b"make list\nnew 0 pushfront 7\nin 1 pushfront 8\nbits 1\nextend 2 9\n\
        first 1 and so on and so on and so on and so on\nfirst 1\n";
    let wanted = b"made 0\nmade 1\ndone true\nmade 2\ndone true\nbad line\nsome 8\n";
    let refusals = refused_in_turn(&rt, &alloc, lines, wanted);
    assert!(rt; refusals.ends == 2 && refusals.refused >= 5, "{refusals:?}");
}

// The list of a `sorted` line is the session's, the nodes are the command's.
#[test]
fn each_allocation_of_sorted_maps(rt: HostRuntime) {
    let alloc = FailingAllocator::new(rt.alloc());
    let lines = b"sorted rmap 1 10 2 20\nsize 0\n";
    let refusals = refused_in_turn(&rt, &alloc, lines, b"made 0\nsize 2\n");
    assert!(rt; refusals.ends == 2 && refusals.refused == 5, "{refusals:?}");
}

// A list of more than 128 bytes, read in parts, wants room for itself too.
#[test]
fn each_allocation_of_a_long_line(rt: HostRuntime) {
    let alloc = FailingAllocator::new(rt.alloc());
    let lines =
        b"sorted rset 1000000001 1000000002 1000000003 1000000004 1000000005 1000000006 1000000007 1000000008 \
        1000000009 1000000010 1000000011 1000000012\nsize 0\n";
    let refusals = refused_in_turn(&rt, &alloc, lines, b"made 0\nsize 12\n");
    assert!(rt;
        refusals.ends >= 3 && refusals.refused >= 12,
        "{refusals:?}"
    );
}

#[test]
fn each_allocation_of_snapshots(rt: HostRuntime) {
    let alloc = FailingAllocator::new(rt.alloc());
    let lines = b"snap put 1 10\nsnap take\nsnap out 1\nsnap back 0\n";
    let refusals = refused_in_turn(
        &rt,
        &alloc,
        lines,
        b"done true\ntaken 0\ndone true\ndone true\n",
    );
    assert!(rt; refusals.ends == 1 && refusals.refused >= 3, "{refusals:?}");
}
