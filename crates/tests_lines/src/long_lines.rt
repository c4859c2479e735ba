//! Lines that are read in many parts.
use crate::session::allocations;
use std::alloc::Global;
use std::process::Abort;

// Beginnings that more bytes make no line of the grammar of, though some are those of one with a list, but for the space.
const BEGINNINGS: [&[u8]; 5] = [
    b"1",
    b"first ",
    b"new 0 pushfront ",
    b"extend1",
    b"sorted\t",
];

fn prolonged(rt: &impl Abort, alloc: Global, beginning: &[u8], length: usize) -> Vec<u8> {
    let mut lines = Vec::new(alloc);
    lines
        .extend_from_slice(beginning)
        .expect(rt, "ample memory");
    lines.resize(length, b'1').expect(rt, "ample memory");
    lines
        .extend_from_slice(b"\nsize 0\n")
        .expect(rt, "ample memory");
    lines
}

// All that such a session takes is room for a line.
#[test]
fn too_long_lines(rt: HostRuntime) {
    for length in [127, 128, 129, 144, 1_000, 10_000] {
        for beginning in BEGINNINGS {
            let lines = prolonged(&rt, rt.alloc(), beginning, length);
            let wanted = b"bad line\nrefused 1\n";
            assert!(rt; allocations(&rt, rt.alloc(), 16, lines.as_slice(), wanted) == 1);
        }
    }
}

// The longest lines without a list.
#[test]
fn longest_lines(rt: HostRuntime) {
    let lines = b"new 18446744073709551615 insert 18446744073709551615 18446744073709551615\n\
        writekey 18446744073709551615 18446744073709551615 18446744073709551615\n\
        range 18446744073709551615 [18446744073709551615 (18446744073709551615\n";
    let wanted = b"refused 1\nrefused 1\nrefused 1\n";
    assert!(rt; allocations(&rt, rt.alloc(), 16, lines, wanted) == 1);
}

// Lists of 1 to 100, and one followed by a word that is no number.
fn long_lists(rt: &impl Abort, alloc: Global) -> String {
    let mut items = String::new(alloc);
    for number in 1..101u64 {
        let item = format!(in alloc; " {number}").expect(rt, "ample memory");
        items.push_str(item.as_str()).expect(rt, "ample memory");
    }
    format!(in alloc;
        "bits 1\nextend 0{items}\nextend 0{items} x\nsorted rset{items}\nsize 0\nat 0 99\nlast 1\n"
    ).expect(rt, "ample memory")
}

#[test]
fn lists_in_parts(rt: HostRuntime) {
    let lines = long_lists(&rt, rt.alloc());
    let wanted = b"made 0\ndone true\nbad line\nmade 1\nsize 100\nsome 100\nsome 100\n";
    let _ = allocations(&rt, rt.alloc(), 16, lines.as_str().as_bytes(), wanted);
}
