//! Lines outside the grammar change nothing.
use crate::session::serve_lines;
use std::alloc::Global;
use std::process::Abort;

// Other white space, NUL, and spaces at the wrong places.
const SPACES: [&[u8]; 6] = [
    b"first\t1",
    b"first 1\0",
    b" first 1",
    b"first 1 ",
    b"snap  take",
    b" snap take",
];

// No number, one with a sign or a leading zero, and one that is too great.
const NUMBERS: [&[u8]; 8] = [
    b"first 01",
    b"first +1",
    b"snap back -1",
    b"first 1a",
    b"in 1 set 02 1",
    b"bits 256",
    b"degree hmap 300",
    b"range 0 [01 *",
];

// Words that aren't there, in upper case or at another place.
const WORDS: [&[u8]; 7] = [
    b"bogus",
    b"First 1",
    b"degree 16 hmap",
    b"range 0 [1] *",
    b"sorted vector 1",
    b"Snap take",
    b"snap Take",
];

// Too few and too many words.
const COUNTS: [&[u8]; 18] = [
    b"first",
    b"first 1 1",
    b"in 1 dropfirst 1",
    b"extend",
    b"extend 0 1 ",
    b"range 0 *",
    b"sorted",
    b"sorted rmap 1",
    b"sorted rmap 1 10 2",
    b"sorted rset 1 x",
    b"snap",
    b"snap take 1",
    b"snap put 1",
    b"snap put 1 2 3",
    b"snap out",
    b"snap get",
    b"snap show 0",
    b"snap at",
];

fn assert_bad(rt: &impl Abort, alloc: Global, line: &[u8]) {
    let mut lines = Vec::new(alloc);
    for part in [
        b"make list\nnew 0 pushfront 7\nsnap put 1 10\n".as_slice(),
        line,
        b"\nfirst 1\nsize 2\nfirst 0\nsnap show\nsnap at 0\n",
    ] {
        lines.extend_from_slice(part).expect(rt, "ample memory");
    }
    let wanted =
        b"made 0\nmade 1\ndone true\nbad line\nsome 7\nrefused 1\nnone\n{1: 10}\nrefused 9\n";
    let mut printed = Vec::new(alloc);
    let served = serve_lines(alloc, lines.as_slice(), &mut printed);
    assert!(rt; served.is_ok(), "{served:?}");
    assert!(rt;
        printed.as_slice() == wanted.as_slice(),
        "{:?}",
        str::from_utf8(line)
    );
}

#[test]
fn bad_lines(rt: HostRuntime) {
    for lines in [
        SPACES.as_slice(),
        NUMBERS.as_slice(),
        WORDS.as_slice(),
        COUNTS.as_slice(),
    ] {
        for line in lines {
            assert_bad(&rt, rt.alloc(), line);
        }
    }
}
