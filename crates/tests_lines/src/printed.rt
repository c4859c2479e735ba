//! Lines that no session with ample memory prints.
use crate::session::assert_printed;
use rpds_lines::print::{write_reply, write_snap_reply};
use rpds_snapshots::snapshots::{SnapRefusal, SnapReply};
use rpds_table::table::{Refusal, Reply};

#[test]
fn what_is_full(rt: HostRuntime) {
    let mut printed = Vec::new(rt.alloc());
    write_reply(&mut printed, Reply::Refused(Refusal::Full)).expect(&rt, "memory takes it");
    write_snap_reply(&mut printed, SnapReply::Refused(SnapRefusal::Full)).expect(
        &rt,
        "memory takes it",
    );
    assert_printed(&rt, printed.as_slice(), b"refused 6\nrefused 6\n");
}
