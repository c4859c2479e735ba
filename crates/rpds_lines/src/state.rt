//! What a session keeps from line to line.
ghost use Rattle.std.specs.Prelude.{◌≡◌, ◌++◌, ◌∷◌, [], OnOk};
ghost use Rattle.std.specs.Io.KnownBytes.{Appends};
ghost use Rattle.rpds_lines.specs.Sessions.{Answers, AnswersSnap};
ghost use Rattle.rpds_lines.specs.SessionState.{empty_state};

use crate::parse::{Request, SnapRequest};
use crate::print::{
    write_answer, write_bad_line, write_reply, write_snap_reply, write_snapshot, write_version,
};
use rpds_core::steps::Steps;
use rpds_snapshots::snapshots::Snapshots;
use rpds_table::table::{Answer, IdentityBuild, Table};
use std::alloc::Allocator;
use std::io::{self, Write};
use std::marker::Model;

/// A table of versions and a map with snapshots.
#[derive(Drop)]
pub struct State<A: Allocator> {
    table: Table<u64, u64, IdentityBuild, A>,
    snapshots: Snapshots<u64, u64, A>,
    steps: Steps,
}

impl<A: Allocator> Model for State<A> {
    ghost use Rattle.rpds_lines.specs.SessionState.{SessionState};

    ghost Value = { SessionState A };

    ghost view = { λ s. record { table = s.table; snapshots = s.snapshots } };
}

impl<A: Allocator + Copy> State<A> {
    /// No version, the empty map and no snapshot. Takes no memory.
    pub fn new(alloc: A) -> State<A>
        ensures { result ≡ empty_state }
    {
        State {
            table: Table::new(alloc, IdentityBuild {}),
            snapshots: Snapshots::new(alloc),
            steps: Steps::new(),
        }
    }

    /// Does what a line asks for, and prints the line that answers it. None is a line outside the grammar.
    pub fn answer<W: Write>(
        &mut self,
        request: Option<Request<A>>,
        writer: &mut W,
    ) -> io::Result<()>
        ensures { OnOk result ((text : _) × Answers self.old request text self.new
            × Appends (W.contents writer.old) (W.contents writer.new) (text ++ 10 ∷ [])) }
    {
        match request {
            Some(Request::Command(command)) => {
                let reply = self.table.apply(command, &mut self.steps);
                write_reply(writer, reply)
            }
            Some(Request::Question(question)) => {
                let answer = self.table.ask(&question, &mut self.steps);
                write_answer(writer, answer)
            }
            Some(Request::Show(index)) => write_version(writer, self.table.version(index)),
            Some(Request::Snap(request)) => answer_snap(&mut self.snapshots, request, writer),
            None => write_bad_line(writer),
        }
    }
}

// Does what a line asks of the map with snapshots, and prints the line that answers it.
fn answer_snap<W: Write, A: Allocator + Copy>(
    snapshots: &mut Snapshots<u64, u64, A>,
    request: SnapRequest,
    writer: &mut W,
) -> io::Result<()>
    ensures { OnOk result ((text : _) × AnswersSnap snapshots.old request text snapshots.new
        × Appends (W.contents writer.old) (W.contents writer.new) (text ++ 10 ∷ [])) }
{
    match request {
        SnapRequest::Command(command) => {
            let reply = snapshots.apply(command);
            write_snap_reply(writer, reply)
        }
        SnapRequest::Get(key) => {
            let found = snapshots.current().get_key_value(&key);
            write_answer::<W, A>(writer, Answer::Pair(found))
        }
        SnapRequest::Show => write_snapshot(writer, Some(snapshots.current())),
        SnapRequest::At(index) => write_snapshot(writer, snapshots.at(index)),
    }
}
