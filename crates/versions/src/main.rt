//! The program `versions` keeps a table of versions, and a map with snapshots. It reads commands and questions from
//! standard input, one a line, and prints a line for each.
#![tactic(auto)]

use rpds_lines::fault::status;
use rpds_lines::run::run;
use std::io::{self, BufReader, BufWriter};
use std::process::ExitCode;

fn main(rt: HostRuntime) -> ExitCode {
    let Ok(mut reader) = BufReader::new(rt.alloc(), rt.reader()) else {
        return ExitCode::FAILURE;
    };
    match BufWriter::new(rt.alloc(), io::writer(&rt)) {
        Ok(writer) => {
            let (_, outcome) = run(rt.alloc(), &mut reader, writer);
            status(outcome)
        }
        Err(_) => ExitCode::FAILURE,
    }
}
