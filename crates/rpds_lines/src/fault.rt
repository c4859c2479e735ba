//! Why a session ends early: what a read or a write gave, as its outcome.
ghost use Rattle.std.specs.Prelude.{◌≡◌, ◌≢◌, None, Some, Ok, Err, IfOk, IfErr, IsOk, OnOk, MatchResult};
ghost use Rattle.std.specs.IoError.{error_kind};
ghost use Rattle.std.specs.Process.{exit_status};
ghost use Rattle.rpds_lines.specs.declared.fault.Fault.TheVariants.{Read, Write};

use std::io::{self, ErrorKind};
use std::process::ExitCode;

/// Why a session ended before its input did.
#[derive(Debug, Drop)]
pub enum Fault {
    /// A read failed, or the session took more turns than any input can make it take.
    Read(io::Error),
    /// A write failed.
    Write(io::Error),
    /// Memory for the program itself was refused. A command that is refused memory ends nothing: it has an answer of
    /// its own.
    NoMemory,
}

/// What a read gave, as an outcome of the session. None is a read that a signal interrupted, which is to be made again.
pub fn read_outcome<T>(outcome: io::Result<T>) -> Result<Option<T>, Fault>
    ensures ok { IfOk outcome (λ bytes. result ≡ Ok (Some bytes)) }
    ensures interrupted { IfErr outcome (λ error.
        error_kind error ≡ ErrorKind.Interrupted → result ≡ Ok None) }
    ensures fault { IfErr outcome (λ error.
        error_kind error ≢ ErrorKind.Interrupted → result ≡ Err (Read error)) }
    // The first clause the other way round.
    ensures some { (bytes : _) → result ≡ Ok (Some bytes) → outcome ≡ Ok bytes }
{
    match outcome {
        Ok(bytes) => Ok(Some(bytes)),
        Err(error) if error.kind() == ErrorKind::Interrupted => Ok(None),
        Err(error) => Err(Fault::Read(error)),
    }
}

/// What a write gave, as an outcome of the session.
pub fn write_outcome(outcome: io::Result<()>) -> Result<(), Fault>
    ensures ok { OnOk result (IsOk outcome) }
    ensures fault { MatchResult outcome (λ _. IsOk result) (λ error. result ≡ Err (Write error)) }
{
    match outcome {
        Ok(()) => Ok(()),
        Err(error) => Err(Fault::Write(error)),
    }
}

/// The status that the program ends with: 0 after the last line, 1 after a fault.
pub fn status(outcome: Result<(), Fault>) -> ExitCode
    ensures { MatchResult outcome (λ _. exit_status result ≡ 0) (λ _. exit_status result ≡ 1) }
{
    match outcome {
        Ok(()) => ExitCode::SUCCESS,
        Err(_) => ExitCode::FAILURE,
    }
}
