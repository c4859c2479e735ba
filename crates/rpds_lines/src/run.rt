//! A whole session over a writer with a buffer.
ghost use Rattle.std.specs.Prelude.{◌≡◌, ◌≢◌, IfErr, IfSome, OnOk, Err};
ghost use Rattle.std.specs.Io.Buffered.{writer_contents, writer_inner};
ghost use Rattle.std.specs.IoError.{error_kind};
ghost use Rattle.rpds_lines.specs.Faults.{IsOfRead};
ghost use Rattle.rpds_lines.specs.Sessions.{AnswersInput, AnswersRead};
ghost use Rattle.rpds_lines.specs.declared.fault.Fault.TheVariants.{Read};

use crate::fault::{Fault, write_outcome};
use crate::serve::serve;
use std::alloc::Allocator;
use std::io::{BufRead, BufWriter, ErrorKind, Write};

/// Reads lines to the end of the input, prints a line for each, and hands all of them on to the writer below the buffer. Returns
/// that writer, and why the session ended before its input did, if it did.
///
/// After a fault nothing more is printed: what still waits in the buffer is let go. Before a read nothing waits, so where
/// one fails the writer has all that was printed.
pub fn run<R: BufRead, W: Write + Drop, A: Allocator + Copy>(
    alloc: A,
    reader: &mut R,
    mut writer: BufWriter<W, A>,
) -> (W, Result<(), Fault>)
    // Each line of the input is answered by a line.
    ensures served { OnOk result.1 (IfSome (R.remaining reader.old) (λ bytes.
        AnswersInput A bytes (writer_contents W.contents writer) (W.contents result.0))) }
    // A read fails after the answers to all lines that were read before, and not by an interruption.
    ensures read { IfErr result.1 (λ fault. IsOfRead fault → AnswersRead A
        (R.remaining reader.old) (R.remaining reader.new)
        (writer_contents W.contents writer) (W.contents result.0)) }
    ensures retried { (error : _) → result.1 ≡ Err (Read error)
        → error_kind error ≢ ErrorKind.Interrupted }
{
    let outcome = serve_flushed(alloc, reader, &mut writer);
    let (writer, _) = writer.into_parts();
    (writer, outcome)
}

// Serves the lines of the reader, and hands on all that was printed. Where a read failed that is done already, so that the
// flush writes nothing: the clause `read` rests on it.
fn serve_flushed<R: BufRead, W: Write + Drop, A: Allocator + Copy>(
    alloc: A,
    reader: &mut R,
    writer: &mut BufWriter<W, A>,
) -> Result<(), Fault>
    ensures served { OnOk result (IfSome (R.remaining reader.old) (λ bytes.
        AnswersInput A bytes (writer_contents W.contents writer.old)
        (W.contents (writer_inner writer.new)))) }
    ensures read { IfErr result (λ fault. IsOfRead fault → AnswersRead A
        (R.remaining reader.old) (R.remaining reader.new)
        (writer_contents W.contents writer.old) (W.contents (writer_inner writer.new))) }
    ensures retried { (error : _) → result ≡ Err (Read error)
        → error_kind error ≢ ErrorKind.Interrupted }
{
    match serve(alloc, reader, writer) {
        Ok(()) => write_outcome(writer.flush()),
        Err(Fault::Read(error)) => {
            write_outcome(writer.flush())?;
            Err(Fault::Read(error))
        }
        Err(Fault::Write(error)) => Err(Fault::Write(error)),
        Err(Fault::NoMemory) => Err(Fault::NoMemory),
    }
}
