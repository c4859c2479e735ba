//! Lines in, lines out.
ghost use Rattle.std.specs.Prelude.{◌≡◌, ◌≢◌, ◌<◌, ◌+◌, ℕ, List, ◌++◌, ◌∷◌, [], take, drop, length, Ok, Err, IfSome, OnSome, IfOk, IfErr, IsOk, IsTrue, OnOk, MatchOption};
ghost use Rattle.std.specs.Io.KnownBytes.{Appends, Consumes, Keeps, IsAtEnd};
ghost use Rattle.std.specs.IoError.{error_kind};
ghost use Rattle.rpds_lines.specs.Sessions.{AnswersEnded, AnswersInput, AnswersLast, AnswersMore, AnswersRead};
ghost use Rattle.rpds_lines.specs.Faults.{IsOfRead};
ghost use Rattle.rpds_lines.specs.SessionState.{empty_state};
ghost use Rattle.rpds_lines.specs.declared.fault.Fault.TheVariants.{NoMemory, Read};
ghost use Rattle.rpds_lines.specs.Kept.{StandsFor};
ghost use Rattle.rpds_lines.specs.Lines.{LacksLineFeed, ended};

use crate::fault::{Fault, read_outcome, write_outcome};
use crate::line::Line;
use crate::parse::parse;
use crate::state::State;
use memchr::memchr;
use std::alloc::{AllocError, Allocator};
use std::io::{self, BufRead, ErrorKind, Write};

/// Reads lines to the end of the input, and writes one line for each. The last line may lack its line feed.
///
/// All that was written is flushed before each read that may wait: so whoever sends a line sees its answer. The answer to a
/// last line without its line feed is the caller's to flush.
///
/// A line is read where it lies in the reader's buffer. Of one that the buffer holds in parts at most 128 bytes are kept,
/// unless it begins with the word `extend` or `sorted`. Memory is asked for these bytes at first, for the parts and the items
/// of such lists, and for what the versions hold.
///
/// It ends early where a read or a write fails, or memory for a line is refused. A read that a signal interrupts is
/// made again.
pub fn serve<R: BufRead, W: Write, A: Allocator + Copy>(
    alloc: A,
    reader: &mut R,
    writer: &mut W,
) -> Result<(), Fault>
    // Each line of the input is answered by a line.
    ensures served { OnOk result (IfSome (R.remaining reader.old) (λ bytes.
        AnswersInput A bytes (W.contents writer.old) (W.contents writer.new))) }
    // A read fails after the answers to all lines that were read before, and not by an interruption.
    ensures read { IfErr result (λ fault. IsOfRead fault → AnswersRead A
        (R.remaining reader.old) (R.remaining reader.new)
        (W.contents writer.old) (W.contents writer.new)) }
    ensures retried { (error : _) → result ≡ Err (Read error)
        → error_kind error ≢ ErrorKind.Interrupted }
{
    let Ok(mut session) = Session::new(alloc) else {
        return Err(Fault::NoMemory);
    };
    // A loop has a bound. After it some of the input may be left, so that is a fault.
    for _ in 0..u64::MAX {
        if session.serve_ready(reader, writer)? {
            return session.finish(writer);
        }
    }
    Err(Fault::Read(io::Error::from(ErrorKind::TimedOut)))
}

// What is kept from line to line, and of a line of which more is to come.
#[derive(Drop)]
struct Session<A: Allocator> {
    alloc: A,
    state: State<A>,
    line: Line<A>,
}

impl<A: Allocator + Copy> Session<A> {
    fn new(alloc: A) -> Result<Session<A>, AllocError>
        ensures state { IfOk result (λ session. session.state ≡ empty_state) }
        ensures line { IfOk result (λ session. session.line ≡ []) }
    {
        Ok(Session {
            alloc,
            state: State::new(alloc),
            line: Line::new(alloc)?,
        })
    }

    // Answers the lines that end within the bytes that the reader has ready. Returns whether the input is at its end.
    fn serve_ready<R: BufRead, W: Write>(
        &mut self,
        reader: &mut R,
        writer: &mut W,
    ) -> Result<bool, Fault>
        ensures lines { OnOk result ((bytes : List ℕ)
            × Consumes (R.remaining reader.old) (R.remaining reader.new) bytes
            × AnswersMore self.old.state self.old.line (W.contents writer.old) bytes
            self.new.state self.new.line (W.contents writer.new)) }
        ensures end { IfOk result (λ is_end. IsTrue is_end
            → OnSome (R.remaining reader.old) (IsAtEnd (R.remaining reader.new))) }
        ensures read { IfErr result (λ fault. IsOfRead fault
            → Keeps (R.remaining reader.old) (R.remaining reader.new) × (writer.new ≡ writer.old)) }
        ensures retried { (error : _) → result ≡ Err (Read error)
            → error_kind error ≢ ErrorKind.Interrupted }
    {
        let Some(bytes) = read_outcome(reader.fill_buf())? else {
            return Ok(false);
        };
        let count = bytes.len();
        self.feed(bytes, writer)?;
        reader.consume(count);
        write_outcome(writer.flush())?;
        Ok(count == 0)
    }

    // Answers each line that ends within the bytes, and keeps what follows the last one.
    fn feed<W: Write>(&mut self, bytes: &[u8], writer: &mut W) -> Result<(), Fault>
        ensures lines { OnOk result (AnswersMore
            self.old.state self.old.line (W.contents writer.old) bytes.now
            self.new.state self.new.line (W.contents writer.new)) }
        ensures fault { IfErr result (λ fault. ¬ IsOfRead fault) }
    {
        let mut rest = bytes;
        while let Some((end, after)) = split_line(rest) {
            self.answer(end, writer)?;
            rest = after;
        }
        self.push_bytes(rest)
    }

    // Puts the bytes at the end of the line.
    fn push_bytes(&mut self, bytes: &[u8]) -> Result<(), Fault>
        requires { LacksLineFeed bytes.now }
        ensures line { OnOk result ((line : List ℕ)
            → StandsFor self.old.line line → StandsFor self.new.line (line ++ bytes.now)) }
        ensures state { self.new.state ≡ self.old.state }
        ensures fault { IfErr result (λ fault. fault ≡ NoMemory) }
    {
        match self.line.push(bytes) {
            Ok(()) => Ok(()),
            Err(_) => Err(Fault::NoMemory),
        }
    }

    // Answers a last line that lacks its line feed.
    fn finish<W: Write>(&mut self, writer: &mut W) -> Result<(), Fault>
        ensures line { OnOk result ((texts : List (List ℕ))
            × AnswersLast self.old.state self.old.line texts self.new.state
            × Appends (W.contents writer.old) (W.contents writer.new) (ended texts)) }
        ensures nothing { self.old.line ≡ []
            → IsOk result × (self.new ≡ self.old) × (writer.new ≡ writer.old) }
        ensures fault { IfErr result (λ fault. ¬ IsOfRead fault) }
    {
        if self.line.is_empty() {
            return Ok(());
        }
        self.answer(b"", writer)
    }

    // Answers the line that these bytes end, and makes way for the next. Where nothing of the line is kept, it is read where
    // it lies.
    fn answer<W: Write>(&mut self, end: &[u8], writer: &mut W) -> Result<(), Fault>
        requires { LacksLineFeed end.now }
        ensures answer { OnOk result ((text : List ℕ)
            × AnswersEnded self.old.state self.old.line end.now text self.new.state
            × Appends (W.contents writer.old) (W.contents writer.new) (text ++ 10 ∷ [])) }
        ensures line { OnOk result (self.new.line ≡ []) }
        ensures fault { IfErr result (λ fault. ¬ IsOfRead fault) }
    {
        if !self.line.is_empty() {
            self.push_bytes(end)?;
        }
        let line = nonempty_or(self.line.as_slice(), end);
        let Ok(request) = parse(self.alloc, line) else {
            return Err(Fault::NoMemory);
        };
        self.line.clear();
        write_outcome(self.state.answer(request, writer))
    }
}

// What is kept of a line, or else the bytes.
fn nonempty_or<'a>(kept: &'a [u8], bytes: &'a [u8]) -> &'a [u8]
    ensures none { kept.now ≡ [] → result.now ≡ bytes.now }
    ensures some { kept.now ≢ [] → result.now ≡ kept.now }
{
    if kept.is_empty() { bytes } else { kept }
}

// The first line of the bytes without its line feed, and what follows it, if there is a line feed.
fn split_line(bytes: &[u8]) -> Option<(&[u8], &[u8])>
    ensures { MatchOption result (LacksLineFeed bytes.now) (λ split.
        LacksLineFeed split.0.now × (bytes.now ≡ split.0.now ++ 10 ∷ split.1.now)) }
{
    let end = first_line_feed(bytes)?;
    Some((&bytes[..end], &bytes[end + 1..]))
}

// Where the first line feed stands.
#[tactic(auto, using(crate::proofs::LineFeeds::first_found))]
fn first_line_feed(bytes: &[u8]) -> Option<usize>
    ensures { MatchOption result (LacksLineFeed bytes.now) (λ end.
        LacksLineFeed (take end bytes.now) × (end < length bytes.now)
        × (bytes.now ≡ take end bytes.now ++ 10 ∷ drop (end + 1) bytes.now)) }
{
    memchr(b'\n', bytes)
}
