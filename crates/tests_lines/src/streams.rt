//! A reader and a writer that fail, and a writer that is flushed too late.
use crate::session::{PRINTED, SESSION};
use rpds_lines::fault::Fault;
use rpds_lines::serve::serve;
use std::alloc::Global;
use std::cell::Cell;
use std::io::{self, BufReader, ErrorKind, Read, Write};
use std::process::Abort;

// Gives at most five bytes a call, and fails at one call.
#[derive(Drop)]
struct FailingReader<'a> {
    bytes: &'a [u8],
    calls_left: u64,
    error: ErrorKind,
}

impl<'a> Read for FailingReader<'a> {
    fn read(&mut self, buf: &mut [u8]) -> io::Result<usize> {
        self.calls_left = self.calls_left.wrapping_sub(1);
        if self.calls_left == 0 {
            return Err(io::Error::from(self.error));
        }
        let count = self.bytes.len().min(buf.len()).min(5);
        buf[..count].copy_from_slice(&self.bytes[..count]);
        self.bytes = &self.bytes[count..];
        Ok(count)
    }
}

// Takes at most three bytes a call, and fails at one call, flushes counted.
#[derive(Drop)]
struct FailingWriter {
    written: Vec<u8>,
    calls_left: u64,
    error: ErrorKind,
}

impl FailingWriter {
    fn call(&mut self) -> io::Result<()> {
        self.calls_left = self.calls_left.wrapping_sub(1);
        if self.calls_left == 0 {
            return Err(io::Error::from(self.error));
        }
        Ok(())
    }
}

impl Write for FailingWriter {
    fn write(&mut self, buf: &[u8]) -> io::Result<usize> {
        self.call()?;
        let count = buf.len().min(3);
        self.written.extend_from_slice(&buf[..count])?;
        Ok(count)
    }

    fn flush(&mut self) -> io::Result<()> {
        self.call()
    }
}

// The kinds of error that a reader or a writer fails with, one after the other.
const KINDS: [ErrorKind; 5] = [
    ErrorKind::ConnectionReset,
    ErrorKind::BrokenPipe,
    ErrorKind::WouldBlock,
    ErrorKind::TimedOut,
    ErrorKind::Other,
];

fn kind_at(nth: u64) -> ErrorKind {
    KINDS[(nth % 5) as usize]
}

fn is_read_fault(fault: &Fault, kind: ErrorKind) -> bool {
    match fault {
        Fault::Read(error) => error.kind() == kind,
        _ => false,
    }
}

fn is_write_fault(fault: &Fault, kind: ErrorKind) -> bool {
    match fault {
        Fault::Write(error) => error.kind() == kind,
        _ => false,
    }
}

fn line_feeds(bytes: &[u8]) -> usize {
    bytes.iter().filter(|&&byte| byte == b'\n').count()
}

#[test]
fn each_read_fails(rt: HostRuntime) {
    let mut faults = 0u64;
    for nth in 1..100u64 {
        let source = FailingReader {
            bytes: SESSION,
            calls_left: nth,
            error: kind_at(nth),
        };
        let mut reader = BufReader::with_capacity(rt.alloc(), 16, source).expect(
            &rt,
            "ample memory",
        );
        let mut printed = Vec::new(rt.alloc());
        let Err(fault) = serve(rt.alloc(), &mut reader, &mut printed) else {
            assert!(rt; printed.as_slice() == PRINTED);
            break;
        };
        assert!(rt; is_read_fault(&fault, kind_at(nth)), "{nth}: {fault:?}");
        // The lines that came before have their answers.
        assert!(rt; PRINTED.starts_with(printed.as_slice()), "{nth}");
        let came = SESSION.len().min((nth as usize - 1) * 5);
        assert!(rt;
            line_feeds(printed.as_slice()) == line_feeds(&SESSION[..came]),
            "{nth}"
        );
        faults = faults.wrapping_add(1);
    }
    // The reads of all bytes, and the one that finds the end.
    assert!(rt; faults == SESSION.len() as u64 / 5 + 2);
}

#[test]
fn an_interrupted_read_is_made_again(rt: HostRuntime) {
    for nth in 1..20u64 {
        let source = FailingReader {
            bytes: SESSION,
            calls_left: nth,
            error: ErrorKind::Interrupted,
        };
        let mut reader = BufReader::with_capacity(rt.alloc(), 16, source).expect(
            &rt,
            "ample memory",
        );
        let mut printed = Vec::new(rt.alloc());
        assert!(rt; serve(rt.alloc(), &mut reader, &mut printed).is_ok());
        assert!(rt; printed.as_slice() == PRINTED);
    }
}

// How many writes and flushes a session makes where none fails.
fn calls_of_writer(rt: &impl Abort, alloc: Global) -> u64 {
    let mut reader = SESSION;
    let mut writer = FailingWriter {
        written: Vec::new(alloc),
        calls_left: u64::MAX,
        error: ErrorKind::Other,
    };
    assert!(rt; serve(alloc, &mut reader, &mut writer).is_ok());
    u64::MAX.wrapping_sub(writer.calls_left)
}

// Each call of the writer that fails ends the session.
#[test]
fn each_write_fails(rt: HostRuntime) {
    let mut faults = 0u64;
    for nth in 1..200u64 {
        let mut reader = SESSION;
        let mut writer = FailingWriter {
            written: Vec::new(rt.alloc()),
            calls_left: nth,
            error: kind_at(nth),
        };
        let Err(fault) = serve(rt.alloc(), &mut reader, &mut writer) else {
            assert!(rt; writer.written.as_slice() == PRINTED);
            break;
        };
        assert!(rt; is_write_fault(&fault, kind_at(nth)), "{nth}: {fault:?}");
        assert!(rt; PRINTED.starts_with(writer.written.as_slice()), "{nth}");
        faults = faults.wrapping_add(1);
    }
    assert!(rt; faults > PRINTED.len() as u64 / 3);
    assert!(rt; faults == calls_of_writer(&rt, rt.alloc()));
}

// Says at each read whether all that was written had been flushed.
#[derive(Drop)]
struct WatchingReader<'a> {
    bytes: &'a [u8],
    waiting: &'a Cell<u64>,
    late: &'a Cell<u64>,
}

impl<'a> Read for WatchingReader<'a> {
    fn read(&mut self, buf: &mut [u8]) -> io::Result<usize> {
        if self.waiting.get() > 0 {
            self.late.set(self.late.get().wrapping_add(1));
        }
        let count = self.bytes.len().min(buf.len()).min(5);
        buf[..count].copy_from_slice(&self.bytes[..count]);
        self.bytes = &self.bytes[count..];
        Ok(count)
    }
}

#[derive(Drop)]
struct WatchedWriter<'a> {
    waiting: &'a Cell<u64>,
    flushed: &'a Cell<u64>,
}

impl<'a> Write for WatchedWriter<'a> {
    fn write(&mut self, buf: &[u8]) -> io::Result<usize> {
        self.waiting
            .set(self.waiting.get().wrapping_add(buf.len() as u64));
        Ok(buf.len())
    }

    fn flush(&mut self) -> io::Result<()> {
        self.flushed
            .set(self.flushed.get().wrapping_add(self.waiting.get()));
        self.waiting.set(0);
        Ok(())
    }
}

#[test]
fn each_answer_is_flushed_before_the_next_read(rt: HostRuntime) {
    let (waiting, flushed, late) = (Cell::new(0u64), Cell::new(0u64), Cell::new(0u64));
    let source = WatchingReader {
        bytes: SESSION,
        waiting: &waiting,
        late: &late,
    };
    let mut reader = BufReader::with_capacity(rt.alloc(), 16, source).expect(&rt, "ample memory");
    let mut writer = WatchedWriter {
        waiting: &waiting,
        flushed: &flushed,
    };
    assert!(rt; serve(rt.alloc(), &mut reader, &mut writer).is_ok());
    assert!(rt; late.get() == 0);
    assert!(rt; flushed.get() == PRINTED.len() as u64);
}
