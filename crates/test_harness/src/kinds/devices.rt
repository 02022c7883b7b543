//! Runs over readers and writers that give or take few bytes a call, or fail.

use crate::write::Written;
use gqlcheck_report::{RunEnd, Watched, run};
use std::alloc::Global;
use std::io;
use std::io::{ErrorKind, Read, Write};

// Gives at most `step` bytes a call. The call of number `failing` fails once, where that isn't 0.
#[derive(Drop)]
struct Source<'a> {
    rest: &'a [u8],
    step: usize,
    failing: usize,
    kind: ErrorKind,
    calls: usize,
}

impl Read for Source<'_> {
    fn read(&mut self, buf: &mut [u8]) -> io::Result<usize> {
        self.calls = self.calls.wrapping_add(1);
        if self.failing == self.calls {
            return Err(io::Error::from(self.kind));
        }
        let count = buf.len().min(self.rest.len()).min(self.step);
        buf[..count].copy_from_slice(&self.rest[..count]);
        self.rest = &self.rest[count..];
        Ok(count)
    }
}

// Takes at most `step` bytes a call. The call of number `failing` fails once, where that isn't 0: with an error of
// `kind`, or by taking no byte where there is none.
#[derive(Drop)]
struct Target {
    taken: Vec<u8>,
    step: usize,
    failing: usize,
    kind: Option<ErrorKind>,
    calls: usize,
}

impl Write for Target {
    fn write(&mut self, buf: &[u8]) -> io::Result<usize> {
        self.calls = self.calls.wrapping_add(1);
        if self.failing == self.calls {
            return match self.kind {
                Some(kind) => Err(io::Error::from(kind)),
                None => Ok(0),
            };
        }
        let count = buf.len().min(self.step);
        self.taken.extend_from_slice(&buf[..count])?;
        Ok(count)
    }

    fn flush(&mut self) -> io::Result<()> {
        Ok(())
    }
}

/// `devices`: a run over the text. The call says how many bytes a read gives, `read=N`, and a write takes, `write=N`,
/// and which of them fails, `failed_read=N`, `interrupted_read=N`, `failed_write=N`, `interrupted_write=N`,
/// `empty_write=N` by taking no byte; 1000 bytes and none where nothing is said. The result says how the run ended,
/// whether the reader or the writer has failed, and how many bytes of the report were written.
pub fn answer(alloc: Global, out: &mut String, text: &str, call: &str) -> Written {
    let bytes = text.as_bytes();
    let is_interrupted = number_in(call, "interrupted_read=", 0) > 0;
    let mut reader = Watched::new(Source {
        rest: bytes,
        step: number_in(call, "read=", 1000),
        failing: number_in(call, "failed_read=", 0).max(number_in(call, "interrupted_read=", 0)),
        kind: if is_interrupted {
            ErrorKind::Interrupted
        } else {
            ErrorKind::ConnectionReset
        },
        calls: 0,
    });
    let mut writer = Watched::new(Target {
        taken: Vec::new(alloc),
        step: number_in(call, "write=", 1000),
        failing: failing_write(call),
        kind: kind_of_write(call),
        calls: 0,
    });
    let end = end_word(run(alloc, &mut reader, &mut writer));
    out.push_str(end)?;
    if reader.failed() {
        out.push_str(", failed reader")?;
    }
    if writer.failed() {
        out.push_str(", failed writer")?;
    }
    write_beginning(alloc, out, bytes, writer.into_inner().taken.as_slice())
}

fn end_word(end: RunEnd) -> &'static str {
    match end {
        RunEnd::Tree => "Tree",
        RunEnd::Refused => "Refused",
        RunEnd::NotUtf8 => "NotUtf8",
        RunEnd::TooDeep => "TooDeep",
        RunEnd::Device => "Device",
        RunEnd::Memory => "Memory",
    }
}

// The number of the write that fails.
fn failing_write(call: &str) -> usize {
    number_in(call, "failed_write=", 0)
        .max(number_in(call, "interrupted_write=", 0))
        .max(number_in(call, "empty_write=", 0))
}

// The error with which a write fails; None where it takes no byte.
fn kind_of_write(call: &str) -> Option<ErrorKind> {
    if call.contains("empty_write=") {
        None
    } else if call.contains("interrupted_write=") {
        Some(ErrorKind::Interrupted)
    } else {
        Some(ErrorKind::BrokenPipe)
    }
}

// How many bytes of the report of these bytes were written.
fn write_beginning(alloc: Global, out: &mut String, bytes: &[u8], written: &[u8]) -> Written {
    let mut reader = Watched::new(bytes);
    let mut whole = Watched::new(Vec::new(alloc));
    let _end = run(alloc, &mut reader, &mut whole);
    let report = whole.into_inner();
    let all = report.len();
    let count = written.len();
    if report.starts_with(written) {
        write!(out, ", {count} of {all} bytes")
    } else {
        out.push_str(", no beginning of the report")
    }
}

// The number that a call gives after a word, or another one where it gives none.
fn number_in(call: &str, word: &str, other: usize) -> usize {
    for part in call.split_whitespace() {
        if let Some(number) = part.strip_prefix(word) {
            return number.parse::<usize>().unwrap_or(other);
        }
    }
    other
}
