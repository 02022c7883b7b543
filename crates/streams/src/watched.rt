//! A reader or a writer that remembers its last failure.
ghost use Rattle.std.specs.Prelude.{◌≡◌, ◌||◌, Some, IfErr, false, length, is_err};
ghost use Rattle.std.specs.Io.{ReadsAtMost, WritesAtMost};
ghost use Rattle.std.specs.Io.KnownBytes.{ReadConsumes, WriteAppends};

use std::io::{self, ErrorKind, Read, Write};

/// A reader or a writer that passes each call on, and remembers the last failure.
#[derive(Drop)]
pub struct Watched<T> {
    inner: T,
    // The last failure.
    failure: Option<io::Error>,
}

impl<T> Watched<T> {
    ghost use Rattle.streams.specs.Watched.{inner_of, has_failed};

    /// Wraps a reader or a writer that has not failed.
    pub fn new(inner: T) -> Self
        ensures inner { inner_of result ≡ inner }
        ensures sound { has_failed result ≡ false }
    {
        Watched {
            inner,
            failure: None,
        }
    }

    /// The reader or writer inside.
    pub fn into_inner(self) -> T
        ensures { result ≡ inner_of self }
    {
        self.inner
    }

    /// Whether a read or a write has failed.
    pub fn failed(&self) -> bool
        ensures { result ≡ has_failed self.now }
    {
        self.failure.is_some()
    }
}

impl<R: Read> Watched<R> {
    ghost use Rattle.streams.specs.Watched.{inner_of, has_failed, last_failure};

    /// Reads once from the reader inside, and returns its result. An error of any kind is a failure.
    pub fn read(&mut self, buf: &mut [u8]) -> io::Result<usize>
        ensures bound { ReadsAtMost result buf.new }
        ensures bytes { ReadConsumes (R.remaining (inner_of self.old)) (R.remaining (inner_of self.new)) result buf.new }
        ensures failed { has_failed self.new ≡ (has_failed self.old || is_err result) }
        ensures remembered { IfErr result (λ error. last_failure self.new ≡ Some error) }
    {
        let answer = self.inner.read(buf);
        if let Err(error) = &answer {
            self.failure = Some(*error);
        }
        answer
    }
}

impl<W: Write> Watched<W> {
    ghost use Rattle.streams.specs.Watched.{inner_of, has_failed, last_failure, is_refused};

    /// Writes once to the writer inside, and returns its result. An error of any kind is a failure, and so is a write
    /// that takes no byte of a buffer that isn't empty.
    pub fn write(&mut self, buf: &[u8]) -> io::Result<usize>
        ensures bound { WritesAtMost result buf.now }
        ensures bytes { WriteAppends (W.contents (inner_of self.old)) (W.contents (inner_of self.new)) result buf.now }
        ensures failed { has_failed self.new ≡ (has_failed self.old || is_refused result (length buf.now)) }
        ensures remembered { IfErr result (λ error. last_failure self.new ≡ Some error) }
    {
        let answer = self.inner.write(buf);
        match &answer {
            Ok(0) => {
                if !buf.is_empty() {
                    self.failure = Some(io::Error::from(ErrorKind::WriteZero));
                }
            }
            Ok(_) => {}
            Err(error) => self.failure = Some(*error),
        }
        answer
    }
}
