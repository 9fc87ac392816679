//! Readers and writers that count their failed calls, and calls that fill a buffer or write all of one.

ghost use Rattle.std.specs.Prelude.{◌≡◌, ◌≤◌, ◌<◌, ◌↔◌, length, take, MatchResult};
ghost use Rattle.std.specs.Io.{ReadsAtMost, WritesAtMost};
ghost use Rattle.std.specs.Io.KnownBytes.{Appends, Consumes, IsAtEnd, Keeps, ReadConsumes, WriteAppends};
ghost use Rattle.noise_session.specs.Counting.{inner_of, failures_of, after_call, after_writing};
ghost use Rattle.noise_session.specs.inner.Filling.{after_filling};
ghost use Rattle.noise_session.specs.declared.counted.Filling.TheVariants.{Filled, End};

use std::io::{self, Read, Write};

/// A reader or writer with a count of its failed reads and writes: those that returned an error, an interruption too,
/// and each write that took none of some bytes. A flush isn't counted. The count begins again at 0 after 2^64 - 1.
#[derive(Debug, Drop)]
pub struct Counted<T> {
    inner: T,
    failures: u64,
}

impl<T> Counted<T> {
    /// It counts from 0.
    pub fn new(inner: T) -> Counted<T>
        ensures value { inner_of result ≡ inner }
        ensures failures { failures_of result ≡ 0 }
    {
        Counted { inner, failures: 0 }
    }

    /// How many reads and writes have failed.
    pub fn failures(&self) -> u64
        ensures { result ≡ failures_of self.now }
    {
        self.failures
    }

    /// The reader or writer inside.
    pub fn into_inner(self) -> T
        ensures { result ≡ inner_of self }
    {
        let Counted { inner, failures: _ } = self;
        inner
    }
}

impl<R: Read> Read for Counted<R> {
    ghost remaining = { λ c. R.remaining (inner_of c) };

    fn read(&mut self, buf: &mut [u8]) -> io::Result<usize>
        ensures bound { ReadsAtMost result buf.new }
        ensures bytes { ReadConsumes (R.remaining (inner_of self.old)) (R.remaining (inner_of self.new)) result
            buf.new }
        ensures failures { failures_of self.new ≡ after_call (failures_of self.old) result }
    {
        let result = self.inner.read(buf);
        if result.is_err() {
            self.failures = self.failures.wrapping_add(1);
        }
        result
    }
}

impl<W: Write> Write for Counted<W> {
    ghost contents = { λ c. W.contents (inner_of c) };

    fn write(&mut self, buf: &[u8]) -> io::Result<usize>
        ensures bound { WritesAtMost result buf.now }
        ensures bytes { WriteAppends (W.contents (inner_of self.old)) (W.contents (inner_of self.new)) result buf.now }
        ensures failures { failures_of self.new ≡ after_writing (failures_of self.old) result buf.now }
    {
        let result = self.inner.write(buf);
        let failed = match &result {
            Ok(count) => *count == 0 && !buf.is_empty(),
            Err(_) => true,
        };
        if failed {
            self.failures = self.failures.wrapping_add(1);
        }
        result
    }

    fn flush(&mut self) -> io::Result<()>
        ensures bytes { Keeps (W.contents (inner_of self.old)) (W.contents (inner_of self.new)) }
        ensures failures { failures_of self.new ≡ failures_of self.old }
    {
        self.inner.flush()
    }
}

// How the filling of a buffer came to its end.
#[derive(Clone, Copy)]
pub(crate) enum Filling {
    Filled,
    End, // of the input
    Failed,
}

// Reads bytes until the buffer is full, and returns how many. Each read asks for all that is missing and no more.
pub(crate) fn fill_from<R: Read>(from: &mut Counted<R>, buffer: &mut [u8]) -> (usize, Filling)
    ensures within { result.0 ≤ length buffer.new }
    ensures filled { (result.1 ≡ Filled) ↔ (result.0 ≡ length buffer.new) }
    ensures bytes { Consumes (R.remaining (inner_of from.old)) (R.remaining (inner_of from.new))
        (take result.0 buffer.new) }
    ensures end { result.1 ≡ End → IsAtEnd (R.remaining (inner_of from.new)) }
    ensures failures { failures_of from.new ≡ after_filling (failures_of from.old) result.1 }
{
    let mut at = 0;
    while at < buffer.len() {
        match from.read(&mut buffer[at..]) {
            Ok(0) => return (at, Filling::End),
            Ok(count) => at += count,
            Err(_) => return (at, Filling::Failed),
        }
    }
    (at, Filling::Filled)
}

// Writes all bytes; where a write fails, it returns how many were written before. It doesn't flush, and tries no write
// again.
pub(crate) fn write_out<W: Write>(out: &mut Counted<W>, bytes: &[u8]) -> Result<(), usize>
    ensures written { let appends = Appends (W.contents (inner_of out.old)) (W.contents (inner_of out.new)) in
        MatchResult result (λ _. appends bytes.now) (λ n. (n < length bytes.now) × appends (take n bytes.now)) }
    ensures failures { failures_of out.new ≡ after_call (failures_of out.old) result }
{
    let mut at = 0;
    while at < bytes.len() {
        match out.write(&bytes[at..]) {
            Ok(0) => return Err(at),
            Ok(count) => at += count,
            Err(_) => return Err(at),
        }
    }
    Ok(())
}
