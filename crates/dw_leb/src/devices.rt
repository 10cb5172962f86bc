//! Readers and writers for tests, here and in the crates above.
ghost use Rattle.std.specs.Prelude.{◌≡◌, ◌≤◌, None, Some, IfOk, max};
ghost use Rattle.std.specs.Io.{ReadsAtMost, WritesAtMost};
ghost use Rattle.std.specs.Io.KnownBytes.{Keeps, ReadConsumes, WriteAppends};

use std::io;
use std::io::{ErrorKind, Read, Write};

/// A reader or writer that passes on at most a set count of bytes a call (0 for a writer alone), and
/// fails with a set kind at a set call.
#[derive(Debug, Drop)]
pub struct Stepped<T> {
    inner: T,
    step: usize,
    calls_left: Option<u64>,
    kind: ErrorKind,
}

impl<T> Stepped<T> {
    ghost use Rattle.dw_leb.specs.Devices.{stepped_inner, stepped_size, stepped_calls, stepped_kind, is_due, calls_after};

    /// Passes on at most `step` bytes a call, and never fails of itself.
    pub fn new(inner: T, step: usize) -> Self
        ensures inner { stepped_inner result ≡ inner }
        ensures size { stepped_size result ≡ step }
        ensures calls { stepped_calls result ≡ None }
    {
        Stepped {
            inner,
            step,
            calls_left: None,
            kind: ErrorKind::Other,
        }
    }

    /// Passes on at most `step` bytes a call, and fails once, with `kind`, after `after` calls that
    /// pass. The call that fails takes nothing.
    pub fn failing(inner: T, step: usize, after: u64, kind: ErrorKind) -> Self
        ensures inner { stepped_inner result ≡ inner }
        ensures size { stepped_size result ≡ step }
        ensures calls { stepped_calls result ≡ Some after }
        ensures kind { stepped_kind result ≡ kind }
    {
        Stepped {
            inner,
            step,
            calls_left: Some(after),
            kind,
        }
    }

    /// The reader or writer inside.
    pub fn inner(&self) -> &T
        ensures { result.now ≡ stepped_inner self.now }
    {
        &self.inner
    }

    /// Counts a call, and says whether it is the one that fails.
    fn is_failing(&mut self) -> bool
        ensures due { result ≡ is_due (stepped_calls self.old) }
        ensures calls { stepped_calls self.new ≡ calls_after (stepped_calls self.old) }
        ensures inner { stepped_inner self.new ≡ stepped_inner self.old }
        ensures size { stepped_size self.new ≡ stepped_size self.old }
        ensures kind { stepped_kind self.new ≡ stepped_kind self.old }
    {
        match self.calls_left {
            Some(0) => {
                self.calls_left = None;
                true
            }
            Some(n) => {
                self.calls_left = Some(n - 1);
                false
            }
            None => false,
        }
    }
}

impl<R: Read> Read for Stepped<R> {
    ghost use Rattle.dw_leb.specs.Devices.{stepped_inner, stepped_size, stepped_calls, stepped_kind, calls_after, FailsIfDue};

    ghost remaining = { λ s. R.remaining s.inner };

    fn read(&mut self, buf: &mut [u8]) -> io::Result<usize>
        ensures bound { ReadsAtMost result buf.new }
        ensures bytes { ReadConsumes
            (R.remaining (stepped_inner self.old))
            (R.remaining (stepped_inner self.new))
            result buf.new }
        ensures step { IfOk result (λ n. n ≤ max (stepped_size self.old) 1) }
        ensures fails { FailsIfDue (stepped_calls self.old) (stepped_kind self.old) result }
        ensures calls { stepped_calls self.new ≡ calls_after (stepped_calls self.old) }
        ensures size { stepped_size self.new ≡ stepped_size self.old }
        ensures kind { stepped_kind self.new ≡ stepped_kind self.old }
    {
        if self.is_failing() {
            return Err(io::Error::from(self.kind));
        }
        let most = buf.len().min(self.step.max(1));
        self.inner.read(&mut buf[..most])
    }
}

impl<W: Write> Write for Stepped<W> {
    ghost use Rattle.dw_leb.specs.Devices.{stepped_inner, stepped_size, stepped_calls, stepped_kind, calls_after, FailsIfDue};

    ghost contents = { λ s. W.contents s.inner };

    fn write(&mut self, buf: &[u8]) -> io::Result<usize>
        ensures bound { WritesAtMost result buf.now }
        ensures bytes { WriteAppends
            (W.contents (stepped_inner self.old))
            (W.contents (stepped_inner self.new))
            result buf.now }
        ensures step { IfOk result (λ n. n ≤ stepped_size self.old) }
        ensures fails { FailsIfDue (stepped_calls self.old) (stepped_kind self.old) result }
        ensures calls { stepped_calls self.new ≡ calls_after (stepped_calls self.old) }
        ensures size { stepped_size self.new ≡ stepped_size self.old }
        ensures kind { stepped_kind self.new ≡ stepped_kind self.old }
    {
        if self.is_failing() {
            return Err(io::Error::from(self.kind));
        }
        let most = buf.len().min(self.step);
        self.inner.write(&buf[..most])
    }

    fn flush(&mut self) -> io::Result<()>
        ensures bytes { Keeps (W.contents (stepped_inner self.old)) (W.contents (stepped_inner self.new)) }
        ensures calls { stepped_calls self.new ≡ stepped_calls self.old }
        ensures size { stepped_size self.new ≡ stepped_size self.old }
        ensures kind { stepped_kind self.new ≡ stepped_kind self.old }
    {
        self.inner.flush()
    }
}
