//! Readers and writers that keep their first fault.
ghost use Rattle.std.specs.Prelude.{◌≡◌, None};
ghost use Rattle.std.specs.Io.{ReadsAtMost, WritesAtMost};
ghost use Rattle.std.specs.Io.KnownBytes.{ReadConsumes, WriteAppends};
ghost use Rattle.dw_leb.specs.Watch.{inner_of, fault_of, read_fault, write_fault};

use std::io;
use std::io::{ErrorKind, Read, Write};

/// A reader or writer that is watched: it passes calls on, and keeps the kind of the first that
/// failed. A call on it requires that it has no fault, so after a fault nothing more is read or
/// written until its owner forgets the fault.
#[derive(Debug, Drop)]
pub struct Watched<T> {
    inner: T,
    first: Option<ErrorKind>,
}

impl<T> Watched<T> {
    /// Watches `inner`, which has not failed yet.
    pub fn new(inner: T) -> Self
        ensures inner { inner_of result ≡ inner }
        ensures fault { fault_of result ≡ None }
    {
        Watched { inner, first: None }
    }

    /// The kind of the first call that failed; `WriteZero` where a writer took no byte of some.
    pub fn fault(&self) -> Option<ErrorKind>
        ensures { result ≡ fault_of self.now }
    {
        self.first
    }

    /// Forgets the fault. It takes the `Watched` by value, so that only its owner can.
    pub fn clear(self) -> Self
        ensures inner { inner_of result ≡ inner_of self }
        ensures fault { fault_of result ≡ None }
    {
        Watched::new(self.into_inner())
    }

    /// The reader or writer, no longer watched.
    pub fn into_inner(self) -> T
        ensures { result ≡ inner_of self }
    {
        let Watched { inner, first: _ } = self;
        inner
    }
}

impl<R: Read> Watched<R> {
    /// One read; there must be no fault. An error becomes the fault, with the error's kind, and no
    /// byte was taken.
    pub fn read(&mut self, buf: &mut [u8]) -> io::Result<usize>
        requires { fault_of self.old ≡ None }
        ensures bound { ReadsAtMost result buf.new }
        ensures bytes { ReadConsumes
            (R.remaining (inner_of self.old))
            (R.remaining (inner_of self.new))
            result buf.new }
        ensures fault { fault_of self.new ≡ read_fault result }
    {
        let result = self.inner.read(buf);
        if let Err(e) = &result {
            self.first = Some(e.kind());
        }
        result
    }
}

impl<W: Write> Watched<W> {
    /// One write; there must be no fault. An error becomes the fault, with the error's kind. Where
    /// the writer took 0 bytes of some, the call returns `Ok(0)` and the fault is `WriteZero`.
    pub fn write(&mut self, buf: &[u8]) -> io::Result<usize>
        requires { fault_of self.old ≡ None }
        ensures bound { WritesAtMost result buf.now }
        ensures bytes { WriteAppends
            (W.contents (inner_of self.old))
            (W.contents (inner_of self.new))
            result buf.now }
        ensures fault { fault_of self.new ≡ write_fault result buf.now }
    {
        match self.inner.write(buf) {
            Ok(n) => {
                if n == 0 && !buf.is_empty() {
                    self.first = Some(ErrorKind::WriteZero);
                }
                Ok(n)
            }
            Err(e) => {
                self.first = Some(e.kind());
                Err(e)
            }
        }
    }
}
