//! A watched writer behind a buffer of a fixed size, for texts that are written as they are made.
ghost use Rattle.std.specs.Prelude.{◌≡◌, ◌≤◌, [], length, take, OnOk};
ghost use Rattle.dw_leb.specs.Watch.{inner_of, writer_fault, fault_of, Wrote};
ghost use Rattle.dw_tool.specs.Output.{Puts, IsClear, SameWriter, StandsBefore, buffered, writer_of};

use crate::buffer::Buffer;
use dw_leb::{Watched, WriteError, write_all};
use std::io::Write;

/// A watched writer behind a buffer. What is appended gathers in the buffer, which is written when it is
/// full, and by `flush`: what is still there when the output is dropped is never written. No call asks
/// for memory.
#[derive(Drop)]
pub struct Output<'a, W> {
    writer: &'a mut Watched<W>,
    buffer: Buffer,
}

impl<'a, W: Write> Output<'a, W> {
    /// An empty buffer before the writer.
    pub fn new(writer: &'a mut Watched<W>) -> Self
        ensures writer { writer_of result ≡ writer.old }
        ensures buffer { buffered result ≡ [] }
        ensures same_writer { StandsBefore result writer.entry }
    {
        Output {
            writer,
            buffer: Buffer::new(),
        }
    }

    /// Appends the bytes.
    ///
    /// Errors: the writer's fault. A beginning of the bytes in the buffer and these was written then.
    #[inline(always)]
    pub fn append(&mut self, bytes: &[u8]) -> Result<(), WriteError>
        requires { IsClear self.old }
        ensures { Puts W.contents self.old self.new bytes.now result }
    {
        self.append_front(bytes, bytes.len())
    }

    /// Appends the first `count` of the bytes, and else does what `append` does. Where there is room for all, all are
    /// moved: a number of bytes that is known is moved at once.
    #[inline(always)]
    pub(crate) fn append_front(&mut self, bytes: &[u8], count: usize) -> Result<(), WriteError>
        requires clear { IsClear self.old }
        requires within { count ≤ length bytes.now }
        ensures { Puts W.contents self.old self.new (take count bytes.now) result }
    {
        if self.buffer.put_front(bytes, count) {
            return Ok(());
        }
        self.append_flushed(&bytes[..count])
    }

    // Appends the bytes behind a flush. They are written at once where no buffer has room for them.
    fn append_flushed(&mut self, bytes: &[u8]) -> Result<(), WriteError>
        requires { IsClear self.old }
        ensures { Puts W.contents self.old self.new bytes.now result }
    {
        self.flush()?;
        if !self.buffer.put_front(bytes, bytes.len()) {
            return write_all(self.writer, bytes);
        }
        Ok(())
    }

    /// Writes the bytes in the buffer, which is empty then.
    ///
    /// Errors: the writer's fault. A beginning of the bytes was written then.
    pub fn flush(&mut self) -> Result<(), WriteError>
        requires { IsClear self.old }
        ensures written { Wrote
            (W.contents (inner_of (writer_of self.old)))
            (W.contents (inner_of (writer_of self.new)))
            (buffered self.old) result }
        ensures empty { OnOk result (buffered self.new ≡ []) }
        ensures fault { fault_of (writer_of self.new) ≡ writer_fault result }
        ensures same_writer { SameWriter self.old self.new }
    {
        write_all(self.writer, self.buffer.as_slice())?;
        self.buffer.clear();
        Ok(())
    }
}
