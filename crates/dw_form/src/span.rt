//! A part of a pool of bytes.
ghost use Rattle.std.specs.Prelude.{◌≡◌, ◌≤◌, ◌<◌, ◌+◌, ◌++◌, length, drop, vec_len, vec_capacity, IfOk, OnErr};
ghost use Rattle.dw_form.specs.StoredView.{part, SpanFits};

use std::alloc::AllocError;

/// The bytes from `start`, counted from the pool's first byte. They stay where they are while bytes
/// are added to the pool's end.
#[derive(Clone, Copy, Debug)]
pub(crate) struct Span {
    start: usize,
    len: usize,
}

impl Span {
    /// Copies the bytes to the end of the pool. On an error it holds what it held.
    pub(crate) fn append(pool: &mut Vec<u8>, bytes: &[u8]) -> Result<Span, AllocError>
        ensures pool { IfOk result (λ _. pool.new.items ≡ pool.old.items ++ bytes.now) }
        ensures part { IfOk result (λ s. part pool.new.items s ≡ bytes.now) }
        ensures fits { IfOk result (λ s. SpanFits (vec_len pool.new) s) }
        ensures err { OnErr result (pool.new.items ≡ pool.old.items) }
        ensures full { OnErr result
            (vec_capacity pool.old < vec_len pool.old + length bytes.now) }
    {
        let start = pool.len();
        pool.extend_from_slice(bytes)?;
        let len = bytes.len();
        Ok(Span { start, len })
    }

    /// The bytes from `start` to the end of the pool.
    pub(crate) fn end_of(pool: &[u8], start: usize) -> Span
        requires { start ≤ length pool.now }
        ensures part { part pool.now result ≡ drop start pool.now }
        ensures fits { SpanFits (length pool.now) result }
    {
        let len = pool.len() - start;
        Span { start, len }
    }

    /// The bytes, borrowed from the pool.
    pub(crate) fn of<'a>(self, pool: &'a [u8]) -> &'a [u8]
        requires { SpanFits (length pool.now) self }
        ensures { result.now ≡ part pool.now self }
    {
        &pool[self.start..self.start + self.len]
    }
}
