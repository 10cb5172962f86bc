//! Whole writes to watched writers.
ghost use Rattle.std.specs.Prelude.{◌≡◌, None, OnOk};
ghost use Rattle.std.specs.Io.KnownBytes.{Appends};
ghost use Rattle.dw_leb.specs.Watch.{inner_of, fault_of, writer_fault, AppendsFront, Wrote};

use crate::errors::WriteError;
use crate::watch::Watched;
use std::io::{ErrorKind, Write};

/// Writes all the bytes. An error has the kind that `fault()` then returns, and a prefix of them
/// was written.
pub fn write_all<W: Write>(writer: &mut Watched<W>, bytes: &[u8]) -> Result<(), WriteError>
    requires { fault_of writer.old ≡ None }
    ensures ok { OnOk result (Appends (W.contents (inner_of writer.old)) (W.contents (inner_of writer.new)) bytes.now) }
    ensures front { AppendsFront
        (W.contents (inner_of writer.old))
        (W.contents (inner_of writer.new))
        bytes.now }
    ensures written { Wrote (W.contents (inner_of writer.old)) (W.contents (inner_of writer.new)) bytes.now result }
    ensures fault { fault_of writer.new ≡ writer_fault result }
{
    let mut at = 0;
    while at < bytes.len() {
        match writer.write(&bytes[at..]) {
            Ok(0) => return Err(WriteError::Io(ErrorKind::WriteZero)),
            Ok(n) => at += n,
            Err(e) => return Err(WriteError::Io(e.kind())),
        }
    }
    Ok(())
}
