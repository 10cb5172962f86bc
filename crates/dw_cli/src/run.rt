//! A run by a command line.
ghost use Rattle.std.specs.Prelude.{◌≡◌, None};
ghost use Rattle.dw_leb.specs.Watch.{fault_of, inner_of};
ghost use Rattle.dw_cli.specs.Run.{MemoryEnds, ReadEnds, RunsLine, WriteEnds, file_at, texts_in};
ghost use Rattle.dw_tool.specs.Run.{Runs, TookBytes};
ghost use Rattle.dw_tool.specs.Status.{run_reader_fault, run_writer_fault};

use crate::outcome::Line;
use dw_leb::Watched;
use dw_strings::Strings;
use dw_tool::failure::Failure;
use dw_tool::run::{Inputs, run};
use dw_tool::status::{Status, ToolError};
use std::alloc::Global;
use std::io::{Read, Write};

/// Runs what a line says: its command, in its byte order, over units of its versions. `files` are the bytes of the
/// files that `Line::whole_files` names, in that order; one that isn't named is empty, and so is one that isn't there.
/// `info` reads the file that the line names for `.debug_info`, and `writer` writes to standard output.
///
/// Errors: those of `dw_tool::run::run`, as failures of that file and of standard output: of the file exactly where
/// `info` failed, of standard output exactly where `writer` did, and `Memory` where one of them failed for want of memory,
/// or a growth was refused, which takes at least a byte that was read.
pub fn run_line<'a, R: Read, W: Write>(
    alloc: Global,
    line: &Line<'a>,
    files: &[Vec<u8>],
    info: &mut Watched<R>,
    writer: &mut Watched<W>,
) -> Result<Status, Failure<'a>>
    requires reader { fault_of info.old ≡ None }
    requires writer { fault_of writer.old ≡ None }
    ensures runs { RunsLine line.now files.now (R.remaining (inner_of info.old)) (R.remaining (inner_of info.new))
        (W.contents (inner_of writer.old)) (W.contents (inner_of writer.new)) result }
    ensures memory { MemoryEnds (R.remaining (inner_of info.old)) (R.remaining (inner_of info.new))
        (fault_of info.new) (fault_of writer.new) result }
    ensures read { ReadEnds line.now.info (fault_of info.new) result }
    ensures write { WriteEnds (fault_of writer.new) result }
{
    match run_over(alloc, line, files, info, writer) {
        Ok(status) => Ok(status),
        Err(error) => Err(Failure::of_run(error, line.info)),
    }
}

fn run_over<R: Read, W: Write>(
    alloc: Global,
    line: &Line<'_>,
    files: &[Vec<u8>],
    info: &mut Watched<R>,
    writer: &mut Watched<W>,
) -> Result<Status, ToolError>
    requires reader { fault_of info.old ≡ None }
    requires writer { fault_of writer.old ≡ None }
    ensures runs { Runs line.now.command (texts_in files.now) line.now.versions line.now.order (file_at files.now 0)
        (R.remaining (inner_of info.old)) (R.remaining (inner_of info.new)) (W.contents (inner_of writer.old))
        (W.contents (inner_of writer.new)) result }
    ensures memory { TookBytes (R.remaining (inner_of info.old)) (R.remaining (inner_of info.new)) result }
    ensures read { fault_of info.new ≡ run_reader_fault result }
    ensures write { fault_of writer.new ≡ run_writer_fault result }
{
    let inputs = Inputs {
        order: line.order,
        versions: line.versions,
        info,
        abbrev: file_at(files, 0),
        strings: Strings {
            str: file_at(files, 1),
            line_str: file_at(files, 2),
            str_offsets: file_at(files, 3),
        },
    };
    run(alloc, line.command, inputs, writer)
}

// The bytes of the file with this number.
fn file_at(files: &[Vec<u8>], at: usize) -> &[u8]
    ensures { result.now ≡ file_at files.now at }
{
    match files.get(at) {
        Some(file) => file.as_slice(),
        None => &[],
    }
}
