//! What the program does with the sections.
ghost use Rattle.std.specs.Prelude.{◌≡◌, IfOk, None};
ghost use Rattle.dw_leb.specs.Watch.{inner_of, fault_of, writer_fault, Wrote};
ghost use Rattle.dw_strings.specs.TextView.{sections_of};
ghost use Rattle.dw_tool.specs.Find.{found_text};
ghost use Rattle.dw_tool.specs.Findings.{findings_text};
ghost use Rattle.dw_tool.specs.Run.{TookBytes, Runs, Writes, checked_status, found_status};
ghost use Rattle.dw_tool.specs.Show.{section_text};
ghost use Rattle.dw_tool.specs.Status.{run_reader_fault, run_writer_fault};
ghost use Rattle.dw_tool.specs.declared.command.Command.TheVariants.{Check};

use crate::command::Command;
use crate::find::push_found;
use crate::findings::push_findings;
use crate::output::Output;
use crate::set::set_at;
use crate::show::push_section;
use crate::status::{Status, ToolError};
use crate::type_of::type_line;
use dw_check::{Finding, check};
use dw_leb::{Order, Watched, WriteError, write_all};
use dw_section::{Section, read_section_as, write_section};
use dw_strings::Strings;
use dw_unit::Versions;
use std::alloc::Global;
use std::io::{Read, Write};

/// The sections that a run reads, and how they are read.
#[derive(Drop)]
pub struct Inputs<'a, R> {
    /// The byte order of the fixed numbers in both sections.
    pub order: Order,
    /// The versions of the units that are read. Items of others are kept as their bytes.
    pub versions: Versions,
    /// The reader of `.debug_info`.
    pub info: &'a mut Watched<R>,
    /// The bytes of `.debug_abbrev`.
    pub abbrev: &'a [u8],
    /// The sections of the texts that attributes name.
    pub strings: Strings<'a>,
}

/// Reads all of `.debug_info` from `inputs.info`, and writes what the command makes of it: the text of the
/// section, a line for each entry of a name, the type of an entry, a line for each finding, its bytes with a number
/// in the place of another, or its bytes. Nothing is written before the whole section was read, and nothing at all
/// where it or the request is refused.
///
/// The answer is `Bad` where an entry of a name was to be found and there is none, and where a check finds
/// something; else it is `Good`.
///
/// Errors: `Fault` with the first fault of the section, `Refused` where no entry begins where one was asked for,
/// the text of its type is too big, or a number isn't put, `Read` and `Write` where the reader or the writer failed,
/// `Memory` where a growth was refused. A run over an empty section needs no growth, and none is due once writing
/// has begun. After `Write` a prefix of the output was written.
pub fn run<R: Read, W: Write>(
    alloc: Global,
    command: Command<'_>,
    inputs: Inputs<'_, R>,
    writer: &mut Watched<W>,
) -> Result<Status, ToolError>
    requires reader { fault_of inputs.info.now ≡ None }
    requires writer { fault_of writer.old ≡ None }
    ensures runs { Runs command.entry (sections_of inputs.entry.strings) inputs.entry.versions inputs.entry.order
        inputs.entry.abbrev.now (R.remaining (inner_of inputs.entry.info.now))
        (R.remaining (inner_of inputs.exit.1.1.0.now)) (W.contents (inner_of writer.old))
        (W.contents (inner_of writer.new)) result }
    ensures memory { TookBytes
        (R.remaining (inner_of inputs.entry.info.now))
        (R.remaining (inner_of inputs.exit.1.1.0.now))
        result }
    ensures read { fault_of inputs.exit.1.1.0.now ≡ run_reader_fault result }
    ensures write { fault_of writer.new ≡ run_writer_fault result }
{
    let Inputs {
        order,
        versions,
        info,
        abbrev,
        strings,
    } = inputs;
    let mut section = read_section_as(alloc, order, versions, abbrev, info)?;
    write_output(alloc, command, &mut section, &strings, writer)
}

/// Writes what the command makes of a section.
fn write_output<W: Write>(
    alloc: Global,
    command: Command<'_>,
    section: &mut Section,
    strings: &Strings<'_>,
    writer: &mut Watched<W>,
) -> Result<Status, ToolError>
    requires { fault_of writer.old ≡ None }
    ensures written { Writes command.entry (sections_of strings.now) section.old (W.contents (inner_of writer.old))
        (W.contents (inner_of writer.new)) result }
    ensures fault { fault_of writer.new ≡ run_writer_fault result }
{
    match command {
        Command::Show => show(alloc, section, strings, writer)?,
        Command::Find(name) => return Ok(find(section, strings, name, writer)?),
        Command::TypeOf(offset) => {
            let line = type_line(alloc, section, strings, offset)?;
            write_all(writer, line.as_slice())?;
        }
        Command::Check => return tell_findings(alloc, section, strings, writer),
        Command::SetNumber {
            offset,
            name,
            value,
        } => {
            set_at(section, offset, name, value)?;
            write_section(section, writer)?;
        }
        Command::Copy => write_section(section, writer)?,
    }
    Ok(Status::Good)
}

fn show<W: Write>(
    alloc: Global,
    section: &Section,
    strings: &Strings<'_>,
    writer: &mut Watched<W>,
) -> Result<(), WriteError>
    requires { fault_of writer.old ≡ None }
    ensures written { Wrote (W.contents (inner_of writer.old)) (W.contents (inner_of writer.new))
        (section_text (sections_of strings.now) section.now) result }
    ensures fault { fault_of writer.new ≡ writer_fault result }
{
    let mut out = Output::new(writer);
    push_section(alloc, &mut out, section, strings)?;
    out.flush()
}

fn find<W: Write>(
    section: &Section,
    strings: &Strings<'_>,
    name: &[u8],
    writer: &mut Watched<W>,
) -> Result<Status, WriteError>
    requires { fault_of writer.old ≡ None }
    ensures written { Wrote (W.contents (inner_of writer.old)) (W.contents (inner_of writer.new))
        (found_text (sections_of strings.now) name.now section.now) result }
    ensures status { IfOk result (λ status. status
        ≡ found_status (found_text (sections_of strings.now) name.now section.now)) }
    ensures fault { fault_of writer.new ≡ writer_fault result }
{
    let mut out = Output::new(writer);
    let found = push_found(&mut out, section, strings, name)?;
    out.flush()?;
    Ok(if found { Status::Good } else { Status::Bad })
}

/// Writes what is wrong in a section. Nothing is written before all of it was found.
fn tell_findings<W: Write>(
    alloc: Global,
    section: &Section,
    strings: &Strings<'_>,
    writer: &mut Watched<W>,
) -> Result<Status, ToolError>
    requires { fault_of writer.old ≡ None }
    ensures written { Writes Check (sections_of strings.now) section.now (W.contents (inner_of writer.old))
        (W.contents (inner_of writer.new)) result }
    ensures fault { fault_of writer.new ≡ run_writer_fault result }
{
    let found = check(alloc, section, strings)?;
    write_findings(found.as_slice(), writer)?;
    Ok(status_by(found.as_slice()))
}

fn status_by(found: &[Finding]) -> Status
    ensures { result ≡ checked_status (findings_text found.now) }
{
    if found.is_empty() {
        Status::Good
    } else {
        Status::Bad
    }
}

fn write_findings<W: Write>(findings: &[Finding], writer: &mut Watched<W>) -> Result<(), WriteError>
    requires { fault_of writer.old ≡ None }
    ensures written { Wrote (W.contents (inner_of writer.old)) (W.contents (inner_of writer.new))
        (findings_text findings.now) result }
    ensures fault { fault_of writer.new ≡ writer_fault result }
{
    let mut out = Output::new(writer);
    push_findings(&mut out, findings)?;
    out.flush()
}
