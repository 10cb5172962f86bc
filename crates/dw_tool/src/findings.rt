//! What is wrong in a section, a line for each finding. Each call answers the writer's fault where it fails, as
//! `Output::append` does.
ghost use Rattle.dw_tool.specs.Findings.{finding_line, findings_text};
ghost use Rattle.dw_tool.specs.Output.{Puts, IsClear};

use crate::output::Output;
use crate::text::{push_hexadecimal, push_labelled_decimal};
use dw_check::Finding;
use dw_leb::WriteError;
use std::io::Write;

/// Appends a line for each finding, in their order: where its entry begins, counted from the section's first byte,
/// the position of the attribute, and the number and the name of its kind, as `0xc 2 6 RepeatedName`.
pub(crate) fn push_findings<W: Write>(
    out: &mut Output<'_, W>,
    findings: &[Finding],
) -> Result<(), WriteError>
    requires { IsClear out.old }
    ensures { Puts W.contents out.old out.new (findings_text findings.now) result }
{
    let mut left = findings;
    while let Some((finding, others)) = left.split_first() {
        push_finding(out, finding)?;
        left = others;
    }
    Ok(())
}

/// Appends the line of a finding.
fn push_finding<W: Write>(out: &mut Output<'_, W>, finding: &Finding) -> Result<(), WriteError>
    requires { IsClear out.old }
    ensures { Puts W.contents out.old out.new (finding_line finding.now) result }
{
    push_hexadecimal(out, finding.offset as u128)?;
    push_labelled_decimal(out, b" ", finding.position)?;
    push_labelled_decimal(out, b" ", finding.kind.number() as u64)?;
    out.append(b" ")?;
    out.append(finding.kind.name().as_bytes())?;
    out.append(b"\n")
}
