//! Reasons, refusals and errors: their numbers and their texts.
use crate::parts::constants;
use crate::parts::error::CaseError;
use dw_abbrev::TableRefusal;
use dw_form::ValueError;
use dw_leb::{Fault, ReadError, Reason, SectionId, WriteError};
use std::io::ErrorKind;

const REASONS: [Reason; 20] = [
    Reason::Truncated,
    Reason::PastUnit,
    Reason::ReservedLength,
    Reason::BadVersion,
    Reason::BadUnitType,
    Reason::BadAddressSize,
    Reason::LebTooLong,
    Reason::LebTooBig,
    Reason::NoRoot,
    Reason::UnknownCode,
    Reason::UnknownForm,
    Reason::BadIndirect,
    Reason::TooDeep,
    Reason::SecondRoot,
    Reason::AbbrevOffset,
    Reason::BadChildren,
    Reason::HalfPair,
    Reason::DuplicateCode,
    Reason::TooManyPairs,
    Reason::LengthTooBig,
];

const REFUSALS: [TableRefusal; 7] = [
    TableRefusal::DuplicateCode,
    TableRefusal::TooManyPairs,
    TableRefusal::BadWidth,
    TableRefusal::NoMemory,
    TableRefusal::ZeroCode,
    TableRefusal::HalfPair,
    TableRefusal::WrongConstant,
];

/// The fault of an input that ends too early.
const TRUNCATED: Fault = Fault {
    section: SectionId::Info,
    offset: 0,
    reason: Reason::Truncated,
};

/// Appends the answer to a case.
pub fn answer(input: &str, text: &mut String) -> Result<(), CaseError> {
    match input {
        "reasons" => reasons(text),
        "refusals of tables" => refusals(text),
        "errors" => errors(text),
        _ => constants::answer(input, text),
    }
}

fn reasons(text: &mut String) -> Result<(), CaseError> {
    for reason in REASONS {
        write!(text, "{} {reason} ", reason as u8)?;
    }
    Ok(())
}

fn refusals(text: &mut String) -> Result<(), CaseError> {
    for refusal in REFUSALS {
        write!(text, "{} {refusal} ", refusal as u8)?;
    }
    Ok(())
}

fn errors(text: &mut String) -> Result<(), CaseError> {
    let unknown = ValueError::Bad(Reason::UnknownForm);
    write!(text, "{unknown}, {}, ", ValueError::NoMemory)?;
    let fault = ReadError::Fault(TRUNCATED);
    write!(text, "{fault}, {}, ", ReadError::NoMemory)?;
    let timed_out = ReadError::Io(ErrorKind::TimedOut);
    write!(
        text,
        "{timed_out}, {}",
        WriteError::Io(ErrorKind::WriteZero)
    )?;
    Ok(())
}
