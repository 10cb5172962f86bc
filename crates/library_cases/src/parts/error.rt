//! Why a case has no answer.
use dw_abbrev::TableRefusal;
use dw_leb::WriteError;
use std::alloc::AllocError;
use thiserror::Error;

#[derive(Clone, Copy, Debug, Drop, Error)]
pub enum CaseError {
    /// The input is no call that the program knows.
    #[error("no such case")]
    NoSuchCase,
    /// A number that so many bytes don't hold.
    #[error("no such number")]
    NoSuchNumber,
    #[error("memory")]
    NoMemory,
    /// A call that builds a table is refused.
    #[error("{0}")]
    Refused(TableRefusal),
    /// A vector refused bytes.
    #[error("not written")]
    NotWritten,
}

impl From<AllocError> for CaseError {
    fn from(_error: AllocError) -> CaseError {
        CaseError::NoMemory
    }
}

impl From<WriteError> for CaseError {
    fn from(_error: WriteError) -> CaseError {
        CaseError::NotWritten
    }
}

impl From<TableRefusal> for CaseError {
    fn from(refusal: TableRefusal) -> CaseError {
        CaseError::Refused(refusal)
    }
}
