//! Why a job isn't done.
use dw_tool::status::ToolError;
use rothelduf::{ReadError, Refusal, SectionRefusal, TableRefusal, WriteError};
use std::alloc::AllocError;
use std::io;
use thiserror::Error;

#[derive(Debug, Drop, Error)]
pub(crate) enum JobError {
    #[error("{0}")]
    Io(#[from] io::Error),
    #[error("{0}")]
    Read(#[from] ReadError),
    #[error("{0}")]
    Write(#[from] WriteError),
    #[error("{0}")]
    Tool(#[from] ToolError),
    #[error("table: {0}")]
    Table(#[from] TableRefusal),
    #[error("unit: {0}")]
    Unit(#[from] Refusal),
    #[error("section: {0}")]
    Section(#[from] SectionRefusal),
    #[error("memory")]
    Memory(#[from] AllocError),
    #[error("a piece of a unit was refused")]
    Piece,
    #[error("usage: jobs JOB SIZE SEED")]
    Usage,
}
