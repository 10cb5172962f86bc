//! The units of a folder, out of which sections are joined.
use crate::error::JobError;
use crate::parts::{Part, parts_of};
use rothelduf::Strings;
use std::alloc::Global;
use std::fs;
use std::rt::Files;

#[derive(Drop)]
pub(crate) struct Corpus {
    pub(crate) info: Vec<u8>,
    pub(crate) abbrev: Vec<u8>,
    pub(crate) parts: Vec<Part>,
    texts: Texts,
}

#[derive(Drop)]
struct Texts {
    str: Vec<u8>,
    line_str: Vec<u8>,
    str_offsets: Vec<u8>,
}

impl Corpus {
    pub(crate) fn read(rt: &(impl AllocGlobal + Files), folder: &str) -> Result<Corpus, JobError> {
        let texts = read_texts(rt, folder)?;
        let abbrev = read_file(rt, folder, "debug_abbrev")?;
        let info = read_file(rt, folder, "debug_info")?;
        let parts = parts_of(rt.alloc(), info.as_slice(), abbrev.as_slice())?;
        Ok(Corpus {
            info,
            abbrev,
            parts,
            texts,
        })
    }

    /// The sections of texts, which all joined sections share.
    pub(crate) fn strings(&self) -> Strings<'_> {
        Strings {
            str: self.texts.str.as_slice(),
            line_str: self.texts.line_str.as_slice(),
            str_offsets: self.texts.str_offsets.as_slice(),
        }
    }
}

fn read_texts(rt: &(impl AllocGlobal + Files), folder: &str) -> Result<Texts, JobError> {
    Ok(Texts {
        str: read_file(rt, folder, "debug_str")?,
        line_str: read_file(rt, folder, "debug_line_str")?,
        str_offsets: read_file(rt, folder, "debug_str_offsets")?,
    })
}

fn read_file(
    rt: &(impl AllocGlobal + Files),
    folder: &str,
    name: &str,
) -> Result<Vec<u8>, JobError> {
    let path = path(rt.alloc(), folder, name)?;
    Ok(fs::read(rt, path.as_str())?)
}

fn path(alloc: Global, folder: &str, name: &str) -> Result<String, JobError> {
    Ok(format!(in alloc; "{folder}/{name}")?)
}
