//! A command over a whole section.
use crate::corpus::Corpus;
use crate::digest::Digest;
use crate::error::JobError;
use crate::joined::Joined;
use crate::random::Random;
use dw_tool::command::Command;
use dw_tool::run::{Inputs, run};
use dw_tool::status::Status;
use rothelduf::{Order, Strings, Versions, Watched};
use std::alloc::Global;

/// Over a section of a corpus, each of whose units is there so many times. Where it is checked, something is wrong in
/// it.
pub(crate) fn of_corpus(
    alloc: Global,
    corpus: &Corpus,
    command: Command<'_>,
    rounds: usize,
    random: &mut Random,
    digest: &mut Digest,
) -> Result<(), JobError> {
    let wrong = command == Command::Check;
    let joined = Joined::of(alloc, corpus, rounds, wrong, random)?;
    of_bytes(
        alloc,
        joined.info.as_slice(),
        joined.abbrev.as_slice(),
        corpus.strings(),
        command,
        digest,
    )
}

/// Over these bytes.
pub(crate) fn of_bytes(
    alloc: Global,
    info: &[u8],
    abbrev: &[u8],
    strings: Strings<'_>,
    command: Command<'_>,
    digest: &mut Digest,
) -> Result<(), JobError> {
    let mut writer = Watched::new(Digest::new());
    let inputs = Inputs {
        order: Order::Little,
        versions: Versions::Five,
        info: &mut Watched::new(info),
        abbrev,
        strings,
    };
    let status = run(alloc, command, inputs, &mut writer)?;
    digest.add_number(u64::from(status == Status::Good));
    digest.add_number(writer.into_inner().value());
    Ok(())
}
