//! By how many calls a unit goes out.
use dw_leb::Watched;
use dw_leb::devices::Stepped;
use dw_unit::{Unit, write_unit};
use std::alloc::{AllocError, Global};
use std::io::ErrorKind;

/// The most calls that are told.
const MOST_CALLS: u64 = 100;

/// Appends how many bytes a writer has that fails at its first call, at its second, and so on, up to one that fails at
/// none: `0 4 12 in all`.
pub fn append_calls(alloc: Global, unit: &Unit, answer: &mut String) -> Result<(), AllocError> {
    for after in 0..MOST_CALLS {
        if append_size_by(alloc, unit, after, answer)? {
            return answer.push_str("in all");
        }
    }
    answer.push_str("and more")
}

/// Appends how many bytes such a writer has, and tells whether the unit was written.
fn append_size_by(
    alloc: Global,
    unit: &Unit,
    calls: u64,
    answer: &mut String,
) -> Result<bool, AllocError> {
    let (size, is_whole) = written_by(alloc, unit, calls);
    write!(answer, "{size} ")?;
    Ok(is_whole)
}

/// How many bytes a writer has that takes so many calls whole and fails at the next, and whether the unit was written.
pub fn written_by(alloc: Global, unit: &Unit, calls: u64) -> (usize, bool) {
    let device = Stepped::failing(Vec::new(alloc), usize::MAX, calls, ErrorKind::Other);
    let mut writer = Watched::new(device);
    let is_whole = write_unit(unit, &mut writer).is_ok();
    (writer.into_inner().inner().len(), is_whole)
}
