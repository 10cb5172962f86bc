//! Of which kind an item is (section 7.5.1).
ghost use Rattle.std.specs.Prelude.{◌≡◌, ◌≤◌, length, IfOk, IfErr};
ghost use Rattle.dw_leb.specs.Reader.{made};
ghost use Rattle.dw_leb.specs.ReadNumber.{read_fixed as fixed_reader};
ghost use Rattle.dw_leb.specs.Outcomes.{outcome_from};
ghost use Rattle.dw_section.specs.Item.{least_length, version_and_type, is_four, is_known, ShowsKind};
ghost use Rattle.dw_section.specs.ReadSection.{read_version_and_type};

use dw_leb::{Bad, Order, read_fixed};
use dw_unit::Versions;

/// Whether an item with `n` bytes behind its initial length is a unit that is read, as far as those of them
/// show it that are there.
///
/// An error is `Truncated`, where the input ends before the version or the unit type.
pub(crate) fn shows_known(versions: Versions, order: Order, n: u64, b: &[u8]) -> Result<bool, Bad>
    ensures found { IfOk result (λ known. ShowsKind versions order n b.now known) }
    ensures broken { IfErr result (λ e. (version_and_type versions order n).Break b.now n e.offset e.reason) }
    ensures near { IfErr result (λ e. e.offset ≤ 2) }
{
    match marked(versions, order, n, b) {
        Ok((known, _)) => Ok(known),
        Err(e) => Err(e),
    }
}

/// The same, and how many bytes show it.
fn marked(versions: Versions, order: Order, n: u64, b: &[u8]) -> Result<(bool, usize), Bad>
    ensures exact { made (is_known versions) (read_version_and_type versions order n) b.now n
        ≡ outcome_from (λ x. x) result }
    ensures near { IfErr result (λ e. e.offset ≤ 2) }
{
    if n < least_length(versions) {
        return Ok((false, 0));
    }
    let (version, _) = number(order, 2, b, n)?;
    if version != 5 || n < 3 {
        return Ok((is_four(versions, version), 2));
    }
    match number(order, 1, &b[2..], n - 2) {
        Ok((unit_type, _)) => Ok((0 < unit_type && unit_type < 5, 3)),
        Err(e) => Err(e.behind(2)),
    }
}

/// The least unit_length of a unit of these versions that its version and unit type fit in.
fn least_length(versions: Versions) -> u64
    ensures { result ≡ least_length versions }
{
    match versions {
        Versions::Five => 3,
        Versions::FourAndFive => 2,
    }
}

/// Whether a version is 4, and is asked for.
fn is_four(versions: Versions, version: u64) -> bool
    ensures { result ≡ is_four versions version }
{
    match versions {
        Versions::Five => false,
        Versions::FourAndFive => version == 4,
    }
}

/// A number of `n` bytes, and its size.
fn number(order: Order, n: u8, b: &[u8], lim: u64) -> Result<(u64, usize), Bad>
    requires some { 1 ≤ n }
    requires most { n ≤ 8 }
    ensures exact { fixed_reader order n b.now lim ≡ outcome_from (λ x. x) result }
    ensures room { IfOk result (λ x. n ≤ length b.now) }
    ensures near { IfErr result (λ e. e.offset ≡ 0) }
{
    match read_fixed(order, n, b, lim) {
        Ok(x) => Ok((x as u64, n as usize)),
        Err(reason) => Err(Bad::here(reason)),
    }
}
