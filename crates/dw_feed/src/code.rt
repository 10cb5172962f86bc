//! Codes and nulls at the place of a unit under construction (sections 2.3 and 7.5.2).
ghost use Rattle.std.specs.Prelude.{◌≡◌, ◌≤◌, ◌↔◌, None, length, IfOk, IsTrue};
ghost use Rattle.dw_leb.specs.declared.errors.Reason.TheVariants.{Truncated};
ghost use Rattle.dw_leb.specs.View.{uleb_of};
ghost use Rattle.dw_leb.specs.Reader.{checked, outcome_of};
ghost use Rattle.dw_leb.specs.ReadNumber.{read_uleb};
ghost use Rattle.dw_tree.specs.Tree.{unknown};
ghost use Rattle.dw_feed.specs.FieldSteps.{code_meaning};

use dw_leb::{Reason, Uleb};
use dw_unit::Draft;

/// A number, as the plain reader's outcome.
pub(crate) fn number(b: &[u8], lim: u64) -> Result<Uleb, Reason>
    ensures exact { read_uleb b.now lim ≡ outcome_of uleb_of (λ x. x.width) result }
    ensures room { IfOk result (λ x. (x.width ≤ length b.now) × (x.width ≤ lim)) }
{
    Uleb::read(b, lim)
}

/// The code or null at the front of `b`, as the next field of the draft, of which `lim` bytes are left to
/// the unit's end.
#[inline(always)]
pub(crate) fn code_at(draft: &Draft, b: &[u8], lim: u64) -> Result<Uleb, Reason>
    ensures exact { checked read_uleb (code_meaning draft.now.table draft.now.place.spot.above
        draft.now.place.spot.left) b.now lim
        ≡ outcome_of uleb_of (λ x. x.width) result }
    ensures room { IfOk result (λ x. (x.width ≤ length b.now) × (x.width ≤ lim)) }
    ensures meant { IfOk result
        (λ x. code_meaning draft.now.table draft.now.place.spot.above draft.now.place.spot.left (uleb_of x) ≡ None) }
{
    let code = number(b, lim)?;
    match refusal(draft, code) {
        None => Ok(code),
        Some(reason) => Err(reason),
    }
}

/// Why a code isn't the next field of the draft.
#[tactic(auto, unfolding(dw_tree::specs::Tree::nesting))]
#[inline(always)]
fn refusal(draft: &Draft, code: Uleb) -> Option<Reason>
    ensures { result ≡ code_meaning draft.now.table draft.now.place.spot.above
        draft.now.place.spot.left (uleb_of code) }
{
    if draft.depth() == 0 {
        if draft.is_empty() {
            if code.value == 0 {
                Some(Reason::NoRoot)
            } else {
                undeclared(draft, code.value)
            }
        } else if code.value == 0 {
            None
        } else {
            Some(Reason::SecondRoot)
        }
    } else if code.value == 0 {
        None
    } else if draft.has_level() {
        undeclared(draft, code.value)
    } else {
        Some(Reason::TooDeep)
    }
}

/// Why the table has no declaration of this code.
#[inline(always)]
fn undeclared(draft: &Draft, code: u64) -> Option<Reason>
    ensures { result ≡ unknown draft.now.table code }
{
    match draft.table().get(code) {
        None => Some(Reason::UnknownCode),
        Some(_) => None,
    }
}

/// Whether a field is refused only because the input ends in it.
pub(crate) fn is_cut(reason: Reason) -> bool
    ensures { IsTrue result ↔ (reason ≡ Truncated) }
{
    reason == Reason::Truncated
}
