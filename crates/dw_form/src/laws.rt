//! Laws of the definitions, for every context, form and constant of a declaration. They call
//! nothing.
ghost use Rattle.std.specs.Prelude.{◌≡◌, ◌≤◌, ◌++◌, ℕ, List, length, Option};
ghost use Rattle.dw_leb.specs.Number.{Signed};
ghost use Rattle.dw_leb.specs.Laws.{NoneBegins, OneAnswer};
ghost use Rattle.dw_leb.specs.PartLaws.{Stays};
ghost use Rattle.dw_form.specs.declared.shape.Ctx.{Ctx};
ghost use Rattle.dw_form.specs.declared.stored.Stored.{Stored};
ghost use Rattle.dw_form.specs.Form.{attribute};
ghost use Rattle.dw_form.specs.StoredView.{StoredFits, content};

/// One spelling: under one form and constant no value's spelling begins another value's, so each
/// value has one.
pub fn one_spelling()
    ensures { (ctx : Ctx) (form : ℕ) (implicit : Option Signed) →
        NoneBegins (attribute ctx form implicit) }
{}

/// One outcome: bytes have exactly one of a value at the front, within the bytes that are left to
/// the unit, and a break. Bytes break at one offset for one reason.
pub fn one_outcome()
    ensures { (ctx : Ctx) (form : ℕ) (implicit : Option Signed) →
        OneAnswer (attribute ctx form implicit) }
{}

/// Outcomes are stable: a break whose reason isn't `Truncated` stays whatever bytes follow.
pub fn outcomes_are_stable()
    ensures { (ctx : Ctx) (form : ℕ) (implicit : Option Signed) →
        Stays (attribute ctx form implicit).Break }
{}

/// A stored value stays in a pool to which bytes are added at the end: it still lies in the pool,
/// and is the same value.
pub fn stored_values_stay()
    ensures fits { (m n : ℕ) (s : Stored) → m ≤ n → StoredFits m s → StoredFits n s }
    ensures content { (pool more : List ℕ) (s : Stored) → StoredFits (length pool) s →
        content (pool ++ more) s ≡ content pool s }
{}
