//! Laws of the definitions. They call nothing.
ghost use Rattle.std.specs.Prelude.{◌≡◌, ℕ, List};
ghost use Rattle.dw_leb.specs.Number.{fixed, uleb, sleb, length_field, initial_length};
ghost use Rattle.dw_leb.specs.Laws.{NoneBegins, OneAnswer};
ghost use Rattle.dw_leb.specs.PartLaws.{Stays};
ghost use Rattle.dw_leb.specs.declared.order.Order.{Order};

/// One spelling: no spelling of a number begins another one of the same sort, so each number with
/// its width has one, and each length.
pub fn one_spelling()
    ensures fixed_numbers { (order : Order) (n : ℕ) → NoneBegins (fixed order n) }
    ensures unsigned_numbers { NoneBegins uleb }
    ensures signed_numbers { NoneBegins sleb }
    ensures lengths { (order : Order) → NoneBegins (length_field order) }
{}

/// One outcome: bytes have exactly one of a number at the front, within the bytes that are left to
/// the unit, and a break. Bytes break at one offset for one reason.
pub fn one_outcome()
    ensures fixed_numbers { (order : Order) (n : ℕ) → OneAnswer (fixed order n) }
    ensures unsigned_numbers { OneAnswer uleb }
    ensures signed_numbers { OneAnswer sleb }
    ensures lengths { (order : Order) (start : ℕ) → OneAnswer (initial_length order start) }
{}

/// Outcomes are stable: a break whose reason isn't `Truncated` stays whatever bytes follow.
pub fn outcomes_are_stable()
    ensures fixed_numbers { (order : Order) (n : ℕ) → Stays (fixed order n).Break }
    ensures unsigned_numbers { Stays uleb.Break }
    ensures signed_numbers { Stays sleb.Break }
    ensures lengths { (order : Order) (start : ℕ) → Stays (initial_length order start).Break }
{}
