//! Laws of the definitions of headers. They call nothing. A clause that names no versions speaks of version
//! 5 alone.
ghost use Rattle.dw_leb.specs.Laws.{NoneBegins};
ghost use Rattle.dw_leb.specs.PartLaws.{Stays};
ghost use Rattle.dw_leb.specs.declared.order.Order.{Order};
ghost use Rattle.dw_leb.specs.declared.order.Format.{Format};
ghost use Rattle.dw_header.specs.declared.versions.Versions.{Versions};
ghost use Rattle.dw_header.specs.Header.{fields, fields_under};
ghost use Rattle.dw_header.specs.Laws.{NoHeaderBegins, HeadersAreAccepted, HeadersStandWhereAccepted, HeadersAreSpelled, HeadersAreSpelledUnder, SpelledHeadersStand, SpelledHeadersStandUnder, OneHeaderBreak, OneHeaderBreakUnder, NoHeaderAndBreak, NoHeaderAndBreakUnder, HeaderOrBreak, HeaderOrBreakUnder, HeaderBreaksStay, HeaderBreaksStayUnder, HeadersStay, HeadersStayUnder};

/// One spelling: no spelling of a header's fields begins another, nor with the initial length before
/// them (sections 7.2.2 and 7.5.1) in one byte order. So each header with its unit_length has one
/// spelling, and a header of a version that is accepted is at the front exactly where that spelling is,
/// whatever other versions are accepted.
pub fn one_spelling()
    ensures fields { (order : Order) (format : Format) → NoneBegins (fields order format) }
    ensures none_begins { NoHeaderBegins }
    ensures spelled { HeadersAreSpelled }
    ensures stand { SpelledHeadersStand }
    ensures fields_under { (versions : Versions) (order : Order) (format : Format)
        → NoneBegins (fields_under versions order format) }
    ensures accepted { HeadersAreAccepted }
    ensures stand_where_accepted { HeadersStandWhereAccepted }
    ensures spelled_under { (versions : Versions) → HeadersAreSpelledUnder versions }
    ensures stand_under { (versions : Versions) → SpelledHeadersStandUnder versions }
{}

/// One outcome: bytes have exactly one of a header with its initial length at the front and a break,
/// that break at one place for one reason.
pub fn one_outcome()
    ensures one_break { OneHeaderBreak }
    ensures not_both { NoHeaderAndBreak }
    ensures some { HeaderOrBreak }
    ensures one_break_under { (versions : Versions) → OneHeaderBreakUnder versions }
    ensures not_both_under { (versions : Versions) → NoHeaderAndBreakUnder versions }
    ensures some_under { (versions : Versions) → HeaderOrBreakUnder versions }
{}

/// Outcomes are stable: a header at the front stays there whatever bytes follow, and so does a break
/// whose reason isn't `Truncated`.
pub fn outcomes_are_stable()
    ensures fields { (order : Order) (format : Format) → Stays (fields order format).Break }
    ensures breaks { HeaderBreaksStay }
    ensures headers { HeadersStay }
    ensures fields_under { (versions : Versions) (order : Order) (format : Format)
        → Stays (fields_under versions order format).Break }
    ensures breaks_under { (versions : Versions) → HeaderBreaksStayUnder versions }
    ensures headers_under { (versions : Versions) → HeadersStayUnder versions }
{}
