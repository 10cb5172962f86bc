//! Laws of the definitions of trees of entries. They call nothing.
ghost use Rattle.std.specs.Prelude.{ℕ};
ghost use Rattle.dw_leb.specs.Laws.{NoneBegins, OneAnswer};
ghost use Rattle.dw_leb.specs.PartLaws.{Stays};
ghost use Rattle.dw_form.specs.declared.shape.Ctx.{Ctx};
ghost use Rattle.dw_abbrev.specs.Table.{Table};
ghost use Rattle.dw_tree.specs.Tree.{tree};
ghost use Rattle.dw_tree.specs.Laws.{LentByPaths, OneOffset, OffsetsRise, OnePath};

/// One spelling: no spelling of a tree of entries begins another.
pub fn one_spelling()
    ensures { (k : Ctx) (t : Table) (room : ℕ) → NoneBegins (tree k t room) }
{}

/// One outcome: over a table, bytes have exactly one of a tree at the front and a break, at one place for one
/// reason.
pub fn one_outcome()
    ensures { (k : Ctx) (t : Table) (room : ℕ) → OneAnswer (tree k t room) }
{}

/// Outcomes are stable: a break of a tree whose reason isn't `Truncated` stays whatever bytes follow.
pub fn outcomes_are_stable()
    ensures { (k : Ctx) (t : Table) (room : ℕ) → Stays (tree k t room).Break }
{}

/// An entry is lent exactly where a path of child numbers leads to it from the root, at that path's offset,
/// and at a level of the path's length and one.
pub fn entries_are_by_paths()
    ensures { LentByPaths }
{}

/// Offsets are distinct: two entries that are lent have two offsets, and the entries are lent in the
/// order of these; two paths lead to two offsets.
pub fn offsets_are_distinct()
    ensures entries { OneOffset }
    ensures rise { OffsetsRise }
    ensures paths { OnePath }
{}
