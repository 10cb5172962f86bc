//! Tables built declaration by declaration (section 7.5.3).
ghost use Rattle.std.specs.Prelude.{◌≡◌, ◌∷◌, ◌++◌, [], None, IfOk, IfErr, OnOk, OnErr};
ghost use Rattle.std.specs.Result.{result_err};
ghost use Rattle.dw_abbrev.specs.Table.{table as part};
ghost use Rattle.dw_abbrev.specs.Build.{width_refusal, add_refusal, or_memory};

use crate::decl::Decl;
use crate::decls::Decls;
use crate::fields::zero;
use crate::refusal::TableRefusal;
use crate::table::Table;
use std::alloc::Global;
use std::marker::Model;

/// An abbreviation table that is being built: the declarations that it has so far.
#[derive(Debug, Drop)]
pub struct TableBuilder {
    decls: Decls,
}

impl Model for TableBuilder {
    ghost use Rattle.std.specs.Prelude.{List};
    ghost use Rattle.dw_abbrev.specs.Table.{Declaration};

    ghost Value = { List Declaration };

    ghost use Rattle.dw_abbrev.specs.Table.{table};

    ghost view = { λ b. b.decls };

    ghost invariant = { λ b. table.Fits (record { declarations = b.decls; last_zero = 1 }) };
}

impl TableBuilder {
    /// A table without declarations. It takes no memory.
    pub fn new(alloc: Global) -> TableBuilder
        ensures { result ≡ [] }
    {
        TableBuilder {
            decls: Decls::new(alloc),
        }
    }

    /// One more declaration, behind the others.
    ///
    /// Refused are a code that the table has (`DuplicateCode`), then more than 1,024 pairs
    /// (`TooManyPairs`), and then a growth for which there is no memory (`NoMemory`). After each the
    /// builder is unchanged, and the declaration is handed back.
    pub fn add(&mut self, decl: Decl) -> Result<(), (TableRefusal, Decl)>
        ensures added { OnOk result (self.new ≡ self.old ++ decl ∷ []) }
        ensures allowed { OnOk result (add_refusal self.old decl ≡ None) }
        ensures refused { IfErr result (λ e. e.0 ≡ or_memory (add_refusal self.old decl)) }
        ensures handed_back { IfErr result (λ e. e.1 ≡ decl) }
        ensures unchanged { OnErr result (self.new ≡ self.old) }
    {
        let code = decl.code();
        if self.decls.has(code.value) {
            return Err((TableRefusal::DuplicateCode, decl));
        }
        if decl.has_too_many() {
            return Err((TableRefusal::TooManyPairs, decl));
        }
        match self.decls.push(decl) {
            Ok(()) => Ok(()),
            Err(decl) => Err((TableRefusal::NoMemory, decl)),
        }
    }

    /// The table, which a zero of `width` bytes ends. It takes no memory.
    ///
    /// Refused is a count of bytes other than 1 to 16 (`BadWidth`). Then the builder is handed back
    /// as it was.
    pub fn finish(self, width: u8) -> Result<Table, (TableRefusal, TableBuilder)>
        ensures table { IfOk result (λ t. t ≡ record { declarations = self; last_zero = width }) }
        ensures fits { IfOk result (λ t. part.Fits t) }
        ensures allowed { OnOk result (width_refusal width ≡ None) }
        ensures refused { IfErr result (λ e. Some e.0 ≡ width_refusal width) }
        ensures handed_back { IfErr result (λ e. e.1 ≡ self) }
    {
        match zero(width) {
            Ok(last_zero) => Ok(Table::of(self.decls, last_zero)),
            Err(refusal) => Err((refusal, self)),
        }
    }
}
