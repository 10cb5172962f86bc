//! Units built entry by entry (sections 2.3 and 7.5).
ghost use Rattle.std.specs.Prelude.{◌≡◌, ◌≢◌, [], map, true, false, None, Some, IfOk, IfErr, OnOk, OnErr};
ghost use Rattle.dw_leb.specs.View.{uleb_of};
ghost use Rattle.dw_form.specs.Lent.{attribute_of};
ghost use Rattle.dw_tree.specs.Place.{nowhere};
ghost use Rattle.dw_unit.specs.Unit.{UnitFits};
ghost use Rattle.dw_unit.specs.declared.refusal.Refusal.TheVariants.{NoMemory};
ghost use Rattle.dw_unit.specs.Build.{opened, closed, padded, whole_of, is_known, is_too_long, entry_size as entry_bytes_of, ValuesFit, EntryRefused, OpenRefused, place_refusal, null_refusal, close_refusal, pad_refusal, finish_refusal, or_memory};

use crate::draft::{Draft, NESTING, size_limit};
use crate::given::{is_longer, put_entry, values_fit};
use crate::refusal::Refusal;
use crate::unit::Unit;
use dw_abbrev::Table;
use dw_form::AttrValue;
use dw_header::Header;
use dw_leb::Uleb;
use std::alloc::Global;
use std::marker::Model;
use std::rc::Rc;

/// A unit that is being built: its header, the entries that it has so far with the one place where
/// the next one stands, and the nulls behind its root.
#[derive(Debug, Drop)]
pub struct UnitBuilder {
    draft: Draft,
}

impl Model for UnitBuilder {
    ghost use Rattle.std.specs.Prelude.{◌≡◌, None};
    ghost use Rattle.dw_unit.specs.Build.{Building, building_code, building_of};

    ghost Value = { Building };

    ghost coded = { building_code };

    ghost view = { λ b. building_of b.draft };

    ghost invariant = { λ b. b.draft.place.unfinished ≡ None };
}

impl UnitBuilder {
    /// A unit of this header without entries, over the table of their declarations. It takes no
    /// memory.
    pub fn new(alloc: Global, header: Header, table: Rc<Table>) -> UnitBuilder
        ensures { result ≡ record { header = header; table = table.value; spot = nowhere; padding = [] } }
    {
        UnitBuilder {
            draft: Draft::new(alloc, header, table),
        }
    }

    /// One more entry of this code, with its values, behind those of its chain. An entry whose
    /// declaration has no children is closed at once, another one is open (sections 2.3 and 7.5.3).
    ///
    /// Refused are, in this order: an entry behind the root (`SecondRoot`); one with more than 4,095
    /// others around it (`TooDeep`); a code that the table doesn't declare, as that of a null
    /// (`UnknownCode`); values that don't have a spelling under the pairs of the declaration, one for
    /// each (`WrongValues`); a unit that is too long with the entry (`TooLong`); a growth for which
    /// there is no memory (`NoMemory`). After each the builder is unchanged.
    pub fn open(&mut self, code: Uleb, values: &[AttrValue<'_>]) -> Result<(), Refusal>
        ensures opened { OnOk result (self.new ≡ opened (uleb_of code) (map attribute_of values.now) self.old) }
        ensures allowed { OnOk result (OpenRefused self.old (uleb_of code) (map attribute_of values.now) None) }
        ensures refused { IfErr result
            (λ e. e ≢ NoMemory → OpenRefused self.old (uleb_of code) (map attribute_of values.now) (Some e)) }
        ensures memory { IfErr result (λ e. e ≡ NoMemory
            → OpenRefused self.old (uleb_of code) (map attribute_of values.now) None) }
        ensures unchanged { OnErr result (self.new ≡ self.old) }
    {
        if let Some(refusal) = self.misplaced() {
            return Err(refusal);
        }
        self.judged(code, values)?;
        put_entry(&mut self.draft, code, values)?;
        Ok(())
    }

    /// The innermost open entry is closed: a null of `width` bytes ends its children (section 2.3).
    ///
    /// Refused are, in this order: that no entry is open (`NotOpen`); a width other than 1 to 16
    /// (`BadWidth`); a unit that is too long with the null (`TooLong`); a growth for which there is
    /// no memory (`NoMemory`). After each the builder is unchanged.
    pub fn close(&mut self, width: u8) -> Result<(), Refusal>
        ensures closed { OnOk result (self.new ≡ closed width self.old) }
        ensures allowed { OnOk result (close_refusal self.old width ≡ None) }
        ensures refused { IfErr result (λ e. e ≡ or_memory (close_refusal self.old width)) }
        ensures unchanged { OnErr result (self.new ≡ self.old) }
    {
        if self.draft.depth() == 0 {
            return Err(Refusal::NotOpen);
        }
        if let Some(refusal) = self.misfit(width) {
            return Err(refusal);
        }
        self.draft.close(width)?;
        Ok(())
    }

    /// One more null of `width` bytes behind the root, as padding (section 7.5).
    ///
    /// Refused are, in this order: that there is no root (`NoRoot`); that an entry is open (`Open`);
    /// a width other than 1 to 16 (`BadWidth`); a unit that is too long with the null (`TooLong`); a
    /// growth for which there is no memory (`NoMemory`). After each the builder is unchanged.
    pub fn pad(&mut self, width: u8) -> Result<(), Refusal>
        ensures padded { OnOk result (self.new ≡ padded width self.old) }
        ensures allowed { OnOk result (pad_refusal self.old width ≡ None) }
        ensures refused { IfErr result (λ e. e ≡ or_memory (pad_refusal self.old width)) }
        ensures unchanged { OnErr result (self.new ≡ self.old) }
    {
        if let Some(refusal) = self.unfinished() {
            return Err(refusal);
        }
        if let Some(refusal) = self.misfit(width) {
            return Err(refusal);
        }
        self.draft.pad(width)?;
        Ok(())
    }

    /// The unit, once its root is closed. It takes no memory.
    ///
    /// Refused are that there is no root (`NoRoot`) and that an entry is open (`Open`). Then the
    /// builder is handed back as it was.
    pub fn finish(self) -> Result<Unit, (Refusal, UnitBuilder)>
        ensures unit { IfOk result (λ u. whole_of self ≡ Some u) }
        ensures fits { IfOk result (λ u. UnitFits u) }
        ensures allowed { OnOk result (finish_refusal self ≡ None) }
        ensures refused { IfErr result (λ e. Some e.0 ≡ finish_refusal self) }
        ensures handed_back { IfErr result (λ e. e.1 ≡ self) }
    {
        if let Some(refusal) = self.unfinished() {
            return Err((refusal, self));
        }
        let UnitBuilder { draft } = self;
        Ok(draft.finish())
    }

    /// Why no entry can stand at the open place.
    fn misplaced(&self) -> Option<Refusal>
        ensures { result ≡ place_refusal self.now.spot }
    {
        let depth = self.draft.depth();
        if depth == 0 {
            if self.draft.is_empty() {
                None
            } else {
                Some(Refusal::SecondRoot)
            }
        } else if depth >= NESTING {
            Some(Refusal::TooDeep)
        } else {
            None
        }
    }

    /// Why an entry of this code with these values is refused, wherever it stands.
    fn judged(&self, code: Uleb, values: &[AttrValue<'_>]) -> Result<(), Refusal>
        ensures fits { OnOk result (ValuesFit self.now (uleb_of code) (map attribute_of values.now)) }
        ensures known { OnOk result (is_known self.now.table (uleb_of code) ≡ true) }
        ensures short { OnOk result
            (is_too_long self.now (entry_bytes_of self.now (uleb_of code) (map attribute_of values.now)) ≡ false) }
        ensures allowed { OnOk result (EntryRefused self.now (uleb_of code) (map attribute_of values.now) None) }
        ensures refused { IfErr result
            (λ e. (e ≢ NoMemory) × EntryRefused self.now (uleb_of code) (map attribute_of values.now) (Some e)) }
    {
        if code.value == 0 {
            return Err(Refusal::UnknownCode);
        }
        let Some(decl) = self.draft.table().get(code.value) else {
            return Err(Refusal::UnknownCode);
        };
        let header = self.draft.header();
        let ctx = header.context();
        let pairs = decl.pairs();
        if !values_fit(ctx, pairs, values) {
            return Err(Refusal::WrongValues);
        }
        let room = size_limit(header.format()) - self.draft.size() - 1;
        if is_longer(ctx, code, pairs, values, room) {
            return Err(Refusal::TooLong);
        }
        Ok(())
    }

    /// Why no null of this width can follow.
    fn misfit(&self, width: u8) -> Option<Refusal>
        ensures { result ≡ null_refusal self.now width }
    {
        if width < 1 || width > 16 {
            return Some(Refusal::BadWidth);
        }
        if self.draft.is_too_long(width as u64) {
            return Some(Refusal::TooLong);
        }
        None
    }

    /// Why it isn't a whole unit yet.
    fn unfinished(&self) -> Option<Refusal>
        ensures { result ≡ finish_refusal self.now }
    {
        if self.draft.is_empty() {
            return Some(Refusal::NoRoot);
        }
        if self.draft.depth() == 0 {
            None
        } else {
            Some(Refusal::Open)
        }
    }
}
