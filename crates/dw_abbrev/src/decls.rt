//! Declarations in their order, which are looked up by their codes (section 7.5.3).
ghost use Rattle.std.specs.Prelude.{◌≡◌, ◌<◌, ◌+◌, ◌∷◌, ◌++◌, ◌⊎◌, [], length, None, Some, IfOk, IfErr, IfSome, IfNone, OnOk, OnErr, IsTrue, option_copied, is_some};
ghost use Rattle.std.specs.Vec.{vec_len, vec_capacity};
ghost use Rattle.dw_abbrev.specs.Table.{Declaration, declared_in};
ghost use Rattle.dw_abbrev.specs.TableView.{joined};
ghost use Rattle.dw_abbrev.specs.Places.{AreApart, ArePlaces, StandsAt, places_from};

use crate::decl::Decl;
use crate::shared::{SharedRun, find_shared};
use indexmap::IndexMap;
use std::alloc::{AllocError, Global};
use std::fmt;
use std::marker::Model;

/// Declarations of distinct codes, in their order.
///
/// Compilers number the codes of a table 1, 2 and so on. As long as they are, the code itself tells where its
/// declaration stands, and no memory is taken but for the declarations. From the first code on that isn't the next
/// number a map tells it of each.
#[derive(Drop)]
pub(crate) struct Decls {
    list: Vec<Decl>,
    /// The index of each declaration by its code. It has none as long as the codes are numbered.
    places: IndexMap<u64, usize>,
}

impl Model for Decls {
    ghost use Rattle.std.specs.Prelude.{List, []};
    ghost use Rattle.dw_abbrev.specs.Table.{Declaration};
    ghost use Rattle.dw_abbrev.specs.Places.{AreApart, ArePlaces};

    ghost Value = { List Declaration };

    ghost view = { λ d. d.list.items };

    ghost invariant = { λ d. record {
      places : ArePlaces d.places.entries d.list.items;
      apart :
          AreApart d.list.items [];
    } };
}

/// A map of the declarations by their codes.
impl fmt::Debug for Decls {
    fn fmt<W: fmt::Write>(&self, f: &mut fmt::Formatter<W>) -> fmt::Result {
        let mut out = f.debug_map();
        for decl in self.list.as_slice() {
            out.entry(&decl.code().value, decl);
        }
        out.finish()
    }
}

impl Decls {
    /// No declarations. It takes no memory.
    pub(crate) fn new(alloc: Global) -> Decls
        ensures { result ≡ [] }
    {
        Decls {
            list: Vec::new(alloc),
            places: IndexMap::new(alloc),
        }
    }

    pub(crate) fn allocator(&self) -> Global {
        *self.list.allocator()
    }

    pub(crate) fn len(&self) -> usize {
        self.list.len()
    }

    pub(crate) fn is_empty(&self) -> bool
        ensures { IsTrue result → self.now ≡ [] }
    {
        self.list.is_empty()
    }

    #[inline(always)]
    pub(crate) fn as_slice(&self) -> &[Decl]
        ensures { result.now ≡ self.now }
    {
        self.list.as_slice()
    }

    /// The declaration of a code, if it stands where codes that are numbered have it.
    #[inline(always)]
    pub(crate) fn numbered(&self, code: u64) -> Option<&Decl>
        ensures { IfSome result (λ d. declared_in self.now code ≡ Some d.now) }
    {
        let decl = self.list.as_slice().get(code.checked_sub(1)? as usize)?;
        if decl.code().value == code {
            Some(decl)
        } else {
            None
        }
    }

    /// The index of the declaration of a code. No other has that code.
    #[inline(always)]
    pub(crate) fn index_of(&self, code: u64) -> Option<usize>
        ensures found { IfSome result (λ i. StandsAt self.now i code) }
        ensures none { IfNone result (declared_in self.now code ≡ None) }
        ensures apart { AreApart self.now [] }
    {
        if self.places.is_empty() {
            return numbered_index(code, self.list.len());
        }
        self.places.get(&code).copied()
    }

    /// The declaration of a code.
    pub(crate) fn get(&self, code: u64) -> Option<&Decl>
        ensures { option_copied result ≡ declared_in self.now code }
    {
        let index = self.index_of(code)?;
        self.list.as_slice().get(index)
    }

    /// Whether there is a declaration of a code.
    #[inline(always)]
    pub(crate) fn has(&self, code: u64) -> bool
        ensures { result ≡ is_some (declared_in self.now code) }
    {
        self.index_of(code).is_some()
    }

    /// Whether no declaration of these runs has a code of one of these.
    pub(crate) fn are_apart_from(&self, runs: &[SharedRun]) -> bool
        ensures { IsTrue result → AreApart self.now (joined runs.now) }
    {
        let mut left = self.list.as_slice();
        while let Some((decl, others)) = left.split_first() {
            if find_shared(runs, decl.code().value).is_some() {
                return false;
            }
            left = others;
        }
        true
    }

    /// One more declaration, of a new code, behind the others. Where there is no memory it is handed back.
    #[inline(always)]
    pub(crate) fn push(&mut self, decl: Decl) -> Result<(), Decl>
        requires { declared_in self.old decl.code.value ≡ None }
        ensures ok { OnOk result (self.new ≡ self.old ++ decl ∷ []) }
        ensures unchanged { OnErr result (self.new ≡ self.old) }
        ensures handed_back { IfErr result (λ d. d ≡ decl) }
    {
        let code = decl.code().value;
        if make_room(&mut self.list).is_err() {
            return Err(decl);
        }
        if note(&mut self.places, self.list.as_slice(), code).is_err() {
            return Err(decl);
        }
        self.list.push_reserved(decl);
        Ok(())
    }
}

/// The index of a code where so many are numbered.
#[inline(always)]
fn numbered_index(code: u64, count: usize) -> Option<usize>
    ensures found { IfSome result (λ i. (code ≡ i + 1) × (i < count)) }
    ensures none { IfNone result ((code ≡ 0) ⊎ (count < code)) }
{
    let index = code.checked_sub(1)? as usize;
    if index < count { Some(index) } else { None }
}

/// There is room for one more declaration: for that one where it is the first, since many a table has no more, and else
/// for as many again.
fn make_room(list: &mut Vec<Decl>) -> Result<(), AllocError>
    ensures items { list.new.items ≡ list.old.items }
    ensures room { OnOk result (vec_len list.new < vec_capacity list.new) }
{
    if list.is_empty() {
        list.reserve_exact(1)
    } else {
        list.reserve(1)
    }
}

/// Takes down where the declaration of a new code stands, which comes behind those of the list. After an error the
/// places are those of the list still.
#[inline(always)]
fn note(places: &mut IndexMap<u64, usize>, list: &[Decl], code: u64) -> Result<(), AllocError>
    requires places { ArePlaces places.old.entries list.now }
    requires apart { AreApart list.now [] }
    requires new { declared_in list.now code ≡ None }
    ensures ok { OnOk result ((d : Declaration) → d.code.value ≡ code
        → ArePlaces places.new.entries (list.now ++ d ∷ [])) }
    ensures err { OnErr result (ArePlaces places.new.entries list.now) }
{
    if !places.is_empty() {
        return put(places, list, code);
    }
    if code == list.len() as u64 + 1 {
        return Ok(());
    }
    number(places, list)?;
    put(places, list, code)
}

/// The places of a list whose codes were numbered up to here.
fn number(places: &mut IndexMap<u64, usize>, list: &[Decl]) -> Result<(), AllocError>
    requires { AreApart list.now [] }
    ensures ok { OnOk result (places.new.entries ≡ places_from 0 list.now) }
    ensures err { OnErr result (places.new.entries ≡ places.old.entries) }
{
    *places = places_of(*places.allocator(), list)?;
    Ok(())
}

fn places_of(alloc: Global, list: &[Decl]) -> Result<IndexMap<u64, usize>, AllocError>
    requires { AreApart list.now [] }
    ensures { IfOk result (λ m. m.entries ≡ places_from 0 list.now) }
{
    let mut places = IndexMap::new(alloc);
    let mut left = list;
    while let Some((decl, others)) = left.split_first() {
        places.insert(decl.code().value, places.len())?;
        left = others;
    }
    Ok(places)
}

/// Puts a new code behind the others.
fn put(places: &mut IndexMap<u64, usize>, list: &[Decl], code: u64) -> Result<(), AllocError>
    requires there { places.old.entries ≡ places_from 0 list.now }
    requires new { declared_in list.now code ≡ None }
    ensures ok { OnOk result ((d : Declaration) → d.code.value ≡ code
        → ArePlaces places.new.entries (list.now ++ d ∷ [])) }
    ensures err { OnErr result (places.new.entries ≡ places.old.entries) }
{
    places.insert(code, list.len())?;
    Ok(())
}
