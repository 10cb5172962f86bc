//! The values at the front of an entry whose sizes their forms tell (section 7.5.6).
ghost use Rattle.std.specs.Prelude.{◌≡◌, ◌≤◌, ◌+◌, ◌*◌, List, length, ◌∷◌, ◌++◌, [], None, map, IsTrue, IsFalse};

use crate::pair::Pair;
use crate::parts::{LOW_FORMS, addresses_of, bytes_of, has_offset, is_told, offsets_of};

/// The most values that are counted.
const MOST_VALUES: u16 = 1024;

/// The values at the front of each entry of a declaration whose sizes their forms tell: how many they are, and how many
/// bytes they have in all, whatever their bytes are. Of more than 1,024 the first 1,024 are counted.
#[derive(Clone, Copy, Debug, PartialEq, Eq)]
pub struct FixedPrefix {
    /// How many values.
    pub count: u16,
    /// The bytes of those that have the same size in each unit.
    pub bytes: u16,
    /// How many are as long as an address of the unit.
    pub addresses: u16,
    /// How many are as long as an offset into a section.
    pub offsets: u16,
    pub(crate) ghost few: { (count ≤ 1024) × (bytes ≤ 16 * count) × (addresses ≤ count) × (offsets ≤ count) },
}

impl FixedPrefix {
    ghost use Rattle.dw_abbrev.specs.Table.{Pair as ThePair};
    ghost use Rattle.dw_abbrev.specs.PairView.{pair_of};
    ghost use Rattle.dw_abbrev.specs.Parts.{told_by};
    ghost use Rattle.dw_abbrev.specs.Build.{ArePairs, pair_refusal};
    ghost use Rattle.dw_abbrev.specs.Prefix.{IsPrefix, told};

    /// That of a declaration without pairs.
    pub(crate) fn empty() -> FixedPrefix
        ensures { IsPrefix [] result }
    {
        FixedPrefix {
            count: 0,
            bytes: 0,
            addresses: 0,
            offsets: 0,
        }
    }

    /// That of a declaration with these pairs.
    #[inline(always)]
    pub(crate) fn of(pairs: &[Pair]) -> FixedPrefix
        requires { ArePairs (map pair_of pairs.now) }
        ensures { IsPrefix (map pair_of pairs.now) result }
    {
        if pairs.is_empty() {
            return FixedPrefix::empty();
        }
        FixedPrefix::counted(pairs)
    }

    /// The same, pair by pair. Those behind the first one that isn't counted aren't looked at.
    #[inline(never)]
    fn counted(pairs: &[Pair]) -> FixedPrefix
        requires { ArePairs (map pair_of pairs.now) }
        ensures { IsPrefix (map pair_of pairs.now) result }
    {
        let mut prefix = FixedPrefix::empty();
        let mut left = pairs;
        while let Some((pair, others)) = left.split_first() {
            if prefix.count == MOST_VALUES {
                return prefix;
            }
            if !prefix.count_form(pair.form.value) {
                return prefix;
            }
            left = others;
        }
        prefix
    }

    /// The bytes that its values have in all, in units with addresses and offsets of these sizes.
    #[inline(always)]
    pub fn size(&self, address_size: u8, offset_size: u8) -> usize
        ensures { result ≡ self.now.bytes + (self.now.addresses * address_size + self.now.offsets * offset_size) }
    {
        self.bytes as usize
            + (self.addresses as usize * address_size as usize
                + self.offsets as usize * offset_size as usize)
    }

    /// With one pair more behind `before` others, of which it is that.
    pub(crate) fn extended(self, pair: &Pair, before: usize) -> FixedPrefix
        requires { pair_refusal (pair_of pair.now) ≡ None }
        ensures { (ps : List ThePair) → length ps ≡ before → IsPrefix ps self
            → IsPrefix (ps ++ pair_of pair.now ∷ []) result }
    {
        if self.count as usize != before {
            return self;
        }
        if self.count == MOST_VALUES {
            return self;
        }
        let mut prefix = self;
        if !prefix.count_form(pair.form.value) {
            return self;
        }
        prefix
    }

    /// Counts one value more, of this form, if the form tells its size. Else nothing is changed, and the answer is
    /// false.
    #[inline(always)]
    fn count_form(&mut self, form: u64) -> bool
        requires { self.old.count ≤ 1023 }
        ensures count { IsTrue result → self.new.count ≡ self.old.count + 1 }
        ensures prefix { IsTrue result → (ps : List ThePair) (p : ThePair) → IsPrefix ps self.old → length ps
            ≡ self.old.count
            → told p ≡ told_by form → IsPrefix (ps ++ p ∷ []) self.new }
        ensures untold { IsFalse result → told_by form ≡ None }
        ensures same { IsFalse result → self.new ≡ self.old }
    {
        if form >= LOW_FORMS {
            return self.count_high(form);
        }
        if !is_told(form) {
            return false;
        }
        self.add(bytes_of(form), addresses_of(form), offsets_of(form));
        true
    }

    /// The same of a form behind those of the standard.
    #[inline(always)]
    fn count_high(&mut self, form: u64) -> bool
        requires room { self.old.count ≤ 1023 }
        requires high { 45 ≤ form }
        ensures count { IsTrue result → self.new.count ≡ self.old.count + 1 }
        ensures prefix { IsTrue result → (ps : List ThePair) (p : ThePair) → IsPrefix ps self.old → length ps
            ≡ self.old.count
            → told p ≡ told_by form → IsPrefix (ps ++ p ∷ []) self.new }
        ensures untold { IsFalse result → told_by form ≡ None }
        ensures same { IsFalse result → self.new ≡ self.old }
    {
        if !has_offset(form) {
            return false;
        }
        self.add(0, 0, 1);
        true
    }

    /// Counts one value more, of so many bytes, addresses and offsets.
    #[inline(always)]
    fn add(&mut self, bytes: u16, addresses: u16, offsets: u16)
        requires bytes { bytes ≤ 16 }
        requires addresses { addresses ≤ 1 }
        requires offsets { offsets ≤ 1 }
        requires room { self.old.count ≤ 1023 }
        ensures count { self.new.count ≡ self.old.count + 1 }
        ensures bytes { self.new.bytes ≡ self.old.bytes + bytes }
        ensures addresses { self.new.addresses ≡ self.old.addresses + addresses }
        ensures offsets { self.new.offsets ≡ self.old.offsets + offsets }
    {
        *self = FixedPrefix {
            count: self.count + 1,
            bytes: self.bytes + bytes,
            addresses: self.addresses + addresses,
            offsets: self.offsets + offsets,
        };
    }
}
