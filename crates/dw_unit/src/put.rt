//! A number put in the place of that of an attribute (section 7.5.2).
ghost use Rattle.std.specs.Prelude.{◌≡◌, length, map};
ghost use Rattle.dw_tree.specs.Lent.{EntryAt, entries_of};
ghost use Rattle.dw_tree.specs.Put.{Takes};
ghost use Rattle.dw_unit.specs.Unit.{UnitFits, bytes_of, body_bytes, tree_of};
ghost use Rattle.dw_unit.specs.Put.{put_in_unit};

use crate::unit::Unit;

impl Unit {
    /// Puts a number in the place of that of an attribute: the first one of this name, `DW_AT_..`, of the
    /// entry that begins at this offset, counted from the unit's first byte. There has to be such an
    /// attribute, and its value has to take the number (`dw_form::renumbered`). The value keeps its width or
    /// size, and the form that an indirect one names; every offset and all else stay. No memory is taken.
    pub fn put_number(&mut self, offset: u64, name: u64, number: i128)
        requires { Takes (record { offset = offset; name = name; number = number }) (tree_of self.old) }
        ensures put { self.new ≡ put_in_unit (record { offset = offset; name = name; number = number }) self.old }
        ensures fits { UnitFits self.new }
        ensures size { length (body_bytes self.new) ≡ length (body_bytes self.old) }
        ensures whole { length (bytes_of self.new) ≡ length (bytes_of self.old) }
        ensures offsets { map (λ (e : EntryAt). e.offset) (entries_of (tree_of self.new))
            ≡ map (λ (e : EntryAt). e.offset) (entries_of (tree_of self.old)) }
    {
        self.tree.put_number(offset, name, number)
    }
}
