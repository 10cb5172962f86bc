//! Laws of the definition of findings. They call nothing.
ghost use Rattle.dw_check.specs.Laws.{FindingsAscend, FindingsAreThose};

/// The findings of a section are in order: by the offset of their entry, then by the position of their attribute, then
/// by the number of their kind. None stands twice.
pub fn findings_are_in_order()
    ensures { FindingsAscend }
{}

/// A finding is listed exactly where something is wrong: with the root of one of the section's units as a whole, at
/// position 0, or with an attribute of one of its entries, at the attribute's position, which counts from 1.
pub fn findings_are_all_there_are()
    ensures { FindingsAreThose }
{}
