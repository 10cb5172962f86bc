//! The numbers of the standard by their names, for tags, attributes and forms. A name is written as
//! in the standard, but in upper case: `DW_AT_NAME` is DW_AT_name.

pub mod attribute;
pub mod form;
pub mod tag;
