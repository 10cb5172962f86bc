//! The table of a unit of generated code.
use crate::error::JobError;
use rothelduf::constants::attribute::*;
use rothelduf::constants::form::*;
use rothelduf::constants::tag::*;
use rothelduf::{Decl, ReadError, Sleb, Table, TableBuilder, TableRefusal, Uleb};
use std::alloc::Global;
use std::rc::Rc;

/// A declaration: its code, its tag, whether its entries have children, and its names and forms.
#[derive(Clone, Copy)]
struct Declared {
    code: u64,
    tag: u64,
    children: bool,
    pairs: &'static [(u64, u64)],
}

const UNIT: Declared = Declared {
    code: 1,
    tag: DW_TAG_COMPILE_UNIT,
    children: true,
    pairs: &[
        (DW_AT_NAME, DW_FORM_STRING),
        (DW_AT_LANGUAGE, DW_FORM_DATA2),
        (DW_AT_STMT_LIST, DW_FORM_SEC_OFFSET),
        (DW_AT_LOW_PC, DW_FORM_ADDR),
    ],
};

const BASE: Declared = Declared {
    code: 2,
    tag: DW_TAG_BASE_TYPE,
    children: false,
    pairs: &[
        (DW_AT_BYTE_SIZE, DW_FORM_DATA1),
        (DW_AT_ENCODING, DW_FORM_DATA1),
    ],
};

const STRUCTURE: Declared = Declared {
    code: 3,
    tag: DW_TAG_STRUCTURE_TYPE,
    children: true,
    pairs: &[
        (DW_AT_NAME, DW_FORM_STRING),
        (DW_AT_BYTE_SIZE, DW_FORM_UDATA),
        (DW_AT_DECL_LINE, DW_FORM_UDATA),
    ],
};

const MEMBER: Declared = Declared {
    code: 4,
    tag: DW_TAG_MEMBER,
    children: false,
    pairs: &[
        (DW_AT_NAME, DW_FORM_STRING),
        (DW_AT_TYPE, DW_FORM_REF_UDATA),
        (DW_AT_DATA_MEMBER_LOCATION, DW_FORM_UDATA),
    ],
};

const FUNCTION: Declared = Declared {
    code: 5,
    tag: DW_TAG_SUBPROGRAM,
    children: true,
    pairs: &[
        (DW_AT_EXTERNAL, DW_FORM_FLAG_PRESENT),
        (DW_AT_NAME, DW_FORM_STRING),
        (DW_AT_DECL_LINE, DW_FORM_UDATA),
        (DW_AT_TYPE, DW_FORM_REF4),
        (DW_AT_FRAME_BASE, DW_FORM_EXPRLOC),
    ],
};

const VARIABLE: Declared = Declared {
    code: 6,
    tag: DW_TAG_VARIABLE,
    children: false,
    pairs: &[
        (DW_AT_NAME, DW_FORM_STRING),
        (DW_AT_TYPE, DW_FORM_REF4),
        (DW_AT_CONST_VALUE, DW_FORM_SDATA),
    ],
};

/// A table whose entries of a variable have this constant.
pub(crate) fn table_of(alloc: Global, constant: Sleb) -> Result<Rc<Table>, JobError> {
    let mut builder = TableBuilder::new(alloc);
    for declared in [UNIT, BASE, STRUCTURE, MEMBER, FUNCTION, VARIABLE] {
        let decl = declaration(alloc, &declared, constant)?;
        builder.add(decl).map_err(|(refusal, _)| refusal)?;
    }
    match builder.finish(1) {
        Ok(table) => Ok(Rc::new(alloc, table).map_err(ReadError::from)?),
        Err((refusal, _builder)) => Err(JobError::Table(refusal)),
    }
}

fn declaration(alloc: Global, declared: &Declared, constant: Sleb) -> Result<Decl, TableRefusal> {
    let mut decl = Decl::new(
        alloc,
        Uleb::least(declared.code),
        Uleb::least(declared.tag),
        declared.children,
        (1, 1),
    )?;
    for (name, form) in declared.pairs {
        decl.pair(Uleb::least(*name), Uleb::least(*form), None)?;
    }
    if declared.code == VARIABLE.code {
        decl.pair(
            Uleb::least(DW_AT_DECL_FILE),
            Uleb::least(DW_FORM_IMPLICIT_CONST),
            Some(constant),
        )?;
    }
    Ok(decl)
}
