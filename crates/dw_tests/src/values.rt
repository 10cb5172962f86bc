//! What no case says of values: one pool for many of them, a writer that fails, and the size of a stored value.
use crate::common::same;
use dw_form::{AttrValue, Ctx, Stored, Value, ValueError, lend_value, read_value, write_value};
use dw_leb::devices::Stepped;
use dw_leb::{Format, Order, Reason, Uleb, Watched, WriteError};
use std::alloc::{AllocError, Global};
use std::io::ErrorKind;
use std::mem;
use std::process::Abort;
use std::test::Fail;

/// Little-endian, 32-bit, addresses of eight bytes.
const USUAL: Ctx = Ctx {
    order: Order::Little,
    format: Format::Dwarf32,
    address_size: 8,
};

/// A unit's list has one for each of its values.
#[test]
fn a_stored_value_has_24_bytes(rt: HostRuntime) {
    assert!(rt; mem::size_of::<Stored>() <= 24);
}

const TEXT: AttrValue<'static> = AttrValue {
    via: None,
    value: Value::Text(b"ab"),
};

const NUMBER: AttrValue<'static> = AttrValue {
    via: None,
    value: Value::Num(7),
};

const BLOCK: AttrValue<'static> = AttrValue {
    via: None,
    value: Value::Block {
        width: 4,
        bytes: &[0xcc, 0xdd],
    },
};

/// A pool keeps what it had, and each value that was stored in it.
fn keeps_each(rt: &impl Abort, alloc: Global, pool: &mut Vec<u8>) -> Result<(), ValueError> {
    let (text, taken) = read_value(alloc, USUAL, 0x08, None, b"ab\0cd", 5, pool)?;
    assert!(rt; taken == 3);
    let (empty, taken) = read_value(alloc, USUAL, 0x08, None, &[0], 1, pool)?;
    assert!(rt; taken == 1);
    let number = Stored::keep(&NUMBER, pool)?;
    let cut = read_value(alloc, USUAL, 0x08, None, b"ef", 2, pool);
    assert!(rt; cut.err() == Some(ValueError::Bad(Reason::PastUnit)));
    let block = Stored::keep(&BLOCK, pool)?;
    let pool = pool.as_slice();
    same(rt, pool, &[b'a', b'b', 0xcc, 0xdd]);
    assert!(rt; text.lend(pool) == TEXT);
    assert!(rt; empty.lend(pool).value == Value::Text(&[]));
    assert!(rt; number.lend(pool) == NUMBER);
    assert!(rt; block.lend(pool) == BLOCK);
    Ok(())
}

#[test]
fn one_pool(rt: HostRuntime) -> Result<(), Fail> {
    let mut pool = Vec::new(rt.alloc());
    Ok(keeps_each(&rt, rt.alloc(), &mut pool)?)
}

/// A text and a block are stored whose bytes are in the pool already.
fn stores_at_the_end(rt: &impl Abort, pool: &mut Vec<u8>) -> Result<(), AllocError> {
    pool.extend_from_slice(b"abc")?;
    let text = Stored::of_end(None, None, 1, pool.as_slice());
    let block = Stored::of_end(Some(Uleb::least(0x0a)), Some(1), 3, pool.as_slice());
    pool.extend_from_slice(b"de")?;
    let text = text.lend(pool.as_slice());
    assert!(rt; text.via.is_none() && text.value == Value::Text(b"bc"));
    let block = block.lend(pool.as_slice());
    assert!(rt; block.via == Some(Uleb::least(0x0a)));
    assert!(rt;
        block.value
            == Value::Block {
                width: 1,
                bytes: &[]
            }
    );
    Ok(())
}

#[test]
fn stored_at_the_pools_end(rt: HostRuntime) -> Result<(), Fail> {
    let mut pool = Vec::new(rt.alloc());
    Ok(stores_at_the_end(&rt, &mut pool)?)
}

#[test]
fn keeps_a_write_fault(rt: HostRuntime) -> Result<(), Fail> {
    let (text, _taken) = lend_value(USUAL, 0x08, None, b"abc\0", 4)?;
    let stepped = Stepped::failing(Vec::new(rt.alloc()), 1, 2, ErrorKind::TimedOut);
    let mut writer = Watched::new(stepped);
    let broken = write_value(USUAL, 0x08, &text, &mut writer);
    assert!(rt; broken.err() == Some(WriteError::Io(ErrorKind::TimedOut)));
    assert!(rt; writer.fault() == Some(ErrorKind::TimedOut));
    same(&rt, writer.into_inner().inner().as_slice(), b"ab");
    Ok(())
}
