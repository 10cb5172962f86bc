//! The rule by which rows go out, kept as it was before rows were gathered faster: which calls a writer gets.
//!
//! Rows are held, and written together, up to 512 bytes. A null of one byte joins them, and so does an entry whose code
//! has one byte and whose forms all tell the sizes of its values. Any other entry joins them if it has no more than 128
//! bytes. What has no room, and a null of more bytes, goes out behind them by itself: a code, each run of values of
//! told sizes, each LEB128 number, each text, the zero behind it.
use std::alloc::AllocError;

/// The most bytes that are held.
const MOST_HELD: usize = 512;

/// The most of an entry whose code has several bytes, or of which not each form tells the size of its values.
const MOST_SPELLED: usize = 128;

/// Values of one kind, one behind the other.
#[derive(Clone, Copy)]
pub enum Values {
    /// So many numbers of one byte.
    Told(usize),
    /// So many LEB128 numbers of two bytes.
    Numbers(usize),
    /// A text of so many bytes, and its zero.
    Text(usize),
}

impl Values {
    pub fn size(self) -> usize {
        match self {
            Values::Told(count) => count,
            Values::Numbers(count) => count.saturating_mul(2),
            Values::Text(size) => size.saturating_add(1),
        }
    }

    fn are_told(self) -> bool {
        match self {
            Values::Told(_) => true,
            Values::Numbers(count) => count == 0,
            Values::Text(_) => false,
        }
    }
}

/// What a row is.
#[derive(Clone, Copy, PartialEq, Eq)]
pub enum Kind {
    Leaf,
    Branch,
    Null,
}

/// A row: the width of its code, and its values.
#[derive(Clone, Copy)]
pub struct MadeRow {
    pub kind: Kind,
    pub width: usize,
    pub values: [Values; 3],
}

impl MadeRow {
    pub fn size(&self) -> usize {
        let [first, second, third] = self.values;
        self.width
            .saturating_add(first.size())
            .saturating_add(second.size())
            .saturating_add(third.size())
    }

    /// Whether it is held, behind so many bytes.
    fn joins(&self, held: usize) -> bool {
        let [first, second, third] = self.values;
        let is_plain = self.width == 1 && first.are_told() && second.are_told() && third.are_told();
        let is_small = self.kind != Kind::Null && self.size() <= MOST_SPELLED;
        (is_plain || is_small) && held.saturating_add(self.size()) <= MOST_HELD
    }
}

/// Appends where each call ends: those of the header, and those of the rows.
pub fn append_ends(rows: &[MadeRow], ends: &mut Vec<usize>) -> Result<(), AllocError> {
    let mut end = append_end(0, 4, ends)?;
    end = append_end(end, 8, ends)?;
    let mut held = 0usize;
    for row in rows {
        if row.joins(held) {
            held = held.saturating_add(row.size());
        } else {
            end = append_end(end, held, ends)?;
            end = append_alone(row, end, ends)?;
            held = 0;
        }
    }
    append_end(end, held, ends)?;
    Ok(())
}

/// Appends where a call of so many bytes ends. There is none of no bytes.
fn append_end(end: usize, size: usize, ends: &mut Vec<usize>) -> Result<usize, AllocError> {
    let next = end.saturating_add(size);
    if size > 0 {
        ends.push(next)?;
    }
    Ok(next)
}

/// Appends the ends of a row that goes out by itself.
fn append_alone(row: &MadeRow, end: usize, ends: &mut Vec<usize>) -> Result<usize, AllocError> {
    let mut end = append_end(end, row.width, ends)?;
    let mut run = 0usize;
    for values in row.values {
        if let Values::Told(count) = values {
            run = run.saturating_add(count);
        } else {
            end = append_untold(values, append_end(end, run, ends)?, ends)?;
            run = 0;
        }
    }
    append_end(end, run, ends)
}

/// Appends the ends of values that go out one by one.
fn append_untold(values: Values, end: usize, ends: &mut Vec<usize>) -> Result<usize, AllocError> {
    match values {
        Values::Told(count) => append_end(end, count, ends),
        Values::Numbers(count) => append_numbers(count, end, ends),
        Values::Text(size) => {
            let end = append_end(end, size, ends)?;
            append_end(end, 1, ends)
        }
    }
}

fn append_numbers(count: usize, end: usize, ends: &mut Vec<usize>) -> Result<usize, AllocError> {
    let mut end = end;
    for _ in 0..count {
        end = append_end(end, 2, ends)?;
    }
    Ok(end)
}
