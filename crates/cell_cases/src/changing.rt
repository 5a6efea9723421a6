//! The cells beside a cell: with another byte, a byte less, or a byte more.
use crate::cells::item_of;
use case_notation::Fault;
use dv_keeper::{Bytes, Cell};
use std::alloc::{AllocError, Global};

/// How many cells are canonical, and how many aren't.
#[derive(Clone, Copy)]
pub struct Count {
    pub canonical: u32,
    pub others: u32,
}

impl Count {
    fn new() -> Count {
        Count {
            canonical: 0,
            others: 0,
        }
    }

    fn add(&mut self, alloc: Global, sheet: u8, key: Bytes, value: Bytes) -> Result<(), Fault> {
        match item_of(alloc, sheet, &Cell { key, value })? {
            Some(_) => self.canonical = self.canonical.saturating_add(1),
            None => self.others = self.others.saturating_add(1),
        }
        Ok(())
    }
}

fn copied(alloc: Global, bytes: &[u8]) -> Result<Bytes, AllocError> {
    let mut copy = Bytes::new(alloc);
    for byte in bytes {
        copy.push(*byte)?;
    }
    Ok(copy)
}

// The bytes with some bits of one of them turned over.
fn turned(alloc: Global, bytes: &[u8], place: usize, bits: u8) -> Result<Bytes, AllocError> {
    let mut copy = Bytes::new(alloc);
    for (k, byte) in bytes.iter().enumerate() {
        copy.push(if k == place { *byte ^ bits } else { *byte })?;
    }
    Ok(copy)
}

/// The cells that differ from a cell in the highest or in the lowest bit of one byte.
pub fn changed(alloc: Global, sheet: u8, cell: &Cell) -> Result<Count, Fault> {
    let mut count = Count::new();
    for bits in [1u8, 128] {
        turn_keys(alloc, sheet, cell, bits, &mut count)?;
        turn_values(alloc, sheet, cell, bits, &mut count)?;
    }
    Ok(count)
}

fn turn_keys(
    alloc: Global,
    sheet: u8,
    cell: &Cell,
    bits: u8,
    count: &mut Count,
) -> Result<(), Fault> {
    let bytes = cell.key.as_slice();
    for place in 0..bytes.len() {
        let key = turned(alloc, bytes, place, bits)?;
        count.add(alloc, sheet, key, copied(alloc, cell.value.as_slice())?)?;
    }
    Ok(())
}

fn turn_values(
    alloc: Global,
    sheet: u8,
    cell: &Cell,
    bits: u8,
    count: &mut Count,
) -> Result<(), Fault> {
    let bytes = cell.value.as_slice();
    for place in 0..bytes.len() {
        let value = turned(alloc, bytes, place, bits)?;
        count.add(alloc, sheet, copied(alloc, cell.key.as_slice())?, value)?;
    }
    Ok(())
}

// The bytes without the last, if there are any.
fn cut(alloc: Global, bytes: &[u8]) -> Result<Bytes, AllocError> {
    let length = bytes.len().saturating_sub(1);
    copied(alloc, bytes.get(..length).unwrap_or(bytes))
}

// The bytes with a zero behind them.
fn grown(alloc: Global, bytes: &[u8]) -> Result<Bytes, AllocError> {
    let mut copy = copied(alloc, bytes)?;
    copy.push(0)?;
    Ok(copy)
}

/// The cells whose key or value has a byte less, if it has any, or a zero more.
pub fn of_other_lengths(alloc: Global, sheet: u8, cell: &Cell) -> Result<Count, Fault> {
    let (key, value) = (cell.key.as_slice(), cell.value.as_slice());
    let mut count = Count::new();
    if !key.is_empty() {
        count.add(alloc, sheet, cut(alloc, key)?, copied(alloc, value)?)?;
    }
    if !value.is_empty() {
        count.add(alloc, sheet, copied(alloc, key)?, cut(alloc, value)?)?;
    }
    count.add(alloc, sheet, grown(alloc, key)?, copied(alloc, value)?)?;
    count.add(alloc, sheet, copied(alloc, key)?, grown(alloc, value)?)?;
    Ok(count)
}
