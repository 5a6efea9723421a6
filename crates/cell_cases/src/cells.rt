//! A cell, and the item that it stands for.
use crate::changing::{Count, changed, of_other_lengths};
use case_notation::{Answers, Case, Fault, found, without_wrappings};
use dv_cells::{Item, decode_cell, encode};
use dv_keeper::{Bytes, Cell};
use dv_value::TakeFault;
use std::alloc::Global;

/// A case is a sheet, a key and a value, these two in hexadecimal digits, or `-` for no bytes.
#[derive(Clone, Copy)]
pub struct Cells;

impl Answers for Cells {
    fn answer(&self, rt: &HostRuntime, case: &Case<'_>) -> Result<String, Fault> {
        let mut words = case.only_input()?.split(' ');
        let sheet = found(words.next(), "no sheet")?.parse::<u8>()?;
        let key = bytes_in(rt.alloc(), found(words.next(), "no key")?)?;
        let value = bytes_in(rt.alloc(), found(words.next(), "no value")?)?;
        told(rt.alloc(), sheet, &Cell { key, value })
    }
}

// The bytes that hexadecimal digits stand for.
fn bytes_in(alloc: Global, digits: &str) -> Result<Bytes, Fault> {
    if digits == "-" {
        return Ok(Bytes::new(alloc));
    }
    match hex::decode(alloc, digits) {
        Ok(bytes) => Ok(Bytes::from_vec(bytes)),
        Err(_) => Err(Fault::Wrong("no hexadecimal digits")),
    }
}

/// The item of a cell, if it has one. That the item's cell is this one again is tried too.
pub fn item_of(alloc: Global, sheet: u8, cell: &Cell) -> Result<Option<Item>, Fault> {
    let item = match decode_cell(alloc, sheet, cell) {
        Ok(item) => item,
        Err(TakeFault::NotCanonical) => return Ok(None),
        Err(TakeFault::OutOfMemory) => return Err(Fault::OutOfMemory),
    };
    let (own, made) = encode(alloc, &item)?;
    if own != sheet || !is_same(&made, cell) {
        return Err(Fault::Wrong("the item has another cell"));
    }
    Ok(Some(item))
}

fn is_same(a: &Cell, b: &Cell) -> bool {
    a.key.as_slice() == b.key.as_slice() && a.value.as_slice() == b.value.as_slice()
}

// The item of a cell, and how many of the cells beside it have one.
fn told(alloc: Global, sheet: u8, cell: &Cell) -> Result<String, Fault> {
    let Some(item) = item_of(alloc, sheet, cell)? else {
        return Ok(String::from_str(alloc, "not canonical")?);
    };
    let printed = format!(in alloc; "{item:?}")?;
    let mut text = without_wrappings(alloc, printed.as_str())?;
    push_count("one bit changed", changed(alloc, sheet, cell)?, &mut text)?;
    push_count(
        "other lengths",
        of_other_lengths(alloc, sheet, cell)?,
        &mut text,
    )?;
    Ok(text)
}

fn push_count(what: &str, count: Count, text: &mut String) -> Result<(), Fault> {
    write!(
        text,
        "\n{what}: {} canonical, {} not",
        count.canonical, count.others
    )?;
    Ok(())
}
