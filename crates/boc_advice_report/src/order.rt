// The line of a better order.

ghost use Rattle.std.specs.Prelude.{◌≡◌, ◌++◌, IfOk, OnOk};
ghost use Rattle.boc_advice_report.specs.OrderTexts.{ahead_text, first_text, has_name, number_text, order_text, row_text};

use boc_eager::Swap;
use boc_names::{Names, text_at};
use boc_text::put_number;
use std::alloc::{AllocError, Global};

/// An order of the behaviours that ends before the span.
#[derive(Clone, Copy, PartialEq, Eq, Debug)]
pub struct OtherOrder {
    /// The tick at which it ends.
    pub end: u64,
    /// Where it first goes otherwise than the run.
    pub swap: Swap,
}

// Returns a row by its number.
fn number_text(alloc: Global, row: u32) -> Result<Vec<u8>, AllocError>
    ensures { IfOk result (λ text. text.items ≡ number_text row) }
{
    let mut text = Vec::new(alloc);
    text.extend_from_slice(b"row ")?;
    put_number(&mut text, u64::from(row))?;
    Ok(text)
}

// Appends a row to a text: its number, and after a comma its name, if that is another one. Returns whether it has such a name.
fn put_row(alloc: Global, text: &mut Vec<u8>, names: &Names, row: u32) -> Result<bool, AllocError>
    ensures put { OnOk result (text.new.items ≡ text.old.items ++ row_text names.now row) }
    ensures named { IfOk result (λ named. named ≡ has_name names.now row) }
{
    let number = number_text(alloc, row)?;
    let name = text_at(&names.rows, row as usize);
    text.extend_from_slice(&number)?;
    if name == number.as_slice() {
        return Ok(false);
    }
    text.extend_from_slice(b", ")?;
    text.extend_from_slice(name)?;
    Ok(true)
}

// Appends to a text when a better order ends, and over which cown it first goes otherwise than the run.
fn put_first(text: &mut Vec<u8>, names: &Names, order: OtherOrder) -> Result<(), AllocError>
    ensures { OnOk result (text.new.items ≡ text.old.items ++ first_text names.now order) }
{
    text.extend_from_slice(b"a better order ends at ")?;
    put_number(text, order.end)?;
    text.extend_from_slice(b": start whatever can start; it differs first at ")?;
    text.extend_from_slice(text_at(&names.cowns, order.swap.cown as usize))?;
    text.extend_from_slice(b", where ")?;
    Ok(())
}

// Appends the row that goes first to a text, with a comma after its name, if it has one.
fn put_ahead(alloc: Global, text: &mut Vec<u8>, names: &Names, row: u32) -> Result<(), AllocError>
    ensures { OnOk result (text.new.items ≡ text.old.items ++ ahead_text names.now row) }
{
    if put_row(alloc, text, names, row)? {
        text.push(b',')?;
    }
    Ok(())
}

/// Appends the line of an order that ends before the span to a text: when it ends, and where it first goes otherwise than the run. `AllocError` says that
/// memory was refused.
pub fn put_other_order(
    alloc: Global,
    text: &mut Vec<u8>,
    names: &Names,
    order: OtherOrder,
) -> Result<(), AllocError>
    ensures { OnOk result (text.new.items ≡ text.old.items ++ order_text names.now order) }
{
    put_first(text, names, order)?;
    put_ahead(alloc, text, names, order.swap.ahead)?;
    text.extend_from_slice(b" comes before ")?;
    put_row(alloc, text, names, order.swap.passed)?;
    text.extend_from_slice(b"\n")?;
    Ok(())
}
