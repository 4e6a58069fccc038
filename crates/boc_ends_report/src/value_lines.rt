//! The text of the cowns' values.

ghost use Rattle.std.specs.Prelude.{◌≡◌, ◌++◌, [], ◌+◌, ◌^◌, ◌<◌, length, OnOk, IfOk};
ghost use Rattle.boc_program.specs.Programs.{cown_count, members};
ghost use Rattle.boc_ends_report.specs.ValueTexts.{values_text as values_text_spec, value_line, member_lines, cown_lines};

use boc_program::cown::Cown;
use boc_text::{put_number, put_signed};
use std::alloc::{AllocError, Global};

/// Returns the text of these values: a line for each cown, in the order of their numbers, and of an array one for each member. `AllocError` says that
/// memory was refused.
pub fn values_text(alloc: Global, cowns: &[Cown], values: &[i64]) -> Result<Vec<u8>, AllocError>
    requires { length values.now ≡ cown_count cowns.now }
    ensures { IfOk result (λ text. text.items ≡ values_text_spec cowns.now values.now) }
{
    let mut text = Vec::new(alloc);
    put_cowns(&mut text, cowns, values)?;
    Ok(text)
}

// Puts the text of these values after another one.
pub(crate) fn put_cowns(
    text: &mut Vec<u8>,
    cowns: &[Cown],
    values: &[i64],
) -> Result<(), AllocError>
    requires { length values.now ≡ cown_count cowns.now }
    ensures { OnOk result (text.new.items ≡ text.old.items ++ values_text_spec cowns.now values.now) }
{
    match cowns {
        [] => Ok(()),
        [first, others @ ..] => {
            let (own, rest) = values.split_at(first.members());
            put_cown(text, first, own)?;
            put_cowns(text, others, rest)
        }
    }
}

fn put_cown(text: &mut Vec<u8>, cown: &Cown, values: &[i64]) -> Result<(), AllocError>
    requires { length values.now ≡ members cown.now.size }
    ensures { OnOk result (text.new.items ≡ text.old.items ++ cown_lines cown.now.name cown.now.size values.now) }
{
    match cown.size {
        None => {
            text.extend_from_slice(cown.name.as_str().as_bytes())?;
            put_value(text, values[0])
        }
        Some(_) => put_members(text, cown.name.as_str(), 0, values),
    }
}

// Writes what comes after the name in a line.
fn put_value(text: &mut Vec<u8>, value: i64) -> Result<(), AllocError>
    ensures { OnOk result (text.new.items ≡ text.old.items ++ value_line [] value) }
{
    text.push(b' ')?;
    put_signed(text, value)?;
    text.push(b'\n')?;
    Ok(())
}

// Writes the lines of the members of an array from the given one on.
fn put_members(
    text: &mut Vec<u8>,
    name: &str,
    member: u64,
    values: &[i64],
) -> Result<(), AllocError>
    requires { member + length values.now < 2 ^ 64 }
    ensures { OnOk result (text.new.items ≡ text.old.items ++ member_lines name.now member values.now) }
{
    match values {
        [] => Ok(()),
        [value, rest @ ..] => {
            text.extend_from_slice(name.as_bytes())?;
            text.push(b'[')?;
            put_number(text, member)?;
            text.push(b']')?;
            put_value(text, *value)?;
            put_members(text, name, member + 1, rest)
        }
    }
}
