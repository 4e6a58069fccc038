// Numbers, strings and lists in JSON.

ghost use Rattle.std.specs.Prelude.{◌≡◌, ◌++◌, ◌<◌, ◌^◌, OnOk};
ghost use Rattle.boc_names.specs.Names.{texts_of};
ghost use Rattle.boc_page.specs.Json.{coded, escaped, escaped_text, hex_digit, is_coded, joined_lists, joined_numbers, joined_strings, key_text};
ghost use Rattle.boc_page.specs.Json.{lists_member, lists_of, lists_text, more_lists, more_numbers, more_strings, number_member};
ghost use Rattle.boc_page.specs.Json.{numbers_member, numbers_text, string_member, string_text, strings_member, strings_text};

use boc_text::put_number;
use std::alloc::AllocError;

// Returns the digit of a number below 16.
fn hex_digit(number: u8) -> u8
    requires { number < 16 }
    ensures { result ≡ hex_digit number }
{
    if number < 10 {
        b'0' + number
    } else {
        b'a' + (number - 10)
    }
}

// Returns whether a byte is written by its number: one that has a meaning in a page, or one that is not printed.
fn is_coded(byte: u8) -> bool
    ensures { result ≡ is_coded byte }
{
    byte < 0x20 || byte == b'<' || byte == b'>' || byte == b'&'
}

// Appends a byte to a text by its number.
fn put_coded(text: &mut Vec<u8>, byte: u8) -> Result<(), AllocError>
    ensures { OnOk result (text.new.items ≡ text.old.items ++ coded byte) }
{
    text.extend_from_slice(b"\\u00")?;
    text.push(hex_digit(byte / 16))?;
    text.push(hex_digit(byte % 16))?;
    Ok(())
}

// Appends a byte of a string to a text.
fn put_byte(text: &mut Vec<u8>, byte: u8) -> Result<(), AllocError>
    ensures { OnOk result (text.new.items ≡ text.old.items ++ escaped byte) }
{
    if byte == b'"' || byte == b'\\' {
        text.push(b'\\')?;
        text.push(byte)?;
        return Ok(());
    }
    if is_coded(byte) {
        return put_coded(text, byte);
    }
    text.push(byte)?;
    Ok(())
}

// Appends the bytes of a string to a text.
fn put_bytes(text: &mut Vec<u8>, bytes: &[u8]) -> Result<(), AllocError>
    ensures { OnOk result (text.new.items ≡ text.old.items ++ escaped_text bytes.now) }
{
    for byte in bytes {
        put_byte(text, *byte)?;
    }
    Ok(())
}

/// Appends a string to a text.
pub(crate) fn put_string(text: &mut Vec<u8>, bytes: &[u8]) -> Result<(), AllocError>
    ensures { OnOk result (text.new.items ≡ text.old.items ++ string_text bytes.now) }
{
    text.push(b'"')?;
    put_bytes(text, bytes)?;
    text.push(b'"')?;
    Ok(())
}

/// Appends a key to a text, after what is before it. A key is a plain word.
#[tactic(auto, unfolding(crate::specs::Json::key_text))]
pub(crate) fn put_key(text: &mut Vec<u8>, key: &[u8]) -> Result<(), AllocError>
    ensures { OnOk result (text.new.items ≡ text.old.items ++ key_text key.now) }
{
    text.extend_from_slice(b",\"")?;
    text.extend_from_slice(key)?;
    text.extend_from_slice(b"\":")?;
    Ok(())
}

// Appends numbers to others.
fn put_more_numbers(text: &mut Vec<u8>, numbers: &[u64]) -> Result<(), AllocError>
    ensures { OnOk result (text.new.items ≡ text.old.items ++ more_numbers numbers.now) }
{
    for number in numbers {
        text.push(b',')?;
        put_number(text, *number)?;
    }
    Ok(())
}

// Appends numbers to a text, with commas between them.
fn put_joined_numbers(text: &mut Vec<u8>, numbers: &[u64]) -> Result<(), AllocError>
    ensures { OnOk result (text.new.items ≡ text.old.items ++ joined_numbers numbers.now) }
{
    match numbers {
        [] => Ok(()),
        [first, others @ ..] => {
            put_number(text, *first)?;
            put_more_numbers(text, others)
        }
    }
}

/// Appends a list of numbers to a text.
pub(crate) fn put_numbers(text: &mut Vec<u8>, numbers: &[u64]) -> Result<(), AllocError>
    ensures { OnOk result (text.new.items ≡ text.old.items ++ numbers_text numbers.now) }
{
    text.push(b'[')?;
    put_joined_numbers(text, numbers)?;
    text.push(b']')?;
    Ok(())
}

// Appends lists of numbers to others.
fn put_more_lists(text: &mut Vec<u8>, lists: &[Vec<u64>]) -> Result<(), AllocError>
    ensures { OnOk result (text.new.items ≡ text.old.items ++ more_lists (lists_of lists.now)) }
{
    for list in lists {
        text.push(b',')?;
        put_numbers(text, list)?;
    }
    Ok(())
}

// Appends lists of numbers to a text, with commas between them.
fn put_joined_lists(text: &mut Vec<u8>, lists: &[Vec<u64>]) -> Result<(), AllocError>
    ensures { OnOk result (text.new.items ≡ text.old.items ++ joined_lists (lists_of lists.now)) }
{
    match lists {
        [] => Ok(()),
        [first, others @ ..] => {
            put_numbers(text, first)?;
            put_more_lists(text, others)
        }
    }
}

/// Appends a list of lists of numbers to a text.
pub(crate) fn put_lists(text: &mut Vec<u8>, lists: &[Vec<u64>]) -> Result<(), AllocError>
    ensures { OnOk result (text.new.items ≡ text.old.items ++ lists_text (lists_of lists.now)) }
{
    text.push(b'[')?;
    put_joined_lists(text, lists)?;
    text.push(b']')?;
    Ok(())
}

// Appends strings to others.
fn put_more_strings(text: &mut Vec<u8>, strings: &[Vec<u8>]) -> Result<(), AllocError>
    ensures { OnOk result (text.new.items ≡ text.old.items ++ more_strings (texts_of strings.now)) }
{
    for string in strings {
        text.push(b',')?;
        put_string(text, string)?;
    }
    Ok(())
}

// Appends strings to a text, with commas between them.
fn put_joined_strings(text: &mut Vec<u8>, strings: &[Vec<u8>]) -> Result<(), AllocError>
    ensures { OnOk result (text.new.items ≡ text.old.items ++ joined_strings (texts_of strings.now)) }
{
    match strings {
        [] => Ok(()),
        [first, others @ ..] => {
            put_string(text, first)?;
            put_more_strings(text, others)
        }
    }
}

/// Appends a list of strings to a text.
pub(crate) fn put_strings(text: &mut Vec<u8>, strings: &[Vec<u8>]) -> Result<(), AllocError>
    ensures { OnOk result (text.new.items ≡ text.old.items ++ strings_text (texts_of strings.now)) }
{
    text.push(b'[')?;
    put_joined_strings(text, strings)?;
    text.push(b']')?;
    Ok(())
}

/// Appends a key with a number to a text.
#[tactic(auto, unfolding(crate::specs::Json::number_member))]
pub(crate) fn put_number_at(text: &mut Vec<u8>, key: &[u8], number: u64) -> Result<(), AllocError>
    ensures { OnOk result (text.new.items ≡ text.old.items ++ number_member key.now number) }
{
    put_key(text, key)?;
    put_number(text, number)
}

/// Appends a key with a string to a text.
#[tactic(auto, unfolding(crate::specs::Json::string_member))]
pub(crate) fn put_string_at(text: &mut Vec<u8>, key: &[u8], bytes: &[u8]) -> Result<(), AllocError>
    ensures { OnOk result (text.new.items ≡ text.old.items ++ string_member key.now bytes.now) }
{
    put_key(text, key)?;
    put_string(text, bytes)
}

/// Appends a key with a list of numbers to a text.
#[tactic(auto, unfolding(crate::specs::Json::numbers_member))]
pub(crate) fn put_numbers_at(
    text: &mut Vec<u8>,
    key: &[u8],
    numbers: &[u64],
) -> Result<(), AllocError>
    ensures { OnOk result (text.new.items ≡ text.old.items ++ numbers_member key.now numbers.now) }
{
    put_key(text, key)?;
    put_numbers(text, numbers)
}

/// Appends a key with a list of lists of numbers to a text.
#[tactic(auto, unfolding(crate::specs::Json::lists_member))]
pub(crate) fn put_lists_at(
    text: &mut Vec<u8>,
    key: &[u8],
    lists: &[Vec<u64>],
) -> Result<(), AllocError>
    ensures { OnOk result (text.new.items ≡ text.old.items ++ lists_member key.now (lists_of lists.now)) }
{
    put_key(text, key)?;
    put_lists(text, lists)
}

/// Appends a key with a list of strings to a text.
#[tactic(auto, unfolding(crate::specs::Json::strings_member))]
pub(crate) fn put_strings_at(
    text: &mut Vec<u8>,
    key: &[u8],
    strings: &[Vec<u8>],
) -> Result<(), AllocError>
    ensures { OnOk result (text.new.items ≡ text.old.items ++ strings_member key.now (texts_of strings.now)) }
{
    put_key(text, key)?;
    put_strings(text, strings)
}
