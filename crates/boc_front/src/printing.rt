// Texts from outside, as they are printed.

use std::alloc::{AllocError, Global};

/// Returns a text as it is printed: with a `?` for each byte that isn't printable ASCII, since a terminal may do what such bytes ask for.
pub fn printed(alloc: Global, text: &str) -> Result<String, AllocError> {
    let mut told = String::new(alloc);
    for byte in text.bytes() {
        told.push(match byte {
            b' '..=b'~' => char::from(byte),
            _ => '?',
        })?;
    }
    Ok(told)
}

/// Returns the same words, each as it is printed.
pub fn printed_words(alloc: Global, words: &[String]) -> Result<Vec<String>, AllocError> {
    let mut told = Vec::new(alloc);
    for word in words {
        told.push(printed(alloc, word)?)?;
    }
    Ok(told)
}
