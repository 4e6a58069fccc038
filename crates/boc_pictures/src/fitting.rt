// Texts that have a given room. All that comes from outside is escaped.

use crate::html::put_byte;
use crate::written::Written;

// Returns whether a byte begins a letter: it is no later byte of one in UTF-8.
fn begins_letter(byte: u8) -> bool {
    byte & 0xC0 != 0x80
}

/// Returns how many letters a text in UTF-8 has.
pub(crate) fn letters_in(bytes: &[u8]) -> usize {
    let mut count: usize = 0;
    for byte in bytes {
        if begins_letter(*byte) {
            count = count.saturating_add(1);
        }
    }
    count
}

// Returns whether a text begins with a letter beyond ASCII that is a control, or that XML has no place for.
fn is_unprinted(text: &[u8]) -> bool {
    match text {
        [0xC2, second, ..] => *second < 0xA0,
        [0xEF, 0xBF, third, ..] => *third >= 0xBE,
        _ => false,
    }
}

// Returns whether the letter at a place of a text is not printed.
fn is_hidden_at(bytes: &[u8], place: usize) -> bool {
    match bytes.get(place..) {
        Some(rest) => is_unprinted(rest),
        None => false,
    }
}

// Appends the first letters of a text to another one.
fn put_letters(text: &mut Written, bytes: &[u8], most: usize) {
    let mut left = most;
    let mut is_hidden = false;
    for (place, byte) in bytes.iter().enumerate() {
        if begins_letter(*byte) {
            if left == 0 {
                return;
            }
            left -= 1;
            is_hidden = is_hidden_at(bytes, place);
            if is_hidden {
                text.push(b'?');
            }
        }
        if !is_hidden {
            put_byte(text, *byte);
        }
    }
}

/// Appends a text to another one, at most this many letters of it: an ellipsis is the last of them where some are left out.
pub(crate) fn put_fit(text: &mut Written, bytes: &[u8], most: usize) {
    if letters_in(bytes) <= most {
        put_letters(text, bytes, most);
    } else {
        put_letters(text, bytes, most.saturating_sub(1));
        text.put("…");
    }
}
