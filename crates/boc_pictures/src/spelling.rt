// How names are spelled in a text and in JSON.

use crate::written::Written;

// Returns whether a byte is printed as it is.
fn is_printable(byte: u8) -> bool {
    (0x20..0x7f).contains(&byte)
}

/// What a name is spelled for.
#[derive(Clone, Copy, PartialEq, Eq, Debug)]
pub(crate) enum Spelling {
    Text,
    Json,
}

impl Spelling {
    /// Puts a name, at most this many bytes of it: what is left out is written as two dots, and a byte that can't be printed by `?`.
    pub(crate) fn put(self, text: &mut Written, name: &[u8], most: usize) {
        let kept = if name.len() <= most {
            most
        } else {
            most.saturating_sub(2)
        };
        for byte in name.iter().take(kept) {
            self.put_byte(text, if is_printable(*byte) { *byte } else { b'?' });
        }
        if name.len() > most {
            text.put("..");
        }
    }

    // Puts a byte that is printed: in a string of JSON, what means something there comes after a backslash.
    fn put_byte(self, text: &mut Written, byte: u8) {
        if self == Spelling::Json && (byte == b'"' || byte == b'\\') {
            text.push(b'\\');
        }
        text.push(byte);
    }
}
