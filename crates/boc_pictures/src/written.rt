// A text that is written as far as there is memory.

use std::alloc::{AllocError, Global};

/// A text, and whether memory was refused while it was written. From then on it doesn't grow.
#[derive(Drop)]
pub(crate) struct Written {
    bytes: Vec<u8>,
    is_refused: bool,
}

impl Written {
    /// Returns an empty text.
    pub(crate) fn new(alloc: Global) -> Written {
        Written {
            bytes: Vec::new(alloc),
            is_refused: false,
        }
    }

    /// Appends bytes, as they are.
    pub(crate) fn put_bytes(&mut self, bytes: &[u8]) {
        if !self.is_refused {
            self.is_refused = self.bytes.extend_from_slice(bytes).is_err();
        }
    }

    /// Appends words of our own, as they are.
    pub(crate) fn put(&mut self, words: &str) {
        self.put_bytes(words.as_bytes());
    }

    /// Appends a byte, as it is.
    pub(crate) fn push(&mut self, byte: u8) {
        if !self.is_refused {
            self.is_refused = self.bytes.push(byte).is_err();
        }
    }

    /// Appends a number.
    pub(crate) fn put_number(&mut self, number: u64) {
        if !self.is_refused {
            self.is_refused = boc_text::put_number(&mut self.bytes, number).is_err();
        }
    }

    /// Returns how many bytes there are.
    pub(crate) fn len(&self) -> usize {
        self.bytes.len()
    }

    /// Appends another text. Where memory was refused to that one, it counts as refused to this one too.
    pub(crate) fn put_all(&mut self, other: &Written) {
        if other.is_refused {
            self.is_refused = true;
        } else {
            self.put_bytes(&other.bytes);
        }
    }

    /// Returns the text. `AllocError` says that memory was refused while it was written.
    pub(crate) fn into_text(self) -> Result<Vec<u8>, AllocError> {
        if self.is_refused {
            return Err(AllocError);
        }
        Ok(self.bytes)
    }
}
