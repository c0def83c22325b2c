//! Text that C is given and frees.

use std::alloc::AllocError;
use std::ptr::null;

/// A text that the caller frees by `tcpwit_text_free`.
#[repr(C)]
#[derive(Clone, Copy)]
pub struct Text {
    /// Its bytes, and a zero after them. Null if there is no text.
    pub bytes: *const u8,
    /// How many bytes it has without that zero.
    pub length: usize,
}

impl Text {
    /// No text.
    pub(crate) fn none() -> Text {
        Text {
            bytes: null(),
            length: 0,
        }
    }

    /// Gives a text away: its memory stays until the caller frees it.
    pub(crate) fn new(mut text: Vec<u8>) -> Result<Text, AllocError> {
        let length = text.len();
        text.push(0)?;
        let bytes = text.as_ptr();
        let _ = text.leak();
        Ok(Text { bytes, length })
    }
}
