//! Bytes of a log as text.

use std::alloc::{AllocError, Global};

/// How many bytes are shown.
const SHOWN: usize = 40;

/// Bytes between backquotes, and no more than some dozens of them. Those that are no visible ASCII,
/// and those that end a text or escape in one, stand by their number.
pub fn quoted(alloc: Global, bytes: &[u8]) -> Result<String, AllocError> {
    let mut text = String::from_str(alloc, "`")?;
    for byte in bytes.iter().take(SHOWN) {
        if byte.is_ascii_graphic() && !matches!(*byte, b'`' | b'\\' | b'"') {
            text.push(char::from(*byte))?;
        } else {
            let shown = format!(in alloc; "\\x{byte:02x}")?;
            text.push_str(&shown)?;
        }
    }
    if bytes.len() > SHOWN {
        text.push_str("..")?;
    }
    text.push('`')?;
    Ok(text)
}
