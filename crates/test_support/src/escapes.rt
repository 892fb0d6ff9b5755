//! The escapes of case files.

ghost use Rattle.std.specs.Prelude.{◌<◌, IfSome};

use std::alloc::{AllocError, Global};

/// Appends bytes as a case file writes them: a backslash as `\\`, a line feed as `\n`, and any other byte outside printable
/// ASCII as `\xNN` with lowercase digits.
///
/// # Errors
///
/// `AllocError` when out of memory.
pub fn push_escaped(text: &mut String, bytes: &[u8]) -> Result<(), AllocError> {
    for byte in bytes {
        let byte = *byte;
        match byte {
            b'\\' => text.push_str("\\\\")?,
            b'\n' => text.push_str("\\n")?,
            b' '..=b'~' => text.push(char::from(byte))?,
            _ => write!(text, "\\x{byte:02x}")?,
        }
    }
    Ok(())
}

/// The value of a hexadecimal digit.
fn digit(byte: u8) -> Option<u8>
    ensures { IfSome result (λ d. d < 16) }
{
    match byte {
        b'0'..=b'9' => Some(byte - b'0'),
        b'a'..=b'f' => Some(byte - b'a' + 10),
        _ => None,
    }
}

/// The byte with these two hexadecimal digits.
fn hex_byte(high: u8, low: u8) -> Option<u8> {
    let (Some(high), Some(low)) = (digit(high), digit(low)) else {
        return None;
    };
    Some(high * 16 + low)
}

/// The first byte that a word stands for, and the rest of the word; None if no byte or no escape comes first.
fn first_byte(word: &[u8]) -> Option<(u8, &[u8])> {
    match word {
        [] => None,
        [b'\\', b'\\', rest @ ..] => Some((b'\\', rest)),
        [b'\\', b'n', rest @ ..] => Some((b'\n', rest)),
        [b'\\', b'x', high, low, rest @ ..] => Some((hex_byte(*high, *low)?, rest)),
        [b'\\', ..] => None,
        [byte, rest @ ..] => Some((*byte, rest)),
    }
}

/// The bytes that a word stands for; None if an escape in it is unknown.
pub(crate) fn unescape(alloc: Global, word: &str) -> Result<Option<Vec<u8>>, AllocError> {
    let mut bytes = Vec::new(alloc);
    let mut rest = word.as_bytes();
    for _ in 0..word.len() {
        if rest.is_empty() {
            break;
        }
        let Some((byte, after)) = first_byte(rest) else {
            return Ok(None);
        };
        bytes.push(byte)?;
        rest = after;
    }
    Ok(Some(bytes))
}
