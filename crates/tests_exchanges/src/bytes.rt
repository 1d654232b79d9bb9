//! Bytes that are written as text.

use crate::fault::Fault;

// The byte of two hexadecimal digits.
fn byte_of(high: u8, low: u8) -> Option<u8> {
    let high = char::from(high).to_digit(16)?;
    let low = char::from(low).to_digit(16)?;
    u8::try_from(high.wrapping_mul(16).wrapping_add(low)).ok()
}

// The byte that an escape stands for, after its backslash, and what follows it.
fn escape_of(text: &[u8]) -> Option<(u8, &[u8])> {
    match text {
        [b'r', rest @ ..] => Some((b'\r', rest)),
        [b'n', rest @ ..] => Some((b'\n', rest)),
        [b't', rest @ ..] => Some((b'\t', rest)),
        [b'x', high, low, rest @ ..] => Some((byte_of(*high, *low)?, rest)),
        _ => None,
    }
}

/// Appends the bytes of a text, in which `\r`, `\n`, `\t` and `\xNN` stand for one byte each. A backslash is `\x5c`.
pub fn push_bytes(input: &mut Vec<u8>, text: &str) -> Result<(), Fault> {
    let mut parts = text.split('\\');
    let first = parts.next().unwrap_or("");
    input.extend_from_slice(first.as_bytes())?;
    for part in parts {
        let Some((byte, rest)) = escape_of(part.as_bytes()) else {
            return Err(Fault::BadLine);
        };
        input.push(byte)?;
        input.extend_from_slice(rest)?;
    }
    Ok(())
}
