//! Text as it stands in a transcript: `\0b` is the byte with these two hexadecimal digits.
//! Each answer says whether the text is written so.
use std::alloc::{AllocError, Global};

/// Puts the text behind the bytes.
pub fn put_text(bytes: &mut Vec<u8>, text: &str) -> Result<bool, AllocError> {
    let mut parts = text.split('\\');
    bytes.extend_from_slice(parts.next().unwrap_or("").as_bytes())?;
    for part in parts {
        if !put_part(bytes, part)? {
            return Ok(false);
        }
    }
    Ok(true)
}

// Puts what stands between a backslash and the next one behind the bytes.
fn put_part(bytes: &mut Vec<u8>, part: &str) -> Result<bool, AllocError> {
    match part.split_at_checked(2) {
        Some((digits, rest)) => put_byte(bytes, digits, rest),
        None => Ok(false),
    }
}

// Puts the byte with these digits behind the bytes, and then the text.
fn put_byte(bytes: &mut Vec<u8>, digits: &str, rest: &str) -> Result<bool, AllocError> {
    let Ok(byte) = u8::from_str_radix(digits, 16) else {
        return Ok(false);
    };
    bytes.push(byte)?;
    bytes.extend_from_slice(rest.as_bytes())?;
    Ok(true)
}

/// Puts the text and the end of a line behind the bytes.
pub fn put_line(bytes: &mut Vec<u8>, text: &str) -> Result<bool, AllocError> {
    let is_read = put_text(bytes, text)?;
    bytes.push(b'\n')?;
    Ok(is_read)
}

/// Puts a text behind the bytes as often as the number before it says.
pub fn put_repeated(alloc: Global, bytes: &mut Vec<u8>, counted: &str) -> Result<bool, AllocError> {
    let Some((count, text)) = counted.split_once(' ') else {
        return Ok(false);
    };
    let Ok(count) = count.parse::<u64>() else {
        return Ok(false);
    };
    let mut part = Vec::new(alloc);
    let is_read = put_text(&mut part, text)?;
    for _ in 0..count {
        bytes.extend_from_slice(&part)?;
    }
    Ok(is_read)
}
