//! Texts as a file of cases writes them: `\n`, `\r` and `\t` are these bytes, `\x0b` is the byte with these two hexadecimal digits, `\u{3bb}` the character of this number, and
//! `\40(nat -> \)` the part between the brackets 40 times. Everything else stands for itself.
use std::alloc::{AllocError, Global};
use tests_forms::{FormFault, number_of};

/// Bytes as far as they are read, and what is repeated around them: how many times, and the bytes before it.
#[derive(Drop)]
struct Text {
    bytes: Vec<u8>,
    outer: Vec<(u64, Vec<u8>)>,
}

impl Text {
    // A part begins behind it, which stands so many times.
    fn open(&mut self, alloc: Global, count: u64) -> Result<(), AllocError> {
        let before = std::mem::replace(&mut self.bytes, Vec::new(alloc));
        self.outer.push((count, before))?;
        Ok(())
    }

    // The newest part ends.
    fn close(&mut self) -> Result<(), FormFault> {
        let (count, mut whole) = self.outer.pop().ok_or(FormFault::NoMeaning)?;
        for _ in 0..count {
            whole.extend_from_slice(&self.bytes)?;
        }
        self.bytes = whole;
        Ok(())
    }

    fn push(&mut self, text: &str) -> Result<(), AllocError> {
        self.bytes.extend_from_slice(text.as_bytes())?;
        Ok(())
    }

    // What stands behind a backslash, up to the next one.
    fn escape(&mut self, alloc: Global, part: &str) -> Result<(), FormFault> {
        match part.split_at_checked(1) {
            Some(("n", rest)) => Ok(self.put(b'\n', rest)?),
            Some(("r", rest)) => Ok(self.put(b'\r', rest)?),
            Some(("t", rest)) => Ok(self.put(b'\t', rest)?),
            Some((")", rest)) => self.closed(rest),
            Some(("x", rest)) => self.byte(rest),
            Some(("u", rest)) => self.character(alloc, rest),
            _ => self.opened(alloc, part),
        }
    }

    fn put(&mut self, byte: u8, rest: &str) -> Result<(), AllocError> {
        self.bytes.push(byte)?;
        self.push(rest)
    }

    fn closed(&mut self, rest: &str) -> Result<(), FormFault> {
        self.close()?;
        Ok(self.push(rest)?)
    }

    fn opened(&mut self, alloc: Global, part: &str) -> Result<(), FormFault> {
        let (count, rest) = part.split_once('(').ok_or(FormFault::NoMeaning)?;
        self.open(alloc, number_of(count)?)?;
        Ok(self.push(rest)?)
    }

    fn byte(&mut self, part: &str) -> Result<(), FormFault> {
        let (digits, rest) = part.split_at_checked(2).ok_or(FormFault::NoMeaning)?;
        let byte = u8::from_str_radix(digits, 16).or(Err(FormFault::NoMeaning))?;
        Ok(self.put(byte, rest)?)
    }

    fn character(&mut self, alloc: Global, part: &str) -> Result<(), FormFault> {
        let part = part.strip_prefix('{').ok_or(FormFault::NoMeaning)?;
        let (digits, rest) = part.split_once('}').ok_or(FormFault::NoMeaning)?;
        let number = u32::from_str_radix(digits, 16).or(Err(FormFault::NoMeaning))?;
        let letter = char::from_u32(number).ok_or(FormFault::NoMeaning)?;
        self.push_letter(alloc, letter)?;
        Ok(self.push(rest)?)
    }

    fn push_letter(&mut self, alloc: Global, letter: char) -> Result<(), AllocError> {
        let mut text = String::new(alloc);
        text.push(letter)?;
        self.push(text.as_str())
    }

    // The bytes, where every part has ended.
    fn whole(self) -> Result<Vec<u8>, FormFault> {
        let Text { bytes, outer } = self;
        if outer.is_empty() {
            Ok(bytes)
        } else {
            Err(FormFault::NoMeaning)
        }
    }
}

/// The bytes of a text that is written so.
pub(crate) fn bytes_of(alloc: Global, written: &str) -> Result<Vec<u8>, FormFault> {
    let mut text = Text {
        bytes: Vec::new(alloc),
        outer: Vec::new(alloc),
    };
    let mut parts = written.split('\\');
    text.push(parts.next().unwrap_or(""))?;
    for part in parts {
        text.escape(alloc, part)?;
    }
    text.whole()
}

/// What stands in front of the bar `\|`, and what behind.
pub(crate) fn halves_of(alloc: Global, written: &str) -> Result<(Vec<u8>, Vec<u8>), FormFault> {
    let (front, back) = written.split_once("\\|").ok_or(FormFault::NoMeaning)?;
    Ok((bytes_of(alloc, front)?, bytes_of(alloc, back)?))
}

/// The number that a text begins with, and what follows the blank behind it.
pub(crate) fn numbered(text: &str) -> Result<(u64, &str), FormFault> {
    let (number, rest) = text.split_once(' ').ok_or(FormFault::NoMeaning)?;
    Ok((number_of(number)?, rest))
}
