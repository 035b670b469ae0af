//! Lines that are told, as far as there was memory for them.
use std::alloc::{AllocError, Global};
use tw_fixity::{Assoc, Name};
use tw_lexer::{Place, TokenKind};

/// A line that is told part by part. Where memory gave out it lacks something, and then nothing of it is told.
#[derive(Drop)]
pub(crate) struct Line {
    text: String,
    lacks: bool,
}

impl Line {
    /// Nothing is told yet.
    pub(crate) fn new(alloc: Global) -> Line {
        Line {
            text: String::new(alloc),
            lacks: false,
        }
    }

    /// Puts the text behind the line.
    pub(crate) fn put(&mut self, text: &str) {
        self.lacks |= self.text.push_str(text).is_err();
    }

    /// Puts the character behind the line.
    pub(crate) fn put_letter(&mut self, letter: char) {
        self.lacks |= self.text.push(letter).is_err();
    }

    /// Puts the number behind the line.
    pub(crate) fn put_number(&mut self, number: u64) {
        self.lacks |= write!(self.text, "{number}").is_err();
    }

    /// Puts the kind of a token behind the line.
    pub(crate) fn put_kind(&mut self, kind: TokenKind) {
        self.lacks |= write!(self.text, "{kind:?}").is_err();
    }

    /// Puts the side to which an operator associates behind the line.
    pub(crate) fn put_side(&mut self, side: Assoc) {
        self.lacks |= write!(self.text, "{side:?}").is_err();
    }

    /// Puts the name behind the line.
    pub(crate) fn put_name(&mut self, name: &Name) {
        for byte in name.as_bytes() {
            self.put_letter(char::from(*byte));
        }
    }

    /// Puts the name behind the line, or else this text where there is none.
    pub(crate) fn put_name_or(&mut self, name: &Option<Name>, other: &str) {
        match name {
            Some(name) => self.put_name(name),
            None => self.put(other),
        }
    }

    /// Puts the place behind the line.
    pub(crate) fn put_place(&mut self, at: Place) {
        self.put(" ");
        self.put_number(u64::from(at.line));
        self.put(":");
        self.put_number(u64::from(at.column));
    }

    /// Puts a blank behind the line, if anything stands on it.
    pub(crate) fn put_blank(&mut self) {
        if !self.text.is_empty() {
            self.put(" ");
        }
    }

    /// All that was told.
    pub(crate) fn whole(self) -> Result<String, AllocError> {
        let Line { text, lacks } = self;
        if lacks { Err(AllocError) } else { Ok(text) }
    }
}
