//! What stands at a place among the tokens.
ghost use Rattle.std.specs.Prelude.{◌≡◌, ◌≢◌, ◌<◌, length, IfOk, IfErr, OnOk, IsSome};
ghost use Rattle.std.specs.FinMap.{get};
ghost use Rattle.tw_parse.specs.Faults.{first_sign, leaf_of};
ghost use Rattle.tw_parse.specs.View.{term_of};
ghost use Rattle.std.specs.Option.{option_map};
ghost use Rattle.tw_parse.specs.Words.{first_word, first_bytes, first_place};
ghost use Rattle.tw_parse.specs.Sources.{lexemes_from};
ghost use Rattle.tw_parse.specs.declared.fault.SyntaxFault.TheVariants.{Syntax};
ghost use Rattle.tw_parse.specs.declared.words.Word.TheVariants.{End};

use crate::fault::SyntaxFault;
use crate::sign::Sign;
use crate::source::Source;
use crate::term::ExtTerm;
use crate::words::{Word, separator_of, word_of};
use std::alloc::{AllocError, Global};
use tw_fixity::Name;
use tw_lexer::Place;

impl Source<'_> {
    /// What the token with this number is in the grammar. Behind the last token stands the end.
    pub fn word(&self, number: usize) -> Word
        ensures word { result ≡ first_word (lexemes_from self.now number) }
        ensures within { result ≢ End → number < length self.now.tokens.now }
    {
        match self.tokens.get(number) {
            None => Word::End,
            Some(token) => word_of(token.kind, &self.text[token.from..token.upto]),
        }
    }

    /// The place of that token.
    pub fn place(&self, number: usize) -> Place
        ensures { result ≡ first_place self.now.end (lexemes_from self.now number) }
    {
        match self.tokens.get(number) {
            None => self.end,
            Some(token) => token.at,
        }
    }

    /// Tests that the token is this word.
    pub fn expect(&self, number: usize, word: Word) -> Result<(), SyntaxFault>
        ensures stands { OnOk result (first_word (lexemes_from self.now number) ≡ word) }
        ensures within { OnOk result (word ≢ End → number < length self.now.tokens.now) }
        ensures fault { IfErr result (λ fault. (fault ≡ Syntax (first_place self.now.end (lexemes_from self.now number))) × (first_word (lexemes_from self.now number) ≢ word)) }
    {
        let found = self.word(number);
        if found == word {
            Ok(())
        } else {
            Err(SyntaxFault::Syntax(self.place(number)))
        }
    }

    /// Its bytes.
    pub fn bytes(&self, number: usize) -> &[u8]
        ensures { result.now ≡ first_bytes (lexemes_from self.now number) }
    {
        match self.tokens.get(number) {
            None => &[],
            Some(token) => &self.text[token.from..token.upto],
        }
    }

    /// Its bytes as a name.
    pub fn name(&self, alloc: Global, number: usize) -> Result<Name, AllocError>
        ensures { IfOk result (λ name. name ≡ first_bytes (lexemes_from self.now number)) }
    {
        Name::from_bytes(alloc, self.bytes(number))
    }

    /// The sign that it is, if it is one.
    pub fn sign(&self, alloc: Global, number: usize) -> Result<Option<Sign>, AllocError>
        ensures sign { IfOk result (λ sign. sign ≡ first_sign self.now number) }
        ensures within { IfOk result (λ sign. IsSome sign → number < length self.now.tokens.now) }
    {
        let word = self.word(number);
        if let Some(by) = separator_of(word) {
            return Ok(Some(Sign::Separator(by)));
        }
        if word != Word::Name {
            return Ok(None);
        }
        match self.fixities.get_bytes(self.bytes(number)) {
            None => Ok(None),
            Some(fix) => {
                let name = self.name(alloc, number)?;
                Ok(Some(Sign::Operator(name, self.place(number), fix)))
            }
        }
    }

    /// The atom that it is by itself, if it is no sign.
    pub fn leaf(&self, alloc: Global, number: usize) -> Result<Option<ExtTerm>, AllocError>
        requires { first_sign self.now number ≡ None }
        ensures leaf { IfOk result (λ leaf. option_map term_of leaf ≡ leaf_of (lexemes_from self.now number)) }
        ensures within { IfOk result (λ leaf. IsSome leaf → number < length self.now.tokens.now) }
    {
        match self.word(number) {
            Word::Name => {
                let name = self.name(alloc, number)?;
                Ok(Some(ExtTerm::Ident(name, self.place(number))))
            }
            Word::Underscore => Ok(Some(ExtTerm::Hole(self.place(number)))),
            Word::Star => Ok(Some(ExtTerm::Star)),
            _ => Ok(None),
        }
    }
}
