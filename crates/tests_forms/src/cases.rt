//! Files of cases. A case begins with a line `KIND NAME`; what follows stands in lines that begin with a space, each a word and what it says. A line that begins with `--`
//! is a remark.
use crate::fault::FormFault;
use crate::forms::{Form, read_forms};
use std::alloc::{AllocError, Global};

/// A word and what it says.
#[derive(Drop)]
pub struct Field {
    pub word: String,
    pub text: String,
}

/// A case of a file.
#[derive(Drop)]
pub struct Case {
    pub kind: String,
    pub name: String,
    pub fields: Vec<Field>,
}

impl Case {
    /// What the word says, the empty text where it doesn't stand. Where it stands twice it has no meaning.
    pub fn text(&self, word: &str) -> Result<&str, FormFault> {
        let mut found = None;
        for field in &self.fields {
            if field.word.as_str() == word {
                if found.is_some() {
                    return Err(FormFault::NoMeaning);
                }
                found = Some(field.text.as_str());
            }
        }
        Ok(found.unwrap_or(""))
    }

    /// The only form that the word says.
    pub fn form(&self, alloc: Global, word: &str) -> Result<Form, FormFault> {
        alone(read_forms(alloc, self.text(word)?)?)
    }

    /// Fails where the case has another word than these.
    pub fn has_only(&self, words: &[&str]) -> Result<(), FormFault> {
        for field in &self.fields {
            if !is_listed(words, field.word.as_str()) {
                return Err(FormFault::NoMeaning);
            }
        }
        Ok(())
    }
}

// the only one of the forms
fn alone(mut forms: Vec<Form>) -> Result<Form, FormFault> {
    match forms.pop() {
        Some(form) if forms.is_empty() => Ok(form),
        _ => Err(FormFault::NoMeaning),
    }
}

fn is_listed(words: &[&str], word: &str) -> bool {
    for listed in words {
        if *listed == word {
            return true;
        }
    }
    false
}

// The cases that are read so far. A fault is kept in mind and is told at the end.
#[derive(Drop)]
struct Cases {
    cases: Vec<Case>,
    lacks: bool,
    wrong: bool,
}

impl Cases {
    fn begin(&mut self, alloc: Global, line: &str) {
        let (kind, name) = parts_of(line);
        if name.is_empty() || name.contains(' ') {
            self.wrong = true;
            return;
        }
        match case_of(alloc, kind, name) {
            Ok(case) => self.lacks |= self.cases.push(case).is_err(),
            Err(_) => self.lacks = true,
        }
    }

    fn add(&mut self, alloc: Global, line: &str) {
        match field_of(alloc, line) {
            Ok(field) => self.add_field(field),
            Err(_) => self.lacks = true,
        }
    }

    fn add_field(&mut self, field: Field) {
        match self.cases.last_mut() {
            Some(case) => self.lacks |= case.fields.push(field).is_err(),
            None => self.wrong = true,
        }
    }

    fn line(&mut self, alloc: Global, line: &str) {
        if line.starts_with(' ') {
            self.add(alloc, line);
        } else if !line.is_empty() && !line.starts_with("--") {
            self.begin(alloc, line);
        }
    }

    fn whole(self) -> Result<Vec<Case>, FormFault> {
        if self.lacks {
            Err(FormFault::NoMemory)
        } else if self.wrong {
            Err(FormFault::NoMeaning)
        } else {
            Ok(self.cases)
        }
    }
}

/// The cases of a file, in order.
pub fn read_cases(alloc: Global, text: &str) -> Result<Vec<Case>, FormFault> {
    let mut cases = Cases {
        cases: Vec::new(alloc),
        lacks: false,
        wrong: false,
    };
    for line in text.lines() {
        cases.line(alloc, line);
    }
    cases.whole()
}

fn field_of(alloc: Global, line: &str) -> Result<Field, AllocError> {
    let (word, text) = parts_of(line);
    Ok(Field {
        word: String::from_str(alloc, word)?,
        text: String::from_str(alloc, text)?,
    })
}

fn case_of(alloc: Global, kind: &str, name: &str) -> Result<Case, AllocError> {
    Ok(Case {
        kind: String::from_str(alloc, kind)?,
        name: String::from_str(alloc, name)?,
        fields: Vec::new(alloc),
    })
}

// the first word, and what follows it
fn parts_of(line: &str) -> (&str, &str) {
    let line = line.trim();
    match line.split_once(' ') {
        Some((word, text)) => (word, text.trim()),
        None => (line, ""),
    }
}
