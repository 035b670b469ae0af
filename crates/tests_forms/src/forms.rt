//! What brackets make of a text.
ghost use Rattle.std.specs.Prelude.{◌≡◌, length};

use crate::fault::FormFault;
use std::alloc::Global;
use std::mem;

/// A word, or what stands between two brackets. No word is empty.
#[derive(Drop)]
pub enum Form {
    Word(String),
    Group(Vec<Form>),
}

impl Form {
    /// The word that the form is, if it is one.
    pub fn word(&self) -> Option<&str> {
        match self {
            Form::Word(word) => Some(word.as_str()),
            Form::Group(_) => None,
        }
    }

    /// The word that the form is, or else the empty text.
    pub fn text(&self) -> &str {
        match self {
            Form::Word(word) => word.as_str(),
            Form::Group(_) => "",
        }
    }

    /// The first word between the brackets, and what follows it.
    pub fn parts(&self) -> Option<(&str, &[Form])> {
        match self {
            Form::Word(_) => None,
            Form::Group(forms) => {
                let (first, rest) = forms.split_first()?;
                Some((first.word()?, rest))
            }
        }
    }
}

// What is read so far. A fault is kept in mind and is told at the end.
#[derive(Drop)]
struct Reading {
    outer: Vec<Vec<Form>>,
    forms: Vec<Form>,
    word: String,
    /// What stands in a repetition for the name, until it is put there.
    filling: Option<Form>,
    lacks: bool,
    wrong: bool,
}

impl Reading {
    fn new(alloc: Global) -> Reading {
        Reading {
            outer: Vec::new(alloc),
            forms: Vec::new(alloc),
            word: String::new(alloc),
            filling: None,
            lacks: false,
            wrong: false,
        }
    }

    // the form is the next one
    fn add(&mut self, form: Form) {
        self.lacks |= self.forms.push(form).is_err();
    }

    fn end_word(&mut self, alloc: Global) {
        if !self.word.is_empty() {
            let word = mem::replace(&mut self.word, String::new(alloc));
            self.add(Form::Word(word));
        }
    }

    fn begin_group(&mut self, alloc: Global) {
        let forms = mem::replace(&mut self.forms, Vec::new(alloc));
        self.lacks |= self.outer.push(forms).is_err();
    }

    fn end_group(&mut self, alloc: Global) -> Vec<Form> {
        match self.outer.pop() {
            Some(forms) => mem::replace(&mut self.forms, forms),
            None => {
                self.wrong = true;
                Vec::new(alloc)
            }
        }
    }

    // the group, or what it repeats
    fn add_group(&mut self, alloc: Global, group: Vec<Form>) {
        if group.len() == 5 && group[0].text() == "repeat" && is_counted(&group) {
            self.repeat(alloc, &group);
        } else {
            self.add(Form::Group(group));
        }
    }

    // the body in its own name, so many times, and the start innermost
    fn repeat(&mut self, alloc: Global, group: &[Form])
        requires { length group.now ≡ 5 }
    {
        let Ok(count) = number_of(group[1].text()) else {
            self.wrong = true;
            return;
        };
        self.copy(alloc, "", &group[4]);
        for _ in 0..count {
            if self.lacks || self.wrong {
                break;
            }
            self.filling = self.forms.pop();
            self.copy(alloc, group[2].text(), &group[3]);
            self.wrong |= self.filling.is_some();
        }
    }

    // a copy, with the filling in the place of the name, which stands once
    fn copy(&mut self, alloc: Global, name: &str, form: &Form) {
        match form {
            Form::Word(word) if word.as_str() == name => self.fill(),
            Form::Word(word) => self.copy_word(alloc, word.as_str()),
            Form::Group(forms) => {
                self.begin_group(alloc);
                for form in forms {
                    self.copy(alloc, name, form);
                }
                let group = self.end_group(alloc);
                self.add(Form::Group(group));
            }
        }
    }

    fn fill(&mut self) {
        match self.filling.take() {
            Some(form) => self.add(form),
            None => self.wrong = true,
        }
    }

    fn copy_word(&mut self, alloc: Global, word: &str) {
        match String::from_str(alloc, word) {
            Ok(word) => self.add(Form::Word(word)),
            Err(_) => self.lacks = true,
        }
    }

    fn letter(&mut self, alloc: Global, letter: char) {
        if letter == ' ' || letter == '(' || letter == ')' {
            self.end_word(alloc);
        } else {
            self.lacks |= self.word.push(letter).is_err();
        }
        if letter == '(' {
            self.begin_group(alloc);
        }
        if letter == ')' {
            let group = self.end_group(alloc);
            self.add_group(alloc, group);
        }
    }

    fn whole(self) -> Result<Vec<Form>, FormFault> {
        if self.lacks {
            Err(FormFault::NoMemory)
        } else if self.wrong || !self.outer.is_empty() {
            Err(FormFault::NoMeaning)
        } else {
            Ok(self.forms)
        }
    }
}

// whether a repetition has words as its number and its name
fn is_counted(group: &[Form]) -> bool {
    group.len() == 5 && !group[1].text().is_empty() && !group[2].text().is_empty()
}

/// The forms of the text, in order, with each repetition written out.
pub fn read_forms(alloc: Global, text: &str) -> Result<Vec<Form>, FormFault> {
    let mut reading = Reading::new(alloc);
    for letter in text.chars() {
        reading.letter(alloc, letter);
    }
    reading.end_word(alloc);
    reading.whole()
}

/// The number that the word is.
pub fn number_of(word: &str) -> Result<u64, FormFault> {
    match word.parse::<u64>() {
        Ok(number) => Ok(number),
        Err(_) => Err(FormFault::NoMeaning),
    }
}
