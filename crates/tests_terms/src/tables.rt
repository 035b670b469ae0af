//! Signatures by name, the table of operators, scopes and names.
ghost use Rattle.std.specs.Prelude.{◌≡◌, [], IfOk};
ghost use Rattle.lf.specs.Entries.{declare_family};
ghost use Rattle.lf.specs.Syntax.{star};
ghost use Rattle.tw_signature.specs.View.{body_of};

use crate::cases::{Steps, run, said};
use std::alloc::{AllocError, Global};
use tests_forms::{Case, Form, FormFault, Names, number_of};
use tw_fixity::{Assoc, Fix, FixTable, Name, Scope};
use tw_signature::{Body, Entry, Signature};
use tw_terms::{ConstId, Kind};

// the number, if there is one
fn number(alloc: Global, found: Option<u64>) -> Result<String, FormFault> {
    match found {
        Some(number) => Ok(format!(in alloc; "{number}")?),
        None => said(alloc, "none"),
    }
}

fn answer(alloc: Global, holds: bool) -> Result<String, FormFault> {
    said(alloc, if holds { "yes" } else { "no" })
}

// the bytes, which are ASCII
fn text(alloc: Global, bytes: &[u8]) -> Result<String, FormFault> {
    let mut text = String::new(alloc);
    for byte in bytes {
        text.push(*byte as char)?;
    }
    Ok(text)
}

fn name_of(alloc: Global, word: &str) -> Result<Option<Name>, FormFault> {
    if word == "-" {
        return Ok(None);
    }
    Ok(Some(Name::from_text(alloc, word)?))
}

fn shown_name(alloc: Global, name: &Option<Name>) -> Result<String, FormFault> {
    match name {
        Some(name) => text(alloc, name.as_bytes()),
        None => said(alloc, "-"),
    }
}

/// A scope: variables, `-` where one has no name.
pub fn scope(alloc: Global, names: &mut Names, case: &Case) -> Result<String, FormFault> {
    run(
        alloc,
        names,
        case,
        Scoped {
            scope: Scope::new(alloc),
        },
    )
}

#[derive(Drop)]
struct Scoped {
    scope: Scope,
}

impl Steps for Scoped {
    fn step(
        &mut self,
        alloc: Global,
        _names: &mut Names,
        word: &str,
        forms: &[Form],
    ) -> Result<String, FormFault> {
        match (word, forms) {
            ("push", [Form::Word(name)]) => {
                self.scope.push(name_of(alloc, name.as_str())?)?;
                Ok(String::new(alloc))
            }
            ("pop", []) => {
                self.scope.pop();
                Ok(String::new(alloc))
            }
            ("variable", [Form::Word(name)]) => {
                number(alloc, self.scope.variable(name.as_bytes()))
            }
            ("contains", [Form::Word(name)]) => {
                answer(alloc, self.scope.contains(name.as_bytes()))
            }
            ("get", [Form::Word(variable)]) => {
                match self.scope.get(number_of(variable.as_str())?) {
                    Some(name) => shown_name(alloc, name),
                    None => said(alloc, "none"),
                }
            }
            _ => Err(FormFault::NoMeaning),
        }
    }
}

/// The table of operators.
pub fn operators(alloc: Global, names: &mut Names, case: &Case) -> Result<String, FormFault> {
    let table = FixTable::new(alloc);
    run(alloc, names, case, Table { table })
}

#[derive(Drop)]
struct Table {
    table: FixTable,
}

impl Steps for Table {
    fn step(
        &mut self,
        alloc: Global,
        _names: &mut Names,
        word: &str,
        forms: &[Form],
    ) -> Result<String, FormFault> {
        match (word, forms) {
            ("set", [Form::Word(name), Form::Word(place), Form::Word(precedence)]) => {
                self.set(alloc, name.as_str(), place.as_str(), precedence.as_str())
            }
            ("remove", [Form::Word(name)]) => self.remove(alloc, name.as_str()),
            ("get", [Form::Word(name)]) => self.get(alloc, name.as_str()),
            ("get-bytes", [Form::Word(name)]) => {
                shown_fix(alloc, self.table.get_bytes(name.as_bytes()))
            }
            _ => Err(FormFault::NoMeaning),
        }
    }
}

impl Table {
    fn set(
        &mut self,
        alloc: Global,
        name: &str,
        place: &str,
        precedence: &str,
    ) -> Result<String, FormFault> {
        let fix = fix_of(place, number_of(precedence)?)?;
        self.table.set(Name::from_text(alloc, name)?, fix)?;
        Ok(String::new(alloc))
    }

    fn remove(&mut self, alloc: Global, name: &str) -> Result<String, FormFault> {
        self.table.remove(&Name::from_text(alloc, name)?);
        Ok(String::new(alloc))
    }

    fn get(&self, alloc: Global, name: &str) -> Result<String, FormFault> {
        shown_fix(alloc, self.table.get(&Name::from_text(alloc, name)?))
    }
}

fn fix_of(place: &str, precedence: u64) -> Result<Fix, FormFault> {
    let precedence = u16::try_from(precedence).or(Err(FormFault::NoMeaning))?;
    match place {
        "infix" => Ok(Fix::Infix(Assoc::Neither, precedence)),
        "left" => Ok(Fix::Infix(Assoc::Left, precedence)),
        "right" => Ok(Fix::Infix(Assoc::Right, precedence)),
        "prefix" => Ok(Fix::Prefix(precedence)),
        "postfix" => Ok(Fix::Postfix(precedence)),
        _ => Err(FormFault::NoMeaning),
    }
}

fn shown_fix(alloc: Global, fix: Option<Fix>) -> Result<String, FormFault> {
    match fix {
        Some(fix) => Ok(format!(in alloc; "{fix:?}")?),
        None => said(alloc, "none"),
    }
}

/// A name, which is that of the case: its bytes, borrowed and owned, and whether the words of the case are the same.
pub fn name(alloc: Global, case: &Case) -> Result<String, FormFault> {
    let name = Name::from_text(alloc, case.name.as_str())?;
    let mut line = text(alloc, name.as_bytes())?;
    for field in &case.fields {
        if !field.text.is_empty() {
            return Err(FormFault::NoMeaning);
        }
        let other = Name::from_bytes(alloc, field.word.as_bytes())?;
        let same = if name.same(&other) { "yes" } else { "no" };
        line.push_str("; ")?;
        line.push_str(same)?;
    }
    line.push_str("; ")?;
    line.push_str(text(alloc, &name.into_bytes())?.as_str())?;
    Ok(line)
}

/// A signature of families of the kind `type`.
pub fn signature(alloc: Global, names: &mut Names, case: &Case) -> Result<String, FormFault> {
    let signature = Signature::new(alloc);
    run(alloc, names, case, Entries { signature })
}

// a family of the kind `type`
#[tactic(auto, using(tw_terms::proofs::Args::types))]
fn family(alloc: Global, name: &str) -> Result<Entry, AllocError>
    ensures body { IfOk result (λ e. body_of e.body ≡ declare_family star) }
    ensures implicit { IfOk result (λ e. e.implicit ≡ 0) }
    ensures hints { IfOk result (λ e. e.hints.items ≡ []) }
{
    Ok(Entry {
        name: Name::from_text(alloc, name)?,
        body: Body::Family(Kind::Star),
        implicit: 0,
        hints: Vec::new(alloc),
    })
}

#[derive(Drop)]
struct Entries {
    signature: Signature,
}

impl Steps for Entries {
    #[tactic(auto, using(tw_signature::proofs::Families::families))]
    fn step(
        &mut self,
        alloc: Global,
        _names: &mut Names,
        word: &str,
        forms: &[Form],
    ) -> Result<String, FormFault> {
        match (word, forms) {
            ("add", [Form::Word(name)]) => {
                let id = self.signature.add(family(alloc, name.as_str())?)?;
                number(alloc, Some(id.0))
            }
            ("length", []) => number(alloc, Some(self.signature.len())),
            ("find", [Form::Word(name)]) => {
                let name = Name::from_text(alloc, name.as_str())?;
                number(alloc, self.signature.lookup(&name).map(|id| id.0))
            }
            ("find-bytes", [Form::Word(name)]) => {
                let found = self.signature.lookup_bytes(name.as_bytes());
                number(alloc, found.map(|id| id.0))
            }
            ("entry", [Form::Word(place)]) => {
                match self.signature.entry(ConstId(number_of(place.as_str())?)) {
                    Some(entry) => text(alloc, entry.name.as_bytes()),
                    None => said(alloc, "none"),
                }
            }
            ("copy", [Form::Word(name), Form::Word(implicit), hints @ ..]) => {
                copied(alloc, name.as_str(), number_of(implicit.as_str())?, hints)
            }
            _ => Err(FormFault::NoMeaning),
        }
    }
}

// the copy of an entry: its name, how many arguments are implicit, its hints, and whether it is a family of the kind `type`
fn copied(alloc: Global, name: &str, implicit: u64, hints: &[Form]) -> Result<String, FormFault> {
    let implicit = u32::try_from(implicit).or(Err(FormFault::NoMeaning))?;
    let hints = hints_of(alloc, hints)?;
    let name = Name::from_text(alloc, name)?;
    let body = Body::Family(Kind::Star);
    let entry = Entry {
        name,
        body,
        implicit,
        hints,
    };
    shown_copy(alloc, &entry)
}

fn hints_of(alloc: Global, forms: &[Form]) -> Result<Vec<Option<Name>>, FormFault> {
    let mut hints = Vec::new(alloc);
    for form in forms {
        hints.push(hint_of(alloc, form)?)?;
    }
    Ok(hints)
}

fn hint_of(alloc: Global, form: &Form) -> Result<Option<Name>, FormFault> {
    match form {
        Form::Word(word) => name_of(alloc, word.as_str()),
        Form::Group(_) => Err(FormFault::NoMeaning),
    }
}

fn shown_copy(alloc: Global, entry: &Entry) -> Result<String, FormFault> {
    let copy = entry.copy(alloc)?;
    shown_entry(alloc, &copy)
}

fn shown_entry(alloc: Global, entry: &Entry) -> Result<String, FormFault> {
    let mut line = text(alloc, entry.name.as_bytes())?;
    write!(line, " {}", entry.implicit)?;
    show_hints(alloc, &mut line, &entry.hints)?;
    if matches!(&entry.body, Body::Family(Kind::Star)) {
        line.push_str(" type")?;
    }
    Ok(line)
}

fn show_hints(alloc: Global, line: &mut String, hints: &[Option<Name>]) -> Result<(), FormFault> {
    for hint in hints {
        line.push(' ')?;
        line.push_str(shown_name(alloc, hint)?.as_str())?;
    }
    Ok(())
}
