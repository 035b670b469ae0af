//! What stands before a question: entries, operators, preferred names, and whether implicit arguments are shown.
ghost use Rattle.lf.specs.Entries.{signature_of, IsCanonicalEntry};
ghost use Rattle.tw_signature.specs.View.{entry_of};

use crate::reading::{line_of, read_decl};
use std::alloc::Global;
use tests_forms::{FormFault, Names};
use tw_fixity::{Fix, FixTable, Name};
use tw_parse::{ExtDecl, ExtName};
use tw_print::Preference;
use tw_recon::reconstruct;
use tw_signature::{Entry, Signature};
use tw_terms::ConstId;

// what the declaration says of operators, if it does
fn operators_of(decl: ExtDecl) -> Option<(Fix, Vec<ExtName>)> {
    match decl {
        ExtDecl::Fixity(fix, names) => Some((fix, names)),
        _ => None,
    }
}

// which family the declaration gives preferred names to, if it does, and which
fn preference_of(decl: ExtDecl) -> Option<(Name, Preference)> {
    match decl {
        ExtDecl::NamePref(family, upper, lower) => {
            Some((family.name, Preference { upper, lower }))
        }
        _ => None,
    }
}

/// What stands before a question. Every entry has its name among those of the forms.
#[derive(Drop)]
pub(crate) struct World {
    pub signature: Signature,
    pub names: Names,
    pub fixities: FixTable,
    pub preferences: tw_print::Names,
    /// Whether implicit arguments are shown.
    pub implicit: bool,
}

impl World {
    /// Nothing is declared.
    pub(crate) fn new(alloc: Global) -> World {
        World {
            signature: Signature::new(alloc),
            names: Names::new(alloc),
            fixities: FixTable::new(alloc),
            preferences: tw_print::Names::new(alloc),
            implicit: false,
        }
    }

    /// Declares what the text says.
    pub(crate) fn declare(&mut self, alloc: Global, text: &str) -> Result<(), FormFault> {
        let decl = read_decl(alloc, &self.fixities, text)?;
        match reconstruct(alloc, &self.signature, &decl) {
            Ok(entry) => self.add(alloc, entry),
            Err(_) => Err(FormFault::NoMeaning),
        }
    }

    /// Adds the entry, whose name is no operator then.
    pub(crate) fn add(&mut self, alloc: Global, entry: Entry) -> Result<(), FormFault>
        requires { IsCanonicalEntry (signature_of self.old.signature) (entry_of entry) }
    {
        let name = line_of(alloc, entry.name.as_bytes())?;
        self.fixities.remove(&entry.name);
        self.signature.add(entry)?;
        Ok(self.names.add_constant(alloc, name.as_str())?)
    }

    /// Gives the operators of the text, which is a declaration of them, their rows.
    pub(crate) fn set_operators(&mut self, alloc: Global, text: &str) -> Result<(), FormFault> {
        let decl = read_decl(alloc, &self.fixities, text)?;
        let (fix, names) = operators_of(decl).ok_or(FormFault::NoMeaning)?;
        for name in names {
            self.fixities.set(name.name, fix)?;
        }
        Ok(())
    }

    /// Gives the family of the text, which is a declaration of its preferred names, these names.
    pub(crate) fn prefer(&mut self, alloc: Global, text: &str) -> Result<(), FormFault> {
        let decl = read_decl(alloc, &self.fixities, text)?;
        let (family, preference) = preference_of(decl).ok_or(FormFault::NoMeaning)?;
        let id = self.family(alloc, &family)?;
        self.preferences.set(id, preference)?;
        Ok(())
    }

    // the family of this name
    fn family(&self, alloc: Global, name: &Name) -> Result<ConstId, FormFault> {
        let name = line_of(alloc, name.as_bytes())?;
        self.names.constant(name.as_str())
    }

    /// Whether implicit arguments are shown: `shown` or `hidden`.
    pub(crate) fn set_implicit(&mut self, text: &str) -> Result<(), FormFault> {
        match text {
            "shown" => self.implicit = true,
            "hidden" => self.implicit = false,
            _ => return Err(FormFault::NoMeaning),
        }
        Ok(())
    }
}
