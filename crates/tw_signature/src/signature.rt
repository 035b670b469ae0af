//! The entries in order, with the newest of each name.
ghost use Rattle.std.specs.Prelude.{◌≡◌, ◌∷◌, [], OnErr, OnOk, IfOk, option_map, length, map};
ghost use Rattle.lf.specs.Entries.{entry as entry_numbered, signature_of, IsCanonicalEntry, IsCanonicalSignature};
ghost use Rattle.lf.specs.Constants.{constants_of as constants_of_family};
ghost use Rattle.lf_checks.specs.Parts.{shape};
ghost use Rattle.tw_terms.specs.View.{type_of, kind_of};
ghost use Rattle.tw_signature.specs.View.{entry_of};
ghost use Rattle.tw_signature.specs.Names.{number_of};

use crate::constants::Constants;
use crate::entry::{Body, Entry};
use indexmap::IndexMap;
use std::alloc::{AllocError, Global};
use std::marker::Model;
use tw_fixity::Name;
use tw_terms::{ConstId, Kind, Ty};

/// The entries of canonical LF. An entry's number is how many stand before it. Contracts see the list of the entries, the newest first.
#[derive(Drop)]
pub struct Signature {
    entries: Vec<Entry>,
    /// The number of the newest entry of each name.
    newest: IndexMap<Vec<u8>, u64>,
    constants: Constants,
    /// For each entry which quantifiers of its type are variables, if it is a declared constant.
    marks: Vec<Vec<bool>>,
}

impl Model for Signature {
    ghost use Rattle.std.specs.Prelude.{◌≡◌, ℕ, List, map, reverse};
    ghost use Rattle.std.specs.Coded.{coded_list};
    ghost use Rattle.lf.specs.Entries.{Entry as LfEntry, IsCanonicalSignature};
    ghost use Rattle.tw_signature.specs.Codes.{entry_code};

    ghost Value = { List LfEntry };

    ghost coded = { coded_list entry_code };

    ghost use Rattle.tw_signature.specs.View.{entries_of};
    ghost use Rattle.tw_signature.specs.Names.{number_of};
    ghost use Rattle.tw_fixity.specs.Newest.{number_at};

    ghost view = { λ s. entries_of s.entries.items };

    ghost use Rattle.tw_signature.specs.Constants.{AreKept};
    ghost use Rattle.tw_signature.specs.Kept.{MarksAreKept};

    ghost invariant = { λ s. IsCanonicalSignature (entries_of s.entries.items) × ((name : List ℕ) → number_at s.newest name ≡ number_of (entries_of s.entries.items) name) × AreKept s.constants (entries_of s.entries.items) × MarksAreKept s.marks.items s.entries.items };
}

impl Signature {
    /// The signature with no entry. It keeps the allocator.
    pub fn new(alloc: Global) -> Signature
        ensures { result ≡ [] }
    {
        Signature {
            entries: Vec::new(alloc),
            newest: IndexMap::new(alloc),
            constants: Constants::new(alloc),
            marks: Vec::new(alloc),
        }
    }

    /// How many entries there are.
    pub fn len(&self) -> u64
        ensures { result ≡ length self.now }
    {
        self.entries.len() as u64
    }

    /// The entry of this number.
    pub fn entry(&self, id: ConstId) -> Option<&Entry>
        ensures { option_map (λ e. entry_of e.now) result ≡ entry_numbered self.now id.0 }
    {
        self.entries.get(id.0 as usize)
    }

    /// The type of a declared constant. A definition has none.
    pub fn constant_type(&self, id: ConstId) -> Option<&Ty>
        ensures { option_map (λ a. type_of a.now) result ≡ (signature_of self.now).types id.0 }
    {
        match &self.entry(id)?.body {
            Body::Constant(ty) => Some(ty),
            Body::Family(_) | Body::Defined { .. } => None,
        }
    }

    /// For each leading quantifier of a declared constant's type, the outermost first, whether it is a variable. They are made once, when the constant is
    /// added, so to ask for them takes no memory. A definition has none.
    pub fn constant_marks(&self, id: ConstId) -> Option<&[bool]>
        ensures { option_map (λ m. m.now) result ≡ option_map shape ((signature_of self.now).types id.0) }
    {
        self.constant_type(id)?;
        match self.marks.get(id.0 as usize) {
            Some(marks) => Some(marks.as_slice()),
            None => unreachable!(),
        }
    }

    /// The kind of a declared family.
    pub fn family_kind(&self, id: ConstId) -> Option<&Kind>
        ensures { option_map (λ k. kind_of k.now) result ≡ (signature_of self.now).kinds id.0 }
    {
        match &self.entry(id)?.body {
            Body::Family(kind) => Some(kind),
            Body::Constant(_) | Body::Defined { .. } => None,
        }
    }

    /// The declared constants whose types have this family as their target, the oldest first.
    pub fn constants_of(&self, family: ConstId) -> &[ConstId]
        ensures { map (λ c. c.0) result.now ≡ constants_of_family self.now family.0 }
    {
        self.constants.of(family)
    }

    /// The number of the newest entry of the name.
    pub fn lookup(&self, name: &Name) -> Option<ConstId>
        ensures { option_map (λ id. id.0) result ≡ number_of self.now name.now }
    {
        self.lookup_bytes(name.as_bytes())
    }

    /// The same, by the bytes of the name.
    pub fn lookup_bytes(&self, name: &[u8]) -> Option<ConstId>
        ensures { option_map (λ id. id.0) result ≡ number_of self.now name.now }
    {
        match self.newest.get(name) {
            Some(number) => Some(ConstId(*number)),
            None => None,
        }
    }

    /// Puts the entry behind the others and gives its number. Without memory the signature stays as it is.
    pub fn add(&mut self, entry: Entry) -> Result<ConstId, AllocError>
        requires { IsCanonicalEntry (signature_of self.old) (entry_of entry) }
        ensures added { OnOk result (self.new ≡ entry_of entry ∷ self.old) }
        ensures number { IfOk result (λ id. id.0 ≡ length self.old) }
        ensures unchanged { OnErr result (self.new ≡ self.old) }
    {
        let number = self.len();
        let family = entry.body.family();
        let marks = entry.body.marks(*self.entries.allocator())?;
        self.entries.reserve(1)?;
        self.constants.reserve(family)?;
        self.marks.reserve(1)?;
        let name = Vec::from_slice(*self.entries.allocator(), entry.name.as_bytes())?;
        self.newest.insert(name, number)?;
        self.entries.push(entry)?;
        self.marks.push(marks)?;
        self.constants.add(family, ConstId(number));
        Ok(ConstId(number))
    }

    /// Each entry may stand over those before it. A law: it has no code.
    pub fn is_canonical(&self)
        ensures { IsCanonicalSignature self.now }
    {
        let _ = &self.entries;
    }
}
