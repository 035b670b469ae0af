//! What a text depends on, with an entry that is about to be added.
ghost use Rattle.std.specs.Prelude.{◌≡◌, IfOk, option_map, length};
ghost use Rattle.std.specs.FinMap as map;
ghost use Rattle.lf.specs.Entries.{entry as entry_numbered, IsCanonicalSignature};
ghost use Rattle.tw_fixity.specs.Rows.{name_order};
ghost use Rattle.tw_signature.specs.Names.{number_of};
ghost use Rattle.tw_signature.specs.View.{entry_of};
ghost use Rattle.tw_terms.specs.View.{type_of};
ghost use Rattle.tw_print.specs.Names as spec;
ghost use Rattle.tw_print.specs.Arguments as counts;
ghost use Rattle.tw_print.specs.Shown as layout;
ghost use Rattle.tw_print.specs.SceneView.{scene_in};

use crate::names::Names;
use std::alloc::{AllocError, Global};
use tw_fixity::{Fix, FixTable, Name};
use tw_signature::{Entry, Signature};
use tw_terms::{ConstId, Ty, target};

/// The signature with the entry that is about to be added, the table of operators without its name, and the preferences for names.
#[derive(Clone, Copy)]
pub struct Scene<'a> {
    pub signature: &'a Signature,
    pub fixities: &'a FixTable,
    pub names: &'a Names,
    pub implicit: bool,
    pub newest: Option<&'a Entry>,
}

impl<'a> Scene<'a> {
    /// How many entries there are. Fails where no signature in memory has so many.
    pub fn len(self) -> Result<u64, AllocError>
        ensures { IfOk result (λ n. n ≡ length (scene_in self.entry).entries) }
    {
        match self.newest {
            Some(_) => self.signature.len().checked_add(1).ok_or(AllocError),
            None => Ok(self.signature.len()),
        }
    }

    /// The entry of this number.
    pub fn entry(self, id: ConstId) -> Option<&'a Entry>
        ensures { option_map (λ e. entry_of e.now) result ≡ entry_numbered (scene_in self.entry).entries id.0 }
    {
        let Some(entry) = self.newest else {
            return self.signature.entry(id);
        };
        if id.0 == self.signature.len() {
            return Some(entry);
        }
        self.signature.entry(id)
    }

    /// The number of the newest entry of a name.
    pub fn lookup(self, name: &[u8]) -> Option<ConstId>
        ensures { option_map (λ id. id.0) result ≡ number_of (scene_in self.entry).entries name.now }
    {
        let Some(entry) = self.newest else {
            return self.signature.lookup_bytes(name);
        };
        if entry.name.as_bytes() == name {
            return Some(ConstId(self.signature.len()));
        }
        self.signature.lookup_bytes(name)
    }

    /// The row of a name in the table of operators.
    pub fn row(self, name: &[u8]) -> Option<Fix>
        ensures { result ≡ map.get (scene_in self.entry).rows name.now }
    {
        let Some(entry) = self.newest else {
            return self.fixities.get_bytes(name);
        };
        if name == entry.name.as_bytes() {
            return None;
        }
        self.fixities.get_bytes(name)
    }

    /// Whether a constant is the newest entry of its name.
    pub fn is_plain(self, id: ConstId) -> bool
        ensures { result ≡ spec.is_plain (scene_in self.entry) id.0 }
    {
        is_newest(self.lookup(self.name(id)), id)
    }

    /// The name of a constant, which is empty where no entry has this number.
    pub fn name(self, id: ConstId) -> &'a [u8]
        ensures { result.now ≡ spec.name_in (entry_numbered (scene_in self.entry).entries id.0) }
    {
        match self.entry(id) {
            Some(entry) => entry.name.as_bytes(),
            None => b"",
        }
    }

    /// The name of a constant, between percent signs where it is shadowed.
    pub fn constant_word(self, alloc: Global, id: ConstId) -> Result<Vec<u8>, AllocError>
        ensures { IfOk result (λ w. w.items ≡ spec.constant_word (scene_in self.entry) id.0) }
    {
        self.word_by(alloc, id, self.is_plain(id))
    }

    /// The same, where it is known whether the constant is the newest of its name.
    pub fn word_by(self, alloc: Global, id: ConstId, plain: bool) -> Result<Vec<u8>, AllocError>
        requires { plain ≡ spec.is_plain (scene_in self) id.0 }
        ensures { IfOk result (λ w. w.items ≡ spec.constant_word (scene_in self.entry) id.0) }
    {
        let name = self.name(id);
        if plain {
            return Vec::from_slice(alloc, name);
        }
        let mut word = Vec::from_slice(alloc, b"%")?;
        word.extend_from_slice(name)?;
        word.extend_from_slice(b"%")?;
        Ok(word)
    }

    /// The operator as which a constant is shown.
    pub fn operator(self, id: ConstId) -> Option<Fix>
        ensures { result ≡ layout.operator (scene_in self.entry) id.0 }
    {
        if self.implicit {
            return None;
        }
        self.operator_by(id, self.is_plain(id))
    }

    /// The same, where it is known whether the constant is the newest of its name.
    pub fn operator_by(self, id: ConstId, plain: bool) -> Option<Fix>
        requires { plain ≡ spec.is_plain (scene_in self) id.0 }
        ensures { result ≡ layout.operator (scene_in self.entry) id.0 }
    {
        if self.implicit {
            return None;
        }
        if plain {
            return self.row(self.name(id));
        }
        None
    }

    /// How many of a constant's first arguments are hidden.
    pub fn hidden(self, id: ConstId) -> usize
        ensures { result ≡ counts.hidden (scene_in self.entry) id.0 }
    {
        if self.implicit {
            return 0;
        }
        match self.entry(id) {
            Some(entry) => entry.implicit as usize,
            None => 0,
        }
    }

    /// The base of a variable of this type, if nothing else says it: the lowercase preference of the target family, else `x`.
    pub fn lower_base(self, ty: &Ty) -> &'a [u8]
        ensures { result.now ≡ spec.lower_base (scene_in self.entry) (type_of ty.now) }
    {
        match self.names.get(target(ty)) {
            Some(preference) => match &preference.lower {
                Some(name) => name.as_bytes(),
                None => b"x",
            },
            None => b"x",
        }
    }

    /// The base of an implicit quantifier of this type: the uppercase preference of the target family, else `X`.
    pub fn upper_base(self, ty: &Ty) -> &'a [u8]
        ensures { result.now ≡ spec.upper_base (scene_in self.entry) (type_of ty.now) }
    {
        self.preferred_upper(target(ty))
    }

    /// The uppercase preference of a family, else `X`.
    pub fn preferred_upper(self, family: ConstId) -> &'a [u8]
        ensures { result.now ≡ spec.upper_of (map.get (scene_in self.entry).names family.0) }
    {
        match self.names.get(family) {
            Some(preference) => preference.upper.as_bytes(),
            None => b"X",
        }
    }
}

fn is_newest(newest: Option<ConstId>, id: ConstId) -> bool
    ensures { result ≡ spec.is_newest (option_map (λ n. n.0) newest) id.0 }
{
    match newest {
        Some(newest) => newest.0 == id.0,
        None => false,
    }
}
