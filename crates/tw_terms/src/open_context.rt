//! The open types of the variables in scope. Contracts see a context as their list, the innermost variable's first.
ghost use Rattle.std.specs.Prelude.{◌≡◌, ◌≤◌, [], ◌∷◌, ◌++◌, OnOk, OnErr, IfOk, option_map, slice_get, drop, length, map, take, vec_len};
ghost use Rattle.tw_terms.specs.OpenView.{open_type_of};

use crate::open_terms::OpenTy;
use std::alloc::{AllocError, Global};
use std::marker::Model;
use std::rc::Rc;

/// The open types of the variables in scope, the innermost last. Variable 0 is the innermost. Equal contexts share one row of types.
#[derive(Drop, Debug)]
pub struct OpenContext {
    alloc: Global,
    /// Types, of which the first `len` are in scope. None where there was never one.
    types: Option<Rc<Vec<Rc<OpenTy>>>>,
    len: usize,
}

impl Model for OpenContext {
    ghost use Rattle.std.specs.Prelude.{List};
    ghost use Rattle.std.specs.Coded.{coded_list};
    ghost use Rattle.lf.specs.Syntax.{LfType};
    ghost use Rattle.tw_terms.specs.Codes.{type_code};

    ghost Value = { List LfType };

    ghost coded = { coded_list type_code };

    ghost use Rattle.tw_terms.specs.Shared.{in_scope, HasRow};

    ghost view = { in_scope };

    ghost invariant = { HasRow };
}

impl OpenContext {
    /// The context with no variable. It keeps the allocator.
    pub fn new(alloc: Global) -> OpenContext
        ensures { result ≡ [] }
    {
        OpenContext {
            alloc,
            types: None,
            len: 0,
        }
    }

    /// How many variables are in scope.
    pub fn len(&self) -> usize
        ensures { result ≡ length self.now }
    {
        self.len
    }

    /// Adds a variable of this open type as the innermost. Without memory the context stays as it is.
    pub fn push(&mut self, ty: OpenTy) -> Result<(), AllocError>
        ensures ok { OnOk result (self.new ≡ open_type_of ty ∷ self.old) }
        ensures err { OnErr result (self.new ≡ self.old) }
    {
        let ty = Rc::new(self.alloc, ty)?;
        match &mut self.types {
            Some(row) => add(self.alloc, row, self.len, ty)?,
            None => self.types = Some(Rc::new(self.alloc, shared(self.alloc, &[], ty)?)?),
        }
        self.len += 1;
        Ok(())
    }

    /// Takes the innermost variable away, if there is one.
    pub fn pop(&mut self)
        ensures rest { self.new ≡ drop 1 self.old }
    {
        if self.len > 0 {
            self.len -= 1;
        }
    }

    /// The type of this variable, in which the variables outside it count from 0.
    pub fn get(&self, variable: u64) -> Option<&OpenTy>
        ensures { option_map (λ a. open_type_of a.now) result ≡ slice_get self.now variable }
    {
        let len = self.len;
        if variable as usize >= len {
            return None;
        }
        match &self.types {
            Some(types) => Some(&types[len - 1 - variable as usize]),
            None => None,
        }
    }

    /// An equal open context, which shares the types: it costs the same however many there are. Fails only for want of memory.
    pub fn copy(&self, alloc: Global) -> Result<OpenContext, AllocError>
        ensures { IfOk result (λ g. g ≡ self.now) }
    {
        let types = self.types.clone()?;
        Ok(OpenContext {
            alloc,
            types,
            len: self.len,
        })
    }
}

/// Puts a type behind the first `len` of the row, in a row of its own where another context has this one too.
fn add(
    alloc: Global,
    row: &mut Rc<Vec<Rc<OpenTy>>>,
    len: usize,
    ty: Rc<OpenTy>,
) -> Result<(), AllocError>
    requires { len ≤ vec_len row.old.value }
    ensures ok { OnOk result (map (λ t. open_type_of t.value) row.new.value.items ≡ take len (map (λ t. open_type_of t.value) row.old.value.items) ++ open_type_of ty.value ∷ []) }
    ensures err { OnErr result (take len (map (λ t. open_type_of t.value) row.new.value.items) ≡ take len (map (λ t. open_type_of t.value) row.old.value.items)) }
    ensures len { OnErr result (len ≤ vec_len row.new.value) }
{
    if let Some(own) = Rc::get_mut(row) {
        own.truncate(len);
        own.push(ty)?;
        return Ok(());
    }
    *row = Rc::new(alloc, shared(alloc, &row[..len], ty)?)?;
    Ok(())
}

/// The same types, and this one behind them, in a row of their own.
fn shared(alloc: Global, row: &[Rc<OpenTy>], ty: Rc<OpenTy>) -> Result<Vec<Rc<OpenTy>>, AllocError>
    ensures { IfOk result (λ v. map (λ t. open_type_of t.value) v.items ≡ map (λ t. open_type_of t.value) row.now ++ open_type_of ty.value ∷ []) }
{
    let mut types = Vec::with_capacity(alloc, row.len())?;
    for shared in row {
        types.push(shared.clone()?)?;
    }
    types.push(ty)?;
    Ok(types)
}
