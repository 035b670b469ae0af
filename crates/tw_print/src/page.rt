//! The page on which a text is written, with the variables in scope.
ghost use Rattle.std.specs.Prelude.{◌≡◌, [], ◌∷◌, OnOk, drop, codes};
ghost use Rattle.tw_terms.specs.View.{type_of};
ghost use Rattle.tw_print.specs.Page.{Writes, Binds};
ghost use Rattle.tw_print.specs.Pieces.{token, space};

use std::alloc::{AllocError, Global};
use tw_fixity::{Name, Scope};
use tw_terms::{Context, Ty};

/// What is written so far, and the types and names of the variables in scope.
#[derive(Drop)]
pub struct Page {
    pub out: Vec<u8>,
    pub context: Context,
    pub scope: Scope,
}

impl Page {
    /// The blank page with no variable in scope.
    pub fn new(alloc: Global) -> Page
        ensures out { result.out.items ≡ [] }
        ensures context { result.context ≡ [] }
        ensures scope { result.scope ≡ [] }
    {
        Page {
            out: Vec::new(alloc),
            context: Context::new(alloc),
            scope: Scope::new(alloc),
        }
    }

    /// Writes a token.
    pub fn token(&mut self, bytes: &[u8]) -> Result<(), AllocError>
        ensures { OnOk result (Writes self.old self.new (token bytes.now ∷ [])) }
    {
        self.out.extend_from_slice(bytes)?;
        Ok(())
    }

    /// Writes a space.
    pub fn space(&mut self) -> Result<(), AllocError>
        ensures { OnOk result (Writes self.old self.new (space ∷ [])) }
    {
        self.out.extend_from_slice(b" ")?;
        Ok(())
    }

    /// Writes an opening bracket, the name of a variable and a colon.
    pub fn open(&mut self, bracket: &[u8], name: &[u8]) -> Result<(), AllocError>
        ensures { OnOk result (Writes self.old self.new (token bracket.now ∷ token name.now ∷ token (codes ":") ∷ [])) }
    {
        self.token(bracket)?;
        self.token(name)?;
        self.token(b":")
    }

    /// Writes a closing bracket and a space.
    pub fn close(&mut self, bracket: &[u8]) -> Result<(), AllocError>
        ensures { OnOk result (Writes self.old self.new (token bracket.now ∷ space ∷ [])) }
    {
        self.token(bracket)?;
        self.space()
    }

    /// Writes an arrow between spaces.
    pub fn arrow(&mut self) -> Result<(), AllocError>
        ensures { OnOk result (Writes self.old self.new (space ∷ token (codes "->") ∷ space ∷ [])) }
    {
        self.space()?;
        self.token(b"->")?;
        self.space()
    }

    /// Brings a variable in scope.
    pub fn enter(&mut self, alloc: Global, ty: &Ty, name: Option<Name>) -> Result<(), AllocError>
        ensures { OnOk result (Binds self.old self.new [] (type_of ty.now) name) }
    {
        self.context.push(ty.copy(alloc)?)?;
        self.scope.push(name)?;
        Ok(())
    }

    /// Takes the newest variable out of scope.
    pub fn leave(&mut self)
        ensures out { self.new.out.items ≡ self.old.out.items }
        ensures context { self.new.context ≡ drop 1 self.old.context }
        ensures scope { self.new.scope ≡ drop 1 self.old.scope }
    {
        let _ = self.context.pop();
        self.scope.pop();
    }
}
