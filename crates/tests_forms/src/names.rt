//! What words name.
use crate::fault::FormFault;
use crate::forms::number_of;
use std::alloc::{AllocError, Global};
use std::mem;
use tw_terms::{ConstId, MetaId, OpenHead};

/// What words name: constants and metavariables by their places in a list, and the variables in scope, the innermost last.
#[derive(Drop)]
pub struct Names {
    constants: Vec<String>,
    metas: Vec<String>,
    variables: Vec<String>,
    /// How many of the variables have names that were made for them.
    made: u64,
}

impl Names {
    /// No names. It keeps the allocator.
    pub fn new(alloc: Global) -> Names {
        Names {
            constants: Vec::new(alloc),
            metas: Vec::new(alloc),
            variables: Vec::new(alloc),
            made: 0,
        }
    }

    /// The name of the next constant or family.
    pub fn add_constant(&mut self, alloc: Global, name: &str) -> Result<(), AllocError> {
        self.constants.push(String::from_str(alloc, name)?)?;
        Ok(())
    }

    /// The name of the next metavariable.
    pub fn add_meta(&mut self, alloc: Global, name: &str) -> Result<(), AllocError> {
        self.metas.push(String::from_str(alloc, name)?)?;
        Ok(())
    }

    /// Gives the metavariables these names, and gives back those that they had.
    pub fn replace_metas(&mut self, metas: Vec<String>) -> Vec<String> {
        mem::replace(&mut self.metas, metas)
    }

    /// No metavariable and no variable has a name any more.
    pub fn forget_all_but_constants(&mut self, alloc: Global) {
        self.metas = Vec::new(alloc);
        self.variables = Vec::new(alloc);
        self.made = 0;
    }

    /// One variable more, as the innermost.
    pub fn push_variable(&mut self, alloc: Global, name: &str) -> Result<(), AllocError> {
        self.variables.push(String::from_str(alloc, name)?)?;
        Ok(())
    }

    /// The innermost variable is out of scope.
    pub fn pop_variable(&mut self) {
        self.variables.pop();
    }

    /// Only the outermost variables, so many, stay in scope.
    pub fn leave_scope(&mut self, count: usize) {
        self.variables.truncate(count);
        self.made = 0;
    }

    /// How many variables are in scope.
    pub fn scope(&self) -> usize {
        self.variables.len()
    }

    /// One variable more, with a name that is made for it: `u1` for the first.
    pub fn push_made(&mut self, alloc: Global) -> Result<(), AllocError> {
        self.made = self.made.saturating_add(1);
        self.variables.push(format!(in alloc; "u{}", self.made)?)?;
        Ok(())
    }

    /// The variable that `push_made` added is out of scope.
    pub fn pop_made(&mut self) {
        self.variables.pop();
        self.made = self.made.saturating_sub(1);
    }

    /// The innermost variable, the newest constant or the newest metavariable of this name.
    pub fn head(&self, word: &str) -> Result<OpenHead, FormFault> {
        if let Some(place) = newest(&self.variables, word) {
            let inside = self.variables.len().saturating_sub(place).saturating_sub(1);
            return Ok(OpenHead::Var(inside as u64));
        }
        if let Some(place) = newest(&self.constants, word) {
            return Ok(OpenHead::Const(ConstId(place as u64)));
        }
        if let Some(place) = newest(&self.metas, word) {
            return Ok(OpenHead::Meta(MetaId(place as u64)));
        }
        self.numbered(word)
    }

    fn numbered(&self, word: &str) -> Result<OpenHead, FormFault> {
        if let Some(number) = word.strip_prefix('?') {
            return Ok(OpenHead::Meta(MetaId(number_of(number)?)));
        }
        if let Some(number) = word.strip_prefix('%') {
            return Ok(OpenHead::Const(ConstId(number_of(number)?)));
        }
        match word.strip_prefix('#') {
            Some(number) => {
                let outside = number_of(number)?;
                let scope = self.variables.len() as u64;
                Ok(OpenHead::Var(outside.checked_add(scope).ok_or(FormFault::NoMeaning)?))
            }
            None => Err(FormFault::NoMeaning),
        }
    }

    /// The constant or family of this name.
    pub fn constant(&self, word: &str) -> Result<ConstId, FormFault> {
        match newest(&self.constants, word) {
            Some(place) => Ok(ConstId(place as u64)),
            None => match self.numbered(word)? {
                OpenHead::Const(id) => Ok(id),
                OpenHead::Var(_) | OpenHead::Meta(_) => Err(FormFault::NoMeaning),
            },
        }
    }

    /// The metavariable of this name.
    pub fn meta(&self, word: &str) -> Result<MetaId, FormFault> {
        match newest(&self.metas, word) {
            Some(place) => Ok(MetaId(place as u64)),
            None => match self.numbered(word)? {
                OpenHead::Meta(id) => Ok(id),
                OpenHead::Var(_) | OpenHead::Const(_) => Err(FormFault::NoMeaning),
            },
        }
    }

    /// Adds the name of the head.
    pub fn show_head(&self, line: &mut String, head: OpenHead) -> Result<(), AllocError> {
        match head {
            OpenHead::Var(inside) => self.show_variable(line, inside),
            OpenHead::Const(id) => self.show_constant(line, id),
            OpenHead::Meta(meta) => show_listed(line, &self.metas, '?', meta.0),
        }
    }

    /// Adds the name of the constant or family.
    pub fn show_constant(&self, line: &mut String, id: ConstId) -> Result<(), AllocError> {
        show_listed(line, &self.constants, '%', id.0)
    }

    fn show_variable(&self, line: &mut String, inside: u64) -> Result<(), AllocError> {
        let scope = self.variables.len() as u64;
        if inside >= scope {
            return write!(line, "#{}", inside - scope);
        }
        match self.variables.get((scope - 1 - inside) as usize) {
            Some(name) => line.push_str(name.as_str()),
            None => line.push('#'),
        }
    }
}

// the last place of the name
fn newest(names: &[String], word: &str) -> Option<usize> {
    let mut found = None;
    for (place, name) in names.iter().enumerate() {
        if name.as_str() == word {
            found = Some(place);
        }
    }
    found
}

// the name of this number, or the mark and the number
fn show_listed(
    line: &mut String,
    names: &[String],
    mark: char,
    number: u64,
) -> Result<(), AllocError> {
    if number < names.len() as u64 {
        line.push_str(names[number as usize].as_str())
    } else {
        line.push(mark)?;
        write!(line, "{}", number)
    }
}
