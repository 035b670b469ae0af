//! The store of metavariables.
ghost use Rattle.std.specs.Prelude.{◌≡◌, ◌≤◌, length};

use crate::cases::{Steps, run, said};
use std::alloc::Global;
use tests_forms::{
    Case, Form, FormFault, Names, number_of, read_term, read_type, show_term, show_type,
};
use tw_metas::{Equation, Mark, Store};
use tw_terms::{Open, OpenContext, OpenTy};

/// A store of metavariables, from an empty one on. All stand in the empty context.
pub fn store(alloc: Global, names: &mut Names, case: &Case) -> Result<String, FormFault> {
    let store = Store::new(alloc);
    let start = store.mark();
    let mark = store.mark();
    run(alloc, names, case, Marked { store, start, mark })
}

// a store, the mark at its start, and a later one
#[derive(Drop)]
struct Marked {
    store: Store,
    start: Mark,
    mark: Mark,
    ghost first: { start ≡ 0 },
    ghost reached: { mark ≤ length store.before },
}

impl Steps for Marked {
    fn step(
        &mut self,
        alloc: Global,
        names: &mut Names,
        word: &str,
        forms: &[Form],
    ) -> Result<String, FormFault> {
        match (word, forms) {
            ("fresh", [ty]) => self.fresh(alloc, names, ty),
            ("postpone", [left, right, ty]) => self.postpone(alloc, names, left, right, ty),
            ("settle", [Form::Word(place)]) => self.settle(alloc, place.as_str()),
            ("mark", []) => {
                self.mark = self.store.mark();
                Ok(String::new(alloc))
            }
            ("undo", []) => {
                self.undo();
                Ok(String::new(alloc))
            }
            ("undo-all", []) => {
                self.undo_all();
                Ok(String::new(alloc))
            }
            ("copy", [left, right, ty]) => shown_copy(alloc, names, left, right, ty),
            _ => asked(alloc, names, &self.store, word, forms),
        }
    }
}

impl Marked {
    // a metavariable more, and its number
    fn fresh(&mut self, alloc: Global, names: &mut Names, ty: &Form) -> Result<String, FormFault> {
        let ty = read_type(alloc, names, ty)?;
        let meta = self.store.fresh(OpenContext::new(alloc), ty)?;
        Ok(format!(in alloc; "?{}", meta.0)?)
    }

    fn postpone(
        &mut self,
        alloc: Global,
        names: &mut Names,
        left: &Form,
        right: &Form,
        ty: &Form,
    ) -> Result<String, FormFault> {
        let equation = equation(alloc, names, left, right, ty)?;
        self.store.postpone(alloc, equation)?;
        Ok(String::new(alloc))
    }

    fn settle(&mut self, alloc: Global, place: &str) -> Result<String, FormFault> {
        let place = number_of(place)?;
        if place >= self.store.equations().len() as u64 {
            return Err(FormFault::NoMeaning);
        }
        self.store.settle(place as usize)?;
        Ok(String::new(alloc))
    }

    #[tactic(auto, using(crate::proofs::Marks::back_at_mark))]
    fn undo(&mut self) {
        self.store.undo_to(&self.mark);
    }

    fn undo_all(&mut self) {
        self.store.undo_to(&self.start);
        self.mark = self.store.mark();
    }
}

// what the store says, which doesn't change
fn asked(
    alloc: Global,
    names: &mut Names,
    store: &Store,
    word: &str,
    forms: &[Form],
) -> Result<String, FormFault> {
    match (word, forms) {
        ("equations", []) => shown_equations(alloc, names, store.equations()),
        ("value", [Form::Word(meta)]) => {
            let meta = names.meta(meta.as_str())?;
            shown_value(alloc, names, store.value(meta))
        }
        ("about", [Form::Word(meta)]) => match store.about(names.meta(meta.as_str())?) {
            Some((context, ty)) => shown_about(alloc, names, context, ty),
            None => said(alloc, "none"),
        },
        _ => Err(FormFault::NoMeaning),
    }
}

fn shown_copy(
    alloc: Global,
    names: &mut Names,
    left: &Form,
    right: &Form,
    ty: &Form,
) -> Result<String, FormFault> {
    let equation = equation(alloc, names, left, right, ty)?;
    shown_equation(alloc, names, &equation.copy(alloc)?)
}

/// The first metavariable, of the type `type`: its number, its value once it is bound to `value`, and none where that is taken back.
pub fn bind(alloc: Global, names: &mut Names, case: &Case) -> Result<String, FormFault> {
    case.has_only(&["type", "value"])?;
    let ty = read_type(alloc, names, &case.form(alloc, "type")?)?;
    let value = read_term(alloc, names, &case.form(alloc, "value")?)?;
    let mut store = Store::new(alloc);
    let meta = store.fresh(OpenContext::new(alloc), ty)?;
    let mark = store.mark();
    store.bind(meta, value)?;
    let bound = shown_value(alloc, names, store.value(meta));
    store.undo_to(&mark);
    let undone = shown_value(alloc, names, store.value(meta));
    bound_line(alloc, meta.0, bound, undone)
}

fn bound_line(
    alloc: Global,
    number: u64,
    bound: Result<String, FormFault>,
    undone: Result<String, FormFault>,
) -> Result<String, FormFault> {
    let bound = bound?;
    let undone = undone?;
    Ok(format!(in alloc; "?{number}; {bound}; {undone}")?)
}

fn equation(
    alloc: Global,
    names: &mut Names,
    left: &Form,
    right: &Form,
    ty: &Form,
) -> Result<Equation, FormFault> {
    Ok(Equation {
        context: OpenContext::new(alloc),
        left: read_term(alloc, names, left)?,
        right: read_term(alloc, names, right)?,
        ty: read_type(alloc, names, ty)?,
    })
}

fn shown(alloc: Global, names: &mut Names, term: &Open) -> Result<String, FormFault> {
    let mut line = String::new(alloc);
    show_term(alloc, &mut line, names, term)?;
    Ok(line)
}

fn shown_value(
    alloc: Global,
    names: &mut Names,
    value: Option<&Open>,
) -> Result<String, FormFault> {
    match value {
        Some(value) => shown(alloc, names, value),
        None => said(alloc, "none"),
    }
}

fn shown_equation(
    alloc: Global,
    names: &mut Names,
    equation: &Equation,
) -> Result<String, FormFault> {
    let mut line = shown(alloc, names, &equation.left)?;
    line.push_str(" = ")?;
    line.push_str(shown(alloc, names, &equation.right)?.as_str())?;
    Ok(line)
}

// how many there are, and each
fn shown_equations(
    alloc: Global,
    names: &mut Names,
    equations: &[Box<Equation>],
) -> Result<String, FormFault> {
    let mut line = format!(in alloc; "{} postponed", equations.len())?;
    for equation in equations {
        line.push_str(", ")?;
        line.push_str(shown_equation(alloc, names, equation)?.as_str())?;
    }
    Ok(line)
}

fn shown_about(
    alloc: Global,
    names: &mut Names,
    context: &OpenContext,
    ty: &OpenTy,
) -> Result<String, FormFault> {
    let mut line = format!(in alloc; "{} variables, ", context.len())?;
    show_type(alloc, &mut line, names, ty)?;
    Ok(line)
}
