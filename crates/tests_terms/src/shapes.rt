//! Equations of shapes.
ghost use Rattle.std.specs.Prelude.{◌≡◌, IsTrue};
ghost use Rattle.tw_shapes.specs.Shapes.{IsWithin, count_of};
ghost use Rattle.tw_shapes.specs.View.{shape_of};

use crate::cases::{Steps, run, said};
use std::alloc::Global;
use tests_forms::{Case, Form, FormFault, Names, number_of, show_skeleton};
use tw_shapes::{Shape, ShapeId, Shapes};

/// A store of shape variables, from an empty one on.
pub fn shapes(alloc: Global, names: &mut Names, case: &Case) -> Result<String, FormFault> {
    let shapes = Shapes::new(alloc);
    run(alloc, names, case, Variables { shapes, count: 0 })
}

#[derive(Drop)]
struct Variables {
    shapes: Shapes,
    count: u64,
    ghost counted: { count_of shapes ≡ count },
}

impl Steps for Variables {
    fn step(
        &mut self,
        alloc: Global,
        names: &mut Names,
        word: &str,
        forms: &[Form],
    ) -> Result<String, FormFault> {
        match (word, forms) {
            ("fresh", []) => {
                let number = self.fresh()?;
                Ok(format!(in alloc; "?{number}")?)
            }
            ("unify", [left, right]) => {
                let left = read_shape(alloc, names, left)?;
                let right = read_shape(alloc, names, right)?;
                self.unified(alloc, &left, &right)
            }
            ("solved" | "copy", [shape]) => {
                let shape = read_shape(alloc, names, shape)?;
                self.solved(alloc, names, &shape, word == "solved")
            }
            _ => Err(FormFault::NoMeaning),
        }
    }
}

impl Variables {
    // one variable more
    fn fresh(&mut self) -> Result<u64, FormFault> {
        let count = self.count.checked_add(1).ok_or(FormFault::NoMemory)?;
        let variable = self.shapes.fresh()?;
        self.count = count;
        Ok(variable.0)
    }

    // whether the shapes, of variables of the store, can be made equal
    fn unified(&mut self, alloc: Global, left: &Shape, right: &Shape) -> Result<String, FormFault> {
        if !is_within(left, self.count) {
            return Err(FormFault::NoMeaning);
        }
        if !is_within(right, self.count) {
            return Err(FormFault::NoMeaning);
        }
        let unified = self.shapes.unify(left, right)?;
        self.shapes.has_solution();
        said(alloc, if unified { "equal" } else { "apart" })
    }

    // the skeleton that the shape is in each solution, or whether a copy of that is the same
    fn solved(
        &self,
        alloc: Global,
        names: &Names,
        shape: &Shape,
        is_shown: bool,
    ) -> Result<String, FormFault> {
        if !self.shapes.is_settled(shape)? {
            return said(alloc, "open");
        }
        let Some(skeleton) = self.shapes.solved(shape)? else {
            return said(alloc, "too deep");
        };
        if is_shown {
            let mut line = String::new(alloc);
            show_skeleton(&mut line, names, &skeleton)?;
            return Ok(line);
        }
        let same = skeleton.copy(alloc)?.same(&skeleton);
        said(alloc, if same { "the same" } else { "different" })
    }
}

// whether the shape has only the first variables, so many
fn is_within(shape: &Shape, count: u64) -> bool
    ensures { IsTrue result → IsWithin count (shape_of shape.now) }
{
    match shape {
        Shape::Variable(variable) => variable.0 < count,
        Shape::Base(_) => true,
        Shape::Arrow(domain, range) => is_within(domain, count) && is_within(range, count),
    }
}

// the shape that the form means: `?2` is a variable, `(-> a b)` an arrow
fn read_shape(alloc: Global, names: &Names, form: &Form) -> Result<Shape, FormFault> {
    match form {
        Form::Word(word) => match word.as_str().strip_prefix('?') {
            Some(number) => Ok(Shape::Variable(ShapeId(number_of(number)?))),
            None => Ok(Shape::Base(names.constant(word.as_str())?)),
        },
        Form::Group(forms) => match forms.as_slice() {
            [Form::Word(mark), domain, range] if mark.as_str() == "->" => {
                let domain = Box::new(alloc, read_shape(alloc, names, domain)?)?;
                let range = Box::new(alloc, read_shape(alloc, names, range)?)?;
                Ok(Shape::Arrow(domain, range))
            }
            _ => Err(FormFault::NoMeaning),
        },
    }
}
