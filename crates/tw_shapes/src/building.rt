//! Shapes that are built from their leaves, from left to right. The arrows that are begun stand on the heap.
ghost use Rattle.std.specs.Prelude.{◌≡◌, IfOk};
ghost use Rattle.tw_shapes.specs.Building.{closed};
ghost use Rattle.tw_shapes.specs.BuildingView.{arrows_of, built_of};
ghost use Rattle.tw_shapes.specs.View.{shape_of};

use crate::shape::Shape;
use std::alloc::{AllocError, Global};

/// An arrow that is being built.
#[derive(Drop)]
pub enum Begun<'a> {
    /// Its domain is being built, and its range is to be built from this shape.
    Domain(&'a Shape),
    /// Its range is being built, behind this domain.
    Range(Shape),
}

/// What is to be done behind a part that is built.
#[derive(Drop)]
pub enum Built<'a> {
    /// Nothing: this is the whole shape.
    Whole(Shape),
    /// The range of the newest arrow is to be built from this shape.
    Next(&'a Shape),
}

/// Puts the part that is built where it belongs: arrows of which it is the end are built too.
pub fn close<'a>(
    alloc: Global,
    begun: &mut Vec<Begun<'a>>,
    part: Shape,
) -> Result<Built<'a>, AllocError>
    ensures { IfOk result (λ b. (arrows_of begun.new.items, built_of b) ≡ closed (arrows_of begun.old.items) (shape_of part)) }
{
    let mut part = part;
    while let Some(arrow) = begun.pop() {
        match arrow {
            Begun::Domain(range) => {
                begun.push(Begun::Range(part))?;
                return Ok(Built::Next(range));
            }
            Begun::Range(domain) => {
                let domain = Box::new(alloc, domain)?;
                part = Shape::Arrow(domain, Box::new(alloc, part)?);
            }
        }
    }
    Ok(Built::Whole(part))
}
