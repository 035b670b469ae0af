//! The skeletons that a solved store gives.
ghost use Rattle.std.specs.Prelude.{◌≡◌, map, IfOk, MatchBool, MatchOption};
ghost use Rattle.tw_approx.specs.Answer.{rows_of};
ghost use Rattle.tw_approx.specs.Solving.{AreOpen, AreAlways, AreDeeper, AreSettled, RowsAreAlways, numbers_of};
ghost use Rattle.tw_terms.specs.View.{skeleton_of};

use crate::approximation::Row;
use crate::variables::FreeVariable;
use std::alloc::{AllocError, Global};
use tw_shapes::{Shape, ShapeId, Shapes};
use tw_terms::Skeleton;

/// Whether each solution gives shape variables the same skeletons.
pub fn are_settled(shapes: &Shapes, variables: &[ShapeId]) -> Result<bool, AllocError>
    ensures { IfOk result (λ b. MatchBool b (AreSettled shapes.now (map (λ m. m.0) variables.now)) (AreOpen shapes.now (map (λ m. m.0) variables.now))) }
{
    for variable in variables {
        if !shapes.is_settled(&Shape::Variable(*variable))? {
            return Ok(false);
        }
    }
    Ok(true)
}

/// The same of free variables.
pub fn rows_are_settled(shapes: &Shapes, variables: &[FreeVariable]) -> Result<bool, AllocError>
    ensures { IfOk result (λ b. MatchBool b (AreSettled shapes.now (numbers_of (map (λ r. (r.name, r.shape.0)) variables.now))) (AreOpen shapes.now (numbers_of (map (λ r. (r.name, r.shape.0)) variables.now)))) }
{
    for variable in variables {
        if !shapes.is_settled(&Shape::Variable(variable.shape))? {
            return Ok(false);
        }
    }
    Ok(true)
}

/// The skeletons of shape variables; none where one is deeper than 4,096.
pub fn solved_all(
    alloc: Global,
    shapes: &Shapes,
    variables: &[ShapeId],
) -> Result<Option<Vec<Skeleton>>, AllocError>
    requires { AreSettled shapes.now (map (λ m. m.0) variables.now) }
    ensures { IfOk result (λ o. MatchOption o (AreDeeper shapes.now (map (λ m. m.0) variables.now)) (λ ks. AreAlways shapes.now (map (λ m. m.0) variables.now) (map skeleton_of ks.items))) }
{
    let mut skeletons = Vec::new(alloc);
    for variable in variables {
        match shapes.solved(&Shape::Variable(*variable))? {
            Some(skeleton) => skeletons.push(skeleton)?,
            None => return Ok(None),
        }
    }
    Ok(Some(skeletons))
}

/// The rows of free variables; none where a skeleton is deeper than 4,096.
pub fn solved_rows(
    alloc: Global,
    shapes: &Shapes,
    variables: &[FreeVariable],
) -> Result<Option<Vec<Row>>, AllocError>
    requires { AreSettled shapes.now (numbers_of (map (λ r. (r.name, r.shape.0)) variables.now)) }
    ensures { IfOk result (λ o. MatchOption o (AreDeeper shapes.now (numbers_of (map (λ r. (r.name, r.shape.0)) variables.now))) (λ rows. RowsAreAlways shapes.now (map (λ r. (r.name, r.shape.0)) variables.now) (rows_of rows.items))) }
{
    let mut rows = Vec::new(alloc);
    for variable in variables {
        match shapes.solved(&Shape::Variable(variable.shape))? {
            Some(skeleton) => {
                let name = variable.name.copy(alloc)?;
                rows.push(Row { name, skeleton })?;
            }
            None => return Ok(None),
        }
    }
    Ok(Some(rows))
}
