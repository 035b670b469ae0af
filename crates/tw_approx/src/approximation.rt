//! The skeletons of a declaration.
ghost use Rattle.std.specs.Prelude.{◌≡◌, [], map, true, false, Some, None, ◌≤◌, IfOk, IfErr, MatchOption, option_map};
ghost use Rattle.lf.specs.Depth.{depth_limit};
ghost use Rattle.tw_approx.specs.Answer.{rows_of, IsOfObjects, NestsWithin, HasSkeletons, HasCause, NeverFits};
ghost use Rattle.tw_approx.specs.Levels.{is_type_definition, earliest, type_lambdas, lambdas_in_written};
ghost use Rattle.tw_approx.specs.Names.{IsFreeVariable, IsFreeIn};
ghost use Rattle.tw_approx.specs.Nesting.{declared_depth};
ghost use Rattle.tw_approx.specs.Reading.{state_of};
ghost use Rattle.tw_approx.specs.Skeletons.{Fits, FitsClassifier};
ghost use Rattle.tw_names.specs.Texts.{ends_in_type};
ghost use Rattle.tw_names.specs.Earliest.{earliest as first_mention};
ghost use Rattle.tw_approx.specs.Solving.{IsFound, IsSolved, IsLeftOpen, FitsDefinition, IsFreeInDefinition, DefinitionIsRead};
ghost use Rattle.tw_approx.specs.Walks.{empty_state};
ghost use Rattle.tw_names.specs.Unknown.{unknown_in};
ghost use Rattle.tw_parse.specs.View.{term_of, declaration_of};
ghost use Rattle.tw_terms.specs.View.{skeleton_of};

use crate::fault::ApproxFault;
use crate::frames::FRAMES;
use crate::lambdas::{Part, first_lambda};
use crate::levels::{is_written_kind, is_written_type};
use crate::nesting::declares_deeply;
use crate::skeletons::{ascribed, kind_due, term_shape, type_shape};
use crate::solving::{are_settled, rows_are_settled, solved_all, solved_rows};
use crate::walk::Walk;
use std::alloc::{AllocError, Global};
use tw_fixity::{Name, Scope};
use tw_lexer::Place;
use tw_names::{Mention, ends_in_type, first_mention};
use tw_parse::{ExtDecl, ExtTerm};
use tw_shapes::Shape;
use tw_signature::Signature;
use tw_terms::Skeleton;

/// A free variable with its skeleton.
#[derive(Drop, Debug)]
pub struct Row {
    pub name: Name,
    pub skeleton: Skeleton,
}

/// The skeletons of what a declaration leaves out.
#[derive(Drop, Debug)]
pub struct Approx {
    /// The free variables, each once. Nothing is said of their order.
    pub free: Vec<Row>,
    /// Holes and binders without a type, in the order in which the text is gone over: a function before its argument, a domain before its range, a term before
    /// the type that is written for it, but the type of a definition before its term. A hole for a term has the skeleton of its type, a hole for a type its own.
    pub omitted: Vec<Skeleton>,
}

/// The skeletons of a declaration's free variables, holes and untyped binders. The causes of a refusal are tried in the order of `ApproxFault`, but that a text which nests too
/// deep is told right behind an unknown name.
///
/// A hole stands for a term or a type, never for a kind. What has no term, as a row of operators, has no skeletons: it clashes.
pub fn approximate(
    alloc: Global,
    signature: &Signature,
    decl: &ExtDecl,
) -> Result<Approx, ApproxFault>
    ensures within { IfOk result (λ _. declared_depth signature.now (declaration_of decl.now) ≤ depth_limit) }
    ensures objects { IfOk result (λ _. IsOfObjects signature.now (declaration_of decl.now)) }
    ensures skeletons { IfOk result (λ a. HasSkeletons signature.now (declaration_of decl.now) (rows_of a.free.items) (map skeleton_of a.omitted.items)) }
    ensures refused { IfErr result (λ f. HasCause signature.now (declaration_of decl.now) f) }
{
    known(alloc, signature, decl)?;
    if declares_deeply(alloc, signature, decl)? {
        return Err(ApproxFault::TooDeep);
    }
    of_objects(alloc, signature, decl)?;
    match found(alloc, signature, decl)? {
        Some(walk) => solved(alloc, &walk),
        None => Err(ApproxFault::Clash),
    }
}

/// The skeletons that each solution of a walk gives.
pub fn solved(alloc: Global, walk: &Walk) -> Result<Approx, ApproxFault>
    ensures solved { IfOk result (λ a. IsSolved (state_of walk.now) (rows_of a.free.items) (map skeleton_of a.omitted.items)) }
    ensures open { IfErr result (IsLeftOpen (state_of walk.now)) }
{
    if !are_settled(&walk.shapes, &walk.omitted)? {
        return Err(ApproxFault::Loose);
    }
    let rows = walk.variables.rows();
    if !rows_are_settled(&walk.shapes, rows)? {
        return Err(ApproxFault::Loose);
    }
    walk.shapes.has_solution();
    let Some(omitted) = solved_all(alloc, &walk.shapes, &walk.omitted)? else {
        return Err(ApproxFault::TooDeep);
    };
    let Some(free) = solved_rows(alloc, &walk.shapes, rows)? else {
        return Err(ApproxFault::TooDeep);
    };
    Ok(Approx { free, omitted })
}

/// Fails at the first name that is unknown.
fn known(alloc: Global, signature: &Signature, decl: &ExtDecl) -> Result<(), ApproxFault>
    ensures known { IfOk result (λ _. unknown_in signature.now (declaration_of decl.now) ≡ []) }
    ensures refused { IfErr result (λ f. HasCause signature.now (declaration_of decl.now) f) }
{
    match first_unknown(alloc, signature, decl)? {
        Some(Mention { name, at }) => Err(ApproxFault::Unknown(name, at)),
        None => Ok(()),
    }
}

/// The first name that is unknown.
fn first_unknown(
    alloc: Global,
    signature: &Signature,
    decl: &ExtDecl,
) -> Result<Option<Mention>, AllocError>
    ensures { IfOk result (λ m. m ≡ first_mention None (unknown_in signature.now (declaration_of decl.now))) }
{
    match decl {
        ExtDecl::Declare(_, _, term) => first_mention(alloc, signature, &None, term),
        ExtDecl::Define(_, ty, term, _) => first_mention(alloc, signature, ty, term),
        ExtDecl::NamePref(_, _, _) | ExtDecl::Fixity(_, _) => Ok(None),
    }
}

/// Fails where a definition or a lambda stands at the level of types.
fn of_objects(alloc: Global, signature: &Signature, decl: &ExtDecl) -> Result<(), ApproxFault>
    requires { NestsWithin signature.now (declaration_of decl.now) }
    ensures objects { IfOk result (λ _. IsOfObjects signature.now (declaration_of decl.now)) }
    ensures refused { IfErr result (λ f. HasCause signature.now (declaration_of decl.now) f) }
{
    if is_type_definition(alloc, signature, decl)? {
        return Err(ApproxFault::TypeLevel(None));
    }
    match first_type_lambda(alloc, decl)? {
        Some(place) => Err(ApproxFault::TypeLevel(Some(place))),
        None => Ok(()),
    }
}

/// Whether what is defined stands at the level of types.
fn is_type_definition(
    alloc: Global,
    signature: &Signature,
    decl: &ExtDecl,
) -> Result<bool, AllocError>
    ensures { IfOk result (λ b. b ≡ is_type_definition signature.now (declaration_of decl.now)) }
{
    match decl {
        ExtDecl::Define(_, ty, term, _) => {
            let mut scope = Scope::new(alloc);
            Ok(is_written_type(alloc, signature, &mut scope, term)? || is_written_kind(ty))
        }
        ExtDecl::Declare(_, _, _) | ExtDecl::NamePref(_, _, _) | ExtDecl::Fixity(_, _) => Ok(false),
    }
}

/// The earliest lambda at the level of types.
fn first_type_lambda(alloc: Global, decl: &ExtDecl) -> Result<Option<Place>, AllocError>
    ensures { IfOk result (λ p. p ≡ earliest None (type_lambdas (declaration_of decl.now))) }
{
    match decl {
        ExtDecl::Declare(_, _, term) => first_lambda(alloc, Part::Type(term), None),
        ExtDecl::Define(_, ty, term, _) => {
            first_lambda(alloc, Part::Term(term), first_in_written(alloc, ty)?)
        }
        ExtDecl::NamePref(_, _, _) | ExtDecl::Fixity(_, _) => Ok(None),
    }
}

/// The same of a type, if it is written.
fn first_in_written(alloc: Global, ty: &Option<ExtTerm>) -> Result<Option<Place>, AllocError>
    ensures { IfOk result (λ p. p ≡ earliest None (lambdas_in_written (option_map term_of ty.now))) }
{
    match ty {
        Some(ty) => first_lambda(alloc, Part::Type(ty), None),
        None => Ok(None),
    }
}

/// The walk over the declaration, whose solutions are the ways in which it fits; none where it fits in no way.
fn found(alloc: Global, signature: &Signature, decl: &ExtDecl) -> Result<Option<Walk>, AllocError>
    ensures { IfOk result (λ o. MatchOption o (NeverFits (λ f o. Fits signature.now f o (declaration_of decl.now))) (λ w. IsFound (λ f o. Fits signature.now f o (declaration_of decl.now)) (λ x. IsFreeVariable signature.now x (declaration_of decl.now)) (state_of w))) }
{
    match decl {
        ExtDecl::Declare(_, _, term) => declared(alloc, signature, term),
        ExtDecl::Define(_, ty, term, _) => defined(alloc, signature, ty, term),
        ExtDecl::NamePref(_, _, _) | ExtDecl::Fixity(_, _) => Ok(None),
    }
}

/// The same of a declaration of this kind or type.
fn declared(
    alloc: Global,
    signature: &Signature,
    term: &ExtTerm,
) -> Result<Option<Walk>, AllocError>
    ensures { IfOk result (λ o. MatchOption o (NeverFits (λ f o. FitsClassifier signature.now f (term_of term.now) o (ends_in_type (term_of term.now)))) (λ w. IsFound (λ f o. FitsClassifier signature.now f (term_of term.now) o (ends_in_type (term_of term.now))) (λ x. IsFreeIn signature.now x [] (term_of term.now)) (state_of w))) }
{
    if ends_in_type(term) {
        family(alloc, signature, term)
    } else {
        constant(alloc, signature, term)
    }
}

fn family(alloc: Global, signature: &Signature, term: &ExtTerm) -> Result<Option<Walk>, AllocError>
    ensures { IfOk result (λ o. MatchOption o (NeverFits (λ f o. FitsClassifier signature.now f (term_of term.now) o true)) (λ w. IsFound (λ f o. FitsClassifier signature.now f (term_of term.now) o true) (λ x. IsFreeIn signature.now x [] (term_of term.now)) (state_of w))) }
{
    let mut walk = Walk::new(alloc);
    match kind_due(alloc, signature, &mut walk, term, FRAMES)? {
        Some(_) => Ok(Some(walk)),
        None => Ok(None),
    }
}

/// The same of a written type.
pub fn constant(
    alloc: Global,
    signature: &Signature,
    term: &ExtTerm,
) -> Result<Option<Walk>, AllocError>
    ensures { IfOk result (λ o. MatchOption o (NeverFits (λ f o. FitsClassifier signature.now f (term_of term.now) o false)) (λ w. IsFound (λ f o. FitsClassifier signature.now f (term_of term.now) o false) (λ x. IsFreeIn signature.now x [] (term_of term.now)) (state_of w))) }
{
    let mut walk = Walk::new(alloc);
    match type_shape(alloc, signature, &mut walk, term, FRAMES)? {
        Some(_) => Ok(Some(walk)),
        None => Ok(None),
    }
}

/// The same of a definition, with the type that is written for it, if one is.
fn defined(
    alloc: Global,
    signature: &Signature,
    ty: &Option<ExtTerm>,
    term: &ExtTerm,
) -> Result<Option<Walk>, AllocError>
    ensures { IfOk result (λ o. MatchOption o (NeverFits (FitsDefinition signature.now (option_map term_of ty.now) (term_of term.now))) (λ w. IsFound (FitsDefinition signature.now (option_map term_of ty.now) (term_of term.now)) (IsFreeInDefinition signature.now (option_map term_of ty.now) (term_of term.now)) (state_of w))) }
{
    let mut walk = Walk::new(alloc);
    match definition_shape(alloc, signature, &mut walk, ty, term)? {
        Some(_) => Ok(Some(walk)),
        None => Ok(None),
    }
}

/// The shape of a definition, with the type that is written for it, if one is.
fn definition_shape(
    alloc: Global,
    signature: &Signature,
    walk: &mut Walk,
    ty: &Option<ExtTerm>,
    term: &ExtTerm,
) -> Result<Option<Shape>, AllocError>
    requires { state_of walk.old ≡ empty_state }
    ensures { IfOk result (λ o. DefinitionIsRead signature.now empty_state (state_of walk.new) (option_map term_of ty.now) (term_of term.now) o) }
{
    match ty {
        Some(ty) => typed_shape(alloc, signature, walk, ty, term),
        None => term_shape(alloc, signature, walk, term, FRAMES),
    }
}

/// Of a definition with this type.
fn typed_shape(
    alloc: Global,
    signature: &Signature,
    walk: &mut Walk,
    ty: &ExtTerm,
    term: &ExtTerm,
) -> Result<Option<Shape>, AllocError>
    requires { state_of walk.old ≡ empty_state }
    ensures { IfOk result (λ o. DefinitionIsRead signature.now empty_state (state_of walk.new) (Some (term_of ty.now)) (term_of term.now) o) }
{
    let Some(expected) = type_shape(alloc, signature, walk, ty, FRAMES)? else {
        return Ok(None);
    };
    let Some(shape) = term_shape(alloc, signature, walk, term, FRAMES)? else {
        return Ok(None);
    };
    ascribed(walk, expected, shape)
}
