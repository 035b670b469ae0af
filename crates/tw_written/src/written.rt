//! What is written, with names resolved, and told the skeletons of what isn't written.
ghost use Rattle.std.specs.Prelude.{◌≡◌, ◌+◌, ◌*◌, ◌<◌};
ghost use Rattle.tw_written.specs.View.{written_of, written_domain_of, written_type_of, written_kind_of};
ghost use Rattle.tw_written.specs.Dropping.{piece_weight, term_waits, type_waits, kind_waits, term_weight, domain_weight, type_weight, kind_weight};

use crate::dropping::{Piece, let_go};
use std::alloc::{AllocError, Global};
use std::mem;
use tw_lexer::Place;
use tw_terms::{ConstId, Skeleton};

/// A written term. Free variables are numbered in the order in which the skeleton pass gives them, and variables in scope from the newest. A place is that of the
/// name, of the hole or of the binder's bracket: what elaboration makes for it stands there.
#[cycle(written)]
#[derive(Debug)]
pub enum Written {
    Free(u64, Place),
    Bound(u64),
    Declared(ConstId, Place),
    /// A hole for a term whose type has this skeleton.
    Hole(Skeleton, Place),
    Function(WrittenDomain, Box<Written>),
    Applied(Box<Written>, Box<Written>),
    Ascribed(Box<Written>, Box<WrittenType>),
}

/// The type at a binder, or its skeleton where it isn't written.
#[cycle(written)]
#[derive(Drop, Debug)]
pub enum WrittenDomain {
    OfSkeleton(Skeleton, Place),
    OfType(Box<WrittenType>),
}

/// A written type or family. The variable of an arrow isn't in scope in its range.
#[cycle(written)]
#[derive(Debug)]
pub enum WrittenType {
    /// A hole for a type of this skeleton.
    Hole(Skeleton, Place),
    Arrow(Box<WrittenType>, Box<WrittenType>),
    Quantified(WrittenDomain, Box<WrittenType>),
    Family(ConstId, Place),
    Applied(Box<WrittenType>, Box<Written>),
    Ascribed(Box<WrittenType>, Box<WrittenKind>),
}

/// A written kind.
#[cycle(written)]
#[derive(Debug)]
pub enum WrittenKind {
    Star,
    Arrow(Box<WrittenType>, Box<WrittenKind>),
    Quantified(WrittenDomain, Box<WrittenKind>),
}

/// What a declaration is written with.
#[derive(Drop, Debug)]
pub enum WrittenBody {
    /// A family's kind.
    Family(WrittenKind),
    /// A constant's type.
    Constant(WrittenType),
    /// A definition's term without its type, and whether it is an abbreviation.
    Definition(Written, bool),
    /// A definition's term with its type, and whether it is an abbreviation.
    DefinitionOf(Written, WrittenType, bool),
}

impl Written {
    // A term right inside a term, if any, and what else is in it.
    pub(crate) fn parts(self) -> (Option<Box<Written>>, Piece)
        ensures { term_waits result.0 + 2 * piece_weight result.1 < term_weight (written_of self) }
    {
        match self {
            Written::Free(_, _)
            | Written::Bound(_)
            | Written::Declared(_, _)
            | Written::Hole(_, _) => (None, Piece::Nothing),
            Written::Function(domain, body) => (Some(body), domain.piece()),
            Written::Applied(function, argument) => {
                (Some(function), Piece::Term(Box::into_inner(argument)))
            }
            Written::Ascribed(term, family) => {
                (Some(term), Piece::Type(Box::into_inner(family)))
            }
        }
    }

    // The term right inside a term, and the rest of this, which holds what waits in its place.
    pub(crate) fn behind(self, rest: Box<Written>) -> (Piece, Box<Written>)
        ensures { 2 * piece_weight result.0 + term_weight (written_of result.1.value) < 2 * term_weight (written_of self) + term_weight (written_of rest.value) }
    {
        match self {
            Written::Free(_, _)
            | Written::Bound(_)
            | Written::Declared(_, _)
            | Written::Hole(_, _) => (Piece::Nothing, rest),
            Written::Function(domain, mut body) => {
                let inside = mem::replace(&mut *body, Written::Function(domain, rest));
                (Piece::Term(inside), body)
            }
            Written::Applied(mut function, argument) => {
                let inside = mem::replace(&mut *function, Written::Applied(rest, argument));
                (Piece::Term(inside), function)
            }
            Written::Ascribed(mut term, family) => {
                let inside = mem::replace(&mut *term, Written::Ascribed(rest, family));
                (Piece::Term(inside), term)
            }
        }
    }
}

impl WrittenDomain {
    fn piece(self) -> Piece
        ensures { piece_weight result ≡ domain_weight (written_domain_of self) }
    {
        match self {
            WrittenDomain::OfSkeleton(_, _) => Piece::Nothing,
            WrittenDomain::OfType(family) => Piece::Type(Box::into_inner(family)),
        }
    }
}

impl WrittenType {
    // A type right inside a type, if any, and what else is in it.
    pub(crate) fn parts(self) -> (Option<Box<WrittenType>>, Piece)
        ensures { type_waits result.0 + 2 * piece_weight result.1 < type_weight (written_type_of self) }
    {
        match self {
            WrittenType::Hole(_, _) | WrittenType::Family(_, _) => (None, Piece::Nothing),
            WrittenType::Arrow(domain, range) => {
                (Some(range), Piece::Type(Box::into_inner(domain)))
            }
            WrittenType::Quantified(domain, range) => (Some(range), domain.piece()),
            WrittenType::Applied(family, argument) => {
                (Some(family), Piece::Term(Box::into_inner(argument)))
            }
            WrittenType::Ascribed(family, kind) => {
                (Some(family), Piece::Kind(Box::into_inner(kind)))
            }
        }
    }

    // The type right inside a type, and the rest of this, which holds what waits in its place.
    pub(crate) fn behind(self, rest: Box<WrittenType>) -> (Piece, Box<WrittenType>)
        ensures { 2 * piece_weight result.0 + type_weight (written_type_of result.1.value) < 2 * type_weight (written_type_of self) + type_weight (written_type_of rest.value) }
    {
        match self {
            WrittenType::Hole(_, _) | WrittenType::Family(_, _) => (Piece::Nothing, rest),
            WrittenType::Arrow(domain, mut range) => {
                let inside = mem::replace(&mut *range, WrittenType::Arrow(domain, rest));
                (Piece::Type(inside), range)
            }
            WrittenType::Quantified(domain, mut range) => {
                let inside = mem::replace(&mut *range, WrittenType::Quantified(domain, rest));
                (Piece::Type(inside), range)
            }
            WrittenType::Applied(mut family, argument) => {
                let inside = mem::replace(&mut *family, WrittenType::Applied(rest, argument));
                (Piece::Type(inside), family)
            }
            WrittenType::Ascribed(mut family, kind) => {
                let inside = mem::replace(&mut *family, WrittenType::Ascribed(rest, kind));
                (Piece::Type(inside), family)
            }
        }
    }
}

impl WrittenKind {
    // The kind right inside a kind, if any, and what else is in it.
    pub(crate) fn parts(self) -> (Option<Box<WrittenKind>>, Piece)
        ensures { kind_waits result.0 + 2 * piece_weight result.1 < kind_weight (written_kind_of self) }
    {
        match self {
            WrittenKind::Star => (None, Piece::Nothing),
            WrittenKind::Arrow(domain, range) => {
                (Some(range), Piece::Type(Box::into_inner(domain)))
            }
            WrittenKind::Quantified(domain, range) => (Some(range), domain.piece()),
        }
    }

    // The kind right inside a kind, and the rest of this, which holds what waits in its place.
    pub(crate) fn behind(self, rest: Box<WrittenKind>) -> (Piece, Box<WrittenKind>)
        ensures { 2 * piece_weight result.0 + kind_weight (written_kind_of result.1.value) < 2 * kind_weight (written_kind_of self) + kind_weight (written_kind_of rest.value) }
    {
        match self {
            WrittenKind::Star => (Piece::Nothing, rest),
            WrittenKind::Arrow(domain, mut range) => {
                let inside = mem::replace(&mut *range, WrittenKind::Arrow(domain, rest));
                (Piece::Kind(inside), range)
            }
            WrittenKind::Quantified(domain, mut range) => {
                let inside = mem::replace(&mut *range, WrittenKind::Quantified(domain, rest));
                (Piece::Kind(inside), range)
            }
        }
    }
}

impl Drop for Written {
    fn drop(self) {
        let_go(Piece::Term(self));
    }
}

impl Drop for WrittenType {
    fn drop(self) {
        let_go(Piece::Type(self));
    }
}

impl Drop for WrittenKind {
    fn drop(self) {
        let_go(Piece::Kind(self));
    }
}
