//! Lines of written declarations: F0 is the first free variable, B0 the newest variable in scope, `_:k` what isn't written, and @5 says that what stands before it has its place
//! in column 5.
use crate::line::Line;
use crate::skeletons::{put_entry, put_skeleton};
use tw_lexer::Place;
use tw_signature::Signature;
use tw_terms::{ConstId, Skeleton};
use tw_written::{Written, WrittenBody, WrittenDomain, WrittenKind, WrittenType};

fn put_column(line: &mut Line, at: &Place) {
    line.put("@");
    line.put_number(u64::from(at.column));
}

fn put_hole(line: &mut Line, signature: &Signature, skeleton: &Skeleton, at: &Place) {
    line.put("_:");
    put_skeleton(line, signature, skeleton);
    put_column(line, at)
}

fn put_placed(line: &mut Line, signature: &Signature, id: ConstId, at: &Place) {
    put_entry(line, signature, id);
    put_column(line, at)
}

/// The term.
#[cycle(push)]
pub(crate) fn put_term(line: &mut Line, signature: &Signature, term: &Written) {
    match term {
        Written::Free(variable, at) => {
            line.put("F");
            line.put_number(*variable);
            put_column(line, at);
        }
        Written::Bound(variable) => {
            line.put("B");
            line.put_number(*variable);
        }
        Written::Declared(id, at) => put_placed(line, signature, *id, at),
        Written::Hole(skeleton, at) => put_hole(line, signature, skeleton, at),
        Written::Function(domain, body) => {
            line.put("[");
            put_domain(line, signature, domain);
            line.put("]");
            put_term(line, signature, body);
        }
        Written::Applied(function, argument) => {
            line.put("(");
            put_term(line, signature, function);
            line.put(" ");
            put_term(line, signature, argument);
            line.put(")");
        }
        Written::Ascribed(inner, ty) => {
            line.put("(");
            put_term(line, signature, inner);
            line.put(":");
            put_type(line, signature, ty);
            line.put(")");
        }
    }
}

#[cycle(push)]
fn put_domain(line: &mut Line, signature: &Signature, domain: &WrittenDomain) {
    match domain {
        WrittenDomain::OfSkeleton(skeleton, at) => put_hole(line, signature, skeleton, at),
        WrittenDomain::OfType(ty) => put_type(line, signature, ty),
    }
}

/// The type.
#[cycle(push)]
pub(crate) fn put_type(line: &mut Line, signature: &Signature, ty: &WrittenType) {
    match ty {
        WrittenType::Hole(skeleton, at) => put_hole(line, signature, skeleton, at),
        WrittenType::Family(id, at) => put_placed(line, signature, *id, at),
        WrittenType::Arrow(domain, range) => {
            line.put("(");
            put_type(line, signature, domain);
            line.put(">");
            put_type(line, signature, range);
            line.put(")");
        }
        WrittenType::Quantified(domain, range) => {
            line.put("{");
            put_domain(line, signature, domain);
            line.put("}");
            put_type(line, signature, range);
        }
        WrittenType::Applied(family, argument) => {
            line.put("(");
            put_type(line, signature, family);
            line.put(" ");
            put_term(line, signature, argument);
            line.put(")");
        }
        WrittenType::Ascribed(inner, kind) => {
            line.put("(");
            put_type(line, signature, inner);
            line.put(":");
            put_kind(line, signature, kind);
            line.put(")");
        }
    }
}

/// The kind.
#[cycle(push)]
pub(crate) fn put_kind(line: &mut Line, signature: &Signature, kind: &WrittenKind) {
    match kind {
        WrittenKind::Star => line.put("*"),
        WrittenKind::Arrow(domain, range) => {
            line.put("(");
            put_type(line, signature, domain);
            line.put(">");
            put_kind(line, signature, range);
            line.put(")");
        }
        WrittenKind::Quantified(domain, range) => {
            line.put("{");
            put_domain(line, signature, domain);
            line.put("}");
            put_kind(line, signature, range);
        }
    }
}

fn put_abbreviated(line: &mut Line, abbreviated: bool) {
    line.put(if abbreviated { "true " } else { "false " });
}

/// The body; a definition comes behind whether it is an abbreviation.
pub(crate) fn put_body(line: &mut Line, signature: &Signature, body: &WrittenBody) {
    match body {
        WrittenBody::Family(kind) => put_kind(line, signature, kind),
        WrittenBody::Constant(ty) => put_type(line, signature, ty),
        WrittenBody::Definition(term, abbreviated) => {
            put_abbreviated(line, *abbreviated);
            put_term(line, signature, term)
        }
        WrittenBody::DefinitionOf(term, ty, abbreviated) => {
            put_abbreviated(line, *abbreviated);
            put_term(line, signature, term);
            line.put(":");
            put_type(line, signature, ty)
        }
    }
}
