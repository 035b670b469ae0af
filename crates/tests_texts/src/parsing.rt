//! What declarations and queries are read as.
use crate::line::Line;
use crate::reading::{told_decl, told_query};
use crate::world::World;
use std::alloc::{AllocError, Global};
use tests_forms::FormFault;
use tw_fixity::{Fix, Name};
use tw_lexer::Place;
use tw_parse::{ExtDecl, ExtName, ExtQuery, ExtTerm, SyntaxFault};

fn put_column(line: &mut Line, at: &Place) {
    line.put_number(u64::from(at.column));
}

// A name with its column, `_` with its column, `*`, `(A > B)`, `(M N)`, `(M : A)`, and binders with the column of their bracket.
fn show(line: &mut Line, term: &ExtTerm) {
    match term {
        ExtTerm::Ident(name, at) => put_placed(line, name, at),
        ExtTerm::Hole(at) => put_hole(line, at),
        ExtTerm::Star => line.put("*"),
        ExtTerm::Arrow(domain, range) => {
            line.put("(");
            show(line, domain);
            line.put(" > ");
            show(line, range);
            line.put(")");
        }
        ExtTerm::App(function, argument) => {
            line.put("(");
            show(line, function);
            line.put(" ");
            show(line, argument);
            line.put(")");
        }
        ExtTerm::Ascribe(term, ty) => {
            line.put("(");
            show(line, term);
            line.put(" : ");
            show(line, ty);
            line.put(")");
        }
        ExtTerm::Pi(name, at, domain, range) => {
            put_binder(line, "{", name, at);
            if let Some(domain) = domain {
                line.put(":");
                show(line, domain);
            }
            line.put("}");
            show(line, range);
        }
        ExtTerm::Lam(name, at, domain, body) => {
            put_binder(line, "[", name, at);
            if let Some(domain) = domain {
                line.put(":");
                show(line, domain);
            }
            line.put("]");
            show(line, body);
        }
    }
}

fn put_placed(line: &mut Line, name: &Name, at: &Place) {
    line.put_name(name);
    put_column(line, at);
}

fn put_hole(line: &mut Line, at: &Place) {
    line.put("_");
    put_column(line, at);
}

fn put_binder(line: &mut Line, bracket: &str, name: &Name, at: &Place) {
    line.put(bracket);
    put_column(line, at);
    line.put_name(name);
}

fn put_decl(line: &mut Line, decl: &ExtDecl) {
    match decl {
        ExtDecl::Declare(name, at, ty) => put_declared(line, name, at, ty),
        ExtDecl::Define(name, ty, term, abbreviated) => {
            put_defined(line, name, ty, term);
            if *abbreviated {
                line.put(" abbreviated");
            }
        }
        ExtDecl::NamePref(family, upper, lower) => put_preference(line, family, upper, lower),
        ExtDecl::Fixity(fix, names) => put_operators(line, fix, names),
    }
}

fn put_declared(line: &mut Line, name: &Name, at: &Place, ty: &ExtTerm) {
    put_placed(line, name, at);
    line.put(" : ");
    show(line, ty);
}

fn put_defined(line: &mut Line, name: &Option<Name>, ty: &Option<ExtTerm>, term: &ExtTerm) {
    line.put_name_or(name, "_");
    if let Some(ty) = ty {
        line.put(" : ");
        show(line, ty);
    }
    line.put(" = ");
    show(line, term);
}

fn put_preference(line: &mut Line, family: &ExtName, upper: &Name, lower: &Option<Name>) {
    line.put("prefer ");
    put_placed(line, &family.name, &family.at);
    line.put(" ");
    line.put_name(upper);
    if let Some(lower) = lower {
        line.put(" ");
        line.put_name(lower);
    }
}

fn put_operators(line: &mut Line, fix: &Fix, names: &[ExtName]) {
    put_row(line, fix);
    for name in names {
        line.put(" ");
        put_placed(line, &name.name, &name.at);
    }
}

fn put_row(line: &mut Line, fix: &Fix) {
    match fix {
        Fix::Infix(assoc, precedence) => {
            line.put("infix ");
            line.put_side(*assoc);
            line.put(" ");
            line.put_number(u64::from(*precedence));
        }
        Fix::Prefix(precedence) => {
            line.put("prefix ");
            line.put_number(u64::from(*precedence));
        }
        Fix::Postfix(precedence) => {
            line.put("postfix ");
            line.put_number(u64::from(*precedence));
        }
    }
}

fn put_fault(line: &mut Line, fault: &SyntaxFault) {
    match fault {
        SyntaxFault::Unsupported(name, at) => {
            line.put("unsupported ");
            line.put_name(name);
            line.put_place(*at);
        }
        SyntaxFault::Nesting(at) => put_fault_at(line, "nesting", *at),
        SyntaxFault::Syntax(at) => put_fault_at(line, "syntax", *at),
        SyntaxFault::Fixity(at) => put_fault_at(line, "fixity", *at),
        SyntaxFault::BadDecl(at) => put_fault_at(line, "bad", *at),
        SyntaxFault::NoMemory => line.put("no memory"),
    }
}

fn put_fault_at(line: &mut Line, fault: &str, at: Place) {
    line.put(fault);
    line.put_place(at);
}

/// What the declaration is read as.
pub(crate) fn decl(alloc: Global, world: &World, text: &str) -> Result<String, FormFault> {
    let read = told_decl(alloc, &world.fixities, text)?;
    Ok(decl_line(alloc, &read)?)
}

fn decl_line(alloc: Global, read: &Result<ExtDecl, SyntaxFault>) -> Result<String, AllocError> {
    let mut line = Line::new(alloc);
    match read {
        Ok(decl) => put_decl(&mut line, decl),
        Err(fault) => put_fault(&mut line, fault),
    }
    line.whole()
}

/// Whether the declaration is read.
pub(crate) fn is_read(alloc: Global, world: &World, text: &str) -> Result<String, FormFault> {
    let read = told_decl(alloc, &world.fixities, text)?;
    Ok(read_line(alloc, &read)?)
}

fn read_line(alloc: Global, read: &Result<ExtDecl, SyntaxFault>) -> Result<String, AllocError> {
    let mut line = Line::new(alloc);
    match read {
        Ok(_) => line.put("read"),
        Err(fault) => put_fault(&mut line, fault),
    }
    line.whole()
}

/// What the query is read as: the goal, with `X := ` in front where its proof has a name.
pub(crate) fn query(alloc: Global, world: &World, text: &str) -> Result<String, FormFault> {
    let read = told_query(alloc, &world.fixities, text)?;
    Ok(query_line(alloc, &read)?)
}

fn query_line(alloc: Global, read: &Result<ExtQuery, SyntaxFault>) -> Result<String, AllocError> {
    let mut line = Line::new(alloc);
    match read {
        Ok(query) => put_query(&mut line, query),
        Err(fault) => put_fault(&mut line, fault),
    }
    line.whole()
}

fn put_query(line: &mut Line, query: &ExtQuery) {
    if let Some(name) = &query.proof {
        line.put_name(name);
        line.put(" := ");
    }
    show(line, &query.goal);
}
