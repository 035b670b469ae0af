//! Substitution and expansion, with their limits of depth.
use crate::cases::{forms, said};
use crate::typed::{Around, apply_typed, put_in_newest, put_in_term, put_in_type};
use std::alloc::{AllocError, Global};
use tests_forms::{
    Case, Form, FormFault, Names, read_closed_spine, read_closed_term, read_closed_type,
    read_skeleton, show_closed_term, show_closed_type,
};
use tw_hered::{HeredFault, eta};
use tw_signature::{Body, Signature};
use tw_terms::{ConstId, Head, Kind, OpenHead, Skeleton, Spine, Term, Ty, skeleton};

/// An expansion that is deeper isn't shown; its depth is said.
const SHOWN_DEPTH: u32 = 64;

// the skeletons of families and constants, by number
fn head_skeletons(alloc: Global, signature: &Signature) -> Result<Vec<Skeleton>, FormFault> {
    let mut skeletons = Vec::new(alloc);
    for number in 0..signature.len() {
        let id = ConstId(number);
        let entry = signature.entry(id).ok_or(FormFault::NoMeaning)?;
        skeletons.push(match &entry.body {
            Body::Family(kind) => family_skeleton(alloc, kind, id)?,
            Body::Constant(ty) => skeleton(alloc, ty)?,
            Body::Defined { ty, .. } => skeleton(alloc, ty)?,
        })?;
    }
    Ok(skeletons)
}

fn family_skeleton(alloc: Global, kind: &Kind, family: ConstId) -> Result<Skeleton, AllocError> {
    match kind {
        Kind::Star => Ok(Skeleton::Base(family)),
        Kind::Pi(domain, range) => arrow(
            alloc,
            skeleton(alloc, domain)?,
            family_skeleton(alloc, range, family)?,
        ),
    }
}

fn arrow(alloc: Global, domain: Skeleton, range: Skeleton) -> Result<Skeleton, AllocError> {
    Ok(Skeleton::Arrow(Box::new(alloc, domain)?, Box::new(alloc, range)?))
}

// the skeletons of variables, of which names and skeletons stand in turn, the outermost first; they come into scope, and their skeletons are given the newest first
fn variables(
    alloc: Global,
    names: &mut Names,
    case: &Case,
    word: &str,
) -> Result<Vec<Skeleton>, FormFault> {
    let mut skeletons = Vec::new(alloc);
    for pair in forms(alloc, case, word)?.chunks(2) {
        match pair {
            [Form::Word(name), form] => {
                skeletons.push(read_skeleton(alloc, names, form)?)?;
                names.push_variable(alloc, name.as_str())?;
            }
            _ => return Err(FormFault::NoMeaning),
        }
    }
    skeletons.reverse();
    Ok(skeletons)
}

// what stands around the substitutions of a case, and what is put in
#[derive(Drop)]
struct Setting {
    heads: Vec<Skeleton>,
    outer: Vec<Skeleton>,
    skeleton: Skeleton,
    arg: Term,
    bound: Vec<Skeleton>,
}

// The words are `outer`, the variables outside; `put`, the term that is put in; `for`, the variable that it is put in for; `under`, the variables that are bound above that one.
// The scope is that of the body then.
fn read_setting(
    alloc: Global,
    signature: &Signature,
    names: &mut Names,
    case: &Case,
) -> Result<Setting, FormFault> {
    let heads = head_skeletons(alloc, signature)?;
    let outer = variables(alloc, names, case, "outer")?;
    let arg = read_closed_term(alloc, names, &case.form(alloc, "put")?)?;
    let mut newest = variables(alloc, names, case, "for")?;
    let skeleton = newest.pop().ok_or(FormFault::NoMeaning)?;
    if !newest.is_empty() {
        return Err(FormFault::NoMeaning);
    }
    let bound = variables(alloc, names, case, "under")?;
    Ok(Setting {
        heads,
        outer,
        skeleton,
        arg,
        bound,
    })
}

// the scope of what comes out
fn leave_body(alloc: Global, names: &mut Names, case: &Case) -> Result<(), FormFault> {
    names.forget_all_but_constants(alloc);
    variables(alloc, names, case, "outer")?;
    variables(alloc, names, case, "under")?;
    Ok(())
}

fn all<'a>(alloc: Global, skeletons: &'a [Skeleton]) -> Result<Vec<&'a Skeleton>, AllocError> {
    skeletons.iter().collect(alloc)
}

/// A term put in for a variable in the term `in`, of the skeleton `as`.
pub fn term(
    alloc: Global,
    signature: &Signature,
    names: &mut Names,
    case: &Case,
) -> Result<String, FormFault> {
    case.has_only(&["outer", "put", "for", "under", "in", "as"])?;
    let setting = read_setting(alloc, signature, names, case)?;
    let body = read_closed_term(alloc, names, &case.form(alloc, "in")?)?;
    let made = read_skeleton(alloc, names, &case.form(alloc, "as")?)?;
    let found = found_term(alloc, &setting, &body, &made);
    leave_body(alloc, names, case)?;
    shown_term(alloc, names, found)
}

fn found_term(
    alloc: Global,
    setting: &Setting,
    body: &Term,
    made: &Skeleton,
) -> Result<Option<Term>, HeredFault> {
    let heads = all(alloc, &setting.heads)?;
    let outer = all(alloc, &setting.outer)?;
    let bound = all(alloc, &setting.bound)?;
    let around = Around {
        heads: &heads,
        outer: &outer,
        bound: &bound,
    };
    put_in_term(alloc, around, body, made, &setting.arg, &setting.skeleton)
}

/// The same in the type `in`, which is instantiated or substituted in.
pub fn ty(
    alloc: Global,
    signature: &Signature,
    names: &mut Names,
    case: &Case,
    is_instantiated: bool,
) -> Result<String, FormFault> {
    case.has_only(&["outer", "put", "for", "under", "in"])?;
    let setting = read_setting(alloc, signature, names, case)?;
    let body = read_closed_type(alloc, names, &case.form(alloc, "in")?)?;
    let found = found_type(alloc, &setting, &body, is_instantiated);
    leave_body(alloc, names, case)?;
    shown_type(alloc, names, found)
}

fn found_type(
    alloc: Global,
    setting: &Setting,
    body: &Ty,
    is_instantiated: bool,
) -> Result<Option<Ty>, HeredFault> {
    let heads = all(alloc, &setting.heads)?;
    let outer = all(alloc, &setting.outer)?;
    let bound = all(alloc, &setting.bound)?;
    let around = Around {
        heads: &heads,
        outer: &outer,
        bound: &bound,
    };
    if is_instantiated {
        put_in_newest(alloc, around, body, &setting.arg, &setting.skeleton)
    } else {
        put_in_type(alloc, around, body, &setting.arg, &setting.skeleton)
    }
}

/// The term `function`, of the skeleton `as`, on the arguments `to`, which give a term of the family `family`.
pub fn apply(
    alloc: Global,
    signature: &Signature,
    names: &mut Names,
    case: &Case,
) -> Result<String, FormFault> {
    case.has_only(&["outer", "function", "as", "to", "family"])?;
    let heads = head_skeletons(alloc, signature)?;
    let outer = variables(alloc, names, case, "outer")?;
    applied(alloc, names, case, &heads, &outer)
}

fn applied(
    alloc: Global,
    names: &mut Names,
    case: &Case,
    heads: &[Skeleton],
    outer: &[Skeleton],
) -> Result<String, FormFault> {
    let function = read_closed_term(alloc, names, &case.form(alloc, "function")?)?;
    let taken = read_skeleton(alloc, names, &case.form(alloc, "as")?)?;
    let args = read_closed_spine(alloc, names, &forms(alloc, case, "to")?)?;
    let family = names.constant(case.text("family")?)?;
    let found = found_on(alloc, heads, outer, &function, &args, &taken, family);
    shown_term(alloc, names, found)
}

fn found_on<'a>(
    alloc: Global,
    heads: &'a [Skeleton],
    outer: &'a [Skeleton],
    function: &Term,
    args: &Spine,
    taken: &'a Skeleton,
    family: ConstId,
) -> Result<Option<Term>, HeredFault> {
    let all_heads = all(alloc, heads)?;
    let all_outer = all(alloc, outer)?;
    let around = Around {
        heads: &all_heads,
        outer: &all_outer,
        bound: &[],
    };
    apply_typed(alloc, around, function, args, taken, family)
}

/// The expansion of the head `head` at the skeleton `as`.
pub fn expand(alloc: Global, names: &mut Names, case: &Case) -> Result<String, FormFault> {
    case.has_only(&["outer", "head", "as"])?;
    variables(alloc, names, case, "outer")?;
    let head = match names.head(case.text("head")?)? {
        OpenHead::Const(id) => Head::Const(id),
        OpenHead::Var(variable) => Head::Var(variable),
        OpenHead::Meta(_) => return Err(FormFault::NoMeaning),
    };
    let skeleton = read_skeleton(alloc, names, &case.form(alloc, "as")?)?;
    match eta(alloc, head, &skeleton) {
        Ok(term) if term.depth() > SHOWN_DEPTH => Ok(format!(in alloc; "depth {}", term.depth())?),
        found => shown_term(alloc, names, found.map(|term| Some(term))),
    }
}

fn shown_term(
    alloc: Global,
    names: &mut Names,
    found: Result<Option<Term>, HeredFault>,
) -> Result<String, FormFault> {
    let term = match found {
        Ok(Some(term)) => term,
        Ok(None) => return said(alloc, "can't be asked"),
        Err(HeredFault::TooDeep) => return said(alloc, "too deep"),
        Err(HeredFault::NoMemory) => return Err(FormFault::NoMemory),
    };
    let mut line = String::new(alloc);
    show_closed_term(alloc, &mut line, names, &term)?;
    Ok(line)
}

fn shown_type(
    alloc: Global,
    names: &mut Names,
    found: Result<Option<Ty>, HeredFault>,
) -> Result<String, FormFault> {
    let ty = match found {
        Ok(Some(ty)) => ty,
        Ok(None) => return said(alloc, "can't be asked"),
        Err(HeredFault::TooDeep) => return said(alloc, "too deep"),
        Err(HeredFault::NoMemory) => return Err(FormFault::NoMemory),
    };
    let mut line = String::new(alloc);
    show_closed_type(alloc, &mut line, names, &ty)?;
    Ok(line)
}
