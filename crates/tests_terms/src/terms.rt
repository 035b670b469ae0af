//! Copies, equality and depth of terms, types, kinds and skeletons; contexts; types moved over variables.
use crate::cases::forms;
use std::alloc::{AllocError, Global};
use tests_forms::{
    Case, Field, FormFault, Names, number_of, read_closed_context, read_closed_spine,
    read_closed_term, read_closed_type, read_context, read_forms, read_kind, read_skeleton,
    read_spine, read_term, read_type, show_closed_type, show_skeleton, show_type,
};
use tw_terms::{
    Context, Kind, Open, OpenContext, OpenSpine, OpenTy, Skeleton, Spine, Term, Ty, weaken,
};

// what is copied and compared
#[derive(Drop)]
enum Value {
    Term(Term),
    Spine(Spine),
    Type(Ty),
    Kind(Kind),
    Skeleton(Skeleton),
    OpenTerm(Open),
    OpenSpine(OpenSpine),
    OpenType(OpenTy),
}

// the value that a word of a case says
fn read_value(alloc: Global, names: &mut Names, field: &Field) -> Result<Value, FormFault> {
    let forms = read_forms(alloc, field.text.as_str())?;
    match (field.word.as_str(), forms.as_slice()) {
        ("spine", forms) => Ok(Value::Spine(read_closed_spine(alloc, names, forms)?)),
        ("open-spine", forms) => Ok(Value::OpenSpine(read_spine(alloc, names, forms)?)),
        ("term", [form]) => Ok(Value::Term(read_closed_term(alloc, names, form)?)),
        ("type", [form]) => Ok(Value::Type(read_closed_type(alloc, names, form)?)),
        ("kind", [form]) => Ok(Value::Kind(read_kind(alloc, names, form)?)),
        ("skeleton", [form]) => Ok(Value::Skeleton(read_skeleton(alloc, names, form)?)),
        ("open-term", [form]) => Ok(Value::OpenTerm(read_term(alloc, names, form)?)),
        ("open-type", [form]) => Ok(Value::OpenType(read_type(alloc, names, form)?)),
        _ => Err(FormFault::NoMeaning),
    }
}

impl Value {
    fn copy(&self, alloc: Global) -> Result<Value, AllocError> {
        match self {
            Value::Term(term) => Ok(Value::Term(term.copy(alloc)?)),
            Value::Spine(spine) => Ok(Value::Spine(spine.copy(alloc)?)),
            Value::Type(ty) => Ok(Value::Type(ty.copy(alloc)?)),
            Value::Kind(kind) => Ok(Value::Kind(kind.copy(alloc)?)),
            Value::Skeleton(skeleton) => Ok(Value::Skeleton(skeleton.copy(alloc)?)),
            Value::OpenTerm(term) => Ok(Value::OpenTerm(term.copy(alloc)?)),
            Value::OpenSpine(spine) => Ok(Value::OpenSpine(spine.copy(alloc)?)),
            Value::OpenType(ty) => Ok(Value::OpenType(ty.copy(alloc)?)),
        }
    }

    fn same(&self, other: &Value) -> Result<bool, FormFault> {
        match (self, other) {
            (Value::Term(left), Value::Term(right)) => Ok(left.same(right)),
            (Value::Spine(left), Value::Spine(right)) => Ok(left.same(right)),
            (Value::Type(left), Value::Type(right)) => Ok(left.same(right)),
            (Value::Kind(left), Value::Kind(right)) => Ok(left.same(right)),
            (Value::Skeleton(left), Value::Skeleton(right)) => Ok(left.same(right)),
            (Value::OpenTerm(left), Value::OpenTerm(right)) => Ok(left.same(right)),
            (Value::OpenSpine(left), Value::OpenSpine(right)) => Ok(left.same(right)),
            (Value::OpenType(left), Value::OpenType(right)) => Ok(left.same(right)),
            _ => Err(FormFault::NoMeaning),
        }
    }

    fn depth(&self) -> Option<u32> {
        match self {
            Value::Term(term) => Some(term.depth()),
            Value::Spine(spine) => Some(spine.depth()),
            Value::Type(ty) => Some(ty.depth()),
            Value::Kind(kind) => Some(kind.depth()),
            Value::Skeleton(_) => None,
            Value::OpenTerm(term) => Some(term.depth()),
            Value::OpenSpine(spine) => Some(spine.depth()),
            Value::OpenType(ty) => Some(ty.depth()),
        }
    }
}

fn sameness(same: bool) -> &'static str {
    if same { "the same" } else { "different" }
}

/// The depth of a value, if it has one, and whether a copy is the same.
pub fn copy(alloc: Global, names: &mut Names, case: &Case) -> Result<String, FormFault> {
    let [field] = case.fields.as_slice() else {
        return Err(FormFault::NoMeaning);
    };
    let value = read_value(alloc, names, field)?;
    shown_copy(alloc, &value)
}

fn shown_copy(alloc: Global, value: &Value) -> Result<String, FormFault> {
    let same = is_copied(alloc, value)?;
    let mut line = String::new(alloc);
    if let Some(depth) = value.depth() {
        write!(line, "depth {depth}, ")?;
    }
    line.push_str("a copy is ")?;
    line.push_str(sameness(same))?;
    Ok(line)
}

fn is_copied(alloc: Global, value: &Value) -> Result<bool, FormFault> {
    let copy = value.copy(alloc)?;
    copy.same(value)
}

/// Whether two values are the same, and whether the second is the same as the first.
pub fn compare(alloc: Global, names: &mut Names, case: &Case) -> Result<String, FormFault> {
    let [left, right] = case.fields.as_slice() else {
        return Err(FormFault::NoMeaning);
    };
    let left = read_value(alloc, names, left)?;
    let right = read_value(alloc, names, right)?;
    compared(alloc, &left, &right)
}

fn compared(alloc: Global, left: &Value, right: &Value) -> Result<String, FormFault> {
    let forth = sameness(left.same(right)?);
    let back = sameness(right.same(left)?);
    Ok(format!(in alloc; "{forth}, {back}")?)
}

/// The skeleton of a type, where that isn't deep, and whether a copy is the same.
pub fn skeleton(alloc: Global, names: &mut Names, case: &Case) -> Result<String, FormFault> {
    case.has_only(&["type"])?;
    let ty = read_closed_type(alloc, names, &case.form(alloc, "type")?)?;
    let skeleton = tw_terms::skeleton(alloc, &ty)?;
    let mut line = String::new(alloc);
    if ty.depth() < 20 {
        show_skeleton(&mut line, names, &skeleton)?;
        line.push_str("; ")?;
    }
    line.push_str("a copy is ")?;
    line.push_str(sameness(skeleton.copy(alloc)?.same(&skeleton)))?;
    Ok(line)
}

/// The copy of a context: how long it is, the types of its variables from the innermost on, up to one that it doesn't have; and the type that is taken away from the context, and
/// how long it is then. Variables of types are shown by their numbers.
pub fn context(alloc: Global, names: &mut Names, case: &Case) -> Result<String, FormFault> {
    case.has_only(&["variables"])?;
    let variables = forms(alloc, case, "variables")?;
    let mut context = read_closed_context(alloc, names, &variables)?;
    names.forget_all_but_constants(alloc);
    let mut line = String::new(alloc);
    show_types(alloc, &mut line, names, &context.copy(alloc)?)?;
    let popped = context.pop();
    show_type_or_none(alloc, &mut line, names, popped.as_ref())?;
    write!(line, "; {}", context.len())?;
    Ok(line)
}

fn show_types(
    alloc: Global,
    line: &mut String,
    names: &mut Names,
    context: &Context,
) -> Result<(), AllocError> {
    write!(line, "{}", context.len())?;
    for variable in 0..(context.len() as u64).saturating_add(1) {
        show_type_or_none(alloc, line, names, context.get(variable))?;
    }
    Ok(())
}

fn show_type_or_none(
    alloc: Global,
    line: &mut String,
    names: &mut Names,
    ty: Option<&Ty>,
) -> Result<(), AllocError> {
    line.push_str("; ")?;
    match ty {
        Some(ty) => show_closed_type(alloc, line, names, ty),
        None => line.push_str("none"),
    }
}

/// The same of a context that may have metavariables.
pub fn open_context(alloc: Global, names: &mut Names, case: &Case) -> Result<String, FormFault> {
    case.has_only(&["variables"])?;
    let variables = forms(alloc, case, "variables")?;
    let mut context = read_context(alloc, names, &variables)?;
    names.forget_all_but_constants(alloc);
    let mut line = String::new(alloc);
    show_open_types(alloc, &mut line, names, &context.copy(alloc)?)?;
    show_open_or_none(alloc, &mut line, names, context.get(0))?;
    context.pop();
    write!(line, "; {}", context.len())?;
    Ok(line)
}

fn show_open_types(
    alloc: Global,
    line: &mut String,
    names: &mut Names,
    context: &OpenContext,
) -> Result<(), AllocError> {
    write!(line, "{}", context.len())?;
    for variable in 0..(context.len() as u64).saturating_add(1) {
        show_open_or_none(alloc, line, names, context.get(variable))?;
    }
    Ok(())
}

fn show_open_or_none(
    alloc: Global,
    line: &mut String,
    names: &mut Names,
    ty: Option<&OpenTy>,
) -> Result<(), AllocError> {
    line.push_str("; ")?;
    match ty {
        Some(ty) => show_type(alloc, line, names, ty),
        None => line.push_str("none"),
    }
}

/// A type moved over so many variables.
pub fn moved(alloc: Global, names: &mut Names, case: &Case) -> Result<String, FormFault> {
    case.has_only(&["type", "by"])?;
    let ty = read_closed_type(alloc, names, &case.form(alloc, "type")?)?;
    let moved = weaken(alloc, &ty, number_of(case.text("by")?)?)?;
    let mut line = String::new(alloc);
    show_closed_type(alloc, &mut line, names, &moved)?;
    Ok(line)
}
