//! Canonical terms, types and kinds: no term is a lambda that is applied to something.

/// The number of a constant, which is its place in the signature.
#[derive(Clone, Copy, PartialEq, Eq, Debug)]
pub struct ConstId(pub u64);

/// The number of a metavariable, which is its place in the store.
#[derive(Clone, Copy, PartialEq, Eq, Debug)]
pub struct MetaId(pub u64);

/// What stands before the arguments of a root. A variable is counted from the innermost binder, which is 0.
#[derive(Clone, Copy, PartialEq, Eq, Debug)]
pub enum Head {
    Const(ConstId),
    Var(u64),
}

/// A canonical term. A lambda carries neither a type nor a name.
#[cycle(term)]
#[derive(Drop, Debug)]
pub enum Term {
    Lam(Box<Term>),
    Root(Head, Spine),
}

/// The arguments of a head, the first one first.
#[cycle(term)]
#[derive(Drop, Debug)]
pub struct Spine {
    pub args: Vec<Term>,
}

/// A canonical type: `Pi` is a domain and a range under one more variable, `Atom` a family and its arguments.
#[derive(Drop, Debug)]
pub enum Ty {
    Pi(Box<Ty>, Box<Ty>),
    Atom(ConstId, Spine),
}

/// A kind, as of a family: `Star` is the kind `type`.
#[derive(Drop, Debug)]
pub enum Kind {
    Pi(Box<Ty>, Box<Kind>),
    Star,
}

/// A type without its indices.
#[derive(Drop, Debug)]
pub enum Skeleton {
    Base(ConstId),
    Arrow(Box<Skeleton>, Box<Skeleton>),
}
