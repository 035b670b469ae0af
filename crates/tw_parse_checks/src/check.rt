//! Declarations of checks, as they are written.
use tw_parse::{ExtDecl, ExtName};

/// A mark as it is written.
#[derive(Clone, Copy, Debug, PartialEq, Eq)]
pub enum ExtMark {
    /// `+`
    Input,
    /// `-`
    Output,
    /// `*`
    Free,
}

/// A call pattern, as `(a X _)`: the family, and a name for each explicit argument, which is `_` where it has none.
#[derive(Debug, Drop)]
pub struct ExtPattern {
    pub family: ExtName,
    pub names: Vec<ExtName>,
}

/// A termination order as it is written.
#[derive(Debug, Drop)]
pub enum ExtOrder {
    /// `X` or `(X Y ..)`: a variable for each call pattern.
    Each(Vec<ExtName>),
    /// `{O ..}`
    Lex(Vec<ExtOrder>),
    /// `[O ..]`
    Simul(Vec<ExtOrder>),
}

/// What a keyword declares.
#[derive(Clone, Copy, Debug, PartialEq, Eq)]
pub enum CheckForm {
    Mode,
    Block,
    Worlds,
    Terminates,
}

/// A declaration of a check.
#[derive(Debug, Drop)]
pub enum ExtCheck {
    /// `%mode a m1 .. mn.`: the family, and the marks of its explicit arguments.
    ModeShort(ExtName, Vec<ExtMark>),
    /// `%mode m{X:U} .. (a Y ..).`: the marks of the quantified variables, the family, how many names stand behind it, and the constant `a : {X:U} .. a Y ..` by whose type the form is reconstructed.
    ModeFull(Vec<ExtMark>, ExtName, usize, ExtDecl),
    /// `%block l : some {X:A} .. block {Y:B} ...`: the label, how many binders stand behind `some`, and the family `l : {X:A} .. {Y:B} .. type` by whose kind the block is reconstructed.
    Block(ExtName, usize, ExtDecl),
    /// `%worlds (l1 | .. | ln) (a X ..) ...`: the labels, and the call patterns.
    Worlds(Vec<ExtName>, Vec<ExtPattern>),
    /// `%terminates O (a X ..) ...`: the order, and the call patterns.
    Terminates(ExtOrder, Vec<ExtPattern>),
}
