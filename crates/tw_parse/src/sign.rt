//! Signs: what joins the parts of a sequence.
ghost use Rattle.std.specs.Prelude.{◌≡◌};
ghost use Rattle.tw_parse.specs.Signs.{is_from, fits, level_of, left_of, right_of};

use crate::words::Separator;
use tw_fixity::{Assoc, Fix, Name};
use tw_lexer::Place;

/// A separator, or an operator with its row.
#[derive(Debug, Drop)]
pub enum Sign {
    Separator(Separator),
    Operator(Name, Place, Fix),
}

/// The level of a term's outermost form.
#[derive(Clone, Copy, Debug, PartialEq, Eq)]
pub enum Level {
    Ascription,
    Backward,
    Forward,
    /// An operator, with its precedence.
    Operator(u16),
    Application,
}

/// What stands on one side of a sign: nothing, a level above the sign's own, or its own level or one above.
#[derive(Clone, Copy, Debug, PartialEq, Eq)]
pub enum Side {
    Absent,
    Above,
    From,
}

// Whether the level is this one or above it. The two arrows are beside one another.
fn is_from(own: Level, level: Level) -> bool
    ensures { result ≡ is_from own level }
{
    match own {
        Level::Ascription => true,
        Level::Forward => matches!(
            level,
            Level::Forward | Level::Operator(_) | Level::Application
        ),
        Level::Backward => matches!(
            level,
            Level::Backward | Level::Operator(_) | Level::Application
        ),
        Level::Operator(least) => match level {
            Level::Operator(precedence) => least <= precedence,
            Level::Application => true,
            _ => false,
        },
        Level::Application => matches!(level, Level::Application),
    }
}

/// Whether a term of this level may stand on a side of a sign with its own level.
pub fn fits(side: Side, own: Level, level: Level) -> bool
    ensures { result ≡ fits side own level }
{
    match side {
        Side::Absent => false,
        Side::Above => is_from(own, level) && !is_from(level, own),
        Side::From => is_from(own, level),
    }
}

/// The level of what the sign makes.
pub fn level_of(sign: &Sign) -> Level
    ensures { result ≡ level_of sign.now }
{
    match sign {
        Sign::Separator(by) => match by {
            Separator::Forward => Level::Forward,
            Separator::Backward => Level::Backward,
            Separator::Colon => Level::Ascription,
        },
        Sign::Operator(_, _, fix) => match fix {
            Fix::Infix(_, precedence) => Level::Operator(*precedence),
            Fix::Prefix(precedence) => Level::Operator(*precedence),
            Fix::Postfix(precedence) => Level::Operator(*precedence),
        },
    }
}

/// What stands on its left.
pub fn left_of(sign: &Sign) -> Side
    ensures { result ≡ left_of sign.now }
{
    match sign {
        Sign::Separator(by) => match by {
            Separator::Forward => Side::Above,
            Separator::Backward | Separator::Colon => Side::From,
        },
        Sign::Operator(_, _, fix) => match fix {
            Fix::Infix(assoc, _) => match assoc {
                Assoc::Left => Side::From,
                Assoc::Neither | Assoc::Right => Side::Above,
            },
            Fix::Prefix(_) => Side::Absent,
            Fix::Postfix(_) => Side::From,
        },
    }
}

/// What stands on its right.
pub fn right_of(sign: &Sign) -> Side
    ensures { result ≡ right_of sign.now }
{
    match sign {
        Sign::Separator(by) => match by {
            Separator::Forward => Side::From,
            Separator::Backward | Separator::Colon => Side::Above,
        },
        Sign::Operator(_, _, fix) => match fix {
            Fix::Infix(assoc, _) => match assoc {
                Assoc::Right => Side::From,
                Assoc::Neither | Assoc::Left => Side::Above,
            },
            Fix::Prefix(_) => Side::From,
            Fix::Postfix(_) => Side::Absent,
        },
    }
}
