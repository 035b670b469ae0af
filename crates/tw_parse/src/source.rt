//! The tokens of a text with what is needed to read them.
ghost use Rattle.std.specs.Prelude.{length, All};
ghost use Rattle.tw_lexer.specs.Tokens.{IsWithin};

use tw_fixity::FixTable;
use tw_lexer::{Place, Token};

/// The tokens of a text, the place behind them, and the operators.
#[derive(Drop)]
pub struct Source<'a> {
    pub text: &'a [u8],
    pub tokens: &'a [Token],
    pub end: Place,
    pub fixities: &'a FixTable,
    ghost within: { All (IsWithin (length text.now)) tokens.now },
}
