//! The bytes of a text as tokens.
#![tactic(auto)]

mod character;
mod class;
mod comment;
mod cut;
mod laws;
mod lexer;
mod place;
mod token;

pub use class::{Class, class_of, is_white_space};
pub use cut::{Cut, cut_piece, is_done};
pub use laws::{
    characters_are_utf8, cut_is_the_dot, done_stays, fault_excludes_tokens, fault_is_unique,
    pieces_are_the_whole, text_is_read, tokens_are_unique, too_many_excludes_fault,
    too_many_excludes_tokens, too_many_is_unique,
};
pub use lexer::{LexFault, lex, next_token};
pub use place::Place;
pub use token::{Token, TokenKind, Tokens};
