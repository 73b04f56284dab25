//! The tokens of a program's text, with their places (C 1990, 6.1; Cilk 5.4 manual, keywords).
#![tactic(auto)]

mod bytes;
mod found;
mod front;
mod inclusion;
pub mod laws;
mod line_column;
mod literal;
mod reading;
mod spelling;

pub use cilk_lex_tokens::{Header, Keyword, LexFault, Mark, Token, TokenKind};
pub use line_column::line_col;
pub use reading::{TEXT_LIMIT, tokens};
