//! What a program's text is made of: the kinds of tokens, how each is spelled, and the laws of that (C 1990, 6.1; Cilk
//! 5.4 manual, keywords).
#![tactic(auto)]

mod fault;
mod header;
mod keyword;
mod mark;
mod token;

pub use fault::LexFault;
pub use header::Header;
pub use keyword::Keyword;
pub use mark::Mark;
pub use token::{Token, TokenKind};
