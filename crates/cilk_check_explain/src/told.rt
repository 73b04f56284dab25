//! The faults that can be told to people, each with what its telling needs.

use cilk_check_scopes::{CheckFault, Program};
use cilk_lex::LexFault;

/// A fault in a text, and what is known of the text.
#[derive(Clone, Copy)]
pub enum Told<'a> {
    /// The text has no tokens.
    Lex(LexFault),
    /// P2: the place of a token with which no program goes on, or the length of the text.
    Unexpected(u32),
    /// P3: the place of what stands inside too much else.
    TooDeep(u32),
    /// The program that the text spells breaks a rule.
    Check(CheckFault, &'a Program),
}
