//! A program read from its text: the tokens, then the grammar, and the faults of both with their places.

ghost use Rattle.std.specs.Prelude.{◌≡◌, ◌≢◌, ◌<◌, ◌≤◌, ◌⊎◌, ◌↔◌, true, length, All, IfOk, IfErr, MatchResult};
ghost use Rattle.cilk_lex.specs.lexeme.declared.fault.LexFault.{LexFault};
ghost use Rattle.cilk_lex.specs.lexeme.Lexeme.{pieces_of, place_of as lex_place};
ghost use Rattle.cilk_lex.specs.lexeme.Lexing.{Lexes, text_limit};
ghost use Rattle.cilk_lex.specs.Reading.{IsWithin};
ghost use Rattle.cilk_parse_grammar.specs.syntax.Tree as tree;
ghost use Rattle.cilk_parse_grammar.specs.ReadsAs.{Fails};
ghost use Rattle.cilk_parse_grammar.specs.Expressions.{operator_limit, parenthesis_limit};
ghost use Rattle.cilk_parse_grammar.specs.Fault.{place_left};
ghost use Rattle.cilk_parse_grammar.specs.Spelling.{nesting_limit, program_of};
ghost use Rattle.cilk_parse.specs.FaultPlace.{place_of};
ghost use Rattle.cilk_parse.specs.Text.{Spells, ReadingStops, told_of, HasFault, HasLexFault};

use crate::fault::ReadFault;
use crate::whole::whole;
use cilk_lex::{LexFault, Token, tokens};
use cilk_parse_grammar::{Cursor, Fault, Program, ReadError};
use std::alloc::Global;

// Why a text is not read that has no tokens.
fn of_tokens(fault: LexFault) -> ReadFault
    ensures memory { fault ≡ LexFault.Memory → result ≡ ReadFault.Memory }
    ensures other { fault ≢ LexFault.Memory → result ≡ ReadFault.Lex fault }
    ensures place { place_of result ≡ lex_place fault }
{
    match fault {
        LexFault::Memory => ReadFault::Memory,
        other => ReadFault::Lex(other),
    }
}

// The place from which on so many tokens are left: that of the next one, or the text's length.
fn place_left(text: &str, tokens: &[Token], left: usize) -> u32
    requires in_tokens { left ≤ length tokens.now }
    requires in_limit { length text.now ≤ text_limit }
    ensures { result ≡ place_left (length text.now) (pieces_of text.now tokens.now) left }
{
    match &tokens[tokens.len() - left..] {
        [] => text.len() as u32,
        [next, ..] => next.start,
    }
}

// What is told of the error with which reading the tokens of a text ended.
fn told(text: &str, tokens: &[Token], error: ReadError) -> ReadFault
    requires short { length text.now ≤ text_limit }
    requires met { Fails error (program_of operator_limit parenthesis_limit nesting_limit (pieces_of text.now tokens.now)) }
    ensures { result ≡ told_of (length text.now) (pieces_of text.now tokens.now) error }
{
    match error {
        ReadError::Memory => ReadFault::Memory,
        ReadError::Fault(Fault::Unexpected(left)) => {
            ReadFault::Unexpected(place_left(text, tokens, left))
        }
        ReadError::Fault(Fault::TooDeep(left)) => {
            ReadFault::TooDeep(place_left(text, tokens, left))
        }
    }
}

// The program that the tokens of a text spell, or where they go wrong.
fn program_by(alloc: Global, text: &str, tokens: &[Token]) -> Result<Program, ReadFault>
    requires short { length text.now ≤ text_limit }
    requires within { All (IsWithin text.now) tokens.now }
    requires lexed { Lexes true 0 text.now (pieces_of text.now tokens.now) }
    ensures found { IfOk result (Spells text.now) }
    ensures refused { IfErr result (HasFault text.now) }
    ensures placed { IfErr result (λ f. place_of f ≤ length text.now) }
    ensures every_program { (p : tree.Program) → Spells text.now p
        → MatchResult result (λ q. q ≡ p) (λ f. f ≡ ReadFault.Memory) }
    ensures every_fault { (f : ReadFault) → ReadingStops text.now f
        → MatchResult result (λ _. ⊥) (λ g. (g ≡ f) ⊎ (g ≡ ReadFault.Memory)) }
{
    let mut cursor = Cursor::new(alloc, text, tokens);
    match whole(&mut cursor) {
        Ok((headers, items)) => Ok(Program {
            headers,
            items,
            length: text.len() as u32,
        }),
        Err(error) => Err(told(text, tokens, error)),
    }
}

/// Reads the program that a text spells, within the limits of nesting: 200 operators and subscript brackets in one
/// expression, 200 parentheses open at once in it, and 200 statements and inlets around another. Of the faults in the
/// tokens the first from the left is reported (C 1990, 6.5 to 6.7; Cilk 5.4 manual).
pub fn read(alloc: Global, text: &str) -> Result<Program, ReadFault>
    ensures too_long { (result ≡ Err (ReadFault.Lex LexFault.TooLong)) ↔ (text_limit < length text.now) }
    ensures found { IfOk result (Spells text.now) }
    ensures refused { IfErr result (HasFault text.now) }
    ensures placed { IfErr result (λ f. place_of f ≤ length text.now) }

    // Both ways, unless memory runs out.
    ensures every_program { (p : tree.Program) → length text.now ≤ text_limit → Spells text.now p
        → MatchResult result (λ q. q ≡ p) (λ f. f ≡ ReadFault.Memory) }
    ensures every_lex_fault { (f : LexFault) → HasLexFault text.now f
        → MatchResult result (λ _. ⊥) (λ g. (g ≡ ReadFault.Lex f) ⊎ (g ≡ ReadFault.Memory)) }
    ensures every_fault { (f : ReadFault) → length text.now ≤ text_limit → ReadingStops text.now f
        → MatchResult result (λ _. ⊥) (λ g. (g ≡ f) ⊎ (g ≡ ReadFault.Memory)) }
{
    match tokens(alloc, text) {
        Ok(tokens) => program_by(alloc, text, &tokens),
        Err(fault) => Err(of_tokens(fault)),
    }
}
