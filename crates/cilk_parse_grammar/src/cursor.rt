//! The cursor with which each rule of the grammar takes tokens from the front of those that are left.

ghost use Rattle.std.specs.Prelude.{◌≡◌, ◌+◌, ◌-◌, ◌<◌, ◌^◌, All, length, OnOk};
ghost use Rattle.cilk_tree_syntax.specs.lexeme.Lexeme.{pieces_of};
ghost use Rattle.cilk_parse_grammar.specs.ReadsAs.{ReadsAs};
ghost use Rattle.cilk_parse_grammar.specs.Rule.{behind, has, is, class_at, token_at};
ghost use Rattle.cilk_parse_grammar.specs.Classes.{a_word, a_mark, cls};
ghost use Rattle.cilk_parse_grammar.specs.Front.{kind_at, place_at, infix_at, name_at, number_at, header_at, literal_at};
ghost use Rattle.cilk_parse_grammar.specs.Expressions.{begins_expr};
ghost use Rattle.cilk_parse_grammar.specs.NameClasses.{name_class_at};
ghost use Rattle.cilk_parse_grammar.specs.Within.{IsWithin};

use crate::fault::{Fault, ReadError};
use crate::literal::said;
use crate::name_class::NameClass;
use crate::operator::{Infix, begins_by, infix_of};
use cilk_tree_syntax::{Header, Keyword, Literal, Mark, Token, TokenKind, Word};
use std::alloc::Global;
use std::marker::Model;

/// Reads from the front of the tokens that are left. Behind a fault it is of no more use.
#[derive(Drop)]
pub struct Cursor<'a> {
    alloc: Global,
    text: &'a str,
    tokens: &'a [Token],
    operators: u32,
}

impl<'a> Model for Cursor<'a> {
    ghost use Rattle.std.specs.Prelude.{All};
    ghost use Rattle.cilk_tree_syntax.specs.lexeme.Lexeme.{pieces_of};
    ghost use Rattle.cilk_parse_grammar.specs.Within.{IsWithin};
    ghost use Rattle.cilk_parse_grammar.specs.Front.{ParserState};

    ghost Value = { ParserState };

    ghost view = { λ c. record { pieces = pieces_of c.text.now c.tokens.now; operators = c.operators } };

    ghost invariant = { λ c. All (IsWithin c.text.now) c.tokens.now };
}

impl<'a> Cursor<'a> {
    /// Stands before the first of a text's tokens.
    pub fn new(alloc: Global, text: &'a str, tokens: &'a [Token]) -> Cursor<'a>
        requires { All (IsWithin text.now) tokens.now }
        ensures { result ≡ record { pieces = pieces_of text.now tokens.now; operators = 0 } }
    {
        Cursor {
            alloc,
            text,
            tokens,
            operators: 0,
        }
    }

    /// How many tokens are left.
    pub fn left(&self) -> usize
        ensures { result ≡ length self.now.pieces }
    {
        self.tokens.len()
    }

    /// The kind of the next token, if one is left.
    pub fn kind(&self) -> Option<TokenKind>
        ensures { result ≡ kind_at self.now.pieces }
    {
        match self.tokens {
            [] => None,
            [token, ..] => Some(token.kind),
        }
    }

    /// The place of the next token in the text, in bytes from 0, or 0 where none is left.
    pub fn place(&self) -> u32
        ensures { result ≡ place_at self.now.pieces }
    {
        match self.tokens {
            [] => 0,
            [token, ..] => token.start,
        }
    }

    /// Goes behind the next token, if one is left.
    pub fn advance(&mut self)
        ensures { self.new ≡ record self.old { pieces = behind self.old.pieces } }
    {
        if let [_, rest @ ..] = self.tokens {
            self.tokens = rest;
        }
    }

    /// Whether the next token is this mark.
    pub fn is_mark(&self, wanted: Mark) -> bool
        ensures { result ≡ is (a_mark wanted) (class_at cls self.now.pieces) }
    {
        self.kind() == Some(TokenKind::Mark(wanted))
    }

    /// Whether the next token is this word.
    pub fn is_keyword(&self, wanted: Keyword) -> bool
        ensures { result ≡ is (a_word wanted) (class_at cls self.now.pieces) }
    {
        self.kind() == Some(TokenKind::Word(wanted))
    }

    /// Whether an expression begins with the next token.
    pub fn begins_expression(&self) -> bool
        ensures { result ≡ has begins_expr (class_at cls self.now.pieces) }
    {
        match self.kind() {
            Some(kind) => begins_by(kind),
            None => false,
        }
    }

    /// Goes behind the next token, if it is this mark.
    pub fn mark(&mut self, wanted: Mark) -> Result<(), ReadError>
        ensures gives { ReadsAs (λ _. self.new.pieces) result (token_at cls (a_mark wanted) self.old.pieces) }
        ensures operators { self.new.operators ≡ self.old.operators }
    {
        if !self.is_mark(wanted) {
            return Err(self.unexpected());
        }
        self.advance();
        Ok(())
    }

    /// Goes behind the next token, if it is this word.
    pub fn keyword(&mut self, wanted: Keyword) -> Result<(), ReadError>
        ensures gives { ReadsAs (λ _. self.new.pieces) result (token_at cls (a_word wanted) self.old.pieces) }
        ensures operators { self.new.operators ≡ self.old.operators }
    {
        if !self.is_keyword(wanted) {
            return Err(self.unexpected());
        }
        self.advance();
        Ok(())
    }

    /// The next token, if it is a name, behind which it goes.
    #[tactic(auto, unfolding(crate::specs::Front::name_at))]
    pub fn name(&mut self) -> Result<Word, ReadError>
        ensures gives { ReadsAs (λ w. (w, self.new.pieces)) result (name_at self.old.pieces) }
        ensures operators { OnOk result (self.new.operators ≡ self.old.operators) }
    {
        match self.tokens {
            [
                Token {
                    kind: TokenKind::Name,
                    start,
                    end,
                },
                rest @ ..,
            ] => {
                let text = &self.text[*start as usize..*end as usize];
                let word = Word::new(String::from_str(self.alloc, text)?, *start);
                self.tokens = rest;
                Ok(word)
            }
            _ => Err(self.unexpected()),
        }
    }

    /// Whether the token behind the next one is this mark.
    pub fn is_mark_second(&self, wanted: Mark) -> bool
        ensures { result ≡ is (a_mark wanted) (class_at cls (behind self.now.pieces)) }
    {
        match self.tokens {
            [_, second, ..] => second.kind == TokenKind::Mark(wanted),
            _ => false,
        }
    }

    /// What the next token is to a rule, if it is a name.
    pub fn name_class(&self) -> Option<NameClass>
        ensures { result ≡ name_class_at self.now.pieces }
    {
        match self.tokens {
            [
                Token {
                    kind: TokenKind::Name,
                    start,
                    end,
                },
                ..
            ] => Some(NameClass::of(&self.text[*start as usize..*end as usize])),
            _ => None,
        }
    }

    /// The next token, if it is a number, behind which it goes.
    #[tactic(auto, unfolding(crate::specs::Front::number_at))]
    pub fn number(&mut self) -> Result<u32, ReadError>
        ensures gives { ReadsAs (λ n. (n, self.new.pieces)) result (number_at self.old.pieces) }
        ensures operators { self.new.operators ≡ self.old.operators }
    {
        match self.kind() {
            Some(TokenKind::Number(value)) => {
                self.advance();
                Ok(value)
            }
            _ => Err(self.unexpected()),
        }
    }

    /// The header that the next token includes, if it is an inclusion, behind which it goes.
    #[tactic(auto, unfolding(crate::specs::Front::header_at))]
    pub fn header(&mut self) -> Result<Header, ReadError>
        ensures gives { ReadsAs (λ h. (h, self.new.pieces)) result (header_at self.old.pieces) }
        ensures operators { self.new.operators ≡ self.old.operators }
    {
        match self.kind() {
            Some(TokenKind::Include(header)) => {
                self.advance();
                Ok(header)
            }
            _ => Err(self.unexpected()),
        }
    }

    /// The next token, if it is a text literal, behind which it goes.
    #[tactic(auto, unfolding(crate::specs::Front::literal_at))]
    pub fn literal(&mut self) -> Result<Literal, ReadError>
        ensures gives { ReadsAs (λ l. (l, self.new.pieces)) result (literal_at self.old.pieces) }
        ensures operators { OnOk result (self.new.operators ≡ self.old.operators) }
    {
        match self.tokens {
            [
                Token {
                    kind: TokenKind::Text,
                    start,
                    end,
                },
                rest @ ..,
            ] => {
                let text = &self.text[*start as usize..*end as usize];
                let literal = Literal::new(said(self.alloc, text)?, *start);
                self.tokens = rest;
                Ok(literal)
            }
            _ => Err(self.unexpected()),
        }
    }

    /// What the next token is behind an operand, and how tightly it binds.
    pub(crate) fn infix(&self) -> Option<(u32, Infix)>
        ensures { result ≡ infix_at self.now.pieces }
    {
        match self.kind() {
            Some(TokenKind::Mark(mark)) => infix_of(mark),
            _ => None,
        }
    }

    /// How many operators and subscripts the expression that is read has so far.
    pub(crate) fn operators(&self) -> u32
        ensures { result ≡ self.now.operators }
    {
        self.operators
    }

    /// Goes behind the next token, an operator or the bracket of a subscript, and counts it.
    pub(crate) fn take_operator(&mut self)
        requires { self.old.operators < 2 ^ 32 - 1 }
        ensures { self.new ≡ record { pieces = behind self.old.pieces; operators = self.old.operators + 1 } }
    {
        self.advance();
        self.operators += 1;
    }

    /// Begins to count those of another expression.
    pub(crate) fn start_expression(&mut self)
        ensures { self.new ≡ record self.old { operators = 0 } }
    {
        self.operators = 0;
    }

    /// The allocator of what is read.
    pub fn alloc(&self) -> Global {
        self.alloc
    }

    /// The fault of a token with which no program goes on.
    pub fn unexpected(&self) -> ReadError
        ensures { result ≡ ReadError.Fault (Fault.Unexpected (length self.now.pieces)) }
    {
        ReadError::Fault(Fault::Unexpected(self.left()))
    }

    /// The fault of a token that is too deep inside others.
    pub fn too_deep(&self) -> ReadError
        ensures { result ≡ ReadError.Fault (Fault.TooDeep (length self.now.pieces)) }
    {
        ReadError::Fault(Fault::TooDeep(self.left()))
    }
}
