//! How the inclusions at the head of a program are read.

ghost use Rattle.std.specs.Prelude.{◌≡◌};
ghost use Rattle.cilk_parse_grammar.specs.ReadsAs.{ReadsAs};
ghost use Rattle.cilk_parse_grammar.specs.Rule.{is, class_at, part, many};
ghost use Rattle.cilk_parse_grammar.specs.Classes.{cls, an_inclusion};
ghost use Rattle.cilk_parse_grammar.specs.Parts.{token, the_header};
ghost use Rattle.cilk_parse_grammar.specs.Spelling.{nesting_limit};
ghost use Rattle.cilk_parse.specs.Limits.{read_in};

use crate::token::header;
use cilk_lex::TokenKind;
use cilk_parse_grammar::{Cursor, Header, ReadError};

// Whether the next token includes a header.
fn is_inclusion(cursor: &Cursor) -> bool
    ensures { result ≡ is an_inclusion (class_at cls cursor.now.pieces) }
{
    matches!(cursor.kind(), Some(TokenKind::Include(_)))
}

/// The headers that are included, in order (C 1990, 6.8.2).
pub fn headers(cursor: &mut Cursor) -> Result<Vec<Header>, ReadError>
    ensures { ReadsAs (λ v. (v.items, cursor.new.pieces)) result
        (read_in nesting_limit (many (part (token the_header))) cursor.old.pieces) }
{
    let mut headers = Vec::new(cursor.alloc());
    'each: while is_inclusion(cursor) {
        let next = header(cursor)?;
        headers.push(next)?;
    }
    Ok(headers)
}
