//! How a whole program is read from its tokens: headers, items, and nothing behind them.

ghost use Rattle.cilk_parse_grammar.specs.ReadsAs.{ReadsAs};
ghost use Rattle.cilk_parse_grammar.specs.Expressions.{operator_limit, parenthesis_limit};
ghost use Rattle.cilk_parse_grammar.specs.Spelling.{nesting_limit, program_of};

use crate::headers::headers;
use crate::items::items;
use cilk_parse_grammar::{Cursor, Header, Item, ReadError};

/// The headers and the items of a program, which all of the tokens spell (C 1990, 6.7, 6.8.2; Cilk 5.4 manual).
pub fn whole(cursor: &mut Cursor) -> Result<(Vec<Header>, Vec<Item>), ReadError>
    ensures { ReadsAs (λ w. ((w.0.items, w.1.items), cursor.new.pieces)) result
        (program_of operator_limit parenthesis_limit nesting_limit cursor.old.pieces) }
{
    let headers = headers(cursor)?;
    let items = items(cursor)?;
    if cursor.left() > 0 {
        return Err(cursor.unexpected());
    }
    Ok((headers, items))
}
