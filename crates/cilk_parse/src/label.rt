//! How the labels of a `switch` are read.

ghost use Rattle.std.specs.Prelude.{◌≡◌};
ghost use Rattle.cilk_parse_grammar.specs.ReadsAs.{ReadsAs};
ghost use Rattle.cilk_parse_grammar.specs.Grammar.{label, labels, label_at};
ghost use Rattle.cilk_parse.specs.Limits.{read_by};

use crate::begins::begins_label;
use crate::signed::integer;
use crate::token::keyword_place;
use cilk_parse_grammar::{Cursor, Keyword, Label, Mark, ReadError, Stmt, StmtNode};

// A label of this value, or `default` where it has none.
fn labelled(at: u32, value: Option<i32>) -> Stmt
    ensures { result ≡ label_at at value }
{
    Stmt {
        node: StmtNode::Labelled(Label { at, value }),
    }
}

// A label, and its colon (C 1990, 6.6.1).
#[tactic(auto, unfolding(cilk_parse_grammar::specs::Spelling::read_at))]
fn label(cursor: &mut Cursor) -> Result<Stmt, ReadError>
    ensures { ReadsAs (λ s. (s, cursor.new.pieces)) result (read_by label cursor.old.pieces) }
{
    if cursor.is_keyword(Keyword::Case) {
        let at = keyword_place(cursor, Keyword::Case)?;
        let value = integer(cursor)?;
        cursor.mark(Mark::Colon)?;
        return Ok(labelled(at, Some(value)));
    }
    let at = keyword_place(cursor, Keyword::Default)?;
    cursor.mark(Mark::Colon)?;
    Ok(labelled(at, None))
}

/// Labels, as many as there are.
pub fn labels(cursor: &mut Cursor) -> Result<Vec<Stmt>, ReadError>
    ensures { ReadsAs (λ v. (v.items, cursor.new.pieces)) result (read_by labels cursor.old.pieces) }
{
    let mut stmts = Vec::new(cursor.alloc());
    'each: while begins_label(cursor) {
        let next = label(cursor)?;
        stmts.push(next)?;
    }
    Ok(stmts)
}
