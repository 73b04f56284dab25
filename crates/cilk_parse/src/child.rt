//! How a spawn and its call are read, and the statement that they make with what takes the child's value.

ghost use Rattle.std.specs.Prelude.{◌≡◌};
ghost use Rattle.cilk_parse_grammar.specs.ReadsAs.{ReadsAs};
ghost use Rattle.cilk_parse_grammar.specs.syntax.MoveView.{taker_of};
ghost use Rattle.cilk_parse_grammar.specs.Grammar.{child};
ghost use Rattle.cilk_parse.specs.Limits.{read_by};
ghost use Rattle.cilk_parse.specs.StatementViews.{spawned};

use crate::arguments::arguments;
use crate::token::{keyword_place, name};
use cilk_parse_grammar::{Cursor, Expr, Keyword, ReadError, Stmt, StmtNode, Taker, Word};

/// The place of the word `spawn`, the callee, and what it is called with (Cilk 5.4 manual, `spawn`).
pub struct Spawned {
    pub at: u32,
    pub callee: Word,
    pub arguments: Vec<Expr>,
}

// To drop it elsewhere is to call this, and its parts' drops are proved here alone.
impl Drop for Spawned {
    fn drop(self) {
        let Spawned {
            at: _,
            callee: _callee,
            arguments: _arguments,
        } = self;
    }
}

impl Spawned {
    /// The statement in which this takes the child's value.
    pub fn given(self, taker: Taker) -> Stmt
        ensures { result ≡ spawned self (taker_of taker) }
    {
        let Spawned {
            at,
            callee,
            arguments,
        } = self;
        Stmt {
            node: StmtNode::Spawn(at, taker, callee, arguments),
        }
    }
}

/// `spawn` and a call, for one that takes its value (Cilk 5.4 manual, `spawn`).
#[tactic(auto, unfolding(cilk_parse_grammar::specs::Spelling::read_at))]
pub fn child(cursor: &mut Cursor) -> Result<Spawned, ReadError>
    ensures { ReadsAs (λ c. (spawned c, cursor.new.pieces)) result (read_by child cursor.old.pieces) }
{
    let at = keyword_place(cursor, Keyword::Spawn)?;
    let callee = name(cursor)?;
    let arguments = arguments(cursor)?;
    Ok(Spawned {
        at,
        callee,
        arguments,
    })
}
