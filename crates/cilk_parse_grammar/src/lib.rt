//! Rules of any grammar as data, and the laws of reading by them; the grammar of the whole language as a table of such rules, what its rules say of
//! tokens, and how tokens are read by them (C 1990, 6.5 to 6.7; Cilk 5.4 manual); expressions (C 1990, 6.3), and the cursor by which each part of a
//! program reads tokens.
//!
//! What an expression is stands in `specs/Expressions.antt` (`SpellsWhole`), over the classes of tokens of `Classes.antt` and
//! the one table of operators of `Operators.antt`. How tokens are read, with the first fault, stands in `Reading.antt`
//! (`whole_of`), and `expression` gives just that. The laws that tie the two are lemmas, in the form in which the laws of rules
//! ask them of the parts of a rule, since the laws of programs are made of them: what is read is spelled, what is spelled
//! is read again, with what an expression begins, and with more room (`proofs/Whole.antt`); a fault is met whatever
//! follows its token (`LocalExpr.antt`); and places do not matter (`MovedExpr.antt`).
//!
//! `Cursor::alloc` has no clause: a `Global` is a handle to the one heap of the program, and that of
//! the cursor is the only one that a body can give.
#![tactic(auto)]

mod cursor;
mod fault;
pub mod laws;
mod literal;
mod name_class;
mod operator;
mod reading;

pub use cilk_tree_syntax::{
    Adjustment, BinOp, Block, Decl, Expr, ExprNode, Global, GlobalShape, Header, Inlet, Item,
    ItemNode, Keyword, Label, Literal, Local, LocalNode, LockAction, Mark, Move, MoveNode,
    Parameters, Place, Proc, Program, Prototype, ReturnType, Shape, Stmt, StmtNode, Taker, Target,
    Word,
};
pub use cursor::Cursor;
pub use fault::{Fault, ReadError};
pub use name_class::NameClass;
pub use reading::expression;
