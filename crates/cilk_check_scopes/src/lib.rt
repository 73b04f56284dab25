//! What the names of a program mean where they stand (C 1990, 6.1.2.1), what surrounds each part of it, and what each rule of the check
//! forbids. The crate has the definitions, which speak of trees alone, the faults that the rules over them find, and the tree
//! of a program that breaks none.
#![tactic(auto)]

mod checked;
mod declaration_kind;
mod fault;
mod order;
mod owner;
mod role;
mod within;
mod word_places;

pub use checked::Checked;
pub use cilk_tree_syntax::{
    BinOp, Block, Decl, Expr, ExprNode, Global, GlobalShape, Inlet, Item, ItemNode, Label,
    LexFault, Literal, Local, LocalNode, LockAction, Memory, Move, MoveNode, Parameters, Place,
    Proc, Program, Prototype, ReturnType, Shape, Stmt, StmtNode, Taker, Target, UnOp, Word,
};
pub use declaration_kind::DeclarationKind;
pub use fault::CheckFault;
pub use order::{earlier_of, first, first_if};
pub use owner::Owner;
pub use role::Role;
pub use within::Within;
pub use word_places::at_word;
