//! What may follow `int` and a name at the top level: the rest of a function, or of variables.

ghost use Rattle.std.specs.Prelude.{◌≡◌, ◌∷◌, [], MatchResult};
ghost use Rattle.cilk_parse.specs.Views.{int_tail_of};

use crate::tail::Tail;
use crate::variable::as_items;
use cilk_parse_grammar::{Global, GlobalShape, Item, ReadError, ReturnType, Word};
use std::alloc;

/// What stands behind `int` and a name.
pub enum IntTail {
    /// The rest of a C function (C 1990, 6.7.1).
    Function(Tail),
    /// The shape of a variable or array, and those that are declared together with it (C 1990, 6.7.2).
    Variables(GlobalShape, Vec<Global>),
}

// To drop it elsewhere is to call this, and its parts' drops are proved here alone.
impl Drop for IntTail {
    fn drop(self) {
        match self {
            IntTail::Function(_tail) => {}
            IntTail::Variables(_, _others) => {}
        }
    }
}

impl IntTail {
    /// The items whose first has this name.
    pub fn behind(self, alloc: alloc::Global, name: Word) -> Result<Vec<Item>, ReadError>
        ensures { MatchResult result (λ v. v.items ≡ int_tail_of self name) (λ e. e ≡ ReadError.Memory) }
    {
        match self {
            IntTail::Function(tail) => one(alloc, tail.function(false, ReturnType::Int, name)),
            IntTail::Variables(shape, others) => as_items(alloc, Global { name, shape }, others),
        }
    }
}

/// One item alone.
pub fn one(alloc: alloc::Global, item: Item) -> Result<Vec<Item>, ReadError>
    ensures { MatchResult result (λ v. v.items ≡ item ∷ []) (λ e. e ≡ ReadError.Memory) }
{
    let mut items = Vec::new(alloc);
    items.push(item)?;
    Ok(items)
}
