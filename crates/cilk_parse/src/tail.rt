//! What may follow the name of a function, and the item that both make together.

ghost use Rattle.std.specs.Prelude.{◌≡◌, MatchResult};
ghost use Rattle.cilk_parse_grammar.specs.Grammar.{function, declares};
ghost use Rattle.cilk_parse.specs.Views.{tail_of};

use cilk_parse_grammar::{
    Block, Item, ItemNode, Parameters, Proc, Prototype, ReadError, ReturnType, Word,
};

/// What stands behind the name of a function: a declaration of so many parameters (C 1990, 6.5.4.3), or a definition
/// (6.7.1).
pub enum Tail {
    Declares(u32),
    Defines(Parameters, Block),
}

// To drop it elsewhere is to call this, and its parts' drops are proved here alone.
impl Drop for Tail {
    fn drop(self) {
        match self {
            Tail::Declares(_) => {}
            Tail::Defines(_parameters, _body) => {}
        }
    }
}

impl Tail {
    /// A declaration of so many parameters. More than a program can have do not fit into memory.
    pub fn declaring(count: usize) -> Result<Tail, ReadError>
        ensures { MatchResult result (λ t. tail_of t ≡ declares count) (λ e. e ≡ ReadError.Memory) }
    {
        if count > u32::MAX as usize {
            return Err(ReadError::Memory);
        }
        Ok(Tail::Declares(count as u32))
    }

    /// The function of this name.
    pub fn function(self, is_cilk: bool, returns: ReturnType, name: Word) -> Item
        ensures { result ≡ function is_cilk returns (tail_of self) name }
    {
        let node = match self {
            Tail::Declares(count) => ItemNode::Prototype(Prototype {
                is_cilk,
                returns,
                name,
                count,
            }),
            Tail::Defines(parameters, body) => ItemNode::Procedure(Proc {
                is_cilk,
                returns,
                name,
                parameters,
                body,
            }),
        };
        Item { node }
    }
}
