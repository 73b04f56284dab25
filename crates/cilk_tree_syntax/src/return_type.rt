//! The two types that functions and procedures may return, and their words.

ghost use Rattle.std.specs.Prelude.{◌≡◌};
ghost use Rattle.cilk_tree_syntax.specs.ReturnWord.{word_of};

/// What a procedure returns (C 1990, 6.7.1; Cilk 5.4 manual, `cilk`).
#[derive(Clone, Copy, PartialEq, Eq)]
pub enum ReturnType {
    Int,
    Void,
}

impl ReturnType {
    /// The word that says so.
    pub fn word(self) -> &'static str
        ensures { result.now ≡ word_of self }
    {
        match self {
            ReturnType::Int => "int",
            ReturnType::Void => "void",
        }
    }
}
