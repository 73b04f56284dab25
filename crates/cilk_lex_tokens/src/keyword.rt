//! The keywords of the language, those of C and those of Cilk.

/// A word that the language keeps for itself (C 1990, 6.1.1; Cilk 5.4 manual, keywords).
#[derive(Clone, Copy, Debug, PartialEq, Eq)]
pub enum Keyword {
    Int,
    Void,
    If,
    Else,
    While,
    Do,
    For,
    Break,
    Continue,
    Return,
    Cilk,
    Spawn,
    Sync,
    Inlet,
    Abort,
    Synched,
    CilkLockvar,
    Switch,
    Case,
    Default,
}
