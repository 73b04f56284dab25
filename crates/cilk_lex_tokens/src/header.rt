//! The headers that the inclusions of a program may name.

/// A header that a program may include (Cilk 5.4 manual, chapter on the language; C 1990, 7.9 and 7.10). What it
/// declares that the language has is there without it.
#[derive(Clone, Copy, Debug, PartialEq, Eq)]
pub enum Header {
    Cilk,
    CilkLib,
    CilkLibCilkh,
    Stdio,
    Stdlib,
}
