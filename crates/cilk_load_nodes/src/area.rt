//! The areas of cells that an expression may read.

/// Where the cells of a variable lie.
#[derive(Clone, Copy, Debug, PartialEq, Eq)]
pub enum Area {
    /// In the running activation.
    Own,
    /// In the activation of the procedure around the running inlet.
    Outer,
    /// Among the variables of the file.
    Global,
}
