//! What is lent to evaluate an expression: the cells of each area, and the answer to `SYNCHED`.

/// The cells that an expression may read.
#[derive(Clone, Copy)]
pub struct Slots<'a> {
    /// The cells of the running activation.
    pub own: &'a [i32],
    /// The cells of the procedure around the running inlet.
    pub outer: &'a [i32],
    /// The cells of the variables of the file.
    pub globals: &'a [i32],
    /// The instance has no live child and no waiting delivery.
    pub synched: bool,
}
