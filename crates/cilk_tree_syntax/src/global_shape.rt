//! Whether a name of the top level is a variable or an array, with its first value or its length.

/// An `int` variable of the top level and the number that it starts with, if one is written, or an array of a length
/// (C 1990, 6.7.2). `global_shape_of` of `specs/ProgramView.antt` is its plain tree.
#[derive(Clone, Copy, PartialEq, Eq)]
pub enum GlobalShape {
    Variable(Option<i32>),
    Array(u32),
}
