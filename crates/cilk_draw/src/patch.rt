//! One value of a ribbon, and where it begins.

/// What a ribbon shows from one place on, up to the next patch.
#[derive(Drop)]
pub(crate) struct Patch {
    /// Behind how many columns of the picture it begins.
    pub from: usize,
    /// The value, of which at most 80 characters are kept; empty where there is none.
    pub text: String,
}
