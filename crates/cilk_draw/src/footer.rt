//! What stands below the rows of a picture, as texts.

/// How a program stands where a picture ends, and the program itself.
pub struct Footer {
    /// Behind how many choices the picture ends.
    pub end: u64,
    /// How the program stands there.
    pub ending: String,
    /// A line for each worker there: where it goes on, and whether it has to wait.
    pub standing: String,
    /// The instances that were made up to there, a line for each, in the order of their paths.
    pub tree: String,
    /// The canonical text of the program.
    pub text: String,
}

impl Drop for Footer {
    fn drop(self) {
        let Footer {
            end: _,
            ending: _ending,
            standing: _standing,
            tree: _tree,
            text: _text,
        } = self;
    }
}
