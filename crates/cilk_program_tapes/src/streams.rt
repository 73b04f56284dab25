//! The streams that the program writes to.

/// What the program writes to: answers go to one stream, and what is told of failures to the other.
#[derive(Drop)]
pub struct Streams<O, E> {
    pub output: O,
    pub errors: E,
}
