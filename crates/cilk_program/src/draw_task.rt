//! What is asked of a picture: which part of which log is drawn, and how.

use cilk_program_runs::LogTask;

/// How a log is to be drawn.
#[derive(Clone, Copy)]
pub(crate) struct DrawTask<'a> {
    /// The names of the texts, which stand above the picture too, and whether more is told of what is wrong.
    pub log: LogTask<'a>,
    /// The number of the first choice that is drawn, counted from 1.
    pub from: u32,
    /// That of the last.
    pub to: u32,
    /// Whether the picture is told in lines, and not as an SVG.
    pub in_lines: bool,
}
