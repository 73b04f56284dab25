//! Pictures of recorded schedules: what each worker did over the choices, which values the variables of the top level had, and who held which lock. A
//! picture is taken from the views of a machine behind each choice and the plans of its steps (`drawing.rt`), and written as lines or as one SVG. What is in
//! one (`picture.rt`), and how that is written, knows no machine.
#![tactic(auto)]

mod below;
mod boxes;
mod caption;
mod column;
mod curves;
mod drawing;
mod elements;
mod escaping;
mod excerpt;
mod fault;
mod footer;
mod gathering;
mod glance;
mod grid;
mod hue;
mod lanes;
mod looking;
mod painter;
mod pane;
mod patch;
mod picture;
mod race;
mod ribbon;
mod rows;
mod scheme;
mod standing;
mod svg;
mod tree_lines;
mod wording;
mod writing;

pub use cilk_log_replay::{Loaded, Log, Memory, ReplayFault};
pub use drawing::draw;
pub use excerpt::Excerpt;
pub use fault::DrawFault;
pub use picture::Picture;
pub use svg::put_svg;
pub use wording::put_lines;
