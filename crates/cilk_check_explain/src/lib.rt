//! What is told to people of a fault in a program's text.
#![tactic(auto)]

mod actions;
mod braces;
mod check;
mod choosing;
mod conversions;
mod declarations;
mod declared;
mod directive;
mod front;
mod fronts;
mod labels;
mod left_out;
mod lexical;
mod lines;
mod meant;
mod missing;
mod operators;
mod reason;
mod remarks;
mod say;
mod search;
mod sentences;
mod site;
mod source;
mod spawns;
mod statements;
mod told;
mod too_deep;
mod unexpected;
mod unknown;
mod words;

pub use actions::action_place;
pub use cilk_lex::{TEXT_LIMIT, line_col};
pub use cilk_parse::{ReadFault, read};
pub use lines::place_lines;
pub use sentences::sentence;
pub use told::Told;
