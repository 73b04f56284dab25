//! The check of a program: which programs may be run. The first fault in its names is looked for with a table of those that are visible, the first
//! in its forms by going over it once more, and the first of both is told.
#![tactic(auto)]

mod cells;
mod checked;
mod children;
mod entry;
mod file;
mod first_form;
mod first_name;
mod format;
mod forms_of_statement;
mod forms_of_top;
mod forms_of_walk;
mod labels;
mod local;
mod meant;
mod moves;
mod names_of_statement;
mod names_of_top;
mod names_of_walk;
mod nearest;
mod prototypes;
mod reserved;
mod signature;
mod space;
mod table;
mod uses;

pub use checked::check;
pub use cilk_check_scopes::{BinOp, CheckFault, Checked, LexFault, LockAction, Owner};
