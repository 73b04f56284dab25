//! The messages of the Debug Adapter Protocol, over two streams: framed on a stream, read as requests, and written member by member; and what the lines of
//! a debugger's views come to in them.
#![tactic(auto)]

mod activation;
mod after;
mod answers;
mod ask;
mod asked;
mod breaks;
mod capabilities;
mod fault;
mod frame_name;
mod frames;
mod framing;
mod header;
mod lines;
mod message;
mod part;
mod reading;
mod scopes;
mod sending;
mod source_text;
mod standing;
mod stop;
mod text_file;
mod threads;
mod unopened;
mod variables;
mod watched;

pub use activation::Activation;
pub use after::{After, followed};
pub use answers::event;
pub use ask::{Ask, ask_of};
pub use asked::{Asked, number_in};
pub use breaks::put_break;
pub use capabilities::{put_capabilities, unlike_here};
pub use fault::MessageFault;
pub use frame_name::FrameName;
pub use frames::{levels_of, put_frames};
pub use framing::{Incoming, TOO_LONG, next_message};
pub use lines::{hand_in, parent_of, worker_line};
pub use message::Message;
pub use part::Part;
pub use reading::value_of;
pub use scopes::{DEQUES, GLOBALS, LOCKS, put_scopes};
pub use sending::{conclude, more, refuse, send};
pub use source_text::SourceText;
pub use standing::{first_line, put_continued, put_place};
pub use stop::Stop;
pub use text_file::{TextFile, put_content};
pub use threads::put_threads;
pub use unopened::Unopened;
pub use variables::{
    local_in, put_found, put_result, put_standings, put_variables, put_variables_in, value_in,
};
pub use watched::{is_variable, put_watchable, watch_all, watched_in};
