//! What is told of where a program stands, and that it goes on.

use crate::message::Message;
use crate::stop::Stop;
use std::alloc::AllocError;

/// Where the program stands, why, and the worker that an editor is to show.
pub fn put_place(
    place: &str,
    stop: Stop,
    worker: u64,
    message: &mut Message,
) -> Result<(), AllocError> {
    message.begin("body")?;
    put_reason(place, stop, message)?;
    message.number("threadId", worker)?;
    message.flag("allThreadsStopped", true)?;
    message.end()
}

fn put_reason(place: &str, stop: Stop, message: &mut Message) -> Result<(), AllocError> {
    message.text("reason", stop.reason())?;
    message.text("description", place)
}

/// The line of the position in the view `where`.
pub fn first_line<'a>(view: &'a str) -> &'a str {
    match view.split_once('\n') {
        None => view,
        Some((line, _)) => line,
    }
}

/// All workers go on.
pub fn put_continued(message: &mut Message) -> Result<(), AllocError> {
    message.begin("body")?;
    message.flag("allThreadsContinued", true)?;
    message.end()
}
