//! What is told of workers, each of which is a thread to an editor.

use crate::message::Message;
use std::alloc::AllocError;

/// A thread for each worker, by the lines of `where`, the first of which is that of the position.
pub fn put_threads(view: &str, message: &mut Message) -> Result<(), AllocError> {
    message.begin_body("threads")?;
    put_each_thread(view, message)?;
    message.end_body()
}

fn put_each_thread(view: &str, message: &mut Message) -> Result<(), AllocError> {
    let mut worker: u64 = 0;
    for line in view.lines() {
        if 0 < worker {
            put_thread(worker, line, message)?;
        }
        worker = worker.saturating_add(1);
    }
    Ok(())
}

fn put_thread(worker: u64, line: &str, message: &mut Message) -> Result<(), AllocError> {
    message.begin_item()?;
    message.number("id", worker)?;
    message.text("name", line)?;
    message.end()
}
