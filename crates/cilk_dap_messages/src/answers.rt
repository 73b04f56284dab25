//! Messages that are made at once: why what is asked is not done, and an event that tells no more than its name.

use crate::asked::Asked;
use crate::message::Message;
use std::alloc::{AllocError, Global};

/// The response of this number, that what is asked is not done, and why.
pub(crate) fn refusal(
    alloc: Global,
    number: u64,
    asked: &Asked<'_>,
    words: &str,
) -> Result<Message, AllocError> {
    let mut message = Message::response(alloc, number, asked, false)?;
    let put = put_words(words, &mut message);
    message.with(put)
}

fn put_words(words: &str, message: &mut Message) -> Result<(), AllocError> {
    message.text("message", words)?;
    message.end()
}

/// The event of this number and name.
pub fn event(alloc: Global, number: u64, name: &str) -> Result<Message, AllocError> {
    let mut message = Message::event(alloc, number, name)?;
    let put = message.end();
    message.with(put)
}
