//! The exchange with an editor: requests come one by one, and each is answered before the next is read.

use crate::adapter::Adapter;
use crate::opening::Opening;
use crate::refusal::Refusal;
use cilk_dap_messages::{
    After, Asked, Incoming, Message, MessageFault, Stop, TOO_LONG, conclude, event, followed, more,
    next_message, refuse, send, value_of,
};
use serde_json::Value;
use std::alloc::Global;
use std::io::{Read, Write};

const NO_REQUEST: &str = "the message is no request";

/// Answers the requests that the reader holds to the writer, until one is `disconnect`, or no byte is left.
pub fn serve<P: Opening, R: Read, W: Write>(
    alloc: Global,
    opening: &P,
    reader: &mut R,
    writer: &mut W,
) -> Result<(), MessageFault> {
    let mut adapter = Adapter::new(alloc);
    for _ in 0..u64::MAX {
        if adapter.turn(opening, reader, writer)? {
            return Ok(());
        }
    }
    Ok(())
}

// A message that tells no number.
const NOBODY: Asked<'static> = Asked {
    number: 0,
    command: "",
    arguments: None,
};

impl Adapter {
    // Reads a message, and answers it. Whether it was the last.
    fn turn<P: Opening, R: Read, W: Write>(
        &mut self,
        opening: &P,
        reader: &mut R,
        writer: &mut W,
    ) -> Result<bool, MessageFault> {
        match next_message(self.alloc, reader) {
            Err(fault) => Err(fault),
            Ok(Incoming::End) => Ok(true),
            Ok(Incoming::TooLong) => self.refuse_unread(TOO_LONG, writer),
            Ok(Incoming::Body(bytes)) => self.answer(opening, bytes.as_slice(), writer),
        }
    }

    // The same of the bytes of a message.
    fn answer<P: Opening, W: Write>(
        &mut self,
        opening: &P,
        bytes: &[u8],
        writer: &mut W,
    ) -> Result<bool, MessageFault> {
        match value_of(self.alloc, bytes) {
            Err(fault) => Err(fault),
            Ok(value) => self.answer_value(opening, &value, writer),
        }
    }

    // The same of what they say.
    fn answer_value<P: Opening, W: Write>(
        &mut self,
        opening: &P,
        value: &Value,
        writer: &mut W,
    ) -> Result<bool, MessageFault> {
        match Asked::by(value) {
            None => self.refuse_unread(NO_REQUEST, writer),
            Some(asked) => self.answer_asked(opening, &asked, writer),
        }
    }

    // Does what is asked, and tells what follows it.
    fn answer_asked<P: Opening, W: Write>(
        &mut self,
        opening: &P,
        asked: &Asked<'_>,
        writer: &mut W,
    ) -> Result<bool, MessageFault> {
        match self.respond(opening, asked, writer) {
            Err(fault) => Err(fault),
            Ok(after) => self.tell_after(after, writer),
        }
    }

    // Tells what follows a response. Whether that was the last.
    fn tell_after<W: Write>(&mut self, after: After, writer: &mut W) -> Result<bool, MessageFault> {
        match after {
            After::Nothing => Ok(false),
            After::Quit => Ok(true),
            After::Initialized => more(self.tell("initialized", writer)),
            After::Terminated => more(self.tell("terminated", writer)),
            After::Stopped(stop) => more(self.tell_stopped(stop, writer)),
        }
    }

    // Sends the response. What follows it, where something was done.
    fn respond<P: Opening, W: Write>(
        &mut self,
        opening: &P,
        asked: &Asked<'_>,
        writer: &mut W,
    ) -> Result<After, MessageFault> {
        let number = self.next_number();
        match Message::response(self.alloc, number, asked, true) {
            Err(_) => Err(MessageFault::Memory),
            Ok(mut message) => self.respond_in(&mut message, opening, number, asked, writer),
        }
    }

    // Does what is asked, and sends the response, which has this number and was begun.
    fn respond_in<P: Opening, W: Write>(
        &mut self,
        message: &mut Message,
        opening: &P,
        number: u64,
        asked: &Asked<'_>,
        writer: &mut W,
    ) -> Result<After, MessageFault> {
        match self.obey(opening, asked, message) {
            Ok(after) => followed(after, conclude(self.alloc, number, asked, message, writer)),
            Err(refusal) => self.tell_refusal(number, asked, refusal, writer),
        }
    }

    // Sends the response of this number, why what is asked is not done. Nothing follows it.
    fn tell_refusal<W: Write>(
        &self,
        number: u64,
        asked: &Asked<'_>,
        refusal: Refusal,
        writer: &mut W,
    ) -> Result<After, MessageFault> {
        match words_of(&refusal) {
            None => Err(MessageFault::Memory),
            Some(words) => followed(
                After::Nothing,
                refuse(self.alloc, number, asked, words, writer),
            ),
        }
    }

    // Sends the response to a message that asks nothing. It is never the last.
    fn refuse_unread<W: Write>(
        &mut self,
        words: &str,
        writer: &mut W,
    ) -> Result<bool, MessageFault> {
        let number = self.next_number();
        more(refuse(self.alloc, number, &NOBODY, words, writer))
    }

    // Sends an event that tells no more than its name.
    fn tell<W: Write>(&mut self, name: &str, writer: &mut W) -> Result<(), MessageFault> {
        let number = self.next_number();
        send(event(self.alloc, number, name), writer)
    }

    // Sends the event that the program stands still.
    fn tell_stopped<W: Write>(&mut self, stop: Stop, writer: &mut W) -> Result<(), MessageFault> {
        match self.stopped(stop) {
            Err(_) => Err(MessageFault::Memory),
            Ok(message) => send(Ok(message), writer),
        }
    }
}

// The words of a refusal that is told.
fn words_of<'a>(refusal: &'a Refusal) -> Option<&'a str> {
    match refusal {
        Refusal::Memory => None,
        Refusal::Words(words) => Some(words),
        Refusal::Text(text) => Some(text.as_str()),
    }
}
