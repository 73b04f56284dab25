//! The events that tell an editor where a program stands.

use crate::adapter::Adapter;
use crate::opened::Opened;
use crate::refusal::{Refusal, told};
use cilk_dap_messages::{Message, Stop, first_line, put_place};

impl Adapter {
    /// The event that the program stands still.
    pub(crate) fn stopped(&mut self, stop: Stop) -> Result<Message, Refusal> {
        let number = self.next_number();
        let mut message = Message::event(self.alloc, number, "stopped")?;
        match self.put_stop(stop, &mut message) {
            Err(refusal) => {
                drop(message);
                Err(refusal)
            }
            Ok(()) => Ok(message),
        }
    }

    // The rest of it.
    fn put_stop(&self, stop: Stop, message: &mut Message) -> Result<(), Refusal> {
        if let Some(opened) = &self.opened {
            put_stop_of(opened, stop, message)?;
        }
        told(message.end())
    }
}

fn put_stop_of(opened: &Opened, stop: Stop, message: &mut Message) -> Result<(), Refusal> {
    let view = opened.view_where()?;
    let place = first_line(view.as_str());
    told(put_place(place, stop, opened.next_mover(), message))
}
