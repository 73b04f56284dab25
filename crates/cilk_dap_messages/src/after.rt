//! What follows a response.

use crate::fault::MessageFault;
use crate::stop::Stop;

/// What an editor is told behind the response to its request.
#[derive(Clone, Copy)]
pub enum After {
    /// Nothing.
    Nothing,
    /// Breakpoints may be set now.
    Initialized,
    /// The program stands still.
    Stopped(Stop),
    /// The session is over; requests are still answered.
    Terminated,
    /// No request more is answered.
    Quit,
}

/// What follows a response that was sent.
pub fn followed(after: After, sent: Result<(), MessageFault>) -> Result<After, MessageFault> {
    match sent {
        Err(fault) => Err(fault),
        Ok(()) => Ok(after),
    }
}
