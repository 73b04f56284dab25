//! An adapter: what it was asked so far, and what it does with the next request.

use crate::obeying::{behind, stopped};
use crate::opened::Opened;
use crate::opening::Opening;
use crate::refusal::{NO_PROGRAM, NO_SUCH_REQUEST, Refusal, told};
use cilk_dap_messages::{
    After, Ask, Asked, Message, Stop, Unopened, ask_of, put_capabilities, unlike_here,
};
use std::alloc::Global;

const NO_NAMES: &str = "launch wants the names of a program and of a log";

/// What was launched, if something was, and how many messages were sent.
#[derive(Drop)]
pub(crate) struct Adapter {
    pub alloc: Global,
    pub sent: u64,
    pub opened: Option<Opened>,
    /// Whether the program is to stand still before its first choice.
    pub stops_at_entry: bool,
}

impl Adapter {
    /// Nothing was asked yet.
    pub(crate) fn new(alloc: Global) -> Adapter {
        Adapter {
            alloc,
            sent: 0,
            opened: None,
            stops_at_entry: true,
        }
    }

    /// The number of the next message.
    pub(crate) fn next_number(&mut self) -> u64 {
        self.sent = self.sent.wrapping_add(1);
        self.sent
    }

    /// Does what is asked, and puts into the response what it tells.
    pub(crate) fn obey<P: Opening>(
        &mut self,
        opening: &P,
        asked: &Asked<'_>,
        message: &mut Message,
    ) -> Result<After, Refusal> {
        let ask = ask_of(asked.command);
        match ask {
            Ask::Initialize => behind(tell_capabilities(asked, message)),
            Ask::Launch => self.launch(opening, asked),
            Ask::Begin => self.begin(),
            Ask::SetExceptions => Ok(After::Nothing),
            Ask::Terminate => Ok(After::Terminated),
            Ask::Disconnect => Ok(After::Quit),
            Ask::Unknown => Err(Refusal::Words(NO_SUCH_REQUEST)),
            _ => obey_in(&mut self.opened, ask, asked, message),
        }
    }

    // Opens the program and the log that are named.
    fn launch<P: Opening>(&mut self, opening: &P, asked: &Asked<'_>) -> Result<After, Refusal> {
        if self.opened.is_some() {
            return Err(Refusal::Words("a program is launched already"));
        }
        let opened = open_asked(opening, self.alloc, asked)?;
        self.hold(opened);
        self.stops_at_entry = asked.flag("stopOnEntry", true);
        Ok(After::Initialized)
    }

    fn hold(&mut self, opened: Opened) {
        self.opened = Some(opened);
    }

    // The editor has set its breakpoints.
    fn begin(&mut self) -> Result<After, Refusal> {
        let stops_at_entry = self.stops_at_entry;
        begin_in(&mut self.opened, stops_at_entry)
    }
}

// The answer to `initialize`, where the editor counts lines and names files as is done here.
fn tell_capabilities(asked: &Asked<'_>, message: &mut Message) -> Result<(), Refusal> {
    match unlike_here(asked) {
        Some(words) => Err(Refusal::Words(words)),
        None => told(put_capabilities(message)),
    }
}

// The program and the log that are named.
fn open_asked<P: Opening>(
    opening: &P,
    alloc: Global,
    asked: &Asked<'_>,
) -> Result<Opened, Refusal> {
    let Some(program) = asked.text("program") else {
        return Err(Refusal::Words(NO_NAMES));
    };
    match asked.text("log") {
        None => Err(Refusal::Words(NO_NAMES)),
        Some(log) => opened_or_refused(opening.open(alloc, program, log)),
    }
}

fn opened_or_refused(opened: Result<Opened, Unopened>) -> Result<Opened, Refusal> {
    match opened {
        Err(unopened) => Err(refusal_of(unopened)),
        Ok(opened) => Ok(opened),
    }
}

fn refusal_of(unopened: Unopened) -> Refusal {
    match unopened {
        Unopened::Memory => Refusal::Memory,
        Unopened::Refused(line) => Refusal::Text(line),
    }
}

// Does what is asked where something was launched.
fn obey_in(
    opened: &mut Option<Opened>,
    ask: Ask,
    asked: &Asked<'_>,
    message: &mut Message,
) -> Result<After, Refusal> {
    match opened {
        None => Err(Refusal::Words(NO_PROGRAM)),
        Some(opened) => opened.obey(ask, asked, message),
    }
}

// The program stands still, before its first choice or where one of the next has a breakpoint.
fn begin_in(opened: &mut Option<Opened>, stops_at_entry: bool) -> Result<After, Refusal> {
    match opened {
        None => Err(Refusal::Words(NO_PROGRAM)),
        Some(_) if stops_at_entry => Ok(After::Stopped(Stop::Entry)),
        Some(opened) => stopped(opened.begin()),
    }
}
