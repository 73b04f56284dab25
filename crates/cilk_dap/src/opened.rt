//! A program that an editor debugs: where it stands, and what is watched.

use crate::known::Known;
use cilk_dap_messages::SourceText;
use cilk_debug::{Debugger, Loaded, Log, ReplayFault, Unplayable};
use std::alloc::Global;

/// A program that was launched, where the first choices of a recorded schedule led it.
pub struct Opened {
    pub(crate) alloc: Global,
    pub(crate) debugger: Debugger,
    pub(crate) known: Known,
    /// The watched variables, each on a line.
    pub(crate) watched: String,
}

// To drop it elsewhere is to call this, and its fields' drops are proved here alone.
impl Drop for Opened {
    fn drop(self) {
        let Opened {
            alloc: _,
            debugger: _debugger,
            known: _known,
            watched: _watched,
        } = self;
    }
}

impl Opened {
    /// Before any choice of a recorded schedule of the program, whose text is this. A schedule that cannot be replayed is handed back.
    pub fn new(
        alloc: Global,
        program: Loaded,
        log: Log,
        source: SourceText<'_>,
    ) -> Result<Opened, Unplayable> {
        match Known::of(alloc, &program, log.choices.as_slice(), source) {
            Err(_) => {
                drop(program);
                Err(Unplayable {
                    log,
                    fault: ReplayFault::Memory,
                })
            }
            Ok(known) => match Debugger::open(alloc, program, log) {
                Err(unplayable) => {
                    drop(known);
                    Err(unplayable)
                }
                Ok(debugger) => Ok(Opened {
                    alloc,
                    debugger,
                    known,
                    watched: String::new(alloc),
                }),
            },
        }
    }
}
