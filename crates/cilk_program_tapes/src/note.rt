//! What is told behind the line of a failure about a recorded schedule.

ghost use Rattle.std.specs.Prelude.{◌≡◌, [], IfOk, string_bytes};
ghost use Rattle.cilk_log_replay.specs.log.Words.{log_of};
ghost use Rattle.cilk_program_tapes.specs.Saying.{IsFaultTold};

use crate::choice_line::choice_told;
use cilk_log_replay::{Log, Memory, ReplayFault};
use std::alloc::Global;

/// What is told behind the line of a failure, where more is asked for.
#[derive(Drop)]
pub struct Note {
    /// Whether more is asked for.
    pub is_wanted: bool,
    /// What is told; empty where there is nothing to tell.
    pub text: String,
}

impl Note {
    /// One that tells nothing yet.
    pub fn new(alloc: Global, is_wanted: bool) -> Note
        ensures wanted { result.is_wanted ≡ is_wanted }
        ensures empty { string_bytes result.text ≡ [] }
    {
        Note {
            is_wanted,
            text: String::new(alloc),
        }
    }

    /// Takes down why the choices of a log cannot be made again, if more is asked for. What memory does not suffice for is lost.
    pub fn take_down(&mut self, alloc: Global, log: &Log, fault: &ReplayFault)
        ensures { IsFaultTold self.old.is_wanted (log_of log.now) fault.now (string_bytes self.new.text) }
    {
        self.text = words_on(alloc, self.is_wanted, log, fault);
    }
}

// What memory does not suffice for is not told.
fn words_on(alloc: Global, explain: bool, log: &Log, fault: &ReplayFault) -> String
    ensures { IsFaultTold explain (log_of log.now) fault.now (string_bytes result) }
{
    match fault_told(alloc, explain, log, fault) {
        Ok(told) => told,
        Err(_) => String::new(alloc),
    }
}

fn fault_told(
    alloc: Global,
    explain: bool,
    log: &Log,
    fault: &ReplayFault,
) -> Result<String, Memory>
    ensures { IfOk result (λ told. IsFaultTold explain (log_of log.now) fault.now (string_bytes told)) }
{
    match fault {
        ReplayFault::BadChoice(number, why) if explain => choice_told(alloc, log, *number, why),
        _ => Ok(String::new(alloc)),
    }
}
