//! How a program stands whose choices are made.

ghost use Rattle.std.specs.Prelude.{◌≡◌, true, length, IfOk, IfErr};
ghost use Rattle.cilk_log_replay.specs.log.choices.Words.{end_of};
ghost use Rattle.cilk_log_replay.specs.machine.Stands.{StandsAt};
ghost use Rattle.cilk_log_replay.specs.machine.model.End as model;
ghost use Rattle.cilk_log_replay.specs.machine.model.Run.{Standing};
ghost use Rattle.cilk_commands.specs.Status.{is_answer};
ghost use Rattle.cilk_program_tapes.specs.Replaying.{ClosesAt, status_at};
ghost use Rattle.cilk_program_tapes.specs.Saying.{IsTrapOf, trap_of};

use crate::trapped::Trapped;
use cilk_commands::{Failure, Status};
use cilk_log_replay::{End, Machine, ending};
use std::alloc::Global;

/// The closing text of a run, the status that tells how it ended, and the trap, if one ended it.
#[derive(Drop)]
pub struct Closing {
    pub status: Status,
    pub trap: Option<Trapped>,
    pub text: Vec<u8>,
}

/// The closing text of a machine where it stands.
pub fn closing_of(alloc: Global, machine: &Machine) -> Result<Closing, Failure>
    ensures closes { IfOk result (λ closing. (at : Standing) → StandsAt machine.now at
        → ClosesAt machine.now at closing.status closing.text.items) }
    ensures answer { IfOk result (λ closing. is_answer closing.status ≡ true) }
    ensures trap { IfOk result (λ closing. IsTrapOf closing.text.items closing.trap) }
    ensures err { IfErr result (λ why. why ≡ Failure.Memory) }
{
    match machine.end_now() {
        Ok(end) => closing_by(alloc, machine.output(), &end, machine.choices()),
        Err(_) => Err(Failure::Memory),
    }
}

/// The closing text of what printed this and ended so, behind so many choices.
pub fn closing_by(alloc: Global, output: &[u8], end: &End, choices: u64) -> Result<Closing, Failure>
    ensures status { IfOk result (λ closing. closing.status ≡ status_at (end_of end.now)) }
    ensures text { IfOk result (λ closing. closing.text.items ≡ model.ending output.now (end_of end.now) choices) }
    ensures answer { IfOk result (λ closing. is_answer closing.status ≡ true) }
    ensures trap { IfOk result (λ closing. IsTrapOf closing.text.items closing.trap) }
    ensures err { IfErr result (λ why. why ≡ Failure.Memory) }
{
    match ending(alloc, output, end, choices) {
        Ok(text) => Ok(Closing {
            status: status_at(end),
            trap: trap_at(end),
            text,
        }),
        Err(_) => Err(Failure::Memory),
    }
}

// The status that tells how a run ended.
fn status_at(end: &End) -> Status
    ensures at { result ≡ status_at (end_of end.now) }
    ensures answer { is_answer result ≡ true }
{
    match end {
        End::Finished(_) => Status::Done,
        End::Trapped { .. } => Status::Trapped,
        End::Stuck => Status::Stuck,
        End::Limit => Status::Limit,
    }
}

// The trap that ended a run, if one did.
fn trap_at(end: &End) -> Option<Trapped>
    ensures { result ≡ trap_of end.now }
{
    match end {
        End::Trapped { kind, n, .. } => Some(Trapped { kind: *kind, n: *n }),
        _ => None,
    }
}
