//! A recorded schedule, all choices of which were made once, with a machine that stands somewhere among them.

ghost use Rattle.std.specs.Prelude.{◌≡◌, ◌≤◌, IfErr, IfOk, IfSome, [], length, false, Err};
ghost use Rattle.cilk_machine.specs.model.Run.{is_crew};
ghost use Rattle.cilk_log_replay.specs.Breaks.{last_stop, next_stop};
ghost use Rattle.cilk_log_replay.specs.Going.{GoesAll};
ghost use Rattle.cilk_log_replay.specs.ReplayFaults.{IsFaultOf};
ghost use Rattle.cilk_log_replay.specs.Tape.{tape_of, IsAt, IsPlayable};
ghost use Rattle.cilk_log_replay.specs.Tracks.{IsTrack};

mod reaching;

use crate::finding::{last_met, next_met};
use crate::replay_fault::ReplayFault;
use crate::replaying::is_crew;
use crate::track::{Track, first_track, follow_all};
use crate::unplayable::Unplayable;
use cilk_log::Log;
use cilk_machine::{Loaded, Machine, MachineFault, Memory};
use std::alloc::{AllocError, Global};
use std::marker::Model;

/// A program and its schedule, with a machine behind some of its choices.
pub struct Player {
    program: Loaded,
    log: Log,
    machine: Machine,
    /// Another machine of the same schedule, which stands anywhere in it. A move that may fail half the way is made with this one.
    spare: Machine,
    track: Track,
}

// To drop it elsewhere is to call this, and its fields' drops are proved here alone.
impl Drop for Player {
    fn drop(self) {
        let Player {
            program: _program,
            log: _log,
            machine: _machine,
            spare: _spare,
            track: _track,
        } = self;
    }
}

impl Model for Player {
    ghost use Rattle.std.specs.Prelude.{length};
    ghost use Rattle.cilk_log_replay.specs.Tape.{tape_of};
    ghost use Rattle.cilk_log_replay.specs.Playing.{Playing, IsPlayer};
    ghost use Rattle.cilk_machine.specs.syntax.ProgramCoding.{coded_Program};
    ghost use Rattle.std.specs.Coded.{codes};

    ghost Value = { Playing };

    ghost coded = { Prim.hlevel (codes, coded_Program) };

    ghost view = { λ p.
        record { tape = tape_of p.program p.log.workers p.log.choices; place = p.machine.choices; kept = length p.machine.past } };

    ghost invariant = { λ p.
        IsPlayer (tape_of p.program p.log.workers p.log.choices) p.machine p.spare p.track.last p.track.checkpoints.items p.track.actions.items };
}

impl Player {
    /// Before any choice, once each of them was made. The number of workers is looked at before any memory is asked for. A log that cannot be
    /// replayed is handed back.
    pub fn new(alloc: Global, program: Loaded, log: Log) -> Result<Player, Unplayable>
        ensures tape { IfOk result (λ p. p.tape ≡ tape_of program log.workers log.choices) }
        ensures start { IfOk result (λ p. p.place ≡ 0) }
        ensures none { IfOk result (λ p. p.kept ≡ 0) }
        ensures whole { IfOk result (λ p. IsPlayable p.tape) }
        ensures told { IfErr result (λ it. IsFaultOf (tape_of program log.workers log.choices) it.fault) }
        ensures back { IfErr result (λ it. it.log ≡ log) }
        ensures crew { is_crew log.workers ≡ false → result ≡ Err (record { log = log; fault = ReplayFault.Workers }) }
    {
        // `Debugger::begin` has asked, before it takes memory; here it is asked since this promises it too.
        if !is_crew(log.workers) {
            return Err(Unplayable {
                log,
                fault: ReplayFault::Workers,
            });
        }
        match tracked(alloc, &program, &log) {
            Err(fault) => {
                drop(program);
                Err(Unplayable { log, fault })
            }
            Ok(track) => match machines(alloc, &program, log.workers) {
                Err(_) => {
                    drop(program);
                    drop(track);
                    Err(Unplayable {
                        log,
                        fault: ReplayFault::Memory,
                    })
                }
                Ok((machine, spare)) => Ok(Player {
                    program,
                    log,
                    machine,
                    spare,
                    track,
                }),
            },
        }
    }

    /// The program with its tables.
    pub fn program(&self) -> &Loaded
        ensures { result.now ≡ self.now.tape.program }
    {
        &self.program
    }

    /// How many choices there are.
    pub fn length(&self) -> usize
        ensures { result ≡ length self.now.tape.choices }
    {
        self.log.choices.len()
    }

    /// Behind how many choices the machine stands.
    pub fn place(&self) -> usize
        ensures value { result ≡ self.now.place }
        ensures within { result ≤ length self.now.tape.choices }
    {
        self.machine.choices() as usize
    }

    /// The machine.
    pub fn machine(&self) -> &Machine
        ensures { IsAt self.now.tape self.now.place result.now }
    {
        &self.machine
    }

    /// The position behind the next choice from here on that does something where a breakpoint is set.
    pub fn next_stop(&self, marks: &[bool], from: usize) -> Option<usize>
        requires { from ≤ length self.now.tape.choices }
        ensures stop { result ≡ next_stop self.now.tape marks.now from }
        ensures within { IfSome result (λ k. k ≤ length self.now.tape.choices) }
    {
        next_met(self.track.actions.as_slice(), marks, from)
    }

    /// The last position before this one behind such a choice.
    pub fn last_stop(&self, marks: &[bool], from: usize) -> Option<usize>
        requires { from ≤ length self.now.tape.choices }
        ensures stop { result ≡ last_stop self.now.tape marks.now from }
        ensures within { IfSome result (λ k. k ≤ length self.now.tape.choices) }
    {
        last_met(self.track.actions.as_slice(), marks, from.saturating_sub(1))
    }
}

// All choices are made once.
fn tracked(alloc: Global, program: &Loaded, log: &Log) -> Result<Track, ReplayFault>
    ensures track { IfOk result (λ track. IsTrack (tape_of program.now log.now.workers log.now.choices) (length log.now.choices)
        track.last track.checkpoints.items track.actions.items) }
    ensures told { IfErr result (IsFaultOf (tape_of program.now log.now.workers log.now.choices)) }
{
    match program.copy() {
        Err(_) => Err(ReplayFault::Memory),
        Ok(copy) => match first_track(alloc, copy, log.workers, log.choices.len()) {
            Err(fault) => Err(fault),
            Ok(mut track) => match follow_all(&mut track, log.choices.as_slice()) {
                Err(fault) => Err(fault),
                Ok(()) => Ok(track),
            },
        },
    }
}

// Two machines of the program before any choice, which keep records.
fn machines(alloc: Global, program: &Loaded, workers: u8) -> Result<(Machine, Machine), Memory>
    ensures goes { IfOk result (λ both. GoesAll program.now workers (both.0)) }
    ensures spare { IfOk result (λ both. GoesAll program.now workers (both.1)) }
    ensures start { IfOk result (λ both. (both.0).choices ≡ 0) }
    ensures none { IfOk result (λ both. (both.0).past ≡ []) }
{
    match with_records(alloc, program, workers) {
        Err(memory) => Err(memory),
        Ok(machine) => match with_records(alloc, program, workers) {
            Err(memory) => {
                drop(machine);
                Err(memory)
            }
            Ok(spare) => Ok((machine, spare)),
        },
    }
}

// A machine of a copy of the program before any choice, which keeps records.
fn with_records(alloc: Global, program: &Loaded, workers: u8) -> Result<Machine, Memory>
    ensures goes { IfOk result (GoesAll program.now workers) }
    ensures start { IfOk result (λ m. m.choices ≡ 0) }
    ensures none { IfOk result (λ m. m.past ≡ []) }
{
    match program.copy() {
        Err(memory) => Err(memory),
        Ok(copy) => match Machine::with_undo(alloc, copy, workers) {
            Ok(machine) => Ok(machine),
            Err(MachineFault::Workers) => Err(Memory::from(AllocError)),
            Err(MachineFault::Memory(memory)) => Err(memory),
        },
    }
}
