//! All choices of a schedule are made once, and what is kept of that.

ghost use Rattle.std.specs.Prelude.{◌≡◌, ◌<◌, ◌+◌, map, length, IfErr, IfOk, OnOk};
ghost use Rattle.cilk_machine.specs.sched.Words.{choice_of};
ghost use Rattle.cilk_log_replay.specs.ReplayFaults.{IsFaultOf, IsFaultOfAll};
ghost use Rattle.cilk_log_replay.specs.Tape.{Tape};
ghost use Rattle.cilk_log_replay.specs.Tracks.{Begins, IsTrack, KeepsOne};

use crate::replay_fault::ReplayFault;
use crate::replaying::{make_again, opened};
use crate::stopping::action_of;
use cilk_machine::{Checkpoint, Choice, Loaded, Machine};
use std::alloc::Global;

/// A checkpoint is kept behind each of so many choices.
pub(crate) const EACH: usize = 1000;

/// What is kept of the choices as they are made.
pub(crate) struct Track {
    /// Behind all that were made. It tells what had ended, and what was printed, at each checkpoint.
    pub last: Machine,
    /// The first is before any choice.
    pub checkpoints: Vec<Checkpoint>,
    /// For each choice the number of its action, and 0 where it has none.
    pub actions: Vec<u32>,
}

// To drop it elsewhere is to call this, and its fields' drops are proved here alone.
impl Drop for Track {
    fn drop(self) {
        let Track {
            last: _last,
            checkpoints: _checkpoints,
            actions: _actions,
        } = self;
    }
}

/// All choices are made, on a track on which none was.
pub(crate) fn follow_all(track: &mut Track, choices: &[Choice]) -> Result<(), ReplayFault>
    requires { track.old.last.choices ≡ 0 }
    ensures all { OnOk result ((t : Tape) → t.choices ≡ map choice_of choices.now
        → IsTrack t 0 track.old.last track.old.checkpoints.items track.old.actions.items
        → IsTrack t (length choices.now) track.new.last track.new.checkpoints.items track.new.actions.items) }
    ensures told { IfErr result (λ why. (t : Tape) → t.choices ≡ map choice_of choices.now
        → IsTrack t 0 track.old.last track.old.checkpoints.items track.old.actions.items → IsFaultOf t why) }
{
    for made in 0..choices.len() {
        match follow(track, choices, made) {
            Ok(()) => {}
            Err(fault) => return Err(fault),
        }
    }
    Ok(())
}

// One more choice is made.
fn follow(track: &mut Track, choices: &[Choice], made: usize) -> Result<(), ReplayFault>
    requires made { track.old.last.choices ≡ made }
    requires room { made < length choices.now }
    ensures next { OnOk result ((t : Tape) → t.choices ≡ map choice_of choices.now
        → IsTrack t made track.old.last track.old.checkpoints.items track.old.actions.items
        → IsTrack t (made + 1) track.new.last track.new.checkpoints.items track.new.actions.items) }
    ensures made { OnOk result (track.new.last.choices ≡ made + 1) }
    ensures told { IfErr result (λ why. (t : Tape) → t.choices ≡ map choice_of choices.now
        → IsTrack t made track.old.last track.old.checkpoints.items track.old.actions.items → IsFaultOf t why) }
{
    match make_again(&mut track.last, choices, made) {
        Err(fault) => Err(fault),
        Ok(did) => match track.actions.push(action_of(did)) {
            Err(_) => Err(ReplayFault::Memory),
            Ok(()) => {
                if (made + 1) % EACH == 0 {
                    keep(&track.last, &mut track.checkpoints)
                } else {
                    Ok(())
                }
            }
        },
    }
}

// A checkpoint more, of where the last machine stands.
fn keep(last: &Machine, checkpoints: &mut Vec<Checkpoint>) -> Result<(), ReplayFault>
    ensures one { OnOk result (KeepsOne last.now checkpoints.old.items checkpoints.new.items) }
    ensures memory { IfErr result (λ why. why ≡ ReplayFault.Memory) }
{
    match last.checkpoint() {
        Err(_) => Err(ReplayFault::Memory),
        Ok(checkpoint) => match checkpoints.push(checkpoint) {
            Err(_) => Err(ReplayFault::Memory),
            Ok(()) => Ok(()),
        },
    }
}

/// Nothing was made yet: a machine of the program, which keeps no records, with a checkpoint of its own.
pub(crate) fn first_track(
    alloc: Global,
    program: Loaded,
    workers: u8,
    count: usize,
) -> Result<Track, ReplayFault>
    ensures none { IfOk result (λ track. track.last.choices ≡ 0) }
    ensures track { IfOk result (λ track. Begins program workers track.last track.checkpoints.items track.actions.items) }
    ensures told { IfErr result (IsFaultOfAll program workers) }
{
    match opened(alloc, program, workers) {
        Err(fault) => Err(fault),
        Ok(last) => {
            let mut track = Track {
                last,
                checkpoints: Vec::new(alloc),
                actions: Vec::new(alloc),
            };
            if track.actions.reserve(count).is_err() {
                return Err(ReplayFault::Memory);
            }
            match keep(&track.last, &mut track.checkpoints) {
                Err(fault) => Err(fault),
                Ok(()) => Ok(track),
            }
        }
    }
}
