//! `races_of`: the races of a recorded schedule, told.

ghost use Rattle.std.specs.Prelude.{◌≡◌, ◌++◌, IfErr, IfOk, flat_map, length, string_bytes, true};
ghost use Rattle.std.specs.List.{All};
ghost use Rattle.cilk_log_replay.specs.log.Naming.{is_of};
ghost use Rattle.cilk_log_replay.specs.machine.labelled.Bodies.{label};
ghost use Rattle.cilk_log_replay.specs.machine.syntax.Appends.{Appends};
ghost use Rattle.cilk_log_replay.specs.machine.syntax.ProgramText.{program_text};
ghost use Rattle.cilk_log_replay.specs.ReplayFaults.{IsNamedFaultOf};
ghost use Rattle.cilk_log_replay.specs.Tape.{Tape, tape_of};
ghost use Rattle.cilk_races.specs.Paired.{Within};
ghost use Rattle.cilk_races.specs.Found.{HoldsRun, told_in};
ghost use Rattle.cilk_races.specs.Raced.{AreRacesOf};
ghost use Rattle.cilk_races.specs.Met.{AreWithin, meetings_in};
ghost use Rattle.cilk_races.specs.RacesText.{IsRacesText, count_line, meeting_text};

use crate::meeting::Meeting;
use crate::races::{Races, races_of_run};
use crate::relation::Relation;
use crate::reversing::meetings_of;
use crate::telling::{count_among, put_counts, put_meetings};
use cilk_log_replay::{Choice, Loaded, Log, Memory, ReplayFault};
use std::alloc::Global;

/// What is told of the races of a run.
#[derive(Drop)]
pub struct ToldRaces {
    pub text: String,
    /// How many races are told.
    pub races: usize,
}

/// Makes the choices of a recorded schedule again, and tells the races of the run, each with how another schedule ends that takes its accesses in
/// the other order, where one is found. That the schedule is of another program is told first, and then what `play` tells.
pub fn races_of(alloc: Global, program: Loaded, log: &Log) -> Result<ToldRaces, ReplayFault>
    ensures races { IfOk result (λ r. IsRacesText (tape_of program log.now.workers log.now.choices) r.races (string_bytes r.text)) }
    ensures own { IfOk result (λ _. is_of log.now.program (program_text program) ≡ true) }
    ensures told { IfErr result (IsNamedFaultOf log.now.program (tape_of program log.now.workers log.now.choices)) }
{
    match races_of_run(alloc, program, log) {
        Err(fault) => Err(fault),
        Ok(races) => {
            let told = told_of(alloc, &races, log.workers, log.choices.as_slice());
            drop(races);
            match told {
                Ok(told) => Ok(told),
                Err(_) => Err(ReplayFault::Memory),
            }
        }
    }
}

fn told_of(
    alloc: Global,
    races: &Races,
    workers: u8,
    choices: &[Choice],
) -> Result<ToldRaces, Memory>
    requires { All (Within (length races.now.touches.items)) races.now.entries.items }
    ensures { IfOk result (λ r. (t : Tape) → HoldsRun t races.now → AreRacesOf t (told_in races.now)
        → IsRacesText t r.races (string_bytes r.text)) }
{
    let meetings = meetings_of(alloc, races, workers, choices)?;
    let text = text_of(alloc, races, meetings.as_slice());
    drop(meetings);
    match text {
        Err(memory) => Err(memory),
        Ok(text) => Ok(ToldRaces {
            text,
            races: count_among(races, Relation::Race),
        }),
    }
}

fn text_of(alloc: Global, races: &Races, meetings: &[Meeting]) -> Result<String, Memory>
    requires { All (AreWithin (length races.now.touches.items)) meetings.now }
    ensures { IfOk result (λ text. string_bytes text
        ≡ flat_map (meeting_text (label races.now.machine.program)) (meetings_in races.now.rows races.now.touches.items meetings.now)
        ++ count_line (told_in races.now)) }
{
    let mut out = String::new(alloc);
    match put_all(&mut out, races, meetings) {
        Ok(()) => Ok(out),
        Err(memory) => {
            drop(out);
            Err(memory)
        }
    }
}

fn put_all(out: &mut String, races: &Races, meetings: &[Meeting]) -> Result<(), Memory>
    requires { All (AreWithin (length races.now.touches.items)) meetings.now }
    ensures { Appends result out.old out.new
        (flat_map (meeting_text (label races.now.machine.program)) (meetings_in races.now.rows races.now.touches.items meetings.now)
        ++ count_line (told_in races.now)) }
{
    put_meetings(out, races, meetings)?;
    put_counts(out, races)
}
