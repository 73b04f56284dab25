//! From a recorded schedule to its picture.

ghost use Rattle.std.specs.Prelude.{◌≡◌, ◌≤◌, true, IfOk, IfErr, length};
ghost use Rattle.cilk_log_replay.specs.log.Naming.{is_of};
ghost use Rattle.cilk_log_replay.specs.machine.syntax.ProgramText.{program_text};
ghost use Rattle.cilk_log_replay.specs.ReplayFaults.{IsNamedFaultOf};
ghost use Rattle.cilk_log_replay.specs.Tape.{IsPlayable, tape_of};
ghost use Rattle.cilk_draw.specs.DrawFaults.{IsDrawFaultOf, IsOwn};

use crate::excerpt::Excerpt;
use crate::fault::DrawFault;
use crate::painter::Painter;
use crate::picture::Picture;
use cilk_log_replay::{Choice, Loaded, Log, ReplayFault, play, play_all};
use std::alloc::Global;

/// How many columns a picture has at most.
const MOST: usize = 400;

/// The picture of a part of a recorded schedule. That the schedule is of another program is told first, and then what `play_all` tells of all its
/// choices, and at last that its columns are too many.
pub fn draw(
    alloc: Global,
    program: &Loaded,
    log: &Log,
    excerpt: Excerpt,
) -> Result<Picture, DrawFault>
    ensures own { IfOk result (λ _. is_of log.now.program (program_text program.now) ≡ true) }
    ensures whole { IfOk result (λ _. IsPlayable (tape_of program.now log.now.workers log.now.choices)) }
    ensures told { IfErr result (IsDrawFaultOf log.now.program (tape_of program.now log.now.workers log.now.choices)) }
{
    match try_all(alloc, program, log) {
        Err(fault) => Err(DrawFault::Replay(fault)),
        Ok(()) => draw_choices(alloc, program, log, excerpt),
    }
}

// All choices are made once.
fn try_all(alloc: Global, program: &Loaded, log: &Log) -> Result<(), ReplayFault>
    ensures own { IfOk result (λ _. is_of log.now.program (program_text program.now) ≡ true) }
    ensures whole { IfOk result (λ _. IsPlayable (tape_of program.now log.now.workers log.now.choices)) }
    ensures told { IfErr result (IsNamedFaultOf log.now.program (tape_of program.now log.now.workers log.now.choices)) }
{
    match program.copy() {
        Err(_) => Err(ReplayFault::Memory),
        Ok(copy) => match play_all(alloc, copy, log) {
            Err(fault) => Err(fault),
            Ok(machine) => {
                drop(machine);
                Ok(())
            }
        },
    }
}

// The same of a schedule whose choices can be made again.
fn draw_choices(
    alloc: Global,
    program: &Loaded,
    log: &Log,
    excerpt: Excerpt,
) -> Result<Picture, DrawFault>
    ensures { IfErr result IsOwn }
{
    let choices = log.choices.as_slice();
    let begin = excerpt.begin(choices.len());
    let end = excerpt.end(choices.len());
    match begun(alloc, program, log.workers, choices, begin) {
        Err(fault) => Err(fault),
        Ok(painter) => match paint(alloc, painter, choices, begin, end) {
            Err(fault) => Err(fault),
            Ok(painter) => match painter.footer(alloc) {
                Err(_) => {
                    drop(painter);
                    Err(no_memory())
                }
                Ok(footer) => Ok(painter.finish(alloc, footer, log.workers, choices.len(), begin)),
            },
        },
    }
}

// The first `begin` choices are made, and nothing is drawn yet.
fn begun(
    alloc: Global,
    program: &Loaded,
    workers: u8,
    choices: &[Choice],
    begin: usize,
) -> Result<Painter, DrawFault>
    requires { begin ≤ length choices.now }
    ensures { IfErr result IsOwn }
{
    match program.copy() {
        Err(_) => Err(no_memory()),
        Ok(copy) => match play(alloc, copy, workers, choices, begin) {
            Err(_) => Err(no_memory()),
            Ok(machine) => match Painter::new(alloc, machine) {
                Err(_) => Err(no_memory()),
                Ok(painter) => Ok(painter),
            },
        },
    }
}

// The choices behind the first `begin`, up to the first `end`, are made and drawn.
fn paint(
    alloc: Global,
    painter: Painter,
    choices: &[Choice],
    begin: usize,
    end: usize,
) -> Result<Painter, DrawFault>
    requires { end ≤ length choices.now }
    ensures { IfErr result IsOwn }
{
    let mut painter = painter;
    for made in begin..end {
        match painter.advance(alloc, choices[made]) {
            Err(_) => return Err(no_memory()),
            Ok(()) => {}
        }
        if MOST < painter.width() {
            return Err(DrawFault::TooLong);
        }
    }
    Ok(painter)
}

fn no_memory() -> DrawFault
    ensures { IsOwn result }
{
    DrawFault::Replay(ReplayFault::Memory)
}
