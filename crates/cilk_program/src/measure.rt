//! The subcommand `measure`: the numbers of a recorded schedule, or of a run by one worker.

ghost use Rattle.std.specs.Prelude.{◌≡◌, true, IfErr, IfOk, string_bytes};
ghost use Rattle.cilk_program_runs.specs.commands.ProgramText.{program_text};
ghost use Rattle.cilk_races.specs.replay.ReplayFaults.{IsNamedFaultOf};
ghost use Rattle.cilk_races.specs.replay.Tape.{tape_of};
ghost use Rattle.cilk_races.specs.replay.log.Naming.{is_of};
ghost use Rattle.cilk_races.specs.Words.{numbers_of};
ghost use Rattle.cilk_races.specs.Text.{measure_text};
ghost use Rattle.cilk_program.specs.Measuring.{AreNumbers};

use cilk_program_runs::{Answered, Answering, Failure, Loaded, Status, TapeAnswering, run_told};
use cilk_races::{Log, Measure, Measured, Memory, ReplayFault, measure_all, put_measure};
use std::alloc::Global;

/// The numbers of a schedule: work, span and others.
pub struct Numbers;

impl TapeAnswering for Numbers {
    ghost use Rattle.cilk_program.specs.Measuring.{IsMeasured};

    ghost tells = { IsMeasured };

    fn tell(alloc: Global, program: Loaded, log: &Log) -> Result<Answered, ReplayFault> {
        match numbers_of(alloc, program, log) {
            Ok(text) => Ok(Answered {
                text,
                status: Status::Done,
            }),
            Err(fault) => Err(fault),
        }
    }
}

impl Answering for Numbers {
    ghost use Rattle.cilk_program.specs.Measuring.{IsMeasured};
    ghost use Rattle.cilk_program_runs.specs.OnTapes.{IsOfRun};

    ghost are = { λ text status answer. IsOfRun IsMeasured text status answer };

    fn answer(alloc: Global, text: &[u8]) -> Result<Answered, Failure> {
        run_told::<Numbers>(alloc, text)
    }

    ghost short = { λ text status answer is. is.ready.is.text.short };
}

// The text of the numbers of a recorded schedule.
fn numbers_of(alloc: Global, program: Loaded, log: &Log) -> Result<String, ReplayFault>
    ensures ok { IfOk result (λ answer. AreNumbers (tape_of program log.now.workers log.now.choices) (string_bytes answer)) }
    ensures own { IfOk result (λ _. is_of log.now.program (program_text program) ≡ true) }
    ensures told { IfErr result (IsNamedFaultOf log.now.program (tape_of program log.now.workers log.now.choices)) }
{
    let Measured { machine, measure } = match measure_all(alloc, program, log) {
        Ok(measured) => measured,
        Err(fault) => return Err(fault),
    };
    drop(machine);
    let text = text_of(alloc, &measure);
    drop(measure);
    match text {
        Ok(text) => Ok(text),
        Err(_) => Err(ReplayFault::Memory),
    }
}

fn text_of(alloc: Global, measure: &Measure) -> Result<String, Memory>
    ensures { IfOk result (λ text. string_bytes text ≡ measure_text (numbers_of measure.now)) }
{
    let mut out = String::new(alloc);
    match put_measure(&mut out, measure) {
        Ok(()) => Ok(out),
        Err(error) => {
            drop(out);
            Err(error)
        }
    }
}
