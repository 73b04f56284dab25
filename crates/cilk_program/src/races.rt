//! The subcommand `races`: the races of a recorded schedule, or of a run by one worker.

ghost use Rattle.std.specs.Prelude.{◌≡◌, ◌≢◌, true, string_bytes};
ghost use Rattle.cilk_program_runs.specs.commands.Status.{is_answer};
ghost use Rattle.cilk_program.specs.Racing.{status_of_races};

use cilk_program_runs::{Answered, Answering, Failure, Loaded, Status, TapeAnswering, run_told};
use cilk_races::{Log, ReplayFault, ToldRaces, races_of};
use std::alloc::Global;

/// The races of a schedule.
pub struct Races;

impl TapeAnswering for Races {
    ghost use Rattle.cilk_program.specs.Racing.{AreRaces};

    ghost tells = { AreRaces };

    fn tell(alloc: Global, program: Loaded, log: &Log) -> Result<Answered, ReplayFault> {
        match races_of(alloc, program, log) {
            Ok(told) => Ok(answered(told)),
            Err(fault) => Err(fault),
        }
    }
}

impl Answering for Races {
    ghost use Rattle.cilk_program.specs.Racing.{AreRaces};
    ghost use Rattle.cilk_program_runs.specs.OnTapes.{IsOfRun};

    ghost are = { λ text status answer. IsOfRun AreRaces text status answer };

    fn answer(alloc: Global, text: &[u8]) -> Result<Answered, Failure> {
        run_told::<Races>(alloc, text)
    }

    ghost short = { λ text status answer is. is.ready.is.text.short };
}

fn answered(told: ToldRaces) -> Answered
    ensures text { string_bytes result.text ≡ string_bytes told.text }
    ensures status { result.status ≡ status_of_races told.races }
    ensures answer { is_answer result.status ≡ true }
    ensures untrapped { result.status ≢ Status.Trapped }
{
    let ToldRaces { text, races } = told;
    Answered {
        text,
        status: status_of(races),
    }
}

// The status that tells of so many races.
fn status_of(races: usize) -> Status
    ensures is { result ≡ status_of_races races }
    ensures answer { is_answer result ≡ true }
    ensures untrapped { result ≢ Status.Trapped }
{
    if races == 0 {
        Status::Done
    } else {
        Status::Several
    }
}
