//! How a run by workers, or by a seed, ended.

ghost use Rattle.std.specs.Prelude.{◌≡◌, true, length, IfOk, IfErr};
ghost use Rattle.cilk_run.specs.choices.Words.{end_of};
ghost use Rattle.cilk_run.specs.model.End as model;
ghost use Rattle.cilk_program_tapes.specs.commands.Status.{is_answer};
ghost use Rattle.cilk_program_runs.specs.Running.{status_at};
ghost use Rattle.cilk_program_tapes.specs.Saying.{IsTrapOf};

use cilk_program_tapes::{Closing, Failure, closing_by};
use cilk_run::Run;
use std::alloc::Global;

/// The closing text of a run by workers.
pub(crate) fn closing_of_run(alloc: Global, run: &Run) -> Result<Closing, Failure>
    ensures status { IfOk result (λ closing. closing.status ≡ status_at (end_of run.now.end)) }
    ensures text { IfOk result (λ closing.
        closing.text.items ≡ model.ending run.now.output (end_of run.now.end) (length run.now.log.choices)) }
    ensures answer { IfOk result (λ closing. is_answer closing.status ≡ true) }
    ensures trap { IfOk result (λ closing. IsTrapOf closing.text.items closing.trap) }
    ensures err { IfErr result (λ why. why ≡ Failure.Memory) }
{
    let choices = run.log.choices.len() as u64;
    closing_by(alloc, run.output.as_slice(), &run.end, choices)
}
