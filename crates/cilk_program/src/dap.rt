//! The subcommand `dap`: an editor is answered by the Debug Adapter Protocol.

ghost use Rattle.std.specs.Prelude.{◌≡◌, ◌≢◌, true, false};
ghost use Rattle.cilk_program_runs.specs.commands.Status.{is_answer};
ghost use Rattle.cilk_program.specs.Serving.{GivesUpServing, exchange_ended};

use crate::opener::Opener;
use cilk_dap::{MessageFault, serve};
use cilk_program_runs::{Failure, FileNames, RecordFailure, Status, Streams, Texts};
use std::alloc::Global;
use std::io::Write;

/// Answers the requests that are entered to the output, until they end, or else writes the line that says why not to the errors. What the editor is told
/// is in no clause: cases see it. Each move is one of the debugger's. `name` is that of the text where one is named with the task.
pub(crate) fn dap_text<T: Texts, O: Write, E: Write>(
    alloc: Global,
    name: &str,
    texts: &T,
    streams: &mut Streams<O, E>,
) -> Status
    ensures only { is_answer result ≡ true → result ≡ Status.Done }
    ensures usage { result ≢ Status.Usage }
    ensures refused { result ≢ Status.Refused }
    ensures told { is_answer result ≡ false
        → GivesUpServing name.now result (E.contents streams.old.errors) (E.contents streams.new.errors) }
    ensures quiet { is_answer result ≡ true → streams.new.errors ≡ streams.old.errors }
{
    match exchange(alloc, texts, &mut streams.output) {
        Ok(()) => Status::Done,
        Err(fault) => give_up(fault, name, &mut streams.errors),
    }
}

// Answers the requests that are entered.
fn exchange<T: Texts, O: Write>(alloc: Global, texts: &T, out: &mut O) -> Result<(), MessageFault> {
    let mut requests = texts.commands();
    let opener = Opener { texts };
    serve(alloc, &opener, &mut requests, out)
}

// Tells why there are no answers more.
fn give_up<E: Write>(fault: MessageFault, name: &str, err: &mut E) -> Status
    ensures failed { is_answer result ≡ false }
    ensures usage { result ≢ Status.Usage }
    ensures refused { result ≢ Status.Refused }
    ensures told { GivesUpServing name.now result (E.contents err.old) (E.contents err.new) }
{
    let names = FileNames {
        program: name,
        log: "",
    };
    exchange_ended(fault).report(&names, err)
}

fn exchange_ended(fault: MessageFault) -> RecordFailure
    ensures { result ≡ exchange_ended fault }
{
    match fault {
        MessageFault::Read => RecordFailure::Commands,
        MessageFault::Write => RecordFailure::Answers,
        MessageFault::Memory => RecordFailure::Program(Failure::Memory),
    }
}
