//! Where the words of the command line are obeyed: a task is done, or help, the version or what is wrong is written.

ghost use Rattle.std.specs.Prelude.{◌≡◌, ◌≢◌, [], true, false};
ghost use Rattle.cilk_program_runs.specs.commands.Telling.{WritesFailure};
ghost use Rattle.cilk_program_runs.specs.commands.Status.{is_answer};
ghost use Rattle.cilk_words.specs.CommandLine.{texts_of, wanted_by};
ghost use Rattle.cilk_program.specs.Ends.{Ends, IsShown, Shows, explains_trap, opens_session};
ghost use Rattle.cilk_program_runs.specs.Saying.{ExplainsTrap, tells_trap};
ghost use Rattle.cilk_program.specs.Task.{Does, Fails, Leaves, is_session};

use crate::dap::dap_text;
use crate::task::perform;
use cilk_program_runs::{Failure, Status, Streams, Texts};
use cilk_words::{NoRequest, Request, Task, request_in};
use std::alloc::Global;
use std::io::Write;
use std::sync::Wait;
use std::thread::Threads;

/// Does what the words ask for, the first of which is the program's own name: a task; or help, the version or what is wrong with them is written.
pub fn dispatch<H: Threads + Wait + Sync, T: Texts, O: Write, E: Write>(
    rt: &H,
    alloc: Global,
    words: &[String],
    texts: &T,
    streams: &mut Streams<O, E>,
) -> Status
    ensures ends { Ends (texts_of words.now) (T.held texts.now) (T.entered texts.now) result
        (O.contents streams.old.output) (O.contents streams.new.output) (E.contents streams.old.errors) (E.contents streams.new.errors) }
    ensures quiet { is_answer result ≡ true → explains_trap (texts_of words.now) result ≡ false → streams.new.errors ≡ streams.old.errors }
    ensures kept { opens_session (texts_of words.now) ≡ false
        → is_answer result ≡ false → result ≢ Status.CannotWrite → streams.new.output ≡ streams.old.output }
    ensures unanswered { result ≡ Status.Refused → streams.new.output ≡ streams.old.output }
{
    match request_in(alloc, words) {
        Ok(request) => serve_or_open(rt, alloc, &request, texts, streams),
        Err(refusal) => tell(&refusal, streams),
    }
}

// Does what is asked for: an editor is answered, which names its texts later; and for all else the text of the program is opened.
fn serve_or_open<H: Threads + Wait + Sync, T: Texts, O: Write, E: Write>(
    rt: &H,
    alloc: Global,
    request: &Request<'_>,
    texts: &T,
    streams: &mut Streams<O, E>,
) -> Status
    ensures done { is_answer result ≡ true → Does (T.held texts.now request.now.name.now) (T.held texts.now) (T.entered texts.now)
        (O.contents streams.old.output) (O.contents streams.new.output) (wanted_by request.now.task) result }
    ensures told { is_answer result ≡ false → Fails (T.held texts.now request.now.name.now) (T.held texts.now)
        (E.contents streams.old.errors) (E.contents streams.new.errors) (wanted_by request.now.task)
        request.now.explain request.now.name.now result }
    ensures begun { is_answer result ≡ false → Leaves (T.held texts.now request.now.name.now) (T.held texts.now) (T.entered texts.now)
        (O.contents streams.old.output) (O.contents streams.new.output) (wanted_by request.now.task) result }
    ensures usage { result ≢ Status.Usage }
    ensures explained { tells_trap request.now.explain result ≡ true → ExplainsTrap request.now.name.now
        (T.held texts.now request.now.name.now) (O.contents streams.old.output) (O.contents streams.new.output)
        (E.contents streams.old.errors) (E.contents streams.new.errors) }
    ensures quiet { is_answer result ≡ true → tells_trap request.now.explain result ≡ false → streams.new.errors ≡ streams.old.errors }
    ensures kept { is_session (wanted_by request.now.task) ≡ false
        → is_answer result ≡ false → result ≢ Status.CannotWrite → streams.new.output ≡ streams.old.output }
    ensures unanswered { result ≡ Status.Refused → streams.new.output ≡ streams.old.output }
{
    match request.task {
        Task::Serve => dap_text(alloc, request.name, texts, streams),
        _ => open_and_perform(rt, alloc, request, texts, streams),
    }
}

// Opens the text of the program, and does with it what is asked for.
fn open_and_perform<H: Threads + Wait + Sync, T: Texts, O: Write, E: Write>(
    rt: &H,
    alloc: Global,
    request: &Request<'_>,
    texts: &T,
    streams: &mut Streams<O, E>,
) -> Status
    ensures done { is_answer result ≡ true → Does (T.held texts.now request.now.name.now) (T.held texts.now) (T.entered texts.now)
        (O.contents streams.old.output) (O.contents streams.new.output) (wanted_by request.now.task) result }
    ensures told { is_answer result ≡ false → Fails (T.held texts.now request.now.name.now) (T.held texts.now)
        (E.contents streams.old.errors) (E.contents streams.new.errors) (wanted_by request.now.task)
        request.now.explain request.now.name.now result }
    ensures begun { is_answer result ≡ false → Leaves (T.held texts.now request.now.name.now) (T.held texts.now) (T.entered texts.now)
        (O.contents streams.old.output) (O.contents streams.new.output) (wanted_by request.now.task) result }
    ensures usage { result ≢ Status.Usage }
    ensures explained { tells_trap request.now.explain result ≡ true → ExplainsTrap request.now.name.now
        (T.held texts.now request.now.name.now) (O.contents streams.old.output) (O.contents streams.new.output)
        (E.contents streams.old.errors) (E.contents streams.new.errors) }
    ensures quiet { is_answer result ≡ true → tells_trap request.now.explain result ≡ false → streams.new.errors ≡ streams.old.errors }
    ensures kept { is_session (wanted_by request.now.task) ≡ false
        → is_answer result ≡ false → result ≢ Status.CannotWrite → streams.new.output ≡ streams.old.output }
    ensures unanswered { result ≡ Status.Refused → streams.new.output ≡ streams.old.output }
{
    match texts.open(request.name) {
        Some(mut reader) => perform(rt, alloc, request, texts, &mut reader, streams),
        None => Failure::CannotRead.report(request.name, &mut streams.errors),
    }
}

// Help and the version go to the output, and what is wrong with the words to the errors.
fn tell<O: Write, E: Write>(refusal: &NoRequest, streams: &mut Streams<O, E>) -> Status
    ensures shows { Shows refusal.now result (O.contents streams.old.output) (O.contents streams.new.output) }
    ensures memory { refusal.now ≡ NoRequest.Memory
        → WritesFailure [] Failure.Memory [] (E.contents streams.old.errors) (E.contents streams.new.errors) }
    ensures quiet { is_answer result ≡ true → streams.new.errors ≡ streams.old.errors }
    ensures kept { is_answer result ≡ false → result ≢ Status.CannotWrite → streams.new.output ≡ streams.old.output }
{
    match refusal {
        NoRequest::Help(text) | NoRequest::Version(text) => show(text.as_str(), streams),
        NoRequest::Usage(text) => {
            let _ = streams.errors.write_all(text.as_bytes());
            Status::Usage
        }
        NoRequest::Clash(clash) => {
            let _ = streams.errors.write_all(clash.text().as_bytes());
            Status::Usage
        }
        NoRequest::Memory => Failure::Memory.report("", &mut streams.errors),
    }
}

fn show<O: Write, E: Write>(text: &str, streams: &mut Streams<O, E>) -> Status
    ensures shows { IsShown text.now result (O.contents streams.old.output) (O.contents streams.new.output) }
    ensures quiet { is_answer result ≡ true → streams.new.errors ≡ streams.old.errors }
{
    let written = match streams.output.write_all(text.as_bytes()) {
        Ok(()) => streams.output.flush(),
        Err(error) => Err(error),
    };
    match written {
        Ok(()) => Status::Done,
        Err(_) => Failure::CannotWrite.report("", &mut streams.errors),
    }
}
