//! From a task to the subcommand that does it, with the texts that it reads and the logs that it writes.

ghost use Rattle.std.specs.Prelude.{◌≡◌, ◌≢◌, true, false};
ghost use Rattle.cilk_program_runs.specs.commands.Status.{is_answer};
ghost use Rattle.cilk_words.specs.CommandLine.{wanted_by};
ghost use Rattle.cilk_program_runs.specs.Saying.{ExplainsTrap, tells_trap};
ghost use Rattle.cilk_program.specs.Task.{Does, Fails, Leaves, is_session};

use crate::dap::dap_text;
use crate::draw::draw_named;
use crate::draw_task::DrawTask;
use crate::measure::Numbers;
use crate::races::Races;
use cilk_program_runs::{
    ExploreTask, FileNames, LogTask, RunTask, Status, Streams, TapeTask, Texts, check_text,
    debug_named, explore_named, print_text, replay_named, run_as_asked, tell_as_asked,
};
use cilk_words::{Request, Task};
use std::alloc::Global;
use std::io::{Read, Write};
use std::sync::Wait;
use std::thread::Threads;

/// Does what is asked for to the text that the reader holds.
pub fn perform<H: Threads + Wait + Sync, T: Texts, R: Read, O: Write, E: Write>(
    rt: &H,
    alloc: Global,
    request: &Request<'_>,
    texts: &T,
    reader: &mut R,
    streams: &mut Streams<O, E>,
) -> Status
    ensures done { is_answer result ≡ true → Does (R.remaining reader.old) (T.held texts.now) (T.entered texts.now)
        (O.contents streams.old.output) (O.contents streams.new.output) (wanted_by request.now.task) result }
    ensures told { is_answer result ≡ false → Fails (R.remaining reader.old) (T.held texts.now)
        (E.contents streams.old.errors) (E.contents streams.new.errors) (wanted_by request.now.task)
        request.now.explain request.now.name.now result }
    ensures begun { is_answer result ≡ false → Leaves (R.remaining reader.old) (T.held texts.now) (T.entered texts.now)
        (O.contents streams.old.output) (O.contents streams.new.output) (wanted_by request.now.task) result }
    ensures usage { result ≢ Status.Usage }
    ensures explained { tells_trap request.now.explain result ≡ true → ExplainsTrap request.now.name.now (R.remaining reader.old)
        (O.contents streams.old.output) (O.contents streams.new.output) (E.contents streams.old.errors) (E.contents streams.new.errors) }

    ensures quiet { is_answer result ≡ true → tells_trap request.now.explain result ≡ false → streams.new.errors ≡ streams.old.errors }
    ensures kept { is_session (wanted_by request.now.task) ≡ false
        → is_answer result ≡ false → result ≢ Status.CannotWrite → streams.new.output ≡ streams.old.output }
    ensures unanswered { result ≡ Status.Refused → streams.new.output ≡ streams.old.output }
{
    let Request { name, explain, .. } = *request;
    match request.task {
        Task::Print => print_text(
            alloc,
            name,
            explain,
            reader,
            &mut streams.output,
            &mut streams.errors,
        ),
        Task::Check => check_text(
            alloc,
            name,
            explain,
            reader,
            &mut streams.output,
            &mut streams.errors,
        ),
        Task::Run {
            workers,
            limit,
            log,
            seed,
            runs,
        } => {
            let task = RunTask {
                program: name,
                log,
                explain,
                workers,
                limit,
                seed,
                runs,
            };
            run_as_asked(rt, alloc, &task, texts, reader, streams)
        }
        Task::Explore {
            workers,
            limit,
            logs,
        } => {
            let task = ExploreTask {
                program: name,
                logs,
                explain,
                workers,
                limit,
            };
            explore_named(alloc, &task, texts, reader, streams)
        }
        Task::Replay { log } => {
            let names = FileNames { program: name, log };
            let task = LogTask { names, explain };
            replay_named(alloc, &task, texts, reader, streams)
        }
        Task::Measure { log } => {
            let task = TapeTask {
                program: name,
                log,
                explain,
            };
            tell_as_asked::<Numbers, T, R, O, E>(alloc, &task, texts, reader, streams)
        }
        Task::Races { log } => {
            let task = TapeTask {
                program: name,
                log,
                explain,
            };
            tell_as_asked::<Races, T, R, O, E>(alloc, &task, texts, reader, streams)
        }
        Task::Draw {
            log,
            from,
            to,
            in_lines,
        } => {
            let names = FileNames { program: name, log };
            let task = DrawTask {
                log: LogTask { names, explain },
                from,
                to,
                in_lines,
            };
            draw_named(alloc, &task, texts, reader, streams)
        }
        Task::Debug { log } => {
            let names = FileNames { program: name, log };
            let task = LogTask { names, explain };
            debug_named(alloc, &task, texts, reader, streams)
        }
        Task::Serve => dap_text(alloc, name, texts, streams),
    }
}
