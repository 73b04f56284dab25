//! A debugger of recorded schedules.

mod work;

use crate::equal::equal;
use cilk_commands::ready_of;
use cilk_debug::{DebugFault, Debugger, read_log};
use std::alloc::Global;
use std::process::Abort;

const SHORT: &str = "cilk int main(void) { return 0; }";

// A debugger of the program and the recorded schedule of two texts.
fn opened(
    rt: &impl Abort,
    alloc: Global,
    program: &str,
    recorded: &str,
) -> Result<Debugger, DebugFault> {
    let log = read_log(alloc, recorded.as_bytes()).expect(rt, recorded);
    let program = ready_of(alloc, program.as_bytes()).expect(rt, "a program");
    Debugger::new(alloc, program, log)
}

pub(crate) fn debugger(rt: &impl Abort, alloc: Global, program: &str, recorded: &str) -> Debugger {
    opened(rt, alloc, program, recorded).expect(rt, "a debugger")
}

// What a move answers.
fn told(rt: &impl Abort, alloc: Global, answer: Result<(), DebugFault>) -> String {
    match answer {
        Ok(()) => String::from_str(alloc, "ok").expect(rt, "memory"),
        Err(fault) => format!(in alloc; "{fault}").expect(rt, "memory"),
    }
}

// What `Display` writes, of which the program writes another line.
#[test]
fn first_choice_that_is_not_possible(rt: HostRuntime) {
    for (recorded, wanted) in [
        ("cilklog 1\nworkers 255\nend 0\n", "B0 Workers"),
        ("cilklog 1\nworkers 0\n1 pop\nend 1\n", "B0 Workers"),
        (
            "cilklog 1\nworkers 1\n0 step\nend 1\n",
            "B1 BadChoice 1 M2 NoWorker",
        ),
        (
            "cilklog 1\nworkers 1\n1 steal 1\nend 1\n",
            "B1 BadChoice 1 M2 NoWorker",
        ),
        (
            "cilklog 1\nworkers 1\n1 pop\nend 1\n",
            "B1 BadChoice 1 M4 Busy",
        ),
        (
            "cilklog 1\nworkers 1\n1 step\n1 step\nend 2\n",
            "B1 BadChoice 2 M1 Over",
        ),
        (
            "cilklog 2\nworkers 255\n\
             program ba7816bf8f01cfea414140de5dae2223b00361a396177a9cb410ff61f20015ad\n\
             1 pop\nend 1\n",
            "G5 OtherProgram",
        ),
    ] {
        match opened(&rt, rt.alloc(), SHORT, recorded) {
            Ok(_) => equal(&rt, recorded, wanted),
            Err(fault) => {
                let told = format!(in rt.alloc(); "{fault}").expect(&rt, "memory");
                equal(&rt, told.as_str(), wanted);
            }
        }
    }
}
