//! How a program stands at the end of a picture: its outcome, a line for each worker and each instance, and its text.

use crate::footer::Footer;
use crate::tree_lines::tree_of;
use cilk_log_replay::{Act, Choice, End, Machine, Memory, Refusal, ViewFault, What, put_trapped};
use std::alloc::{AllocError, Global};

/// What stands below the rows of a picture that ends where the machine stands.
pub(crate) fn footer_of(alloc: Global, machine: &Machine) -> Result<Footer, Memory> {
    Ok(Footer {
        end: machine.choices(),
        ending: ending_of(alloc, machine)?,
        standing: standing_of(alloc, machine)?,
        tree: tree_of(alloc, machine)?,
        text: machine.loaded().text()?,
    })
}

// How the program stands.
fn ending_of(alloc: Global, machine: &Machine) -> Result<String, Memory> {
    let mut out = String::new(alloc);
    let end = machine.end_now()?;
    match &end {
        End::Finished(value) => write!(out, "main returned {value}")?,
        End::Trapped {
            kind,
            path,
            n,
            line,
        } => put_trapped(&mut out, *kind, path, *n, *line)?,
        End::Stuck => out.push_str("stuck")?,
        End::Limit => out.push_str("running")?,
    }
    Ok(out)
}

/// The text of a view that needs no instance.
pub(crate) fn view_text(machine: &Machine, what: &What) -> Result<String, Memory> {
    match machine.text(what) {
        Ok(text) => Ok(text),
        Err(ViewFault::Memory(memory)) => Err(memory),
        Err(ViewFault::NoInstance) => Err(no_room()),
    }
}

/// What stands for anything that cannot be.
pub(crate) fn no_room() -> Memory {
    Memory::from(AllocError)
}

// Where each worker goes on, and who has to wait.
fn standing_of(alloc: Global, machine: &Machine) -> Result<String, Memory> {
    let mut out = String::new(alloc);
    let places = view_text(machine, &What::Where)?;
    let mut worker = 0_u8;
    for line in places.as_str().lines() {
        worker = worker.saturating_add(1);
        out.push_str(line)?;
        if has_to_wait(machine, worker) {
            out.push_str(", waits")?;
        }
        out.push_str("\n")?;
    }
    Ok(out)
}

// Whether its next step has to wait for a lock.
fn has_to_wait(machine: &Machine, worker: u8) -> bool {
    let step = Choice {
        worker,
        act: Act::Step,
    };
    matches!(machine.refusal(step), Some(Refusal::Waiting))
}
