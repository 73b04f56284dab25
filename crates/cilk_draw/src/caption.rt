//! What a step did, in a few words and with the value.

use crate::writing::put_writing;
use cilk_log_replay::{Action, Did, Id, Loaded, LockAction, Machine, Memory, Path, Plan};
use std::alloc::Global;

/// What a step of this plan did, behind which the machine stands. `value` is what its test came to, where that was seen.
pub(crate) fn caption_of(
    alloc: Global,
    machine: &Machine,
    plan: Option<&Plan>,
    did: &Did,
    value: Option<i32>,
) -> Result<String, Memory> {
    let mut caption = String::new(alloc);
    match plan {
        None => Ok(caption),
        Some(plan) => match put_caption(&mut caption, machine, plan, did, value) {
            Err(memory) => Err(memory),
            Ok(()) => Ok(caption),
        },
    }
}

fn put_caption(
    out: &mut String,
    machine: &Machine,
    plan: &Plan,
    did: &Did,
    value: Option<i32>,
) -> Result<(), Memory> {
    let loaded = machine.loaded();
    match plan {
        Plan::Wait | Plan::Park => put(out, "parks"),
        Plan::End => put(out, "is aborted"),
        Plan::Trap { .. } => put(out, "traps"),
        Plan::Take { child, value, .. } => put_taking(out, machine, *child, Some(*value)),
        Plan::Enter {
            child,
            arguments,
            ..
        } => put_taking(out, machine, *child, arguments.as_slice().first().copied()),
        Plan::Go { n, .. } => put_passing(out, loaded, *n, value),
        Plan::Write {
            n,
            reached,
            value,
            ..
        } => put_writing(out, loaded, *n, reached.slot, reached.index, *value),
        Plan::Call { callee, .. } => put_call(out, loaded, *callee),
        Plan::Leave { .. } => put(out, "returns"),
        Plan::Answer { n, value, .. } => put_return(out, loaded, *n, *value),
        Plan::Return { n, value } => put_return(out, loaded, *n, *value),
        Plan::Spawn { .. } => put_spawning(out, machine, did),
        Plan::Print { .. } => put(out, "prints"),
        Plan::TurnLock { n, lock, .. } => put_locking(out, loaded, *n, *lock),
        Plan::Abort { .. } => put(out, "aborts"),
    }
}

fn put(out: &mut String, words: &str) -> Result<(), Memory> {
    out.push_str(words)?;
    Ok(())
}

// The value of a child is taken, by a variable or by an inlet.
fn put_taking(
    out: &mut String,
    machine: &Machine,
    child: Id,
    value: Option<i32>,
) -> Result<(), Memory> {
    match value {
        None => out.push_str("takes ")?,
        Some(value) => write!(out, "takes {value} of ")?,
    }
    put_path(out, machine, child)
}

fn put_spawning(out: &mut String, machine: &Machine, did: &Did) -> Result<(), Memory> {
    out.push_str("spawns")?;
    match *did {
        Did::Spawned(child, _) => {
            out.push_str(" ")?;
            put_path(out, machine, child)
        }
        _ => Ok(()),
    }
}

fn put_path(out: &mut String, machine: &Machine, id: Id) -> Result<(), Memory> {
    let path = machine.path_of(id)?;
    Path::put_text(out, path.as_slice())
}

// Where nothing but the activation changes.
fn put_passing(
    out: &mut String,
    loaded: &Loaded,
    n: u32,
    value: Option<i32>,
) -> Result<(), Memory> {
    match loaded.statement(n) {
        None => Ok(()),
        Some(node) => match &node.action {
            Action::Test(_) => put_test(out, value),
            Action::Break => put(out, "breaks"),
            Action::Continue => put(out, "continues"),
            Action::Sync => put(out, "syncs"),
            _ => put(out, "does nothing"),
        },
    }
}

fn put_test(out: &mut String, value: Option<i32>) -> Result<(), Memory> {
    out.push_str("tests")?;
    match value {
        None => Ok(()),
        Some(value) => {
            write!(out, " {value}")?;
            Ok(())
        }
    }
}

// A body that ends at its brace, or by a `return` without a value, has none to tell.
fn put_return(out: &mut String, loaded: &Loaded, n: u32, value: i32) -> Result<(), Memory> {
    out.push_str("returns")?;
    if has_value(loaded, n) {
        write!(out, " {value}")?;
    }
    Ok(())
}

fn has_value(loaded: &Loaded, n: u32) -> bool {
    match loaded.statement(n) {
        None => false,
        Some(node) => matches!(&node.action, Action::Return(_)),
    }
}

fn put_call(out: &mut String, loaded: &Loaded, body: u32) -> Result<(), Memory> {
    out.push_str("calls")?;
    match loaded.body(body) {
        None => Ok(()),
        Some(body) => put_name(out, body.name.as_str()),
    }
}

fn put_name(out: &mut String, name: &str) -> Result<(), Memory> {
    out.push_str(" ")?;
    out.push_str(name)?;
    Ok(())
}

fn put_locking(out: &mut String, loaded: &Loaded, n: u32, lock: u32) -> Result<(), Memory> {
    out.push_str(deed_at(loaded, n))?;
    match loaded.locks().get(lock as usize) {
        None => Ok(()),
        Some(lock) => put_name(out, lock.name.as_str()),
    }
}

// What the action does to its lock.
fn deed_at(loaded: &Loaded, n: u32) -> &'static str {
    match loaded.statement(n) {
        None => "",
        Some(node) => match &node.action {
            Action::Locking(LockAction::Init, _) => "sets up",
            Action::Locking(LockAction::Lock, _) => "locks",
            Action::Locking(LockAction::Unlock, _) => "unlocks",
            _ => "",
        },
    }
}

/// The line of the text on which the action stands that a step did; 0 where there is none.
pub(crate) fn line_of(loaded: &Loaded, did: &Did) -> u32 {
    match *did {
        Did::Acted(_, n)
        | Did::Spawned(_, n)
        | Did::Delivered(_, n)
        | Did::Returned(_, n)
        | Did::Trapped(_, _, n) => loaded.line_of(n).unwrap_or(0),
        Did::Ended(_) | Did::Moved => 0,
    }
}
