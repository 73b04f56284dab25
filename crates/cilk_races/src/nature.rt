//! What an action does to the bodies that its instance runs, and to what it waits for, read off the tables of a program.

ghost use Rattle.std.specs.Prelude.{◌≡◌};
ghost use Rattle.cilk_log_replay.specs.machine.nodes.model.labelled.Bodies.{label};
ghost use Rattle.cilk_log_replay.specs.machine.nodes.model.Change.{is_sync, leaves};
ghost use Rattle.cilk_races.specs.Acts.{act_of, goes_through, is_call, is_so};
ghost use Rattle.cilk_races.specs.Nodes.{node_calls, node_goes_through, node_leaves, node_waits};

use cilk_log_replay::{Action, Loaded, Taker};

/// What an action does to the bodies of its instance.
#[derive(Clone, Copy)]
pub struct Nature {
    /// Whether it calls a C function.
    pub calls: bool,
    /// Whether it leaves its body.
    pub leaves: bool,
    /// Whether it is a `sync`.
    pub waits: bool,
    /// Whether it spawns a child whose value an inlet takes.
    pub goes_through: bool,
}

/// That of action n of the program, counted from 1. Where there is no such action, it does none of these.
pub fn nature_of(loaded: &Loaded, n: u32) -> Nature
    ensures calls { result.calls ≡ is_so is_call (act_of (label loaded.now) n) }
    ensures leaves { result.leaves ≡ is_so leaves (act_of (label loaded.now) n) }
    ensures waits { result.waits ≡ is_so is_sync (act_of (label loaded.now) n) }
    ensures goes_through { result.goes_through ≡ is_so goes_through (act_of (label loaded.now) n) }
{
    match loaded.statement(n) {
        None => Nature {
            calls: false,
            leaves: false,
            waits: false,
            goes_through: false,
        },
        Some(node) => nature_by(&node.action),
    }
}

fn nature_by(action: &Action) -> Nature
    ensures calls { result.calls ≡ node_calls action.now }
    ensures leaves { result.leaves ≡ node_leaves action.now }
    ensures waits { result.waits ≡ node_waits action.now }
    ensures goes_through { result.goes_through ≡ node_goes_through action.now }
{
    Nature {
        calls: matches!(action, Action::Call(_, _, _)),
        leaves: matches!(
            action,
            Action::Return(_) | Action::ReturnNothing | Action::Close
        ),
        waits: matches!(action, Action::Sync),
        goes_through: matches!(action, Action::Spawn(Taker::Through(_, _), _, _)),
    }
}
