//! What a step did that writes a value, in a few words.

use cilk_log_replay::{Action, Area, Code, CodeNode, Loaded, Memory, Slot};

/// Writes that the action of this number writes a value to a variable, or to an element of it.
pub(crate) fn put_writing(
    out: &mut String,
    loaded: &Loaded,
    n: u32,
    slot: Slot,
    index: u32,
    value: i32,
) -> Result<(), Memory> {
    out.push_str(deed_at(loaded, n, slot))?;
    write!(out, " {value}")?;
    if 0 < slot.length {
        write!(out, " at {index}")?;
    }
    Ok(())
}

// What others see is told: a variable of the top level that is written to, or that a variable of the instance takes its value from.
fn deed_at(loaded: &Loaded, n: u32, slot: Slot) -> &'static str {
    if is_shared(slot) {
        return "writes";
    }
    match loaded.statement(n) {
        None => "sets",
        Some(node) => deed_of(&node.action),
    }
}

fn deed_of(action: &Action) -> &'static str {
    match action {
        Action::Assign(target, code) => {
            if target.op.is_none() && is_shared_variable(code) {
                "reads"
            } else {
                "sets"
            }
        }
        _ => "sets",
    }
}

fn is_shared_variable(code: &Code) -> bool {
    match &code.node {
        CodeNode::Variable(slot) => is_shared(*slot),
        CodeNode::Element(slot, _) => is_shared(*slot),
        _ => false,
    }
}

// Whether a variable is one of the top level.
fn is_shared(slot: Slot) -> bool {
    matches!(slot.area, Area::Global)
}
