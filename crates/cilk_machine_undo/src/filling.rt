//! What a step moved out of the machine is put into its record.

ghost use Rattle.std.specs.Prelude.{◌≡◌};
ghost use Rattle.cilk_machine_undo.specs.Words.{undo_by, undo_with, activation_with, ended_with};

use crate::undo::{Ended, Undo};
use cilk_machine_plan::{Activation, Spent};
use std::mem;

/// Puts into the record of a step what the step moved out of the machine, where it has room for that.
pub fn fill(undo: &mut Undo, spent: &mut Spent)
    ensures { undo_by undo.new ≡ undo_with undo.old spent.old }
{
    match undo {
        Undo::Closed {
            activation,
            worker: _,
        } => put_activation(activation.as_mut(), mem::replace(spent, Spent::Nothing)),
        Undo::Answered {
            activation,
            writing: _,
            worker: _,
        } => put_activation(activation.as_mut(), mem::replace(spent, Spent::Nothing)),
        Undo::Ended { gone, worker: _ } => {
            put_instance(&mut gone.ended, mem::replace(spent, Spent::Nothing))
        }
        _ => {}
    }
}

fn put_activation(activation: &mut Option<Activation>, spent: Spent)
    ensures { activation.new ≡ activation_with activation.old spent }
{
    match spent {
        Spent::Nothing => {}
        Spent::Activation(left) => *activation = left,
        Spent::Instance(frame, _remains) => frame.finish(),
    }
}

fn put_instance(ended: &mut Option<Ended>, spent: Spent)
    ensures { ended.new ≡ ended_with ended.old spent }
{
    match spent {
        Spent::Nothing => {}
        Spent::Activation(_left) => {}
        Spent::Instance(frame, remains) => match remains {
            None => frame.finish(),
            Some(remains) => *ended = Some(Ended { frame, remains }),
        },
    }
}
