//! A machine goes on or back to a choice.

ghost use Rattle.std.specs.Prelude.{◌≡◌, ◌≤◌, ◌+◌, map, true, length, OnErr, OnOk};
ghost use Rattle.cilk_machine.specs.sched.Words.{choice_of};
ghost use Rattle.cilk_log_replay.specs.Going.{Goes};
ghost use Rattle.cilk_log_replay.specs.Tape.{Tape};

use crate::replaying::make_again;
use cilk_machine::{Choice, Machine, Memory};
use std::alloc::AllocError;

/// Makes choices, or takes them back, until this many are made; each that is taken back has a record. Where memory has run out, it stands
/// somewhere between: where it stood, if there was but one to make or to take back.
pub(crate) fn go_along(machine: &mut Machine, choices: &[Choice], to: usize) -> Result<(), Memory>
    requires room { to ≤ length choices.now }
    requires kept { machine.old.choices ≤ to + length machine.old.past }
    ensures goes { (t : Tape) → t.choices ≡ map choice_of choices.now → Goes t machine.old → Goes t machine.new }
    ensures there { OnOk result (machine.new.choices ≡ to) }
    ensures left { OnOk result (machine.old.keeps ≡ true → length machine.new.past + machine.old.choices ≡ length machine.old.past + to) }
    ensures same { OnErr result (to ≤ machine.old.choices + 1 → machine.old.choices ≤ to + 1 → machine.new ≡ machine.old) }
{
    if machine.choices() as usize <= to {
        go_on(machine, choices, to)
    } else {
        go_back(machine, to)
    }
}

// Makes the choices up to this many.
fn go_on(machine: &mut Machine, choices: &[Choice], to: usize) -> Result<(), Memory>
    requires ahead { machine.old.choices ≤ to }
    requires room { to ≤ length choices.now }
    ensures goes { (t : Tape) → t.choices ≡ map choice_of choices.now → Goes t machine.old → Goes t machine.new }
    ensures there { OnOk result (machine.new.choices ≡ to) }
    ensures left { OnOk result (machine.old.keeps ≡ true → length machine.new.past + machine.old.choices ≡ length machine.old.past + to) }
    ensures same { OnErr result (to ≤ machine.old.choices + 1 → machine.new ≡ machine.old) }
{
    let from = machine.choices() as usize;
    for made in from..to {
        match make_again(machine, choices, made) {
            Ok(_) => {}
            Err(_) => return Err(Memory::from(AllocError)),
        }
    }
    Ok(())
}

// Takes choices back until only this many are made.
fn go_back(machine: &mut Machine, to: usize) -> Result<(), Memory>
    requires behind { to ≤ machine.old.choices }
    requires kept { machine.old.choices ≤ to + length machine.old.past }
    ensures goes { (t : Tape) → Goes t machine.old → Goes t machine.new }
    ensures there { OnOk result (machine.new.choices ≡ to) }
    ensures left { OnOk result (length machine.new.past + machine.old.choices ≡ length machine.old.past + to) }
    ensures same { OnErr result (machine.old.choices ≤ to + 1 → machine.new ≡ machine.old) }
{
    while to < machine.choices() as usize {
        match machine.undo() {
            Ok(true) => {}
            Ok(false) => unreachable!(),
            Err(memory) => return Err(memory),
        }
    }
    Ok(())
}
