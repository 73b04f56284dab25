//! The first choices of a schedule, made again from the start of a program.

ghost use Rattle.std.specs.Prelude.{List, ◌≡◌, ◌≤◌, ◌<◌, ◌-◌, ◌^◌, ℕ, suc, true, false, IfOk, IfErr, OnOk, OnErr, length, Some, None, Ok, Err};
ghost use Rattle.std.specs.Prelude.{slice_get, map};
ghost use Rattle.std.specs.Prelude.{option_copied};
ghost use Rattle.cilk_machine.specs.syntax.ProgramText.{program_text};
ghost use Rattle.cilk_log.specs.Naming.{is_of};
ghost use Rattle.cilk_machine.specs.model.Choice as model;
ghost use Rattle.cilk_machine.specs.model.Run.{is_crew};
ghost use Rattle.cilk_machine.specs.sched.Words.{choice_of, reason_of};
ghost use Rattle.cilk_machine.specs.spawn.Nodes.{path_at};
ghost use Rattle.cilk_machine.specs.plans.PartWords.{event_by};
ghost use Rattle.cilk_machine.specs.Checkpoints.{IsEarlier};
ghost use Rattle.cilk_machine.specs.Situation.{Situation};
ghost use Rattle.cilk_log_replay.specs.Going.{Goes, KeepsOneMore};
ghost use Rattle.cilk_log_replay.specs.Tape.{Tape, tape_of, did_at, IsAt, IsBad};
ghost use Rattle.cilk_log_replay.specs.ReplayFaults.{IsFaultOf, IsNamedFaultOf};

use crate::replay_fault::ReplayFault;
use cilk_log::Log;
use cilk_machine::{Choice, Did, Loaded, Machine, MachineFault, Refusal};
use std::alloc::Global;

/// Whether a program may have so many workers: 1 to 64.
pub fn is_crew(workers: u8) -> bool
    ensures { result ≡ is_crew workers }
{
    1 <= workers && workers <= 64
}

/// Refuses a recorded schedule that tells that it is of another program than this. One that tells none is looked at without memory.
pub fn refuse_other(program: &Loaded, log: &Log) -> Result<(), ReplayFault>
    ensures own { IfOk result (λ _. is_of log.now.program (program_text program.now) ≡ true) }
    ensures told { IfErr result (λ why. (workers : ℕ) (choices : List model.Choice)
        → IsNamedFaultOf log.now.program (record { program = program.now; workers = workers; choices = choices }) why) }
    ensures unnamed { log.now.program ≡ None → result ≡ Ok tt }
{
    if log.program.is_none() {
        return Ok(());
    }
    match program.text() {
        Err(_) => Err(ReplayFault::Memory),
        Ok(text) => {
            if log.is_of(text.as_str()) {
                Ok(())
            } else {
                Err(ReplayFault::OtherProgram)
            }
        }
    }
}

/// The program after all choices of a recorded schedule. That this is of another program is told first, and then what `play` tells.
pub fn play_all(alloc: Global, program: Loaded, log: &Log) -> Result<Machine, ReplayFault>
    ensures stands { IfOk result (IsAt (tape_of program log.now.workers log.now.choices) (length log.now.choices)) }
    ensures own { IfOk result (λ _. is_of log.now.program (program_text program) ≡ true) }
    ensures told { IfErr result (IsNamedFaultOf log.now.program (tape_of program log.now.workers log.now.choices)) }
    ensures crew { log.now.program ≡ None → is_crew log.now.workers ≡ false → result ≡ Err ReplayFault.Workers }
{
    match refuse_other(&program, log) {
        Err(fault) => {
            drop(program);
            Err(fault)
        }
        Ok(()) => {
            let choices = log.choices.as_slice();
            play(alloc, program, log.workers, choices, choices.len())
        }
    }
}

/// The program after the first `count` of these choices. The number of workers is looked at before
/// any memory is asked for.
pub fn play(
    alloc: Global,
    program: Loaded,
    workers: u8,
    choices: &[Choice],
    count: usize,
) -> Result<Machine, ReplayFault>
    requires { count ≤ length choices.now }
    ensures stands { IfOk result (IsAt (tape_of program workers choices.now) count) }
    ensures told { IfErr result (IsFaultOf (tape_of program workers choices.now)) }
    ensures crew { is_crew workers ≡ false → result ≡ Err ReplayFault.Workers }
{
    // `Machine::new` tests this too. Here it stands for the clause `crew`: those of `opened` do not say which fault is told.
    if !is_crew(workers) {
        return Err(ReplayFault::Workers);
    }
    match opened(alloc, program, workers) {
        Err(fault) => Err(fault),
        Ok(machine) => make_first(machine, choices, count),
    }
}

// The machine, on which no choice was made yet, behind the first `count` of these.
fn make_first(machine: Machine, choices: &[Choice], count: usize) -> Result<Machine, ReplayFault>
    requires room { count ≤ length choices.now }
    requires none { machine.choices ≡ 0 }
    ensures stands { IfOk result (λ m. (t : Tape) → t.choices ≡ map choice_of choices.now → IsAt t 0 machine → IsAt t count m) }
    ensures told { IfErr result (λ why. (t : Tape) → t.choices ≡ map choice_of choices.now → IsAt t 0 machine → IsFaultOf t why) }
{
    let mut machine = machine;
    for made in 0..count {
        match make_again(&mut machine, choices, made) {
            Ok(_) => {}
            Err(fault) => return Err(fault),
        }
    }
    Ok(machine)
}

/// The program before any choice.
pub fn opened(alloc: Global, program: Loaded, workers: u8) -> Result<Machine, ReplayFault>
    ensures none { IfOk result (λ m. m.choices ≡ 0) }
    ensures stands { IfOk result (λ m. (choices : List model.Choice) → IsAt (record { program = program; workers = workers; choices = choices }) 0 m) }
    ensures told { IfErr result (λ why. (choices : List model.Choice) → IsFaultOf (record { program = program; workers = workers; choices = choices }) why) }
{
    match Machine::new(alloc, program, workers) {
        Ok(machine) => Ok(machine),
        Err(MachineFault::Workers) => Err(ReplayFault::Workers),
        Err(MachineFault::Memory(_)) => Err(ReplayFault::Memory),
    }
}

/// The choice of this number, counted from 0, is made again, behind those before it.
#[inline(always)]
pub fn make_again(
    machine: &mut Machine,
    choices: &[Choice],
    made: usize,
) -> Result<Did, ReplayFault>
    requires made { machine.old.choices ≡ made }
    requires room { made < length choices.now }
    ensures next { OnOk result ((t : Tape) → t.choices ≡ map choice_of choices.now → IsAt t made machine.old → IsAt t (suc made) machine.new) }
    ensures made { OnOk result (machine.new.choices ≡ suc made) }
    ensures did { IfOk result (λ did. (t : Tape) → t.choices ≡ map choice_of choices.now → IsAt t made machine.old
        → did_at t made ≡ Some (event_by (path_at machine.old.machine.nodes) (path_at machine.new.machine.nodes) did)) }
    ensures goes { OnOk result ((t : Tape) → t.choices ≡ map choice_of choices.now → Goes t machine.old → Goes t machine.new) }
    ensures tells { OnOk result ((m : Situation) → IsEarlier m machine.old → IsEarlier m machine.new) }
    ensures kept { OnOk result (KeepsOneMore machine.old machine.new) }
    ensures told { IfErr result (λ why. (t : Tape) → t.choices ≡ map choice_of choices.now → IsAt t made machine.old → IsFaultOf t why) }
    ensures unchanged { OnErr result (machine.new ≡ machine.old) }
{
    match chosen(choices, made) {
        None => unreachable!(),
        Some(choice) => match machine.advance(*choice) {
            Ok(did) => Ok(did),
            Err(refusal) => Err(refused(made, refusal)),
        },
    }
}

fn chosen(choices: &[Choice], k: usize) -> Option<&Choice>
    ensures { option_copied result ≡ slice_get choices.now k }
{
    choices.get(k)
}

fn refused(made: usize, refusal: Refusal) -> ReplayFault
    requires { made < 2 ^ 64 - 1 }
    ensures { (t : Tape) → ((why : model.Refusal) → reason_of refusal ≡ Some why → IsBad t made why) → IsFaultOf t result }
{
    match refusal {
        Refusal::Memory => ReplayFault::Memory,
        refusal => ReplayFault::BadChoice(made as u64 + 1, refusal),
    }
}
