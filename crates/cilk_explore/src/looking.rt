//! One log is looked at: what is told of it, and where each choice behind it leads.

ghost use Rattle.std.specs.Prelude.{ℕ, ◌≡◌, ◌≢◌, ◌<◌, ◌≤◌, ◌+◌, ◌-◌, ◌++◌, ◌∷◌, [], true, false, length, Ok, Some, None, OnOk, IfOk, IfSome};
ghost use Rattle.cilk_machine.specs.labelled.Bodies.{label};
ghost use Rattle.cilk_machine.specs.model.Choice as choices;
ghost use Rattle.cilk_machine.specs.model.Run.{Position};
ghost use Rattle.cilk_machine.specs.sched.Words.{choice_of};
ghost use Rattle.cilk_explore.specs.explore.OrMore.{IsIdle};
ghost use Rattle.cilk_explore.specs.Linking.{IsLinked, AreLinkedBy};
ghost use Rattle.cilk_explore.specs.Looking.{LeadsToSame, StandsAtLog};
ghost use Rattle.cilk_explore.specs.Walks.{position_of};
ghost use Rattle.cilk_explore.specs.Exploring.{IsAt, IsBehind, IsBetween, HasLinks, IsKnownBy, Grows, Gathers, GoesOn, KeepsAs, SaysIdle};

use crate::comparing::{go_to, known};
use crate::endings::tell;
use crate::explorer::Explorer;
use crate::walker::Walker;
use cilk_machine::{Act, Choice, Memory, Touched};

// Of no more choices the first way is kept. It changes workers seldom, and logs so short are read.
const KEPT_AS_FOUND: usize = 250;

/// Looks at the log of this number. False where more is behind it than there is room for.
pub(crate) fn look_at(explorer: &mut Explorer, number: usize, workers: u8) -> Result<bool, Memory>
    requires between { IsBetween explorer.old number }
    requires links { HasLinks explorer.old number }
    requires there { number < length explorer.old.store }
    requires stands { StandsAtLog explorer.old.store (number - 1) explorer.old.walker }
    requires crew { workers ≡ explorer.old.walker.workers }
    ensures looked { result ≡ Ok true → IsBetween explorer.new (number + 1) }
    ensures links { result ≡ Ok true → HasLinks explorer.new (number + 1) }
    ensures stands { result ≡ Ok true → StandsAtLog explorer.new.store number explorer.new.walker }
    ensures stopped { result ≡ Ok false → IsBetween explorer.new number }
    ensures full { result ≡ Ok false → explorer.new.limit ≤ length explorer.new.store }
    ensures goes { OnOk result (GoesOn explorer.old explorer.new) }
{
    match go_there(explorer, number) {
        Err(memory) => Err(memory),
        Ok(()) => match tell(explorer.alloc, &explorer.walker, &mut explorer.told) {
            Err(memory) => Err(memory),
            Ok(true) => close(explorer),
            Ok(false) => match try_all(explorer, number, workers) {
                Err(memory) => Err(memory),
                Ok(false) => Ok(false),
                Ok(true) => close(explorer),
            },
        },
    }
}

// The log that is looked at has all its links.
fn close(explorer: &mut Explorer) -> Result<bool, Memory>
    ensures goes { result ≢ Ok false }
    ensures rest { OnOk result (explorer.new ≡ record explorer.old { links = explorer.new.links }) }
    ensures links { OnOk result (explorer.new.links ≡ record { past = explorer.old.links.past ++ explorer.old.links.here ∷ []; here = [] }) }
{
    match explorer.links.close() {
        Err(memory) => Err(memory),
        Ok(()) => Ok(true),
    }
}

// Goes to where the log leads, and puts down whether a worker is idle there.
fn go_there(explorer: &mut Explorer, number: usize) -> Result<(), Memory>
    requires between { IsBetween explorer.old number }
    requires links { HasLinks explorer.old number }
    requires there { number < length explorer.old.store }
    requires stands { StandsAtLog explorer.old.store (number - 1) explorer.old.walker }
    ensures at { OnOk result (IsAt explorer.new number) }
    ensures between { OnOk result (IsBetween explorer.new number) }
    ensures links { OnOk result (HasLinks explorer.new number) }
    ensures idle { OnOk result (SaysIdle explorer.new) }
    ensures goes { OnOk result (GoesOn explorer.old explorer.new) }
{
    // The log before it was looked at last.
    let from = number.saturating_sub(1);
    match go_to(
        &mut explorer.walker,
        from,
        number,
        &explorer.store,
        &mut explorer.tail,
    ) {
        Err(memory) => Err(memory),
        Ok(()) => {
            note_idle(explorer);
            Ok(())
        }
    }
}

// Puts down whether a worker is idle here, as one was wherever it has looked before.
fn note_idle(explorer: &mut Explorer)
    ensures rest { explorer.new ≡ record explorer.old { idle = explorer.new.idle } }
    ensures before { explorer.new.idle ≡ true → explorer.old.idle ≡ true }
    ensures here { SaysIdle explorer.new }
{
    explorer.idle = explorer.idle && explorer.walker.has_idle();
}

// Tries each choice behind the log. Of workers that are idle the first alone tries its own: those of another lead to the same but for names.
fn try_all(explorer: &mut Explorer, number: usize, workers: u8) -> Result<bool, Memory>
    requires at { IsAt explorer.old number }
    requires crew { workers ≡ explorer.old.walker.workers }
    ensures grows { OnOk result (Grows explorer.old explorer.new) }
    ensures gathers { OnOk result (Gathers explorer.old explorer.new) }
    ensures linked { result ≡ Ok true → (choice : choices.Choice)
        → IsLinked (label explorer.old.walker.program) explorer.old.walker.workers explorer.new.store explorer.new.links.here explorer.old.walker.log choice }
    ensures full { result ≡ Ok false → explorer.new.limit ≤ length explorer.new.store }
{
    let first = first_idle(&explorer.walker, workers);
    for k in 0..workers {
        if does_as_first(&explorer.walker, first, k + 1) {
            continue;
        }
        match try_by(explorer, number, k + 1, workers) {
            Err(memory) => return Err(memory),
            Ok(false) => return Ok(false),
            Ok(true) => {}
        }
    }
    Ok(true)
}

// The first worker that is idle.
fn first_idle(walker: &Walker, workers: u8) -> Option<u8>
    ensures from_one { IfSome result (λ one. 1 ≤ one) }
    ensures idle { IfSome result (λ one. (at : Position) → position_of walker.now ≡ Some at → IsIdle at.standing one) }
{
    for k in 0..workers {
        if walker.is_idle(k + 1) {
            return Some(k + 1);
        }
    }
    None
}

// Whether a worker is idle, and is behind the first that is.
fn does_as_first(walker: &Walker, first: Option<u8>, worker: u8) -> bool
    ensures behind { result ≡ true → (one : ℕ) × (first ≡ Some one) × (one < worker) }
    ensures idle { result ≡ true → (at : Position) → position_of walker.now ≡ Some at → IsIdle at.standing worker }
{
    match first {
        None => false,
        Some(one) => one < worker && walker.is_idle(worker),
    }
}

// Tries each choice of a worker.
fn try_by(explorer: &mut Explorer, number: usize, worker: u8, workers: u8) -> Result<bool, Memory>
    requires at { IsAt explorer.old number }
    requires crew { workers ≡ explorer.old.walker.workers }
    ensures grows { OnOk result (Grows explorer.old explorer.new) }
    ensures gathers { OnOk result (Gathers explorer.old explorer.new) }
    ensures linked { result ≡ Ok true → AreLinkedBy (label explorer.old.walker.program) explorer.old.walker.workers explorer.new.store
        explorer.new.links.here explorer.old.walker.log worker }
    ensures full { result ≡ Ok false → explorer.new.limit ≤ length explorer.new.store }
{
    let step = Choice {
        worker,
        act: Act::Step,
    };
    let pop = Choice {
        worker,
        act: Act::Pop,
    };
    match try_choice(explorer, number, step) {
        Err(memory) => Err(memory),
        Ok(false) => Ok(false),
        Ok(true) => match try_choice(explorer, number, pop) {
            Err(memory) => Err(memory),
            Ok(false) => Ok(false),
            Ok(true) => try_steals(explorer, number, worker, workers),
        },
    }
}

// Tries each steal of a worker.
fn try_steals(
    explorer: &mut Explorer,
    number: usize,
    worker: u8,
    workers: u8,
) -> Result<bool, Memory>
    requires at { IsAt explorer.old number }
    requires crew { workers ≡ explorer.old.walker.workers }
    ensures grows { OnOk result (Grows explorer.old explorer.new) }
    ensures gathers { OnOk result (Gathers explorer.old explorer.new) }
    ensures linked { result ≡ Ok true → (v : ℕ) → 1 ≤ v → v ≤ explorer.old.walker.workers
        → IsLinked (label explorer.old.walker.program) explorer.old.walker.workers explorer.new.store explorer.new.links.here explorer.old.walker.log
        (record { worker = worker; act = choices.steal v }) }
    ensures full { result ≡ Ok false → explorer.new.limit ≤ length explorer.new.store }
{
    for k in 0..workers {
        let steal = Choice {
            worker,
            act: Act::Steal(k + 1),
        };
        match try_choice(explorer, number, steal) {
            Err(memory) => return Err(memory),
            Ok(false) => return Ok(false),
            Ok(true) => {}
        }
    }
    Ok(true)
}

// Makes a choice, if it is possible, keeps where it leads, if that is new, takes it back, and puts down the link. False where there is no room.
fn try_choice(explorer: &mut Explorer, number: usize, choice: Choice) -> Result<bool, Memory>
    requires { IsAt explorer.old number }
    ensures grows { OnOk result (Grows explorer.old explorer.new) }
    ensures gathers { OnOk result (Gathers explorer.old explorer.new) }
    ensures linked { result ≡ Ok true → IsLinked (label explorer.old.walker.program) explorer.old.walker.workers explorer.new.store explorer.new.links.here
        explorer.old.walker.log (choice_of choice) }
    ensures full { result ≡ Ok false → explorer.new.limit ≤ length explorer.new.store }
{
    let touched = explorer.walker.touched(choice);
    match explorer.walker.make(choice) {
        Err(memory) => Err(memory),
        Ok(false) => Ok(true),
        Ok(true) => match keep(explorer, number, choice, touched) {
            Err(memory) => Err(memory),
            Ok(kept) => match explorer.walker.back() {
                Err(memory) => Err(memory),
                Ok(()) => link(explorer, kept),
            },
        },
    }
}

// Puts down that a choice led to the log of this number. False where it led to none that is kept.
fn link(explorer: &mut Explorer, kept: Option<usize>) -> Result<bool, Memory>
    ensures rest { OnOk result (explorer.new ≡ record explorer.old { links = explorer.new.links }) }
    ensures more { result ≡ Ok true → (number : ℕ) × (kept ≡ Some number)
        × (explorer.new.links ≡ record explorer.old.links { here = explorer.old.links.here ++ number ∷ [] }) }
    ensures none { result ≡ Ok false → (kept ≡ None) × (explorer.new.links ≡ explorer.old.links) }
{
    match kept {
        None => Ok(false),
        Some(number) => match explorer.links.push(number) {
            Err(memory) => Err(memory),
            Ok(()) => Ok(true),
        },
    }
}

// Keeps where the walker stands, which is one choice behind the log of this number, if that is new, and tells which log leads there. None where there is
// no room.
fn keep(
    explorer: &mut Explorer,
    number: usize,
    choice: Choice,
    touched: Touched,
) -> Result<Option<usize>, Memory>
    requires { IsBehind explorer.old number (choice_of choice) }
    ensures keeps { OnOk result (KeepsAs explorer.old explorer.new) }
    ensures links { explorer.new.links ≡ explorer.old.links }
    ensures known { IfOk result (λ kept. IfSome kept (IsKnownBy explorer.new)) }
    ensures full { result ≡ Ok None → explorer.new.limit ≤ length explorer.new.store }
{
    // Brings its clauses into the proof.
    let _log = explorer.walker.log();
    let tag = explorer
        .walker
        .tag_behind(touched, explorer.store.mixed_of(number));
    match known(
        tag.digest,
        &explorer.walker,
        &mut explorer.probe,
        &explorer.store,
        &mut explorer.tail,
    ) {
        Err(memory) => Err(memory),
        Ok(Some(found)) => match lead_otherwise(explorer, number, choice, tag.digest) {
            Err(memory) => Err(memory),
            Ok(()) => Ok(Some(found)),
        },
        Ok(None) => {
            let own = explorer.store.len();
            if explorer.limit <= own {
                return Ok(None);
            }
            match explorer.store.push(number, choice, tag) {
                Err(memory) => Err(memory),
                Ok(()) => Ok(Some(own)),
            }
        }
    }
}

// Keeps the way here in place of that to the log behind which the probe is, if both are as long, and a bit says so; the probe is one choice before it then.
// Were each the first that was found, those to logs side by side would have little in common, and it would be far from one to the next.
fn lead_otherwise(
    explorer: &mut Explorer,
    number: usize,
    choice: Choice,
    digest: u64,
) -> Result<(), Memory>
    requires behind { IsBehind explorer.old number (choice_of choice) }
    requires same { LeadsToSame explorer.old.walker explorer.old.store explorer.old.probe.number }
    ensures keeps { OnOk result (KeepsAs explorer.old explorer.new) }
    ensures links { explorer.new.links ≡ explorer.old.links }
    ensures known { OnOk result (IsKnownBy explorer.new explorer.old.probe.number) }
{
    // Brings its clauses into the proof.
    let _log = explorer.walker.log();
    let choices = explorer.walker.len();
    if explorer.probe.walker.len() != choices || !is_other_way(choices, digest, number) {
        return Ok(());
    }
    match explorer
        .store
        .put_behind(explorer.probe.number, number, choice)
    {
        None => Ok(()),
        Some(parent) => match explorer.probe.walker.back() {
            Err(memory) => Err(memory),
            Ok(()) => {
                explorer.probe.number = parent;
                Ok(())
            }
        },
    }
}

// A bit of two numbers, where a way has many choices.
fn is_other_way(choices: usize, digest: u64, number: usize) -> bool {
    KEPT_AS_FOUND < choices && (digest >> 7 ^ number as u64) & 1 == 1
}
