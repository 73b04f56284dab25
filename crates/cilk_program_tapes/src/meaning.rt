//! What the kinds of traps and the reasons of refusals mean, in words for people.

ghost use Rattle.std.specs.Prelude.{◌≡◌};
ghost use Rattle.cilk_log_replay.specs.machine.frame.Kinds.{kind_of};
ghost use Rattle.cilk_program_tapes.specs.Meanings.{refusal_meaning, trap_meaning, value_meaning};

use cilk_log_replay::{Refusal, Trap, TrapKind};

/// What a kind of traps means: a sentence without its full stop.
pub(crate) fn trap_meaning(kind: TrapKind) -> &'static str
    ensures { result.now ≡ trap_meaning (kind_of kind) }
{
    match kind {
        TrapKind::Value(trap) => value_meaning(trap),
        TrapKind::Lock => {
            "A lock is initialised while it is held, taken before it is initialised or by its holder, or let go by another"
        }
        TrapKind::HeldLock => {
            "The instance holds a lock where it spawns, waits or ends, and there it may hold none"
        }
        TrapKind::Depth => "256 bodies are open in this instance, and no call opens one more",
        TrapKind::Instances => {
            "65536 instances live, or this one has spawned 4294967295 children, and no spawn starts one more"
        }
        TrapKind::Output => "The output has at most 1048576 bytes, and this would be more",
    }
}

fn value_meaning(trap: Trap) -> &'static str
    ensures { result.now ≡ value_meaning trap }
{
    match trap {
        Trap::Overflow => {
            "The result of an operator is no `int`: it is less than -2147483648 or more than 2147483647"
        }
        Trap::ZeroDivide => "A number is divided by 0",
        Trap::Shift => {
            "A number is shifted by less than 0 or more than 31, or one that is less than 0 to the left"
        }
        Trap::Index => {
            "A subscript is outside its array: the elements have the numbers from 0 up to one less than its length"
        }
    }
}

/// Why a choice is not possible: the end of a sentence without its full stop.
pub(crate) fn refusal_meaning(refusal: &Refusal) -> &'static str
    ensures { result.now ≡ refusal_meaning refusal.now }
{
    match refusal {
        Refusal::Over => "the program has ended before",
        Refusal::NoWorker => "the log has no such worker, or the worker would steal from itself",
        Refusal::HandEmpty => "its worker has nothing in its hand to step",
        Refusal::Busy => {
            "its worker has something in its hand, or, where it would steal, in its own deque"
        }
        Refusal::DequeEmpty => "the deque to take from is empty",
        Refusal::Waiting => "the step has to wait for a lock that another instance holds",
        Refusal::Memory => "memory has run out",
        Refusal::Stale => "what was seen of it beforehand has changed",
    }
}
