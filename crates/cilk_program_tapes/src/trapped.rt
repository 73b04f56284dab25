//! `Ended`: how a program that was run or replayed stands, and what is told of its trap behind the answer.

ghost use Rattle.std.specs.Prelude.{◌≡◌, ◌++◌, ℕ, List, OnErr, OnOk, false, true, codes};
ghost use Rattle.std.specs.Io.KnownBytes.{Appends};
ghost use Rattle.cilk_commands.specs.Front.{AppendsFront};
ghost use Rattle.cilk_log_replay.specs.machine.frame.Kinds.{kind_of};
ghost use Rattle.cilk_program_tapes.specs.Saying.{ClosesTrapped, IsTrapOf, TellsTrap, tells_trap};

use crate::meaning::trap_meaning;
use cilk_commands::{Status, action_told, write_parts};
use cilk_log_replay::TrapKind;
use std::alloc::Global;
use std::io;
use std::io::Write;

/// A trap: its kind, and the number of its action.
#[derive(Clone, Copy)]
pub struct Trapped {
    pub kind: TrapKind,
    pub n: u32,
}

/// How a program stands: the status that tells it, and the trap, if one ended it.
#[derive(Clone, Copy)]
pub struct Ended {
    pub status: Status,
    pub trap: Option<Trapped>,
}

impl Ended {
    /// Where more is asked for, tells of the trap: where its action stands in the text of this name, and what the trap means. What memory does
    /// not suffice for is lost, and so is what cannot be written.
    pub fn tell_trap<W: Write>(
        &self,
        alloc: Global,
        explain: bool,
        name: &str,
        text: &[u8],
        err: &mut W,
    )
        ensures quiet { tells_trap explain self.now.status ≡ false → err.new ≡ err.old }
        ensures told { (answer : List ℕ) → IsTrapOf answer self.now.trap → tells_trap explain self.now.status ≡ true
            → TellsTrap answer name.now text.now (W.contents err.old) (W.contents err.new) }
    {
        if !tells_trap(explain, self.status) {
            return;
        }
        match self.trap {
            Some(trap) => trap.tell(alloc, name, text, err),
            None => {}
        }
    }
}

// Whether more is told of how a program ended.
fn tells_trap(explain: bool, status: Status) -> bool
    ensures { result ≡ tells_trap explain status }
{
    match status {
        Status::Trapped => explain,
        _ => false,
    }
}

impl Trapped {
    fn tell<W: Write>(self, alloc: Global, name: &str, text: &[u8], err: &mut W)
        ensures { (answer : List ℕ) → ClosesTrapped answer (kind_of self.kind) self.n
            → TellsTrap answer name.now text.now (W.contents err.old) (W.contents err.new) }
    {
        let Ok(Some(place)) = action_told(alloc, name, text, self.n) else {
            return;
        };
        let _ = write_trap(err, place.as_str(), trap_meaning(self.kind));
    }
}

fn write_trap<'a, W: Write>(err: &mut W, place: &'a str, meaning: &'a str) -> io::Result<()>
    ensures ok { OnOk result (Appends (W.contents err.old) (W.contents err.new)
        (place.now ++ (meaning.now ++ codes ".\n"))) }
    ensures front { OnErr result (AppendsFront (W.contents err.old) (W.contents err.new)
        (place.now ++ (meaning.now ++ codes ".\n"))) }
{
    write_parts(err, &[place, meaning, ".\n"])
}
