//! Calls that take memory, each made once more where a growth was refused: then it has its answer, and in between its receiver is as it was.
//! Where these tests run by themselves nothing is refused. `tools/again` refuses each growth of each of them in turn, one in a run, and counts by what is
//! told here which call it was.

use std::alloc::Global;
use std::process::Abort;

// What a call answers. Where memory was refused, which the pattern says, that is told, and the call is made once more; all that it takes along is made anew
// then. The last argument asserts that all is as before.
macro_rules! again {
    ($rt:expr; $call:expr, $want:pat) => {
        again!($rt; $call, $want, ())
    };
    ($rt:expr; $call:expr, $want:pat, $same:expr) => {
        match $call {
            Ok(answer) => answer,
            Err(fault) => {
                let is_want = matches!(&fault, $want);
                assert!($rt; is_want);
                tell_refused($rt, stringify!($call));
                $same;
                $call.ok().expect(&$rt, "an answer")
            }
        }
    };
}

mod debuggers;
mod frames;
mod hands;
mod machines;
mod programs;
mod runs;
mod script;
mod sessions;
mod texts;
mod trees;

// Each call stands in a function of its own, since what a function owns where a call may go two ways is dear to prove. A receiver that a call may change, or
// that is copied, is called by its type, as `tree` is a `Tree`: so `tools/again` knows the call by its text.

// A call of this text was refused memory.
fn tell_refused(rt: &impl Print, call: &str) {
    let _told = println!(rt; "refused: {call}");
}

// Room for so many texts.
fn pages(rt: &(impl Abort + Print), alloc: Global, count: usize) -> Vec<String> {
    again!(rt; Vec::with_capacity(alloc, count), _)
}

// Room for all that these tests write down of a receiver, so that writing it takes no memory.
fn page(rt: &(impl Abort + Print), alloc: Global) -> String {
    again!(rt; String::with_capacity(alloc, 20_000), _)
}
