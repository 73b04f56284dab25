//! An ending of a program, with a schedule that leads to it.

ghost use Rattle.std.specs.Prelude.{◌≡◌, Decides};
ghost use Rattle.cilk_machine.specs.sched.Words.{end_of};

use cilk_machine::{Choice, End};

/// How a program ends, what it printed, and the choices of a schedule that leads there.
#[derive(Drop)]
pub struct Told {
    pub end: End,
    pub output: Vec<u8>,
    pub log: Vec<Choice>,
}

/// Whether two ends are one.
pub(crate) fn is_same_end(end: &End, other: &End) -> bool
    ensures { Decides result (end_of end.now ≡ end_of other.now) }
{
    match (end, other) {
        (End::Finished(value), End::Finished(another)) => value == another,
        (
            End::Trapped {
                kind,
                path,
                n,
                line,
            },
            End::Trapped {
                kind: sort,
                path: way,
                n: number,
                line: place,
            },
        ) => {
            if kind != sort {
                return false;
            }
            if n != number {
                return false;
            }
            if line != place {
                return false;
            }
            path.as_slice() == way.as_slice()
        }
        (End::Stuck, End::Stuck) => true,
        (End::Limit, End::Limit) => true,
        _ => false,
    }
}
