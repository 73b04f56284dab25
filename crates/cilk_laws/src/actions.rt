//! Where the actions of every program stand in its canonical text. These functions do nothing: their contracts are the
//! laws.

ghost use Rattle.cilk_laws.specs.Actions.{EachLineSaysItsAction, LinesGoDown, EachActionStandsOnItsLine};

/// The lines that are told of a program's actions, in the order of the text, are lines of its canonical text, and each says its
/// action: a statement or an initialiser as a whole, a test or a part of a `for` within the line that opens the body, the
/// test of a `do` within the one that closes it, and a closing brace alone. A label of a `switch` has a line, and is no action.
/// From one action to the next they never go up.
pub fn lines_say_their_actions()
    ensures says { EachLineSaysItsAction }
    ensures down { LinesGoDown }
{}

/// An action of a labelled program with the number n is the n-th in the order of the text, and so stands on the line that is told
/// of this number.
pub fn actions_stand_on_their_lines()
    ensures { EachActionStandsOnItsLine }
{}
