//! A law about what an input asks. The function does nothing: its contract is what is proved.

ghost use Rattle.cilk_debug_console.specs.OneByOne.{OneByOne};

/// What stands behind a line of an input changes nothing of what it asks.
pub fn lines_come_one_by_one()
    ensures { OneByOne }
{}
