//! With which actions an instance goes on behind a statement, behind the loop around it, or in its next round.

ghost use Rattle.std.specs.Prelude.{◌≡◌};
ghost use Rattle.cilk_load.specs.Pass.{exits_to, in_loop, in_switch};

/// The numbers of what comes behind a statement, behind the innermost loop around it, and in that loop's next round.
#[derive(Clone, Copy)]
pub struct Exits {
    pub next: Option<u32>,
    pub past: Option<u32>,
    pub again: Option<u32>,
}

/// The same, but for what comes next.
pub(crate) fn exits_to(next: Option<u32>, exits: Exits) -> Exits
    ensures { result ≡ exits_to next exits }
{
    Exits {
        next,
        past: exits.past,
        again: exits.again,
    }
}

/// In the body of a `switch`.
pub(crate) fn in_switch(exits: Exits) -> Exits
    ensures { result ≡ in_switch exits }
{
    Exits {
        next: exits.next,
        past: exits.next,
        again: exits.again,
    }
}

/// In the body of a loop with this mark.
pub(crate) fn in_loop(mark: u32, next: Option<u32>) -> Exits
    ensures { result ≡ in_loop mark next }
{
    Exits {
        next: Some(mark),
        past: next,
        again: Some(mark),
    }
}
