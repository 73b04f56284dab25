//! What surrounds a part of a program: whose body, and whether a loop, a `switch` or an inner block of it.

ghost use Rattle.std.specs.Prelude.{◌≡◌};
ghost use Rattle.cilk_check_scopes.specs.Within.{whole_body, inner_block, loop_block, switch_block};

use crate::owner::Owner;

/// Where in a body a part of a program stands.
#[derive(Clone, Copy)]
pub struct Within {
    pub owner: Owner,
    /// In a loop of that body.
    pub in_loop: bool,
    /// In a loop or a `switch` of that body.
    pub in_loop_or_switch: bool,
    /// Directly in the outermost block of that body.
    pub outermost: bool,
}

impl Within {
    /// In the outermost block of a body.
    pub fn whole_body(owner: Owner) -> Within
        ensures { result ≡ whole_body owner }
    {
        Within {
            owner,
            in_loop: false,
            in_loop_or_switch: false,
            outermost: true,
        }
    }

    /// In an inner block.
    pub fn inner_block(self) -> Within
        ensures { result ≡ inner_block self }
    {
        Within {
            outermost: false,
            ..self
        }
    }

    /// In the block of a loop (C 1990, 6.6.5).
    pub fn loop_block(self) -> Within
        ensures { result ≡ loop_block self }
    {
        Within {
            owner: self.owner,
            in_loop: true,
            in_loop_or_switch: true,
            outermost: false,
        }
    }

    /// In the block of a `switch` (C 1990, 6.6.4.2).
    pub fn switch_block(self) -> Within
        ensures { result ≡ switch_block self }
    {
        Within {
            owner: self.owner,
            in_loop: self.in_loop,
            in_loop_or_switch: true,
            outermost: false,
        }
    }
}
