//! What parts were, as plain data, with all that had ended and what was printed.

ghost use Rattle.std.specs.Prelude.{◌≡◌, IfOk};
ghost use Rattle.cilk_machine_undo.specs.Words.{machine_in};

use cilk_machine_plan::{Hands, HandsImage, Lock, Memory, Parts, Spent, Tree, TreeImage};
use std::marker::Model;

/// What parts were, from which parts are made again. It shares no frame with them.
pub struct PartsImage {
    tree: TreeImage,
    hands: HandsImage,
    globals: Vec<i32>,
    locks: Vec<Lock>,
    output: Vec<u8>,
}

// To drop it elsewhere is to call this, and its parts' drops are proved here alone.
impl Drop for PartsImage {
    fn drop(self) {
        let PartsImage {
            tree: _tree,
            hands: _hands,
            globals: _globals,
            locks: _locks,
            output: _output,
        } = self;
    }
}

impl Model for PartsImage {
    ghost use Rattle.cilk_machine_plan.specs.agree.Agrees.{MachineParts};
    ghost use Rattle.cilk_machine_plan.specs.agree.Outside as outside;

    ghost Value = { MachineParts };

    ghost view = { λ p. record {
      outside = record { cells = p.globals.items; locks = p.locks.items; output = p.output.items; outcome = outside.running };
      nodes = p.tree.nodes;
      places = p.hands;
    } };
}

impl PartsImage {
    /// What the parts are now.
    pub fn of(parts: &Parts) -> Result<PartsImage, Memory>
        ensures { IfOk result (λ image. image ≡ machine_in parts.now) }
    {
        let alloc = *parts.globals.allocator();
        let tree = parts.tree.image()?;
        let hands = parts.hands.image()?;
        let globals = Vec::from_slice(alloc, parts.globals.as_slice())?;
        let locks = Vec::from_slice(alloc, parts.locks.as_slice())?;
        let output = Vec::from_slice(alloc, parts.output.as_slice())?;
        Ok(PartsImage {
            tree,
            hands,
            globals,
            locks,
            output,
        })
    }

    /// Parts as those were.
    pub fn parts(&self) -> Result<Parts, Memory>
        ensures { IfOk result (λ parts. machine_in parts ≡ self.now) }
    {
        let alloc = *self.globals.allocator();
        let tree = Tree::restore(&self.tree)?;
        let hands = Hands::restore(&self.hands)?;
        let globals = Vec::from_slice(alloc, self.globals.as_slice())?;
        let locks = Vec::from_slice(alloc, self.locks.as_slice())?;
        let output = Vec::from_slice(alloc, self.output.as_slice())?;
        Ok(Parts {
            globals,
            locks,
            output,
            tree,
            hands,
            spent: Spent::Nothing,
        })
    }
}
