//! What parts were at one moment, as plain data, without what later parts tell as well.

ghost use Rattle.std.specs.Prelude.{◌≡◌, IfOk};
ghost use Rattle.cilk_machine_plan.specs.agree.Agrees.{MachineParts};
ghost use Rattle.cilk_machine_undo.specs.Moment.{IsMomentOf, IsBefore, WasMoment, running_as};
ghost use Rattle.cilk_machine_undo.specs.Words.{machine_in};

use cilk_machine_plan::{Hands, HandsImage, LivingImage, Lock, Memory, Parts, Spent, Tree};
use std::marker::Model;

/// What parts were at one moment. What had ended then and what was printed takes no memory here, however long the program ran:
/// later parts tell both. It shares no frame with the parts.
pub struct Moment {
    living: LivingImage,
    hands: HandsImage,
    globals: Vec<i32>,
    locks: Vec<Lock>,
    /// How many bytes were printed.
    printed: usize,
}

// To drop it elsewhere is to call this, and its parts' drops are proved here alone.
impl Drop for Moment {
    fn drop(self) {
        let Moment {
            living: _living,
            hands: _hands,
            globals: _globals,
            locks: _locks,
            printed: _,
        } = self;
    }
}

impl Model for Moment {
    ghost use Rattle.cilk_machine_undo.specs.Moment as seen;

    ghost Value = { seen.Moment };

    ghost view = { λ m. record { living = m.living; places = m.hands; cells = m.globals.items; locks = m.locks.items; printed = m.printed } };
}

impl Moment {
    /// What the parts are now.
    pub fn of(parts: &Parts) -> Result<Moment, Memory>
        ensures { IfOk result (λ moment. IsMomentOf moment (machine_in parts.now)) }
    {
        let alloc = *parts.globals.allocator();
        let living = parts.tree.living_image()?;
        let hands = parts.hands.image()?;
        let globals = Vec::from_slice(alloc, parts.globals.as_slice())?;
        let locks = Vec::from_slice(alloc, parts.locks.as_slice())?;
        Ok(Moment {
            living,
            hands,
            globals,
            locks,
            printed: parts.output.len(),
        })
    }

    /// The parts of which this was kept behind a choice, where later ones tell what had ended and what was printed.
    pub fn parts(&self, later: &Parts, choice: u64) -> Result<Parts, Memory>
        requires { WasMoment choice self.now (machine_in later.now) }
        ensures { IfOk result (λ parts. (m : MachineParts) → IsMomentOf self.now m → IsBefore choice m (machine_in later.now)
            → machine_in parts ≡ running_as m) }
    {
        let alloc = *later.globals.allocator();
        let tree = Tree::remade(&self.living, &later.tree, choice)?;
        let hands = Hands::restore(&self.hands)?;
        let globals = Vec::from_slice(alloc, self.globals.as_slice())?;
        let locks = Vec::from_slice(alloc, self.locks.as_slice())?;
        let (printed, _) = later.output.as_slice().split_at(self.printed);
        let output = Vec::from_slice(alloc, printed)?;
        Ok(Parts {
            globals,
            locks,
            output,
            tree,
            hands,
            spent: Spent::Nothing,
        })
    }
}
