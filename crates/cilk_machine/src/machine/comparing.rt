//! Whether two machines stand at the same but for the names of the workers.

ghost use Rattle.std.specs.Prelude.{◌≡◌, true, map};
ghost use Rattle.cilk_machine_undo.specs.agree.Outside.{lock_by};
ghost use Rattle.cilk_machine_undo.specs.spawn.Nodes.{path_at};
ghost use Rattle.cilk_sched.specs.model.Run.{Standing};
ghost use Rattle.cilk_view.specs.explore.Alike.{SameTree, SamePlacesBut};
ghost use Rattle.cilk_view.specs.explore.Names.{SameButNames};
ghost use Rattle.cilk_machine.specs.Stands.{StandsAt};

use super::Machine;
use crate::comparing::{are_same_cells, are_same_locks, is_same_outcome, is_same_output};
use cilk_machine_undo::Both;

impl Machine {
    /// Whether both stand at the same but for the names of the workers, as far as what follows can depend on it: fates, ids and how many choices were
    /// made do not matter. The other is of the same program.
    pub fn is_same_but_names(&self, other: &Machine) -> bool
        requires { other.now.program ≡ self.now.program }
        ensures { result ≡ true → (a b : Standing) → StandsAt self.now a → StandsAt other.now b → SameButNames a b }
    {
        // Brings its clauses into the proof.
        let _outcome = &self.outcome;
        if !self.holds_the_same(other) {
            return false;
        }
        self.lives_the_same(other)
    }

    // The cells, the output, the outcome and the locks.
    fn holds_the_same(&self, other: &Machine) -> bool
        ensures outcome { result ≡ true → self.now.outcome ≡ other.now.outcome }
        ensures cells { result ≡ true → self.now.machine.outside.cells ≡ other.now.machine.outside.cells }
        ensures output { result ≡ true → self.now.machine.outside.output ≡ other.now.machine.outside.output }
        ensures locks { result ≡ true → map (lock_by (path_at self.now.machine.nodes)) self.now.machine.outside.locks
            ≡ map (lock_by (path_at other.now.machine.nodes)) other.now.machine.outside.locks }
    {
        if !is_same_outcome(&self.outcome, &other.outcome) {
            return false;
        }
        if !are_same_cells(
            self.parts.globals.as_slice(),
            other.parts.globals.as_slice(),
        ) {
            return false;
        }
        if !is_same_output(self.parts.output.as_slice(), other.parts.output.as_slice()) {
            return false;
        }
        are_same_locks(
            self.parts.locks.as_slice(),
            &self.parts.tree,
            other.parts.locks.as_slice(),
            &other.parts.tree,
        )
    }

    // The live instances, and what the workers have, in whatever order.
    fn lives_the_same(&self, other: &Machine) -> bool
        ensures tree { result ≡ true → SameTree self.now.machine.nodes other.now.machine.nodes }
        ensures places { result ≡ true → SamePlacesBut self.now.machine.nodes other.now.machine.nodes self.now.machine.places other.now.machine.places }
    {
        if self.workers != other.workers {
            return false;
        }
        if !self.parts.tree.is_same(&other.parts.tree) {
            return false;
        }
        let both = Both {
            hands: &self.parts.hands,
            tree: &self.parts.tree,
            others: &other.parts.hands,
            other: &other.parts.tree,
        };
        both.match_hands(self.workers)
    }
}
