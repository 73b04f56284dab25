//! What the next step of a worker looks at, and the paths of instances.

ghost use Rattle.std.specs.Prelude.{◌≡◌, ◌<◌, None, length, IfNone, IfOk, IfSome};
ghost use Rattle.cilk_sched.specs.model.Hands.{IsWorker, hand_of};
ghost use Rattle.cilk_machine_undo.specs.plans.StepInput.{id_of};
ghost use Rattle.cilk_machine_undo.specs.spawn.Nodes.{path_at};
ghost use Rattle.cilk_machine_step.specs.Scenes.{HeadFits, input_of};
ghost use Rattle.cilk_machine.specs.Ahead.{IsAhead};

use super::Machine;
use cilk_machine_carry::is_worker;
use cilk_machine_step::Scene;
use cilk_machine_undo::Id;
use cilk_sched::{Memory, Path};

impl Machine {
    /// What the next step of a worker looks at, whether it can step or not. None where its hand is empty, or where there is no such worker.
    pub fn scene_ahead<'a>(&'a self, worker: u8) -> Option<Scene<'a>>
        ensures ahead { IfSome result (λ scene. IsAhead self.now worker (input_of scene)) }
        ensures there { IfSome result (λ scene. id_of (input_of scene) < length (input_of scene).nodes) }
        ensures fits { IfSome result (λ scene. HeadFits (input_of scene)) }
        ensures none { IfNone result (IsWorker self.now.machine.places worker → hand_of self.now.machine.places worker ≡ None) }
    {
        if is_worker(worker, self.workers) {
            self.scene_in_hand(worker)
        } else {
            None
        }
    }

    // The same of a worker.
    fn scene_in_hand<'a>(&'a self, worker: u8) -> Option<Scene<'a>>
        requires { IsWorker self.now.machine.places worker }
        ensures ahead { IfSome result (λ scene. IsAhead self.now worker (input_of scene)) }
        ensures there { IfSome result (λ scene. id_of (input_of scene) < length (input_of scene).nodes) }
        ensures fits { IfSome result (λ scene. HeadFits (input_of scene)) }
        ensures none { IfNone result (hand_of self.now.machine.places worker ≡ None) }
    {
        match self.parts.hands.hand(worker) {
            None => None,
            Some(frame) => Some(self.scene(frame)),
        }
    }

    /// The path of the instance of this id, where there is one.
    pub fn path_of(&self, id: Id) -> Result<Path, Memory>
        ensures { IfOk result (λ path. id < length self.now.machine.nodes → path ≡ path_at self.now.machine.nodes id) }
    {
        if id.number() < self.parts.tree.next_id().number() {
            self.parts.tree.path_of(id)
        } else {
            Ok(Path::root(self.alloc))
        }
    }
}
