//! Which workers have nothing.

ghost use Rattle.std.specs.Prelude.{◌≡◌, true};
ghost use Rattle.cilk_sched.specs.model.Hands.{IsWorker, no_place, worker_at};
ghost use Rattle.cilk_sched.specs.model.Run.{Standing};
ghost use Rattle.cilk_view.specs.explore.OrMore.{IsIdle, HasIdle};
ghost use Rattle.cilk_machine.specs.Stands.{StandsAt};

use super::Machine;

impl Machine {
    /// Whether some worker has nothing in its hand and its deque.
    pub fn has_idle(&self) -> bool
        ensures { result ≡ true → (a : Standing) → StandsAt self.now a → HasIdle a }
    {
        for k in 0..self.workers {
            if self.is_idle(k + 1) {
                return true;
            }
        }
        false
    }

    /// Whether that worker has nothing in its hand and its deque. It is false of a number that is no worker's.
    pub fn is_idle(&self, worker: u8) -> bool
        ensures { result ≡ true → (a : Standing) → StandsAt self.now a → IsIdle a worker }
    {
        if worker == 0 {
            return false;
        }
        if self.workers < worker {
            return false;
        }
        self.has_nothing(worker)
    }

    fn has_nothing(&self, worker: u8) -> bool
        requires { IsWorker self.now.machine.places worker }
        ensures { result ≡ true → worker_at self.now.machine.places worker ≡ no_place }
    {
        match self.parts.hands.hand(worker) {
            None => self.parts.hands.len(worker) == 0,
            Some(_) => false,
        }
    }
}
