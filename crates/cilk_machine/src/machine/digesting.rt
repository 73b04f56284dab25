//! Numbers that tell apart where machines stand, whatever the names of the workers are. They promise nothing. What a choice changes of what lives is a
//! difference of sums, so that the number behind it is found by the one before it, however many live.

ghost use Rattle.cilk_sched.specs.model.Hands.{IsWorker};

use super::Machine;
use crate::comparing::{mix_locks, mix_outcome, mixed_in_deque, mixed_in_hand};
use crate::touched::{Stepping, Touched};
use cilk_machine_carry::is_worker;
use cilk_machine_step::{Action, Loaded};
use cilk_machine_undo::{Frame, Mixer};
use cilk_sched::{Act, Choice};

impl Machine {
    /// A number that is the same where machines stand at the same but for the names of the workers, and mostly another elsewhere: by `mixed`, which all that
    /// lives comes to.
    pub fn digest(&self, mixed: u32) -> u64 {
        let mut mixer = Mixer::new();
        mix_outcome(&self.outcome, &mut mixer);
        for cell in &self.parts.globals {
            mixer.put_signed(*cell);
        }
        mixer.put(self.parts.output.len() as u64);
        for byte in &self.parts.output {
            mixer.put(*byte as u64);
        }
        mix_locks(self.parts.locks.as_slice(), &self.parts.tree, &mut mixer);
        mixer.put(mixed as u64);
        mixer.mixed()
    }

    /// The number that all that lives comes to.
    pub fn mixed(&self) -> u32 {
        let mut sum = self.parts.tree.mixed();
        for k in 0..self.workers {
            sum = sum.wrapping_add(self.mixed_place(k + 1, 0));
        }
        lower(sum)
    }

    /// The same behind a choice, by what that touched and by the number before it.
    pub fn mixed_behind(&self, touched: Touched, before: u32) -> u32 {
        let rest = (before as u64).wrapping_sub(touched.before);
        match touched.step {
            None => lower(rest),
            Some(step) => lower(rest.wrapping_add(self.mixed_by(&step))),
        }
    }

    /// What a choice touches, if it is possible.
    pub fn touched(&self, choice: Choice) -> Touched {
        if is_worker(choice.worker, self.workers) {
            self.touched_by(choice.worker, choice.act)
        } else {
            Touched::nothing()
        }
    }

    fn touched_by(&self, worker: u8, act: Act) -> Touched
        requires { IsWorker self.now.machine.places worker }
    {
        match self.parts.hands.hand(worker) {
            Some(frame) => match act {
                Act::Step => self.touched_by_step(worker, frame),
                Act::Pop | Act::Steal(_) => Touched::nothing(),
            },
            None => match act {
                Act::Step => Touched::nothing(),
                Act::Pop => self.touched_by_pop(worker),
                Act::Steal(victim) => self.touched_by_steal(victim),
            },
        }
    }

    fn touched_by_step(&self, worker: u8, frame: &Frame) -> Touched
        requires { IsWorker self.now.machine.places worker }
    {
        let own = frame.id();
        let step = Stepping {
            worker,
            own,
            parent: self.parent(own),
            child: self.parts.tree.next_id(),
            queued: self.parts.hands.len(worker),
            anyone: is_abort(&self.loaded, frame),
        };
        Touched {
            before: self.mixed_by(&step),
            step: Some(step),
        }
    }

    fn touched_by_pop(&self, worker: u8) -> Touched
        requires { IsWorker self.now.machine.places worker }
    {
        match self.parts.hands.len(worker).checked_sub(1) {
            None => Touched::nothing(),
            Some(last) => self.touched_by_move(worker, last),
        }
    }

    fn touched_by_steal(&self, victim: u8) -> Touched {
        if is_worker(victim, self.workers) {
            self.touched_by_move(victim, 0)
        } else {
            Touched::nothing()
        }
    }

    // A frame of a deque comes to a hand.
    fn touched_by_move(&self, worker: u8, place: usize) -> Touched
        requires { IsWorker self.now.machine.places worker }
    {
        match self.parts.hands.queued(worker, place) {
            None => Touched::nothing(),
            Some(frame) => {
                let here = mixed_in_deque(frame, &self.parts.tree);
                let there = mixed_in_hand(frame, &self.parts.tree);
                Touched {
                    before: here.wrapping_sub(there),
                    step: None,
                }
            }
        }
    }

    // What those whom a step touches come to.
    fn mixed_by(&self, step: &Stepping) -> u64 {
        let living = if step.anyone {
            self.parts.tree.mixed()
        } else {
            self.mixed_near(step)
        };
        if is_worker(step.worker, self.workers) {
            living.wrapping_add(self.mixed_place(step.worker, step.queued))
        } else {
            living
        }
    }

    fn mixed_near(&self, step: &Stepping) -> u64 {
        let tree = &self.parts.tree;
        let above = match step.parent {
            None => 0,
            Some(parent) => tree.mixed_of(parent),
        };
        above
            .wrapping_add(tree.mixed_of(step.own))
            .wrapping_add(tree.mixed_of(step.child))
    }

    // What a worker has, from this place of its deque on.
    fn mixed_place(&self, worker: u8, from: usize) -> u64
        requires { IsWorker self.now.machine.places worker }
    {
        let hands = &self.parts.hands;
        let mut sum = match hands.hand(worker) {
            None => 0,
            Some(frame) => mixed_in_hand(frame, &self.parts.tree),
        };
        for k in from..hands.len(worker) {
            match hands.queued(worker, k) {
                None => {}
                Some(frame) => sum = sum.wrapping_add(mixed_in_deque(frame, &self.parts.tree)),
            }
        }
        sum
    }
}

// Whether the next action of an instance is an `abort`.
fn is_abort(loaded: &Loaded, frame: &Frame) -> bool {
    match loaded.statement(frame.node(frame.depth() - 1)) {
        None => false,
        Some(node) => matches!(&node.action, Action::Abort),
    }
}

fn lower(sum: u64) -> u32 {
    (sum & 0xffff_ffff) as u32
}
