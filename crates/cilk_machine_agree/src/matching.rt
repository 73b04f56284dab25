//! Whether the workers of two machines have the same in their hands and deques, whatever their names are.

ghost use Rattle.std.specs.Prelude.{◌≡◌, ◌<◌, ◌≤◌, ◌+◌, ℕ, true, All, length, Some, IfSome, slice_index};
ghost use Rattle.cilk_machine_agree.specs.model.Hands.{IsWorker, hand_of, deque_of};
ghost use Rattle.cilk_machine_agree.specs.explore.Alike.{SameHeld, SameHand, SameDeque, SamePlacesBut};
ghost use Rattle.cilk_machine_agree.specs.Matching.{IsSameAt};

use cilk_sched::Hands;
use cilk_spawn::{Frame, Tree};

/// What the workers of one machine have, and those of another, with the trees that tell the paths of it.
#[derive(Clone, Copy)]
pub struct Both<'a> {
    pub hands: &'a Hands,
    pub tree: &'a Tree,
    pub others: &'a Hands,
    pub other: &'a Tree,
}

impl<'a> Both<'a> {
    /// Whether the workers of the one have, in any order, what those of the other have. For each worker of the other the first is taken that has the
    /// same and was not taken before. No other would do: two workers have the same only where both have nothing.
    pub fn match_hands(&self, workers: u8) -> bool
        requires here { workers ≡ length self.now.hands.now }
        requires there { workers ≡ length self.now.others.now }
        requires few { workers ≤ 64 }
        ensures { result ≡ true → SamePlacesBut self.now.tree.now.nodes self.now.other.now.nodes self.now.hands.now self.now.others.now }
    {
        let mut numbers = [0u8; 64];
        self.match_by(workers, &mut numbers[..workers as usize])
    }

    // The same, with room for the numbers of the workers. It comes to have them in the order of the other machine.
    fn match_by(&self, workers: u8, order: &mut [u8]) -> bool
        requires here { workers ≡ length self.now.hands.now }
        requires there { workers ≡ length self.now.others.now }
        requires room { workers ≡ length order.old }
        ensures { result ≡ true → SamePlacesBut self.now.tree.now.nodes self.now.other.now.nodes self.now.hands.now self.now.others.now }
    {
        put_numbers(workers, order);
        for k in 0..workers {
            match self.find(k + 1, order) {
                None => return false,
                Some(j) => order.swap(k as usize, j),
            }
        }
        true
    }

    // Where the first stands that has what a worker of the other machine has, from that worker's place on.
    fn find(&self, worker: u8, order: &[u8]) -> Option<usize>
        requires there { IsWorker self.now.others.now worker }
        requires here { All (IsWorker self.now.hands.now) order.now }
        ensures left { IfSome result (λ j. worker ≤ j + 1) }
        ensures within { IfSome result (λ j. j < length order.now) }
        ensures hand { IfSome result (λ j. SameHand self.now.tree.now.nodes self.now.other.now.nodes
            (hand_of self.now.hands.now (slice_index order.now j)) (hand_of self.now.others.now worker)) }
        ensures deque { IfSome result (λ j. SameDeque self.now.tree.now.nodes self.now.other.now.nodes
            (deque_of self.now.hands.now (slice_index order.now j)) (deque_of self.now.others.now worker)) }
    {
        for j in worker as usize - 1..order.len() {
            if self.has_the_same(order[j], worker) {
                return Some(j);
            }
        }
        None
    }

    // Whether a worker of the one has what a worker of the other has.
    fn has_the_same(&self, worker: u8, to: u8) -> bool
        requires here { IsWorker self.now.hands.now worker }
        requires there { IsWorker self.now.others.now to }
        ensures hand { result ≡ true → SameHand self.now.tree.now.nodes self.now.other.now.nodes
            (hand_of self.now.hands.now worker) (hand_of self.now.others.now to) }
        ensures deque { result ≡ true → SameDeque self.now.tree.now.nodes self.now.other.now.nodes
            (deque_of self.now.hands.now worker) (deque_of self.now.others.now to) }
    {
        self.is_same_hand(worker, to) && self.is_same_deque(worker, to)
    }

    fn is_same_hand(&self, worker: u8, to: u8) -> bool
        requires here { IsWorker self.now.hands.now worker }
        requires there { IsWorker self.now.others.now to }
        ensures { result ≡ true → SameHand self.now.tree.now.nodes self.now.other.now.nodes
            (hand_of self.now.hands.now worker) (hand_of self.now.others.now to) }
    {
        match self.hands.hand(worker) {
            None => match self.others.hand(to) {
                None => true,
                Some(_) => false,
            },
            Some(frame) => match self.others.hand(to) {
                None => false,
                Some(held) => is_same_frame(frame, self.tree, held, self.other),
            },
        }
    }

    fn is_same_deque(&self, worker: u8, to: u8) -> bool
        requires here { IsWorker self.now.hands.now worker }
        requires there { IsWorker self.now.others.now to }
        ensures { result ≡ true → SameDeque self.now.tree.now.nodes self.now.other.now.nodes
            (deque_of self.now.hands.now worker) (deque_of self.now.others.now to) }
    {
        let count = self.hands.len(worker);
        if count != self.others.len(to) {
            return false;
        }
        for k in 0..count {
            if !self.is_same_queued(k, worker, to) {
                return false;
            }
        }
        true
    }

    // Whether the frames at place k are the same.
    fn is_same_queued(&self, k: usize, worker: u8, to: u8) -> bool
        requires here { IsWorker self.now.hands.now worker }
        requires there { IsWorker self.now.others.now to }
        requires above { (i : ℕ) → i + 1 ≡ k → IsSameAt self.now i worker to }
        ensures { result ≡ true → IsSameAt self.now k worker to }
    {
        match self.hands.queued(worker, k) {
            None => false,
            Some(frame) => match self.others.queued(to, k) {
                None => false,
                Some(held) => self.is_same_below(k, worker, to, frame, held),
            },
        }
    }

    // Whether two frames at place k are the same. Most instances in a deque were born of the one above them: their paths are compared from there on.
    fn is_same_below(&self, k: usize, worker: u8, to: u8, frame: &Frame, held: &Frame) -> bool
        requires here { IsWorker self.now.hands.now worker }
        requires there { IsWorker self.now.others.now to }
        requires above { (i : ℕ) → i + 1 ≡ k → IsSameAt self.now i worker to }
        ensures { result ≡ true → SameHeld self.now.tree.now.nodes self.now.other.now.nodes frame.now held.now }
    {
        if k == 0 {
            return is_same_frame(frame, self.tree, held, self.other);
        }
        match self.hands.queued(worker, k - 1) {
            None => false,
            Some(near) => match self.others.queued(to, k - 1) {
                None => false,
                Some(by) => {
                    frame.goes_on_as(held)
                        && self
                            .tree
                            .is_same_path_by(frame.id(), self.other, held.id(), near.id(), by.id())
                }
            },
        }
    }
}

// The numbers of the workers, from 1 on.
fn put_numbers(workers: u8, order: &mut [u8])
    requires { workers ≡ length order.old }
    ensures size { length order.new ≡ length order.old }
    ensures numbers { (i : ℕ) → i < length order.new → slice_index order.new i ≡ i + 1 }
{
    for k in 0..workers {
        order[k as usize] = k + 1;
    }
}

fn is_same_frame(frame: &Frame, tree: &Tree, held: &Frame, other: &Tree) -> bool
    ensures { result ≡ true → SameHeld tree.now.nodes other.now.nodes frame.now held.now }
{
    frame.goes_on_as(held) && tree.is_same_path(frame.id(), other, held.id())
}
