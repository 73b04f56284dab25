//! Laws about the places of the workers. The functions do nothing: their contracts are what is
//! proved.

ghost use Rattle.std.specs.Prelude.{◌≡◌, ◌≢◌, ◌+◌, ◌++◌, ◌∷◌, [], ℕ, Bool, List, Option, Some, None, length, map, option_map, replicate};
ghost use Rattle.cilk_frame.specs.model.Path.{Path, same_path};
ghost use Rattle.cilk_frame.specs.model.Scheduler as model;
ghost use Rattle.cilk_frame.specs.Frames.{Frame};
ghost use Rattle.cilk_frame.specs.model.Hands.{WorkerOf, no_place, IsWorker, worker_at, hand_of, deque_of, with_hand, with_deque, top_of, below_top};
ghost use Rattle.cilk_frame.specs.model.Hands.{bottom_of, above_bottom, named};
ghost use Rattle.cilk_sched.specs.Count.{once, count_where, AllHeld, IsCounted};

/// A worker has what it was given, and all others keep what they have.
pub fn others_keep_their_places()
    ensures hand { (places : List (WorkerOf Frame)) (w : ℕ) (hand : Option Frame) → IsWorker places w
        → hand_of (with_hand places w hand) w ≡ hand }
    ensures its_deque { (places : List (WorkerOf Frame)) (w : ℕ) (hand : Option Frame) → IsWorker places w
        → deque_of (with_hand places w hand) w ≡ deque_of places w }
    ensures deque { (places : List (WorkerOf Frame)) (w : ℕ) (deque : List Frame) → IsWorker places w
        → deque_of (with_deque places w deque) w ≡ deque }
    ensures its_hand { (places : List (WorkerOf Frame)) (w : ℕ) (deque : List Frame) → IsWorker places w
        → hand_of (with_deque places w deque) w ≡ hand_of places w }

    ensures others_of_hand { (places : List (WorkerOf Frame)) (w v : ℕ) (hand : Option Frame) → IsWorker places w → IsWorker places v → v ≢ w
        → worker_at (with_hand places w hand) v ≡ worker_at places v }
    ensures others_of_deque { (places : List (WorkerOf Frame)) (w v : ℕ) (deque : List Frame) → IsWorker places w → IsWorker places v → v ≢ w
        → worker_at (with_deque places w deque) v ≡ worker_at places v }
    ensures workers_of_hand { (places : List (WorkerOf Frame)) (w : ℕ) (hand : Option Frame) → length (with_hand places w hand) ≡ length places }
    ensures workers_of_deque { (places : List (WorkerOf Frame)) (w : ℕ) (deque : List Frame) → length (with_deque places w deque) ≡ length places }
{}

/// Whatever the test, a move changes the number of the frames that pass it by the frame that it
/// moves, and by nothing else.
pub fn moves_are_counted()
    ensures none { (test : Frame → Bool) (n : ℕ) → count_where test (replicate n no_place) ≡ 0 }
    ensures gives { (test : Frame → Bool) (places : List (WorkerOf Frame)) (w : ℕ) (f : Frame) → IsWorker places w → hand_of places w ≡ None
        → count_where test (with_hand places w (Some f)) ≡ count_where test places + once test (Some f) }
    ensures takes { (test : Frame → Bool) (places : List (WorkerOf Frame)) (w : ℕ) → IsWorker places w
        → count_where test (with_hand places w None) + once test (hand_of places w) ≡ count_where test places }
    ensures pushes { (test : Frame → Bool) (places : List (WorkerOf Frame)) (w : ℕ) (f : Frame) → IsWorker places w
        → count_where test (with_deque places w (deque_of places w ++ f ∷ [])) ≡ count_where test places + once test (Some f) }
    ensures pops { (test : Frame → Bool) (places : List (WorkerOf Frame)) (w : ℕ) → IsWorker places w
        → count_where test (with_deque places w (above_bottom (deque_of places w))) + once test (bottom_of (deque_of places w)) ≡ count_where test places }
    ensures steals { (test : Frame → Bool) (places : List (WorkerOf Frame)) (v : ℕ) → IsWorker places v
        → count_where test (with_deque places v (below_top (deque_of places v))) + once test (top_of (deque_of places v)) ≡ count_where test places }
{}

/// Each frame that a worker has is counted by every test that it passes.
pub fn each_frame_is_counted()
    ensures { (places : List (WorkerOf Frame)) → AllHeld (IsCounted places) places }
{}

/// Under any name that each frame has, the places hold the paths that those of the definition of
/// runs hold after the same move.
pub fn names_go_along()
    ensures none { (name : Frame → Path) (n : ℕ) → named name (replicate n no_place) ≡ replicate n model.no_place }
    ensures gives { (name : Frame → Path) (places : List (WorkerOf Frame)) (w : ℕ) (f : Frame)
        → named name (with_hand places w (Some f)) ≡ model.with_hand (named name places) w (Some (name f)) }
    ensures takes { (name : Frame → Path) (places : List (WorkerOf Frame)) (w : ℕ)
        → named name (with_hand places w None) ≡ model.with_hand (named name places) w None }
    ensures pushes { (name : Frame → Path) (places : List (WorkerOf Frame)) (w : ℕ) (f : Frame)
        → named name (with_deque places w (deque_of places w ++ f ∷ []))
        ≡ model.with_deque (named name places) w (model.deque_of (named name places) w ++ name f ∷ []) }
    ensures pops { (name : Frame → Path) (places : List (WorkerOf Frame)) (w : ℕ)
        → named name (with_deque places w (above_bottom (deque_of places w)))
        ≡ model.with_deque (named name places) w (model.above_bottom (model.deque_of (named name places) w)) }
    ensures steals { (name : Frame → Path) (places : List (WorkerOf Frame)) (v : ℕ)
        → named name (with_deque places v (below_top (deque_of places v)))
        ≡ model.with_deque (named name places) v (model.below_top (model.deque_of (named name places) v)) }

    // A pop or a steal, and then a give of what it took.
    ensures popped { (name : Frame → Path) (parked : Path → Bool) (places : List (WorkerOf Frame)) (w : ℕ)
        → named name (with_hand (with_deque places w (above_bottom (deque_of places w))) w (bottom_of (deque_of places w)))
        ≡ (model.popped (record { places = named name places; parked = parked }) w).places }
    ensures stolen { (name : Frame → Path) (parked : Path → Bool) (places : List (WorkerOf Frame)) (w v : ℕ)
        → named name (with_hand (with_deque places v (below_top (deque_of places v))) w (top_of (deque_of places v)))
        ≡ (model.stolen (record { places = named name places; parked = parked }) w v).places }
{}

/// What the named places hold is what the workers have, worker by worker.
pub fn names_are_read()
    ensures workers { (name : Frame → Path) (places : List (WorkerOf Frame)) → length (named name places) ≡ length places }
    ensures hand { (name : Frame → Path) (places : List (WorkerOf Frame)) (w : ℕ)
        → model.hand_of (named name places) w ≡ option_map name (hand_of places w) }
    ensures deque { (name : Frame → Path) (places : List (WorkerOf Frame)) (w : ℕ)
        → model.deque_of (named name places) w ≡ map name (deque_of places w) }
    ensures bottom { (name : Frame → Path) (deque : List Frame) → option_map name (bottom_of deque) ≡ model.bottom_of (map name deque) }
    ensures above { (name : Frame → Path) (deque : List Frame) → map name (above_bottom deque) ≡ model.above_bottom (map name deque) }
    ensures top { (name : Frame → Path) (deque : List Frame) → option_map name (top_of deque) ≡ model.top_of (map name deque) }
    ensures below { (name : Frame → Path) (deque : List Frame) → map name (below_top deque) ≡ model.below_top (map name deque) }

    // A path is held as often as a frame is there that it names.
    ensures counted { (name : Frame → Path) (p : Path) (places : List (WorkerOf Frame))
        → count_where (same_path p) (named name places) ≡ count_where (λ f. same_path p (name f)) places }

    // Frames that are elsewhere may have any names.
    ensures elsewhere { (name other : Frame → Path) (places : List (WorkerOf Frame)) → AllHeld (λ f. name f ≡ other f) places
        → named name places ≡ named other places }
{}

/// Each move is undone by another one.
pub fn moves_come_back()
    ensures gives { (places : List (WorkerOf Frame)) (w : ℕ) (f : Frame) → IsWorker places w → hand_of places w ≡ None
        → with_hand (with_hand places w (Some f)) w None ≡ places }
    ensures takes { (places : List (WorkerOf Frame)) (w : ℕ) → IsWorker places w
        → with_hand (with_hand places w None) w (hand_of places w) ≡ places }
    ensures changes { (places : List (WorkerOf Frame)) (w : ℕ) (f g : Frame) (back : Frame → Frame) → IsWorker places w
        → hand_of places w ≡ Some f → back g ≡ f
        → with_hand (with_hand places w (Some g)) w (option_map back (hand_of (with_hand places w (Some g)) w)) ≡ places }
    ensures pushes { (places : List (WorkerOf Frame)) (w : ℕ) (f : Frame) → IsWorker places w
        → (let now : List (WorkerOf Frame) = with_deque places w (deque_of places w ++ f ∷ []) in
        (bottom_of (deque_of now w) ≡ Some f) × (with_deque now w (above_bottom (deque_of now w)) ≡ places)) }
    ensures pops { (places : List (WorkerOf Frame)) (w : ℕ) (f : Frame) → IsWorker places w → bottom_of (deque_of places w) ≡ Some f
        → (let now : List (WorkerOf Frame) = with_deque places w (above_bottom (deque_of places w)) in
        with_deque now w (deque_of now w ++ f ∷ []) ≡ places) }
    ensures steals { (places : List (WorkerOf Frame)) (v : ℕ) (f : Frame) → IsWorker places v → top_of (deque_of places v) ≡ Some f
        → (let now : List (WorkerOf Frame) = with_deque places v (below_top (deque_of places v)) in
        with_deque now v (f ∷ deque_of now v) ≡ places) }
{}
