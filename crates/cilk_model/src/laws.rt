//! Laws about the definitions. The functions do nothing: their contracts are what is proved.

ghost use Rattle.std.specs.Prelude.{◌≡◌, ℕ, ℤ, pos, ◌==◌, not, true, List, [], ◌∷◌, ◌++◌, Some, None, codes};
ghost use Rattle.std.specs.List.{list_all};
ghost use Rattle.std.specs.Fmt.{signed_decimal};
ghost use Rattle.cilk_model.specs.Printing.{printed};
ghost use Rattle.cilk_model.specs.State as state;
ghost use Rattle.cilk_model.specs.Choice as choice;
ghost use Rattle.cilk_model.specs.Fate as fate;
ghost use Rattle.cilk_model.specs.Trees.{counting, first_of_two, adding, holding, asking, asking_late, crossing, summing};
ghost use Rattle.cilk_model.specs.Programs.{doubling, passing, descending, filling, overrunning, reading_late, rounding, marking, printing};
ghost use Rattle.cilk_model.specs.Programs.{locks_twice, locks_unset, taking_away, from_the_left, others_last, turning, hiding, putting};
ghost use Rattle.cilk_model.specs.Programs.{switching, switching_on};
ghost use Rattle.cilk_model.specs.Rows.{s, p, t, steps, outcome_of, closing_of, refusal_then, fate_after, front, stops, both, woken, marks};

/// Small programs in one thread, and two children that count at once.
pub fn rows_of_steps_come_out()
    ensures rounds { outcome_of summing (steps 24 1) ≡ Some (state.finished (pos 7)) }
    ensures early { outcome_of counting (s 1 ∷ s 1 ∷ s 1 ∷ s 1 ∷ p 1 ∷ s 1 ∷ s 1 ∷ s 1 ∷ s 1 ∷ p 1 ∷ s 1 ∷ s 1 ∷ [])
        ≡ Some (state.finished (pos 2)) }
    ensures late { outcome_of counting (s 1 ∷ t 2 1 ∷ s 2 ∷ s 1 ∷ s 2 ∷ s 1 ∷ s 2 ∷ s 1 ∷ s 2 ∷ p 2 ∷ s 2 ∷ s 2 ∷ [])
        ≡ Some (state.finished (pos 1)) }
    ensures synched { outcome_of asking (s 1 ∷ s 1 ∷ p 1 ∷ s 1 ∷ s 1 ∷ s 1 ∷ []) ≡ Some (state.finished (pos 1)) }
    ensures not_synched { outcome_of asking (s 1 ∷ t 2 1 ∷ s 2 ∷ s 1 ∷ s 2 ∷ s 2 ∷ []) ≡ Some (state.finished (pos 0)) }
    ensures value_taken { outcome_of asking_late (s 1 ∷ s 1 ∷ p 1 ∷ steps 5 1) ≡ Some (state.finished (pos 105)) }
    ensures value_waits { outcome_of asking_late (s 1 ∷ t 2 1 ∷ s 2 ∷ s 1 ∷ steps 4 2) ≡ Some (state.finished (pos 5)) }
{}

/// Inlets and `abort`.
pub fn rows_of_inlets_come_out()
    ensures stops { closing_of first_of_two 2 stops ≡ Some (codes "2\n1\nmain returned 1\n") }
    ensures both { closing_of first_of_two 2 both ≡ Some (codes "1\n2\nmain returned 2\n") }
    ensures woken { closing_of first_of_two 3 woken ≡ Some (codes "1\nmain returned 1\n") }
    ensures others_last { closing_of others_last 1 (steps 1 1) ≡ Some (codes "trapped Shift in / at 4, line 7\n") }
    ensures array { closing_of putting 1 (s 1 ∷ s 1 ∷ p 1 ∷ s 1 ∷ s 1 ∷ s 1 ∷ s 1 ∷ s 1 ∷ s 1 ∷ p 1 ∷ steps 6 1)
        ≡ Some (codes "main returned 3404\n") }
{}

/// Locks.
pub fn rows_of_locks_come_out()
    ensures waits { refusal_then adding (s 1 ∷ s 1 ∷ t 2 1 ∷ s 2 ∷ s 1 ∷ []) (s 2) ≡ Some choice.waiting }
    ensures held { closing_of holding 2 (s 1 ∷ s 1 ∷ s 1 ∷ []) ≡ Some (codes "trapped HeldLock in / at 4, line 7\n") }
    ensures stuck { closing_of crossing 2 (s 1 ∷ s 1 ∷ s 1 ∷ t 2 1 ∷ s 2 ∷ s 1 ∷ s 2 ∷ []) ≡ Some (codes "stuck after 7 choices\n") }
    ensures taken_twice { closing_of locks_twice 1 (steps 3 1) ≡ Some (codes "trapped Lock in / at 3, line 5\n") }
    ensures never_made { closing_of locks_unset 1 (steps 1 1) ≡ Some (codes "trapped Lock in / at 1, line 3\n") }
{}

/// What became of the children, at places of one list of choices.
pub fn rows_of_fates_come_out()
    ensures returned { fate_after first_of_two (front 8 stops) (1 ∷ []) ≡ Some fate.has_returned }
    ensures delivered { fate_after first_of_two (front 10 stops) (1 ∷ []) ≡ Some (fate.was_delivered 10) }
    ensures lives { fate_after first_of_two (front 12 stops) (2 ∷ []) ≡ Some fate.lives }
    ensures aborted { fate_after first_of_two (front 13 stops) (2 ∷ []) ≡ Some (fate.was_aborted 13) }
    ensures never_made { fate_after first_of_two (front 13 stops) (3 ∷ []) ≡ None }
{}

/// Which choices are refused at the start, on the way and after the end.
pub fn rows_of_refusals_come_out()
    ensures steal_nothing { refusal_then counting [] (t 2 1) ≡ Some choice.deque_empty }
    ensures pop_nothing { refusal_then counting [] (p 2) ≡ Some choice.deque_empty }
    ensures steal_own { refusal_then counting [] (t 2 2) ≡ Some choice.no_worker }
    ensures no_victim { refusal_then counting [] (t 2 65) ≡ Some choice.no_worker }
    ensures no_worker { refusal_then counting [] (s 65) ≡ Some choice.no_worker }
    ensures empty_hand { refusal_then counting [] (s 2) ≡ Some choice.hand_empty }
    ensures full_hand { refusal_then counting [] (p 1) ≡ Some choice.busy }
    ensures busy_thief { refusal_then counting [] (t 1 2) ≡ Some choice.busy }
    ensures own_deque { refusal_then counting (s 1 ∷ t 2 1 ∷ s 2 ∷ s 2 ∷ s 2 ∷ s 2 ∷ []) (t 2 1) ≡ Some choice.busy }
{}

/// A place takes its child's value when the delivery is taken, and not before.
pub fn rows_of_deliveries_come_out()
    ensures early { closing_of doubling 2 (s 1 ∷ s 1 ∷ s 1 ∷ p 1 ∷ steps 5 1) ≡ Some (codes "main returned 24\n") }
    ensures late { closing_of doubling 2 (s 1 ∷ s 1 ∷ t 2 1 ∷ s 2 ∷ s 1 ∷ steps 4 2) ≡ Some (codes "main returned 9\n") }
    ensures taken { fate_after doubling (s 1 ∷ s 1 ∷ t 2 1 ∷ s 2 ∷ s 1 ∷ steps 2 2) (1 ∷ []) ≡ Some (fate.was_delivered 7) }
    ensures old_value_first { closing_of taking_away 1 (s 1 ∷ s 1 ∷ s 1 ∷ s 1 ∷ s 1 ∷ s 1 ∷ p 1 ∷ steps 3 1)
        ≡ Some (codes "main returned 11\n") }
    ensures overflow { closing_of passing 1 (s 1 ∷ s 1 ∷ s 1 ∷ p 1 ∷ s 1 ∷ []) ≡ Some (codes "trapped Overflow in / at 4, line 6\n") }
{}

/// Control, arrays and calls in one instance.
pub fn rows_of_control_come_out()
    ensures rounds { closing_of rounding 1 (steps 17 1) ≡ Some (codes "main returned 6\n") }
    ensures array { closing_of filling 1 (steps 4 1) ≡ Some (codes "main returned 14\n") }
    ensures index { closing_of overrunning 1 (steps 1 1) ≡ Some (codes "trapped Index in / at 1, line 3\n") }
    ensures call { closing_of reading_late 1 (steps 4 1) ≡ Some (codes "main returned 2\n") }
    ensures turns { closing_of turning 1 (steps 29 1) ≡ Some (codes "main returned 15\n") }
    ensures turns_on { closing_of turning 1 (steps 28 1) ≡ Some (codes "limit after 28 choices\n") }
    ensures hides { closing_of hiding 1 (steps 6 1) ≡ Some (codes "main returned 750\n") }
    ensures prints { closing_of printing 1 (steps 2 1) ≡ Some (codes "-2147483648%\t0\nmain returned 0\n") }
{}

/// `switch`es in loops: fall-through, `default`, `break`, `continue`, an initialiser that is never reached, and a test that traps.
pub fn rows_of_switches_come_out()
    ensures labels { closing_of switching 1 (steps 25 1) ≡ Some (codes "main returned 311\n") }
    ensures jumps { closing_of switching_on 1 (steps 10 1) ≡ Some (codes "trapped ZeroDivide in / at 8, line 14\n") }
{}

/// An `abort` marks grandchildren too; what is marked ends after its children.
pub fn rows_of_marks_come_out()
    ensures ends { closing_of marking 2 marks ≡ Some (codes "main returned 0\n") }
    ensures grandchild { fate_after marking (front 13 marks) (1 ∷ 1 ∷ []) ≡ Some (fate.was_aborted 13) }
    ensures child { fate_after marking (front 14 marks) (1 ∷ []) ≡ Some (fate.was_aborted 14) }
    ensures live { fate_after marking (front 12 marks) (1 ∷ 1 ∷ []) ≡ Some fate.lives }
{}

/// An instance has 256 activations at most, and arguments are evaluated from the left.
pub fn rows_of_calls_come_out()
    ensures depth { closing_of descending 1 (steps 256 1) ≡ Some (codes "trapped Depth in / at 1, line 2\n") }
    ensures limit { closing_of descending 1 (steps 255 1) ≡ Some (codes "limit after 255 choices\n") }
    ensures arguments { closing_of from_the_left 1 (steps 1 1) ≡ Some (codes "trapped ZeroDivide in / at 3, line 6\n") }
{}

/// What `printf` writes: bytes that are no `%` as they are, the next number in decimal for `%d`, and `%` for `%%` (C 1990, 7.9.6.3).
pub fn formats_are_printed()
    ensures plain { (front rest : List ℕ) (zs : List ℤ) → list_all (λ b. not (b == 37)) front ≡ true
        → printed (front ++ rest) zs ≡ front ++ printed rest zs }
    ensures number { (rest : List ℕ) (z : ℤ) (zs : List ℤ) → printed (codes "%d" ++ rest) (z ∷ zs) ≡ signed_decimal z ++ printed rest zs }
    ensures percent { (rest : List ℕ) (zs : List ℤ) → printed (codes "%%" ++ rest) zs ≡ codes "%" ++ printed rest zs }
    ensures nothing { (zs : List ℤ) → printed [] zs ≡ [] }
{}
