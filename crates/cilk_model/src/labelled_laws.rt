//! Laws about the definitions. The functions do nothing: their contracts are what is proved.

ghost use Rattle.std.specs.Prelude.{◌≡◌, pos, negsuc, [], ◌∷◌, Some, None, map};
ghost use Rattle.cilk_model.specs.labelled.Bodies.{label, bodies_of};
ghost use Rattle.cilk_model.specs.labelled.Count.{count_program};
ghost use Rattle.cilk_model.specs.labelled.Lines.{action_lines};
ghost use Rattle.cilk_model.specs.labelled.Rows.{fib_program, looped_program, switched_program, choosing_program, walk_by};

/// How the manual's `fib` with an inlet is labelled, and a program of a `do`, a block and a `for`.
pub fn rows_are_labelled()
    ensures count { count_program fib_program ≡ 15 }
    ensures lines { action_lines fib_program ≡ 3 ∷ 5 ∷ 6 ∷ 7 ∷ 8 ∷ 9 ∷ 11 ∷ 12 ∷ 13 ∷ 14 ∷ 16 ∷ 19 ∷ 20 ∷ 21 ∷ 22 ∷ [] }
    ensures braces { map (λ b. b.closing) (bodies_of fib_program) ≡ 11 ∷ 4 ∷ 15 ∷ [] }
    ensures main { (label fib_program).main ≡ Some 2 }
    ensures loop_count { count_program looped_program ≡ 9 }
    ensures loop_lines { action_lines looped_program ≡ 2 ∷ 5 ∷ 7 ∷ 8 ∷ 8 ∷ 8 ∷ 9 ∷ 11 ∷ 12 ∷ [] }
    ensures loop_braces { map (λ b. b.closing) (bodies_of looped_program) ≡ 9 ∷ [] }
{}

/// How a `switch` in a `for` is labelled: its labels are no actions.
pub fn switches_are_labelled()
    ensures count { count_program switched_program ≡ 12 }
    ensures lines { action_lines switched_program ≡ 3 ∷ 4 ∷ 4 ∷ 4 ∷ 5 ∷ 7 ∷ 8 ∷ 10 ∷ 12 ∷ 14 ∷ 17 ∷ 18 ∷ [] }
    ensures braces { map (λ b. b.closing) (bodies_of switched_program) ≡ 12 ∷ [] }
    ensures other_count { count_program choosing_program ≡ 13 }
{}

/// Where a `switch` goes on (C 1990, 6.6.4.2): behind the label of the value, else behind `default`, else behind the whole.
pub fn switches_go_on()
    ensures breaks { walk_by (bodies_of switched_program) (pos 1 ∷ pos 1 ∷ pos 1 ∷ pos 0 ∷ pos 1 ∷ pos 1 ∷ pos 1 ∷ [])
        ≡ Some 1 ∷ Some 2 ∷ Some 3 ∷ Some 5 ∷ Some 6 ∷ Some 7 ∷ Some 4 ∷ Some 3 ∷ [] }
    ensures falls_through { walk_by (bodies_of switched_program) (pos 1 ∷ pos 1 ∷ pos 1 ∷ pos 2 ∷ pos 1 ∷ pos 1 ∷ pos 1 ∷ [])
        ≡ Some 1 ∷ Some 2 ∷ Some 3 ∷ Some 5 ∷ Some 8 ∷ Some 9 ∷ Some 10 ∷ Some 4 ∷ [] }
    ensures by_default { walk_by (bodies_of switched_program) (pos 1 ∷ pos 1 ∷ pos 1 ∷ pos 1 ∷ [])
        ≡ Some 1 ∷ Some 2 ∷ Some 3 ∷ Some 5 ∷ Some 9 ∷ [] }
    ensures negative { walk_by (bodies_of switched_program) (pos 1 ∷ pos 1 ∷ pos 1 ∷ negsuc 0 ∷ [])
        ≡ Some 1 ∷ Some 2 ∷ Some 3 ∷ Some 5 ∷ Some 10 ∷ [] }
    ensures breaks_off { walk_by (bodies_of choosing_program) (pos 1 ∷ pos 3 ∷ pos 1 ∷ pos 1 ∷ [])
        ≡ Some 1 ∷ Some 2 ∷ Some 6 ∷ Some 7 ∷ Some 1 ∷ [] }
    ensures goes_round { walk_by (bodies_of choosing_program) (pos 1 ∷ pos 2 ∷ pos 1 ∷ []) ≡ Some 1 ∷ Some 2 ∷ Some 5 ∷ Some 1 ∷ [] }
    ensures two_labels { walk_by (bodies_of choosing_program) (pos 1 ∷ pos 5 ∷ pos 1 ∷ []) ≡ Some 1 ∷ Some 2 ∷ Some 4 ∷ Some 5 ∷ [] }
    ensures default_in_front { walk_by (bodies_of choosing_program) (pos 1 ∷ pos 7 ∷ pos 1 ∷ []) ≡ Some 1 ∷ Some 2 ∷ Some 4 ∷ Some 5 ∷ [] }
    ensures ends { walk_by (bodies_of choosing_program) (pos 0 ∷ pos 4 ∷ pos 1 ∷ []) ≡ Some 1 ∷ Some 8 ∷ Some 11 ∷ Some 12 ∷ [] }
    ensures no_label { walk_by (bodies_of choosing_program) (pos 0 ∷ pos 1 ∷ []) ≡ Some 1 ∷ Some 8 ∷ Some 12 ∷ [] }
    ensures inner { walk_by (bodies_of choosing_program) (pos 0 ∷ pos 0 ∷ pos 4 ∷ []) ≡ Some 1 ∷ Some 8 ∷ Some 9 ∷ Some 11 ∷ [] }
    ensures returns { walk_by (bodies_of choosing_program) (pos 0 ∷ pos 1 ∷ pos 1 ∷ []) ≡ Some 1 ∷ Some 8 ∷ Some 12 ∷ None ∷ [] }
{}
