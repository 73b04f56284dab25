//! Laws about nodes, bodies and slots. The functions do nothing: their contracts are what is proved.

ghost use Rattle.cilk_load_nodes.specs.Laws.{HeadsTellLists, NoHeadTellsEnd, NumbersAreWithin, NodesStandForLists, SuccessorsStandForNext};
ghost use Rattle.cilk_load_nodes.specs.Laws.{EntriesStandForStarts};
ghost use Rattle.cilk_load_nodes.specs.Laws.{BodiesHaveTables, TablesHaveBodies};
ghost use Rattle.std.specs.Prelude.{◌≡◌, pos, negsuc, [], ◌∷◌, Some, None, map};
ghost use Rattle.cilk_load_nodes.specs.declared.area.Area.TheVariants.{Own, Outer};
ghost use Rattle.cilk_model.specs.labelled.Bodies.{label};
ghost use Rattle.cilk_model.specs.labelled.Labelled.{local, outer};
ghost use Rattle.cilk_model.specs.labelled.Rows.{fib_program, switched_program, choosing_program};
ghost use Rattle.cilk_load_nodes.specs.Bodies.{body_table};
ghost use Rattle.cilk_load_nodes.specs.Slots.{slot_at, slot_of};
ghost use Rattle.cilk_load_nodes.specs.Rows.{loops_program, nexts, others, leads, bodies};

/// A node stands for one list of items that a body reaches, and its successors for the next ones.
pub fn nodes_stand_for_lists()
    ensures heads { HeadsTellLists }
    ensures no_head { NoHeadTellsEnd }
    ensures within { NumbersAreWithin }
    ensures nodes { NodesStandForLists }
    ensures successors { SuccessorsStandForNext }
    ensures entries { EntriesStandForStarts }
{}

/// The number of a body tells its table.
pub fn bodies_have_tables()
    ensures tables { BodiesHaveTables }
    ensures bodies { TablesHaveBodies }
{}

/// What comes behind the actions of worked programs, and where their variables lie.
pub fn rows_are_nodes()
    ensures loops { nexts loops_program (1 ∷ 2 ∷ 3 ∷ 4 ∷ 5 ∷ 6 ∷ 7 ∷ 8 ∷ 9 ∷ 10 ∷ 11 ∷ [])
        ≡ Some (Some 2) ∷ Some (Some 4) ∷ Some (Some 2) ∷ Some (Some 5) ∷ Some (Some 3) ∷ Some (Some 7) ∷ Some (Some 8) ∷ Some (Some 7)
        ∷ Some None ∷ Some None ∷ None ∷ [] }
    ensures other_loops { others loops_program (2 ∷ 4 ∷ 8 ∷ []) ≡ Some (Some 7) ∷ Some (Some 6) ∷ Some (Some 9) ∷ [] }
    ensures inlets { nexts fib_program (1 ∷ 2 ∷ 3 ∷ 4 ∷ 5 ∷ 11 ∷ 12 ∷ 15 ∷ [])
        ≡ Some (Some 5) ∷ Some (Some 3) ∷ Some None ∷ Some None ∷ Some (Some 6) ∷ Some None ∷ Some (Some 13) ∷ Some None ∷ [] }
    ensures bodies { bodies fib_program (1 ∷ 2 ∷ 4 ∷ 5 ∷ 12 ∷ []) ≡ Some 0 ∷ Some 1 ∷ Some 1 ∷ Some 0 ∷ Some 2 ∷ [] }
    ensures entries { map (λ b. b.entry) (map body_table (label fib_program).bodies) ≡ 1 ∷ 2 ∷ 12 ∷ [] }
    ensures own { slot_of (label loops_program) 0 (local 1) ≡ slot_at Own 3 0 }
    ensures outer { slot_of (label fib_program) 1 (outer 1) ≡ slot_at Outer 1 0 }
{}

/// What comes behind the actions of `switch`es: by each value, and behind the statements of their bodies.
pub fn rows_of_switches_are_nodes()
    ensures leads { leads switched_program 5 (pos 0 ∷ pos 1 ∷ pos 2 ∷ negsuc 0 ∷ [])
        ≡ Some (Some 6) ∷ Some (Some 9) ∷ Some (Some 8) ∷ Some (Some 10) ∷ [] }
    ensures behind { nexts switched_program (6 ∷ 7 ∷ 8 ∷ 9 ∷ 10 ∷ [])
        ≡ Some (Some 7) ∷ Some (Some 4) ∷ Some (Some 9) ∷ Some (Some 10) ∷ Some (Some 4) ∷ [] }
    ensures in_loop { leads choosing_program 2 (pos 2 ∷ pos 3 ∷ pos 5 ∷ pos 7 ∷ [])
        ≡ Some (Some 5) ∷ Some (Some 6) ∷ Some (Some 4) ∷ Some (Some 4) ∷ [] }
    ensures jumps { nexts choosing_program (3 ∷ 4 ∷ 5 ∷ 6 ∷ []) ≡ Some (Some 4) ∷ Some (Some 5) ∷ Some (Some 1) ∷ Some (Some 7) ∷ [] }
    ensures no_default { leads choosing_program 8 (pos 0 ∷ pos 1 ∷ pos 4 ∷ []) ≡ Some (Some 9) ∷ Some (Some 12) ∷ Some (Some 11) ∷ [] }
    ensures inner { leads choosing_program 9 (pos 1 ∷ pos 4 ∷ []) ≡ Some (Some 10) ∷ Some (Some 11) ∷ [] }
    ensures tests { leads switched_program 3 (pos 0 ∷ pos 1 ∷ negsuc 0 ∷ []) ≡ Some (Some 11) ∷ Some (Some 5) ∷ Some (Some 5) ∷ [] }
{}
