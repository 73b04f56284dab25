//! Worked programs. The functions do nothing: their contracts are rows, which come out by computing.

ghost use Rattle.std.specs.Prelude.{◌≡◌, pos, [], ◌∷◌, map, Some, option_map};
ghost use Rattle.std.specs.List.Sorted.{apply_swaps};
ghost use Rattle.cilk_machine_agree.specs.model.Trees.{crossing};
ghost use Rattle.cilk_machine_agree.specs.model.End.{finished, stuck};
ghost use Rattle.cilk_machine_agree.specs.explore.Rows.{ending_of, births_of, instances_of, places_of, racing, kept, first_is_lost, second_is_lost};
ghost use Rattle.cilk_machine_agree.specs.explore.Rows.{crossed, crossed_by_three, branching, downwards, sideways, exchange, by_second, by_third};
ghost use Rattle.cilk_machine_agree.specs.explore.Names.{renamed_choice};

/// Two children that read a sum and write it back: three endings, of twelve choices each.
pub fn rows_of_a_race_come_out()
    ensures kept { ending_of racing 2 kept ≡ Some (record { end = finished (pos 30); output = [] }) }
    ensures first_is_lost { ending_of racing 2 first_is_lost ≡ Some (record { end = finished (pos 20); output = [] }) }
    ensures second_is_lost { ending_of racing 2 second_is_lost ≡ Some (record { end = finished (pos 10); output = [] }) }
{}

/// A program that is stuck has one ending, after however many choices of however many workers.
pub fn rows_of_locks_come_out()
    ensures crossed { ending_of crossing 2 crossed ≡ Some (record { end = stuck; output = [] }) }
    ensures crossed_by_three { ending_of crossing 3 crossed_by_three ≡ Some (record { end = stuck; output = [] }) }
{}

/// Two lists of choices behind which the instances were born in two orders, and all else is the same.
pub fn rows_of_sameness_come_out()
    ensures downwards { births_of branching 2 downwards ≡ Some ([] ∷ (1 ∷ []) ∷ (1 ∷ 1 ∷ []) ∷ (2 ∷ []) ∷ []) }
    ensures sideways { births_of branching 2 sideways ≡ Some ([] ∷ (1 ∷ []) ∷ (2 ∷ []) ∷ (1 ∷ 1 ∷ []) ∷ []) }
    ensures same { instances_of branching 2 downwards ([] ∷ (1 ∷ []) ∷ (2 ∷ []) ∷ (1 ∷ 1 ∷ []) ∷ (3 ∷ []) ∷ [])
        ≡ instances_of branching 2 sideways ([] ∷ (1 ∷ []) ∷ (2 ∷ []) ∷ (1 ∷ 1 ∷ []) ∷ (3 ∷ []) ∷ []) }
    ensures places { places_of branching 2 downwards ≡ places_of branching 2 sideways }
{}

/// Workers by other names choose by these names, and have what the others had; one more that is idle changes no ending.
pub fn rows_of_names_come_out()
    ensures choices { map (renamed_choice exchange) by_second ≡ by_third }
    ensures places { places_of racing 3 by_third ≡ option_map (λ places. apply_swaps places exchange) (places_of racing 3 by_second) }
    ensures renamed { ending_of racing 3 (map (renamed_choice exchange) first_is_lost) ≡ Some (record { end = finished (pos 20); output = [] }) }
    ensures idle { ending_of racing 3 first_is_lost ≡ Some (record { end = finished (pos 20); output = [] }) }
{}
