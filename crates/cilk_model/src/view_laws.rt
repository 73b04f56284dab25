//! Laws about the definitions. The functions do nothing: their contracts are what is proved.

ghost use Rattle.std.specs.Prelude.{◌≡◌, [], ◌∷◌, Some, None, codes};
ghost use Rattle.cilk_model.specs.Trees.{first_of_two, counting, asking, adding};
ghost use Rattle.cilk_model.specs.Programs.{doubling, filling, marking};
ghost use Rattle.cilk_model.specs.Rows.{s, t, front, stops, both, steps};
ghost use Rattle.cilk_model.specs.What as what;
ghost use Rattle.cilk_model.specs.ViewRows.{view_after, short};

/// A small program before each choice, and at its end.
pub fn rows_of_one_worker_come_out()
    ensures first { view_after short 1 [] 2 what.where_it_stands ≡ Some (codes "position 0 of 2: running\nworker 1 at / line 2\n") }
    ensures second { view_after short 1 (steps 1 1) 2 what.where_it_stands ≡ Some (codes "position 1 of 2: running\nworker 1 at / line 3\n") }
    ensures frame { view_after short 1 (steps 1 1) 2 (what.frame []) ≡ Some (codes "main line 3\n    x = 2\n") }
    ensures last { view_after short 1 (steps 2 1) 2 what.where_it_stands ≡ Some (codes "position 2 of 2: finished 42\nworker 1 idle\n") }
    ensures gone { view_after short 1 (steps 2 1) 2 (what.frame []) ≡ None }
    ensures list { view_after short 1 [] 2 what.list
        ≡ Some (codes "     1         cilk int main(void) {\n     2      1      int x = 2;\n     3      2      return x * 21;\n     4      3  }\n") }
{}

/// An inlet of `main` runs, and has marked the other child.
pub fn rows_of_two_workers_come_out()
    ensures tree { view_after first_of_two 2 (front 12 stops) 16 what.tree
        ≡ Some (codes "/ main hand 1 line 12\n/1 look delivered 10\n/2 look hand 2 line 4 aborted\n") }
    ensures aborted { view_after first_of_two 2 (front 13 stops) 16 what.tree
        ≡ Some (codes "/ main hand 1 line 12\n/1 look delivered 10\n/2 look aborted 13\n") }
    ensures frame { view_after first_of_two 2 (front 12 stops) 16 (what.frame [])
        ≡ Some (codes "main line 15\n    best = 1\ntake line 12\n    v = 1\n") }
    ensures deques { view_after first_of_two 2 (front 12 stops) 16 what.deques ≡ Some (codes "1: hand / deque\n2: hand /2 deque\n") }
    ensures globals { view_after first_of_two 2 (front 12 stops) 16 what.globals ≡ Some (codes "done = 1\n") }
    ensures output { view_after first_of_two 2 (front 12 stops) 16 what.output ≡ Some (codes "4 bytes\n2\n1\n\n") }
    ensures ends { view_after first_of_two 2 both 21 what.tree
        ≡ Some (codes "/ main returned\n/1 look delivered 12\n/2 look delivered 16\n") }
{}

/// Where the instances are: the tree in the order of the paths, and deques from top to bottom, of which a thief takes the top.
pub fn rows_of_places_come_out()
    ensures queued { view_after counting 2 (s 1 ∷ []) 1 what.tree ≡ Some (codes "/ main deque 1 line 9\n/1 inc hand 1 line 4\n") }
    ensures parked { view_after asking 2 (s 1 ∷ t 2 1 ∷ s 2 ∷ s 2 ∷ []) 4 what.tree ≡ Some (codes "/ main parked line 7\n/1 f hand 1 line 2\n") }
    ensures waiting { view_after doubling 2 (s 1 ∷ s 1 ∷ t 2 1 ∷ s 1 ∷ []) 4 what.tree
        ≡ Some (codes "/ main hand 2 line 7 waiting 1\n/1 f returned\n") }
    ensures ordered { view_after marking 2 (s 1 ∷ t 2 1 ∷ s 2 ∷ s 1 ∷ []) 4 what.tree
        ≡ Some (codes "/ main deque 2 line 18\n/1 f deque 1 line 7\n/1/1 g hand 1 line 2\n/2 q hand 2 line 10\n") }
    ensures deep { view_after marking 2 (s 1 ∷ s 1 ∷ []) 2 what.deques ≡ Some (codes "1: hand /1/1 deque / /1\n2: hand - deque\n") }
    ensures stolen { view_after marking 2 (s 1 ∷ s 1 ∷ t 2 1 ∷ []) 3 what.deques ≡ Some (codes "1: hand /1/1 deque /1\n2: hand / deque\n") }
    ensures where_lines { view_after marking 2 (s 1 ∷ s 1 ∷ []) 2 what.where_it_stands
        ≡ Some (codes "position 2 of 2: running\nworker 1 at /1/1 line 2\nworker 2 idle\n") }
{}

/// What the variables and the locks of the top level hold.
pub fn rows_of_globals_come_out()
    ensures unset { view_after adding 2 [] 0 what.globals ≡ Some (codes "l: unset\ng = 0\n") }
    ensures free { view_after adding 2 (s 1 ∷ []) 1 what.globals ≡ Some (codes "l: free\ng = 0\n") }
    ensures held { view_after adding 2 (s 1 ∷ s 1 ∷ s 1 ∷ []) 3 what.globals ≡ Some (codes "l: held /1\ng = 0\n") }
    ensures array { view_after filling 1 (steps 2 1) 2 what.globals ≡ Some (codes "a[3] = 0 0 7\n") }
{}
