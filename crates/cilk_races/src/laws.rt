//! Laws about the definitions. The functions do nothing: their contracts are what is proved.

ghost use Rattle.std.specs.Prelude.{◌≡◌, ◌∷◌, [], Some};
ghost use Rattle.cilk_races.specs.NumberRows.{kept, lost, racing};
ghost use Rattle.cilk_races.specs.Rows.{races_of};

/// Two children that race, one after the other and mixed.
pub fn rows_of_races_come_out()
    ensures alone { races_of racing 1 kept ≡ Some (record { choices = (3, 7) ∷ (2, 8) ∷ (3, 8) ∷ []; races = 3; orders = 0; inlets = 0 }) }
    ensures mixed { races_of racing 2 lost ≡ Some (record { choices = (5, 6) ∷ (6, 8) ∷ []; races = 2; orders = 0; inlets = 0 }) }
{}
