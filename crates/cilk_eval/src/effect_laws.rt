//! Laws about effects. The function does nothing: its contract is what is proved.

ghost use Rattle.std.specs.Prelude.{◌≡◌, ℕ, Ok};
ghost use Rattle.cilk_eval.specs.nodes.Areas.{Cells, sizes_of};
ghost use Rattle.cilk_eval.specs.labelled.Labelled.{Labelled, Action};
ghost use Rattle.cilk_eval.specs.model.Values.{Store, environment};
ghost use Rattle.cilk_eval.specs.model.Effect as effect;
ghost use Rattle.cilk_eval.specs.nodes.Actions.{slotted};
ghost use Rattle.cilk_eval.specs.nodes.Slots.{slot_of};
ghost use Rattle.cilk_eval.specs.frame.Reads.{Seen};
ghost use Rattle.cilk_eval.specs.effects.Known.{KnownAct};
ghost use Rattle.cilk_eval.specs.effects.Effects.{effect_in};
ghost use Rattle.cilk_eval.specs.effects.Fits.{FitsAct};
ghost use Rattle.cilk_eval.specs.effects.Slotted.{ReachesCells, slotted_result};

/// The effect over slots of an action whose names are known is that over declarations, its slots lie in the cells,
/// and each cell that it reaches is one that its body sees.
pub fn effects_are_seen()
    ensures same { (program : Labelled) (b n : ℕ) (cells : Cells) (store : Store) (act : Action) → Seen program b cells store → KnownAct program b act
        → effect_in cells n (slotted (slot_of program b) act) ≡ slotted_result (slot_of program b) n (effect.effect_of (environment store) n act) }
    ensures fits { (program : Labelled) (b : ℕ) (cells : Cells) (store : Store) (act : Action) → Seen program b cells store → KnownAct program b act
        → FitsAct (sizes_of cells) (slotted (slot_of program b) act) }
    ensures cells { (program : Labelled) (b n : ℕ) (cells : Cells) (store : Store) (act : Action) (e : effect.Effect)
        → Seen program b cells store → KnownAct program b act
        → effect.effect_of (environment store) n act ≡ Ok e → ReachesCells program b e }
{}
