//! Laws about the definitions. The functions do nothing: their contracts are what is proved.

ghost use Rattle.std.specs.Prelude.{◌≡◌, ◌+◌, ℕ, List, [], Some, length};
ghost use Rattle.cilk_log_replay.specs.machine.nodes.model.Event.{Event};
ghost use Rattle.cilk_races.specs.Steps.{Step};
ghost use Rattle.cilk_races.specs.Deeds.{Deed};
ghost use Rattle.cilk_races.specs.Measure.{measure};
ghost use Rattle.cilk_races.specs.NumberRows.{empty_text, kept, kept_text, lost, lost_text, racing, told_of};

/// Each choice works, steals, pops, or parks a frame.
pub fn choices_are_counted_once()
    ensures { (n : ℕ) (events : List Event) (steps : List Step) (deeds : List Deed)
        → (measure n events steps deeds).work + ((measure n events steps deeds).steals
        + ((measure n events steps deeds).pops + (measure n events steps deeds).parks)) ≡ length deeds }
{}

/// Two children that race, by two schedules, and the same before any choice.
pub fn rows_of_measures_come_out()
    ensures lost { told_of racing 2 lost ≡ Some lost_text }
    ensures kept { told_of racing 1 kept ≡ Some kept_text }
    ensures empty { told_of racing 2 [] ≡ Some empty_text }
{}
