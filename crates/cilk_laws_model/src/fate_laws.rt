//! Laws about the definitions. The functions do nothing: their contracts are what is proved.

ghost use Rattle.cilk_laws_model.specs.FateLaws.{EachChoiceIsAnEvent, TheLivingLive, FatesMoveOn};

/// Each choice is one event.
pub fn each_choice_is_an_event()
    ensures { EachChoiceIsAnEvent }
{}

/// After every list of possible choices the fate of a path is `lives` exactly where an instance lives.
pub fn the_living_live()
    ensures { TheLivingLive }
{}

/// A choice changes a fate only from living to returned or aborted, and from returned to delivered.
pub fn fates_move_on()
    ensures { FatesMoveOn }
{}
