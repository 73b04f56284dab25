//! Laws of the logs of a search, of their links and marks, and of idle workers. The functions do nothing: their contracts are what is proved.

ghost use Rattle.std.specs.Prelude.{ℕ, List};
ghost use Rattle.cilk_machine.specs.labelled.Labelled.{Labelled};
ghost use Rattle.cilk_machine.specs.model.Choice as choices;
ghost use Rattle.cilk_explore.specs.Linking.{MarksAreByLinks};
ghost use Rattle.cilk_explore.specs.Laws.{SearchBegins, SearchGoesOn, SearchIsHalted, OnlyWorkersChoose, IdleAtEach, IdleAreLinkedAlike};

/// A search that has found the log without choices alone is one, and has nothing to tell yet.
pub fn a_search_begins()
    ensures { SearchBegins }
{}

/// Where each choice behind the next log leads to what is known, and its ending is told, if it has one, the search has looked at one log more.
pub fn a_search_goes_on()
    ensures { SearchGoesOn }
{}

/// Where some choices behind the next log were tried and not all, the search has looked at no more than before.
pub fn a_search_is_halted()
    ensures { SearchIsHalted }
{}

/// Each choice behind a log leads to what is known, where each step, pop and steal of each worker does.
pub fn only_workers_choose()
    ensures { (program : Labelled) (n : ℕ) (logs : List (List choices.Choice)) (log : List choices.Choice) → OnlyWorkersChoose program n logs log }
{}

/// Where all that was found was looked at, and each log has its links, marks by these tell behind which logs the program can end.
pub fn marks_are_by_links()
    ensures { MarksAreByLinks }
{}

/// Where some worker is idle behind each log that was looked at, and behind the next, that is so when one log more was looked at.
pub fn a_worker_is_idle_at_each()
    ensures { (program : Labelled) (n : ℕ) (logs : List (List choices.Choice)) → IdleAtEach program n logs }
{}

/// Where the choices of one idle worker behind a log have their links those of each other idle one have them too.
pub fn idle_workers_are_linked_alike()
    ensures { IdleAreLinkedAlike }
{}
