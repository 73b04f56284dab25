//! Laws about the definitions. The functions do nothing: their contracts are what is proved.

ghost use Rattle.cilk_machine_agree.specs.explore.Same.{Same};
ghost use Rattle.cilk_machine_agree.specs.explore.Names.{NamesDoNotMatter, SameButNames};
ghost use Rattle.cilk_machine_agree.specs.explore.Endless.{TheEndlessAreUnmarked, TheEndlessAreUnmarkedBy};
ghost use Rattle.cilk_machine_agree.specs.explore.OrMore.{IdleDoAlike, MoreDoNoMore, MoreEndNoMore};
ghost use Rattle.cilk_machine_agree.specs.explore.Laws.{SamenessIsKept, TheSameEndAlike, TheSameEndAlikeBy, TheSameGoOnAlike};
ghost use Rattle.cilk_machine_agree.specs.explore.Laws.{OverExactly, EachIsKnown, EachIsKnownBy};
ghost use Rattle.cilk_machine_agree.specs.explore.Laws.{SearchesTellRightly, SearchesTellRightlyBy, SamenessButNamesIsKept};

/// From two standings that are the same each choice is refused for one reason or possible, does the same,
/// and leads to standings that are the same.
pub fn sameness_is_kept()
    ensures { SamenessIsKept }
{}

/// Two standings that are the same, or the same but for names, have one ending.
pub fn the_same_end_alike()
    ensures same { TheSameEndAlike }
    ensures names { TheSameEndAlikeBy SameButNames }
{}

/// Whatever choices are possible behind one list of choices are so behind each other that leads to the
/// same, and they lead to the same again.
pub fn the_same_go_on_alike()
    ensures { TheSameGoOnAlike }
{}

/// A program has ended or is stuck exactly where no choice of any worker is possible.
pub fn over_where_no_choice_is_possible()
    ensures { OverExactly }
{}

/// What is reached in no more choices than the log that a search looks at next is known to it; and all
/// that is reached, where it has looked at each.
pub fn each_standing_is_known()
    ensures same { EachIsKnownBy Same }
    ensures names { EachIsKnown }
{}

/// Each ending that a search tells is one of the program, none comes in fewer choices, and where it has
/// looked at all that it found these are all.
pub fn searches_tell_rightly()
    ensures same { SearchesTellRightlyBy Same }
    ensures names { SearchesTellRightly }
{}

/// A search that has looked at all it found, and has marked what can still end, leaves without a mark exactly those from which
/// the program never ends.
pub fn the_endless_are_unmarked()
    ensures same { TheEndlessAreUnmarkedBy Same }
    ensures names { TheEndlessAreUnmarked }
{}

/// Of workers by other names each choice is refused for the same reason or possible, does the same, and leads to
/// the same by these names.
pub fn names_do_not_matter()
    ensures { NamesDoNotMatter }
{}

/// Of two standings that are the same but for the names of the workers each can do what the other can, and what it does
/// leads to such standings again.
pub fn sameness_but_names_is_kept()
    ensures { SamenessButNamesIsKept }
{}

/// Where a search of so many workers finds one of them idle wherever it looks, all it tells is so of each larger number.
pub fn more_workers_do_no_more()
    ensures ends { MoreDoNoMore }
    ensures endless { MoreEndNoMore }
{}

/// What one worker with nothing in its hand and its deque can do each other such can, and it leads to the same but for names.
pub fn idle_workers_do_alike()
    ensures { IdleDoAlike }
{}
