//! Laws about recorded schedules and their texts. The functions do nothing: their contracts are what
//! is proved.

ghost use Rattle.std.specs.Prelude.{◌≡◌, ℕ, List, Ok};
ghost use Rattle.cilk_sched.specs.model.Choice as model;
ghost use Rattle.cilk_log.specs.Stretches.{Stretch, AreStretches, choices_of, stretches_of};
ghost use Rattle.cilk_log.specs.Text.{Log, LogFits, log_text};
ghost use Rattle.cilk_log.specs.Reading.{log_read};

/// Each recorded schedule has one text, which is read as it, and nothing else is read as it. No two
/// share a text.
pub fn one_text_each()
    ensures read { (log : Log) → LogFits log → log_read (log_text log) ≡ Ok log }
    ensures only { (bytes : List ℕ) (log : Log) → log_read bytes ≡ Ok log → LogFits log × (bytes ≡ log_text log) }
    ensures apart { (a b : Log) → LogFits a → LogFits b → log_text a ≡ log_text b → a ≡ b }
{}

/// Choices are told by one list of stretches of which no two neighbours are steps of one worker, and by no other.
pub fn one_list_of_stretches()
    ensures whole { (choices : List model.Choice) → choices_of (stretches_of choices) ≡ choices }
    ensures apart { (choices : List model.Choice) → AreStretches (stretches_of choices) }
    ensures only { (stretches : List Stretch) → AreStretches stretches → stretches_of (choices_of stretches) ≡ stretches }
{}
