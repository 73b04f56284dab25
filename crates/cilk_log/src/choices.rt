//! Lists of choices, to which one more is put behind the others.

ghost use Rattle.std.specs.Prelude.{◌≡◌, ◌+◌, ◌^◌, ◌<◌, [], ◌∷◌, ◌++◌, length, replicate, slice_get, OnOk, OnErr};

use cilk_sched::{Choice, Memory};
use std::alloc::Global;
use std::marker::Model;

/// The choices that were made, the first one first. Contracts see them as a list.
#[derive(Debug, Drop)]
pub struct Choices {
    choices: Vec<Choice>,
}

impl Model for Choices {
    ghost use Rattle.std.specs.Prelude.{List};
    ghost use Rattle.cilk_sched.specs.declared.choice.Choice.{Choice};

    ghost Value = { List Choice };

    ghost view = { λ c. c.choices.items };
}

impl Choices {
    /// No choices. It takes no memory.
    pub fn new(alloc: Global) -> Choices
        ensures { result ≡ [] }
    {
        Choices {
            choices: Vec::new(alloc),
        }
    }

    /// These choices, the first one first. It takes no memory.
    pub fn of(choices: Vec<Choice>) -> Choices
        ensures { result ≡ choices.items }
    {
        Choices { choices }
    }

    /// How many there are.
    pub fn len(&self) -> usize
        ensures { result ≡ length self.now }
    {
        self.choices.len()
    }

    /// The choice behind so many others, if there is one.
    pub fn get(&self, i: usize) -> Option<Choice>
        ensures { result ≡ slice_get self.now i }
    {
        self.choices.get(i).copied()
    }

    /// All of them.
    pub fn as_slice(&self) -> &[Choice]
        ensures { result.now ≡ self.now }
    {
        self.choices.as_slice()
    }

    /// One more, behind the others. Where memory runs out, they stay as they were.
    pub fn push(&mut self, choice: Choice) -> Result<(), Memory>
        ensures pushed { OnOk result (self.new ≡ self.old ++ choice ∷ []) }
        ensures kept { OnErr result (self.new ≡ self.old) }
    {
        self.choices.push(choice)?;
        Ok(())
    }
    /// So many more of one choice, behind the others. Where memory runs out, they stay as they were.
    pub(crate) fn fill(&mut self, choice: Choice, times: usize) -> Result<(), Memory>
        requires { length self.old + times < 2 ^ 63 }
        ensures filled { OnOk result (self.new ≡ self.old ++ replicate times choice) }
        ensures kept { OnErr result (self.new ≡ self.old) }
    {
        let count = self.len() + times;
        self.choices.resize(count, choice)?;
        Ok(())
    }
}
