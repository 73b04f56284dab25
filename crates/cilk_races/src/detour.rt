//! A search for a schedule that takes two accesses of a run in the other order. Nothing is proved of it but that it is safe: what it finds is
//! looked at in a replay before it is told.

ghost use Rattle.std.specs.Prelude.{◌<◌, length};
ghost use Rattle.cilk_log_replay.specs.machine.step.plan.StepInput.{id_of};
ghost use Rattle.cilk_log_replay.specs.machine.step.Scenes.{HeadFits, input_of};

use crate::rows::Rows;
use crate::times::times;
use crate::touch::Touch;
use cilk_log_replay::{
    Access, Act, Choice, Did, Loaded, Machine, Memory, Refusal, ReplayFault, Scene, accesses_in,
    number_in, play,
};
use std::alloc::{AllocError, Global};

/// What is wanted: the first access is to be made behind the second.
#[derive(Clone, Copy)]
pub(crate) struct Goal<'a> {
    pub rows: &'a Rows,
    pub touches: &'a [Touch],
    pub first: &'a Touch,
    pub second: &'a Touch,
}

// How far it is.
#[derive(Clone, Copy, PartialEq, Eq)]
enum Phase {
    /// The instance of the first access waits, until the second was made so often.
    Held { wanted: usize },
    /// It may go on.
    Freed,
    /// It took a step.
    Done,
}

// Whose step a worker takes next.
#[derive(Clone, Copy, PartialEq, Eq)]
enum Coming {
    /// It has none, or has to wait.
    Nothing,
    /// That of the first access.
    First,
    Other,
}

// A machine with the choices that led to it.
#[derive(Drop)]
struct Detour {
    machine: Machine,
    choices: Vec<Choice>,
    workers: u8,
    phase: Phase,
}

/// The choices of the run up to that of the first access, and then those of the other instances, until the second access was made. Then the first
/// one's instance goes on, and at last all do, to the end. None where that does not come about within so many choices more.
pub(crate) fn find_detour(
    alloc: Global,
    program: Loaded,
    workers: u8,
    choices: &[Choice],
    limit: usize,
    goal: Goal,
) -> Result<Option<Vec<Choice>>, Memory> {
    let before = usize::try_from(goal.first.choice)
        .unwrap_or(usize::MAX)
        .saturating_sub(1);
    if choices.len() < before {
        drop(program);
        return Ok(None);
    }
    match play(alloc, program, workers, choices, before) {
        Err(ReplayFault::Memory) => Err(Memory::from(AllocError)),
        Err(_) => Ok(None),
        Ok(machine) => match Vec::from_slice(alloc, &choices[..before]) {
            Err(_) => {
                drop(machine);
                Err(Memory::from(AllocError))
            }
            Ok(choices) => go_around(
                alloc,
                Detour {
                    machine,
                    choices,
                    workers,
                    phase: goal.begun(),
                },
                limit,
                goal,
            ),
        },
    }
}

fn go_around(
    alloc: Global,
    detour: Detour,
    limit: usize,
    goal: Goal,
) -> Result<Option<Vec<Choice>>, Memory> {
    let mut detour = detour;
    for _ in 0..limit {
        match detour.go_on(alloc, goal) {
            Err(memory) => {
                drop(detour);
                return Err(memory);
            }
            Ok(true) => {}
            Ok(false) => return Ok(detour.found()),
        }
    }
    drop(detour);
    Ok(None)
}

impl<'a> Goal<'a> {
    // How often the second access is still to be made.
    fn begun(self) -> Phase {
        let before = self.first.choice.saturating_sub(1);
        let wanted = times(
            self.rows,
            self.second,
            self.second.choice,
            self.rows,
            self.touches,
        )
        .saturating_sub(times(self.rows, self.second, before, self.rows, self.touches));
        Phase::Held { wanted }
    }

    // How often the step of a scene makes the second access.
    fn times_in(self, alloc: Global, machine: &Machine, scene: &Scene) -> Result<usize, Memory>
        requires there { id_of (input_of scene.now) < length (input_of scene.now).nodes }
        requires fits { HeadFits (input_of scene.now) }
    {
        if number_in(scene) != self.second.n {
            return Ok(0);
        }
        let path = machine.path_of(scene.frame.id())?;
        let own = self.rows.path_of(self.second.own)?;
        if !is_path(own.as_slice(), path.as_slice()) {
            return Ok(0);
        }
        let accesses = accesses_in(alloc, scene)?;
        Ok(count_of(accesses.as_slice(), self.second.access))
    }
}

fn is_path(numbers: &[u64], path: &[u32]) -> bool {
    numbers.len() == path.len()
        && numbers
            .iter()
            .zip(path)
            .all(|(number, other)| *number == u64::from(*other))
}

fn count_of(accesses: &[Access], access: Access) -> usize {
    accesses
        .iter()
        .filter(|other| other.at == access.at && other.writes == access.writes)
        .count()
}

impl Detour {
    // The schedule, if the first access came behind the second.
    fn found(self) -> Option<Vec<Choice>> {
        let Detour {
            machine,
            choices,
            workers: _,
            phase,
        } = self;
        drop(machine);
        if phase == Phase::Done {
            Some(choices)
        } else {
            drop(choices);
            None
        }
    }

    // Makes one choice more. False where there is none.
    fn go_on(&mut self, alloc: Global, goal: Goal) -> Result<bool, Memory> {
        if let Some(worker) = self.next_step(goal) {
            return self.step(alloc, worker, goal);
        }
        match self.next_move() {
            None => Ok(false),
            Some(choice) => match self.make(choice)? {
                None => Ok(false),
                Some(_) => Ok(true),
            },
        }
    }

    // The worker that steps: that of the first access once it is free, and else the first one that may.
    fn next_step(&self, goal: Goal) -> Option<u8> {
        if self.phase == Phase::Freed {
            for idle in 0..self.workers {
                if self.coming(idle + 1, goal) == Coming::First {
                    return Some(idle + 1);
                }
            }
        }
        for idle in 0..self.workers {
            let coming = self.coming(idle + 1, goal);
            if coming == Coming::Other || (coming == Coming::First && !self.is_held()) {
                return Some(idle + 1);
            }
        }
        None
    }

    fn is_held(&self) -> bool {
        matches!(self.phase, Phase::Held { .. })
    }

    // The first instance has the number in the order of birth that it had in the run, since it was born before.
    fn coming(&self, worker: u8, goal: Goal) -> Coming {
        let step = Choice {
            worker,
            act: Act::Step,
        };
        if self.machine.refusal(step).is_some() {
            return Coming::Nothing;
        }
        match self.machine.scene_ahead(worker) {
            None => Coming::Nothing,
            Some(scene) => {
                if scene.frame.id().number() == goal.first.own {
                    Coming::First
                } else {
                    Coming::Other
                }
            }
        }
    }

    // The worker steps.
    fn step(&mut self, alloc: Global, worker: u8, goal: Goal) -> Result<bool, Memory> {
        let phase = self.behind(alloc, worker, goal)?;
        let made = self.make(Choice {
            worker,
            act: Act::Step,
        })?;
        match made {
            None => Ok(false),
            Some(Did::Moved) => Ok(true),
            Some(_) => {
                self.phase = phase;
                Ok(true)
            }
        }
    }

    // How far it is behind the worker's step, if that does more than to move a frame.
    fn behind(&self, alloc: Global, worker: u8, goal: Goal) -> Result<Phase, Memory> {
        match self.phase {
            Phase::Done => Ok(Phase::Done),
            Phase::Freed => Ok(if self.coming(worker, goal) == Coming::First {
                Phase::Done
            } else {
                Phase::Freed
            }),
            Phase::Held { wanted } => match self.machine.scene_ahead(worker) {
                None => Ok(self.phase),
                Some(scene) => {
                    let made = goal.times_in(alloc, &self.machine, &scene)?;
                    Ok(if made < wanted {
                        Phase::Held {
                            wanted: wanted - made,
                        }
                    } else {
                        Phase::Freed
                    })
                }
            },
        }
    }

    // A pop, or else a steal, that is possible.
    fn next_move(&self) -> Option<Choice> {
        for idle in 0..self.workers {
            let pop = Choice {
                worker: idle + 1,
                act: Act::Pop,
            };
            if self.machine.refusal(pop).is_none() {
                return Some(pop);
            }
        }
        for idle in 0..self.workers {
            for other in 0..self.workers {
                let steal = Choice {
                    worker: idle + 1,
                    act: Act::Steal(other + 1),
                };
                if self.machine.refusal(steal).is_none() {
                    return Some(steal);
                }
            }
        }
        None
    }

    // Makes the choice. None where it is not possible.
    fn make(&mut self, choice: Choice) -> Result<Option<Did>, Memory> {
        self.choices.push(choice)?;
        if self.machine.choices() == u64::MAX {
            return Ok(None);
        }
        match self.machine.advance(choice) {
            Err(Refusal::Memory) => Err(Memory::from(AllocError)),
            Err(_) => Ok(None),
            Ok(did) => Ok(Some(did)),
        }
    }
}
