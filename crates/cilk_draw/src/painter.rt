//! A machine that makes the choices of a schedule again, with what is drawn of them.

use crate::caption::{caption_of, line_of};
use crate::column::Column;
use crate::footer::Footer;
use crate::gathering::{Kind, note_lines};
use crate::glance::Glance;
use crate::looking::glance_at;
use crate::picture::Picture;
use crate::ribbon::Ribbon;
use crate::standing::{footer_of, no_room, view_text};
use cilk_log_replay::{Act, Choice, Did, Machine, Memory, What};
use std::alloc::Global;

/// A machine, and what is drawn of the choices that it made since it began.
pub(crate) struct Painter {
    machine: Machine,
    columns: Vec<Column>,
    hands: Vec<Ribbon>,
    globals: Vec<Ribbon>,
}

impl Drop for Painter {
    fn drop(self) {
        let Painter {
            machine: _machine,
            columns: _columns,
            hands: _hands,
            globals: _globals,
        } = self;
    }
}

impl Painter {
    /// It begins where the machine stands.
    pub(crate) fn new(alloc: Global, machine: Machine) -> Result<Painter, Memory> {
        let mut painter = Painter {
            machine,
            columns: Vec::new(alloc),
            hands: Vec::new(alloc),
            globals: Vec::new(alloc),
        };
        match painter.look(alloc, 0) {
            Err(memory) => {
                drop(painter);
                Err(memory)
            }
            Ok(()) => Ok(painter),
        }
    }

    /// How many columns there are.
    pub(crate) fn width(&self) -> usize {
        self.columns.len()
    }

    /// The next choice is made, and drawn.
    pub(crate) fn advance(&mut self, alloc: Global, choice: Choice) -> Result<(), Memory> {
        match choice.act {
            Act::Step => self.step(alloc, choice),
            Act::Pop => self.fetch(alloc, choice, "pops"),
            Act::Steal(_) => self.fetch(alloc, choice, "steals"),
        }
    }

    // All choices were made before by another machine, so only memory may be wanting.
    fn make(&mut self, choice: Choice) -> Result<Did, Memory> {
        if self.machine.choices() == u64::MAX {
            return Err(no_room());
        }
        match self.machine.advance(choice) {
            Err(_) => Err(no_room()),
            Ok(did) => Ok(did),
        }
    }

    fn step(&mut self, alloc: Global, choice: Choice) -> Result<(), Memory> {
        let is_private = self.machine.is_private(choice.worker)?;
        if is_private && self.goes_on(choice) {
            self.make(choice)?;
            return Ok(());
        }
        let instance = self.hand(alloc, choice.worker)?;
        let glance = glance_at(alloc, &self.machine, choice.worker, instance)?;
        let did = self.make(choice)?;
        self.draw_step(alloc, choice, glance, is_private, &did)
    }

    // Whether the last column is of such steps of this worker, with which a step that touches nothing shared goes.
    fn goes_on(&mut self, choice: Choice) -> bool {
        match self.columns.as_mut_slice().last_mut() {
            None => false,
            Some(last) => {
                if !last.is_private || last.choice.worker != choice.worker {
                    return false;
                }
                last.count = last.count.saturating_add(1);
                true
            }
        }
    }

    fn draw_step(
        &mut self,
        alloc: Global,
        choice: Choice,
        glance: Glance,
        is_private: bool,
        did: &Did,
    ) -> Result<(), Memory> {
        let Glance {
            instance,
            plan,
            value,
        } = glance;
        if !is_private {
            self.look_behind(alloc)?;
        }
        let caption = caption_of(alloc, &self.machine, plan.as_ref(), did, value)?;
        let column = Column {
            first: self.machine.choices(),
            count: 1,
            choice,
            instance,
            line: line_of(self.machine.loaded(), did),
            caption,
            is_private,
        };
        self.columns.push(column)?;
        Ok(())
    }

    // A frame comes to the worker's hand.
    fn fetch(&mut self, alloc: Global, choice: Choice, words: &str) -> Result<(), Memory> {
        self.make(choice)?;
        self.look_behind(alloc)?;
        let column = Column {
            first: self.machine.choices(),
            count: 1,
            choice,
            instance: self.hand(alloc, choice.worker)?,
            line: 0,
            caption: String::from_str(alloc, words)?,
            is_private: false,
        };
        self.columns.push(column)?;
        Ok(())
    }

    // The path of the instance in a worker's hand.
    fn hand(&self, alloc: Global, worker: u8) -> Result<String, Memory> {
        let place = usize::from(worker.saturating_sub(1));
        match self.hands.get(place) {
            None => Ok(String::new(alloc)),
            Some(ribbon) => Ok(String::from_str(alloc, ribbon.latest())?),
        }
    }

    // What is shared is looked at, behind the column that comes next.
    fn look_behind(&mut self, alloc: Global) -> Result<(), Memory> {
        let at = self.columns.len().saturating_add(1);
        self.look(alloc, at)
    }

    // What is shared is looked at, behind so many columns.
    fn look(&mut self, alloc: Global, at: usize) -> Result<(), Memory> {
        let hands = view_text(&self.machine, &What::Where)?;
        note_lines(alloc, &mut self.hands, Kind::Hands, hands.as_str(), at)?;
        let globals = view_text(&self.machine, &What::Globals)?;
        note_lines(
            alloc,
            &mut self.globals,
            Kind::Globals,
            globals.as_str(),
            at,
        )
    }

    /// What stands below the rows, where nothing more is drawn.
    pub(crate) fn footer(&self, alloc: Global) -> Result<Footer, Memory> {
        footer_of(alloc, &self.machine)
    }

    /// The picture of what was drawn, of a schedule by so many workers with so many choices, and behind how many of them it begins.
    pub(crate) fn finish(
        self,
        alloc: Global,
        footer: Footer,
        workers: u8,
        choices: usize,
        begin: usize,
    ) -> Picture {
        let Painter {
            machine,
            columns,
            hands,
            globals,
        } = self;
        drop(machine);
        Picture {
            workers,
            choices,
            begin,
            columns,
            hands,
            globals,
            races: Vec::new(alloc),
            knows_races: true,
            footer,
        }
    }
}
