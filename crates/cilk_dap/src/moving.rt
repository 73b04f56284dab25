//! Moves through a schedule, each of which is made of moves of the debugger.

ghost use Rattle.std.specs.Prelude.{◌<◌, ◌+◌, ◌-◌, OnOk};
ghost use Rattle.cilk_dap.specs.Moving.{HasGoneOn, IsMovedTo};

use crate::opened::Opened;
use crate::refusal::{AT_END, AT_START, NO_SUCH_THREAD, Refusal};
use cilk_dap_messages::{Stop, hand_in, worker_line};
use cilk_debug::DebugFault;

impl Opened {
    /// Makes the next choice.
    pub(crate) fn step(&mut self) -> Result<Stop, Refusal>
        ensures { OnOk result (IsMovedTo (self.old.debugger.shown.position + 1) self.old.debugger.shown self.new.debugger.shown) }
    {
        self.debugger.step()?;
        Ok(Stop::Step)
    }

    /// Takes the last choice back.
    pub(crate) fn back(&mut self) -> Result<Stop, Refusal>
        ensures before { OnOk result (0 < self.old.debugger.shown.position) }
        ensures moved { OnOk result (IsMovedTo (self.old.debugger.shown.position - 1) self.old.debugger.shown self.new.debugger.shown) }
    {
        self.debugger.back()?;
        Ok(Stop::Step)
    }

    /// Before any choice again.
    pub(crate) fn restart(&mut self) -> Result<Stop, Refusal>
        ensures { OnOk result (IsMovedTo 0 self.old.debugger.shown self.new.debugger.shown) }
    {
        self.debugger.go(0)?;
        Ok(Stop::Entry)
    }

    /// Goes on to where the next choice, or one behind it, has a breakpoint: from where nothing was done yet.
    pub(crate) fn begin(&mut self) -> Result<Stop, Refusal> {
        let from = self.debugger.position();
        let stop = self.ahead()?;
        self.watch_on(from, stop)
    }

    /// Goes on by at least one choice, to where the next one has a breakpoint, or to where a watched variable has another value.
    pub(crate) fn go_on(&mut self) -> Result<Stop, Refusal> {
        let from = self.debugger.position();
        self.debugger.step()?;
        let stop = self.ahead()?;
        self.watch_on(from, stop)
    }

    // To the next place before a choice with a breakpoint: an editor shows the line that is not done yet.
    fn ahead(&mut self) -> Result<Stop, DebugFault> {
        if self.debugger.position() < self.debugger.length() && self.is_before_break()? {
            Ok(Stop::Breakpoint)
        } else {
            Ok(Stop::End)
        }
    }

    // Goes to the next place before a choice with a breakpoint, if there is one.
    fn is_before_break(&mut self) -> Result<bool, DebugFault> {
        let found = self.debugger.forward_to_break()?;
        if found {
            self.debugger.back()?;
        }
        Ok(found)
    }

    /// Goes back by at least one choice, to where the next one has a breakpoint, or to where a watched variable had another value.
    pub(crate) fn go_back(&mut self) -> Result<Stop, Refusal> {
        let from = self.debugger.position();
        if from == 0 {
            return Err(Refusal::Words(AT_START));
        }
        let stop = self.behind()?;
        self.watch_back(from, stop)
    }

    // The last choice that was made may be the one with a breakpoint, and `back_to_break` looks only at those before it.
    fn behind(&mut self) -> Result<Stop, DebugFault> {
        if self.debugger.position() < self.debugger.length() {
            self.debugger.step()?;
        } else {
            self.debugger.back()?;
            if self.is_before_break()? {
                return Ok(Stop::Breakpoint);
            }
        }
        self.before_last_break()
    }

    // To the last place before a choice with a breakpoint.
    fn before_last_break(&mut self) -> Result<Stop, DebugFault> {
        if self.debugger.back_to_break()? {
            self.debugger.back()?;
            Ok(Stop::Breakpoint)
        } else {
            Ok(Stop::Start)
        }
    }

    // From a place to where it stands, choice by choice, as long as the watched variables have their values.
    fn watch_on(&mut self, from: u64, stop: Stop) -> Result<Stop, Refusal> {
        let to = self.debugger.position();
        if self.watched.is_empty() || to <= from {
            return Ok(stop);
        }
        match self.values_at(from) {
            Err(refusal) => Err(refusal),
            Ok(before) => self.step_while(before.as_str(), to, stop),
        }
    }

    // Goes to a place, and tells the lines of the watched variables there.
    fn values_at(&mut self, place: u64) -> Result<String, Refusal> {
        self.debugger.go(place)?;
        self.watched_values()
    }

    fn step_while(&mut self, before: &str, to: u64, stop: Stop) -> Result<Stop, Refusal> {
        for _ in self.debugger.position()..to {
            if self.step_changes(before)? {
                return Ok(Stop::Data);
            }
        }
        Ok(stop)
    }

    fn step_changes(&mut self, before: &str) -> Result<bool, Refusal> {
        self.debugger.step()?;
        self.has_changed(before)
    }

    // The same backwards.
    fn watch_back(&mut self, from: u64, stop: Stop) -> Result<Stop, Refusal> {
        let to = self.debugger.position();
        if self.watched.is_empty() || from <= to {
            return Ok(stop);
        }
        match self.values_at(from) {
            Err(refusal) => Err(refusal),
            Ok(before) => self.back_while(before.as_str(), to, stop),
        }
    }

    fn back_while(&mut self, before: &str, to: u64, stop: Stop) -> Result<Stop, Refusal> {
        for _ in to..self.debugger.position() {
            if self.back_changes(before)? {
                return Ok(Stop::Data);
            }
        }
        Ok(stop)
    }

    fn back_changes(&mut self, before: &str) -> Result<bool, Refusal> {
        self.debugger.back()?;
        self.has_changed(before)
    }

    fn has_changed(&self, before: &str) -> Result<bool, Refusal> {
        match self.watched_values() {
            Err(refusal) => Err(refusal),
            Ok(now) => Ok(now.as_str() != before),
        }
    }

    /// Goes on behind the next choice of a worker, or to the end where it has none.
    pub(crate) fn step_of(&mut self, worker: u64) -> Result<Stop, Refusal>
        ensures { OnOk result (HasGoneOn self.old.debugger.shown self.new.debugger.shown) }
    {
        self.find_worker(worker)?;
        let at = self.debugger.position();
        let all = self.debugger.length();
        if all <= at {
            return Err(Refusal::Words(AT_END));
        }
        let goal = self.next_place(worker, at, all);
        self.debugger.go(goal)?;
        if self.known.mover(goal.saturating_sub(1)) == worker {
            Ok(Stop::Step)
        } else {
            Ok(Stop::End)
        }
    }

    // Behind how many choices the next one of a worker is made, where so many are made and all are so many; behind all, where it has none.
    fn next_place(&self, worker: u64, at: u64, all: u64) -> u64
        requires { at < all }
        ensures { at < result }
    {
        for made in at..all {
            if self.known.mover(made) == worker {
                return made.saturating_add(1);
            }
        }
        all
    }

    // Refuses a number that no worker has.
    fn find_worker(&self, worker: u64) -> Result<(), Refusal> {
        let view = self.view_where()?;
        match worker_line(view.as_str(), worker) {
            None => Err(Refusal::Words(NO_SUCH_THREAD)),
            Some(_) => Ok(()),
        }
    }

    /// The worker that makes the next choice, or made the last one; the first one where there are none.
    pub(crate) fn next_mover(&self) -> u64 {
        let at = self.debugger.position();
        let last = self.debugger.length().saturating_sub(1);
        self.known.mover(at.min(last)).max(1)
    }

    /// Goes on until the instance in a worker's hand has ended, or to the end.
    pub(crate) fn step_out(&mut self, worker: u64) -> Result<Stop, Refusal> {
        let view = self.view_where()?;
        match hand_of(view.as_str(), worker) {
            Err(words) => Err(Refusal::Words(words)),
            Ok(path) => self.until_ended(path),
        }
    }

    fn until_ended(&mut self, path: &str) -> Result<Stop, Refusal> {
        let at = self.debugger.position();
        let all = self.debugger.length();
        if all <= at {
            return Err(Refusal::Words(AT_END));
        }
        for _ in at..all {
            if self.step_ends(path)? {
                return Ok(Stop::Step);
            }
        }
        Ok(Stop::End)
    }

    // Makes the next choice, and tells whether an instance has ended.
    fn step_ends(&mut self, path: &str) -> Result<bool, Refusal> {
        self.debugger.step()?;
        match self.frame_text(path) {
            Err(memory) => Err(Refusal::from(memory)),
            Ok(text) => Ok(text.is_none()),
        }
    }
}

// The path of the instance in the hand of a worker, in the view `where`, or why there is none.
fn hand_of<'a>(view: &'a str, worker: u64) -> Result<&'a str, &'static str> {
    match worker_line(view, worker) {
        None => Err(NO_SUCH_THREAD),
        Some(line) => hand_in(line).ok_or("the worker has nothing in its hand"),
    }
}
