//! A recorded schedule with a position in it: moves to other positions, breakpoints, and views from there.

ghost use Rattle.std.specs.Prelude.{◌≡◌, ◌≤◌, ◌<◌, ◌+◌, ◌-◌, ◌++◌, IfOk, IfErr, OnOk, OnErr, length, replicate, slice_set};
ghost use Rattle.std.specs.Prelude.{true, false, Some, None, Err, string_bytes};
ghost use Rattle.cilk_log_replay.specs.machine.labelled.Count.{count_program};
ghost use Rattle.cilk_debug_console.specs.syntax.ProgramText.{program_text};
ghost use Rattle.cilk_debug_console.specs.log.Naming.{is_of};
ghost use Rattle.cilk_debug_console.specs.model.Run.{is_crew};
ghost use Rattle.cilk_debug_console.specs.model.What.{where_it_stands};
ghost use Rattle.cilk_log_replay.specs.machine.frame.Asked.{what_of};
ghost use Rattle.cilk_log_replay.specs.Tape.{tape_of, IsPlayable};
ghost use Rattle.cilk_debug.specs.Faults.{IsNamedDebugFaultOf};
ghost use Rattle.cilk_debug.specs.Moves.{StaysGoingOn, StaysGoingBack, StaysFrom, HasNo};
ghost use Rattle.cilk_log_replay.specs.ReplayFaults.{IsFaultOf, IsNamedFaultOf};
ghost use Rattle.cilk_debug.specs.Seeing.{seen_at, line_behind};
ghost use Rattle.cilk_debug.specs.Seeking.{forward_position, is_any_ahead, back_position, is_any_behind};
ghost use Rattle.cilk_debug.specs.Working.{gone_to, with_marks};

use crate::fault::{DebugFault, debug_fault};
use crate::position::put_position;
use cilk_log_replay::{
    Loaded, Log, Memory, Player, ReplayFault, Telling, Unplayable, ViewFault, What, is_crew,
    refuse_other,
};
use std::alloc::Global;
use std::marker::Model;

/// A program that stands where the first choices of a recorded schedule led it.
pub struct Debugger {
    alloc: Global,
    player: Player,
    /// For each action whether a breakpoint is set there.
    marks: Vec<bool>,
    /// What the moves cost, by the positions alone.
    work: u64,
}

// To drop it elsewhere is to call this, and its fields' drops are proved here alone.
impl Drop for Debugger {
    fn drop(self) {
        let Debugger {
            alloc: _,
            player: _player,
            marks: _marks,
            work: _,
        } = self;
    }
}

impl Model for Debugger {
    ghost use Rattle.cilk_debug.specs.Debugging.{IsSound};
    ghost use Rattle.cilk_debug.specs.Working.{Working, working_of};
    ghost use Rattle.cilk_log_replay.specs.machine.syntax.ProgramCoding.{coded_Program};
    ghost use Rattle.std.specs.Coded.{codes};

    ghost Value = { Working };

    ghost coded = { Prim.hlevel (codes, coded_Program) };

    ghost view = { λ d. working_of d.player d.marks.items d.work };

    ghost invariant = { λ d. IsSound d.player.tape d.player.place d.marks.items };
}

impl Debugger {
    /// What its memory is taken of.
    pub(crate) fn allocator(&self) -> Global {
        self.alloc
    }

    /// How many choices led to where it stands.
    pub fn position(&self) -> u64
        ensures { result ≡ self.now.shown.position }
    {
        self.player.place() as u64
    }

    /// How many choices there are.
    pub fn length(&self) -> u64
        ensures { result ≡ length self.now.shown.tape.choices }
    {
        self.player.length() as u64
    }

    /// What the moves that came to their end cost since it was new: by the positions, and not by which machine made the choices. It stays at its
    /// greatest value.
    pub fn work(&self) -> u64
        ensures { result ≡ self.now.work }
    {
        self.work
    }

    /// Before any choice of a recorded schedule of the program, all of which are possible. Whether it is of another program is looked at
    /// first, and then the number of workers: before any memory is asked for, where the schedule tells no program. One that cannot be replayed
    /// is handed back.
    pub fn open(alloc: Global, program: Loaded, log: Log) -> Result<Debugger, Unplayable>
        ensures own { IfOk result (λ _. is_of log.program (program_text program) ≡ true) }
        ensures tape { IfOk result (λ d. d.shown.tape ≡ tape_of program log.workers log.choices) }
        ensures start { IfOk result (λ d. d.shown.position ≡ 0) }
        ensures none { IfOk result (λ d. d.kept ≡ 0) }
        ensures idle { IfOk result (λ d. d.work ≡ 0) }
        ensures marks { IfOk result (λ d. d.shown.marks ≡ replicate (count_program program) false) }
        ensures whole { IfOk result (λ d. IsPlayable d.shown.tape) }
        ensures told { IfErr result (λ it. IsNamedFaultOf log.program (tape_of program log.workers log.choices) it.fault) }
        ensures back { IfErr result (λ it. it.log ≡ log) }
        ensures crew { log.program ≡ None → is_crew log.workers ≡ false → result ≡ Err (record { log = log; fault = ReplayFault.Workers }) }
    {
        match refuse_other(&program, &log) {
            Err(fault) => {
                drop(program);
                Err(Unplayable { log, fault })
            }
            Ok(()) => Debugger::begin(alloc, program, log),
        }
    }

    // The same, where it is of no other program.
    fn begin(alloc: Global, program: Loaded, log: Log) -> Result<Debugger, Unplayable>
        ensures tape { IfOk result (λ d. d.shown.tape ≡ tape_of program log.workers log.choices) }
        ensures start { IfOk result (λ d. d.shown.position ≡ 0) }
        ensures none { IfOk result (λ d. d.kept ≡ 0) }
        ensures idle { IfOk result (λ d. d.work ≡ 0) }
        ensures marks { IfOk result (λ d. d.shown.marks ≡ replicate (count_program program) false) }
        ensures whole { IfOk result (λ d. IsPlayable d.shown.tape) }
        ensures told { IfErr result (λ it. IsFaultOf (tape_of program log.workers log.choices) it.fault) }
        ensures back { IfErr result (λ it. it.log ≡ log) }
        ensures crew { is_crew log.workers ≡ false → result ≡ Err (record { log = log; fault = ReplayFault.Workers }) }
    {
        // `Player::new` asks too, but behind `no_marks`, whose want of memory would be told in place of this.
        if !is_crew(log.workers) {
            return Err(Unplayable {
                log,
                fault: ReplayFault::Workers,
            });
        }
        match no_marks(alloc, &program) {
            Err(_) => {
                drop(program);
                Err(Unplayable {
                    log,
                    fault: ReplayFault::Memory,
                })
            }
            Ok(marks) => match Player::new(alloc, program, log) {
                Err(unplayable) => {
                    drop(marks);
                    Err(unplayable)
                }
                Ok(player) => Ok(Debugger {
                    alloc,
                    player,
                    marks,
                    work: 0,
                }),
            },
        }
    }

    /// The same for who tells no more of a schedule than its fault.
    pub fn new(alloc: Global, program: Loaded, log: Log) -> Result<Debugger, DebugFault>
        ensures own { IfOk result (λ _. is_of log.program (program_text program) ≡ true) }
        ensures tape { IfOk result (λ d. d.shown.tape ≡ tape_of program log.workers log.choices) }
        ensures start { IfOk result (λ d. d.shown.position ≡ 0) }
        ensures none { IfOk result (λ d. d.kept ≡ 0) }
        ensures idle { IfOk result (λ d. d.work ≡ 0) }
        ensures marks { IfOk result (λ d. d.shown.marks ≡ replicate (count_program program) false) }
        ensures whole { IfOk result (λ d. IsPlayable d.shown.tape) }
        ensures told { IfErr result (IsNamedDebugFaultOf log.program (tape_of program log.workers log.choices)) }
        ensures crew { log.program ≡ None → is_crew log.workers ≡ false → result ≡ Err DebugFault.Workers }
    {
        match Debugger::open(alloc, program, log) {
            Ok(debugger) => Ok(debugger),
            Err(unplayable) => {
                let Unplayable { log, fault } = unplayable;
                drop(log);
                Err(debug_fault(fault))
            }
        }
    }

    /// The next choice is made.
    pub fn step(&mut self) -> Result<(), DebugFault>
        ensures moved { OnOk result (self.new.shown ≡ record self.old.shown { position = self.old.shown.position + 1 }) }
        ensures within { OnOk result (self.old.shown.position < length self.old.shown.tape.choices) }
        ensures worked { OnOk result (self.new ≡ gone_to self.old (self.old.shown.position + 1)) }
        ensures short { OnOk result (self.new.work ≤ self.old.work + 999) }
        ensures told { IfErr result (StaysGoingOn self.old.shown) }
        ensures same { OnErr result (self.new ≡ record self.old { kept = self.new.kept }) }
    {
        let at = self.player.place();
        if self.player.length() <= at {
            return Err(DebugFault::AtEnd);
        }
        self.stand_at(at + 1)
    }

    /// The last choice that was made is taken back.
    pub fn back(&mut self) -> Result<(), DebugFault>
        ensures moved { OnOk result (self.new.shown ≡ record self.old.shown { position = self.old.shown.position - 1 }) }
        ensures within { OnOk result (0 < self.old.shown.position) }
        ensures worked { OnOk result (self.new ≡ gone_to self.old (self.old.shown.position - 1)) }
        ensures short { OnOk result (self.new.work ≤ self.old.work + 999) }
        ensures told { IfErr result (StaysGoingBack self.old.shown) }
        ensures same { OnErr result (self.new ≡ record self.old { kept = self.new.kept }) }
    {
        let at = self.player.place();
        if at == 0 {
            return Err(DebugFault::AtStart);
        }
        self.stand_at(at - 1)
    }

    /// To the position behind the first k choices.
    pub fn go(&mut self, k: u64) -> Result<(), DebugFault>
        ensures moved { OnOk result (self.new.shown ≡ record self.old.shown { position = k }) }
        ensures within { OnOk result (k ≤ length self.old.shown.tape.choices) }
        ensures worked { OnOk result (self.new ≡ gone_to self.old k) }
        ensures short { OnOk result (self.new.work ≤ self.old.work + 999) }
        ensures told { IfErr result (StaysFrom self.old.shown k) }
        ensures same { OnErr result (self.new ≡ record self.old { kept = self.new.kept }) }
    {
        if self.length() < k {
            return Err(DebugFault::OutOfRange);
        }
        self.stand_at(k as usize)
    }

    /// To the next position behind a choice that does something where a breakpoint is set, or behind all choices; whether there is one.
    pub fn forward_to_break(&mut self) -> Result<bool, DebugFault>
        ensures moved { OnOk result (self.new.shown ≡ record self.old.shown { position = forward_position self.old.shown }) }
        ensures found { IfOk result (λ found. found ≡ is_any_ahead self.old.shown) }
        ensures within { OnOk result (self.old.shown.position < length self.old.shown.tape.choices) }
        ensures worked { OnOk result (self.new ≡ gone_to self.old (forward_position self.old.shown)) }
        ensures short { OnOk result (self.new.work ≤ self.old.work + 999) }
        ensures told { IfErr result (StaysGoingOn self.old.shown) }
        ensures same { OnErr result (self.new ≡ record self.old { kept = self.new.kept }) }
    {
        let at = self.player.place();
        let all = self.player.length();
        if all <= at {
            return Err(DebugFault::AtEnd);
        }
        let next = self.player.next_stop(self.marks.as_slice(), at);
        match self.stand_at(next.unwrap_or(all)) {
            Err(fault) => Err(fault),
            Ok(()) => Ok(next.is_some()),
        }
    }

    /// To the last position before this one behind a choice that does something where a breakpoint is set, or before any choice;
    /// whether there is one.
    pub fn back_to_break(&mut self) -> Result<bool, DebugFault>
        ensures moved { OnOk result (self.new.shown ≡ record self.old.shown { position = back_position self.old.shown }) }
        ensures found { IfOk result (λ found. found ≡ is_any_behind self.old.shown) }
        ensures within { OnOk result (0 < self.old.shown.position) }
        ensures worked { OnOk result (self.new ≡ gone_to self.old (back_position self.old.shown)) }
        ensures short { OnOk result (self.new.work ≤ self.old.work + 999) }
        ensures told { IfErr result (StaysGoingBack self.old.shown) }
        ensures same { OnErr result (self.new ≡ record self.old { kept = self.new.kept }) }
    {
        let at = self.player.place();
        if at == 0 {
            return Err(DebugFault::AtStart);
        }
        let last = self.player.last_stop(self.marks.as_slice(), at);
        match self.stand_at(last.unwrap_or(0)) {
            Err(fault) => Err(fault),
            Ok(()) => Ok(last.is_some()),
        }
    }

    // To a position, and what it cost is added.
    fn stand_at(&mut self, k: usize) -> Result<(), DebugFault>
        requires { k ≤ length self.old.shown.tape.choices }
        ensures moved { OnOk result (self.new ≡ gone_to self.old k) }
        ensures short { OnOk result (self.new.work ≤ self.old.work + 999) }
        ensures memory { IfErr result (λ why. why ≡ DebugFault.Memory) }
        ensures same { OnErr result (self.new ≡ record self.old { kept = self.new.kept }) }
    {
        match self.player.stand_at(k) {
            Err(_) => Err(DebugFault::Memory),
            Ok(cost) => {
                self.work = self.work.saturating_add(cost);
                Ok(())
            }
        }
    }

    /// Sets a breakpoint at action n, counted from 1.
    pub fn set_break(&mut self, n: u32) -> Result<(), DebugFault>
        ensures set { OnOk result (self.new ≡ with_marks self.old (slice_set self.old.shown.marks (n - 1) true)) }
        ensures within { OnOk result ((1 ≤ n) × (n ≤ count_program self.old.shown.tape.program)) }
        ensures told { IfErr result (HasNo self.old.shown n) }
        ensures same { OnErr result (self.new ≡ self.old) }
    {
        self.mark(n, true)
    }

    /// Takes the breakpoint at action n away, if there is one.
    pub fn clear_break(&mut self, n: u32) -> Result<(), DebugFault>
        ensures cleared { OnOk result (self.new ≡ with_marks self.old (slice_set self.old.shown.marks (n - 1) false)) }
        ensures within { OnOk result ((1 ≤ n) × (n ≤ count_program self.old.shown.tape.program)) }
        ensures told { IfErr result (HasNo self.old.shown n) }
        ensures same { OnErr result (self.new ≡ self.old) }
    {
        self.mark(n, false)
    }

    fn mark(&mut self, n: u32, mark: bool) -> Result<(), DebugFault>
        ensures marked { OnOk result (self.new ≡ with_marks self.old (slice_set self.old.shown.marks (n - 1) mark)) }
        ensures within { OnOk result ((1 ≤ n) × (n ≤ count_program self.old.shown.tape.program)) }
        ensures told { IfErr result (HasNo self.old.shown n) }
        ensures same { OnErr result (self.new ≡ self.old) }
    {
        if n == 0 || self.player.program().count() < n {
            return Err(DebugFault::NoStatement);
        }
        self.marks[n as usize - 1] = mark;
        Ok(())
    }

    /// The text of a view of where the program stands. Of the frame of what does not live there is none: `NoInstance` then, and only then. A session asks
    /// by `view_told`, which tells `tree` and `deques` in portions, and comes here for `where` alone.
    pub fn view(&self, what: &What) -> Result<String, ViewFault>
        ensures text { IfOk result (λ text. seen_at self.now.shown (what_of what.now) ≡ Some (string_bytes text)) }
        ensures fault { result ≡ Err ViewFault.NoInstance → seen_at self.now.shown (what_of what.now) ≡ None }
        ensures none { seen_at self.now.shown (what_of what.now) ≡ None → result ≡ Err ViewFault.NoInstance }
    {
        match what {
            What::Where => self.view_of_place(),
            _ => self.player.machine().text(what),
        }
    }

    // The text that tells where the program stands, behind the line on the position.
    fn view_of_place(&self) -> Result<String, ViewFault>
        ensures text { IfOk result (λ text. seen_at self.now.shown where_it_stands ≡ Some (string_bytes text)) }
        ensures fault { result ≡ Err ViewFault.NoInstance → seen_at self.now.shown where_it_stands ≡ None }
        ensures none { seen_at self.now.shown where_it_stands ≡ None → result ≡ Err ViewFault.NoInstance }
    {
        match self.player.machine().text(&What::Where) {
            Err(fault) => Err(fault),
            Ok(text) => {
                let all = self.behind_position(text.as_str());
                drop(text);
                match all {
                    Err(memory) => Err(ViewFault::Memory(memory)),
                    Ok(all) => Ok(all),
                }
            }
        }
    }

    /// The same text, told in portions. Those of `tree` and `deques` take memory by the number of instances ever made, and not by their paths' length.
    pub(crate) fn view_told(&self, what: &What) -> Result<Telling, ViewFault>
        ensures text { IfOk result (λ told. seen_at self.now.shown (what_of what.now) ≡ Some told) }
        ensures fault { result ≡ Err ViewFault.NoInstance → seen_at self.now.shown (what_of what.now) ≡ None }
        ensures none { seen_at self.now.shown (what_of what.now) ≡ None → result ≡ Err ViewFault.NoInstance }
    {
        match what {
            What::Where => match self.view(what) {
                Err(fault) => Err(fault),
                Ok(text) => match Telling::whole(self.alloc, text) {
                    Err(memory) => Err(ViewFault::Memory(memory)),
                    Ok(told) => Ok(told),
                },
            },
            _ => match self.player.machine().view_told(what) {
                Err(fault) => Err(fault),
                Ok(told) => Ok(told),
            },
        }
    }

    // The text behind the line on the position.
    fn behind_position(&self, text: &str) -> Result<String, Memory>
        ensures { IfOk result (λ all. string_bytes all ≡ line_behind self.now.shown.tape self.now.shown.position ++ text.now) }
    {
        let mut all = String::new(self.alloc);
        put_position(
            &mut all,
            self.player.program(),
            self.player.machine().outcome(),
            self.position(),
            self.length(),
        )?;
        all.push_str(text)?;
        Ok(all)
    }
}

// No breakpoint is set.
fn no_marks(alloc: Global, program: &Loaded) -> Result<Vec<bool>, Memory>
    ensures { IfOk result (λ marks. marks.items ≡ replicate (count_program program.now) false) }
{
    let mut marks = Vec::new(alloc);
    marks.resize(program.count() as usize, false)?;
    Ok(marks)
}
