//! The choices of a recorded schedule, made again from the start of a program, and a player of them: a machine that goes to any place among them.
#![tactic(auto)]

mod finding;
mod going;
mod laws;
mod player;
mod replay_fault;
mod replaying;
mod stopping;
mod track;
mod unplayable;

pub use cilk_log::{Choices, Log, LogFault, read_log, write_log};
pub use cilk_machine::{
    Access, Act, Action, Area, Checkpoint, Choice, Code, CodeNode, Did, End, Id, Loaded,
    LockAction, Machine, MachineFault, Memory, Outcome, Path, Plan, Portion, Refusal, Scene, Slot,
    Spot, Taker, Telling, Trap, TrapKind, ViewFault, What, accesses_in, ending, locks_in,
    look_ahead, number_in, plan_step, put_trapped, send, send_told,
};
pub use laws::none_is_bad;
pub use player::Player;
pub use replay_fault::ReplayFault;
pub use replaying::{is_crew, make_again, opened, play, play_all, refuse_other};
pub use unplayable::Unplayable;
