//! Carries out the plans that write a cell: `Take`, `Write` and `Answer`, where the frame was taken out of the hand.
//!
//! No machine comes here: it tries the light plan first, and each of these three has one, which is carried out with the frame in the hand
//! (`carry_lightly`). No clause says so of `plan_lightly`, so `carry_out` carries out all plans.

ghost use Rattle.std.specs.Prelude.{◌≡◌, ◌<◌, ℕ, true, Option, None};
ghost use Rattle.cilk_machine_plan.specs.model.Hands.{IsWorker, hand_of};
ghost use Rattle.cilk_machine_plan.specs.nodes.declared.body.Body.{Body};
ghost use Rattle.cilk_machine_plan.specs.frame.Frames.{depth, gone_to, left};
ghost use Rattle.cilk_machine_plan.specs.frame.Cells.{frame_put, globals_put};
ghost use Rattle.cilk_machine_plan.specs.spawn.Nodes.{node_at, is_live};
ghost use Rattle.cilk_machine_plan.specs.agree.Outside as outside;
ghost use Rattle.cilk_machine_plan.specs.declared.plan.Plan.TheVariants as plans;
ghost use Rattle.cilk_machine_plan.specs.PartWords.{machine_of, outcome_of};
ghost use Rattle.cilk_machine_plan.specs.Ready.{Fits};
ghost use Rattle.cilk_machine_plan.specs.Carried.{Carried};
ghost use Rattle.cilk_machine_plan.specs.Spends.{LeavesTop};

use crate::acting::acted;
use crate::entering::{go_on, leave};
use crate::given::{Passage, Sender};
use cilk_machine_plan::{Area, Did, Done, Frame, Outcome, Parts, Writing};

/// The delivery that waits longest is taken: the cell takes the value.
pub(crate) fn carry_take(
    worker: u8,
    frame: Frame,
    sender: Sender,
    writing: Writing,
    choice: u64,
    parts: &mut Parts,
) -> Done
    requires worker { IsWorker parts.old.hands worker }
    requires empty { hand_of parts.old.hands worker ≡ None }
    requires live { is_live (node_at parts.old.tree.nodes frame.id) ≡ true }
    requires fits { Fits writing.reached.slot writing.reached.index frame parts.old.globals.items }
    ensures carried { (body : Option Body) → Carried choice (machine_of parts.old outside.running) worker frame body
        (plans.Take sender.child sender.n writing.reached writing.value) (machine_of parts.new (outcome_of result.outcome)) result.did }
    ensures runs { result.outcome ≡ Outcome.Running }
{
    let id = frame.id();
    let frame = write(&mut parts.globals, frame, writing);
    let _taken = parts.tree.take_delivery(id, choice);
    parts.hands.give(worker, frame);
    Done::running(Did::Delivered(sender.child, sender.n))
}

/// A cell takes a value.
pub(crate) fn carry_write(
    worker: u8,
    frame: Frame,
    passage: Passage,
    writing: Writing,
    parts: &mut Parts,
) -> Done
    requires worker { IsWorker parts.old.hands worker }
    requires empty { hand_of parts.old.hands worker ≡ None }
    requires fits { Fits writing.reached.slot writing.reached.index (gone_to passage.to frame) parts.old.globals.items }
    ensures carried { (choice : ℕ) (body : Option Body) → Carried choice (machine_of parts.old outside.running) worker frame body
        (plans.Write passage.n writing.reached writing.value passage.to) (machine_of parts.new (outcome_of result.outcome)) result.did }
    ensures runs { result.outcome ≡ Outcome.Running }
{
    let frame = write(&mut parts.globals, go_on(frame, passage.to), writing);
    acted(worker, frame, passage.n, &mut parts.hands)
}

/// A C function is left, and the cell that its caller reached takes the value.
pub(crate) fn carry_answer(
    worker: u8,
    frame: Frame,
    n: u32,
    writing: Writing,
    parts: &mut Parts,
) -> Done
    requires worker { IsWorker parts.old.hands worker }
    requires empty { hand_of parts.old.hands worker ≡ None }
    requires inside { 1 < depth frame }
    requires fits { Fits writing.reached.slot writing.reached.index (left frame) parts.old.globals.items }
    ensures carried { (choice : ℕ) (body : Option Body) → Carried choice (machine_of parts.old outside.running) worker frame body
        (plans.Answer n writing.reached writing.value) (machine_of parts.new (outcome_of result.outcome)) result.did }
    ensures spent { LeavesTop frame parts.new.spent }
{
    let frame = leave(frame, &mut parts.spent);
    let frame = write(&mut parts.globals, frame, writing);
    acted(worker, frame, n, &mut parts.hands)
}

// Writes a cell of the frame's top activation, of the procedure's own, or of the top level.
fn write(globals: &mut Vec<i32>, mut frame: Frame, writing: Writing) -> Frame
    requires { Fits writing.reached.slot writing.reached.index frame globals.old.items }
    ensures frame { result ≡ frame_put writing.reached.slot writing.reached.index writing.value frame }
    ensures globals { globals.new.items ≡ globals_put writing.reached.slot writing.reached.index writing.value globals.old.items }
{
    let Writing { reached, value } = writing;
    let cell = reached.slot.offset + reached.index;
    match reached.slot.area {
        Area::Own => {
            let top = frame.depth() - 1;
            frame.set_cell(top, cell, value);
        }
        Area::Outer => frame.set_cell(0, cell, value),
        Area::Global => globals[cell as usize] = value,
    }
    frame
}
