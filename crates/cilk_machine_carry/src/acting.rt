//! Carries out the plans of a trap, of bytes that are printed and of an `abort`; and what most actions end with: the frame is in the hand again.

ghost use Rattle.std.specs.Prelude.{◌≡◌, ℕ, true, Option, None, Some, IfErr, IfOk, OnErr};
ghost use Rattle.cilk_machine_plan.specs.model.Hands.{IsWorker, hand_of, with_hand};
ghost use Rattle.cilk_machine_plan.specs.nodes.declared.body.Body.{Body};
ghost use Rattle.cilk_machine_plan.specs.spawn.Nodes.{node_at, is_live};
ghost use Rattle.cilk_machine_plan.specs.agree.Outside as outside;
ghost use Rattle.cilk_machine_plan.specs.declared.plan.Plan.TheVariants as plans;
ghost use Rattle.cilk_machine_plan.specs.PartWords.{machine_of, outcome_of};
ghost use Rattle.cilk_machine_plan.specs.Carried.{Carried};

use crate::entering::go_on;
use crate::given::Passage;
use cilk_machine_plan::{Bytes, Did, Done, Frame, Hands, Outcome, Parts, TrapKind};

/// The frame is in the hand, and its action n was acted.
pub(crate) fn acted(worker: u8, frame: Frame, n: u32, hands: &mut Hands) -> Done
    requires worker { IsWorker hands.old worker }
    requires empty { hand_of hands.old worker ≡ None }
    ensures hands { hands.new ≡ with_hand hands.old worker (Some frame) }
    ensures outcome { result.outcome ≡ Outcome.Running }
    ensures did { result.did ≡ Did.Acted frame.id n }
{
    let id = frame.id();
    hands.give(worker, frame);
    Done::running(Did::Acted(id, n))
}

/// The instance is trapped, and its frame stays as it is.
pub(crate) fn carry_trap(
    worker: u8,
    frame: Frame,
    kind: TrapKind,
    n: u32,
    parts: &mut Parts,
) -> Done
    requires worker { IsWorker parts.old.hands worker }
    requires empty { hand_of parts.old.hands worker ≡ None }
    ensures { (choice : ℕ) (body : Option Body) → Carried choice (machine_of parts.old outside.running) worker frame body
        (plans.Trap kind n) (machine_of parts.new (outcome_of result.outcome)) result.did }
{
    let id = frame.id();
    parts.hands.give(worker, frame);
    Done {
        outcome: Outcome::Trapped(kind, id, n),
        did: Did::Trapped(kind, id, n),
    }
}

/// The bytes come after what was printed. Where memory has run out, the frame comes back, and nothing has changed.
pub(crate) fn carry_print(
    worker: u8,
    frame: Frame,
    passage: Passage,
    bytes: Bytes,
    parts: &mut Parts,
) -> Result<Done, Frame>
    requires worker { IsWorker parts.old.hands worker }
    requires empty { hand_of parts.old.hands worker ≡ None }
    ensures done { IfOk result (λ done. (choice : ℕ) (body : Option Body) → Carried choice (machine_of parts.old outside.running) worker frame body
        (plans.Print passage.n bytes passage.to) (machine_of parts.new (outcome_of done.outcome)) done.did) }
    ensures back { IfErr result (λ f. f ≡ frame) }
    ensures same { OnErr result (machine_of parts.new outside.running ≡ machine_of parts.old outside.running) }
    ensures living { OnErr result (parts.new.tree.living ≡ parts.old.tree.living) }
{
    match parts.output.extend_from_slice(bytes.as_slice()) {
        Err(_) => Err(frame),
        Ok(()) => Ok(acted(
            worker,
            go_on(frame, passage.to),
            passage.n,
            &mut parts.hands,
        )),
    }
}

/// The live descendants are marked.
pub(crate) fn carry_abort(worker: u8, frame: Frame, passage: Passage, parts: &mut Parts) -> Done
    requires worker { IsWorker parts.old.hands worker }
    requires empty { hand_of parts.old.hands worker ≡ None }
    requires live { is_live (node_at parts.old.tree.nodes frame.id) ≡ true }
    ensures { (choice : ℕ) (body : Option Body) → Carried choice (machine_of parts.old outside.running) worker frame body
        (plans.Abort passage.n passage.to) (machine_of parts.new (outcome_of result.outcome)) result.did }
{
    parts.tree.mark_aborted(frame.id());
    acted(
        worker,
        go_on(frame, passage.to),
        passage.n,
        &mut parts.hands,
    )
}
