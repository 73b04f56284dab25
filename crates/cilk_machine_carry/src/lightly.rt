//! `carry_lightly`: carries out a light plan. The frame stays in the hand, and is changed there.

ghost use Rattle.std.specs.Prelude.{◌≡◌, Some, None};
ghost use Rattle.cilk_machine_plan.specs.model.Hands.{IsWorker, hand_of, with_hand};
ghost use Rattle.cilk_machine_plan.specs.frame.Cells.{frame_put, globals_put};
ghost use Rattle.cilk_machine_plan.specs.agree.Outside as outside;
ghost use Rattle.cilk_machine_plan.specs.Words.{plan_of};
ghost use Rattle.cilk_machine_plan.specs.PartWords.{machine_of};
ghost use Rattle.cilk_machine_plan.specs.Ready.{Fits, Ready, frame_in};
ghost use Rattle.cilk_machine_plan.specs.Carried.{Carried};
ghost use Rattle.cilk_machine_carry.specs.Carries.{CanCarry, Carries, Becomes};
ghost use Rattle.cilk_machine_plan.specs.Spends.{Spends, SpendsIn};

use cilk_machine_plan::{Area, Did, Hands, Id, Light, Outcome, Parts, Spent, Writing, write_cell};

/// Carries out the light plan of the frame in the worker's hand, at this choice. It takes no memory, and the program runs on.
#[inline(always)]
pub fn carry_lightly(worker: u8, light: Light, choice: u64, parts: &mut Parts) -> Did
    requires { CanCarry parts.old worker None (plan_of light) }
    ensures done { Carries choice parts.old worker None (plan_of light) parts.new (record { outcome = Outcome.Running; did = result }) }
    ensures becomes { Becomes choice parts.old worker None (plan_of light) parts.new (record { outcome = Outcome.Running; did = result }) }
    ensures spent { SpendsIn parts.old worker (plan_of light) parts.new.spent }
{
    match parts.hands.hand(worker) {
        None => unreachable!(),
        Some(frame) => {
            let id = frame.id();
            carry_light(worker, id, light, choice, parts)
        }
    }
}

// The instance in the hand has this number.
#[inline(always)]
fn carry_light(worker: u8, id: Id, light: Light, choice: u64, parts: &mut Parts) -> Did
    requires worker { IsWorker parts.old.hands worker }
    requires held { hand_of parts.old.hands worker ≡ Some (frame_in parts.old.hands worker) }
    requires id { id ≡ (frame_in parts.old.hands worker).id }
    requires ready { Ready choice parts.old.tree.nodes parts.old.globals.items (frame_in parts.old.hands worker) None (plan_of light) }
    ensures carried { Carried choice (machine_of parts.old outside.running) worker (frame_in parts.old.hands worker) None (plan_of light)
        (machine_of parts.new outside.running) result }
    ensures spent { Spends parts.old.tree.nodes (frame_in parts.old.hands worker) (plan_of light) parts.new.spent }
{
    match light {
        Light::Take {
            child,
            n,
            reached,
            value,
        } => {
            let writing = Writing { reached, value };
            write_cell(worker, writing, &mut parts.globals, &mut parts.hands);
            let _taken = parts.tree.take_delivery(id, choice);
            Did::Delivered(child, n)
        }
        Light::Go { n, to } => {
            parts.hands.go_on(worker, to);
            Did::Acted(id, n)
        }
        Light::Write {
            n,
            reached,
            value,
            to,
        } => {
            parts.hands.go_on(worker, to);
            let writing = Writing { reached, value };
            write_cell(worker, writing, &mut parts.globals, &mut parts.hands);
            Did::Acted(id, n)
        }
        Light::Leave { n } => {
            parts.spent = Spent::Activation(parts.hands.withdraw(worker));
            Did::Acted(id, n)
        }
        Light::Answer { n, reached, value } => {
            parts.spent = Spent::Activation(parts.hands.withdraw(worker));
            let writing = Writing { reached, value };
            write_cell(worker, writing, &mut parts.globals, &mut parts.hands);
            Did::Acted(id, n)
        }
    }
}
