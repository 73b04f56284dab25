//! What a step evaluates, taken from it beforehand, and its value given back.

ghost use Rattle.std.specs.Prelude.{◌≡◌, ◌<◌, length, option_map, false, Some, Ok, Decides, IfOk, IfErr, IfSome, OnOk};
ghost use Rattle.cilk_machine_plan.specs.nodes.Areas.{sizes_of, SlotsLieWithin};
ghost use Rattle.cilk_machine_plan.specs.eval.Known.{known_of};
ghost use Rattle.cilk_machine_plan.specs.StepInput.{id_of, head_number, cells_in};
ghost use Rattle.cilk_machine_plan.specs.Made.{by_effect, planned};
ghost use Rattle.cilk_machine_plan.specs.Words.{plan_of};
ghost use Rattle.cilk_machine_step.specs.Scenes.{input_of, HeadFits, is_wait};
ghost use Rattle.cilk_machine_step.specs.Peeks.{code_of, plain, is_element, code_in, peek_in, peek_of, effect_by, code_at, taken_down, IsSeenAs};

use crate::act::next_of;
use crate::coming::{Coming, comes_next};
use crate::peek::Peek;
use crate::scene::Scene;
use cilk_load::{Action, Code, Loaded, Memory, Node, SlotPlace, Trap};
use cilk_machine_plan::{
    Known, Light, Listed, Plan, Reached, TrapKind, combined, held, is_known_of, known_of,
};
use std::alloc::Global;

/// What the step of the instance of a frame evaluates, where it assigns to a variable that is no element, or tests, and neither an element nor
/// `SYNCHED` stands in the expression.
pub fn look_ahead(alloc: Global, scene: &Scene) -> Result<Option<Peek>, Memory>
    requires there { id_of (input_of scene.now) < length (input_of scene.now).nodes }
    requires fits { HeadFits (input_of scene.now) }
    ensures { IfOk result (λ peek. option_map peek_of peek ≡ peek_in (input_of scene.now)) }
{
    match code_ahead(scene) {
        None => Ok(None),
        Some(code) => {
            let path = scene.tree.path_of(scene.frame.id())?;
            let values = known_of(alloc, &scene.lent(), code)?;
            let code = code.copy(alloc)?;
            Ok(Some(Peek {
                path,
                n: head_number(scene),
                code,
                values,
            }))
        }
    }
}

/// The number of the action of which one sees something who looks ahead.
pub fn number_ahead(scene: &Scene) -> Option<u32>
    requires there { id_of (input_of scene.now) < length (input_of scene.now).nodes }
    requires fits { HeadFits (input_of scene.now) }
    ensures { result ≡ option_map (λ peek. peek.n) (peek_in (input_of scene.now)) }
{
    match code_ahead(scene) {
        None => None,
        Some(_) => Some(head_number(scene)),
    }
}

/// The expression that an action evaluates, where it is one of which one may see something.
pub fn code_numbered(loaded: &Loaded, n: u32) -> Option<&Code>
    ensures { option_map (λ code. code.now) result ≡ code_at loaded.now n }
{
    let node = loaded.statement(n)?;
    code_of(&node.action)
}

/// Takes what the variables of an expression hold for the instance.
pub fn take_down(scene: &Scene, listed: &Listed, values: &mut Vec<Known>) -> Result<(), Memory>
    requires { id_of (input_of scene.now) < length (input_of scene.now).nodes }
    ensures { OnOk result (values.new.items ≡ known_of (cells_in (input_of scene.now)) listed.now) }
{
    listed.hold(&scene.lent(), values)
}

/// Whether one sees this who looks now: that the action has this number and evaluates this expression, of whose variables this is known.
pub fn is_still_seen(scene: &Scene, n: u32, listed: &Listed, values: &[Known]) -> bool
    requires there { id_of (input_of scene.now) < length (input_of scene.now).nodes }
    requires fits { HeadFits (input_of scene.now) }
    requires code { code_at (input_of scene.now).program n ≡ Some listed.now }
    ensures { Decides result (peek_in (input_of scene.now) ≡ Some (taken_down (input_of scene.now) n listed.now values.now)) }
{
    match number_ahead(scene) {
        None => false,
        Some(number) => number == n && listed.still_holds(&scene.lent(), values),
    }
}

/// The plan of the step of which one sees that, whose expression has this value: a light one, or else another.
pub fn plan_by_value(scene: &Scene, n: u32, value: Result<i32, Trap>) -> Result<Light, Plan>
    requires there { id_of (input_of scene.now) < length (input_of scene.now).nodes }
    requires seen { IsSeenAs (input_of scene.now) n value }
    ensures light { IfOk result (λ light. plan_of light ≡ planned (input_of scene.now)) }
    ensures other { IfErr result (λ plan. plan ≡ planned (input_of scene.now)) }
    ensures goes { IfErr result (λ plan. is_wait plan ≡ false) }
{
    match scene.loaded.statement(n) {
        None => unreachable!(),
        Some(node) => by_value(scene, n, node, value),
    }
}

/// Whether one sees the same who looks now.
pub fn is_seen(scene: &Scene, peek: &Peek) -> bool
    requires there { id_of (input_of scene.now) < length (input_of scene.now).nodes }
    requires fits { HeadFits (input_of scene.now) }
    ensures { Decides result (peek_in (input_of scene.now) ≡ Some (peek_of peek.now)) }
{
    match code_ahead(scene) {
        None => false,
        Some(code) => {
            head_number(scene) == peek.n
                && scene.tree.find(peek.path.as_slice()) == Some(scene.frame.id())
                && code.same(&peek.code)
                && is_known_of(&scene.lent(), code, peek.values.as_slice())
        }
    }
}

// The plan by the value of the expression that the action evaluates.
#[tactic(auto, using(crate::proofs::Peeks::no_effect))]
fn by_value(scene: &Scene, n: u32, node: &Node, value: Result<i32, Trap>) -> Result<Light, Plan>
    requires { id_of (input_of scene.now) < length (input_of scene.now).nodes }
    ensures light { IfOk result (λ light. plan_of light
        ≡ by_effect (input_of scene.now) n node.now (effect_by (cells_in (input_of scene.now)) node.now.action value)) }
    ensures other { IfErr result (λ plan. plan
        ≡ by_effect (input_of scene.now) n node.now (effect_by (cells_in (input_of scene.now)) node.now.action value)) }
    ensures goes { IfErr result (λ plan. is_wait plan ≡ false) }
{
    match value {
        Err(trap) => Err(trapped(trap, n)),
        Ok(value) => match &node.action {
            Action::Assign(target, _) => {
                let slot = target.place.slot;
                match combined(target.op, held(&scene.lent(), slot, 0), value) {
                    Err(trap) => Err(trapped(trap, n)),
                    Ok(value) => Ok(Light::Write {
                        n,
                        reached: Reached { slot, index: 0 },
                        value,
                        to: next_of(node, 1),
                    }),
                }
            }
            _ => Ok(Light::Go {
                n,
                to: next_of(node, value),
            }),
        },
    }
}

fn trapped(trap: Trap, n: u32) -> Plan
    ensures { result ≡ Plan.Trap (TrapKind.Value trap) n }
{
    Plan::Trap {
        kind: TrapKind::Value(trap),
        n,
    }
}

fn head_number(scene: &Scene) -> u32
    ensures { result ≡ head_number (input_of scene.now) }
{
    scene.frame.node(scene.frame.depth() - 1)
}

// The expression that the step evaluates, where it is one whose value can be told beforehand.
fn code_ahead<'a>(scene: &Scene<'a>) -> Option<&'a Code>
    requires there { id_of (input_of scene.now) < length (input_of scene.now).nodes }
    requires fits { HeadFits (input_of scene.now) }
    ensures value { option_map (λ code. code.now) result ≡ code_in (input_of scene.now) }
    ensures fits { IfSome result (λ code. SlotsLieWithin (sizes_of (cells_in (input_of scene.now))) code.now) }
{
    match comes_next(scene) {
        Coming::End | Coming::Nothing | Coming::Delivery(_) => None,
        Coming::Act(_, node) => code_of(&node.action),
    }
}

fn code_of(action: &Action) -> Option<&Code>
    ensures { option_map (λ code. code.now) result ≡ code_of action.now }
{
    match action {
        Action::Assign(target, code) if !is_element(&target.place) => plain(code),
        Action::Test(code) => plain(code),
        _ => None,
    }
}

fn is_element(place: &SlotPlace) -> bool
    ensures { result ≡ is_element place.now }
{
    place.subscript.is_some()
}

fn plain(code: &Code) -> Option<&Code>
    ensures { option_map (λ code. code.now) result ≡ plain code.now }
{
    if code.is_plain() { Some(code) } else { None }
}
