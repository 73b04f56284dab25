//! The first fault in the forms of a program.

ghost use Rattle.std.specs.Prelude.{◌≡◌, None, flat_map, IfOk};
ghost use Rattle.std.specs.List.{list_any};
ghost use Rattle.cilk_check_scopes.specs.First.{first_among};
ghost use Rattle.cilk_check_scopes.specs.Scopes.{file_declares, item_declares};
ghost use Rattle.cilk_check_scopes.specs.Parts.{owner_of};
ghost use Rattle.cilk_check_scopes.specs.syntax.ProgramView.{parameters_of};
ghost use Rattle.cilk_check_scopes.specs.Cells.{max_global_cells};
ghost use Rattle.cilk_check_scopes.specs.Forms.{are_of_main};
ghost use Rattle.cilk_check.specs.FormFinds.{forms_faults, item_faults, procedure_faults, length_faults, passing};
ghost use Rattle.cilk_check_scopes.specs.Mains.{starts, is_main, is_int};

use crate::cells::{behind_block, behind_items, behind_parameters};
use crate::forms_of_walk::in_block;
use crate::local::{MAX_CELLS, is_length};
use crate::space::Room;
use cilk_check_scopes::{
    CheckFault, GlobalShape, Item, ItemNode, Memory, Owner, Parameters, Proc, Program, ReturnType,
    Within, first_if,
};
use std::alloc::Global;

const MAX_GLOBAL_CELLS: u32 = 1_048_576;

#[tactic(auto, using(crate::proofs::Walks::walks))]
pub(crate) fn first_listed(alloc: Global, program: &Program) -> Result<Option<CheckFault>, Memory>
    ensures { IfOk result (λ f. f ≡ first_among None (forms_faults program.now)) }
{
    let items = program.items.as_slice();
    let found = at_lengths(items, None);
    let found = at_cells(items, found);
    let found = in_items(alloc, items, found)?;
    Ok(first_if(found, !starts(items), CheckFault::NoMain(program.length)))
}

#[tactic(auto, using(crate::proofs::Walks::walks))]
fn at_lengths(items: &[Item], found: Option<CheckFault>) -> Option<CheckFault>
    ensures { result ≡ first_among found (flat_map length_faults (file_declares items.now)) }
{
    let mut found = found;
    for item in items {
        found = at_length(item, found);
    }
    found
}

#[tactic(auto, using(crate::proofs::Walks::walks))]
fn at_length(item: &Item, found: Option<CheckFault>) -> Option<CheckFault>
    ensures { result ≡ first_among found (flat_map length_faults (item_declares item.now)) }
{
    match &item.node {
        ItemNode::Global(global) => match global.shape {
            GlobalShape::Variable(_) => found,
            GlobalShape::Array(length) => first_if(
                found,
                !is_length(length),
                CheckFault::Limit(global.name.at()),
            ),
        },
        ItemNode::Lock(_) | ItemNode::Prototype(_) | ItemNode::Procedure(_) => found,
    }
}

#[tactic(auto, using(crate::proofs::Walks::walks))]
fn at_cells(items: &[Item], found: Option<CheckFault>) -> Option<CheckFault>
    ensures { result ≡ first_among found (passing max_global_cells (file_declares items.now)) }
{
    let room = Room {
        left: Some(MAX_GLOBAL_CELLS),
        found,
    };
    behind_items(items, room).found
}

#[tactic(auto, using(crate::proofs::Walks::walks))]
fn in_items(
    alloc: Global,
    items: &[Item],
    found: Option<CheckFault>,
) -> Result<Option<CheckFault>, Memory>
    ensures { IfOk result (λ f. f ≡ first_among found (flat_map item_faults items.now)) }
{
    let mut found = found;
    for item in items {
        found = in_item(alloc, item, found)?;
    }
    Ok(found)
}

fn in_item(
    alloc: Global,
    item: &Item,
    found: Option<CheckFault>,
) -> Result<Option<CheckFault>, Memory>
    ensures { IfOk result (λ f. f ≡ first_among found (item_faults item.now)) }
{
    match &item.node {
        ItemNode::Procedure(definition) => in_procedure(alloc, definition, found),
        ItemNode::Global(_) | ItemNode::Lock(_) | ItemNode::Prototype(_) => Ok(found),
    }
}

#[tactic(auto, using(crate::proofs::Walks::walks), unfolding(crate::specs::FormFinds::procedure_faults))]
fn in_procedure(
    alloc: Global,
    definition: &Proc,
    found: Option<CheckFault>,
) -> Result<Option<CheckFault>, Memory>
    ensures { IfOk result (λ f. f ≡ first_among found (procedure_faults definition.now)) }
{
    let room = Room {
        left: Some(MAX_CELLS),
        found,
    };
    let room = behind_parameters(&definition.parameters, room);
    let found = behind_block(&definition.body, room).found;
    let within = Within::whole_body(owner_of(definition.is_cilk, definition.returns));
    let found = in_block(alloc, within, &definition.body, found)?;
    Ok(found)
}

fn owner_of(is_cilk: bool, returns: ReturnType) -> Owner
    ensures { result ≡ owner_of is_cilk returns }
{
    if is_cilk {
        Owner::Procedure(returns)
    } else {
        Owner::Function(returns)
    }
}

/// Whether one of these definitions is one to start with.
fn starts(items: &[Item]) -> bool
    ensures { result ≡ list_any starts items.now }
{
    items.iter().any(|item| item_starts(item))
}

fn item_starts(item: &Item) -> bool
    ensures { result ≡ starts item.now }
{
    match &item.node {
        ItemNode::Procedure(definition) => is_main(definition),
        ItemNode::Global(_) | ItemNode::Lock(_) | ItemNode::Prototype(_) => false,
    }
}

fn is_main(definition: &Proc) -> bool
    ensures { result ≡ is_main definition.now }
{
    definition.is_cilk
        && returns_int(definition.returns)
        && definition.name.as_str() == "main"
        && are_of_main(&definition.parameters)
}

fn returns_int(returns: ReturnType) -> bool
    ensures { result ≡ is_int returns }
{
    match returns {
        ReturnType::Int => true,
        ReturnType::Void => false,
    }
}

fn are_of_main(parameters: &Parameters) -> bool
    ensures { result ≡ are_of_main (parameters_of parameters.now) }
{
    match parameters {
        Parameters::Ints(names) => names.is_empty(),
        Parameters::CommandLine(_, _) => true,
    }
}
