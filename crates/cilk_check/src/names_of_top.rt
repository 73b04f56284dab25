//! The first fault in the names of a program.

ghost use Rattle.std.specs.Prelude.{◌≡◌, None, IfOk, OnOk, flat_map};
ghost use Rattle.cilk_check_scopes.specs.First.{first_among};
ghost use Rattle.cilk_check.specs.NameFinds.{names_faults, items_faults, item_faults, procedure_faults};

use crate::file::{at_items, file_names};
use crate::names_of_walk::{at_parameters, in_block};
use crate::prototypes::at_prototypes;
use crate::table::SymbolTable;
use cilk_check_scopes::{CheckFault, Item, ItemNode, Memory, Proc, Program};
use std::alloc::Global;

pub(crate) fn first_listed(alloc: Global, program: &Program) -> Result<Option<CheckFault>, Memory>
    ensures { IfOk result (λ f. f ≡ first_among None (names_faults program.now)) }
{
    first_in(alloc, &program.items)
}

#[tactic(auto, using(crate::proofs::Tops::tops))]
fn first_in(alloc: Global, items: &[Item]) -> Result<Option<CheckFault>, Memory>
    ensures { IfOk result (λ f. f ≡ first_among None (items_faults items.now)) }
{
    let mut before = SymbolTable::new(alloc);
    let found = at_items(&mut before, items, None)?;
    let found = at_prototypes(alloc, items, found)?;
    let mut names = file_names(alloc, items)?;
    let found = in_items(&mut names, items, found)?;
    Ok(found)
}

#[tactic(auto, using(crate::proofs::Tops::tops))]
fn in_items<'a>(
    names: &mut SymbolTable<'a>,
    items: &'a [Item],
    found: Option<CheckFault>,
) -> Result<Option<CheckFault>, Memory>
    ensures { IfOk result (λ f. f ≡ first_among found (flat_map (item_faults names.old) items.now)) }
{
    let mut found = found;
    for item in items {
        found = in_item(names, item, found)?;
    }
    Ok(found)
}

#[tactic(auto, using(crate::proofs::Tops::tops))]
fn in_item<'a>(
    names: &mut SymbolTable<'a>,
    item: &'a Item,
    found: Option<CheckFault>,
) -> Result<Option<CheckFault>, Memory>
    ensures first { IfOk result (λ f. f ≡ first_among found (item_faults names.old item.now)) }
    ensures visible { OnOk result (names.new ≡ names.old) }
{
    match &item.node {
        ItemNode::Procedure(definition) => in_procedure(names, definition, found),
        ItemNode::Global(_) | ItemNode::Lock(_) | ItemNode::Prototype(_) => Ok(found),
    }
}

#[tactic(auto, using(crate::proofs::Tops::tops), unfolding(crate::specs::NameFinds::procedure_faults))]
fn in_procedure<'a>(
    names: &mut SymbolTable<'a>,
    definition: &'a Proc,
    found: Option<CheckFault>,
) -> Result<Option<CheckFault>, Memory>
    ensures first { IfOk result (λ f. f ≡ first_among found (procedure_faults names.old definition.now)) }
    ensures visible { OnOk result (names.new ≡ names.old) }
{
    let outer = names.enter();
    let found = at_parameters(names, &definition.parameters, found)?;
    let found = in_block(names, &definition.body, found)?;
    names.leave(outer)?;
    Ok(found)
}
