//! What the top level declares: its faults, and the table of it.

ghost use Rattle.std.specs.Prelude.{◌≡◌, [], IfOk, OnOk, flat_map, length, option_to_list, option_map};
ghost use Rattle.cilk_check_scopes.specs.syntax.ProgramView.{parameters_of};
ghost use Rattle.cilk_check_scopes.specs.First.{first_among};
ghost use Rattle.cilk_check_scopes.specs.Scopes.{declare_all, file_declares, file_scopes, item_declares, kind_of_body, parameter_count};
ghost use Rattle.cilk_check_scopes.specs.Declarations.{declaring};
ghost use Rattle.cilk_check.specs.NameFinds.{declaring_faults, scope_faults};

use crate::names_of_walk::at_declared;
use crate::table::SymbolTable;
use cilk_check_scopes::{
    CheckFault, DeclarationKind, GlobalShape, Item, ItemNode, Memory, Parameters, ReturnType,
};
use std::alloc::Global;

fn kind_of_body(is_cilk: bool, returns: ReturnType, parameters: usize) -> DeclarationKind
    ensures { result ≡ kind_of_body is_cilk returns parameters }
{
    if is_cilk {
        DeclarationKind::Procedure(returns, parameters)
    } else {
        DeclarationKind::Function(returns, parameters)
    }
}

fn parameter_count(parameters: &Parameters) -> usize
    ensures { result ≡ parameter_count (parameters_of parameters.now) }
{
    match parameters {
        Parameters::Ints(names) => names.len(),
        Parameters::CommandLine(_, _) => 1,
    }
}

// One more item in the scope that is open.
#[tactic(auto, using(crate::proofs::Declarings::declarings))]
fn at_item<'a>(
    names: &mut SymbolTable<'a>,
    item: &'a Item,
    found: Option<CheckFault>,
) -> Result<Option<CheckFault>, Memory>
    ensures first { IfOk result (λ f. f ≡ first_among found (flat_map declaring_faults (declaring names.old.innermost (item_declares item.now)))) }
    ensures visible { OnOk result (names.new ≡ declare_all names.old (item_declares item.now)) }
{
    match &item.node {
        ItemNode::Global(global) => {
            let kind = match global.shape {
                GlobalShape::Variable(_) => DeclarationKind::Variable,
                GlobalShape::Array(length) => DeclarationKind::Array(length),
            };
            at_declared(names, &global.name, kind, found)
        }
        ItemNode::Lock(name) => at_declared(names, name, DeclarationKind::Lock, found),
        ItemNode::Prototype(_) => Ok(found),
        ItemNode::Procedure(definition) => {
            let parameters = parameter_count(&definition.parameters);
            let kind = kind_of_body(definition.is_cilk, definition.returns, parameters);
            at_declared(names, &definition.name, kind, found)
        }
    }
}

/// The names of the top level, each behind those before it.
#[tactic(auto, using(crate::proofs::Tops::tops))]
pub(crate) fn at_items<'a>(
    names: &mut SymbolTable<'a>,
    items: &'a [Item],
    found: Option<CheckFault>,
) -> Result<Option<CheckFault>, Memory>
    ensures { IfOk result (λ f. f ≡ first_among found (flat_map declaring_faults (declaring names.old.innermost (file_declares items.now)))) }
{
    let mut found = found;
    for item in items {
        found = at_item(names, item, found)?;
    }
    Ok(found)
}

/// What is visible in the whole file. An item hides those behind it.
#[tactic(auto, using(crate::proofs::Tops::tops))]
pub(crate) fn file_names<'a>(alloc: Global, items: &'a [Item]) -> Result<SymbolTable<'a>, Memory>
    ensures { IfOk result (λ n. n ≡ file_scopes items.now) }
{
    let mut names = SymbolTable::new(alloc);
    let mut left = items.len();
    while left > 0 {
        left -= 1;
        at_item(&mut names, &items[left], None)?;
    }
    Ok(names)
}
