//! The first fault among the prototypes of a program.

ghost use Rattle.std.specs.Prelude.{◌≡◌, List, IfOk, OnOk, flat_map};
ghost use Rattle.std.specs.List.{list_any};
ghost use Rattle.cilk_check_scopes.specs.syntax.Tree as tree;
ghost use Rattle.cilk_check_scopes.specs.First.{first_among};
ghost use Rattle.cilk_check.specs.NameFinds.{defines, prototype_faults};
ghost use Rattle.cilk_check.specs.Signatures.{GainsSignature, HasSignatures};

use crate::reserved::is_reserved;
use crate::signature::Signature;
use cilk_check_scopes::{CheckFault, Item, ItemNode, Memory, Prototype, first_if};
use std::alloc::Global;
use std::collections::BTreeSet;

// One more item, which may be a definition.
fn add<'a>(signatures: &mut BTreeSet<Signature<'a>>, item: &'a Item) -> Result<(), Memory>
    ensures { OnOk result (GainsSignature signatures.old signatures.new item.now) }
{
    if let ItemNode::Procedure(definition) = &item.node {
        if let Some(signature) = Signature::of_definition(definition) {
            signatures.insert(signature)?;
        }
    }
    Ok(())
}

// Those of all definitions: where a name is defined twice, both of them.
fn signatures<'a>(alloc: Global, items: &'a [Item]) -> Result<BTreeSet<Signature<'a>>, Memory>
    ensures { IfOk result (λ set. HasSignatures set items.now) }
{
    let mut signatures = BTreeSet::new(alloc);
    for item in items {
        add(&mut signatures, item)?;
    }
    Ok(signatures)
}

fn is_defined<'a>(signatures: &BTreeSet<Signature<'a>>, prototype: &'a Prototype) -> bool
    ensures { (items : List tree.Item) → HasSignatures signatures.now items → result ≡ list_any (defines prototype.now) items }
{
    let signature = Signature::of_prototype(prototype);
    signatures.contains(&signature)
}

fn at_item<'a>(
    signatures: &BTreeSet<Signature<'a>>,
    item: &'a Item,
    found: Option<CheckFault>,
) -> Option<CheckFault>
    ensures { (items : List tree.Item) → HasSignatures signatures.now items → result ≡ first_among found (prototype_faults items item.now) }
{
    match &item.node {
        ItemNode::Prototype(prototype) => {
            let name = &prototype.name;
            let found = first_if(
                found,
                !is_defined(signatures, prototype),
                CheckFault::Prototype(name.at()),
            );
            first_if(
                found,
                is_reserved(name.as_str()),
                CheckFault::Reserved(name.at()),
            )
        }
        ItemNode::Global(_) | ItemNode::Lock(_) | ItemNode::Procedure(_) => found,
    }
}

#[tactic(auto, using(crate::proofs::Tops::tops))]
pub(crate) fn at_prototypes(
    alloc: Global,
    items: &[Item],
    found: Option<CheckFault>,
) -> Result<Option<CheckFault>, Memory>
    ensures { IfOk result (λ f. f ≡ first_among found (flat_map (prototype_faults items.now) items.now)) }
{
    let signatures = signatures(alloc, items)?;
    let mut found = found;
    for item in items {
        found = at_item(&signatures, item, found);
    }
    Ok(found)
}
