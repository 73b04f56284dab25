//! Who is whose child, for what is told without the tree at hand.

ghost use Rattle.std.specs.Prelude.{◌≡◌, ◌<◌, length, map, IfOk};
ghost use Rattle.cilk_machine_agree.specs.spawn.Nodes.{node_at};
ghost use Rattle.cilk_view.specs.Ups.{link_at, link_of, links_of};

use cilk_load::Memory;
use cilk_machine_agree::{Id, Tree};
use std::alloc::Global;

/// The parent of an instance, and which of the parent's children it is, from 1 on.
#[derive(Clone, Copy)]
pub(crate) struct Link {
    pub(crate) parent: Id,
    pub(crate) ordinal: u32,
}

/// The link of each instance ever made, in the order of birth. The root has none.
pub(crate) fn links_of(alloc: Global, tree: &Tree) -> Result<Vec<Option<Link>>, Memory>
    ensures { IfOk result (λ links. links.items ≡ links_of tree.now.nodes) }
{
    let count = tree.next_id().number();
    let mut links = Vec::with_capacity(alloc, count)?;
    for number in 0..count {
        links.push(link_of(tree, Id::new(number))?)?;
    }
    Ok(links)
}

#[tactic(auto, using(crate::proofs::Ups::link_found, crate::proofs::Ups::link_missing))]
fn link_of(tree: &Tree, id: Id) -> Result<Option<Link>, Memory>
    requires { id < length tree.now.nodes }
    ensures { IfOk result (λ link. link ≡ link_of (node_at tree.now.nodes id)) }
{
    // Brings its clauses into the proof.
    let _next = tree.next_id();
    match tree.parent(id) {
        None => Ok(None),
        Some(parent) => {
            let path = tree.path_of(id)?;
            match path.as_slice() {
                [_front @ .., ordinal] => Ok(Some(Link {
                    parent,
                    ordinal: *ordinal,
                })),
                _ => Ok(None),
            }
        }
    }
}

/// The link of an instance, if it has one.
pub(crate) fn link_at(links: &[Option<Link>], id: Id) -> Option<Link>
    ensures { result ≡ link_at links.now id }
{
    match links.get(id.number()) {
        None => None,
        Some(link) => *link,
    }
}
