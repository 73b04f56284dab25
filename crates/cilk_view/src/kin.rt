//! The children of each instance, in the order of their ordinals.

ghost use Rattle.std.specs.Prelude.{◌≡◌, List, None, IfOk, OnOk, IfSome, length};
ghost use Rattle.cilk_machine_agree.specs.spawn.Nodes.{Node};
ghost use Rattle.cilk_view.specs.Ups.{links_of};
ghost use Rattle.cilk_view.specs.Kin.{AreKin, KinSorted, NextChild, NoChild, with_kin, search_end};

use crate::link::{Link, link_at};
use cilk_load::Memory;
use cilk_machine_agree::Id;
use std::alloc::Global;

/// The parent, the ordinal and the number of each instance but the root, sorted.
pub(crate) fn kin_of(
    alloc: Global,
    links: &[Option<Link>],
) -> Result<Vec<(usize, (usize, usize))>, Memory>
    ensures { IfOk result (λ kin. (ns : List Node) → links.now ≡ links_of ns → KinSorted ns kin.items) }
{
    let mut kin = kin_made(alloc, links)?;
    kin.sort()?;
    Ok(kin)
}

// The same in the order of birth.
#[tactic(auto, using(crate::proofs::Kins::kin_none))]
fn kin_made(alloc: Global, links: &[Option<Link>]) -> Result<Vec<(usize, (usize, usize))>, Memory>
    ensures { IfOk result (λ kin. (ns : List Node) → links.now ≡ links_of ns → AreKin ns (length ns) kin.items) }
{
    let mut kin = Vec::new(alloc);
    for number in 0..links.len() {
        add_kin(&mut kin, link_at(links, Id::new(number)), number)?;
    }
    Ok(kin)
}

fn add_kin(
    kin: &mut Vec<(usize, (usize, usize))>,
    link: Option<Link>,
    number: usize,
) -> Result<(), Memory>
    ensures { OnOk result (kin.new.items ≡ with_kin link number kin.old.items) }
{
    match link {
        None => Ok(()),
        Some(link) => {
            kin.push((link.parent.number(), (link.ordinal as usize, number)))?;
            Ok(())
        }
    }
}

/// The first child of an instance whose ordinal is greater than this.
pub(crate) fn next_child(kin: &[(usize, (usize, usize))], at: Id, after: u32) -> Option<Id>
    ensures some { IfSome result (λ child. (ns : List Node) → KinSorted ns kin.now → NextChild ns at after child) }
    ensures none { result ≡ None → (ns : List Node) → KinSorted ns kin.now → NoChild ns at after }
{
    let place = search_end(kin.binary_search(&(at.number(), (after as usize + 1, 0))));
    match kin.get(place) {
        None => None,
        Some(one) => {
            if one.0 == at.number() {
                Some(Id::new(one.1.1))
            } else {
                None
            }
        }
    }
}

fn search_end(found: Result<usize, usize>) -> usize
    ensures { result ≡ search_end found }
{
    match found {
        Ok(place) => place,
        Err(place) => place,
    }
}
