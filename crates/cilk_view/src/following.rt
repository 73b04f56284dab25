//! Which instance comes next in the order of the paths.

ghost use Rattle.std.specs.Prelude.{◌≡◌, ◌<◌, List, IfSome, length};
ghost use Rattle.cilk_machine_agree.specs.spawn.Nodes.{Node, IsTree, path_at};
ghost use Rattle.cilk_view.specs.Ups.{links_of, AreUp};
ghost use Rattle.cilk_view.specs.Kin.{KinSorted};
ghost use Rattle.cilk_view.specs.Following.{all_paths, beyond, from_here};

use crate::kin::next_child;
use crate::link::{Link, link_at};
use cilk_machine_agree::Id;

/// The instance whose path is the first one behind that of this instance: its first child, or else the next child of the nearest of those above
/// it that has one.
pub(crate) fn follower(
    links: &[Option<Link>],
    kin: &[(usize, (usize, usize))],
    id: Id,
) -> Option<Id>
    requires { AreUp links.now }
    ensures there { IfSome result (λ next. (ns : List Node) → KinSorted ns kin.now → next < length ns) }
    ensures rest { (ns : List Node) → IsTree ns → links.now ≡ links_of ns → KinSorted ns kin.now → id < length ns
        → from_here ns result ≡ beyond (path_at ns id) (all_paths ns) }
{
    let mut at = id;
    let mut after = 0;
    loop {
        match next_child(kin, at, after) {
            Some(child) => return Some(child),
            None => {}
        }
        match link_at(links, at) {
            None => return None,
            Some(link) => {
                after = link.ordinal;
                at = link.parent;
            }
        }
    }
}
