//! What a text is made of that is told in portions.

ghost use Rattle.std.specs.Prelude.{◌<◌, ◌++◌, length, string_bytes};
ghost use Rattle.cilk_machine_agree.specs.model.Path.{path_text};
ghost use Rattle.cilk_view.specs.Ups.{linked_path};
ghost use Rattle.cilk_view.specs.Entries.{TellsEntries, TellsAlone};

use crate::link::Link;
use cilk_load::Memory;
use cilk_machine_agree::Id;
use std::alloc::Global;

/// The path of an instance that is not the root, where there is one, and the text behind it. A path is told from the links when its turn comes,
/// since all paths together may be longer by far than there are instances.
#[derive(Drop)]
pub(crate) struct Entry {
    pub(crate) name: Option<Id>,
    pub(crate) text: String,
}

/// A text alone.
#[tactic(auto, using(crate::proofs::Entries::one_gained))]
pub(crate) fn add_text(entries: &mut Vec<Entry>, text: String) -> Result<(), Memory>
    ensures { TellsAlone result entries.old.items entries.new.items (string_bytes text) }
{
    entries.push(Entry { name: None, text })?;
    Ok(())
}

/// The path of an instance, and a text behind it.
pub(crate) fn add_name(
    alloc: Global,
    entries: &mut Vec<Entry>,
    links: &[Option<Link>],
    id: Id,
    text: String,
) -> Result<(), Memory>
    requires { id < length links.now }
    ensures { TellsEntries links.now result entries.old.items entries.new.items (path_text (linked_path links.now id) ++ string_bytes text) }
{
    match links[id.number()] {
        None => {
            add_text(entries, String::from_str(alloc, "/")?)?;
            add_text(entries, text)
        }
        Some(_) => {
            entries.push(Entry {
                name: Some(id),
                text,
            })?;
            Ok(())
        }
    }
}
