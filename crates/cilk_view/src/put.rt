//! The smallest parts of a view.

ghost use Rattle.std.specs.Prelude.{◌<◌, length};
ghost use Rattle.cilk_load.specs.syntax.Appends.{Appends};
ghost use Rattle.cilk_machine_agree.specs.model.Path.{path_text};
ghost use Rattle.cilk_machine_agree.specs.spawn.Nodes.{path_at};

use cilk_load::Memory;
use cilk_machine_agree::{Id, Path, Tree};

pub(crate) fn put(out: &mut String, text: &str) -> Result<(), Memory>
    ensures { Appends result out.old out.new text.now }
{
    out.push_str(text)?;
    Ok(())
}

/// The path of an instance.
pub(crate) fn put_name(out: &mut String, tree: &Tree, id: Id) -> Result<(), Memory>
    requires { id < length tree.now.nodes }
    ensures { Appends result out.old out.new (path_text (path_at tree.now.nodes id)) }
{
    let path = tree.path_of(id)?;
    Path::put_text(out, path.as_slice())
}
