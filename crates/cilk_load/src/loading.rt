//! How the tables of a checked program are made.

ghost use Rattle.std.specs.Prelude.{◌≡◌, ◌<◌, ◌≤◌, ◌↔◌, true, IfOk};
ghost use Rattle.cilk_load.specs.labelled.Count.{count_program};

use crate::building::{bodies_of, place_of_main};
use crate::counts::{MAX_ACTIONS, count_items};
use crate::fault::LoadFault;
use crate::globals::{globals_of, locks_of};
use crate::lines::action_lines;
use crate::loaded::Loaded;
use crate::nodes::nodes_of;
use crate::room::NoRoom;
use crate::tables::Tables;
use cilk_load_nodes::Checked;
use cilk_tree_syntax::Program;
use std::alloc::Global;
use std::sync::Arc;

/// Whether a program has more actions than it may have.
pub fn has_too_many(program: &Program) -> bool
    ensures { (result ≡ true) ↔ (65535 < count_program program.now) }
{
    count_items(&program.items) > MAX_ACTIONS
}

/// Numbers the actions of a program and places its variables.
pub fn load(alloc: Global, checked: Checked) -> Result<Loaded, LoadFault>
    ensures value { IfOk result (λ loaded. loaded ≡ checked) }
    ensures too_many { (result ≡ Err LoadFault.TooMany) ↔ (65535 < count_program checked) }
{
    if has_too_many(checked.program()) {
        return Err(LoadFault::TooMany);
    }
    loaded(alloc, checked).map_err(|_| LoadFault::Memory)
}

fn loaded(alloc: Global, checked: Checked) -> Result<Loaded, NoRoom>
    requires { count_program checked ≤ 65535 }
    ensures { IfOk result (λ loaded. loaded ≡ checked) }
{
    let tables = tables_of(alloc, checked)?;
    Ok(Loaded::new(Arc::new(alloc, tables)?))
}

fn tables_of(alloc: Global, checked: Checked) -> Result<Tables, NoRoom>
    requires { count_program checked ≤ 65535 }
    ensures { IfOk result (λ tables. tables ≡ checked) }
{
    let program = checked.program();
    let globals = globals_of(alloc, &program.items)?;
    let locks = locks_of(alloc, &program.items)?;
    let bodies = bodies_of(alloc, &program.items)?;
    let main = place_of_main(&bodies).ok_or(NoRoom::TooLarge)?;
    let main = u32::try_from(main).map_err(|_| NoRoom::TooLarge)?;
    let nodes = nodes_of(alloc, &globals, &locks, &bodies, program)?;
    let lines = action_lines(alloc, program)?;
    Ok(Tables {
        program: checked,
        nodes,
        lines,
        bodies,
        main,
        globals,
        locks,
    })
}
